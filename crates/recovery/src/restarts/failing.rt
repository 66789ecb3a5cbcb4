//! How many machines have failed.
ghost use Rattle.std.specs.Prelude.{◌≡◌, ℕ, ◌<◌, false, if◌then◌else◌, length, slice_index_or};
ghost use Rattle.recovery.specs.restarts.Missing.{Setting};
ghost use Rattle.cluster_laws.specs.cluster_model.Clusters.{Cluster};
ghost use Rattle.cluster_laws.specs.cluster_model.Events.{failures_in};

/// How many machines have failed in a cluster of which these flags say which have.
pub fn count_failed(flags: &[bool]) -> usize
    ensures { (st : Setting) (c : Cluster) → length flags.now ≡ st.machines →
        ((a : ℕ) → a < st.machines → (c.machine a).failed ≡ slice_index_or flags.now a false) →
        result ≡ failures_in st c }
{
    let mut failed = 0;
    for at in 0..flags.len() {
        failed += one_where(flags[at]);
    }
    failed
}

/// 1 where it is so, and 0 where it isn't.
fn one_where(flag: bool) -> usize
    ensures { result ≡ (if flag then 1 else 0) }
{
    if flag { 1 } else { 0 }
}
