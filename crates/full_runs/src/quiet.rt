//! Whether something is on its way between the machines of a cluster.
ghost use Rattle.std.specs.Prelude.{◌≡◌, ℕ, ◌<◌, [], true, false};
ghost use Rattle.cluster_laws.specs.cluster_core.Settings.{Setting};
ghost use Rattle.full_scope.specs.FullUpdates.{FullUpdate};
ghost use Rattle.full_laws.specs.FullRuns.{IsAllGiven};
ghost use Rattle.full_laws.specs.FullWorlds.{FullWorld, full_way};
ghost use Rattle.full_cluster.specs.FullClusters.{IsClusterOf};

use full_cluster::FullCluster;
use gl_base::MachineNo;

/// Whether no message is on its way between so many machines.
pub(crate) fn is_quiet(cluster: &FullCluster, machines: u16) -> bool
    ensures { (st : Setting) (p : FullUpdate) (w : FullWorld) → IsClusterOf st p w cluster.now →
        st.machines ≡ machines → result ≡ true → IsAllGiven w }
{
    for a in 0..machines {
        if !is_silent(cluster, MachineNo(a), machines) {
            return false;
        }
    }
    true
}

/// Whether no message of this machine is on its way to one of so many.
fn is_silent(cluster: &FullCluster, a: MachineNo, machines: u16) -> bool
    ensures { (st : Setting) (p : FullUpdate) (w : FullWorld) → IsClusterOf st p w cluster.now →
        result ≡ true → (q : ℕ) → q < machines → full_way w a.0 q ≡ [] }
{
    for q in 0..machines {
        if has_message(cluster, a, MachineNo(q)) {
            return false;
        }
    }
    true
}

/// Whether a message is on its way from one machine to the other: on the link, or in the outbox.
fn has_message(cluster: &FullCluster, from: MachineNo, to: MachineNo) -> bool
    ensures { (st : Setting) (p : FullUpdate) (w : FullWorld) → IsClusterOf st p w cluster.now →
        result ≡ false → full_way w from.0 to.0 ≡ [] }
{
    if is_on_link(cluster, from, to) {
        return true;
    }
    is_in_outbox(cluster, from, to)
}

/// Whether a message is on the link.
fn is_on_link(cluster: &FullCluster, from: MachineNo, to: MachineNo) -> bool
    ensures { (st : Setting) (p : FullUpdate) (w : FullWorld) → IsClusterOf st p w cluster.now →
        result ≡ false → w.link from.0 to.0 ≡ [] }
{
    match cluster.links_from(from) {
        Some(links) => links.waits(to),
        None => false,
    }
}

/// Whether a message is in the outbox.
fn is_in_outbox(cluster: &FullCluster, from: MachineNo, to: MachineNo) -> bool
    ensures { (st : Setting) (p : FullUpdate) (w : FullWorld) → IsClusterOf st p w cluster.now →
        result ≡ false → (w.part from.0).out to.0 ≡ [] }
{
    match cluster.machine(from) {
        Some(machine) => machine.out.waits(to),
        None => false,
    }
}
