//! The keys that a job may have.
ghost use Rattle.std.specs.Prelude.{◌≡◌, option_map, string_bytes};
ghost use Rattle.serde_json.specs.View.{members_view};
ghost use Rattle.job_io.specs.job_config.Failures.{keys_in};
ghost use Rattle.job_io.specs.job_config.Keys.{is_file_key, is_graph_key, is_known, is_run_key, least_unknown};

use serde_json::{Map, Value};

/// Whether a key says what is computed, and of which graph.
fn is_graph_key(key: &str) -> bool
    ensures { result ≡ is_graph_key key.now }
{
    matches!(
        key,
        "vertices" | "edges" | "directed" | "algorithm" | "source"
    )
}

/// Whether a key says how it is run.
fn is_run_key(key: &str) -> bool
    ensures { result ≡ is_run_key key.now }
{
    matches!(
        key,
        "engine" | "machines" | "atoms" | "pipeline" | "budget" | "window"
    )
}

/// Whether a key says where it is kept, and how it fails.
fn is_file_key(key: &str) -> bool
    ensures { result ≡ is_file_key key.now }
{
    matches!(key, "store" | "atoms_at" | "order" | "failures")
}

/// Whether a job may have the key.
fn is_known(key: &str) -> bool
    ensures { result ≡ is_known key.now }
{
    is_graph_key(key) || is_run_key(key) || is_file_key(key)
}

/// The least key in byte order that no job may have.
pub fn least_unknown(members: &Map<String, Value>) -> Option<&String>
    ensures { option_map (λ k. string_bytes k.now) result
        ≡ least_unknown (keys_in (members_view members.entry.now.entries)) }
{
    for name in members.keys() {
        if !is_known(name.as_str()) {
            return Some(name);
        }
    }
    None
}
