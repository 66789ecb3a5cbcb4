//! Half-edges by vertex.
ghost use Rattle.std.specs.Prelude.{◌≡◌, ℕ, ◌+◌, ◌<◌, ◌^◌, [], length, slice_index_or, IfOk};
ghost use Rattle.local_graph.specs.Lines.{halves_of_lines};

use crate::ends::EndsOf;
use gl_base::NoMemory;
use graph_core::{Half, Rows};
use std::alloc::Global;

/// The half-edges at each vertex below `none`, and behind them those at none.
pub fn halves_by_vertex(alloc: Global, ends: &EndsOf<'_>) -> Result<Rows<Half>, NoMemory>
    requires { ends.now.none + 1 < 2 ^ 32 }
    ensures count { IfOk result (λ rows. length rows ≡ ends.now.none + 1) }
    ensures each { IfOk result (λ rows. (v : ℕ) → v < ends.now.none →
        slice_index_or rows v [] ≡ halves_of_lines ends.now.directed ends.now.edges.now v) }
{
    let rows = Rows::group(alloc, ends.none as usize + 1, ends)?;
    Ok(rows)
}
