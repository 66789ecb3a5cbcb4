//! A caller that uses what is proved of a run.
ghost use Rattle.std.specs.Prelude.{◌<◌, IfOk};
ghost use Rattle.graph_core.specs.DataGraph.{size};
ghost use Rattle.graph_core.specs.Levels.{AreLevels};

use gl_base::Vertex;
use graph_core::Graph;
use graph_programs::prog_labels::Levels;
use seq_run::{Played, RunFault, SeqRun};
use std::alloc::Global;

/// The level of each vertex from `source`, by a run of at most `budget` updates.
pub fn levels_from(
    alloc: Global,
    graph: &Graph,
    source: Vertex,
    budget: u64,
) -> Result<Vec<u64>, RunFault>
    requires { source.0 < size graph.now }
    ensures { IfOk result (λ levels. AreLevels graph.now source.0 levels.items) }
{
    let levels = Levels {
        source: graph.id(source),
    };
    let mut run = SeqRun::new(alloc, graph, levels)?;
    run.run(budget)?;
    let Played { values, .. } = run.finish();
    Ok(values)
}
