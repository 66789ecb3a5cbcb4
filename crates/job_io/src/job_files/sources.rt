//! The source of a job.
ghost use Rattle.std.specs.Prelude.{◌≡◌, is_some, true};
ghost use Rattle.job_io.specs.job_config.Fields.{needs_source};
ghost use Rattle.job_io.specs.job_config.Ranges.{HasSource};
ghost use Rattle.job_io.specs.job_config.Views.{job_view};
ghost use Rattle.job_io.specs.job_files.Inner.Graphs.{LooksForSource};

use gl_base::{Algorithm, Job};
use graph_core::Graph;

/// The job's source, where the algorithm needs one and no vertex of the graph has its identifier.
pub fn lacked_source(graph: &Graph, job: &Job) -> Option<u64>
    requires { HasSource (job_view job.now).fields.algorithm (job_view job.now).fields.source }
    ensures { LooksForSource (job_view job.now).fields graph.now result }
{
    match job.algorithm {
        Algorithm::Levels => missed_source(graph, job),
        Algorithm::Components => None,
        Algorithm::Paths => missed_source(graph, job),
        Algorithm::Colours => None,
        Algorithm::Cores => None,
        Algorithm::Pairs => None,
    }
}

/// The job's source, where no vertex of the graph has its identifier.
fn missed_source(graph: &Graph, job: &Job) -> Option<u64>
    requires needed { needs_source (job_view job.now).fields.algorithm ≡ true }
    requires source { is_some (job_view job.now).fields.source ≡ true }
    ensures { LooksForSource (job_view job.now).fields graph.now result }
{
    let Some(source) = job.source else {
        unreachable!()
    };
    match graph.find(source) {
        Some(_) => None,
        None => Some(source),
    }
}
