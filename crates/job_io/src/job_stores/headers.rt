//! What the store of a job is for.
ghost use Rattle.std.specs.Prelude.{◌≡◌, ◌≢◌};
ghost use Rattle.gl_base.specs.declared.jobs.Algorithm.TheVariants.{Pairs};
ghost use Rattle.job_io.specs.job_config.Ranges.{HasNumbers};
ghost use Rattle.job_io.specs.job_config.Views.{job_view};
ghost use Rattle.store.specs.store_format.Headers.{IsAllowed};
ghost use Rattle.job_io.specs.job_stores.JobHeaders.{algorithm_number, header_for, used_source};

use gl_base::{Algorithm, Job};
use graph_core::{Graph, digest};
use store::store_format::{Digest, Header};

/// What the store of a job on its graph is for: the machines and the program of the job, and the
/// graph. Pairs have no store.
pub fn header_of(job: &Job, graph: &Graph) -> Header
    requires numbers { HasNumbers (job_view job.now).fields }
    requires stored { job.now.algorithm ≢ Pairs }
    ensures header { result ≡ header_for (job_view job.now).fields graph.now }
    ensures allowed { IsAllowed result }
{
    Header {
        machines: job.machines,
        algorithm: algorithm_number(job.algorithm),
        directed: u8::from(graph.directed()),
        source: used_source(job),
        n: graph.n(),
        m: graph.m(),
        digest: Digest(digest(graph)),
    }
}

/// The number that an algorithm has in a store. Pairs have none there.
fn algorithm_number(algorithm: Algorithm) -> u8
    requires { algorithm ≢ Pairs }
    ensures { result ≡ algorithm_number algorithm }
{
    match algorithm {
        Algorithm::Levels => 1,
        Algorithm::Components => 2,
        Algorithm::Paths => 3,
        Algorithm::Colours => 4,
        Algorithm::Cores => 5,
        Algorithm::Pairs => unreachable!(),
    }
}

/// The source that the algorithm starts from, and 0 where it has none.
fn used_source(job: &Job) -> u64
    ensures { result ≡ used_source job.now.algorithm job.now.source }
{
    match job.algorithm {
        Algorithm::Levels => job.source.unwrap_or(0),
        Algorithm::Components => 0,
        Algorithm::Paths => job.source.unwrap_or(0),
        Algorithm::Colours => 0,
        Algorithm::Cores => 0,
        Algorithm::Pairs => 0,
    }
}
