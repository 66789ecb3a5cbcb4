//! The plan of a job's run, and its program.
ghost use Rattle.std.specs.Prelude.{◌≡◌, ◌≢◌};
ghost use Rattle.gl_base.specs.declared.jobs.Algorithm.TheVariants.{Pairs};
ghost use Rattle.engine_cli.specs.Plays.{source_id, update_of, update_of_program};

use gl_base::{INF, Job};
use graph_programs::selection::JobProgram;
use placement::plans::RunPlan;

/// How the job's program is run on its graph.
pub fn plan_of(job: &Job) -> RunPlan
    ensures { result ≡ record {
      machines = job.now.machines;
      pipeline = job.now.pipeline;
      budget = job.now.budget;
    } }
{
    RunPlan {
        machines: job.machines,
        pipeline: job.pipeline,
        budget: job.budget,
    }
}

/// The program of the job's algorithm, which is not that of pairs.
pub fn program_of(job: &Job) -> JobProgram
    requires { job.now.algorithm ≢ Pairs }
    ensures { update_of_program result ≡ update_of job.now.algorithm job.now.source }
{
    match JobProgram::of(job.algorithm, source_of(job)) {
        Some(program) => program,
        None => unreachable!(),
    }
}

/// The identifier of the job's source, and the greatest number where it has none.
fn source_of(job: &Job) -> u64
    ensures { result ≡ source_id job.now.source }
{
    job.source.unwrap_or(INF)
}
