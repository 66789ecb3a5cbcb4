//! Laws of a job's store. Each is the contract of a function that does nothing.
ghost use Rattle.job_io.specs.job_config.Jobs.{JobSayings};
ghost use Rattle.engine_cli.specs.JobRuns.{AreAlikeJobs, HaveSameStores};

/// A store of a job is one of each job that names the same algorithm, source and machines, on a
/// graph that is cut so. So failures, engine, window, pipeline and budget may differ from call to
/// call, and atoms as far as they cut the graph in the same way.
pub fn stores_serve_alike_jobs()
    ensures { (one other : JobSayings) → AreAlikeJobs one other → HaveSameStores one other }
{}
