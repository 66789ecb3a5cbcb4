//! Jobs that are right.
use gl_base::{Job, JobFault, OrNoMemory};
use job_io::job_config::read_job;
use std::alloc::Global;
use std::io;

/// What stands behind the keys that a job of levels needs.
static MORE: [&str; 22] = [
    "",
    ",\"source\":0",
    ",\"source\":9223372036854775806",
    ",\"engine\":\"chromatic\"",
    ",\"engine\":\"locking\"",
    ",\"machines\":1",
    ",\"machines\":16",
    ",\"machines\":99,\"machines\":2",
    ",\"atoms\":1",
    ",\"machines\":3,\"atoms\":1024",
    ",\"pipeline\":1",
    ",\"pipeline\":256",
    ",\"budget\":1",
    ",\"budget\":16777216",
    ",\"window\":1",
    ",\"window\":16777216",
    ",\"store\":\"s\",\"order\":\"t\",\"atoms_at\":\"s\"",
    ",\"order\":\"s\"",
    ",\"failures\":[]",
    ",\"machines\":2,\"failures\":[{\"machine\":0,\"after\":1}]",
    ",\"machines\":2,\"failures\":[{\"after\":16777216,\"machine\":1}]",
    ",\"machines\":2,\"failures\":[{\"machine\":0,\"after\":1},{\"machine\":1,\"after\":1},{\"machine\":0,\"after\":2}]",
];

/// Prints what is read of each job.
pub fn print_jobs(rt: &impl Print, alloc: Global) -> io::Result<()> {
    for more in &MORE {
        print_job(rt, alloc, more)?;
    }
    Ok(())
}

fn print_job(rt: &impl Print, alloc: Global, more: &str) -> io::Result<()> {
    let text = format!(in alloc;
        "{{\"vertices\":\"g.v\",\"edges\":\"g.e\",\"directed\":false,\"algorithm\":\"levels\",\"source\":1{more}}}"
    )?;
    print_read(rt, more, &read_job(alloc, text.as_bytes()))
}

fn print_read(
    rt: &impl Print,
    more: &str,
    read: &Result<Job, OrNoMemory<JobFault>>,
) -> io::Result<()> {
    match read {
        Ok(job) => print_numbers(rt, more, job),
        Err(fault) => println!(rt; "job with {more:?}: {fault}"),
    }
}

fn print_numbers(rt: &impl Print, more: &str, job: &Job) -> io::Result<()> {
    let (machines, atoms, pipeline) = (job.machines, job.atoms, job.pipeline);
    let (budget, window, failures) = (job.budget, job.window, job.failures.len());
    println!(rt;
        "job with {more:?}: machines {machines}, atoms {atoms}, pipeline {pipeline}, budget {budget}, window {window}, failures {failures}"
    )
}
