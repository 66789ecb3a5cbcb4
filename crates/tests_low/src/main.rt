//! Prints tables of what stands below the cluster: the outside, graphs, their atoms and colourings,
//! texts, and sequential runs.
//!
//! Each line names a case and tells what was seen of it. What is wanted stands in the file
//! `stdout`: it was worked out by hand, or comes from another program.
#![tactic(auto)]

mod answers;
mod atom_samples;
mod atoms;
mod builds;
mod bytes;
mod callers;
mod colourings;
mod cuts;
mod disks;
mod graphs;
mod images;
mod jobs;
mod limits;
mod makings;
mod memory;
mod names;
mod pieces;
mod readings;
mod runs;
mod scopes;
mod shuffled;
mod system;
mod tasks;

use answers::print_answers;
use atoms::print_atoms;
use builds::print_builds;
use colourings::print_colourings;
use cuts::print_cuts;
use gl_outside::NoteSink;
use jobs::print_jobs;
use limits::print_limits;
use makings::print_makings;
use memory::print_memory;
use readings::print_readings;
use runs::print_runs;
use scopes::print_scopes;
use shuffled::print_shuffled;
use std::io;
use system::{print_nothing, print_streams, print_system};
use tasks::print_tasks;

fn main(rt: HostRuntime) -> io::Result<()> {
    let alloc = rt.alloc();
    print_memory(&rt, alloc)?;
    print_system(&rt, alloc)?;
    print_streams(&rt, alloc)?;
    print_nothing(&rt, &mut NoteSink::new(rt.stderr()))?;
    print_builds(&rt, alloc)?;
    print_colourings(&rt, alloc)?;
    print_atoms(&rt, alloc)?;
    print_cuts(&rt, alloc)?;
    print_readings(&rt, alloc)?;
    print_limits(&rt, alloc)?;
    print_makings(&rt, alloc)?;
    print_jobs(&rt, alloc)?;
    print_answers(&rt, alloc)?;
    print_scopes(&rt)?;
    print_runs(&rt, alloc)?;
    print_tasks(&rt, alloc)?;
    print_shuffled(&rt, alloc)
}
