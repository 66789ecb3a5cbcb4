//! Prints tables of the parts of a machine, of the waves and the coordinator that lead machines, of
//! what machines hold of graphs, and of stores in memory; and how random calls of locks, pipes and
//! task sets are answered beside plain lists.
//!
//! Each line names a case and tells what was seen of it. What is wanted stands in the file
//! `stdout`: it was worked out by hand, or comes from the description of a format.
#![tactic(auto)]

mod chances;
mod full;
mod ghosts;
mod graphs;
mod held;
mod images;
mod leading;
mod locks;
mod matched;
mod messages;
mod paired;
mod pipes;
mod placed;
mod plain_locks;
mod plain_pipes;
mod plain_tasks;
mod played;
mod samples;
mod series;
mod sizes;
mod snaps;
mod starts;
mod stops;
mod store_edits;
mod stored;
mod tasks;
mod updates;
mod waves;
mod wholes;

use full::{print_failed_journal, print_full_store};
use ghosts::print_ghosts;
use held::print_held;
use leading::print_leading;
use locks::print_locks;
use matched::print_matched;
use messages::print_messages;
use paired::print_paired;
use pipes::print_pipes;
use placed::print_placed;
use plain_locks::print_random_locks;
use plain_pipes::print_random_pipes;
use plain_tasks::print_random_tasks;
use played::print_played;
use sizes::print_sizes;
use snaps::print_snaps;
use starts::print_starts;
use std::alloc::Global;
use std::io;
use std::sync::Wait;
use stops::{print_failing_calls, print_stopped_calls};
use store_edits::print_edits;
use tasks::print_tasks;
use updates::print_update;
use waves::print_waves;
use wholes::print_wholes;

fn main(rt: HostRuntime) -> io::Result<()> {
    print_parts(&rt, rt.alloc())?;
    print_whole_scopes(&rt, rt.alloc())?;
    print_stores(&rt, rt.alloc())?;
    print_random_locks(&rt, rt.alloc())?;
    print_random_pipes(&rt, rt.alloc())?;
    print_random_tasks(&rt, rt.alloc())
}

fn print_parts(rt: &impl Print, alloc: Global) -> io::Result<()> {
    print_ghosts(rt, alloc)?;
    print_locks(rt, alloc)?;
    print_messages(rt, alloc)?;
    print_pipes(rt, alloc)?;
    print_tasks(rt, alloc)?;
    print_waves(rt, alloc)?;
    print_leading(rt, alloc)?;
    print_snaps(rt, alloc)?;
    print_held(rt, alloc)?;
    print_update(rt, alloc)?;
    print_placed(rt, alloc)
}

fn print_whole_scopes<R: Print + Wait>(rt: &R, alloc: Global) -> io::Result<()> {
    print_wholes(rt, alloc)?;
    print_matched(rt, alloc)?;
    print_paired(rt, alloc)?;
    print_played(rt, alloc)
}

fn print_stores(rt: &impl Print, alloc: Global) -> io::Result<()> {
    print_sizes(rt, alloc)?;
    print_starts(rt, alloc)?;
    print_edits(rt, alloc)?;
    print_failing_calls(rt, alloc)?;
    print_stopped_calls(rt, alloc)?;
    print_full_store(rt, alloc)?;
    print_failed_journal(rt, alloc)
}
