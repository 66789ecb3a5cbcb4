//! A chain of four vertices on two machines, and two logs, worked out by hand.
ghost use Rattle.std.specs.Prelude.{◌≡◌};
ghost use Rattle.cluster_laws.specs.merged_logs.Merges.{IsByTicket, ticket_of};

use crate::graphs::graph_of;
use crate::snaps::print_entries;
use cluster_laws::merged_logs::{count_by_machine, merge};
use gl_base::{Entry, MachineNo, NoMemory, Vertex};
use graph_core::Graph;
use graph_programs::prog_labels::Components;
use partition::machine_numbers::Numbers;
use placement::graphs::{first_base, first_numbers_of_all, placed_by_cut};
use std::alloc::Global;
use std::io;

/// Prints the first numbers of each machine, and how logs are merged.
pub fn print_placed(rt: &impl Print, alloc: Global) -> io::Result<()> {
    match graph_of(alloc, &[5, 6, 7, 8], &[(5, 6), (6, 7), (7, 8)], false) {
        Ok(graph) => print_first(rt, &first_numbers(alloc, &graph))?,
        Err(fault) => println!(rt; "chain: {fault}")?,
    }
    print_merged(rt, alloc, &two_logs(alloc))
}

/// The first numbers of two machines that have a graph of four vertices.
fn first_numbers(alloc: Global, graph: &Graph) -> Result<Vec<Numbers>, NoMemory> {
    let made = placed_by_cut(alloc, graph, 2, 2, Vertex(0))?;
    let base = first_base(alloc, graph, &Components)?;
    if graph.n() != 4 {
        return Err(NoMemory);
    }
    first_numbers_of_all(alloc, made.parts, &base, None)
}

fn print_first(rt: &impl Print, all: &Result<Vec<Numbers>, NoMemory>) -> io::Result<()> {
    match all {
        Ok(all) => print_all(rt, all),
        Err(fault) => println!(rt; "chain on two machines: {fault}"),
    }
}

fn print_all(rt: &impl Print, all: &[Numbers]) -> io::Result<()> {
    println!(rt; "chain on two machines: machines {}", all.len())?;
    for numbers in all {
        print_numbers(rt, numbers)?;
    }
    Ok(())
}

/// Prints the numbers that a machine keeps of the four vertices, with 0 for one of which it keeps
/// none.
fn print_numbers(rt: &impl Print, numbers: &Numbers) -> io::Result<()> {
    let kept = [0, 1, 2, 3].map(|v| numbers.datum(Vertex(v)).value);
    println!(rt;
        "chain, first numbers of a machine: {kept:?}, tasks {}, entries {}",
        numbers.tasks.count(),
        numbers.log.len()
    )
}

fn go(machine: u16, vertex: u32, ticket: u64) -> Entry
    ensures { ticket_of result ≡ ticket }
{
    Entry::Go {
        machine: MachineNo(machine),
        vertex: Vertex(vertex),
        ticket,
    }
}

/// Merges two logs.
fn merge_both(alloc: Global, first: &[Entry], second: &[Entry]) -> Result<Vec<Entry>, NoMemory>
    requires first { IsByTicket first.now }
    requires second { IsByTicket second.now }
{
    merge(alloc, &[first, second])
}

/// The merge of two logs.
fn two_logs(alloc: Global) -> Result<Vec<Entry>, NoMemory> {
    let first = [go(0, 0, 1), go(0, 1, 4)];
    let second = [go(1, 3, 2)];
    merge_both(alloc, &first, &second)
}

fn print_merged(
    rt: &impl Print,
    alloc: Global,
    order: &Result<Vec<Entry>, NoMemory>,
) -> io::Result<()> {
    let Ok(order) = order else {
        return println!(rt; "merged logs: out of memory");
    };
    print!(rt; "merged logs:")?;
    print_entries(rt, order)?;
    match count_by_machine(alloc, order, 2) {
        Ok(counts) => println!(rt; ", entries by machine {counts:?}"),
        Err(fault) => println!(rt; ", {fault}"),
    }
}
