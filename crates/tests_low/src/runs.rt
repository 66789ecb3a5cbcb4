//! The final numbers of vertices and of edges, and the order of the updates.
use crate::callers::levels_from;
use crate::graphs::{Line, graph_of, print_fault};
use gl_base::{Entry, Vertex};
use graph_core::Graph;
use graph_programs::prog_labels::Levels;
use graph_programs::prog_paths::Paths;
use seq_run::{Played, RunFault, SeqRun};
use std::alloc::Global;
use std::io;
use update_api::Program;

/// A line from 1 to 3, beside vertex 4.
pub static LINE: [Line; 2] = [(1, 2, 1), (2, 3, 1)];

/// Two ways of one length from 1 to 4, and a longer one.
static WAYS: [Line; 5] = [(1, 2, 0), (1, 3, 5), (2, 4, 5), (3, 4, 0), (1, 4, 6)];

/// Prints how runs end.
pub fn print_runs(rt: &impl Print, alloc: Global) -> io::Result<()> {
    match graph_of(alloc, &[1, 2, 3, 4], &LINE, false) {
        Ok(line) => print_levels(rt, alloc, &line)?,
        Err(fault) => print_fault(rt, "line", fault)?,
    }
    match graph_of(alloc, &[1, 2, 3, 4], &WAYS, false) {
        Ok(ways) => print_end(
            rt,
            "paths two ways",
            &played(alloc, &ways, Paths { source: 1 }),
        ),
        Err(fault) => print_fault(rt, "two ways", fault),
    }
}

fn print_levels(rt: &impl Print, alloc: Global, line: &Graph) -> io::Result<()> {
    print_line_end(rt, &played(alloc, line, Levels { source: 1 }))?;
    if line.n() <= 2 {
        return println!(rt; "levels from 3: no vertex");
    }
    match levels_from(alloc, line, Vertex(2), 1000) {
        Ok(levels) => println!(rt; "levels from 3 for a caller: {levels:?}"),
        Err(fault) => println!(rt; "levels from 3 for a caller: {fault}"),
    }
}

/// What a run to the end leaves.
fn played<P: Program>(alloc: Global, graph: &Graph, program: P) -> Result<Played, RunFault> {
    let mut run = SeqRun::new(alloc, graph, program)?;
    run.run(1000)?;
    Ok(run.finish())
}

fn print_end(rt: &impl Print, name: &str, end: &Result<Played, RunFault>) -> io::Result<()> {
    match end {
        Ok(end) => println!(rt; "{name}: numbers {:?}, edges {:?}", end.values, end.edges),
        Err(fault) => println!(rt; "{name}: {fault}"),
    }
}

fn print_line_end(rt: &impl Print, end: &Result<Played, RunFault>) -> io::Result<()> {
    print_end(rt, "levels along a line", end)?;
    print!(rt; "order of levels along a line:")?;
    match end {
        Ok(end) => print_order(rt, &end.order),
        Err(fault) => println!(rt; " {fault}"),
    }
}

/// Prints the entries of an order: ticket, vertex and machine.
pub fn print_order(rt: &impl Print, order: &[Entry]) -> io::Result<()> {
    for entry in order {
        print_entry(rt, entry)?;
    }
    println!(rt; "")
}

fn print_entry(rt: &impl Print, entry: &Entry) -> io::Result<()> {
    match entry {
        Entry::Go {
            machine,
            vertex,
            ticket,
        } => print!(rt; " {ticket}:{}@{}", vertex.0, machine.0),
        Entry::Restart { ticket } => print!(rt; " {ticket}:restart"),
    }
}
