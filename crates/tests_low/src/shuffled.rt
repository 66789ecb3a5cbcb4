//! How many updates runs make on larger graphs whose identifiers stand in no order.
ghost use Rattle.std.specs.Prelude.{◌<◌};

use crate::graphs::{build, edge_between, print_fault};
use graph_core::{EdgeIn, Graph, GraphFault};
use graph_programs::prog_labels::{Components, Levels};
use seq_run::{RunFault, SeqRun};
use std::alloc::{AllocError, Global};
use std::io;
use update_api::Program;

/// Prints whether runs make at most a tenth more than two updates a vertex.
pub fn print_shuffled(rt: &impl Print, alloc: Global) -> io::Result<()> {
    print_counts(
        rt,
        alloc,
        "a grid of 300 rows",
        &grid(alloc, 300, 300, false),
    )?;
    print_counts(
        rt,
        alloc,
        "a chain of 100000",
        &grid(alloc, 1, 100000, false),
    )?;
    print_counts(rt, alloc, "a ring of 100000", &grid(alloc, 1, 100000, true))
}

/// An identifier for each place below 1000003, and another one for each.
fn id_at(place: u64) -> u64 {
    place.wrapping_mul(7919) % 1000003
}

/// A grid of so many rows and columns: with one row a chain, or a ring where its ends are joined.
fn grid(alloc: Global, rows: u64, columns: u64, is_ring: bool) -> Result<Graph, GraphFault>
    requires { 0 < columns }
{
    let count = rows.wrapping_mul(columns);
    let edges = edges_of(alloc, count, columns, is_ring)?;
    build(alloc, ids_of(alloc, count)?, edges, false)
}

fn ids_of(alloc: Global, count: u64) -> Result<Vec<u64>, AllocError> {
    let mut ids = Vec::new(alloc);
    for place in 0..count {
        ids.push(id_at(place))?;
    }
    Ok(ids)
}

/// The edges between neighbours in a row or a column, and that of the ring.
fn edges_of(
    alloc: Global,
    count: u64,
    columns: u64,
    is_ring: bool,
) -> Result<Vec<EdgeIn>, AllocError>
    requires { 0 < columns }
{
    let mut edges = Vec::new(alloc);
    for place in 0..count {
        let right = place.wrapping_add(1);
        let below = place.wrapping_add(columns);
        if right % columns != 0 {
            edges.push(between_places(place, right))?;
        }
        if below < count {
            edges.push(between_places(place, below))?;
        }
    }
    if is_ring {
        edges.push(between_places(0, count.wrapping_sub(1)))?;
    }
    Ok(edges)
}

fn between_places(from: u64, to: u64) -> EdgeIn {
    edge_between(id_at(from), id_at(to))
}

fn print_counts(
    rt: &impl Print,
    alloc: Global,
    name: &str,
    built: &Result<Graph, GraphFault>,
) -> io::Result<()> {
    let graph = match built {
        Ok(graph) => graph,
        Err(fault) => return print_fault(rt, name, *fault),
    };
    let most = graph.n() as usize * 21 / 10;
    print_count(
        rt,
        name,
        "components",
        most,
        updates_of(alloc, graph, Components),
    )?;
    print_count(
        rt,
        name,
        "levels",
        most,
        updates_of(alloc, graph, Levels { source: 0 }),
    )
}

fn updates_of<P: Program>(alloc: Global, graph: &Graph, program: P) -> Result<usize, RunFault> {
    let mut run = SeqRun::new(alloc, graph, program)?;
    run.run(16777216)?;
    Ok(run.order().len())
}

fn print_count(
    rt: &impl Print,
    name: &str,
    program: &str,
    most: usize,
    updates: Result<usize, RunFault>,
) -> io::Result<()> {
    match updates {
        Ok(updates) => println!(rt;
            "{program} on {name}: at most {most} updates {}",
            updates <= most
        ),
        Err(fault) => println!(rt; "{program} on {name}: {fault}"),
    }
}
