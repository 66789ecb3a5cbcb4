//! What lists of vertices and edges make: a graph, or the fault of the first faulty place.
use crate::graphs::{Line, graph_of, hub, print_fault};
use gl_base::{NoMemory, Vertex};
use graph_core::{Graph, GraphFault, Half};
use std::alloc::Global;
use std::io;

/// Lists by a name, and whether edges have a direction.
type Lists = (&'static str, &'static [u64], &'static [Line], bool);

static LISTS: [Lists; 10] = [
    ("a loop", &[1, 2, 7], &[(1, 2, 0), (7, 7, 1)], false),
    ("an edge back", &[1, 2, 7], &[(1, 2, 0), (2, 1, 1)], false),
    ("two edges", &[1, 2, 7], &[(1, 2, 0), (2, 7, 1)], false),
    (
        "an end that is no vertex",
        &[1, 2, 7],
        &[(1, 2, 0), (7, 8, 1)],
        false,
    ),
    (
        "a directed edge back",
        &[1, 2],
        &[(1, 2, 0), (2, 1, 1)],
        true,
    ),
    (
        "a directed edge twice",
        &[1, 2],
        &[(1, 2, 0), (1, 2, 1)],
        true,
    ),
    (
        "an edge back before an unknown end",
        &[1, 2],
        &[(1, 2, 0), (2, 1, 1), (5, 5, 2)],
        false,
    ),
    (
        "an unknown end before a loop",
        &[1, 2],
        &[(5, 5, 0), (1, 1, 1)],
        false,
    ),
    (
        "vertices twice before an unknown end",
        &[3, 1, 3, 1],
        &[(5, 5, 0)],
        false,
    ),
    ("no vertices", &[], &[], false),
];

/// Prints what lists make, and what graphs tell of their vertices.
pub fn print_builds(rt: &impl Print, alloc: Global) -> io::Result<()> {
    for (name, ids, edges, directed) in &LISTS {
        print_build(rt, name, &graph_of(alloc, ids, edges, *directed))?;
    }
    for (vertex, lists) in &VERTICES {
        print_vertex_of(rt, alloc, *vertex, lists)?;
    }
    print_hub(rt, alloc)?;
    print_far(rt, alloc)
}

fn print_build(rt: &impl Print, name: &str, built: &Result<Graph, GraphFault>) -> io::Result<()> {
    match built {
        Ok(graph) => println!(rt;
            "lists with {name}: vertices {}, edges {}",
            graph.n(),
            graph.m()
        ),
        Err(fault) => println!(rt; "lists with {name}: {fault}"),
    }
}

/// A vertex of the graph that lists make.
static VERTICES: [(u32, Lists); 2] = [
    (
        1,
        (
            "an unordered path",
            &[7, 1, 2],
            &[(7, 2, 0), (2, 1, 1)],
            false,
        ),
    ),
    (
        0,
        ("both directions", &[1, 2], &[(1, 2, 0), (2, 1, 1)], true),
    ),
];

/// Prints what the graph of these lists tells of a vertex.
fn print_vertex_of(
    rt: &impl Print,
    alloc: Global,
    vertex: u32,
    (name, ids, edges, directed): &Lists,
) -> io::Result<()> {
    match graph_of(alloc, ids, edges, *directed) {
        Ok(graph) => print_vertex(rt, alloc, name, &graph, vertex),
        Err(fault) => print_fault(rt, name, fault),
    }
}

fn print_vertex(
    rt: &impl Print,
    alloc: Global,
    name: &str,
    graph: &Graph,
    vertex: u32,
) -> io::Result<()> {
    if vertex >= graph.n() {
        return println!(rt; "{name}: no vertex {vertex}");
    }
    print!(rt; "{name}, neighbours of vertex {vertex}:")?;
    let mut list = Vec::new(alloc);
    let listed = graph.list_neighbours(Vertex(vertex), &mut list);
    print_neighbours(rt, listed, &list)?;
    print!(rt; "\n{name}, edges at vertex {vertex}:")?;
    print_halves(rt, graph.halves(Vertex(vertex)))
}

fn print_neighbours(
    rt: &impl Print,
    listed: Result<(), NoMemory>,
    list: &[Vertex],
) -> io::Result<()> {
    if listed.is_err() {
        return print!(rt; " out of memory");
    }
    for neighbour in list {
        print!(rt; " {}", neighbour.0)?;
    }
    Ok(())
}

fn print_halves(rt: &impl Print, halves: &[Half]) -> io::Result<()> {
    for half in halves {
        let (edge, other, weight) = (half.edge.0, half.other.0, half.weight);
        let way = way_of(half.out, half.into);
        print!(rt; " (edge {edge} {way} {other}, weight {weight})")?;
    }
    println!(rt; "")
}

fn way_of(out: bool, into: bool) -> &'static str {
    match (out, into) {
        (true, true) => "with",
        (false, true) => "from",
        (true, false) => "to",
        (false, false) => "beside",
    }
}

/// Prints how many neighbours the hub has, and which one its leaves have.
fn print_hub(rt: &impl Print, alloc: Global) -> io::Result<()> {
    match hub(alloc) {
        Ok(graph) => print_spokes(rt, alloc, &graph),
        Err(fault) => print_fault(rt, "hub", fault),
    }
}

fn print_spokes(rt: &impl Print, alloc: Global, graph: &Graph) -> io::Result<()> {
    for vertex in [500, 0, 499, 501, 1000] {
        print_count(rt, alloc, graph, vertex)?;
    }
    Ok(())
}

fn print_count(rt: &impl Print, alloc: Global, graph: &Graph, vertex: u32) -> io::Result<()> {
    let mut list = Vec::new(alloc);
    if vertex >= graph.n() || graph.list_neighbours(Vertex(vertex), &mut list).is_err() {
        return println!(rt; "hub, vertex {vertex}: no neighbours");
    }
    let first = list.first().copied().unwrap_or(Vertex(0)).0;
    println!(rt;
        "hub, vertex {vertex}: neighbours {}, the first {first}",
        list.len()
    )
}

static FAR: [u64; 6] = [
    3,
    4,
    1000,
    5_000_000_000,
    9223372036854775805,
    9223372036854775806,
];

static SOUGHT: [u64; 10] = [
    3,
    1000,
    5_000_000_000,
    9223372036854775806,
    0,
    2,
    5,
    999,
    4_999_999_999,
    9223372036854775807,
];

/// Prints which vertices have identifiers that lie far from one another.
fn print_far(rt: &impl Print, alloc: Global) -> io::Result<()> {
    match graph_of(alloc, &FAR, &[], false) {
        Ok(graph) => print_found(rt, &graph),
        Err(fault) => print_fault(rt, "far identifiers", fault),
    }
}

fn print_found(rt: &impl Print, graph: &Graph) -> io::Result<()> {
    for id in &SOUGHT {
        match graph.find(*id) {
            Some(vertex) => println!(rt; "identifier {id} is found: vertex {}", vertex.0)?,
            None => println!(rt; "identifier {id} is not found")?,
        }
    }
    Ok(())
}
