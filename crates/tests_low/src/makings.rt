//! `make_vertices` and `make_edges`.
ghost use Rattle.std.specs.Prelude.{IsTrue};
ghost use Rattle.graph_text.specs.generate.Making.{IsPlanInRange};

use crate::bytes::text_of;
use crate::limits::read_graph;
use gl_base::MakePlan;
use gl_outside::MemSink;
use graph_text::generate::{Writing, make_edges, make_vertices};
use std::alloc::{AllocError, Global};
use std::io;

/// So many bytes are room enough.
const ROOM: u64 = 1000000;

/// Prints lines of a made graph, how large it is, and what failing writes leave.
pub fn print_makings(rt: &impl Print, alloc: Global) -> io::Result<()> {
    let plan = plan(10000, 40000);
    let mut vertices = sink(alloc, 0, ROOM)?;
    let mut edges = sink(alloc, 0, ROOM)?;
    print_ends(
        rt,
        "10000 vertices",
        &write_vertices(alloc, &mut vertices, &plan),
    )?;
    print_ends(rt, "40000 edges", &write_edges(alloc, &mut edges, &plan))?;
    print_lines(rt, edges.bytes())?;
    print_size(rt, alloc, vertices.bytes(), edges.bytes(), false)?;
    print_size(rt, alloc, vertices.bytes(), edges.bytes(), true)?;
    print_fronts(rt, alloc)
}

fn plan(vertices: u32, edges: u32) -> MakePlan {
    MakePlan {
        number: 7,
        vertices,
        edges,
        weight: None,
    }
}

fn sink(alloc: Global, failing: u64, room: u64) -> Result<MemSink, AllocError> {
    Ok(MemSink::new(alloc, vec![in alloc; failing]?, room))
}

/// Whether the numbers are in their ranges, as the calls ask.
fn is_in_ranges(plan: &MakePlan) -> bool
    ensures { IsTrue result → IsPlanInRange plan.now }
{
    let half = plan.vertices.saturating_sub(1) / 2;
    plan.vertices <= 1048576
        && plan.edges <= 4194304
        && u64::from(plan.edges) <= u64::from(plan.vertices) * u64::from(half)
}

/// How the writing of the vertices ends, where the plan may be made.
fn write_vertices(alloc: Global, out: &mut MemSink, plan: &MakePlan) -> Option<Writing> {
    if !is_in_ranges(plan) {
        return Some(Writing::NoMemory);
    }
    make_vertices(alloc, out, plan).err()
}

fn write_edges(alloc: Global, out: &mut MemSink, plan: &MakePlan) -> Option<Writing> {
    if !is_in_ranges(plan) {
        return Some(Writing::NoMemory);
    }
    make_edges(alloc, out, plan).err()
}

fn print_ends(rt: &impl Print, name: &str, fault: &Option<Writing>) -> io::Result<()> {
    match fault {
        Some(fault) => println!(rt; "making {name}: {fault}"),
        None => println!(rt; "making {name}: done"),
    }
}

/// Places of lines among the edges, counted from 0.
static PLACES: [usize; 6] = [0, 9999, 10000, 20000, 30000, 39999];

fn print_lines(rt: &impl Print, edges: &[u8]) -> io::Result<()> {
    for place in &PLACES {
        println!(rt;
            "line {place} of the made edges: {}",
            text_of(line(edges, *place))
        )?;
    }
    Ok(())
}

/// The line at this place, without its LF.
fn line(text: &[u8], place: usize) -> &[u8] {
    match text.split(|byte| *byte == b'\n').nth(place) {
        Some(line) => line,
        None => b"none",
    }
}

/// Prints how many vertices and edges the graph of these texts has.
fn print_size(
    rt: &impl Print,
    alloc: Global,
    vertices: &[u8],
    edges: &[u8],
    directed: bool,
) -> io::Result<()> {
    let vertices = Vec::from_slice(alloc, vertices)?;
    let edges = Vec::from_slice(alloc, edges)?;
    match read_graph(alloc, vertices, edges, directed) {
        Ok(graph) => println!(rt;
            "made graph, directed {directed}: vertices {}, edges {}",
            graph.n(),
            graph.m()
        ),
        Err(fault) => println!(rt; "made graph, directed {directed}: {fault}"),
    }
}

/// Which call fails, 0 for none, and how much room there is.
static FAULTS: [(&str, u64, u64); 4] = [
    ("call 1 fails", 1, ROOM),
    ("call 2 fails", 2, ROOM),
    ("there is room for 10 bytes", 0, 10),
    ("there is room for 70000 bytes", 0, 70000),
];

/// Prints how much of 20000 vertices is left where a write fails, and that nothing is left of the
/// edges.
fn print_fronts(rt: &impl Print, alloc: Global) -> io::Result<()> {
    let mut whole = sink(alloc, 0, ROOM)?;
    print_ends(
        rt,
        "20000 vertices",
        &write_vertices(alloc, &mut whole, &plan(20000, 20000)),
    )?;
    println!(rt; "bytes of 20000 vertices: {}", whole.bytes().len())?;
    for (name, failing, room) in &FAULTS {
        print_front(
            rt,
            name,
            &mut sink(alloc, *failing, *room)?,
            alloc,
            whole.bytes(),
        )?;
    }
    let mut edges = sink(alloc, 1, ROOM)?;
    print_ends(
        rt,
        "20000 edges, call 1 fails",
        &write_edges(alloc, &mut edges, &plan(20000, 20000)),
    )?;
    println!(rt; "bytes that are left of the edges: {}", edges.bytes().len())
}

fn print_front(
    rt: &impl Print,
    name: &str,
    out: &mut MemSink,
    alloc: Global,
    whole: &[u8],
) -> io::Result<()> {
    let fault = write_vertices(alloc, out, &plan(20000, 20000));
    print!(rt; "where {name}, ")?;
    print_ends(rt, "20000 vertices", &fault)?;
    let is_front = whole.starts_with(out.bytes());
    println!(rt;
        "where {name}, bytes left {}, the first ones {is_front}",
        out.bytes().len()
    )
}
