//! What machines hold of small graphs.
ghost use Rattle.std.specs.Prelude.{◌≡◌, ℕ, true, IfOk};
ghost use Rattle.local_graph.specs.Locals.{is_own};
ghost use Rattle.tests_parts.specs.Rows.{HasRow};

use crate::graphs::graph_of;
use gl_base::{AtomNo, Lines, MAX_VERTICES, MachineNo, NoMemory, Vertex};
use graph_atoms::atom_cut::lines_of;
use graph_core::Graph;
use local_graph::{LocalGraph, MachineLines, Outline, Side};
use std::alloc::Global;
use std::io;

/// A graph by a name, its identifiers, its edges and whether these have a direction, the owner of
/// each vertex, and machines and vertices that are looked at.
type Row = (
    &'static str,
    &'static [u64],
    &'static [(u64, u64)],
    bool,
    &'static [u16],
    &'static [(u16, u32)],
);

static ROWS: [Row; 3] = [
    (
        "a path and a vertex",
        &[1, 2, 3, 4],
        &[(1, 2), (2, 3)],
        false,
        &[0, 0, 1, 1],
        &[(0, 1), (0, 2), (1, 3), (2, 0)],
    ),
    (
        "a star whose hub is alone",
        &[1, 2, 3, 4],
        &[(1, 2), (1, 3), (1, 4)],
        false,
        &[0, 1, 2, 1],
        &[(0, 0), (1, 0), (2, 2)],
    ),
    (
        "an edge each way",
        &[1, 2],
        &[(1, 2), (2, 1)],
        true,
        &[0, 0],
        &[(0, 0)],
    ),
];

/// Prints what machines tell of vertices.
pub fn print_held(rt: &impl Print, alloc: Global) -> io::Result<()> {
    for row in &ROWS {
        print_row(rt, alloc, row)?;
    }
    Ok(())
}

fn print_row(
    rt: &impl Print,
    alloc: Global,
    (name, ids, pairs, directed, owners, seen): &Row,
) -> io::Result<()> {
    match graph_of(alloc, ids, pairs, *directed) {
        Ok(graph) => print_graph(rt, alloc, name, &graph, owners, seen),
        Err(fault) => println!(rt; "{name}: {fault}"),
    }
}

fn print_graph(
    rt: &impl Print,
    alloc: Global,
    name: &str,
    graph: &Graph,
    owners: &[u16],
    seen: &[(u16, u32)],
) -> io::Result<()> {
    let Ok(lines) = lines_by_owner(alloc, graph, owners) else {
        return println!(rt; "{name}: out of memory");
    };
    for (machine, vertex) in seen {
        print!(rt; "{name}, vertex {vertex} at machine {machine}:")?;
        print_machine(rt, alloc, &lines, outline_of(graph), *machine, *vertex)?;
        print!(rt; "{name}, straight from the graph, vertex {vertex} at machine {machine}:")?;
        print_made(rt, alloc, &lines, graph, *machine, *vertex)?;
    }
    Ok(())
}

fn print_made(
    rt: &impl Print,
    alloc: Global,
    lines: &[Lines],
    graph: &Graph,
    machine: u16,
    vertex: u32,
) -> io::Result<()> {
    let Some(own) = lines.get(machine as usize) else {
        return println!(rt; " no machine");
    };
    match made(alloc, MachineNo(machine), own, graph) {
        Ok(local) => print_vertex(rt, &local, Vertex(vertex)),
        Err(fault) => println!(rt; " {fault}"),
    }
}

fn print_machine(
    rt: &impl Print,
    alloc: Global,
    lines: &[Lines],
    outline: Outline,
    machine: u16,
    vertex: u32,
) -> io::Result<()> {
    let Some(own) = lines.get(machine as usize) else {
        return println!(rt; " no machine");
    };
    match played(alloc, MachineNo(machine), own, outline) {
        Ok(local) => print_vertex(rt, &local, Vertex(vertex)),
        Err(fault) => println!(rt; " {fault}"),
    }
}

/// Prints the edges of a vertex, each with its other end and the owner of that; the machines of its
/// scope, if it is an own one; and the own vertices of its scope.
fn print_vertex(rt: &impl Print, local: &LocalGraph, v: Vertex) -> io::Result<()> {
    print_sides(rt, local.sides(v))?;
    if local.owns(v) {
        print!(rt; ", machines of its scope")?;
        print_machines(rt, local.parts(v))?;
    }
    print!(rt; ", own vertices of its scope")?;
    print_vertices(rt, local.part(v))
}

fn print_sides(rt: &impl Print, sides: &[Side]) -> io::Result<()> {
    for side in sides {
        print!(rt;
            " (edge {} with {} of {})",
            side.edge.0, side.other.0, side.owner.0
        )?;
    }
    Ok(())
}

fn print_machines(rt: &impl Print, machines: &[MachineNo]) -> io::Result<()> {
    for machine in machines {
        print!(rt; " {}", machine.0)?;
    }
    Ok(())
}

fn print_vertices(rt: &impl Print, vertices: &[Vertex]) -> io::Result<()> {
    for vertex in vertices {
        print!(rt; " {}", vertex.0)?;
    }
    println!(rt; "")
}

/// The part of a machine that has these lines. Lines that are none of the outline's count as want
/// of memory.
pub fn played(
    alloc: Global,
    me: MachineNo,
    lines: &Lines,
    outline: Outline,
) -> Result<LocalGraph, NoMemory>
    ensures { IfOk result (λ l. (v : ℕ) → is_own l v ≡ true → HasRow l v) }
{
    let are_few = outline.vertices as usize <= MAX_VERTICES
        && lines.edges.len() < 100
        && lines.vertices.len() < 100
        && lines.vertices.len() + lines.ghosts.len() <= outline.vertices as usize;
    let are_low = lines.vertices.iter().all(|v| v.vertex.0 < outline.vertices)
        && lines.ghosts.iter().all(|g| g.vertex.0 < outline.vertices)
        && lines.edges.iter().all(|e| e.edge.0 < outline.edges);
    if !are_few || !are_low {
        return Err(NoMemory);
    }
    let local = LocalGraph::play(alloc, me, lines, outline, Vertex(0))?;
    Ok(local)
}

/// The part of a machine that has the vertices and ghosts of these lines. Lines that are none of
/// the graph's count as want of memory.
fn made(
    alloc: Global,
    me: MachineNo,
    lines: &Lines,
    graph: &Graph,
) -> Result<LocalGraph, NoMemory> {
    let are_few = lines.vertices.len() < 100
        && lines.vertices.len() + lines.ghosts.len() <= graph.n() as usize;
    let are_low = lines.vertices.iter().all(|v| v.vertex.0 < graph.n())
        && lines.ghosts.iter().all(|g| g.vertex.0 < graph.n());
    if !are_few || !are_low {
        return Err(NoMemory);
    }
    let held = MachineLines {
        me,
        own: &lines.vertices,
        ghosts: &lines.ghosts,
    };
    let local = LocalGraph::of(alloc, graph, &held, 3, Vertex(0))?;
    Ok(local)
}

/// The lines of each of three machines, where these own the vertices in turn.
pub fn lines_by_owner(
    alloc: Global,
    graph: &Graph,
    owners: &[u16],
) -> Result<Vec<Lines>, NoMemory> {
    let of: Vec<AtomNo> = owners.iter().map(|a| AtomNo(*a)).collect(alloc)?;
    if of.len() != graph.n() as usize || !of.iter().all(|a| a.0 < 3) {
        return Err(NoMemory);
    }
    lines_of(alloc, graph, &of, 3)
}

pub fn outline_of(graph: &Graph) -> Outline {
    Outline {
        machines: 3,
        vertices: graph.n(),
        edges: graph.m(),
        directed: graph.directed(),
    }
}
