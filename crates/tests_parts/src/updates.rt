//! The update of a vertex: its row is taken out, and put back with what the update made of its
//! edges.
ghost use Rattle.std.specs.Prelude.{◌≡◌, ℕ, true, IfOk, length};
ghost use Rattle.local_graph.specs.Locals.{is_own};
ghost use Rattle.local_graph.specs.Works.{IsRow};
ghost use Rattle.tests_parts.specs.Rows.{HasRow};

use crate::graphs::graph_of;
use crate::held::{lines_by_owner, outline_of, played};
use gl_base::{Lines, MachineNo, NoMemory, ScopeId, Vertex};
use graph_core::Graph;
use graph_programs::prog_labels::Components;
use local_graph::{LocalGraph, Outcome, Outline, Row, Work};
use std::alloc::Global;
use std::io;

/// The number of a vertex after its update, where it had 9 and its neighbours this one.
fn update(alloc: Global, local: &mut LocalGraph, v: Vertex, number: u64) -> Result<u64, NoMemory>
    requires own { is_own local.old v.0 ≡ true }
    requires row { HasRow local.old v.0 }
{
    let degree = local.sides(v).len();
    let spare = Row {
        links: Vec::with_capacity(alloc, degree)?,
        numbers: Vec::with_capacity(alloc, degree)?,
    };
    let near = Vec::from_elem(alloc, number, degree)?;
    let row = local.take_row(v, spare);
    let Ok(Outcome { work, value, .. }) = outcome(alloc, work_of(v, row, near)) else {
        return Err(NoMemory);
    };
    let Work { row, .. } = work;
    local.put_row(v, &row.numbers);
    Ok(value)
}

fn work_of(vertex: Vertex, row: Row, near: Vec<u64>) -> Work
    ensures row { result.row ≡ row }
    ensures near { result.near ≡ near }
{
    let home = MachineNo(0);
    Work {
        scope: ScopeId { home, serial: 0 },
        vertex,
        id: 9,
        value: 9,
        row,
        near,
    }
}

/// Makes the update of a work.
fn outcome(alloc: Global, work: Work) -> Result<Outcome, Work>
    requires links { IsRow work.row.links.items (length work.near.items) }
    requires numbers { length work.row.numbers.items ≡ length work.near.items }
    ensures { IfOk result (λ made. made.work ≡ work) }
{
    let mut made = Outcome::of(alloc, work)?;
    made.update(&Components);
    Ok(made)
}

/// Prints the number of vertex 1 of a path after an update whose neighbours had 4. Machine 0 owns
/// it.
pub fn print_update(rt: &impl Print, alloc: Global) -> io::Result<()> {
    match graph_of(alloc, &[1, 2, 3], &[(1, 2), (2, 3)], false) {
        Ok(graph) => print_number(rt, updated_in(alloc, &graph)),
        Err(fault) => println!(rt; "path: {fault}"),
    }
}

fn print_number(rt: &impl Print, number: Result<u64, NoMemory>) -> io::Result<()> {
    match number {
        Ok(number) => println!(rt;
            "vertex with 9 beside 4 and 4, updated out of its row: {number}"
        ),
        Err(fault) => println!(rt; "vertex with 9 beside 4 and 4, updated out of its row: {fault}"),
    }
}

fn updated_in(alloc: Global, graph: &Graph) -> Result<u64, NoMemory> {
    let lines = lines_by_owner(alloc, graph, &[0, 0, 1])?;
    match lines.first() {
        Some(first) => updated(alloc, first, outline_of(graph)),
        None => Err(NoMemory),
    }
}

fn updated(alloc: Global, lines: &Lines, outline: Outline) -> Result<u64, NoMemory> {
    let mut local = played(alloc, MachineNo(0), lines, outline)?;
    number_of_own(alloc, &mut local, Vertex(1))
}

/// The number that an own vertex gets.
fn number_of_own(alloc: Global, local: &mut LocalGraph, v: Vertex) -> Result<u64, NoMemory>
    requires rows { (v : ℕ) → is_own local.old v ≡ true → HasRow local.old v }
{
    if !local.owns(v) {
        return Err(NoMemory);
    }
    update(alloc, local, v, 4)
}
