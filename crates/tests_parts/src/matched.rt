//! Pairs on a line of vertices, worked out by hand: an update on all numbers, one at its home and
//! what it gives another machine, and the locks and machines of a scope.
ghost use Rattle.std.specs.Prelude.{◌≡◌, length, IfOk};

use crate::graphs::graph_of;
use full_cluster::{Division, KeptNumbers, update_at};
use gl_base::{INF, MachineNo, NoMemory, Vertex};
use graph_core::Graph;
use prog_match::Pairs;
use std::alloc::Global;
use std::io;

/// Prints the numbers of vertices 1 to 4 in a line after updates there, and which locks and
/// machines the scope of one takes.
pub fn print_matched(rt: &impl Print, alloc: Global) -> io::Result<()> {
    match graph_of(alloc, &[1, 2, 3, 4], &[(1, 2), (2, 3), (3, 4)], false) {
        Ok(line) => print_line(rt, alloc, &line),
        Err(fault) => println!(rt; "line of four: {fault}"),
    }
}

fn print_line(rt: &impl Print, alloc: Global, line: &Graph) -> io::Result<()> {
    match updated(alloc, line) {
        Ok(all) => print_numbers(rt, "updated", &all.numbers, &all.edges)?,
        Err(fault) => println!(rt; "line of four, updated: {fault}")?,
    }
    match given(alloc, line) {
        Ok((home, other)) => {
            print_kept(rt, "at home", &home)?;
            print_kept(rt, "at the other machine", &other)?;
        }
        Err(fault) => println!(rt; "line of four, given: {fault}")?,
    }
    match ways(alloc, line) {
        Ok((low, high, machines)) => {
            println!(rt; "line of four, locks of the scope of 3: {low:?} then {high:?}")?;
            println!(rt; "line of four, machines of that scope: {machines:?}")
        }
        Err(fault) => println!(rt; "line of four, ways: {fault}"),
    }
}

/// Which locks the scope of the third vertex of the line takes at the machine of the first two, and
/// at that of the others, and which machines it visits.
fn ways(alloc: Global, line: &Graph) -> Result<(Vec<u32>, Vec<u32>, Vec<u16>), NoMemory> {
    if line.n() != 4 {
        return Err(NoMemory);
    }
    let (low, high) = (MachineNo(0), MachineNo(1));
    let owner = [low, low, high, high];
    let Some(division) = Division::new(line, &owner) else {
        return Err(NoMemory);
    };
    let v = Vertex(2);
    let first = division.lock_order(alloc, v, low)?;
    let last = division.lock_order(alloc, v, high)?;
    let machines = division.machine_order(alloc, v, 2)?;
    Ok((
        first.iter().map(|x| x.0).collect(alloc)?,
        last.iter().map(|x| x.0).collect(alloc)?,
        machines.iter().map(|m| m.0).collect(alloc)?,
    ))
}

/// The numbers of the line after an update of its third vertex, and one of its first.
fn updated(alloc: Global, line: &Graph) -> Result<KeptNumbers, NoMemory> {
    if line.n() != 4 || line.m() != 3 {
        return Err(NoMemory);
    }
    let owner = [MachineNo(0); 4];
    let Some(division) = Division::new(line, &owner) else {
        return Err(NoMemory);
    };
    let mut numbers = [INF; 4];
    let mut edges = [0; 3];
    for v in [2, 0] {
        let v = Vertex(v);
        update_at(alloc, &division, &Pairs, v, &mut numbers, &mut edges)?;
    }
    Ok(KeptNumbers {
        numbers: Vec::from_array(alloc, numbers)?,
        edges: Vec::from_array(alloc, edges)?,
        tasks: Vec::new(alloc),
    })
}

/// What a machine has after it updated the third vertex of the line, and another one that owns the
/// first two and was given its part.
fn given(alloc: Global, line: &Graph) -> Result<(KeptNumbers, KeptNumbers), NoMemory> {
    if line.n() != 4 || line.m() != 3 {
        return Err(NoMemory);
    }
    let owner = [MachineNo(0), MachineNo(0), MachineNo(1), MachineNo(1)];
    let Some(division) = Division::new(line, &owner) else {
        return Err(NoMemory);
    };
    let mut home = kept(alloc, [false, false, true, true])?;
    let mut other = kept(alloc, [true, true, false, false])?;
    let seen = [(Vertex(1), INF), (Vertex(2), INF), (Vertex(3), INF)];
    let (low, high, v) = (MachineNo(0), MachineNo(1), Vertex(2));
    let made = home.make(alloc, &division, &Pairs, high, v, &seen)?;
    home.write(&division, v, &made);
    let gift = made.give(alloc, &division, v, low)?;
    other.take(&gift);
    Ok((home, other))
}

/// What a machine keeps of the line at first, with these tasks.
fn kept(alloc: Global, tasks: [bool; 4]) -> Result<KeptNumbers, NoMemory>
    ensures numbers { IfOk result (λ kept. length kept.numbers.items ≡ 4) }
    ensures edges { IfOk result (λ kept. length kept.edges.items ≡ 3) }
    ensures tasks { IfOk result (λ kept. length kept.tasks.items ≡ 4) }
{
    Ok(KeptNumbers {
        numbers: Vec::from_array(alloc, [INF; 4])?,
        edges: Vec::from_array(alloc, [0; 3])?,
        tasks: Vec::from_array(alloc, tasks)?,
    })
}

fn print_kept(rt: &impl Print, place: &str, kept: &KeptNumbers) -> io::Result<()> {
    print_numbers(rt, place, &kept.numbers, &kept.edges)?;
    println!(rt; "line of four, {place}: tasks {:?}", kept.tasks)
}

/// Prints the numbers of vertices, where an unmatched one has none, and of edges.
fn print_numbers(rt: &impl Print, place: &str, numbers: &[u64], edges: &[u64]) -> io::Result<()> {
    print!(rt; "line of four, {place}:")?;
    for number in numbers {
        print_number(rt, *number)?;
    }
    println!(rt; ", edges {edges:?}")
}

/// Prints the number of a vertex, where an unmatched one has none.
pub fn print_number(rt: &impl Print, number: u64) -> io::Result<()> {
    if number == INF {
        return print!(rt; " none");
    }
    print!(rt; " {number}")
}
