//! Where atoms are placed, and how graphs grow and are cut.
use crate::atom_samples::INDEX;
use crate::atoms::print_lines;
use crate::graphs::{Line, graph_of};
use gl_base::{AtomNo, Lines, MachineNo, NoMemory, Vertex};
use graph_atoms::atom_cut::{Atoms, atoms_by_growth, cut};
use graph_atoms::atom_place::place;
use graph_core::{Graph, GraphFault, growth};
use std::alloc::Global;
use std::io;

/// Prints owners of atoms, and cuts.
pub fn print_cuts(rt: &impl Print, alloc: Global) -> io::Result<()> {
    print_owners(
        rt,
        "weights 5, 4, 3, 3 on two machines",
        &place(alloc, &[5, 4, 3, 3], 2),
    )?;
    print_owners(
        rt,
        "weights 2, 7, 2, 2 on three machines",
        &place(alloc, &[2, 7, 2, 2], 3),
    )?;
    print_owners(rt, "no weights on three machines", &place(alloc, &[], 3))?;
    for growing in &GROWING {
        print_growing(rt, alloc, growing)?;
    }
    print_path(rt, alloc, &graph_of(alloc, &[1, 2, 3, 4], &PATH, false))
}

fn print_owners(
    rt: &impl Print,
    name: &str,
    owners: &Result<Vec<MachineNo>, NoMemory>,
) -> io::Result<()> {
    print!(rt; "owners of atoms with {name}:")?;
    match owners {
        Ok(owners) => print_machines(rt, owners),
        Err(fault) => println!(rt; " {fault}"),
    }
}

fn print_machines(rt: &impl Print, machines: &[MachineNo]) -> io::Result<()> {
    for machine in machines {
        print!(rt; " {}", machine.0)?;
    }
    println!(rt; "")
}

/// A graph by a name, with identifiers from 0 on, whether its edges have a direction, where its
/// growth begins, and a number of atoms.
type Growing = (
    &'static str,
    &'static [u64],
    &'static [Line],
    bool,
    u32,
    u16,
);

static GROWING: [Growing; 5] = [
    (
        "a directed graph in one",
        &[0, 1, 2, 3, 4],
        &[(2, 0, 1), (0, 3, 1), (1, 4, 1)],
        true,
        2,
        1,
    ),
    (
        "two components in two",
        &[0, 1, 2, 3, 4],
        &[(0, 4, 1), (4, 2, 1), (1, 3, 1)],
        false,
        0,
        2,
    ),
    (
        "a star in two",
        &[0, 1, 2, 3],
        &[(0, 3, 1), (0, 1, 1), (0, 2, 1)],
        false,
        1,
        2,
    ),
    (
        "a path in five",
        &[0, 1, 2],
        &[(0, 1, 1), (1, 2, 1)],
        false,
        0,
        5,
    ),
    ("no vertices in three", &[], &[], false, 0, 3),
];

fn print_growing(
    rt: &impl Print,
    alloc: Global,
    (name, ids, edges, directed, first, atoms): &Growing,
) -> io::Result<()> {
    match graph_of(alloc, ids, edges, *directed) {
        Ok(graph) => print_growth(rt, alloc, name, &graph, *first, *atoms),
        Err(fault) => println!(rt; "cut of {name}: {fault}"),
    }
}

/// Prints the growth order from a vertex, and the atom of each vertex where growth begins with the
/// first.
fn print_growth(
    rt: &impl Print,
    alloc: Global,
    name: &str,
    graph: &Graph,
    first: u32,
    atoms: u16,
) -> io::Result<()> {
    if atoms < 1 || graph.n() > 0 && first >= graph.n() {
        return println!(rt; "cut of {name}: none");
    }
    print!(rt; "cut of {name}: growth")?;
    match growth(alloc, graph, Vertex(first)) {
        Ok(order) => print_vertices(rt, &order)?,
        Err(fault) => print!(rt; " {fault}")?,
    }
    print!(rt; ", atoms")?;
    match atoms_by_growth(alloc, graph, atoms) {
        Ok(of) => print_atom_numbers(rt, &of),
        Err(fault) => println!(rt; " {fault}"),
    }
}

fn print_vertices(rt: &impl Print, vertices: &[Vertex]) -> io::Result<()> {
    for vertex in vertices {
        print!(rt; " {}", vertex.0)?;
    }
    Ok(())
}

fn print_atom_numbers(rt: &impl Print, atoms: &[AtomNo]) -> io::Result<()> {
    for atom in atoms {
        print!(rt; " {}", atom.0)?;
    }
    println!(rt; "")
}

/// The edges of the path whose files are the samples.
static PATH: [Line; 2] = [(1, 2, 1), (2, 3, 1)];

fn print_path(rt: &impl Print, alloc: Global, path: &Result<Graph, GraphFault>) -> io::Result<()> {
    let Ok(path) = path else {
        return println!(rt; "the path is no graph");
    };
    print_made(rt, "the path in two", &cut(alloc, path, 2))?;
    print_made(rt, "the path in one", &cut(alloc, path, 1))
}

fn print_made(rt: &impl Print, name: &str, made: &Result<Atoms, NoMemory>) -> io::Result<()> {
    match made {
        Ok(made) => print_parts(rt, name, made),
        Err(fault) => println!(rt; "cut of {name}: {fault}"),
    }
}

fn print_parts(rt: &impl Print, name: &str, made: &Atoms) -> io::Result<()> {
    let is_sample = made.index.as_slice() == INDEX.as_slice();
    print!(rt;
        "cut of {name}: bytes of the index {}, that of the sample {is_sample}, atoms",
        made.index.len()
    )?;
    print_atom_numbers(rt, &made.of)?;
    print_all_lines(rt, name, &made.lines)
}

fn print_all_lines(rt: &impl Print, name: &str, atoms: &[Lines]) -> io::Result<()> {
    for lines in atoms {
        print_lines(rt, name, lines)?;
    }
    Ok(())
}
