//! Files of atoms and of an index: what they tell, and the first fault of each that is none.
ghost use Rattle.std.specs.Prelude.{◌≡◌, IfOk};
ghost use Rattle.graph_atoms.specs.atom_file.Atoms.{IsAtom, atom_bytes};

use crate::atom_samples::{COUNTLESS, EMPTY, FALLEN, FIRST, INDEX, SECOND, TWICE, UNKNOWN, WHOLE};
use gl_base::{EdgeLine, GhostLine, Lines, NoMemory, VertexLine};
use graph_atoms::atom_file::{AtomFault, AtomView, write_atom};
use graph_atoms::atom_gather::check_index;
use std::alloc::Global;
use std::io;

/// Prints what files tell, and their faults.
pub fn print_atoms(rt: &impl Print, alloc: Global) -> io::Result<()> {
    print_atom(rt, alloc, "the whole path", &WHOLE)?;
    print_atom(rt, alloc, "the first half", &FIRST)?;
    print_atom(rt, alloc, "the second half", &SECOND)?;
    print_atom(rt, alloc, "no record", &EMPTY)?;
    print_single_lines(rt)?;
    print_fault(rt, "too many records", fault_of(Form::Atom, &COUNTLESS))?;
    print_fault(rt, "a ghost before a vertex", fault_of(Form::Atom, &FALLEN))?;
    print_fault(rt, "a vertex twice", fault_of(Form::Atom, &TWICE))?;
    print_fault(rt, "an unknown tag", fault_of(Form::Atom, &UNKNOWN))?;
    print_edits(rt, alloc, "first half", Form::Atom, &FIRST)?;
    print_index(rt)?;
    print_edits(rt, alloc, "index", Form::Index, &INDEX)
}

/// What a file is read as.
#[derive(Clone, Copy)]
enum Form {
    Atom,
    Index,
}

/// The first fault of a file.
fn fault_of(form: Form, bytes: &[u8]) -> Option<AtomFault> {
    match form {
        Form::Atom => AtomView::read(bytes).err(),
        Form::Index => check_index(bytes).err(),
    }
}

fn print_fault(rt: &impl Print, name: &str, fault: Option<AtomFault>) -> io::Result<()> {
    match fault {
        Some(fault) => println!(rt; "file with {name}: {fault}"),
        None => println!(rt; "file with {name}: no fault"),
    }
}

fn print_atom(rt: &impl Print, alloc: Global, name: &str, file: &[u8]) -> io::Result<()> {
    match AtomView::read(file) {
        Ok(view) => print_view(rt, alloc, name, &view, file),
        Err(fault) => print_fault(rt, name, Some(fault)),
    }
}

/// Prints what a file tells, and whether its lines make the same file again.
fn print_view(
    rt: &impl Print,
    alloc: Global,
    name: &str,
    view: &AtomView<'_>,
    file: &[u8],
) -> io::Result<()>
    requires { IsAtom view.now }
{
    let (vertices, ghosts, edges) = (view.vertices(), view.ghosts(), view.edges());
    print!(rt;
        "file with {name}: atom {}, vertices {vertices}, ghosts {ghosts}, edges {edges}",
        view.number().0
    )?;
    let same = is_written_again(alloc, view, file).unwrap_or(false);
    println!(rt; ", written again the same {same}")?;
    match view.lines(alloc) {
        Ok(lines) => print_lines(rt, name, &lines),
        Err(fault) => println!(rt; "lines of {name}: {fault}"),
    }
}

/// Whether the lines of an atom make this file.
fn is_written_again(alloc: Global, view: &AtomView<'_>, file: &[u8]) -> Result<bool, NoMemory>
    requires { IsAtom view.now }
{
    let lines = view.lines(alloc)?;
    let again = write_atom(alloc, view.number(), &lines)?;
    Ok(again.as_slice() == file)
}

/// Prints the lines of an atom.
pub fn print_lines(rt: &impl Print, name: &str, lines: &Lines) -> io::Result<()> {
    print!(rt; "lines of {name}:")?;
    for line in &lines.vertices {
        print_vertex(rt, *line)?;
    }
    for line in &lines.ghosts {
        print_ghost(rt, *line)?;
    }
    for line in &lines.edges {
        print_edge(rt, *line)?;
    }
    println!(rt; "")
}

fn print_vertex(rt: &impl Print, line: VertexLine) -> io::Result<()> {
    print!(rt; " (vertex {}, identifier {})", line.vertex.0, line.id)
}

fn print_ghost(rt: &impl Print, line: GhostLine) -> io::Result<()> {
    print!(rt;
        " (ghost {}, identifier {}, atom {})",
        line.vertex.0, line.id, line.atom.0
    )
}

fn print_edge(rt: &impl Print, line: EdgeLine) -> io::Result<()> {
    let (edge, from, to) = (line.edge.0, line.from.0, line.to.0);
    print!(rt;
        " (edge {edge} from {from} to {to}, weight {})",
        line.weight
    )
}

/// Prints a line of each kind of the first half.
fn print_single_lines(rt: &impl Print) -> io::Result<()> {
    let Ok(view) = AtomView::read(&FIRST) else {
        return println!(rt; "single lines: no file");
    };
    if view.vertices() < 2 || view.ghosts() < 1 || view.edges() < 2 {
        return println!(rt; "single lines: none");
    }
    print!(rt; "single lines of the first half:")?;
    print_vertex(rt, view.vertex_line(1))?;
    print_ghost(rt, view.ghost_line(0))?;
    print_edge(rt, view.edge_line(1))?;
    println!(rt; "")
}

/// Prints the faults of a file that ends early, and of one with a byte that is raised by one.
fn print_edits(
    rt: &impl Print,
    alloc: Global,
    name: &str,
    form: Form,
    file: &[u8],
) -> io::Result<()> {
    print!(rt; "missing byte of the {name}, after each number of bytes:")?;
    for count in 0..file.len() {
        print_missing(rt, fault_of(form, &file[..count]))?;
    }
    println!(rt; "")?;
    let mut longer = Vec::from_slice(alloc, file)?;
    print_raised(rt, name, form, &mut longer)?;
    longer.push(0)?;
    print_fault(rt, "a byte more", fault_of(form, &longer))
}

fn print_missing(rt: &impl Print, fault: Option<AtomFault>) -> io::Result<()> {
    match fault {
        Some(AtomFault::Torn(place)) => print!(rt; " {place}"),
        Some(fault) => print!(rt; " {fault}"),
        None => print!(rt; " no fault"),
    }
}

/// Prints the fault where the byte at a place is raised by one, for all places in turn that have it
/// together.
fn print_raised(rt: &impl Print, name: &str, form: Form, file: &mut [u8]) -> io::Result<()> {
    let mut first = 0;
    let mut last = None;
    for place in 0..file.len() {
        let fault = fault_where_raised(form, file, place);
        if fault != last {
            print_places(rt, name, first, place, last)?;
            first = place;
            last = fault;
        }
    }
    print_places(rt, name, first, file.len(), last)
}

fn fault_where_raised(form: Form, file: &mut [u8], place: usize) -> Option<AtomFault> {
    raise(file, place, 1);
    let fault = fault_of(form, file);
    raise(file, place, 255);
    fault
}

/// Adds to the byte at a place.
fn raise(file: &mut [u8], place: usize, by: u8) {
    if let Some(byte) = file.get_mut(place) {
        *byte = byte.wrapping_add(by);
    }
}

fn print_places(
    rt: &impl Print,
    name: &str,
    first: usize,
    end: usize,
    fault: Option<AtomFault>,
) -> io::Result<()> {
    if first == end {
        return Ok(());
    }
    print!(rt; "{name} with a raised byte from {first} to before {end}: ")?;
    match fault {
        Some(fault) => println!(rt; "{fault}"),
        None => println!(rt; "no fault"),
    }
}

/// Prints how many atoms the index has, and the faults of longer ones.
fn print_index(rt: &impl Print) -> io::Result<()> {
    println!(rt; "atoms of the index: {}", check_index(&INDEX).unwrap_or(0))?;
    let mut longer = [0; 92];
    longer[..84].copy_from_slice(&INDEX);
    print_fault(
        rt,
        "an index and eight bytes",
        fault_of(Form::Index, &longer),
    )?;
    longer[75] = 2;
    print_fault(
        rt,
        "an index and a second edge of an atom",
        fault_of(Form::Index, &longer),
    )
}
