//! Two vertices, one snapshot and the next.
use coordinator::snap_update::SnapPart;
use gl_base::{EdgeNo, Entry, MachineNo, NoMemory, Vertex};
use std::alloc::Global;
use std::io;
use wire::wire_msgs::Section;

fn go(vertex: u32, ticket: u64) -> Entry {
    Entry::Go {
        machine: MachineNo(0),
        vertex: Vertex(vertex),
        ticket,
    }
}

/// Prints what a machine keeps for snapshots: an update before the marks, one behind them, and the
/// section of the snapshot.
pub fn print_snaps(rt: &impl Print, alloc: Global) -> io::Result<()> {
    let mut part = SnapPart::new(alloc, 0);
    print_logged(rt, &mut part, 0, 0, 0)?;
    print_began(rt, &mut part, 1)?;
    print_began(rt, &mut part, 1)?;
    println!(rt;
        "snapshot, section unsent {}, marked by 0 {}",
        part.is_unsent(),
        part.is_marked(0)
    )?;
    print_saved(rt, &mut part)?;
    print_logged(rt, &mut part, 0, 1, 1)?;
    print_logged(rt, &mut part, 1, 2, 0)?;
    print_asked(rt, &mut part)?;
    print_asked(rt, &mut part)?;
    print_section(rt, &part.section(alloc))?;
    print_rest(rt, &mut part)
}

/// Logs an update that saw this mark.
fn print_logged(
    rt: &impl Print,
    part: &mut SnapPart,
    vertex: u32,
    ticket: u64,
    mark: u32,
) -> io::Result<()> {
    if part.reserve().is_ok() && part.outside() < 9 {
        part.log(go(vertex, ticket), mark);
    }
    println!(rt;
        "snapshot, update {ticket} of vertex {vertex} at mark {mark}: updates outside {}",
        part.outside()
    )
}

fn print_began(rt: &impl Print, part: &mut SnapPart, number: u32) -> io::Result<()> {
    println!(rt;
        "snapshot {number} begins: {}, known {}",
        part.begin(number),
        part.known()
    )
}

/// Saves a vertex and an edge.
fn print_saved(rt: &impl Print, part: &mut SnapPart) -> io::Result<()> {
    let has_room = part.reserve_mark(1).is_ok();
    if has_room {
        part.save_vertex(Vertex(0), 7);
        part.save_edge(EdgeNo(0), 3);
    }
    println!(rt; "snapshot, room for a vertex and an edge: {has_room}")
}

fn print_asked(rt: &impl Print, part: &mut SnapPart) -> io::Result<()> {
    match part.ask(3) {
        Some(number) => println!(rt; "snapshot asked for behind 3 updates: {number}"),
        None => println!(rt; "snapshot asked for behind 3 updates: none"),
    }
}

fn print_section(rt: &impl Print, section: &Result<Section, NoMemory>) -> io::Result<()> {
    match section {
        Ok(section) => print_parts(rt, section),
        Err(fault) => println!(rt; "section: {fault}"),
    }
}

fn print_parts(rt: &impl Print, section: &Section) -> io::Result<()> {
    print!(rt; "section {}:", section.number)?;
    print_vertices(rt, &section.vertices)?;
    print_edges(rt, &section.edges)?;
    print_entries(rt, &section.entries)?;
    println!(rt; "")
}

fn print_vertices(rt: &impl Print, vertices: &[(Vertex, u64)]) -> io::Result<()> {
    for (vertex, number) in vertices {
        print!(rt; " (vertex {}, number {number})", vertex.0)?;
    }
    Ok(())
}

fn print_edges(rt: &impl Print, edges: &[(EdgeNo, u64)]) -> io::Result<()> {
    for (edge, number) in edges {
        print!(rt; " (edge {}, number {number})", edge.0)?;
    }
    Ok(())
}

/// Prints the entries of an order: ticket, vertex and machine.
pub fn print_entries(rt: &impl Print, entries: &[Entry]) -> io::Result<()> {
    for entry in entries {
        print_entry(rt, entry)?;
    }
    Ok(())
}

fn print_entry(rt: &impl Print, entry: &Entry) -> io::Result<()> {
    match entry {
        Entry::Go {
            machine,
            vertex,
            ticket,
        } => print!(rt; " {ticket}:{}@{}", vertex.0, machine.0),
        Entry::Restart { ticket } => print!(rt; " {ticket}:restart"),
    }
}

/// Prints what is kept behind the section, as it commits, in the next snapshot, and behind a reset.
fn print_rest(rt: &impl Print, part: &mut SnapPart) -> io::Result<()> {
    print_kept(rt, "behind the section", part)?;
    println!(rt; "snapshot 1 is committed: updates {}", part.committed(1))?;
    print_kept(rt, "behind the commit", part)?;
    print_began(rt, part, 2)?;
    print_kept(rt, "in snapshot 2", part)?;
    println!(rt;
        "snapshot 2, saved vertices {}, saved edges {}",
        part.vertices().len(),
        part.edges().len()
    )?;
    part.reset(1);
    println!(rt;
        "snapshot, updates outside behind a reset: {}",
        part.outside()
    )
}

fn print_kept(rt: &impl Print, when: &str, part: &SnapPart) -> io::Result<()> {
    print!(rt;
        "snapshot, {when}: section unsent {}, updates outside {}",
        part.is_unsent(),
        part.outside()
    )?;
    print!(rt; ", entries before the marks")?;
    print_entries(rt, part.before())?;
    print!(rt; ", behind them")?;
    print_entries(rt, part.behind())?;
    println!(rt; "")
}
