//! Messages are copied.
use gl_base::{EdgeNo, MachineNo, NoMemory, ScopeId, Vertex};
use std::alloc::Global;
use std::io;
use wire::wire_msgs::{Done, Message, Section};

const SCOPE: ScopeId = ScopeId {
    home: MachineNo(1),
    serial: 2,
};

/// Prints whether messages that hold lists are copied.
pub fn print_messages(rt: &impl Print, alloc: Global) -> io::Result<()> {
    print_copy(rt, "an ask", is_copied(alloc, ask(alloc)))?;
    print_copy(rt, "a done", is_copied(alloc, done(alloc)))?;
    print_copy(rt, "a section", is_copied(alloc, section(alloc)))
}

fn ask(alloc: Global) -> Result<Message, NoMemory> {
    Ok(Message::Ask {
        scope: SCOPE,
        centre: Vertex(3),
        rest: Vec::from_slice(alloc, &[MachineNo(4)])?,
    })
}

fn done(alloc: Global) -> Result<Message, NoMemory> {
    Ok(Message::Done(Done {
        scope: SCOPE,
        centre: Vertex(3),
        datum: None,
        edges: Vec::from_slice(alloc, &[(EdgeNo(5), 6)])?,
        wakes: Vec::new(alloc),
        pends: Vec::new(alloc),
        number: 0,
    }))
}

fn section(alloc: Global) -> Result<Message, NoMemory> {
    Ok(Message::Section(Section {
        number: 1,
        vertices: Vec::from_slice(alloc, &[(Vertex(3), 7)])?,
        edges: Vec::new(alloc),
        entries: Vec::new(alloc),
    }))
}

/// Whether the message is copied.
fn is_copied(alloc: Global, made: Result<Message, NoMemory>) -> bool {
    match made {
        Ok(message) => message.copy(alloc).is_ok(),
        Err(_) => false,
    }
}

fn print_copy(rt: &impl Print, name: &str, copied: bool) -> io::Result<()> {
    println!(rt; "copy of {name}: {copied}")
}
