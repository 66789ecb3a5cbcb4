//! The order: a line for each update and each recovery.
ghost use Rattle.std.specs.Prelude.{◌≡◌, ◌++◌, ◌∷◌, [], decimal, codes, All, IfOk, OnOk};
ghost use Rattle.graph_text.specs.order_text.Orders.{IsEntryOf, update_line, restart_line, entry_line, order_text};

use crate::order_text::sizes::digits;
use gl_base::{Entry, MachineNo, NoMemory, push_decimal};
use graph_core::Graph;
use std::alloc::Global;

/// A line for each entry, in turn: ticket, machine and identifier of an update, and ticket and
/// `restart` of a recovery, with one blank between.
pub fn order_bytes(alloc: Global, graph: &Graph, order: &[Entry]) -> Result<Vec<u8>, NoMemory>
    requires { All (IsEntryOf graph.now) order.now }
    ensures { IfOk result (λ text. text.items ≡ order_text graph.now.ids order.now) }
{
    let mut text = Vec::with_capacity(alloc, size_of_lines(graph, order))?;
    for entry in order {
        push_entry(&mut text, graph, *entry)?;
    }
    Ok(text)
}

/// How many bytes the lines have.
fn size_of_lines(graph: &Graph, order: &[Entry]) -> usize
    requires { All (IsEntryOf graph.now) order.now }
{
    let mut size = 0usize;
    for line in order {
        size = size.saturating_add(size_of_line(graph, *line));
    }
    size
}

/// How many bytes the line of an entry has: its numbers, blanks and LF.
fn size_of_line(graph: &Graph, entry: Entry) -> usize
    requires { IsEntryOf graph.now entry }
{
    match entry {
        Entry::Go {
            ticket,
            machine,
            vertex,
        } => digits(ticket)
            .saturating_add(digits(u64::from(machine.0)))
            .saturating_add(digits(graph.id(vertex)))
            .saturating_add(3),
        Entry::Restart { ticket } => digits(ticket).saturating_add(9),
    }
}

/// Adds the line of an entry.
fn push_entry(text: &mut Vec<u8>, graph: &Graph, entry: Entry) -> Result<(), NoMemory>
    requires { IsEntryOf graph.now entry }
    ensures { OnOk result (text.new.items ≡ text.old.items ++ entry_line graph.now.ids entry) }
{
    match entry {
        Entry::Go {
            ticket,
            machine,
            vertex,
        } => push_update(text, ticket, machine, graph.id(vertex)),
        Entry::Restart { ticket } => push_restart(text, ticket),
    }
}

/// Adds the line of an update.
fn push_update(text: &mut Vec<u8>, ticket: u64, machine: MachineNo, id: u64) -> Result<(), NoMemory>
    ensures { OnOk result (text.new.items ≡ text.old.items ++ update_line ticket machine.0 id) }
{
    push_decimal(text, ticket)?;
    text.push(b' ')?;
    push_decimal(text, machine.0)?;
    text.push(b' ')?;
    push_decimal(text, id)?;
    text.push(b'\n')?;
    Ok(())
}

/// Adds the line of a recovery.
fn push_restart(text: &mut Vec<u8>, ticket: u64) -> Result<(), NoMemory>
    ensures { OnOk result (text.new.items ≡ text.old.items ++ restart_line ticket) }
{
    push_decimal(text, ticket)?;
    text.extend_from_slice(b" restart\n")?;
    Ok(())
}
