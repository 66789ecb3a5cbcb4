//! Locks: who waits and who holds.
use gl_base::{Claim, MachineNo, Mode, ScopeId, Vertex};
use scope_locks::vertex_locks::{LockTable, Turn};
use std::alloc::Global;
use std::io;

/// A call at the lock of vertex 5, with the serial of the scope.
#[derive(Clone, Copy)]
enum Call {
    Read(u64),
    Write(u64),
    Grant,
    Release(u64),
    Reset,
}

const X: Vertex = Vertex(5);

static CALLS: [Call; 8] = [
    Call::Read(0),
    Call::Write(1),
    Call::Grant,
    Call::Grant,
    Call::Release(0),
    Call::Grant,
    Call::Reset,
    Call::Grant,
];

/// Prints what the calls answer in turn.
pub fn print_locks(rt: &impl Print, alloc: Global) -> io::Result<()> {
    match LockTable::new(alloc, &[Vertex(5), Vertex(2)], 6) {
        Ok(mut table) => print_calls(rt, &mut table),
        Err(fault) => println!(rt; "locks: {fault}"),
    }
}

fn print_calls(rt: &impl Print, table: &mut LockTable) -> io::Result<()> {
    for call in &CALLS {
        print_call(rt, table, *call)?;
    }
    Ok(())
}

fn print_call(rt: &impl Print, table: &mut LockTable, call: Call) -> io::Result<()> {
    match call {
        Call::Read(serial) => print_asked(rt, "to read", serial, asks(table, serial, Mode::Reader)),
        Call::Write(serial) => print_asked(
            rt,
            "to write",
            serial,
            asks(table, serial, Mode::Writer),
        ),
        Call::Grant => print_granted(rt, table),
        Call::Release(serial) => println!(rt;
            "lock, scope {serial} releases: {}",
            releases(table, serial)
        ),
        Call::Reset => {
            table.reset();
            println!(rt; "lock, the table is reset")
        }
    }
}

fn print_asked(rt: &impl Print, mode: &str, serial: u64, asked: bool) -> io::Result<()> {
    println!(rt; "lock, scope {serial} asks {mode}: {asked}")
}

fn scope(serial: u64) -> ScopeId {
    ScopeId {
        home: MachineNo(1),
        serial,
    }
}

/// The scope asks, if it neither holds the lock nor waits for it.
fn asks(table: &mut LockTable, serial: u64, mode: Mode) -> bool {
    let scope = scope(serial);
    if !table.owns(X) || table.reserve(X).is_err() || !table.owns(X) {
        return false;
    }
    if table.holds(X, scope) || table.waits(X, scope) {
        return false;
    }
    table.request(X, Claim { scope, mode });
    true
}

/// Prints what `look` and `grant` tell.
fn print_granted(rt: &impl Print, table: &mut LockTable) -> io::Result<()> {
    if !table.owns(X) {
        return println!(rt; "lock, no owner");
    }
    print!(rt; "lock, looked:")?;
    print_turn(rt, table.look(X))?;
    print!(rt; ", granted:")?;
    print_turn(rt, table.grant(X))?;
    println!(rt; "")
}

fn print_turn(rt: &impl Print, turn: Turn) -> io::Result<()> {
    match turn {
        Turn::Granted(claim) => print!(rt; " scope {}", claim.scope.serial),
        Turn::Waiting => print!(rt; " none"),
    }
}

fn releases(table: &mut LockTable, serial: u64) -> bool {
    if !table.owns(X) || !table.holds(X, scope(serial)) {
        return false;
    }
    table.release(X, scope(serial));
    true
}
