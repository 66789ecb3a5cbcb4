//! The pipeline: who is in flight, and in which order a scope takes its locks.
ghost use Rattle.std.specs.Prelude.{◌≡◌};

use gl_base::{MachineNo, Mode, NoMemory, ScopeId, Vertex};
use scope_locks::scope_pipe::{Next, ScopePipe};
use std::alloc::Global;
use std::io;

/// Prints how a scope flies, one at once, and how a scope that has come takes its locks.
pub fn print_pipes(rt: &impl Print, alloc: Global) -> io::Result<()> {
    match ScopePipe::new(alloc, MachineNo(0), 1) {
        Ok(mut pipe) => print_flight(rt, &mut pipe)?,
        Err(fault) => println!(rt; "pipe: {fault}")?,
    }
    match ScopePipe::new(alloc, MachineNo(0), 1) {
        Ok(mut pipe) => print_at_once(rt, &mut pipe)?,
        Err(fault) => println!(rt; "pipe: {fault}")?,
    }
    match ScopePipe::new(alloc, MachineNo(0), 256) {
        Ok(mut pipe) => print_stand(rt, alloc, &mut pipe),
        Err(fault) => println!(rt; "pipe: {fault}"),
    }
}

fn print_flight(rt: &impl Print, pipe: &mut ScopePipe) -> io::Result<()> {
    let id = pipe.next_id();
    let admitted = id.serial < u64::MAX && pipe.admit(Vertex(3)) == Ok(id);
    println!(rt; "scope of vertex 3 admitted under the next number: {admitted}")?;
    print_scope(rt, "admitted", pipe, id)?;
    if pipe.is_in_flight(id) && !pipe.is_ready(id) {
        println!(rt; "centre of the scope: {}", pipe.centre(id).0)?;
        pipe.ready(id);
    }
    print_scope(rt, "ready", pipe, id)?;
    if pipe.is_in_flight(id) {
        pipe.finish(id);
    }
    print_scope(rt, "finished", pipe, id)?;
    pipe.reset();
    print_scope(rt, "reset", pipe, id)
}

fn print_scope(rt: &impl Print, when: &str, pipe: &ScopePipe, id: ScopeId) -> io::Result<()> {
    let (flies, in_flight) = (pipe.flies(Vertex(3)), pipe.is_in_flight(id));
    let (ready, all_ready) = (pipe.is_ready(id), pipe.ready_ones().len());
    println!(rt;
        "scope of vertex 3, {when}: vertex flies {flies}, in flight {in_flight}, ready {ready}, all that fly {}, all ready {all_ready}",
        pipe.flight_count()
    )
}

/// A scope is admitted with no look at its vertex, if there is room.
fn print_at_once(rt: &impl Print, pipe: &mut ScopePipe) -> io::Result<()>
    requires { pipe.old.width ≡ 1 }
{
    if pipe.has_serial() && pipe.flight_count() < 1 {
        pipe.admit_now(Vertex(7));
    }
    println!(rt;
        "scope of vertex 7 admitted at once: vertex flies {}",
        pipe.flies(Vertex(7))
    )
}

/// A scope of vertex 5 comes, takes its locks in the canonical order, and leaves.
fn print_stand(rt: &impl Print, alloc: Global, pipe: &mut ScopePipe) -> io::Result<()> {
    let id = pipe.next_id();
    println!(rt;
        "stand of vertex 5: has come {}, all that have come {}",
        pipe.has_come(id),
        pipe.entered_count()
    )?;
    if enter(alloc, pipe, id).is_err() {
        return println!(rt; "stand of vertex 5: out of memory");
    }
    for _ in 0..4 {
        print_wants(rt, pipe, id)?;
    }
    println!(rt;
        "stand of vertex 5: has come {}, all that have come {}",
        pipe.has_come(id),
        pipe.entered_count()
    )?;
    print_left(rt, pipe, id)
}

/// The scope comes, if it has not come yet, nor has another.
fn enter(alloc: Global, pipe: &mut ScopePipe, id: ScopeId) -> Result<(), NoMemory> {
    let part = Vec::from_slice(alloc, &[Vertex(2), Vertex(5), Vertex(9)])?;
    let rest = Vec::from_slice(alloc, &[MachineNo(1), MachineNo(3)])?;
    if !pipe.has_come(id) && pipe.entered_count() == 0 {
        pipe.enter(id, Vertex(5), part, rest);
    }
    Ok(())
}

/// Prints what the scope wants next, as `look` and `advance` tell.
fn print_wants(rt: &impl Print, pipe: &mut ScopePipe, id: ScopeId) -> io::Result<()> {
    if !pipe.has_come(id) {
        return println!(rt; "stand of vertex 5: gone");
    }
    print!(rt; "stand of vertex 5, looked:")?;
    print_next(rt, pipe.look(id))?;
    print!(rt; ", advanced:")?;
    print_next(rt, pipe.advance(id))?;
    println!(rt; "")
}

fn print_next(rt: &impl Print, next: Next) -> io::Result<()> {
    match next {
        Next::Lock(vertex, Mode::Reader) => print!(rt; " to read {}", vertex.0),
        Next::Lock(vertex, Mode::Writer) => print!(rt; " to write {}", vertex.0),
        Next::Forward(machine) => print!(rt; " to go on to {}", machine.0),
        Next::Home => print!(rt; " to go home"),
    }
}

fn print_left(rt: &impl Print, pipe: &mut ScopePipe, id: ScopeId) -> io::Result<()> {
    if !pipe.has_come(id) {
        return println!(rt; "stand of vertex 5: gone");
    }
    println!(rt;
        "stand of vertex 5 leaves with centre {}",
        pipe.leave(id).centre.0
    )
}
