//! What happens in a cluster, or may not happen now: of machines of any kind, of which nothing more
//! need be known.
ghost use Rattle.std.specs.Prelude.{◌≡◌, ◌<◌, true, IsTrue, length};
ghost use Rattle.cluster_step.specs.clusters.Events.{NamesItsMachines, NamesLocal, NamesPassage};

use crate::imprints::imprint;
use crate::trouble::Trouble;
use cluster_step::clusters::{Event, Local, Passage, SavingMachine, SnapCluster};
use gl_base::{MachineNo, Record, Refused, ScopeId, Vertex};
use std::alloc::Global;

/// Lets the event happen, and returns whether it has. What is refused leaves no change that is read
/// of the cluster.
pub fn happens<M: SavingMachine>(
    whole: &mut SnapCluster<M>,
    event: Event,
) -> Result<bool, Trouble> {
    if !is_within(whole.machines(), event) {
        return Err(Trouble::Because("there is no such machine"));
    }
    let before = imprint(whole);
    match whole.apply(event) {
        Ok(()) => Ok(true),
        Err(refusal) => refused(whole, before, refusal),
    }
}

/// Updates a vertex of the machine at once, and returns whether one was.
pub fn happens_at_once<M: SavingMachine>(
    whole: &mut SnapCluster<M>,
    at: MachineNo,
) -> Result<bool, Trouble> {
    if !has_machine(whole, at) {
        return Err(Trouble::Because("there is no such machine"));
    }
    let before = imprint(whole);
    match whole.update_at_once(at) {
        Ok(_) => Ok(true),
        Err(refusal) => refused(whole, before, refusal),
    }
}

/// Returns `false` for what may not happen now, and looks whether the refusal has left a change.
fn refused<M: SavingMachine>(
    whole: &SnapCluster<M>,
    before: u64,
    refusal: Refused,
) -> Result<bool, Trouble> {
    if imprint(whole) != before {
        return Err(Trouble::Because("what was refused has left a change"));
    }
    match refusal {
        Refused::NotNow => Ok(false),
        Refused::NoMemory => Err(Trouble::NoMemory),
    }
}

/// Lets the one message go onto a link and come by the other, and returns whether it has.
pub fn both_happen<M: SavingMachine>(
    whole: &mut SnapCluster<M>,
    first: Passage,
    second: Passage,
) -> Result<bool, Trouble> {
    if !happens(whole, Event::Passage(first))? {
        return Ok(false);
    }
    if happens(whole, Event::Passage(second))? {
        Ok(true)
    } else {
        Err(Trouble::Because("what was sent doesn't come"))
    }
}

/// Returns the record that is due, if one is.
pub fn due_record<M: SavingMachine>(
    alloc: Global,
    whole: &mut SnapCluster<M>,
) -> Result<Option<Record>, Trouble> {
    let before = imprint(whole);
    match whole.record(alloc) {
        Ok(record) => Ok(Some(record)),
        Err(refusal) => {
            refused(whole, before, refusal)?;
            Ok(None)
        }
    }
}

/// Returns a lock of the machine that may be granted, if it has one.
pub fn next_grant<M: SavingMachine>(whole: &mut SnapCluster<M>, at: MachineNo) -> Option<Vertex> {
    if has_machine(whole, at) {
        whole.next_grant(at)
    } else {
        None
    }
}

/// Returns the next scope of the machine that is ready for its update, or for its snapshot update,
/// if one is.
pub fn next_scope<M: SavingMachine>(
    whole: &SnapCluster<M>,
    home: MachineNo,
    is_mark: bool,
) -> Option<ScopeId> {
    if !has_machine(whole, home) {
        return None;
    }
    if is_mark {
        whole.next_mark(home)
    } else {
        whole.next_update(home)
    }
}

/// Returns whether the cluster has this machine.
pub fn has_machine<M: SavingMachine>(whole: &SnapCluster<M>, at: MachineNo) -> bool
    ensures { IsTrue result → at.0 < length whole.now.machines.items }
{
    (at.0 as usize) < whole.machines()
}

/// Returns whether the event names machines of the cluster.
fn is_within(machines: usize, event: Event) -> bool
    ensures { result ≡ true → NamesItsMachines machines event }
{
    match event {
        Event::Local(local) => is_local_within(machines, local),
        Event::Lead(_) => true,
        Event::Passage(passage) => is_passage_within(machines, passage),
    }
}

/// Returns the same of what a machine does by itself.
fn is_local_within(machines: usize, local: Local) -> bool
    ensures { result ≡ true → NamesLocal machines local }
{
    match local {
        Local::Admit(at) => (at.0 as usize) < machines,
        Local::Grant(at, _) => (at.0 as usize) < machines,
        Local::Update(scope) => (scope.home.0 as usize) < machines,
        Local::Mark(scope) => (scope.home.0 as usize) < machines,
        Local::Section(at) => (at.0 as usize) < machines,
        Local::Fail(at) => (at.0 as usize) < machines,
    }
}

/// Returns the same of what goes onto a link, and what comes.
fn is_passage_within(machines: usize, passage: Passage) -> bool
    ensures { result ≡ true → NamesPassage machines passage }
{
    match passage {
        Passage::Send { from, to } => (from.0 as usize) < machines && (to.0 as usize) < machines,
        Passage::Deliver { from, to } => (from.0 as usize) < machines && (to.0 as usize) < machines,
        Passage::SendCall(at) => (at.0 as usize) < machines,
        Passage::DeliverCall(at) => (at.0 as usize) < machines,
        Passage::SendReport(at) => (at.0 as usize) < machines,
        Passage::DeliverReport(at) => (at.0 as usize) < machines,
    }
}
