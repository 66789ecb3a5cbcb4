//! Calls, which are driven from one pause to the next.
ghost use Rattle.std.specs.Prelude.{◌<◌, IsTrue, length};

use crate::answers::is_answer;
use crate::beginnings::{Beginning, InTrace, begin_call, call_again};
use crate::looks::{Look, add_kept, look_of};
use crate::plans::machine_of;
use crate::playing::{add_outcome, add_trouble};
use crate::records::keep_record;
use crate::recovering::newest_base;
use crate::restarts::missing_of;
use crate::scenes::{Kept, first_kept};
use crate::trouble::Trouble;
use cluster_step::drive::{Pause, drive};
use cluster_step::trace::{Event, Local, SavingMachine, Trace};
use gl_base::{Base, Entry, FailureAt, MachineNo, Refused};
use node_threads::run_nodes;
use recovery::restarts::{base_behind, count_failed};
use scenario_lines::{Line, Page, is_remark};
use std::alloc::Global;
use std::sync::Wait;
use std::thread::Threads;
use update_api::Program;
use wire_board::{Receipt, play_on_board};

/// As often as a call may pause.
const MOST_PAUSES: u32 = 1000000;

/// As many rounds as are played on a first board.
const FIRST_ROUNDS: u32 = 2;

/// As many rounds as are played on the board behind it, at most.
const MOST_ROUNDS: u32 = 1000000;

/// A call, with the store beside it, how often machines went back, and why it paused last.
#[derive(Drop)]
pub struct Call<'a, P: Program> {
    pub beginning: &'a Beginning<'a, P>,
    pub trace: InTrace<P>,
    pub kept: Kept,
    pub recoveries: u64,
    pub pause: Option<Pause>,
}

/// Drives a call with these failures to its end, and writes each line as it was seen then. Where
/// the machines have threads, they go on there to the first pause.
pub fn play_call<R: Threads + Wait + AllocGlobal + Sync, P: Program + Send + Sync>(
    rt: &R,
    beginning: &Beginning<'_, P>,
    failures: &[FailureAt],
    has_threads: bool,
    lines: &[&str],
    page: &mut Page,
) -> Result<(), Trouble> {
    let call = opened_call(rt.alloc(), beginning, failures)?;
    let mut call = if has_threads {
        on_threads(rt, call)?
    } else {
        call
    };
    if let Err(trouble) = go_on(rt, &mut call) {
        add_trouble(trouble, page);
    }
    look_on(rt.alloc(), &call, lines, page);
    drop(call);
    Ok(())
}

/// Runs the machines of the call on threads to the first pause.
fn on_threads<'a, R: Threads + Wait + AllocGlobal + Sync, P: Program + Send + Sync>(
    rt: &R,
    call: Call<'a, P>,
) -> Result<Call<'a, P>, Trouble> {
    let Call {
        beginning,
        trace,
        kept,
        recoveries,
        pause,
    } = call;
    let left = trace.left();
    match run_nodes(rt, rt.alloc(), trace) {
        Ok(trace) if trace.left() < left => Ok(Call {
            beginning,
            trace,
            kept,
            recoveries,
            pause,
        }),
        Ok(trace) => {
            drop(trace);
            drop(kept);
            Err(Trouble::Because("no thread makes an update"))
        }
        Err(fault) => {
            drop(kept);
            Err(fault.into())
        }
    }
}

/// Opens the call with a store without snapshots.
pub fn opened_call<'a, P: Program>(
    alloc: Global,
    beginning: &'a Beginning<'a, P>,
    failures: &[FailureAt],
) -> Result<Call<'a, P>, Trouble> {
    let mut kept = first_kept(alloc, beginning)?;
    match opened_trace(alloc, beginning, &mut kept, failures) {
        Ok(trace) => Ok(Call {
            beginning,
            trace,
            kept,
            recoveries: 0,
            pause: None,
        }),
        Err(trouble) => {
            drop(kept);
            Err(trouble)
        }
    }
}

/// Opens the call from what the store tells.
fn opened_trace<P: Program>(
    alloc: Global,
    beginning: &Beginning<'_, P>,
    kept: &mut Kept,
    failures: &[FailureAt],
) -> Result<InTrace<P>, Trouble> {
    let base = newest_base(alloc, beginning, kept)?;
    let outcome = begin_call(alloc, beginning, &base, failures);
    drop(base);
    if !beginning.is_on_board {
        return outcome;
    }
    let (trace, so_far) = play_on_board(alloc, outcome?, None, FIRST_ROUNDS)?;
    let (trace, receipt) = play_on_board(alloc, trace, so_far, MOST_ROUNDS)?;
    let is_whole = has_all(&trace, &receipt);
    drop(receipt);
    if !is_whole {
        drop(trace);
        return Err(Trouble::Because("the receipt of a board has not the updates that were made"));
    }
    Ok(trace)
}

/// Whether there is a receipt, with some update and with all that the machines have made in this
/// attempt, by ticket.
fn has_all<M: SavingMachine>(trace: &Trace<M>, receipt: &Option<Receipt>) -> bool {
    match receipt {
        Some(receipt) => !receipt.entries().is_empty() && are_made(trace, receipt.entries()),
        None => false,
    }
}

/// Whether these are all updates that the machines have made in this attempt, by ticket.
fn are_made<M: SavingMachine>(trace: &Trace<M>, entries: &[Entry]) -> bool {
    let first = trace.next().saturating_sub(entries.len() as u64);
    let mut made = 0usize;
    for m in 0..trace.machines() {
        let log = trace.log(MachineNo(m as u16));
        if !log.iter().all(|entry| is_in_place(*entry, first, entries)) {
            return false;
        }
        made = made.saturating_add(log.len());
    }
    made == entries.len()
}

/// Whether the update stands where its ticket says, in entries whose first has this ticket.
fn is_in_place(entry: Entry, first: u64, entries: &[Entry]) -> bool {
    match entry {
        Entry::Go { ticket, .. } => {
            let place = ticket.saturating_sub(first) as usize;
            place < entries.len() && entries[place] == entry
        }
        Entry::Restart { .. } => false,
    }
}

/// Goes on from pause to pause until the call has ended, or its budget is spent.
pub fn go_on<R: Wait + AllocGlobal, P: Program>(
    rt: &R,
    call: &mut Call<'_, P>,
) -> Result<(), Trouble> {
    for _ in 0..MOST_PAUSES {
        let pause = drive(rt, &mut call.trace, true)?;
        call.pause = Some(pause);
        match pause {
            Pause::Ended | Pause::Quiet | Pause::Full | Pause::Spent => return Ok(()),
            Pause::Record(_) => {
                take_due(rt.alloc(), call.beginning, &mut call.kept, &mut call.trace)?;
            }
            Pause::Reached(_) => go_back(rt.alloc(), call)?,
        }
    }
    Err(Trouble::Because("a call has no end"))
}

/// Keeps the record that is due, and acknowledges it.
fn take_due<P: Program, M: SavingMachine>(
    alloc: Global,
    beginning: &Beginning<'_, P>,
    kept: &mut Kept,
    trace: &mut Trace<M>,
) -> Result<(), Trouble> {
    let record = match trace.record(alloc) {
        Ok(record) => record,
        Err(Refused::NotNow) => return Err(Trouble::Because("no record is due")),
        Err(Refused::NoMemory) => return Err(Trouble::Because("memory is missing")),
    };
    let number = record.number;
    keep_record(alloc, beginning, kept, record)?;
    trace.acknowledge(number);
    Ok(())
}

/// Lets each machine fail that has reached the count of a failure, and all go back to the newest
/// snapshot.
fn go_back<P: Program>(alloc: Global, call: &mut Call<'_, P>) -> Result<(), Trouble> {
    let failures = failures_of(alloc, &mut call.trace, call.beginning.machines)?;
    let base = base_behind_failures(alloc, call, failures)?;
    let outcome = call_again(alloc, call.beginning, &base, &mut call.trace);
    drop(base);
    call.recoveries = call.recoveries.saturating_add(1);
    outcome
}

/// Returns the newest snapshot with the restarts that the store lacks.
fn base_behind_failures<P: Program>(
    alloc: Global,
    call: &mut Call<'_, P>,
    failures: usize,
) -> Result<Base, Trouble> {
    call.kept.lacking = missing_of(alloc, &call.kept, failures, call.trace.next())?;
    let base = newest_base(alloc, call.beginning, &mut call.kept)?;
    Ok(base_behind(base, &call.kept.lacking)?)
}

/// Lets each machine fail that has reached the count of a failure. Returns how many do.
fn failures_of<M: SavingMachine>(
    alloc: Global,
    trace: &mut Trace<M>,
    machines: u16,
) -> Result<usize, Trouble> {
    let mut flags = Vec::new(alloc);
    for m in 0..machines {
        flags.push(fails(trace, MachineNo(m))?)?;
    }
    Ok(count_failed(&flags))
}

/// Returns whether the call has this machine.
fn has_machine<M: SavingMachine>(trace: &Trace<M>, at: MachineNo) -> bool
    ensures { IsTrue result → at.0 < length trace.now.now.machines.items }
{
    (at.0 as usize) < trace.machines()
}

/// Lets the machine fail if it has reached the count of a failure, which makes no update any more;
/// and no other may. Returns whether it has failed.
fn fails<M: SavingMachine>(trace: &mut Trace<M>, at: MachineNo) -> Result<bool, Trouble> {
    let reached = has_machine(trace, at) && trace.has_reached(at);
    if reached && is_updated(trace, at) {
        return Err(Trouble::Because("an update is made behind the count of a failure"));
    }
    if is_let_fail(trace, at) != reached {
        return Err(Trouble::Because("a machine fails at another time"));
    }
    if has_machine(trace, at) && trace.has_failed(at) == reached {
        Ok(reached)
    } else {
        Err(Trouble::Because("a machine has failed at another time"))
    }
}

/// Returns whether the machine makes an update at once.
fn is_updated<M: SavingMachine>(trace: &mut Trace<M>, at: MachineNo) -> bool {
    has_machine(trace, at) && trace.update_at_once(at).is_ok()
}

/// Returns whether the machine fails now.
fn is_let_fail<M: SavingMachine>(trace: &mut Trace<M>, at: MachineNo) -> bool {
    has_machine(trace, at) && trace.apply(Event::Local(Local::Fail(at))).is_ok()
}

/// Writes each line as it was seen.
fn look_on<P: Program>(alloc: Global, call: &Call<'_, P>, lines: &[&str], page: &mut Page) {
    for text in lines {
        if is_remark(text) {
            page.add_line(text);
        } else {
            look(alloc, call, text, page);
        }
    }
}

/// Writes a line as it was seen: what it asks for, or whether the call came to the answer.
fn look<P: Program>(alloc: Global, call: &Call<'_, P>, text: &str, page: &mut Page) {
    match text.split_once(" is ") {
        Some((asked, _)) => look_at(call, &Line::of(alloc, asked), page),
        None => look_at_answer(alloc, call.beginning, &call.kept, page),
    }
}

/// Writes a line with what is seen of the call.
fn look_at<P: Program>(call: &Call<'_, P>, line: &Line<'_>, page: &mut Page) {
    page.add_words(line);
    page.add(" is");
    add_seen(call, line, page);
    page.add_line("");
}

/// Writes whether the call came to the answer.
fn look_at_answer<P: Program>(
    alloc: Global,
    beginning: &Beginning<'_, P>,
    kept: &Kept,
    page: &mut Page,
) {
    let outcome = is_answer(alloc, beginning, kept);
    add_outcome(&Line::of(alloc, "answer"), outcome, page);
}

/// Writes what is seen of the call where the line asks for it.
fn add_seen<P: Program>(call: &Call<'_, P>, line: &Line<'_>, page: &mut Page) {
    match look_of(line.word) {
        Look::Pause => add_pause(call.pause, page),
        Look::Recoveries => page.add_numbers(&[call.recoveries]),
        Look::Stored => page.add_numbers(&[call.trace.coordinator().stored() as u64]),
        Look::Left => page.add_numbers(&[call.trace.left()]),
        Look::Completed => add_completed(&call.trace, machine_of(line.number(0)), page),
        look => add_kept(call.beginning.graph, &call.kept, look, page),
    }
}

fn add_pause(pause: Option<Pause>, page: &mut Page) {
    page.add(match pause {
        Some(Pause::Ended | Pause::Quiet) => " ended",
        Some(Pause::Full) => " full",
        Some(Pause::Spent) => " spent",
        _ => " none",
    });
}

/// Writes how many updates the machine has completed in the call.
fn add_completed<M: SavingMachine>(trace: &Trace<M>, at: MachineNo, page: &mut Page) {
    if has_machine(trace, at) {
        page.add_numbers(&[trace.completed(at)]);
    } else {
        page.add(" no such machine");
    }
}
