//! Every order in which seats may make their steps on a board.
use crate::answers::is_answer;
use crate::beginnings::Beginning;
use crate::calls::{Call, go_on, opened_call};
use crate::playing::add_outcome;
use crate::trouble::Trouble;
use gl_base::{FailureAt, MachineNo};
use scenario_lines::{Line, Page, is_remark};
use std::alloc::Global;
use std::sync::Wait;
use update_api::Program;
use wire_board::{NodeStep, SeatStep, step_on_board};

/// As many steps are tried at most.
const MOST_TRIES: u64 = 100000000;

/// The steps that are made one after another, the place of each in the list of all that might be
/// made, the place of what is tried next, and how many whole lists were made.
#[derive(Drop)]
struct Walk {
    steps: Vec<SeatStep>,
    places: Vec<usize>,
    next: usize,
    lists: u64,
}

/// Begins a call on a board with each list of so many steps of seats that move something, one after
/// another, and drives it to its end from there. Writes each line as it was seen: how many lists
/// there are, and whether each call came to the answer.
pub fn play_walks<R: Wait + AllocGlobal, P: Program>(
    rt: &R,
    beginning: &Beginning<'_, P>,
    failures: &[FailureAt],
    depth: u64,
    lines: &[&str],
    page: &mut Page,
) -> Result<(), Trouble> {
    let all = all_steps(rt.alloc(), beginning.machines)?;
    let mut walk = Walk {
        steps: Vec::new(rt.alloc()),
        places: Vec::new(rt.alloc()),
        next: 0,
        lists: 0,
    };
    let outcome = walk_all(rt, beginning, failures, &all, depth, &mut walk);
    for text in lines {
        if is_remark(text) {
            page.add_line(text);
        } else if text.starts_with("lists is ") {
            page.add("lists is");
            page.add_numbers(&[walk.lists]);
            page.add_line("");
        } else {
            add_outcome(&Line::of(rt.alloc(), "answer"), outcome, page);
        }
    }
    drop(walk);
    Ok(())
}

/// Walks until every list was tried. Returns `true` if all is well.
fn walk_all<R: Wait + AllocGlobal, P: Program>(
    rt: &R,
    beginning: &Beginning<'_, P>,
    failures: &[FailureAt],
    all: &[SeatStep],
    depth: u64,
    walk: &mut Walk,
) -> Result<bool, Trouble> {
    for _ in 0..MOST_TRIES {
        match all.get(walk.next) {
            Some(step) if (walk.steps.len() as u64) < depth => {
                walk.steps.push(*step)?;
                try_step(rt, beginning, failures, depth, walk)?;
            }
            _ => match walk.places.pop() {
                Some(place) => {
                    let _last = walk.steps.pop();
                    walk.next = place.saturating_add(1);
                }
                None => return Ok(true),
            },
        }
    }
    Err(Trouble::Because("there are too many orders"))
}

/// Makes the steps in a call of their own. Where the last one moves nothing, it is taken off again.
/// Where the list is whole, the call is driven to its end.
fn try_step<R: Wait + AllocGlobal, P: Program>(
    rt: &R,
    beginning: &Beginning<'_, P>,
    failures: &[FailureAt],
    depth: u64,
    walk: &mut Walk,
) -> Result<(), Trouble> {
    let (call, moved) = stepped_call(rt.alloc(), beginning, failures, &walk.steps)?;
    let mut call = call;
    let is_whole = moved && walk.steps.len() as u64 == depth;
    let outcome = if is_whole {
        finish(rt, &mut call)
    } else {
        Ok(())
    };
    drop(call);
    if !moved {
        let _last = walk.steps.pop();
        walk.next = walk.next.saturating_add(1);
        return Ok(());
    }
    walk.places.push(walk.next)?;
    walk.next = 0;
    if is_whole {
        walk.lists = walk.lists.saturating_add(1);
    }
    outcome
}

/// Drives the call to its end, which has to be the answer.
fn finish<R: Wait + AllocGlobal, P: Program>(
    rt: &R,
    call: &mut Call<'_, P>,
) -> Result<(), Trouble> {
    go_on(rt, call)?;
    is_answer(rt.alloc(), call.beginning, &call.kept)?;
    Ok(())
}

/// Opens a call, and makes these steps on a board. Says whether the last one moved anything.
fn stepped_call<'a, P: Program>(
    alloc: Global,
    beginning: &'a Beginning<'a, P>,
    failures: &[FailureAt],
    steps: &[SeatStep],
) -> Result<(Call<'a, P>, bool), Trouble> {
    let Call {
        beginning,
        trace,
        kept,
        recoveries,
        pause,
    } = opened_call(alloc, beginning, failures)?;
    match step_on_board(alloc, trace, steps) {
        Ok((trace, moved)) => {
            let call = Call {
                beginning,
                trace,
                kept,
                recoveries,
                pause,
            };
            Ok((call, moved))
        }
        Err(fault) => {
            drop(kept);
            Err(fault.into())
        }
    }
}

/// Returns all steps that seats of so many machines might make.
fn all_steps(alloc: Global, machines: u16) -> Result<Vec<SeatStep>, Trouble> {
    let mut all = Vec::new(alloc);
    for m in 0..machines {
        let at = MachineNo(m);
        for other in 0..machines {
            all.push(SeatStep::Node(at, NodeStep::Hear(MachineNo(other))))?;
            all.push(SeatStep::Node(at, NodeStep::Tell(MachineNo(other))))?;
        }
        all.push(SeatStep::Node(at, NodeStep::Settle))?;
        all.push(SeatStep::Node(at, NodeStep::Work))?;
        all.push(SeatStep::Node(at, NodeStep::TellReport))?;
        all.push(SeatStep::Node(at, NodeStep::HearCall))?;
        all.push(SeatStep::TellCall(at))?;
        all.push(SeatStep::HearReport(at))?;
    }
    all.push(SeatStep::Lead)?;
    Ok(all)
}
