//! Calls in which one call after another fails.
use crate::calling::{kept, make_call};
use crate::printing::{add_left, echo, echo_remarks};
use crate::stage::{Held, Stage};
use crate::steps::Step;
use crate::words::words_of;
use scenario_lines::{Line, Page, number_of, word_of, words_behind};
use std::alloc::Global;
use std::sync::Wait;
use std::thread::Threads;

/// How many calls are made at most.
const MOST_TURNS: u64 = 1000;

/// Which calls fail in turn, and how many of them.
#[derive(Clone, Copy)]
pub struct Turns<'a> {
    pub calls: &'a str,
    pub count: u64,
}

impl<'a> Turns<'a> {
    /// Returns the turns that a step asks for.
    pub fn of(step: &Step<'a>) -> Option<Turns<'a>> {
        match step.each {
            Some(each) => Some(Turns {
                calls: word_of(each.said),
                count: number_of(words_behind(each.said)),
            }),
            None => None,
        }
    }
}

/// Makes the call of a step so many times, in which one call fails in turn. Returns what the first
/// of them left, and behind it what a later one left where that differs from what the one before it
/// left.
pub fn play_turns<'a, R: Threads + Wait + Sync>(
    rt: &R,
    alloc: Global,
    step: &Step<'a>,
    turns: Turns<'a>,
    words: &[String],
    stage: &mut Stage<'a>,
) -> Page {
    let mut page = Page::new(alloc);
    add_heads(alloc, step, &mut page);
    let mut last = Page::new(alloc);
    for number in 0..turns.count.min(MOST_TURNS) {
        stage.fail_once(turns.calls, number.saturating_add(1));
        let turn = play_turn(rt, alloc, step, words, stage);
        let _ = stage.faults.pop();
        if turn.as_str() != last.as_str() {
            page.add(turn.as_str());
            last = turn;
        }
    }
    page
}

/// Adds the lines that ask for turns, as they were understood.
fn add_heads(alloc: Global, step: &Step<'_>, page: &mut Page) {
    if let Some(each) = &step.each {
        page.add("each ");
        page.add_words(&Line::of(alloc, each.said));
        page.add("\n");
        echo_remarks(page, each);
    }
    if let Some(then) = &step.then {
        echo(page, then);
    }
}

/// Makes one of these calls, and the call behind it if there is one. Returns what the last of them
/// left.
fn play_turn<R: Threads + Wait + Sync>(
    rt: &R,
    alloc: Global,
    step: &Step<'_>,
    words: &[String],
    stage: &Stage<'_>,
) -> Page {
    let mut page = Page::new(alloc);
    let left = make_call(rt, alloc, stage, words);
    match &step.then {
        Some(then) => {
            let held = kept(alloc, &stage.held, &left.files);
            play_then(rt, alloc, step, then.said, held, &mut page);
        }
        None => add_left(alloc, &mut page, step.turns, &stage.held, &left),
    }
    page
}

/// Makes the call behind a call that failed, over what that left, and adds what it left.
fn play_then<R: Threads + Wait + Sync>(
    rt: &R,
    alloc: Global,
    step: &Step<'_>,
    said: &str,
    held: Vec<Held<'_>>,
    page: &mut Page,
) {
    let words = words_of(alloc, said, page);
    let stage = Stage::new(alloc, held);
    let left = make_call(rt, alloc, &stage, &words);
    add_left(alloc, page, step.turns, &stage.held, &left);
}
