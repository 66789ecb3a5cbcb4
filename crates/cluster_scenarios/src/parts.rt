//! The files of scenarios, part by part.
use crate::beginnings::beginning_of;
use crate::calls::play_call;
use crate::graphs::graph_of;
use crate::plans::{Plan, take_lines};
use crate::playing::{add_trouble, play_events};
use crate::trouble::Trouble;
use crate::walks::play_walks;
use graph_core::Graph;
use graph_programs::selection::JobProgram;
use scenario_lines::{Page, is_given, is_remark, parts_of};
use std::rt::Files;
use std::sync::Wait;
use std::thread::Threads;
use std::{fs, io};

/// Plays the scenarios of a file, and prints each of its lines as it was seen.
pub fn play_file<R: Files + Print + AllocGlobal + Threads + Wait + Sync>(
    rt: &R,
    file: &str,
) -> io::Result<()> {
    let text = fs::read_to_string(rt, file)?;
    let parts = parts_of(rt.alloc(), text.as_str())?;
    let mut page = Page::new(rt.alloc());
    play_parts(rt, &parts, &mut page);
    print!(rt; "{}", page.as_str())
}

/// Plays the parts in turn, each behind what was given last. What is given is played too, as a
/// scenario of its own.
fn play_parts<R: AllocGlobal + Threads + Wait + Sync>(
    rt: &R,
    parts: &[Vec<&str>],
    page: &mut Page,
) {
    let mut last = 0;
    for (place, part) in parts.iter().enumerate() {
        if is_given(part) {
            last = place;
            play_part(rt, &[], part, page);
        } else if let Some(given) = parts.get(last) {
            play_part(rt, given, part, page);
        }
    }
}

/// Plays a part behind what is given, whose lines are printed where they stand.
fn play_part<R: AllocGlobal + Threads + Wait + Sync>(
    rt: &R,
    given: &[&str],
    part: &[&str],
    page: &mut Page,
) {
    let mut plan = Plan::new(rt.alloc());
    let known = take_lines(rt.alloc(), &mut plan, given, &mut Page::new(rt.alloc()));
    let taken = take_lines(rt.alloc(), &mut plan, part, page);
    let given = given.get(known..).unwrap_or(&[]);
    let lines = part.get(taken..).unwrap_or(&[]);
    if lines.is_empty() {
        return;
    }
    if let Err(trouble) = play_plan(rt, &plan, given, lines, page) {
        add_trouble(trouble, page);
        add_remarks(lines, page);
    }
}

/// Writes the lines that say nothing.
fn add_remarks(lines: &[&str], page: &mut Page) {
    for text in lines {
        if is_remark(text) {
            page.add_line(text);
        }
    }
}

/// Plays the lines on the graph of the plan.
fn play_plan<R: AllocGlobal + Threads + Wait + Sync>(
    rt: &R,
    plan: &Plan,
    given: &[&str],
    lines: &[&str],
    page: &mut Page,
) -> Result<(), Trouble> {
    let graph = graph_of(rt.alloc(), plan)?;
    let outcome = play_on(rt, &graph, plan, given, lines, page);
    drop(graph);
    outcome
}

/// Plays the lines on a cluster of the plan's program.
fn play_on<R: AllocGlobal + Threads + Wait + Sync>(
    rt: &R,
    graph: &Graph,
    plan: &Plan,
    given: &[&str],
    lines: &[&str],
    page: &mut Page,
) -> Result<(), Trouble> {
    let Some(program) = JobProgram::of(plan.algorithm, plan.source) else {
        return Err(Trouble::Because("the program has no such updates"));
    };
    let beginning = beginning_of(rt.alloc(), graph, program, plan)?;
    let outcome = if plan.steps > 0 {
        play_walks(rt, &beginning, &plan.failures, plan.steps, lines, page)
    } else if plan.is_call {
        play_call(
            rt,
            &beginning,
            &plan.failures,
            plan.has_threads,
            lines,
            page,
        )
    } else {
        play_events(rt.alloc(), &beginning, given, lines, page)
    };
    drop(beginning);
    outcome
}
