//! Plays scenarios.
use crate::calling::{kept, make_call};
use crate::printing::{add_left, echo};
use crate::sections::{Section, sections_of};
use crate::stage::{Held, Stage};
use crate::steps::Step;
use crate::turns::{Turns, play_turns};
use crate::words::words_of;
use scenario_lines::{Line, Page, is_given, parts_of};
use std::alloc::Global;
use std::rt::Files;
use std::sync::Wait;
use std::thread::Threads;
use std::{fs, io};

/// Plays the scenarios of a file, and prints them.
pub fn play_file<R: Files + Print + AllocGlobal + Threads + Wait + Sync>(
    rt: &R,
    file: &str,
) -> io::Result<()> {
    let text = fs::read_to_string(rt, file)?;
    let parts = parts_of(rt.alloc(), text.as_str())?;
    let mut page = Page::new(rt.alloc());
    play_parts(rt, rt.alloc(), &parts, &mut page);
    print!(rt; "{}", page.as_str())
}

/// Plays the parts of a file. What is given is read again for each scenario behind it.
fn play_parts<R: Threads + Wait + Sync>(
    rt: &R,
    alloc: Global,
    parts: &[Vec<&str>],
    page: &mut Page,
) {
    let mut last = 0;
    for (place, part) in parts.iter().enumerate() {
        if is_given(part) {
            last = place;
        }
        if let Some(given) = parts.get(last) {
            play_part(rt, alloc, given, part, page);
        }
    }
}

/// Plays a part over the files and disks that are given.
fn play_part<R: Threads + Wait + Sync>(
    rt: &R,
    alloc: Global,
    given: &[&str],
    part: &[&str],
    page: &mut Page,
) {
    let given = sections_of(alloc, &*given);
    let sections = sections_of(alloc, &*part);
    play_over(rt, alloc, &given, &sections, page);
}

/// Plays the sections of a part over those that are given.
fn play_over<'a, R: Threads + Wait + Sync>(
    rt: &R,
    alloc: Global,
    given: &'a [Section<'a>],
    sections: &'a [Section<'a>],
    page: &mut Page,
) {
    let mut stage = Stage::new(alloc, Vec::new(alloc));
    for section in given {
        let _ = stage.prepare(alloc, section);
    }
    play_sections(rt, alloc, sections, &mut stage, page);
}

/// Plays the sections of a part in turn.
fn play_sections<'a, R: Threads + Wait + Sync>(
    rt: &R,
    alloc: Global,
    sections: &'a [Section<'a>],
    stage: &mut Stage<'a>,
    page: &mut Page,
) {
    let mut next = 0;
    for (place, section) in sections.iter().enumerate() {
        if place < next {
            continue;
        }
        if section.keyword == "call" {
            let step = Step::at(sections, place, *section);
            next = step.end;
            play_step(rt, alloc, &step, stage, page);
        } else {
            prepare(alloc, section, stage, page);
        }
    }
}

/// Does what a section says before a call, and adds it as it was understood.
fn prepare<'a>(alloc: Global, section: &Section<'a>, stage: &mut Stage<'a>, page: &mut Page) {
    if !stage.prepare(alloc, section) {
        page.add("malformed: ");
    }
    match section.keyword {
        "fail" | "room" => {
            page.add(section.keyword);
            page.add(" ");
            page.add_words(&Line::of(alloc, section.said));
            page.add("\n");
        }
        _ => echo(page, section),
    }
}

/// Plays a step: a call, and the calls before it in which one call fails in turn.
fn play_step<'a, R: Threads + Wait + Sync>(
    rt: &R,
    alloc: Global,
    step: &Step<'a>,
    stage: &mut Stage<'a>,
    page: &mut Page,
) {
    name_all(stage, step.block);
    name_all(stage, step.turns);
    let words = words_of(alloc, step.call.said, page);
    echo(page, &step.call);
    let held = match Turns::of(step) {
        Some(turns) => {
            stage.fail_once(turns.calls, turns.count.saturating_add(1));
            let held = play_call(rt, alloc, step, &words, stage, page);
            let _ = stage.faults.pop();
            let told = play_turns(rt, alloc, step, turns, &words, stage);
            page.add(told.as_str());
            held
        }
        None => play_call(rt, alloc, step, &words, stage, page),
    };
    *stage = Stage::new(alloc, held);
}

/// Names the files and disks that these sections speak of.
fn name_all<'a>(stage: &mut Stage<'a>, block: &[Section<'a>]) {
    for section in block {
        match section.keyword {
            "left" | "gone" | "any" => stage.name(section.said, false),
            "holds" | "any-disk" => stage.name(section.said, true),
            _ => {}
        }
    }
}

/// Makes the call of a step, adds what it left, and returns the files and disks that it left.
fn play_call<'a, R: Threads + Wait + Sync>(
    rt: &R,
    alloc: Global,
    step: &Step<'a>,
    words: &[String],
    stage: &Stage<'a>,
    page: &mut Page,
) -> Vec<Held<'a>> {
    let left = make_call(rt, alloc, stage, words);
    add_left(alloc, page, step.block, &stage.held, &left);
    kept(alloc, &stage.held, &left.files)
}
