//! What a call tells of each part but files and disks.
use crate::calling::Left;
use crate::entries::add_entries;
use crate::sections::Section;
use crate::updates::is_each;
use engine_cli::Ended;
use scenario_lines::{Page, number_of, word_of, words_behind};
use std::alloc::Global;

/// The parts that are told in one line, by their words.
pub static LINES: [&str; 8] = [
    "status", "cause", "order", "done", "lost", "fired", "met", "passed",
];

/// The parts that are told by a text, by their words.
pub static TEXTS: [&str; 3] = ["out", "note", "snapshots"];

/// Adds what a call tells of a part behind the part's word.
pub fn add_line(alloc: Global, page: &mut Page, word: &str, left: &Left) {
    let ended = &left.ended;
    match word {
        "status" => page.add_numbers(&[u64::from(ended.status.number())]),
        "cause" => add_cause(alloc, page, ended),
        "order" => add_entries(page, &ended.order),
        "done" => page.add_numbers(&ended.done),
        "lost" => add_entries(page, &ended.lost),
        "fired" => add_fired(page, &ended.fired),
        "met" => left.gate.add_met(page),
        "passed" => left.gate.add_passed(page),
        _ => {}
    }
}

/// Returns whether a section that does not tell all of a part is right of it: a cause by its name
/// alone, the most updates that all machines together may have made or lost, or the updates of an
/// order.
pub fn is_within(alloc: Global, section: &Section<'_>, ended: &Ended) -> bool {
    match section.keyword {
        "cause" => is_named(alloc, section.said, ended),
        "done" => is_at_most(section.said, sum_of(&ended.done)),
        "lost" => is_at_most(section.said, ended.lost.len() as u64),
        "order" => is_each(section.said, &ended.order),
        _ => false,
    }
}

/// Returns whether the cause has this name.
fn is_named(alloc: Global, name: &str, ended: &Ended) -> bool {
    match format!(in alloc; "{:?}", ended.status) {
        Ok(cause) => word_of(cause.as_str()) == name,
        Err(_) => false,
    }
}

/// Returns whether `most N` is said, and there are at most so many.
fn is_at_most(said: &str, count: u64) -> bool {
    let most = number_of(words_behind(said));
    word_of(said) == "most" && most < u64::MAX && count <= most
}

/// Returns what the numbers come to.
fn sum_of(numbers: &[u64]) -> u64 {
    let mut sum = 0u64;
    for number in numbers {
        sum = sum.saturating_add(*number);
    }
    sum
}

/// Adds the status as it is written in code.
fn add_cause(alloc: Global, page: &mut Page, ended: &Ended) {
    if let Ok(cause) = format!(in alloc; " {:?}", ended.status) {
        page.add(cause.as_str());
    }
}

/// Adds the places of the failures that fired.
fn add_fired(page: &mut Page, fired: &[u16]) {
    for place in fired {
        page.add_numbers(&[u64::from(*place)]);
    }
}

/// Returns what a call left of a part that is told by a text.
pub fn text_left(alloc: Global, word: &str, left: &Left) -> Vec<u8> {
    let bytes = match word {
        "out" => left.out.bytes(),
        "note" => left.note.bytes(),
        _ => return snapshots(alloc, &left.ended),
    };
    match Vec::from_slice(alloc, bytes) {
        Ok(copy) => copy,
        Err(_) => Vec::new(alloc),
    }
}

/// Returns a line for each snapshot: its number, how many entries its order has, and what its
/// numbers come to.
fn snapshots(alloc: Global, ended: &Ended) -> Vec<u8> {
    let mut text = String::new(alloc);
    for line in ended.snapshots.iter() {
        let (number, entries) = (line.number, line.entries);
        let (reached, sum, max) = (line.reached, line.sum, line.max);
        let _ = writeln!(text, "{number} {entries} {reached} {sum} {max}");
    }
    text.into_bytes()
}
