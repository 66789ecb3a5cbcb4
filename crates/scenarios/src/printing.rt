//! Prints what a call left, as scenarios write it.
use crate::calling::{Left, is_kept};
use crate::sections::Section;
use crate::stage::Held;
use crate::told::{LINES, TEXTS, add_line, is_within, text_left};
use scenario_lines::{Page, is_remark, word_of};
use std::alloc::Global;

/// Adds the lines of a section as they are written.
pub fn echo(page: &mut Page, section: &Section<'_>) {
    for line in section.lines {
        page.add_line(line);
    }
}

/// Adds the remarks behind a section.
pub fn echo_remarks(page: &mut Page, section: &Section<'_>) {
    for line in section.lines {
        if is_remark(line) {
            page.add_line(line);
        }
    }
}

/// Adds what a call left of all that these sections speak of, and then whatever else it left.
pub fn add_left(
    alloc: Global,
    page: &mut Page,
    block: &[Section<'_>],
    held: &[Held<'_>],
    left: &Left,
) {
    for section in block {
        if section.is_any() || is_within(alloc, section, &left.ended) {
            echo(page, section);
        } else {
            add_section(alloc, page, section, left);
        }
    }
    add_other_lines(alloc, page, block, left);
    add_other_texts(alloc, page, block, left);
    add_other_files(page, block, held, left);
}

/// Bytes that a call left, and the words of the line above them.
#[derive(Clone, Copy)]
struct Seen<'a> {
    word: &'a str,
    name: &'a str,
    bytes: &'a [u8],
}

/// Adds what a call left of the part that a section speaks of.
fn add_section(alloc: Global, page: &mut Page, section: &Section<'_>, left: &Left) {
    match section.keyword {
        "left" | "gone" => add_file(alloc, page, section, left),
        "holds" | "stored" => add_disk(alloc, page, section, left),
        "out" | "note" | "snapshots" => add_output(alloc, page, section, left),
        _ => {
            page.add(section.keyword);
            add_line(alloc, page, section.keyword, left);
            page.add("\n");
            echo_remarks(page, section);
        }
    }
}

/// Adds what a call left of a file.
fn add_file(alloc: Global, page: &mut Page, section: &Section<'_>, left: &Left) {
    let name = section.said;
    let is_gone = section.keyword == "gone";
    match left.files.bytes(name) {
        None if is_gone => echo(page, section),
        None => {
            page.add("gone ");
            page.add_line(name);
        }
        Some(bytes) => {
            let word = "left";
            let written = if is_gone { None } else { section.text(alloc) };
            add_text(alloc, page, section, written, Seen { word, name, bytes });
        }
    }
}

/// Adds what a call left on a disk.
fn add_disk(alloc: Global, page: &mut Page, section: &Section<'_>, left: &Left) {
    let name = word_of(section.said);
    let seen = Seen {
        word: "holds",
        name,
        bytes: left.files.disk_bytes(name),
    };
    add_text(alloc, page, section, section.text(alloc), seen);
}

/// Adds what a call wrote, or its snapshots.
fn add_output(alloc: Global, page: &mut Page, section: &Section<'_>, left: &Left) {
    let text = text_left(alloc, section.keyword, left);
    let seen = Seen {
        word: section.keyword,
        name: "",
        bytes: &text,
    };
    add_text(alloc, page, section, section.text_from_word(alloc), seen);
}

/// Adds a section as it is written if its text is what was seen, and else what was seen.
fn add_text(
    alloc: Global,
    page: &mut Page,
    section: &Section<'_>,
    written: Option<Vec<u8>>,
    seen: Seen<'_>,
) {
    match written {
        Some(written) if written.as_slice() == seen.bytes => echo(page, section),
        _ => {
            add_seen(alloc, page, seen);
            echo_remarks(page, section);
        }
    }
}

/// Adds what was seen, its bytes in one line.
fn add_seen(alloc: Global, page: &mut Page, seen: Seen<'_>) {
    page.add(seen.word);
    if !seen.name.is_empty() {
        page.add(" ");
    }
    page.add_line(seen.name);
    let bytes = seen.bytes.escape_ascii();
    if let Ok(line) = format!(in alloc; "+ {bytes}") {
        page.add_line(line.as_str());
    }
}

/// Returns whether one of these sections has this word.
fn are_told(block: &[Section<'_>], word: &str) -> bool {
    for section in block {
        if section.keyword == word {
            return true;
        }
    }
    false
}

/// Adds the lists that a call left and that no section speaks of. Of the cause, and of the updates
/// that passed the gate, nothing is told unasked.
fn add_other_lines(alloc: Global, page: &mut Page, block: &[Section<'_>], left: &Left) {
    for word in LINES.as_slice() {
        if !matches!(*word, "cause" | "passed") && !are_told(block, word) {
            add_other_line(alloc, page, word, left);
        }
    }
}

/// Adds what a call tells of a part in one line, unless that is nothing.
fn add_other_line(alloc: Global, page: &mut Page, word: &str, left: &Left) {
    let mut line = Page::new(alloc);
    add_line(alloc, &mut line, word, left);
    if !line.as_str().is_empty() {
        page.add(word);
        page.add_line(line.as_str());
    }
}

/// Adds the texts that a call left and that no section speaks of.
fn add_other_texts(alloc: Global, page: &mut Page, block: &[Section<'_>], left: &Left) {
    for word in TEXTS.as_slice() {
        let text = text_left(alloc, word, left);
        if !text.is_empty() && !are_told(block, word) {
            let seen = Seen {
                word: *word,
                name: "",
                bytes: &text,
            };
            add_seen(alloc, page, seen);
        }
    }
}

/// Adds the files and disks that a call changed and that no section speaks of.
fn add_other_files(page: &mut Page, block: &[Section<'_>], held: &[Held<'_>], left: &Left) {
    for held in held {
        if !is_kept(held, &left.files) && !is_spoken_of(block, held) {
            page.add("changed ");
            page.add_line(held.name);
        }
    }
}

/// Returns whether one of these sections speaks of a file or a disk.
fn is_spoken_of(block: &[Section<'_>], held: &Held<'_>) -> bool {
    for section in block {
        if speaks_of(section, held) {
            return true;
        }
    }
    false
}

fn speaks_of(section: &Section<'_>, held: &Held<'_>) -> bool {
    let is_disk = match section.keyword {
        "left" | "gone" | "any" => false,
        "holds" | "any-disk" | "stored" => true,
        _ => return false,
    };
    held.is_disk == is_disk && held.name == word_of(section.said)
}
