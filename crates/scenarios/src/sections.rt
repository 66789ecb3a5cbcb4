//! The sections of a scenario: a line that begins with a word, and the lines below it.
use crate::escapes::{add_lines, unescape};
use crate::stores::add_snapshots;
use scenario_lines::{is_remark, number_of, word_of, words_behind};
use std::alloc::Global;

/// A line that begins with a word, the lines of its text, and the remarks up to the next section.
#[derive(Clone, Copy)]
pub struct Section<'a> {
    pub lines: &'a [&'a str],
    pub keyword: &'a str,
    /// What follows the word in its line.
    pub said: &'a str,
}

/// Cuts lines into sections. The first of them begins one in any case.
pub fn sections_of<'a>(alloc: Global, lines: &'a [&'a str]) -> Vec<Section<'a>> {
    let mut sections = Vec::new(alloc);
    let mut start = 0;
    for (place, line) in lines.iter().enumerate() {
        if place > 0 && begins_section(line) {
            let _ = sections.push(section_of(lines, start, place));
            start = place;
        }
    }
    let _ = sections.push(section_of(lines, start, lines.len()));
    sections
}

/// Returns whether a section begins with this line.
fn begins_section(line: &str) -> bool {
    !is_remark(line) && !is_text(line)
}

/// Returns whether a line belongs to the text of a section.
fn is_text(line: &str) -> bool {
    line.starts_with('|') || line.starts_with('+')
}

/// Returns the number behind the first word, or 0 if there is none.
fn vertices_of(counts: &str) -> u64 {
    match words_behind(counts) {
        "" => 0,
        word => number_of(word),
    }
}

/// Returns the section of the lines from one place up to another.
fn section_of<'a>(lines: &'a [&'a str], start: usize, end: usize) -> Section<'a> {
    let lines = lines.get(start..end).unwrap_or(&[]);
    let first = match lines.first() {
        Some(line) => *line,
        None => "",
    };
    Section {
        lines,
        keyword: word_of(first),
        said: words_behind(first),
    }
}

impl Section<'_> {
    /// Returns whether it says that a part isn't looked at.
    pub fn is_any(&self) -> bool {
        self.said == "any" || self.keyword == "any" || self.keyword == "any-disk"
    }

    /// Returns the bytes that its text stands for, or none if it is malformed. The text of `stored
    /// NAME COUNT VERTICES` is a store: the bytes below, and so many snapshots of a graph with so
    /// many vertices, or with none if their number is left out.
    pub fn text(&self, alloc: Global) -> Option<Vec<u8>> {
        let mut text = Vec::new(alloc);
        for line in self.lines {
            if is_text(line) && !add_lines(alloc, line, &mut text) {
                return None;
            }
        }
        if self.keyword == "stored" {
            let counts = words_behind(self.said);
            add_snapshots(&mut text, number_of(word_of(counts)), vertices_of(counts));
        }
        Some(text)
    }

    /// Returns the bytes of its text, of which the first line may stand behind the word.
    pub fn text_from_word(&self, alloc: Global) -> Option<Vec<u8>> {
        if self.said.is_empty() {
            return self.text(alloc);
        }
        let mut text = Vec::new(alloc);
        let is_well = unescape(alloc, self.said, 0, &mut text);
        let _ = text.push(b'\n');
        if is_well { Some(text) } else { None }
    }
}
