//! A line of a scenario: a word, and numbers behind it.
use std::alloc::Global;

/// A line that is read as a word with numbers behind it. `grant 0 2` has the word `grant` and the
/// numbers 0 and 2.
#[derive(Drop)]
pub struct Line<'a> {
    pub word: &'a str,
    pub numbers: Vec<u64>,
}

impl<'a> Line<'a> {
    /// Reads a line, whose words are separated by one blank each.
    pub fn of(alloc: Global, text: &'a str) -> Line<'a> {
        let mut numbers = Vec::new(alloc);
        let behind = words_behind(text);
        if !behind.is_empty() {
            for word in behind.split(' ') {
                let _ = numbers.push(number_of(word));
            }
        }
        Line {
            word: word_of(text),
            numbers,
        }
    }

    /// Returns the number at this place behind the word, or `u64::MAX` if the line ends before it.
    pub fn number(&self, place: usize) -> u64 {
        self.numbers.get(place).copied().unwrap_or(u64::MAX)
    }
}

/// Returns the number that is written so, or `u64::MAX` if the word is no number.
pub fn number_of(word: &str) -> u64 {
    word.parse::<u64>().unwrap_or(u64::MAX)
}

/// Returns the first word of a line.
pub fn word_of(text: &str) -> &str {
    match text.split_once(' ') {
        Some((word, _)) => word,
        None => text,
    }
}

/// Returns what follows the first word and a blank, or nothing if the line has one word.
pub fn words_behind(text: &str) -> &str {
    match text.split_once(' ') {
        Some((_, behind)) => behind,
        None => "",
    }
}
