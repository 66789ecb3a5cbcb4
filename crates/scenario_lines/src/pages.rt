//! The text that a player prints.
use crate::lines::Line;
use std::alloc::Global;

/// What is to be printed, gathered piece by piece. A piece for which memory is missing is left out.
#[derive(Drop)]
pub struct Page {
    text: String,
}

impl Page {
    /// Makes a page without text.
    pub fn new(alloc: Global) -> Page {
        Page {
            text: String::new(alloc),
        }
    }

    /// Returns the text so far.
    pub fn as_str(&self) -> &str {
        self.text.as_str()
    }

    /// Adds a text.
    pub fn add(&mut self, text: &str) {
        let _ = self.text.push_str(text);
    }

    /// Adds a number.
    pub fn add_number(&mut self, number: u64) {
        let _ = write!(self.text, "{number}");
    }

    /// Adds numbers, each behind a blank.
    pub fn add_numbers(&mut self, numbers: &[u64]) {
        for number in numbers {
            let _ = write!(self.text, " {number}");
        }
    }

    /// Adds the word and the numbers of a line, as they were read.
    pub fn add_words(&mut self, line: &Line<'_>) {
        self.add(line.word);
        self.add_numbers(&line.numbers);
    }

    /// Adds a text and ends the line.
    pub fn add_line(&mut self, text: &str) {
        self.add(text);
        self.add("\n");
    }
}
