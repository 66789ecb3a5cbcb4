//! The words of a call.
use crate::escapes::unescaped_word;
use scenario_lines::Page;
use std::alloc::Global;

/// Returns the words of a call, or none if one is malformed, which the page tells then.
pub fn words_of(alloc: Global, said: &str, page: &mut Page) -> Vec<String> {
    let mut words = Vec::new(alloc);
    if said.is_empty() {
        return words;
    }
    for written in said.split(' ') {
        match unescaped_word(alloc, written) {
            Some(word) => {
                let _ = words.push(word);
            }
            None => page.add("malformed: "),
        }
    }
    words
}
