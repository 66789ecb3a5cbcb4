//! The updates of an order, of which a scenario says no order: each by its machine and vertex.
use gl_base::Entry;
use scenario_lines::{number_of, word_of, words_behind};

/// Returns whether `each` is said, and behind it just these entries, in whatever order: an update
/// as `machine:vertex`, a recovery as `restart`.
pub fn is_each(said: &str, entries: &[Entry]) -> bool {
    word_of(said) == "each" && are_told(words_behind(said), entries)
}

/// Returns whether each of these words tells of as many entries as it is there times, and there are
/// no other entries.
fn are_told(words: &str, entries: &[Entry]) -> bool {
    let mut many = 0usize;
    for word in words.split(' ') {
        if times_said(words, word) != times_made(word, entries) {
            return false;
        }
        many = many.saturating_add(1);
    }
    many == entries.len()
}

/// Returns how often the word is among these.
fn times_said(words: &str, word: &str) -> usize {
    let mut times = 0usize;
    for other in words.split(' ') {
        if other == word {
            times = times.saturating_add(1);
        }
    }
    times
}

/// Returns of how many entries the word tells.
fn times_made(word: &str, entries: &[Entry]) -> usize {
    let mut times = 0usize;
    for entry in entries {
        if is_told(word, entry) {
            times = times.saturating_add(1);
        }
    }
    times
}

/// Returns whether the word tells of this entry.
fn is_told(word: &str, entry: &Entry) -> bool {
    match entry {
        Entry::Go {
            machine,
            vertex,
            ..
        } => is_owner_and_vertex(word, u64::from(machine.0), u64::from(vertex.0)),
        Entry::Restart { .. } => word == "restart",
    }
}

/// Returns whether the word is this machine and this vertex.
fn is_owner_and_vertex(word: &str, machine: u64, vertex: u64) -> bool {
    match word.split_once(':') {
        Some((owner, place)) => number_of(owner) == machine && number_of(place) == vertex,
        None => false,
    }
}
