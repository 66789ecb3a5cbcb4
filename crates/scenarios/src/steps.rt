//! The steps of a scenario: a call, and what stands below it.
use crate::sections::Section;

/// The words of sections that say what a call leaves.
static RESULTS: [&str; 17] = [
    "status",
    "cause",
    "out",
    "note",
    "order",
    "done",
    "lost",
    "fired",
    "met",
    "passed",
    "snapshots",
    "left",
    "gone",
    "any",
    "holds",
    "any-disk",
    "stored",
];

/// A call and the sections below it.
#[derive(Clone, Copy)]
pub struct Step<'a> {
    pub call: Section<'a>,
    /// What the call leaves.
    pub block: &'a [Section<'a>],
    /// `each CALLS COUNT`: the calls before, in which one call fails in turn.
    pub each: Option<Section<'a>>,
    /// `then WORD WORD ..`: the call that is made behind each of these.
    pub then: Option<Section<'a>>,
    /// What each of these leaves.
    pub turns: &'a [Section<'a>],
    /// The place of the section behind.
    pub end: usize,
}

impl<'a> Step<'a> {
    /// Returns the step whose call stands at this place.
    pub fn at(sections: &'a [Section<'a>], place: usize, call: Section<'a>) -> Step<'a> {
        let block = results_from(sections, place.saturating_add(1));
        let behind = place.saturating_add(1).saturating_add(block.len());
        let each = section_at(sections, behind, "each");
        if each.is_none() {
            return Step {
                call,
                block,
                each,
                then: None,
                turns: &[],
                end: behind,
            };
        }
        let after = behind.saturating_add(1);
        let then = section_at(sections, after, "then");
        let first = if then.is_some() {
            after.saturating_add(1)
        } else {
            after
        };
        let turns = results_from(sections, first);
        Step {
            call,
            block,
            each,
            then,
            turns,
            end: first.saturating_add(turns.len()),
        }
    }
}

/// Returns the section at this place, if it begins with this word.
fn section_at<'a>(sections: &[Section<'a>], place: usize, word: &str) -> Option<Section<'a>> {
    match sections.get(place) {
        Some(section) if section.keyword == word => Some(*section),
        _ => None,
    }
}

/// Returns the sections from this place on that say what a call leaves.
fn results_from<'a>(sections: &'a [Section<'a>], start: usize) -> &'a [Section<'a>] {
    let rest = sections.get(start..).unwrap_or(&[]);
    for (place, section) in rest.iter().enumerate() {
        if !is_result(section.keyword) {
            return rest.get(..place).unwrap_or(rest);
        }
    }
    rest
}

/// Returns whether a section with this word says what a call leaves.
fn is_result(word: &str) -> bool {
    for other in RESULTS.as_slice() {
        if *other == word {
            return true;
        }
    }
    false
}
