//! The lines of a scenario of events are played.
use crate::acts::play_act;
use crate::beginnings::Beginning;
use crate::looks::add_seen;
use crate::scenes::Scene;
use crate::trouble::Trouble;
use scenario_lines::{Line, Page, is_remark};
use std::alloc::Global;
use update_api::Program;

/// Plays the lines behind what is given on a cluster that begins so, and writes each as it was
/// seen.
pub fn play_events<P: Program>(
    alloc: Global,
    beginning: &Beginning<'_, P>,
    given: &[&str],
    lines: &[&str],
    page: &mut Page,
) -> Result<(), Trouble> {
    let mut scene = Scene::new(alloc, beginning)?;
    play_lines(alloc, &mut scene, given, &mut Page::new(alloc));
    play_lines(alloc, &mut scene, lines, page);
    drop(scene);
    Ok(())
}

/// Plays the lines in turn.
fn play_lines<P: Program>(
    alloc: Global,
    scene: &mut Scene<'_, P>,
    lines: &[&str],
    page: &mut Page,
) {
    for text in lines {
        play_line(alloc, scene, text, page);
    }
}

/// Plays a line, and writes it as it was seen.
fn play_line<P: Program>(alloc: Global, scene: &mut Scene<'_, P>, text: &str, page: &mut Page) {
    let said = without_outcome(text);
    if is_remark(text) {
        page.add_line(text);
    } else if let Some((asked, _)) = said.split_once(" is ") {
        let line = Line::of(alloc, asked);
        page.add_words(&line);
        page.add(" is");
        add_seen(scene, &line, page);
        page.add_line("");
    } else {
        let line = Line::of(alloc, said);
        let outcome = match play_act(alloc, scene, &line) {
            Err(Trouble::NoMemory) => play_again(alloc, scene, &line, page),
            outcome => outcome,
        };
        add_outcome(&line, outcome, page);
    }
}

/// Plays once more a line for which the cluster found no memory, and writes that. It has to happen
/// then.
fn play_again<P: Program>(
    alloc: Global,
    scene: &mut Scene<'_, P>,
    line: &Line<'_>,
    page: &mut Page,
) -> Result<bool, Trouble> {
    page.add("again ");
    if play_act(alloc, scene, line)? {
        Ok(true)
    } else {
        Err(Trouble::Because("there was no memory for what may not happen"))
    }
}

/// Returns the line without `not-now` before it, and without a reason behind `but`.
fn without_outcome(text: &str) -> &str {
    let text = text.strip_prefix("not-now ").unwrap_or(text);
    match text.split_once(" but ") {
        Some((text, _)) => text,
        None => text,
    }
}

/// Writes the line, and whether what it says has happened, was refused, or met with trouble.
pub fn add_outcome(line: &Line<'_>, outcome: Result<bool, Trouble>, page: &mut Page) {
    if let Ok(false) = outcome {
        page.add("not-now ");
    }
    page.add_words(line);
    if let Err(trouble) = outcome {
        page.add(" but ");
        page.add(trouble.words());
    }
    page.add_line("");
}

/// Writes a line of trouble.
pub fn add_trouble(trouble: Trouble, page: &mut Page) {
    page.add("but ");
    page.add_line(trouble.words());
}
