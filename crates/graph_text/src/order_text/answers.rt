//! The answer: the number of each vertex.
ghost use Rattle.std.specs.Prelude.{◌≡◌, ◌∷◌, ◌++◌, [], length, decimal, IfOk, MatchOption, OnOk};
ghost use Rattle.graph_core.specs.DataGraph.{size};
ghost use Rattle.graph_text.specs.order_text.Answers.{answer_text, number_text};

use crate::order_text::sizes::digits;
use gl_base::{Algorithm, INF, NoMemory, Vertex, push_decimal};
use graph_core::Graph;
use std::alloc::Global;

/// A line for each vertex, by ascending identifier: the identifier, one blank, and the number at
/// its place in decimal. `INF` is printed as `infinity` where `kind` is `Paths`, and as `none` where
/// it is `Pairs`.
pub fn answer(
    alloc: Global,
    graph: &Graph,
    values: &[u64],
    kind: Algorithm,
) -> Result<Vec<u8>, NoMemory>
    requires { length values.now ≡ size graph.now }
    ensures { IfOk result (λ text. text.items ≡ answer_text kind graph.now.ids values.now) }
{
    let mut text = Vec::with_capacity(alloc, size_of_lines(graph, values, kind))?;
    for vertex in 0..graph.n() {
        let id = graph.id(Vertex(vertex));
        push_line(&mut text, id, values[vertex as usize], kind)?;
    }
    Ok(text)
}

/// How many bytes the lines have: identifiers and numbers, and blank and LF in each.
fn size_of_lines(graph: &Graph, values: &[u64], kind: Algorithm) -> usize
    requires { length values.now ≡ size graph.now }
{
    let mut size = 2 * values.len();
    for vertex in 0..graph.n() {
        size = size
            .saturating_add(digits(graph.id(Vertex(vertex))))
            .saturating_add(size_of_number(values[vertex as usize], kind));
    }
    size
}

/// How many bytes a number has, or the word for `INF`.
fn size_of_number(number: u64, kind: Algorithm) -> usize {
    match word_for(number, kind) {
        Some(word) => word.len(),
        None => digits(number),
    }
}

/// The word that is printed in place of a number, if there is one.
fn word_for(number: u64, kind: Algorithm) -> Option<&'static str>
    ensures { MatchOption result (number_text kind number ≡ decimal number)
        (λ word. number_text kind number ≡ word.now) }
{
    match kind {
        Algorithm::Paths if number == INF => Some("infinity"),
        Algorithm::Pairs if number == INF => Some("none"),
        Algorithm::Levels | Algorithm::Components | Algorithm::Paths => None,
        Algorithm::Colours | Algorithm::Cores | Algorithm::Pairs => None,
    }
}

/// Adds the line of a vertex.
fn push_line(text: &mut Vec<u8>, id: u64, number: u64, kind: Algorithm) -> Result<(), NoMemory>
    ensures { OnOk result
        (text.new.items ≡ text.old.items ++ (decimal id ++ 32 ∷ number_text
        kind number ++ 10 ∷ [])) }
{
    push_decimal(text, id)?;
    text.push(b' ')?;
    match word_for(number, kind) {
        Some(word) => text.extend_from_slice(word.as_bytes())?,
        None => push_decimal(text, number)?,
    }
    text.push(b'\n')?;
    Ok(())
}
