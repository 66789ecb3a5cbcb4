//! Reads edge texts.
ghost use Rattle.std.specs.Prelude.{◌≡◌, ℕ, ◌≤◌, Bool, List, Option, Some, Err};
ghost use Rattle.std.specs.List.{list_any};
ghost use Rattle.std.specs.Io.KnownBytes.{Consumes};
ghost use Rattle.graph_core.specs.GraphLists.{lower_first, same_ends};
ghost use Rattle.graph_text.specs.lines.Found.{found_of};
ghost use Rattle.graph_text.specs.Inner.Settled.{ended as ended_by};
ghost use Rattle.graph_text.specs.Edges.{edge_rules, edge_fault_alone, edge_fault_after};
ghost use Rattle.graph_text.specs.Firsts.{or_kind};
ghost use Rattle.graph_text.specs.Answers.{ReadsGraph};
ghost use Rattle.graph_text.specs.Inner.FoundEdges.{AreFoundEdges, Builds, EndsEdges};

use crate::lines::{Ending, FoundItems, read_lines};
use crate::lists::{refusal, text_fault};
use crate::{Reading, VertexList};
use gl_base::{TextFault, TextFile, TextKind};
use gl_outside::Source;
use graph_core::{EdgeIn, Graph};
use std::alloc::Global;

const FILE: TextFile = TextFile::Edges;

/// Reads an edge text to its end, and builds the graph of its edges between the vertices of the
/// list. A line has two identifiers and, where `weighted`, a weight from 0 to 4294967295, which may
/// end in a point and zeros; further fields are passed over, and where edges have no weight theirs
/// is 1. The lines need no order. Blanks and tabs, a CR at the end of a line, zeros before a
/// number, lines without a field and lines that begin with `#` are passed over.
///
/// A text is refused at its first faulty line, and there for the first of `Fields` (fewer than two
/// fields), `Number` and
/// `TooLarge` (of an identifier), `Unknown` (an identifier that is no vertex), `SelfLoop`, `NoWeight`, `Number` and
/// `TooLarge` (of the weight), `Double` (the edge stood in an earlier line, either way round where it has no direction)
/// and `TooMany` (more than 4,194,304 of them); as `TooLong` where it has more than 1,073,741,824
/// bytes, and no line that ends within them is faulty. The source keeps what was taken, whatever is
/// answered.
pub fn read_edges<S: Source>(
    alloc: Global,
    source: &mut S,
    list: VertexList,
    directed: bool,
    weighted: bool,
) -> Result<Graph, Reading>
    ensures answer { ReadsGraph list.ids.items directed weighted result (S.left source.old)
        (S.faults source.old) (S.faults source.new) }
    ensures taken { (taken : List ℕ) × Consumes (S.left source.old) (S.left source.new) taken }
    ensures later { S.faults source.old ≤ S.faults source.new }
    ensures same { S.same source.old source.new }
{
    let found = read_lines(alloc, source, weighted)?;
    graph_of(alloc, list, directed, found)
}

/// The graph of the edges that were found, or the first fault.
fn graph_of(
    alloc: Global,
    list: VertexList,
    directed: bool,
    found: FoundItems<EdgeIn>,
) -> Result<Graph, Reading>
    requires { AreFoundEdges (found_of found) }
    ensures { Builds list.ids.items directed (found_of found) result }
{
    let ended = end_of_text(found.ending, &list.ids, directed, &found.items);
    match Graph::build(alloc, list.ids, found.items, directed) {
        Err(fault) => Err(refusal(FILE, fault, &found.places)),
        Ok(graph) => match ended {
            Ok(()) => Ok(graph),
            Err(fault) => Err(Reading::Text(fault)),
        },
    }
}

/// Whether the text ended well, where these edges stand in it.
fn end_of_text(
    ending: Option<Ending<EdgeIn>>,
    ids: &[u64],
    directed: bool,
    edges: &[EdgeIn],
) -> Result<(), TextFault>
    ensures { EndsEdges ids.now directed edges.now ending result }
{
    match ending {
        None => Ok(()),
        Some(Ending::Fault(line, kind)) => Err(text_fault(FILE, line, kind)),
        Some(Ending::Late(line, e, kind)) => Err(text_fault(
            FILE,
            line,
            fault_alone(ids, e).unwrap_or(kind),
        )),
        Some(Ending::Full(line, e)) => {
            let wrong = fault_after(ids, directed, edges, e);
            Err(text_fault(FILE, line, wrong.unwrap_or(TextKind::TooMany)))
        }
    }
}

/// What is wrong with the ends of an edge.
fn fault_alone(ids: &[u64], e: EdgeIn) -> Option<TextKind>
    ensures { result ≡ edge_fault_alone ids.now e }
{
    if !(ids.contains(&e.from) && ids.contains(&e.to)) {
        Some(TextKind::Unknown)
    } else if e.from == e.to {
        Some(TextKind::SelfLoop)
    } else {
        None
    }
}

/// What is wrong with an edge behind others.
fn fault_after(ids: &[u64], directed: bool, edges: &[EdgeIn], e: EdgeIn) -> Option<TextKind>
    ensures { result ≡ edge_fault_after ids.now directed edges.now e }
{
    match fault_alone(ids, e) {
        Some(kind) => Some(kind),
        None if have_ends_of(directed, edges, e) => Some(TextKind::Double),
        None => None,
    }
}

/// Whether the edge is one of these.
fn have_ends_of(directed: bool, edges: &[EdgeIn], e: EdgeIn) -> bool
    ensures { result ≡ list_any (same_ends directed e) edges.now }
{
    edges.iter().any(|f| have_same_ends(directed, e, *f))
}

/// Whether two edges have the same ends, either way round where they have no direction.
fn have_same_ends(directed: bool, e: EdgeIn, f: EdgeIn) -> bool
    ensures { result ≡ same_ends directed e f }
{
    let e = lower_end_first(directed, e);
    let f = lower_end_first(directed, f);
    e.from == f.from && e.to == f.to
}

/// The edge with its lower end first, where it has no direction.
fn lower_end_first(directed: bool, e: EdgeIn) -> EdgeIn
    ensures { result ≡ lower_first directed e }
{
    if directed || e.from < e.to {
        return e;
    }
    EdgeIn {
        from: e.to,
        to: e.from,
        weight: e.weight,
    }
}
