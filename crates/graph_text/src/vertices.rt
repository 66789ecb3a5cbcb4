//! Reads vertex texts.
ghost use Rattle.std.specs.Prelude.{◌≡◌, ℕ, ◌≤◌, List, Option, Some, Err};
ghost use Rattle.std.specs.Io.KnownBytes.{Consumes};
ghost use Rattle.graph_text.specs.lines.Found.{found_of};
ghost use Rattle.graph_text.specs.Inner.Settled.{ended as ended_by};
ghost use Rattle.graph_text.specs.Vertices.{vertex_rules, vertex_fault_after};
ghost use Rattle.graph_text.specs.Firsts.{or_kind};
ghost use Rattle.graph_text.specs.Answers.{ReadsVertices};
ghost use Rattle.graph_text.specs.Inner.FoundVertices.{AreFound, Lists, Ends};

use crate::lines::{Ending, FoundItems, read_lines};
use crate::lists::{refusal, text_fault};
use crate::{Reading, VertexList};
use gl_base::{TextFault, TextFile, TextKind};
use gl_outside::Source;
use graph_core::sorted_ids;
use std::alloc::Global;

const FILE: TextFile = TextFile::Vertices;

/// Reads a vertex text to its end: lines of one identifier each, from 0 to 9223372036854775806, in
/// any order and with any zeros before it. Blanks and tabs around it, a CR at the end of a line,
/// lines without a field and lines that begin with `#` are passed over. The list ascends.
///
/// A text is refused at its first faulty line, and there for the first of `Fields` (not exactly one
/// field), `Number` (a byte that isn't a digit), `TooLarge`, `Double` (the identifier stood in an
/// earlier line) and `TooMany` (more than 1,048,576 of them); as `TooLong` where it has more than
/// 1,073,741,824 bytes, and no line that ends within them is faulty. The source keeps what was
/// taken, whatever is answered.
pub fn read_vertices<S: Source>(alloc: Global, source: &mut S) -> Result<VertexList, Reading>
    ensures answer { ReadsVertices result (S.left source.old)
        (S.faults source.old) (S.faults source.new) }
    ensures taken { (taken : List ℕ) × Consumes (S.left source.old) (S.left source.new) taken }
    ensures later { S.faults source.old ≤ S.faults source.new }
    ensures same { S.same source.old source.new }
{
    let found = read_lines(alloc, source, false)?;
    list_of(alloc, found)
}

/// The list of the identifiers that were found, or the first fault.
fn list_of(alloc: Global, found: FoundItems<u64>) -> Result<VertexList, Reading>
    requires { AreFound (found_of found) }
    ensures { Lists (found_of found) result }
{
    let ended = end_of_text(found.ending, &found.items);
    match sorted_ids(alloc, found.items) {
        Err(fault) => Err(refusal(FILE, fault, &found.places)),
        Ok(ids) => match ended {
            Ok(()) => Ok(VertexList { ids }),
            Err(fault) => Err(Reading::Text(fault)),
        },
    }
}

/// Whether the text ended well, where these identifiers stand in it.
fn end_of_text(ending: Option<Ending<u64>>, ids: &[u64]) -> Result<(), TextFault>
    ensures { Ends ids.now ending result }
{
    match ending {
        None => Ok(()),
        Some(ending) => Err(ending_fault(ending, ids)),
    }
}

/// The fault that ended the reading, where these identifiers stand before it.
fn ending_fault(ending: Ending<u64>, ids: &[u64]) -> TextFault
    ensures { ended_by vertex_rules ids.now (Some ending) ≡ Err result }
{
    match ending {
        Ending::Fault(line, kind) => text_fault(FILE, line, kind),
        Ending::Late(line, _, kind) => text_fault(FILE, line, kind),
        Ending::Full(line, id) => text_fault(FILE, line, surplus(id, ids)),
    }
}

/// What is wrong with an identifier behind as many as there may be.
fn surplus(id: u64, ids: &[u64]) -> TextKind
    ensures { result ≡ or_kind (vertex_fault_after ids.now id) TextKind.TooMany }
{
    if ids.contains(&id) {
        TextKind::Double
    } else {
        TextKind::TooMany
    }
}
