//! The two texts of a made graph.
ghost use Rattle.std.specs.Prelude.{◌≡◌, ◌++◌, ℕ, ◌≤◌, [], ◌∷◌, List, IfOk, IfErr, OnOk, string_bytes};
ghost use Rattle.std.specs.Io.KnownBytes.{Appends};
ghost use Rattle.gl_base.specs.declared.text_faults.TextFile.TheVariants.{Vertices, Edges};
ghost use Rattle.gl_outside.specs.Names.{AppendsNames};
ghost use Rattle.graph_text.specs.generate.Making.{IsPlanInRange};
ghost use Rattle.job_io.specs.whole_files.FilesUsed.{WritesFiles};
ghost use Rattle.job_io.specs.graph_files.Made.{IsFault, IsMade, IsMadeFront, LeavesFront, LeavesText, edges_name, ending_of, vertices_name};

use crate::whole_files::not_created;
use gl_base::{MakePlan, NoMemory, TextFile};
use gl_outside::{Files, Sink, SinkOf};
use graph_text::generate::{Writing, make_edges, make_vertices};
use std::alloc::Global;

/// Writes the vertex text and the edge text of the plan's graph to the files PREFIX.v and PREFIX.e.
/// Where it fails each of these files is what it was, or has a front of its text.
pub fn make_files<F: Files>(
    alloc: Global,
    files: &mut F,
    prefix: &str,
    plan: &MakePlan,
) -> Result<(), Writing>
    requires { IsPlanInRange plan.now }
    ensures made_vertices { OnOk result
        (LeavesText plan.now Vertices (F.state files.old) (F.state files.new)
        (vertices_name prefix.now)) }
    ensures made_edges { OnOk result
        (LeavesText plan.now Edges (F.state files.old) (F.state files.new)
        (edges_name prefix.now)) }
    ensures vertices { LeavesFront plan.now Vertices (F.state files.old) (F.state files.new)
        (vertices_name prefix.now) }
    ensures edges { LeavesFront plan.now Edges (F.state files.old) (F.state files.new)
        (edges_name prefix.now) }
    ensures fault { IfErr result (λ why.
        IsFault why (F.state files.old).sinks.faults (F.state files.new).sinks.faults) }
    ensures wrote { WritesFiles (vertices_name prefix.now ∷ edges_name prefix.now ∷ [])
        (F.state files.old) (F.state files.new) }
{
    make_file(alloc, files, prefix, TextFile::Vertices, plan)?;
    make_file(alloc, files, prefix, TextFile::Edges, plan)
}

/// Writes one text of the plan's graph to the file of its name.
fn make_file<F: Files>(
    alloc: Global,
    files: &mut F,
    prefix: &str,
    text: TextFile,
    plan: &MakePlan,
) -> Result<(), Writing>
    requires { IsPlanInRange plan.now }
    ensures made { OnOk result
        (LeavesText plan.now text (F.state files.old) (F.state files.new)
        (prefix.now ++ ending_of text)) }
    ensures front { LeavesFront plan.now text (F.state files.old) (F.state files.new)
        (prefix.now ++ ending_of text) }
    ensures fault { IfErr result (λ why.
        IsFault why (F.state files.old).sinks.faults (F.state files.new).sinks.faults) }
    ensures wrote { WritesFiles ((prefix.now ++ ending_of text) ∷ [])
        (F.state files.old) (F.state files.new) }
    ensures handed { OnOk result
        (AppendsNames (F.state files.old).sinks.names (F.state files.new).sinks.names
        ((prefix.now ++ ending_of text) ∷ [])) }
{
    let name = file_name(alloc, prefix, text)?;
    let file = match files.open_sink(name.as_str()) {
        Ok(file) => file,
        Err(fault) => return Err(not_created(fault)),
    };
    write_text(alloc, &mut SinkOf::new(files, file), text, plan)
}

/// Writes one text of the plan's graph.
fn write_text<K: Sink>(
    alloc: Global,
    sink: &mut K,
    text: TextFile,
    plan: &MakePlan,
) -> Result<(), Writing>
    requires { IsPlanInRange plan.now }
    ensures made { OnOk result ((bytes : List ℕ) × IsMade plan.now text bytes ×
        Appends (K.held sink.old) (K.held sink.new) bytes) }
    ensures front { (bytes : List ℕ) × IsMadeFront plan.now text bytes ×
        Appends (K.held sink.old) (K.held sink.new) bytes }
    ensures fault { IfErr result (λ why. IsFault why (K.faults sink.old) (K.faults sink.new)) }
    ensures later { K.faults sink.old ≤ K.faults sink.new }
    ensures same { K.same sink.old sink.new }
{
    match text {
        TextFile::Vertices => make_vertices(alloc, sink, plan),
        TextFile::Edges => make_edges(alloc, sink, plan),
    }
}

/// The name of one text's file.
fn file_name(alloc: Global, prefix: &str, text: TextFile) -> Result<String, NoMemory>
    ensures { IfOk result (λ name. string_bytes name ≡ prefix.now ++ ending_of text) }
{
    let mut name = String::from_str(alloc, prefix)?;
    match text {
        TextFile::Vertices => name.push_str(".v")?,
        TextFile::Edges => name.push_str(".e")?,
    }
    Ok(name)
}
