//! The graph of a job, read from its two files.
ghost use Rattle.std.specs.Prelude.{◌≡◌, [], ◌∷◌, OnOk};
ghost use Rattle.gl_outside.specs.Names.{AppendsNames};
ghost use Rattle.job_io.specs.job_config.Views.{job_view};
ghost use Rattle.job_io.specs.whole_files.FilesUsed.{ReadsFiles};
ghost use Rattle.job_io.specs.job_files.Inner.Causes.{reading_of};
ghost use Rattle.job_io.specs.job_files.Inner.Graphs.{TakesEdges, TakesGraph, TakesVertices};
ghost use Rattle.job_io.specs.job_files.JobTexts.{is_weighted};
ghost use Rattle.job_io.specs.job_files.NamesRead.{graph_names};

use gl_base::{Algorithm, Job};
use gl_outside::{Files, OpenFault, SourceOf};
use graph_core::Graph;
use graph_text::{Reading, VertexList, read_edges, read_vertices};
use std::alloc::Global;

/// The graph of the job's two files.
pub fn graph_of<F: Files>(alloc: Global, files: &mut F, job: &Job) -> Result<Graph, Reading>
    ensures answer { TakesGraph (F.state files.old) (F.state files.new).sources.faults
        (job_view job.now).fields result }
    ensures read { ReadsFiles (graph_names (F.state files.old) (job_view job.now).fields)
        (F.state files.old) (F.state files.new) }
    ensures handed { OnOk result
        (AppendsNames (F.state files.old).sources.names (F.state files.new).sources.names
        (graph_names (F.state files.old) (job_view job.now).fields)) }
{
    let list = vertices_of(alloc, files, job.vertices.as_str())?;
    let weighted = is_weighted(job.algorithm);
    edges_of(
        alloc,
        files,
        job.edges.as_str(),
        list,
        job.directed,
        weighted,
    )
}

/// Whether edges have weights, which they have for paths alone.
fn is_weighted(algorithm: Algorithm) -> bool
    ensures { result ≡ is_weighted algorithm }
{
    matches!(algorithm, Algorithm::Paths)
}

/// The vertices that the file of this name lists.
fn vertices_of<F: Files>(alloc: Global, files: &mut F, name: &str) -> Result<VertexList, Reading>
    ensures answer { TakesVertices (F.state files.old).sources.names
        ((F.state files.old).contents name.now)
        (F.state files.old).sources.faults (F.state files.new).sources.faults result }
    ensures read { ReadsFiles (name.now ∷ []) (F.state files.old) (F.state files.new) }
    ensures handed { OnOk result
        (AppendsNames (F.state files.old).sources.names
        (F.state files.new).sources.names (name.now ∷ [])) }
{
    let file = match files.open_source(name) {
        Ok(file) => file,
        Err(fault) => return Err(not_opened(fault)),
    };
    read_vertices(alloc, &mut SourceOf::new(files, file))
}

/// The graph over these vertices whose edges the file of this name lists.
fn edges_of<F: Files>(
    alloc: Global,
    files: &mut F,
    name: &str,
    list: VertexList,
    directed: bool,
    weighted: bool,
) -> Result<Graph, Reading>
    ensures answer { TakesEdges directed weighted list.ids.items (F.state files.old).sources.names
        ((F.state files.old).contents name.now)
        (F.state files.old).sources.faults (F.state files.new).sources.faults result }
    ensures read { ReadsFiles (name.now ∷ []) (F.state files.old) (F.state files.new) }
    ensures handed { OnOk result
        (AppendsNames (F.state files.old).sources.names
        (F.state files.new).sources.names (name.now ∷ [])) }
{
    let file = match files.open_source(name) {
        Ok(file) => file,
        Err(fault) => return Err(not_opened(fault)),
    };
    let mut source = SourceOf::new(files, file);
    read_edges(alloc, &mut source, list, directed, weighted)
}

/// Why a text was not read whose file was not opened.
fn not_opened(fault: OpenFault) -> Reading
    ensures { result ≡ reading_of fault }
{
    match fault {
        OpenFault::Failed => Reading::ReadFault,
        OpenFault::NoMemory => Reading::NoMemory,
    }
}
