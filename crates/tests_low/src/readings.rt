//! What is read of graph texts, whatever the pieces in which they come, and where a read fails.
use crate::pieces::in_pieces;
use gl_base::Vertex;
use gl_outside::Source;
use graph_core::Graph;
use graph_text::{Reading, VertexList, read_edges, read_vertices};
use std::alloc::{AllocError, Global};
use std::io;

/// How a text is read: as identifiers, or as edges between the vertices 1, 2, 3 and 7.
#[derive(Clone, Copy)]
enum Form {
    Vertices,
    Plain,
    Directed,
    Weighted,
}

static ROWS: [(Form, &str); 66] = [
    (Form::Vertices, ""),
    (Form::Vertices, "\n\r\n \t\n#\n# 1\n  #x y\n"),
    (Form::Vertices, "\r"),
    (Form::Vertices, "# v\r\n\r\n 3\t\r\n1\r\n2"),
    (Form::Vertices, "2\n1"),
    (
        Form::Vertices,
        "007\n0\n0000000000000000000000000000000000000008\n",
    ),
    (Form::Vertices, "9223372036854775806"),
    (Form::Vertices, "3 \n 10\n\t2\t\n"),
    (Form::Vertices, "1 2\n3\n"),
    (Form::Vertices, "1\n2 3 4 5\n6\n"),
    (Form::Vertices, "1\r\n#\r\n2\t3"),
    (Form::Vertices, "x\n1\n"),
    (Form::Vertices, "1\n-2\n3\n"),
    (Form::Vertices, "1\n\n2#"),
    (Form::Vertices, "1\r2\n"),
    (Form::Vertices, "1\n2\r\r\n"),
    (Form::Vertices, "1\n\r\r\n"),
    (Form::Vertices, "9223372036854775807\n1\n"),
    (Form::Vertices, "1\n18446744073709551617\n2\n"),
    (Form::Vertices, "1\n2\n100000000000000000000000000000000"),
    (Form::Vertices, "1\n1\n"),
    (Form::Vertices, "2\n1\n01\n2\n"),
    (Form::Vertices, "#\r\n2\r\n1\r\n 2"),
    (Form::Vertices, "1\n1\nx\n"),
    (Form::Vertices, "1\nx\n1\n"),
    (Form::Vertices, "1\n1 1\n"),
    (Form::Vertices, "1\n99999999999999999999x\n"),
    (Form::Plain, ""),
    (Form::Plain, "#\r\n\n \t\r"),
    (Form::Plain, "1  2 0.5\r\n#\n2\t7"),
    (Form::Plain, "7 1\n2 1\n"),
    (Form::Directed, "1 2\n2 1\n"),
    (Form::Plain, "01 2 x y z\n"),
    (
        Form::Weighted,
        "2 1 5.0 9\n\t7 2 0004294967295.000\r\n1 7 0",
    ),
    (Form::Plain, "1\n1 2\n"),
    (Form::Plain, "1 2\n3\n1 3\n"),
    (Form::Plain, "1 2\n#\n3"),
    (Form::Plain, "x 2\n1 2\n"),
    (Form::Plain, "1 2\n1 3.0\n1 7\n"),
    (Form::Plain, "1 2\n1 3\n9223372036854775807 x"),
    (Form::Plain, "9223372036854775807 2\n1 2\n"),
    (Form::Plain, "1 2\n8 9223372036854775807\n1 3\n"),
    (Form::Plain, "1 2\n1 3\n8 99999999999999999999"),
    (Form::Plain, "8 1\n1 2\n"),
    (Form::Plain, "1 2\n1 8\n1 3\n"),
    (Form::Plain, "1 2\n1 3\n8 8"),
    (Form::Plain, "7 7\n1 2\n"),
    (Form::Plain, "1 2\n7 7\n"),
    (Form::Plain, "1 2\n7 7\n1 2\n"),
    (Form::Plain, "1 2\n2 1\n"),
    (Form::Plain, "1 2\n3 1\n1 3\n1 2\n"),
    (Form::Directed, "1 2\r\n#\r\n1 2"),
    (Form::Weighted, "1 2\n2 3 1\n"),
    (Form::Weighted, "1 2 1\n2 3\n1 3 1\n"),
    (Form::Weighted, "1 2 1\n1 3 1\n2 1"),
    (Form::Weighted, "1 2 1\n1 3 1\n8 1"),
    (Form::Weighted, "1 2 1\n1 3 1\n2 2"),
    (Form::Weighted, "1  2 0.5\r\n#\n2\t3"),
    (Form::Weighted, "1 2 1\n2 3 5.\n1 3 x\n"),
    (Form::Weighted, "1 2 1\n1 3 1\n1 7 .0"),
    (Form::Weighted, "1 2 1\n1 3 1\n1 7 5.0.0"),
    (Form::Weighted, "1 2 1\n1 3 1\n1 7 5.5"),
    (Form::Weighted, "1 2 4294967296\n"),
    (
        Form::Weighted,
        "1 2 4294967295\n2 3 4294967296\n3 7 4294967295\n",
    ),
    (Form::Weighted, "1 2 1\n2 1 4294967296.0"),
    (Form::Weighted, "1 2\n1 3\n7 7"),
];

/// Prints what each text is read as, and the faults of a source.
pub fn print_readings(rt: &impl Print, alloc: Global) -> io::Result<()> {
    for (form, text) in &ROWS {
        print_reading(rt, alloc, *form, text)?;
    }
    for failing in 1..6 {
        print_failing(rt, alloc, Form::Vertices, "1\n2\n3\n", 2, failing)?;
        print_failing(rt, alloc, Form::Plain, "1 2\n1 3\n2 3\n", 4, failing)?;
    }
    Ok(())
}

fn name_of(form: Form) -> &'static str {
    match form {
        Form::Vertices => "vertices",
        Form::Plain => "edges",
        Form::Directed => "directed edges",
        Form::Weighted => "weighted edges",
    }
}

/// Prints what a text is read as in one piece, and once more by each size of pieces where it is
/// another.
fn print_reading(rt: &impl Print, alloc: Global, form: Form, text: &str) -> io::Result<()> {
    let whole = reading_of(alloc, form, text, 1000, 0)?;
    println!(rt; "{} {text:?}: {whole}", name_of(form))?;
    for most in 1..10 {
        let pieces = reading_of(alloc, form, text, most, 0)?;
        print_other(rt, most, whole.as_str(), pieces.as_str())?;
    }
    Ok(())
}

fn print_other(rt: &impl Print, most: usize, whole: &str, pieces: &str) -> io::Result<()> {
    if whole == pieces {
        return Ok(());
    }
    println!(rt; "the same by pieces of {most}: {pieces}")
}

/// Prints what is read of a text in pieces where a call fails. The text takes four calls: three
/// pieces, and the end.
fn print_failing(
    rt: &impl Print,
    alloc: Global,
    form: Form,
    text: &str,
    most: usize,
    failing: u64,
) -> io::Result<()> {
    let reading = reading_of(alloc, form, text, most, failing)?;
    println!(rt;
        "{} {text:?} by pieces of {most}, call {failing} fails: {reading}",
        name_of(form)
    )
}

/// What is read of a text that comes in pieces of at most `most` bytes, where the call of the
/// number `failing` fails: the identifiers, the edges by vertices and with their weights, or the
/// fault.
fn reading_of(
    alloc: Global,
    form: Form,
    text: &str,
    most: usize,
    failing: u64,
) -> Result<String, AllocError> {
    let mut source = in_pieces(alloc, text, most, failing)?;
    match form {
        Form::Vertices => vertices_of(alloc, read_vertices(alloc, &mut source)),
        _ => edges_between(alloc, &mut source, form),
    }
}

fn vertices_of(alloc: Global, list: Result<VertexList, Reading>) -> Result<String, AllocError> {
    match list {
        Ok(list) => format!(in alloc; "{:?}", list.ids),
        Err(fault) => format!(in alloc; "{fault}"),
    }
}

/// The edges between the vertices 1, 2, 3 and 7.
fn edges_between<S: Source>(
    alloc: Global,
    source: &mut S,
    form: Form,
) -> Result<String, AllocError> {
    let is_directed = matches!(form, Form::Directed);
    let is_weighted = matches!(form, Form::Weighted);
    let mut ids = in_pieces(alloc, "1\n2\n3\n7", 1000, 0)?;
    match read_vertices(alloc, &mut ids) {
        Ok(list) => edges_of(
            alloc,
            &read_edges(alloc, source, list, is_directed, is_weighted),
        ),
        Err(fault) => format!(in alloc; "{fault}"),
    }
}

fn edges_of(alloc: Global, graph: &Result<Graph, Reading>) -> Result<String, AllocError> {
    match graph {
        Ok(graph) => ascending_edges(alloc, graph),
        Err(fault) => format!(in alloc; "{fault}"),
    }
}

/// The edges of a graph, by ascending ends.
fn ascending_edges(alloc: Global, graph: &Graph) -> Result<String, AllocError> {
    let mut text = String::new(alloc);
    for v in 0..graph.n() {
        for half in graph.halves(Vertex(v)) {
            let (other, weight) = (half.other.0, half.weight);
            if half.out && (graph.directed() || v < other) {
                write!(text, "({v} {other} {weight})")?;
            }
        }
    }
    Ok(text)
}
