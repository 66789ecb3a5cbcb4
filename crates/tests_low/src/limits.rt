//! As many edges as a text may have, and one too many.
use gl_base::MAX_EDGES;
use gl_outside::PlainSource;
use graph_core::Graph;
use graph_text::{Reading, read_edges, read_vertices};
use std::alloc::{AllocError, Global};
use std::io;

/// Lines behind as many edges as a text may have.
static LINES: [&str; 6] = ["", "2896 2897", "1 0", "1 2898", "1 1", "1 x"];

/// Prints what is read of the edges and of one line more.
pub fn print_limits(rt: &impl Print, alloc: Global) -> io::Result<()> {
    let ids = vertices(alloc)?;
    let edges = most_edges(alloc)?;
    for line in &LINES {
        print_limit(rt, alloc, ids.as_str(), edges.as_str(), line)?;
    }
    Ok(())
}

/// The identifiers below 2898, a line each.
fn vertices(alloc: Global) -> Result<String, AllocError> {
    let mut text = String::new(alloc);
    for id in 0..2898 {
        writeln!(text, "{id}")?;
    }
    Ok(text)
}

/// Each vertex below 2897 has an edge to each above it, up to as many edges as there may be.
fn most_edges(alloc: Global) -> Result<String, AllocError> {
    let mut text = String::new(alloc);
    let mut count = 0;
    for from in 0..2898 {
        for to in 0..2898 {
            if from < to && count < MAX_EDGES {
                add_edge(&mut text, from, to)?;
                count += 1;
            }
        }
    }
    Ok(text)
}

/// Adds `FROM TO` and LF.
fn add_edge(text: &mut String, from: u32, to: u32) -> Result<(), AllocError> {
    writeln!(text, "{from} {to}")
}

fn print_limit(
    rt: &impl Print,
    alloc: Global,
    ids: &str,
    edges: &str,
    line: &str,
) -> io::Result<()> {
    let text = format!(in alloc; "{edges}{line}")?;
    let ids = Vec::from_slice(alloc, ids.as_bytes())?;
    match read_graph(alloc, ids, text.into_bytes(), false) {
        Ok(graph) => println!(rt; "most edges and {line:?}: edges {}", graph.m()),
        Err(fault) => println!(rt; "most edges and {line:?}: {fault}"),
    }
}

/// The graph of the identifiers and the edges of two texts.
pub fn read_graph(
    alloc: Global,
    ids: Vec<u8>,
    edges: Vec<u8>,
    directed: bool,
) -> Result<Graph, Reading> {
    let list = read_vertices(alloc, &mut PlainSource::new(ids))?;
    read_edges(alloc, &mut PlainSource::new(edges), list, directed, false)
}
