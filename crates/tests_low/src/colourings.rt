//! Greedy colourings of graphs whose colours are known.
use crate::graphs::{Line, every_pair, graph_of, hub};
use gl_base::NoMemory;
use graph_core::color_steps::greedy_colouring;
use graph_core::{Graph, GraphFault};
use std::alloc::Global;
use std::io;

/// A graph by a name, and whether its edges have a direction.
type Row = (&'static str, &'static [u64], &'static [Line], bool);

static ROWS: [Row; 4] = [
    (
        "a path",
        &[0, 1, 2, 3],
        &[(0, 1, 1), (1, 2, 1), (2, 3, 1)],
        false,
    ),
    (
        "a triangle and a vertex",
        &[0, 1, 2, 3],
        &[(0, 1, 1), (1, 2, 1), (0, 2, 1)],
        false,
    ),
    (
        "directed edges",
        &[0, 1, 2],
        &[(2, 0, 1), (0, 2, 1), (1, 2, 1)],
        true,
    ),
    ("no vertices", &[], &[], false),
];

/// Prints the colours of each graph, by ascending vertex.
pub fn print_colourings(rt: &impl Print, alloc: Global) -> io::Result<()> {
    for (name, ids, edges, directed) in &ROWS {
        print_colouring(rt, alloc, name, &graph_of(alloc, ids, edges, *directed))?;
    }
    print_colouring(rt, alloc, "50 vertices with every edge", &every_pair(alloc))?;
    print_colouring(rt, alloc, "a hub of 1001", &hub(alloc))
}

fn print_colouring(
    rt: &impl Print,
    alloc: Global,
    name: &str,
    built: &Result<Graph, GraphFault>,
) -> io::Result<()> {
    match built {
        Ok(graph) => print_colours(rt, name, &greedy_colouring(alloc, graph)),
        Err(fault) => println!(rt; "colours of {name}: {fault}"),
    }
}

fn print_colours(
    rt: &impl Print,
    name: &str,
    colours: &Result<Vec<u32>, NoMemory>,
) -> io::Result<()> {
    print!(rt; "colours of {name}:")?;
    match colours {
        Ok(colours) => print_runs(rt, colours),
        Err(fault) => println!(rt; " {fault}"),
    }
}

/// Prints each colour, and how many vertices in turn have it.
fn print_runs(rt: &impl Print, colours: &[u32]) -> io::Result<()> {
    let mut last = 0;
    let mut many = 0;
    for colour in colours {
        if *colour != last {
            print_run(rt, last, many)?;
            last = *colour;
            many = 0;
        }
        many = many.saturating_add(1);
    }
    print_run(rt, last, many)?;
    println!(rt; "")
}

fn print_run(rt: &impl Print, colour: u32, many: u32) -> io::Result<()> {
    match many {
        0 => Ok(()),
        1 => print!(rt; " {colour}"),
        _ => print!(rt; " {colour} of {many}"),
    }
}
