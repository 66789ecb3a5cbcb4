//! The texts that tell how a run ended: answers, reports and orders; and the folds that reports
//! stand on.
ghost use Rattle.std.specs.Prelude.{◌↔◌, IsTrue};
ghost use Rattle.graph_text.specs.order_text.Orders.{IsEntryOf};

use crate::bytes::text_of;
use crate::graphs::{Line, graph_of};
use gl_base::{Algorithm, Entry, INF, MachineNo, NoMemory, Vertex};
use graph_core::{Graph, GraphFault};
use graph_text::order_text::{answer, order_bytes, report};
use graph_text::sync_folds::Fold;
use std::alloc::Global;
use std::io;

/// Prints folds, answers, reports and orders.
pub fn print_answers(rt: &impl Print, alloc: Global) -> io::Result<()> {
    for (name, values) in &FOLDED {
        print_fold(rt, name, Fold::of(values))?;
    }
    print_merges(rt)?;
    for row in &ANSWERS {
        print_answer(rt, alloc, row)?;
    }
    for row in &REPORTS {
        print_report(rt, alloc, row)?;
    }
    print_orders(
        rt,
        alloc,
        &graph_of(alloc, &[30, 7, 100], &[(7, 30, 1)], false),
    )
}

static FOLDED: [(&str, &[u64]); 5] = [
    ("none", &[]),
    ("two unreached", &[INF, INF]),
    ("0, 1, 2 and an unreached", &[0, 1, 2, INF]),
    ("7, an unreached and 0", &[7, INF, 0]),
    ("three of the greatest", &[INF - 1, INF - 1, INF - 1]),
];

fn print_fold(rt: &impl Print, name: &str, fold: Fold) -> io::Result<()> {
    println!(rt;
        "fold of {name}: reached {}, sum {}, max {}",
        fold.reached, fold.sum, fold.max
    )
}

static MERGED: [u64; 6] = [5, INF, 3, 9, INF, 0];

/// Prints the merged folds of each front of a list and of the rest.
fn print_merges(rt: &impl Print) -> io::Result<()> {
    for cut in 0..=MERGED.len() {
        let (front, rest) = (Fold::of(&MERGED[..cut]), Fold::of(&MERGED[cut..]));
        print!(rt; "merged behind {cut}, ")?;
        print_merge(rt, front, rest)?;
    }
    Ok(())
}

fn print_merge(rt: &impl Print, front: Fold, rest: Fold) -> io::Result<()> {
    if front.reached > 9 || rest.reached > 9 || front.sum > 99 || rest.sum > 99 {
        return println!(rt; "fold of all: too great");
    }
    print_fold(rt, "all", front.merge(rest))
}

/// Identifiers and numbers of vertices, and what the numbers are.
type Answer = (&'static str, &'static [u64], &'static [u64], Algorithm);

static ANSWERS: [Answer; 8] = [
    ("levels", &[4, 1, 3, 2], &[0, 1, 2, INF], Algorithm::Levels),
    (
        "components",
        &[4, 1, 3, 2],
        &[0, 1, 2, INF],
        Algorithm::Components,
    ),
    (
        "colours",
        &[4, 1, 3, 2],
        &[0, 1, 2, INF],
        Algorithm::Colours,
    ),
    ("cores", &[4, 1, 3, 2], &[0, 1, 2, INF], Algorithm::Cores),
    ("pairs", &[4, 1, 3, 2], &[2, 1, INF, INF], Algorithm::Pairs),
    ("paths", &[4, 1, 3, 2], &[0, 1, 2, INF], Algorithm::Paths),
    ("paths without vertices", &[], &[], Algorithm::Paths),
    (
        "paths between far identifiers",
        &[INF - 1, 0],
        &[INF, INF - 1],
        Algorithm::Paths,
    ),
];

fn print_answer(
    rt: &impl Print,
    alloc: Global,
    (name, ids, values, kind): &Answer,
) -> io::Result<()> {
    match graph_of(alloc, ids, &[], false) {
        Ok(graph) if values.len() == graph.n() as usize => {
            print_text(rt, name, &answer(alloc, &graph, values, *kind))
        }
        _ => println!(rt; "text of {name}: no graph"),
    }
}

fn print_text(rt: &impl Print, name: &str, text: &Result<Vec<u8>, NoMemory>) -> io::Result<()> {
    match text {
        Ok(text) => println!(rt; "text of {name}: {:?}", text_of(text)),
        Err(fault) => println!(rt; "text of {name}: {fault}"),
    }
}

/// Vertices and edges, the numbers of the vertices, and an answer.
type Report = (
    &'static str,
    &'static [u64],
    &'static [Line],
    &'static [u64],
    &'static str,
);

static REPORTS: [Report; 3] = [
    (
        "a report of levels",
        &[1, 2, 3, 4],
        &[(1, 2, 1), (2, 3, 1)],
        &[0, 1, 2, INF],
        "1 0\n2 1\n3 2\n4 9223372036854775807\n",
    ),
    (
        "a report of the greatest",
        &[1, 2, 3, 4],
        &[(1, 2, 1), (2, 3, 1)],
        &[INF - 1, INF, INF - 1, INF - 1],
        "x",
    ),
    ("a report without vertices", &[], &[], &[], ""),
];

fn print_report(
    rt: &impl Print,
    alloc: Global,
    (name, ids, edges, values, answer): &Report,
) -> io::Result<()> {
    let fold = Fold::of(values);
    match graph_of(alloc, ids, edges, false) {
        Ok(graph) => print_text(rt, name, &report(alloc, &graph, &fold, answer.as_bytes())),
        Err(fault) => println!(rt; "text of {name}: {fault}"),
    }
}

/// An order of the graph with the vertices 7, 30 and 100.
static ORDER: [Entry; 4] = [
    Entry::Go {
        ticket: 0,
        machine: MachineNo(1),
        vertex: Vertex(2),
    },
    Entry::Go {
        ticket: 1,
        machine: MachineNo(0),
        vertex: Vertex(0),
    },
    Entry::Restart { ticket: 2 },
    Entry::Go {
        ticket: 2,
        machine: MachineNo(15),
        vertex: Vertex(1),
    },
];

/// Prints the text of each front of the order.
fn print_orders(
    rt: &impl Print,
    alloc: Global,
    graph: &Result<Graph, GraphFault>,
) -> io::Result<()> {
    let Ok(graph) = graph else {
        return println!(rt; "orders: no graph");
    };
    for count in 0..=ORDER.len() {
        print!(rt; "{count} entries, ")?;
        print_order(rt, alloc, graph, &ORDER[..count])?;
    }
    Ok(())
}

fn print_order(rt: &impl Print, alloc: Global, graph: &Graph, order: &[Entry]) -> io::Result<()> {
    if !order.iter().all(|entry| is_entry_of(graph, entry)) {
        return println!(rt; "text of an order: no order of the graph");
    }
    print_text(rt, "an order", &order_bytes(alloc, graph, order))
}

fn is_entry_of(graph: &Graph, entry: &Entry) -> bool
    ensures { IsTrue result ↔ IsEntryOf graph.now entry.now }
{
    match entry {
        Entry::Go { vertex, .. } => vertex.0 < graph.n(),
        Entry::Restart { .. } => true,
    }
}
