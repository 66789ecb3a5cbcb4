//! The lines that say what is to be seen.
use crate::events::{has_machine, next_grant};
use crate::plans::machine_of;
use crate::scenes::{Kept, Scene};
use cluster_step::clusters::{Due, SavingMachine, SnapCluster};
use gl_base::{Entry, MachineNo, Vertex};
use graph_core::Graph;
use scenario_lines::{Line, Page};
use update_api::Program;

/// What a line asks for.
#[derive(Clone, Copy)]
pub enum Look {
    Stored,
    Next,
    Left,
    Due,
    Grant,
    Log,
    Failed,
    Link,
    CallLink,
    ReportLink,
    CallWaits,
    Numbers,
    Edges,
    Entries,
    Order,
    Restarts,
    Pause,
    Recoveries,
    Completed,
    Unknown,
}

/// Each of them with its word.
static LOOKS: [(&str, Look); 19] = [
    ("stored", Look::Stored),
    ("next", Look::Next),
    ("left", Look::Left),
    ("due", Look::Due),
    ("grant", Look::Grant),
    ("log", Look::Log),
    ("failed", Look::Failed),
    ("link", Look::Link),
    ("call-link", Look::CallLink),
    ("report-link", Look::ReportLink),
    ("call-waits", Look::CallWaits),
    ("numbers", Look::Numbers),
    ("edges", Look::Edges),
    ("entries", Look::Entries),
    ("order", Look::Order),
    ("restarts", Look::Restarts),
    ("pause", Look::Pause),
    ("recoveries", Look::Recoveries),
    ("completed", Look::Completed),
];

/// Returns what the word asks for.
pub fn look_of(word: &str) -> Look {
    for (its_word, look) in LOOKS.as_slice() {
        if *its_word == word {
            return *look;
        }
    }
    Look::Unknown
}

/// Writes what is seen of the cluster where the line asks for it.
pub fn add_seen<P: Program>(scene: &mut Scene<'_, P>, line: &Line<'_>, page: &mut Page) {
    let graph = scene.beginning.graph;
    match look_of(line.word) {
        Look::Stored => page.add_numbers(&[scene.whole.stored() as u64]),
        Look::Next => page.add_numbers(&[scene.whole.next()]),
        Look::Left => page.add_numbers(&[scene.whole.left()]),
        Look::Due => add_due(scene.whole.due(), page),
        Look::Grant => match next_grant(&mut scene.whole, machine_of(line.number(0))) {
            Some(x) => page.add_numbers(&[id_of(graph, x)]),
            None => page.add(" none"),
        },
        look @ (Look::Numbers | Look::Edges | Look::Entries | Look::Order | Look::Restarts) => {
            add_kept(graph, &scene.kept, look, page);
        }
        look => add_seen_at(graph, &scene.whole, look, line, page),
    }
}

/// Writes what is seen of the machine that the line names, or of the link between two.
fn add_seen_at<M: SavingMachine>(
    graph: &Graph,
    whole: &SnapCluster<M>,
    look: Look,
    line: &Line<'_>,
    page: &mut Page,
) {
    let at = machine_of(line.number(0));
    if !has_machine(whole, at) {
        page.add(" no such machine");
        return;
    }
    match look {
        Look::Log => add_entries(graph, whole.log(at), page),
        Look::Failed => add_answer(whole.has_failed(at), page),
        Look::Link => add_link(whole, at, machine_of(line.number(1)), page),
        Look::CallLink => add_answer(whole.has_call(at), page),
        Look::ReportLink => add_answer(whole.has_report(at), page),
        Look::CallWaits => add_answer(whole.call_waits(at), page),
        _ => page.add(" no such thing"),
    }
}

/// Writes whether a message is on the link between two machines.
fn add_link<M: SavingMachine>(
    whole: &SnapCluster<M>,
    from: MachineNo,
    to: MachineNo,
    page: &mut Page,
) {
    if has_machine(whole, from) && has_machine(whole, to) {
        add_answer(whole.has_message(from, to), page);
    } else {
        page.add(" no such machine");
    }
}

/// Writes what is known of the records so far.
pub fn add_kept(graph: &Graph, kept: &Kept, look: Look, page: &mut Page) {
    match look {
        Look::Numbers => add_list(&kept.newest.values, page),
        Look::Edges => add_list(&kept.newest.edges, page),
        Look::Entries => add_entries(graph, &kept.entries, page),
        Look::Order => add_entries(graph, &kept.order, page),
        Look::Restarts => add_restarts(&kept.order, page),
        _ => page.add(" no such thing"),
    }
}

fn add_due(due: Due, page: &mut Page) {
    match due {
        Due::Ended => page.add(" ended"),
        Due::Wave => page.add(" wave"),
        Due::Nothing => page.add(" nothing"),
        Due::Step(colour) => add_named(" step", colour, page),
        Due::Record(number) => add_named(" record", number, page),
        Due::Snapshot(number) => add_named(" snapshot", number, page),
    }
}

fn add_named(name: &str, number: u32, page: &mut Page) {
    page.add(name);
    page.add_numbers(&[number as u64]);
}

fn add_answer(is_so: bool, page: &mut Page) {
    page.add(if is_so { " yes" } else { " no" });
}

/// Writes the numbers, or `none`.
fn add_list(numbers: &[u64], page: &mut Page) {
    if numbers.is_empty() {
        page.add(" none");
    }
    page.add_numbers(numbers);
}

/// Returns the identifier of a vertex.
fn id_of(graph: &Graph, v: Vertex) -> u64 {
    if v.0 < graph.n() {
        graph.id(v)
    } else {
        u64::MAX
    }
}

/// Writes the identifiers of the vertices that were updated, and the restarts, each behind its
/// ticket; or `none`.
fn add_entries(graph: &Graph, entries: &[Entry], page: &mut Page) {
    if entries.is_empty() {
        page.add(" none");
    }
    for entry in entries {
        let (Entry::Go { ticket, .. } | Entry::Restart { ticket }) = *entry;
        page.add_numbers(&[ticket]);
        page.add(":");
        match entry {
            Entry::Go { vertex, .. } => page.add_number(id_of(graph, *vertex)),
            Entry::Restart { .. } => page.add("restart"),
        }
    }
}

/// Writes the tickets of the restarts, or `none`.
fn add_restarts(entries: &[Entry], page: &mut Page) {
    let mut is_none = true;
    for entry in entries {
        if let Entry::Restart { ticket } = entry {
            page.add_numbers(&[*ticket]);
            is_none = false;
        }
    }
    if is_none {
        page.add(" none");
    }
}
