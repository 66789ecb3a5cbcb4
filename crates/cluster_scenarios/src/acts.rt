//! The lines that say what happens.
use crate::answers::is_answer;
use crate::chances::play_seeds;
use crate::driving::{bring, drive, settle};
use crate::events::{both_happen, happens, happens_at_once, has_machine, next_scope};
use crate::orders::play_orders;
use crate::plans::machine_of;
use crate::records::take_record;
use crate::recovering::go_back;
use crate::scenes::Scene;
use crate::trouble::Trouble;
use cluster_step::clusters::{Event, Lead, Local, Passage, SavingMachine, SnapCluster};
use gl_base::{MachineNo, ScopeId};
use graph_core::Graph;
use scenario_lines::Line;
use std::alloc::Global;
use update_api::Program;

/// What a line lets happen.
#[derive(Clone, Copy)]
enum Act {
    Admit,
    Section,
    Fail,
    SendCall,
    DeliverCall,
    SendReport,
    DeliverReport,
    Send,
    Deliver,
    Begin,
    Step,
    Wave,
    Stop,
    Grant,
    Update,
    Mark,
    AtOnce,
    Call,
    Report,
    Pass,
    Record,
    Recover,
    Settle,
    Bring,
    Drive,
    DriveToRecord,
    Answer,
    Seeds,
    SeedsAndFailures,
    Orders,
}

/// Each of them with its word.
static ACTS: [(&str, Act); 30] = [
    ("admit", Act::Admit),
    ("section", Act::Section),
    ("fail", Act::Fail),
    ("send-call", Act::SendCall),
    ("deliver-call", Act::DeliverCall),
    ("send-report", Act::SendReport),
    ("deliver-report", Act::DeliverReport),
    ("send", Act::Send),
    ("deliver", Act::Deliver),
    ("begin", Act::Begin),
    ("step", Act::Step),
    ("wave", Act::Wave),
    ("stop", Act::Stop),
    ("grant", Act::Grant),
    ("update", Act::Update),
    ("mark", Act::Mark),
    ("at-once", Act::AtOnce),
    ("call", Act::Call),
    ("report", Act::Report),
    ("pass", Act::Pass),
    ("record", Act::Record),
    ("recover", Act::Recover),
    ("settle", Act::Settle),
    ("bring", Act::Bring),
    ("drive", Act::Drive),
    ("drive-to-record", Act::DriveToRecord),
    ("answer", Act::Answer),
    ("seeds", Act::Seeds),
    ("seeds-and-failures", Act::SeedsAndFailures),
    ("orders", Act::Orders),
];

/// Lets happen what the line says, and returns whether it has happened.
pub fn play_act<P: Program>(
    alloc: Global,
    scene: &mut Scene<'_, P>,
    line: &Line<'_>,
) -> Result<bool, Trouble> {
    let Some(act) = act_of(line.word) else {
        return Err(Trouble::Because("there is no such word"));
    };
    match act {
        Act::Record => take_record(alloc, scene),
        Act::Recover => go_back(alloc, scene, &line.numbers),
        Act::Bring => bring(&mut scene.whole, scene.beginning.machines),
        Act::Drive => drive(alloc, scene, false),
        Act::DriveToRecord => drive(alloc, scene, true),
        Act::Answer => is_answer(alloc, scene.beginning, &scene.kept),
        Act::Seeds => play_seeds(alloc, scene.beginning, line, false),
        Act::SeedsAndFailures => play_seeds(alloc, scene.beginning, line, true),
        Act::Orders => play_orders(alloc, scene.beginning, line.number(0)),
        _ => happens_there(&mut scene.whole, scene.beginning.graph, act, line),
    }
}

/// Returns what the word lets happen, if it is one of those.
fn act_of(word: &str) -> Option<Act> {
    for (its_word, act) in ACTS.as_slice() {
        if *its_word == word {
            return Some(*act);
        }
    }
    None
}

/// Lets happen at a machine, between two, or at the coordinator, what the line says.
fn happens_there<M: SavingMachine>(
    whole: &mut SnapCluster<M>,
    graph: &Graph,
    act: Act,
    line: &Line<'_>,
) -> Result<bool, Trouble> {
    let at = machine_of(line.number(0));
    let to = machine_of(line.number(1));
    match act {
        Act::Settle => settles(whole, at),
        Act::AtOnce => happens_at_once(whole, at),
        Act::Grant => is_granted(whole, graph, at, line.number(1)),
        Act::Update => happens_in_scope(whole, at, line, false),
        Act::Mark => happens_in_scope(whole, at, line, true),
        Act::Call => both_happen(whole, Passage::SendCall(at), Passage::DeliverCall(at)),
        Act::Report => both_happen(whole, Passage::SendReport(at), Passage::DeliverReport(at)),
        Act::Pass => both_happen(
            whole,
            Passage::Send { from: at, to },
            Passage::Deliver { from: at, to },
        ),
        _ => happens(whole, event_of(act, at, to)),
    }
}

/// Returns the event of a word that is the word of one.
fn event_of(act: Act, at: MachineNo, to: MachineNo) -> Event {
    match act {
        Act::Section => Event::Local(Local::Section(at)),
        Act::Fail => Event::Local(Local::Fail(at)),
        Act::SendCall => Event::Passage(Passage::SendCall(at)),
        Act::DeliverCall => Event::Passage(Passage::DeliverCall(at)),
        Act::SendReport => Event::Passage(Passage::SendReport(at)),
        Act::DeliverReport => Event::Passage(Passage::DeliverReport(at)),
        Act::Send => Event::Passage(Passage::Send { from: at, to }),
        Act::Deliver => Event::Passage(Passage::Deliver { from: at, to }),
        Act::Begin => Event::Lead(Lead::Begin),
        Act::Step => Event::Lead(Lead::Step),
        Act::Wave => Event::Lead(Lead::Wave),
        Act::Stop => Event::Lead(Lead::Stop),
        _ => Event::Local(Local::Admit(at)),
    }
}

/// Lets the machine do what it may by itself. Returns `true` then.
fn settles<M: SavingMachine>(whole: &mut SnapCluster<M>, at: MachineNo) -> Result<bool, Trouble> {
    settle(whole, at)?;
    Ok(true)
}

/// Grants the lock of the vertex with this identifier, and returns whether it was granted.
fn is_granted<M: SavingMachine>(
    whole: &mut SnapCluster<M>,
    graph: &Graph,
    at: MachineNo,
    id: u64,
) -> Result<bool, Trouble> {
    match graph.find(id) {
        Some(x) => happens(whole, Event::Local(Local::Grant(at, x))),
        None => Err(Trouble::Because("no vertex has this identifier")),
    }
}

/// Makes the update, or the snapshot update, of the scope that the line names, or of the next one
/// that is ready. Returns whether it was made.
fn happens_in_scope<M: SavingMachine>(
    whole: &mut SnapCluster<M>,
    home: MachineNo,
    line: &Line<'_>,
    is_mark: bool,
) -> Result<bool, Trouble> {
    if !has_machine(whole, home) {
        return Err(Trouble::Because("there is no such machine"));
    }
    match scope_of(whole, home, line, is_mark) {
        Some(scope) => happens(whole, Event::Local(of_scope(scope, is_mark))),
        None => Ok(false),
    }
}

/// Returns the scope that the line names, or the next one that is ready.
fn scope_of<M: SavingMachine>(
    whole: &SnapCluster<M>,
    home: MachineNo,
    line: &Line<'_>,
    is_mark: bool,
) -> Option<ScopeId> {
    if line.numbers.len() < 2 {
        return next_scope(whole, home, is_mark);
    }
    Some(ScopeId {
        home,
        serial: line.number(1),
    })
}

/// Returns the snapshot update, or the update, of a scope.
fn of_scope(scope: ScopeId, is_mark: bool) -> Local {
    if is_mark {
        Local::Mark(scope)
    } else {
        Local::Update(scope)
    }
}
