//! Every order in which things may happen.
use crate::answers::is_answer;
use crate::beginnings::Beginning;
use crate::driving::drive;
use crate::events::happens;
use crate::scenes::Scene;
use crate::trouble::Trouble;
use cluster_step::clusters::{Event, Lead, Local, Passage};
use gl_base::{MachineNo, ScopeId, Vertex};
use std::alloc::Global;
use update_api::Program;

/// How many scopes of each machine are tried at most.
const MOST_SCOPES: u64 = 4;

/// How many steps are made at most.
const MOST_STEPS: u64 = 100000000;

/// The places of what has happened in the list of all that might, and the place of what is tried
/// next.
#[derive(Drop)]
struct Walk {
    chosen: Vec<usize>,
    next: usize,
}

/// Lets happen each list of so many things that may happen one after another from the beginning, in
/// a cluster of its own. Behind each the cluster is driven to its end. Returns `true` if all is
/// well.
pub fn play_orders<P: Program>(
    alloc: Global,
    beginning: &Beginning<'_, P>,
    depth: u64,
) -> Result<bool, Trouble> {
    let all = all_events(alloc, beginning)?;
    let mut scene = Scene::new(alloc, beginning)?;
    let outcome = walk_all(alloc, &mut scene, &all, depth);
    drop(scene);
    outcome
}

/// Walks until every list was tried.
fn walk_all<P: Program>(
    alloc: Global,
    scene: &mut Scene<'_, P>,
    all: &[Event],
    depth: u64,
) -> Result<bool, Trouble> {
    let mut walk = Walk {
        chosen: Vec::new(alloc),
        next: 0,
    };
    for _ in 0..MOST_STEPS {
        let is_whole = walk.chosen.len() as u64 >= depth;
        if !is_whole && walk.next < all.len() {
            go_on(scene, all, &mut walk)?;
        } else if !go_back(alloc, scene, all, &mut walk, is_whole)? {
            return Ok(true);
        }
    }
    Err(Trouble::Because("there are too many orders"))
}

/// Tries what is next.
fn go_on<P: Program>(
    scene: &mut Scene<'_, P>,
    all: &[Event],
    walk: &mut Walk,
) -> Result<(), Trouble> {
    let Some(event) = all.get(walk.next) else {
        return Ok(());
    };
    if happens(&mut scene.whole, *event)? {
        walk.chosen.push(walk.next)?;
        walk.next = 0;
    } else {
        walk.next = walk.next.saturating_add(1);
    }
    Ok(())
}

/// Goes back by one thing, and drives a list that is whole to its end before that. Returns whether
/// there was one.
fn go_back<P: Program>(
    alloc: Global,
    scene: &mut Scene<'_, P>,
    all: &[Event],
    walk: &mut Walk,
    is_whole: bool,
) -> Result<bool, Trouble> {
    if is_whole {
        drive(alloc, scene, false)?;
        is_answer(alloc, scene.beginning, &scene.kept)?;
    }
    let Some(last) = walk.chosen.pop() else {
        return Ok(false);
    };
    *scene = Scene::new(alloc, scene.beginning)?;
    for place in walk.chosen.iter() {
        if let Some(event) = all.get(*place) {
            happens(&mut scene.whole, *event)?;
        }
    }
    walk.next = last.saturating_add(1);
    Ok(true)
}

/// Returns all that might happen, but for records, failures, the end of the run, and what later
/// scopes do.
fn all_events<P: Program>(
    alloc: Global,
    beginning: &Beginning<'_, P>,
) -> Result<Vec<Event>, Trouble> {
    let mut all = Vec::new(alloc);
    for m in 0..beginning.machines {
        let at = MachineNo(m);
        add_locals(&mut all, at, beginning.graph.n())?;
        add_passages(&mut all, at, beginning.machines)?;
    }
    all.push(Event::Lead(Lead::Begin))?;
    all.push(Event::Lead(Lead::Step))?;
    all.push(Event::Lead(Lead::Wave))?;
    Ok(all)
}

/// Adds what the machine might do by itself.
fn add_locals(all: &mut Vec<Event>, at: MachineNo, vertices: u32) -> Result<(), Trouble> {
    all.push(Event::Local(Local::Admit(at)))?;
    for v in 0..vertices {
        all.push(Event::Local(Local::Grant(at, Vertex(v))))?;
    }
    for serial in 0..MOST_SCOPES {
        let scope = ScopeId { home: at, serial };
        all.push(Event::Local(Local::Update(scope)))?;
        all.push(Event::Local(Local::Mark(scope)))?;
    }
    all.push(Event::Local(Local::Section(at)))?;
    Ok(())
}

/// Adds what might go onto the links of the machine, and come.
fn add_passages(all: &mut Vec<Event>, at: MachineNo, machines: u16) -> Result<(), Trouble> {
    for other in 0..machines {
        let to = MachineNo(other);
        all.push(Event::Passage(Passage::Send { from: at, to }))?;
        all.push(Event::Passage(Passage::Deliver { from: at, to }))?;
    }
    all.push(Event::Passage(Passage::SendCall(at)))?;
    all.push(Event::Passage(Passage::DeliverCall(at)))?;
    all.push(Event::Passage(Passage::SendReport(at)))?;
    all.push(Event::Passage(Passage::DeliverReport(at)))?;
    Ok(())
}
