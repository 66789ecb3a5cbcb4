//! Lists of what happens that look random, the same ones in each run.
ghost use Rattle.std.specs.Prelude.{◌<◌};

use crate::answers::is_answer;
use crate::beginnings::Beginning;
use crate::driving::drive;
use crate::events::{happens, happens_at_once, next_grant, next_scope};
use crate::records::take_record;
use crate::recovering::go_back;
use crate::scenes::Scene;
use crate::trouble::Trouble;
use cluster_step::clusters::{Event, Lead, Local, Passage};
use gl_base::{EngineKind, MachineNo, ScopeId, Vertex};
use scenario_lines::Line;
use std::alloc::Global;
use update_api::Program;

/// Numbers that look random, those of splitmix, and whether machines may fail by them.
#[derive(Clone, Copy)]
struct Chances {
    state: u64,
    may_fail: bool,
}

impl Chances {
    /// A number below the bound.
    fn below(&mut self, bound: u64) -> u64
        requires { 0 < bound }
        ensures { result < bound }
    {
        self.state = self.state.wrapping_add(11400714819323198485);
        let first = (self.state ^ (self.state >> 30)).wrapping_mul(13787848793156543929);
        let second = (first ^ (first >> 27)).wrapping_mul(10723151780598845931);
        (second ^ (second >> 31)) % bound
    }
}

/// Lets things happen by chance, or be refused, in a cluster of its own for each seed, which is
/// driven to its end then. The line says how many seeds and how many things. Returns `true` if all
/// is well.
pub fn play_seeds<P: Program>(
    alloc: Global,
    beginning: &Beginning<'_, P>,
    line: &Line<'_>,
    may_fail: bool,
) -> Result<bool, Trouble> {
    for seed in 0..line.number(0) {
        let chances = Chances {
            state: seed,
            may_fail,
        };
        play_seed(alloc, beginning, chances, line.number(1))?;
    }
    Ok(true)
}

/// Plays the chances of one seed.
fn play_seed<P: Program>(
    alloc: Global,
    beginning: &Beginning<'_, P>,
    chances: Chances,
    steps: u64,
) -> Result<bool, Trouble> {
    let mut scene = Scene::new(alloc, beginning)?;
    let outcome = play_to_end(alloc, &mut scene, chances, steps);
    drop(scene);
    outcome
}

/// Lets so many things happen, or be refused, and drives the cluster to its end.
fn play_to_end<P: Program>(
    alloc: Global,
    scene: &mut Scene<'_, P>,
    chances: Chances,
    steps: u64,
) -> Result<bool, Trouble> {
    play_chances(alloc, scene, chances, steps)?;
    go_back(alloc, scene, &[])?;
    drive(alloc, scene, false)?;
    is_answer(alloc, scene.beginning, &scene.kept)
}

/// Lets so many things happen, or be refused.
fn play_chances<P: Program>(
    alloc: Global,
    scene: &mut Scene<'_, P>,
    chances: Chances,
    steps: u64,
) -> Result<(), Trouble> {
    let mut chances = chances;
    for _ in 0..steps {
        play_chance(alloc, scene, &mut chances)?;
    }
    Ok(())
}

/// Lets one thing happen, or be refused.
fn play_chance<P: Program>(
    alloc: Global,
    scene: &mut Scene<'_, P>,
    chances: &mut Chances,
) -> Result<bool, Trouble> {
    match chances.below(64) {
        0..=3 => take_record(alloc, scene),
        4..=6 => go_back(alloc, scene, &[]),
        7 if chances.may_fail => some_failure(scene, chances),
        8..=10 => {
            let at = some_machine(scene, chances);
            happens_at_once(&mut scene.whole, at)
        }
        _ => {
            let event = some_event(scene, chances);
            happens(&mut scene.whole, event)
        }
    }
}

/// Lets one of the machines fail, one time in eight.
fn some_failure<P: Program>(
    scene: &mut Scene<'_, P>,
    chances: &mut Chances,
) -> Result<bool, Trouble> {
    let at = some_machine(scene, chances);
    if chances.below(8) == 0 {
        happens(&mut scene.whole, Event::Local(Local::Fail(at)))
    } else {
        Ok(false)
    }
}

/// Returns something that might happen.
fn some_event<P: Program>(scene: &mut Scene<'_, P>, chances: &mut Chances) -> Event {
    let at = some_machine(scene, chances);
    if chances.below(2) == 0 {
        return Event::Local(some_local(scene, chances, at));
    }
    if scene.beginning.engine == EngineKind::Chromatic && chances.below(2) == 0 {
        return some_turn(chances, at);
    }
    let to = some_machine(scene, chances);
    let passage = match chances.below(11) {
        0..=2 => Passage::Send { from: at, to },
        3..=5 => Passage::Deliver { from: at, to },
        6 => Passage::SendCall(at),
        7 => Passage::DeliverCall(at),
        8 => Passage::SendReport(at),
        9 => Passage::DeliverReport(at),
        _ => return Event::Lead(some_lead(chances)),
    };
    Event::Passage(passage)
}

/// Returns what might happen if vertices run by colours: a step, a wave or a snapshot begins, or
/// word of one goes on.
fn some_turn(chances: &mut Chances, at: MachineNo) -> Event {
    Event::Passage(match chances.below(12) {
        0..=1 => Passage::SendCall(at),
        2..=3 => Passage::DeliverCall(at),
        4..=5 => Passage::SendReport(at),
        6..=7 => Passage::DeliverReport(at),
        8..=9 => return Event::Lead(Lead::Step),
        _ => return Event::Lead(some_lead(chances)),
    })
}

/// Returns that the next snapshot begins, or that a wave is put out.
fn some_lead(chances: &mut Chances) -> Lead {
    if chances.below(4) == 0 {
        Lead::Wave
    } else {
        Lead::Begin
    }
}

/// Returns something that the machine might do by itself.
fn some_local<P: Program>(scene: &mut Scene<'_, P>, chances: &mut Chances, at: MachineNo) -> Local {
    match chances.below(10) {
        0..=2 => Local::Admit(at),
        3..=5 => Local::Grant(at, some_lock(scene, chances, at)),
        6..=7 => Local::Update(some_scope(scene, chances, at, false)),
        8 => Local::Mark(some_scope(scene, chances, at, true)),
        _ => Local::Section(at),
    }
}

/// Returns one of the machines.
fn some_machine<P: Program>(scene: &Scene<'_, P>, chances: &mut Chances) -> MachineNo {
    let machines = scene.beginning.machines;
    if machines == 0 {
        return MachineNo(0);
    }
    MachineNo(chances.below(machines as u64) as u16)
}

/// Returns the next lock that may be granted, or any vertex.
fn some_lock<P: Program>(scene: &mut Scene<'_, P>, chances: &mut Chances, at: MachineNo) -> Vertex {
    if chances.below(8) > 0 {
        if let Some(x) = next_grant(&mut scene.whole, at) {
            return x;
        }
    }
    let vertices = scene.beginning.graph.n();
    if vertices == 0 {
        return Vertex(0);
    }
    Vertex(chances.below(vertices as u64) as u32)
}

/// Returns the next scope that is ready, or any.
fn some_scope<P: Program>(
    scene: &Scene<'_, P>,
    chances: &mut Chances,
    home: MachineNo,
    is_mark: bool,
) -> ScopeId {
    let serial = chances.below(32);
    let any = ScopeId { home, serial };
    if chances.below(8) == 0 {
        return any;
    }
    next_scope(&scene.whole, home, is_mark).unwrap_or(any)
}
