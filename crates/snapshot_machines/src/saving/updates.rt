//! Updates, which are counted beside what is kept for snapshots.
ghost use Rattle.std.specs.Prelude.{◌≡◌, ◌&&◌, not, true, false, None, Some, IfNone, IfOk, IfSome, OnOk, OnErr, IsErrOf};
ghost use Rattle.gl_base.specs.declared.scopes.ScopeId.{ScopeId};
ghost use Rattle.machine_core.specs.machine_at_once.Picks.{CanUpdatePick, HasNoneAtOnce, HasRunAtOnce, HasUpdatedPick};
ghost use Rattle.machine_core.specs.machine_turns.Turns.{HasMadeUpdate, HasRunOf, MayUpdate, flight_at, pending_here, task_here};
ghost use Rattle.coordinator.specs.snap_update.Snaps.{IsSameButRoom, asked_behind, with_asking};
ghost use Rattle.snapshot_machines.specs.saving.Machines.{IsBetweenCalls, SameSettings, part_of};
ghost use Rattle.snapshot_machines.specs.saving.Updates.{HasLogged, HasLoggedAtOnce};

use crate::saving::machines::SnapMachine;
use gl_base::{Entry, Refused, ScopeId, Vertex};
use machine_core::machine_parts::Core;
use partition::machine_numbers::Numbers;
use update_api::Program;

impl<P: Program> SnapMachine<P> {
    /// Makes the update of a ready scope of this machine, whose vertex is a task and not pending,
    /// and tells the other machines of the scope. It is logged under the ticket, and kept before
    /// the marks where its vertex has no mark of the snapshot that is known, else behind them.
    pub fn update(&mut self, scope: ScopeId, ticket: u64) -> Result<(), Refused>
        ensures updated { OnOk result
            (HasMadeUpdate (P.meaning self.old.program) self.old.core self.new.core scope ticket) }
        ensures run { OnOk result (HasRunOf self.old.core self.new.core scope) }
        ensures logged { OnOk result
            (HasLogged self.old.core self.old.kept self.new.kept scope ticket) }
        ensures not_now { IsErrOf result Refused.NotNow →
            MayUpdate scope (part_of self.old.core) 1 → ⊥ }
        ensures no_memory { IsErrOf result Refused.NoMemory →
            MayUpdate scope (part_of self.old.core) 1 }
        ensures unchanged { OnErr result (part_of self.new.core ≡ part_of self.old.core) }
        ensures same { OnErr result (IsSameButRoom self.old.kept self.new.kept) }
        ensures tasks { OnErr result (self.new.core.numbers.tasks ≡ self.old.core.numbers.tasks) }
        ensures local { let old = self.old.core.numbers.local in
            let new = self.new.core.numbers.local in
            new ≡ record old { kept = new.kept; rows = new.rows; numbers = new.numbers } }
        ensures program { self.new.program ≡ self.old.program }
        ensures places { self.new.core.by_place ≡ self.old.core.by_place }
        ensures terms { self.new.core.terms ≡ self.old.core.terms }
        ensures settings { SameSettings self.old.core self.new.core }
    {
        let Some(centre) = centre_to_update(&self.core, scope) else {
            return Err(Refused::NotNow);
        };
        if self.snaps.reserve().is_err() {
            return Err(Refused::NoMemory);
        }
        let mark = self.core.numbers.datum(centre).mark;
        match machine_core::machine_turns::update(
            self.alloc,
            &mut self.core,
            &mut self.spares,
            &self.program,
            scope,
            ticket,
        ) {
            Ok(()) => {
                let entry = Entry::Go {
                    ticket,
                    machine: scope.home,
                    vertex: centre,
                };
                self.snaps.log(entry, mark);
                Ok(())
            }
            Err(refused) => Err(refused),
        }
    }

    /// Updates the vertex that the tasks pick, where it is not pending, its scope has this machine
    /// alone, and nobody holds or waits for a lock of it: as if a scope of it were admitted, took
    /// each lock in turn and made its update. It is logged under the ticket, and kept before the
    /// marks where its vertex has no mark of the snapshot that is known, else behind them.
    pub fn update_at_once(&mut self, ticket: u64) -> Result<Vertex, Refused>
        ensures updated { IfOk result (λ v.
            HasUpdatedPick (P.meaning self.old.program) self.old.core self.new.core v ticket) }
        ensures run { OnOk result
            (HasRunAtOnce self.old.core.numbers.tasks self.new.core.numbers.tasks) }
        ensures logged { IfOk result (λ v.
            HasLoggedAtOnce self.old.core self.old.kept self.new.kept v ticket) }
        ensures not_now { IsErrOf result Refused.NotNow → HasNoneAtOnce self.old.core }
        ensures no_memory { IsErrOf result Refused.NoMemory → CanUpdatePick self.old.core }
        ensures unchanged { OnErr result (part_of self.new.core ≡ part_of self.old.core) }
        ensures same { OnErr result (IsSameButRoom self.old.kept self.new.kept) }
        ensures tasks { OnErr result (self.new.core.numbers.tasks ≡ self.old.core.numbers.tasks) }
        ensures local { let old = self.old.core.numbers.local in
            let new = self.new.core.numbers.local in
            new ≡ record old { kept = new.kept; rows = new.rows; numbers = new.numbers } }
        ensures program { self.new.program ≡ self.old.program }
        ensures terms { self.new.core.terms ≡ self.old.core.terms }
        ensures settings { SameSettings self.old.core self.new.core }
        ensures order { IsBetweenCalls self.old.core self.old.kept }
    {
        if self.snaps.reserve().is_err() {
            return Err(machine_core::machine_at_once::refusal(&self.core));
        }
        match machine_core::machine_at_once::update_at_once(
            self.alloc,
            &mut self.core,
            &mut self.spares,
            &self.program,
            ticket,
        ) {
            Ok(vertex) => {
                let entry = Entry::Go {
                    ticket,
                    machine: self.core.numbers.local.me(),
                    vertex,
                };
                self.snaps.log(entry, self.core.numbers.datum(vertex).mark);
                Ok(vertex)
            }
            Err(refused) => Err(refused),
        }
    }

    /// What an update at once is refused with, where memory is wanting for what is kept beside it.
    pub fn refusal_at_once(&self) -> Refused
        ensures not_now { result ≡ Refused.NotNow → HasNoneAtOnce self.now.core }
        ensures no_memory { result ≡ Refused.NoMemory → CanUpdatePick self.now.core }
        ensures order { IsBetweenCalls self.now.core self.now.kept }
    {
        machine_core::machine_at_once::refusal(&self.core)
    }

    /// Whether a scope may make its update now.
    pub fn can_update(&self, scope: ScopeId) -> bool
        ensures yes { result ≡ true → MayUpdate scope (part_of self.now.core) 1 }
        ensures no { result ≡ false → MayUpdate scope (part_of self.now.core) 1 → ⊥ }
        ensures order { IsBetweenCalls self.now.core self.now.kept }
    {
        centre_to_update(&self.core, scope).is_some()
    }

    /// A scope of this home that may make its update now; `None` exactly where none may. It looks
    /// at the ready scopes alone.
    pub fn next_update(&self) -> Option<ScopeId>
        ensures some { IfSome result (λ s. MayUpdate s (part_of self.now.core) 1) }
        ensures home { IfSome result (λ s. s.home ≡ self.now.core.numbers.local.me) }
        ensures none { IfNone result ((s : ScopeId) → MayUpdate s (part_of self.now.core) 1 → ⊥) }
    {
        machine_core::machine_turns::next_ready(&self.core)
    }

    /// The last acknowledged snapshot that is known, where one behind it is to be asked for: so
    /// many updates are outside, and it wasn't asked for yet.
    pub fn ask(&mut self, half: u64) -> Option<u32>
        ensures behind { result ≡ asked_behind half self.old.kept }
        ensures kept { self.new.kept ≡ with_asking half self.old.kept }
        ensures core { self.new.core ≡ self.old.core }
        ensures program { self.new.program ≡ self.old.program }
    {
        self.snaps.ask(half)
    }
}

/// The vertex of a scope that may make its update now.
fn centre_to_update(core: &Core, scope: ScopeId) -> Option<Vertex>
    ensures some { IfSome result (λ v. (flight_at core.now.pipe scope ≡ Some v) ×
        MayUpdate scope (part_of core.now) 1) }
    ensures none { result ≡ None → MayUpdate scope (part_of core.now) 1 → ⊥ }
{
    if !core.pipe.is_ready(scope) {
        return None;
    }
    let centre = core.pipe.centre(scope);
    if waits(&core.numbers, centre) {
        Some(centre)
    } else {
        None
    }
}

/// Whether v is a task that is not pending.
fn waits(numbers: &Numbers, v: Vertex) -> bool
    ensures { result ≡ (task_here numbers.now v.0 && not (pending_here numbers.now v.0)) }
{
    let count = numbers.tasks.count() as usize;
    match numbers.local.place(v) {
        Some(place) if place < count => {
            let own = Vertex(place as u32);
            numbers.tasks.is_task(own) && !numbers.tasks.is_pending(own)
        }
        _ => false,
    }
}
