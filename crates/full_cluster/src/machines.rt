//! What a machine holds whose updates write their whole scopes.
ghost use Rattle.std.specs.Prelude.{◌≡◌, ℕ, ◌+◌, ◌<◌, None, [], length, map, slice_get, vec_len, All};
ghost use Rattle.std.specs.Vec.{vec_capacity};
ghost use Rattle.cluster_laws.specs.cluster_core.Settings.{Setting};
ghost use Rattle.full_laws.specs.FullEffects.{leaves_full, passes_full, received_full};
ghost use Rattle.full_laws.specs.FullMessages.{Gift, Give, Home};
ghost use Rattle.full_laws.specs.FullParts.{FullPart};
ghost use Rattle.full_cluster.specs.Given.{IsGift};
ghost use Rattle.full_cluster.specs.FullMachines.{stood_up, AsksNextFrom, HasRoomToGoOn, HasRoomToLeave, HoldsAlong, IsMachineOf, IsSameMachine};
ghost use Rattle.full_cluster.specs.FullQueues.{seen_in};
ghost use Rattle.full_cluster.specs.ScopeMaps.{value_of, AreOnce};

use crate::{FullGift, FullMessage, FullQueues, KeptNumbers, ScopeMap, WholeLocks};
use gl_base::{Entry, MachineNo, ScopeId, Vertex};

/// Where a scope stands that waits for a lock at a machine: `part` has the machine's vertices in
/// the scope in the order of their locks, and `place` says for which it waits. The machines `rest`
/// are still to come, and `seen` has what it gathered so far.
#[derive(Drop)]
pub struct ScopeStand {
    pub centre: Vertex,
    pub part: Vec<Vertex>,
    pub place: usize,
    pub rest: Vec<MachineNo>,
    pub seen: Vec<(Vertex, u64)>,
}

/// A machine: its numbers and tasks, the locks of its vertices, its log, the centres of the scopes
/// that it admitted and that are in flight, the scopes that wait for locks here, those that have
/// all their locks, and what waits to be sent.
#[derive(Drop)]
pub struct FullMachine {
    pub me: MachineNo,
    pub kept: KeptNumbers,
    pub locks: WholeLocks,
    pub log: Vec<Entry>,
    pub serial: u64,
    pub flying: u64,
    pub flights: ScopeMap<Vertex>,
    pub stands: ScopeMap<ScopeStand>,
    pub ready: ScopeMap<Vec<(Vertex, u64)>>,
    pub out: FullQueues,
}

impl ScopeStand {
    /// The vertex whose lock the scope waits for; `None` where it has all locks here.
    pub(crate) fn next(&self) -> Option<Vertex>
        ensures { result ≡ slice_get self.now.part.items self.now.place }
    {
        self.part.get(self.place).copied()
    }

    /// The vertex behind that in the order of the locks; `None` where there is none.
    pub(crate) fn after(&self) -> Option<Vertex>
        requires { self.now.place < length self.now.part.items }
        ensures { result ≡ slice_get self.now.part.items (self.now.place + 1) }
    {
        self.part.get(self.place + 1).copied()
    }

    /// The next of the machines that are still to come, if there is one.
    pub(crate) fn next_machine(&self) -> Option<MachineNo>
        ensures { result ≡ slice_get self.now.rest.items 0 }
    {
        self.rest.first().copied()
    }
}

impl FullMachine {
    /// A scope has come home with all its locks, and with what was gathered for it. It takes no
    /// memory.
    pub fn receive_home(&mut self, scope: ScopeId, seen: Vec<(Vertex, u64)>)
        requires room { vec_len self.old.ready.entries < vec_capacity self.old.ready.entries }
        requires once { AreOnce self.old.ready.entries.items }
        ensures still { IsSameMachine self.old self.new }
        ensures received { (st : Setting) (part : FullPart) → IsMachineOf st self.old part →
            IsMachineOf st self.new
            (received_full st self.old.me.0 (Home scope (seen_in seen.items)) part) }
    {
        let _ = self.ready.take(scope);
        self.ready.put(scope, seen);
    }

    /// An update was made elsewhere: the machine takes what it is given, and the scope holds none of
    /// its locks any more. It takes no memory.
    pub fn receive_give(&mut self, scope: ScopeId, gift: &FullGift)
        requires vertices { All (λ pair.
            pair.0.0 < length self.old.kept.numbers.items) gift.now.numbers.items }
        requires edges { All (λ pair.
            pair.0.0 < length self.old.kept.edges.items) gift.now.edges.items }
        requires wakes { All (λ u.
            u.0 < length self.old.kept.tasks.items) gift.now.wakes.items }
        requires locks { All (λ pair.
            pair.0.0 < length self.old.locks.locks.items) gift.now.numbers.items }
        ensures still { IsSameMachine self.old self.new }
        ensures received { (st : Setting) (part : FullPart) (given : Gift) →
            IsMachineOf st self.old part → IsGift st gift.now given →
            HoldsAlong st part scope gift.now.numbers.items →
            IsMachineOf st self.new (received_full st self.old.me.0 (Give scope given) part) }
    {
        self.kept.take(gift);
        self.locks.release(scope, &gift.numbers);
    }

    /// A scope has all its locks: it is ready if this is its home, and else word of that goes there.
    /// It takes no memory.
    fn go_home(&mut self, scope: ScopeId, seen: Vec<(Vertex, u64)>)
        requires room { HasRoomToLeave self.old scope [] }
        requires once { AreOnce self.old.ready.entries.items }
        ensures still { IsSameMachine self.old self.new }
        ensures left { (st : Setting) (part : FullPart) (v : ℕ) → IsMachineOf st self.old part →
            IsMachineOf st self.new
            (leaves_full self.old.me.0 scope v [] (seen_in seen.items) part) }
    {
        if scope.home.0 == self.me.0 {
            self.receive_home(scope, seen);
            return;
        }
        self.out.put(scope.home, FullMessage::Home { scope, seen });
    }

    /// A scope has all its locks here: with what was gathered for it, it goes on to the next of the
    /// machines that are still to come, or home. It takes no memory.
    fn leave(
        &mut self,
        scope: ScopeId,
        centre: Vertex,
        mut rest: Vec<MachineNo>,
        seen: Vec<(Vertex, u64)>,
    )
        requires room { HasRoomToLeave self.old scope rest.items }
        requires once { AreOnce self.old.ready.entries.items }
        ensures still { IsSameMachine self.old self.new }
        ensures left { (st : Setting) (part : FullPart) → IsMachineOf st self.old part →
            IsMachineOf st self.new (leaves_full self.old.me.0 scope centre.0
            (map (λ b. b.0) rest.items) (seen_in seen.items) part) }
    {
        if rest.is_empty() {
            self.go_home(scope, seen);
            return;
        }
        let next = rest.remove(0);
        let message = FullMessage::Gather {
            scope,
            centre,
            rest,
            seen,
        };
        self.out.put(next, message);
    }

    /// A scope goes on from where it stands: it waits for its next lock here, or leaves if it has
    /// all of them. It takes no memory.
    pub(crate) fn go_on(&mut self, scope: ScopeId, stand: ScopeStand)
        requires room { HasRoomToGoOn self.old scope stand }
        requires once { AreOnce self.old.stands.entries.items }
        requires none { value_of self.old.stands.entries.items scope ≡ None }
        requires ready_once { AreOnce self.old.ready.entries.items }
        ensures still { IsSameMachine self.old self.new }
        ensures went { (st : Setting) (part : FullPart) (k : ℕ) →
            AsksNextFrom st self.old.me.0 stand k →
            IsMachineOf st self.old (stood_up scope part) →
            IsMachineOf st self.new (passes_full st self.old.me.0 scope stand.centre.0 k
            (map (λ b. b.0) stand.rest.items) (seen_in stand.seen.items) part) }
    {
        match stand.next() {
            Some(y) => {
                self.locks.wait(y, scope);
                self.stands.put(scope, stand);
            }
            None => {
                let ScopeStand {
                    centre,
                    rest,
                    seen,
                    ..
                } = stand;
                self.leave(scope, centre, rest, seen);
            }
        }
    }
}
