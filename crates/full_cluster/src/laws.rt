//! Laws of locks and machines, as a cluster of `full_laws` has them. Each is the contract of a
//! function that does nothing.
ghost use Rattle.std.specs.Prelude.{◌≡◌, ℕ, ◌<◌, Bool, List, length, ◌∷◌};
ghost use Rattle.gl_base.specs.declared.scopes.ScopeId.{ScopeId};
ghost use Rattle.graph_core.specs.DataGraph.{size};
ghost use Rattle.cluster_laws.specs.cluster_core.Settings.{IsSetting, Setting};
ghost use Rattle.full_scope.specs.FullUpdates.{FullUpdate};
ghost use Rattle.full_laws.specs.FullActions.{HasFirstFull, MayGrantFull};
ghost use Rattle.full_laws.specs.FullEffects.{locks_full, released_full};
ghost use Rattle.full_laws.specs.FullParts.{FullPart};
ghost use Rattle.full_laws.specs.FullReplays.{IsFullCoherent};
ghost use Rattle.full_laws.specs.FullWorlds.{FullWorld};
ghost use Rattle.full_cluster.specs.declared.locks.WholeLock.{WholeLock};
ghost use Rattle.full_cluster.specs.declared.machines.FullMachine.{FullMachine};
ghost use Rattle.full_cluster.specs.declared.messages.FullMessage.{FullMessage};
ghost use Rattle.full_cluster.specs.declared.queues.FullQueue.{FullQueue};
ghost use Rattle.full_cluster.specs.FullMachines.{AreStandsWithin, AskForIt, GivesWhatItHolds, IsMachineOf, IsNextNew, IsReceivable};
ghost use Rattle.full_cluster.specs.FullQueues.{AreQueuesOf, IsFirstIn};
ghost use Rattle.full_cluster.specs.Updating.{IsReadyIfAny, IsUpdatable};
ghost use Rattle.full_cluster.specs.WholeLocks.{IsFreed, IsGrantedTo, IsLockOf, IsUngrantable};

/// A lock is granted just where its machine may grant it, and then is as the machine's is. If it is
/// released, it is so too.
pub fn whole_locks_are_a_machines()
    ensures granted { (st : Setting) (a x : ℕ) (part : FullPart)
        (old new : WholeLock) (s : ScopeId) →
        x < size st.graph → st.owner x ≡ a → IsLockOf old (part.holds x) (part.queue x) →
        IsGrantedTo old new s → (may : MayGrantFull st a x part) × (may.scope ≡ s)
        × (let after = locks_full x s may.behind part in
        IsLockOf new (after.holds x) (after.queue x)) }
    ensures not_now { (st : Setting) (a x : ℕ) (part : FullPart) (lock : WholeLock) →
        IsLockOf lock (part.holds x) (part.queue x) → IsUngrantable lock →
        MayGrantFull st a x part → ⊥ }
    ensures freed { (part : FullPart) (x : ℕ) (old new : WholeLock) (s : ScopeId) →
        IsLockOf old (part.holds x) (part.queue x) → IsFreed old new s →
        IsLockOf new (released_full s part.holds x) (part.queue x) }
{}

/// In a coherent cluster whoever waits first for a lock stands before it, as `grant` supposes. And
/// where a scope stands, the locks and machines to which it may go on are there, as `grant`
/// requires.
pub fn coherent_machines_may_grant()
    ensures asks { (st : Setting) (p : FullUpdate) (w : FullWorld) → IsFullCoherent st p w →
        (x : ℕ) → AskForIt (w.part (st.owner x)) x }
    ensures within { (st : Setting) (p : FullUpdate) (w : FullWorld) (m : FullMachine) →
        IsSetting st → IsFullCoherent st p w → IsMachineOf st m (w.part m.me.0) →
        length m.out.queues.items ≡ st.machines → AreStandsWithin m }
{}

/// In a coherent cluster what the first message of a link names is there, and a scope that comes
/// with it doesn't stand at the machine yet, as `deliver` requires.
pub fn coherent_machines_may_receive()
    ensures { (st : Setting) (p : FullUpdate) (w : FullWorld) (m : FullMachine) (from : ℕ)
        (queues : List FullQueue) (message : FullMessage) →
        IsSetting st → IsFullCoherent st p w → IsMachineOf st m (w.part m.me.0) →
        length m.out.queues.items ≡ st.machines → AreQueuesOf st queues (w.link from) →
        IsFirstIn queues m.me.0 message → IsReceivable m message }
{}

/// In a coherent cluster a scope whose update is given to a machine holds no lock there but those of
/// vertices of which it gives the number, as `deliver` supposes.
pub fn coherent_machines_may_deliver()
    ensures { (st : Setting) (p : FullUpdate) (w : FullWorld) → IsFullCoherent st p w →
        (from a : ℕ) (has : HasFirstFull (w.link from a)) →
        GivesWhatItHolds st (w.part a) has.message }
{}

/// In a coherent cluster the scope that a machine admits next is new to it, as `admit` requires.
pub fn coherent_machines_may_admit()
    ensures { (st : Setting) (p : FullUpdate) (w : FullWorld) (m : FullMachine) →
        IsFullCoherent st p w → IsMachineOf st m (w.part m.me.0) → IsNextNew m }
{}

/// In a coherent cluster a scope that is ready at its home has the numbers of its vertices, and holds
/// no locks there but theirs, as `update` supposes. All vertices that it names are there, as
/// `update` requires.
pub fn coherent_machines_may_update()
    ensures ready { (st : Setting) (p : FullUpdate) (w : FullWorld) → IsFullCoherent st p w →
        (s : ScopeId) → IsReadyIfAny st s.home.0 s (w.part s.home.0) }
    ensures updatable { (st : Setting) (p : FullUpdate) (w : FullWorld) (m : FullMachine)
        (s : ScopeId) → IsSetting st → IsFullCoherent st p w →
        IsMachineOf st m (w.part m.me.0) → s.home ≡ m.me → IsUpdatable m s (size st.graph) }
{}
