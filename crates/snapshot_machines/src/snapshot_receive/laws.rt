//! Laws of what comes to a machine that takes snapshots. Each is the contract of a function that
//! does nothing.
ghost use Rattle.std.specs.Prelude.{ℕ, ◌<◌, List};
ghost use Rattle.gl_base.specs.declared.numbers.MachineNo.{MachineNo};
ghost use Rattle.gl_base.specs.declared.numbers.Vertex.{Vertex};
ghost use Rattle.gl_base.specs.declared.scopes.ScopeId.{ScopeId};
ghost use Rattle.wire.specs.declared.wire_msgs.messages.Done.{Done};
ghost use Rattle.machine_core.specs.declared.machine_parts.cores.Core.{Core};
ghost use Rattle.snapshot_machines.specs.snapshot_receive.Coming.{AreMachinesFor, Ask, CanBecomeReady, CanLearnNews, Cluster, IsFrontFor, Done as DoneOf, IsNewAt, Ready, Setting, SnapView, machine_numbers, news_of, no_word};

/// A scope that asks for its locks is new at the machine, and the machines still to come are of the
/// cluster.
pub fn asks_come_new()
    ensures is_new { (st : Setting) (c : Cluster) (p : ℕ) (m : Core) (w : SnapView) (s : ScopeId)
        (centre : Vertex) (rest : List ℕ) →
        IsFrontFor st c p m w (Ask s centre.0 rest) → IsNewAt m s centre }
    ensures machines { (st : Setting) (c : Cluster) (p : ℕ) (m : Core) (w : SnapView) (s : ScopeId)
        (centre : Vertex) (rest : List MachineNo) →
        IsFrontFor st c p m w (Ask s centre.0 (machine_numbers rest)) → AreMachinesFor m s rest }
{}

/// A scope of which word comes that it has all its locks is of this home, in flight and not ready,
/// and holds its locks here.
pub fn readies_come_home()
    ensures { (st : Setting) (c : Cluster) (p : ℕ) (m : Core) (w : SnapView) (s : ScopeId) →
        IsFrontFor st c p m w (Ready s) → CanBecomeReady m s }
{}

/// Word of an update elsewhere can be learned, be it a snapshot update or not.
pub fn news_can_be_learned()
    ensures { (st : Setting) (c : Cluster) (p : ℕ) (m : Core) (w : SnapView) (done : Done) →
        IsFrontFor st c p m w (DoneOf done.scope (news_of done)) → CanLearnNews m done }
{}

/// Nothing comes but what machines tell each other.
pub fn nothing_else_comes()
    ensures { (st : Setting) (c : Cluster) (p : ℕ) (m : Core) (w : SnapView) →
        m.numbers.local.me.0 < 65536 → IsFrontFor st c p m w no_word → ⊥ }
{}
