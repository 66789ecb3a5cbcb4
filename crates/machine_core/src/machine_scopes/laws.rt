//! Laws about what comes to a machine, for every setting of a cluster. Each is the contract of a
//! function that does nothing.
ghost use Rattle.std.specs.Prelude.{◌≡◌, ℕ, ◌<◌, true, Some, is_some, List};
ghost use Rattle.gl_base.specs.declared.numbers.MachineNo.{MachineNo};
ghost use Rattle.gl_base.specs.declared.numbers.Vertex.{Vertex};
ghost use Rattle.gl_base.specs.declared.scopes.ScopeId.{ScopeId};
ghost use Rattle.machine_core.specs.declared.machine_parts.cores.Core.{Core};
ghost use Rattle.machine_core.specs.machine_scopes.Asking.{IsAtHome, Setting, IsSetting, IsPartOf, IsOrderly, MayAsk, MayBecomeReady, IsNewAt, AreMachinesFor, CanBecomeReady, part_of, machine_numbers, flight_at, holder_at, is_in_scope};

/// A scope that may ask for its locks at a machine, as the cluster has it, is new there, and the
/// machines still to come are of the cluster. So is its home, where that owns its centre.
pub fn asks_are_new()
    ensures is_new { (st : Setting) (m : Core) (s : ScopeId) (centre : Vertex) (rest : List ℕ) →
        IsSetting st → IsPartOf st m → IsOrderly m →
        MayAsk st m.numbers.local.me.0 (part_of m) s centre.0 rest → IsNewAt m s centre }
    ensures machines { (st : Setting) (m : Core) (s : ScopeId) (centre : Vertex)
        (rest : List MachineNo) → IsSetting st → IsPartOf st m → s.home.0 < st.machines →
        MayAsk st m.numbers.local.me.0 (part_of m) s centre.0 (machine_numbers rest) →
        AreMachinesFor m s rest }
    ensures home { (st : Setting) (s : ScopeId) (v : ℕ) → IsSetting st → IsAtHome st s v →
        s.home.0 < st.machines }
{}

/// A scope that may become ready, as the cluster has it, can do so at its home, where it holds its
/// locks there.
pub fn words_come_home()
    ensures { (st : Setting) (m : Core) (s : ScopeId) → IsPartOf st m → IsOrderly m →
        MayBecomeReady m.numbers.local.me.0 (part_of m) s →
        ((centre : Vertex) (x : ℕ) → flight_at m.pipe s ≡ Some centre →
        is_in_scope st centre.0 x ≡ true → st.owner x ≡ m.numbers.local.me.0 →
        is_some (holder_at m.locks x s) ≡ true) →
        CanBecomeReady m s }
{}
