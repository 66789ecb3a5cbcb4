//! Laws of parts that look alike. Each is the contract of a function that does nothing.
ghost use Rattle.std.specs.Prelude.{◌≡◌, ℕ, ◌<◌, List};
ghost use Rattle.gl_base.specs.declared.entries.Entry.{Entry};
ghost use Rattle.gl_base.specs.declared.scopes.ScopeId.{ScopeId};
ghost use Rattle.graph_core.specs.DataGraph.{size};
ghost use Rattle.cluster_laws.specs.known_parts.Alike.{IsSetting, LooksAlike, MayAdmit, MayGrant, MayMark, MaySend, MayUpdate, Message, Part, Setting, admitted, begins, granted, marked, received, updated};

/// Where two parts look alike to a machine, they do when it has admitted a scope, granted a lock,
/// received a message, learned that a snapshot began, or made the update or the snapshot update of
/// an own vertex.
pub fn effects_look_alike()
    ensures admitted { (st : Setting) (a v : ℕ) (one other : Part) → LooksAlike st a one other →
        LooksAlike st a (admitted st a v one) (admitted st a v other) }
    ensures granted { (st : Setting) (a x : ℕ) (one other : Part) → LooksAlike st a one other →
        LooksAlike st a (granted st a x one) (granted st a x other) }
    ensures received { (st : Setting) (a : ℕ) (message : Message) (one other : Part) →
        IsSetting st → LooksAlike st a one other →
        LooksAlike st a (received st a message one) (received st a message other) }
    ensures begun { (st : Setting) (a k : ℕ) (one other : Part) → IsSetting st →
        LooksAlike st a one other → LooksAlike st a (begins st a k one) (begins st a k other) }
    ensures updated { (st : Setting) (a v : ℕ) (s : ScopeId) (entry : Entry) (one other : Part) →
        IsSetting st → v < size st.graph → st.owner v ≡ a →
        LooksAlike st a one other →
        LooksAlike st a (updated st a s v entry one) (updated st a s v entry other) }
    ensures marked { (st : Setting) (a v : ℕ) (s : ScopeId) (one other : Part) → IsSetting st →
        v < size st.graph → st.owner v ≡ a →
        LooksAlike st a one other → LooksAlike st a (marked st a s v one) (marked st a s v other) }
{}

/// And what may happen at one of them may happen at the other.
pub fn guards_look_alike()
    ensures admit { (st : Setting) (a v : ℕ) (one other : Part) → LooksAlike st a one other →
        MayAdmit st a v one → MayAdmit st a v other }
    ensures grant { (st : Setting) (a x : ℕ) (one other : Part) → LooksAlike st a one other →
        MayGrant st a x one → MayGrant st a x other }
    ensures update { (st : Setting) (a left : ℕ) (s : ScopeId) (one other : Part) →
        LooksAlike st a one other → MayUpdate s one left → MayUpdate s other left }
    ensures mark { (st : Setting) (a : ℕ) (s : ScopeId) (one other : Part) →
        LooksAlike st a one other → MayMark s one → MayMark s other }
    ensures send { (st : Setting) (a : ℕ) (one other : Part) → IsSetting st →
        LooksAlike st a one other → MaySend st a one → MaySend st a other }
    ensures turned { (st : Setting) (a : ℕ) (one other : Part) → LooksAlike st a one other →
        LooksAlike st a other one }
{}
