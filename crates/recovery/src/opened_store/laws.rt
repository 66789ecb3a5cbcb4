//! Laws of how a call opens. Each is the contract of a function that does nothing.
ghost use Rattle.std.specs.Prelude.{◌≡◌, ◌⊎◌, ℕ, Bool, true, false, List, [], length};
ghost use Rattle.gl_base.specs.declared.entries.Entry.{Entry};
ghost use Rattle.gl_base.specs.declared.jobs.FailureAt.{FailureAt};
ghost use Rattle.gl_base.specs.declared.snapshots.Base.{Base};
ghost use Rattle.recovery.specs.opened_store.Opening.{AreJobFailures, AreNumbers, BaseView, Cluster, IsBase, IsGoodBase, IsOpened, Setting, base_numbers, base_opened, cluster_before, shared_of, size, ticket_above};

/// From a good base a call opens, resumed or not, before whose first attempt no machine has done
/// anything. What the law sees of its numbers are those that it has.
pub fn good_bases_open_calls()
    ensures opened { (st : Setting) (failures : List FailureAt) (resumed : Bool)
        (base : Base) (left store_end : ℕ) →
        IsGoodBase (shared_of st failures) base → AreJobFailures st.machines failures →
        (resumed ≡ true) ⊎ ((resumed ≡ false) × (base.order.items ≡ [])) →
        IsOpened st failures base.order.items resumed (base_opened resumed base)
        (cluster_before st (ticket_above base.order.items) left store_end) }
    ensures vertices { (st : Setting) (failures : List FailureAt) (base : Base) →
        IsGoodBase (shared_of st failures) base →
        AreNumbers (size st.graph) (base_numbers base).vertex base.values.items }
    ensures edges { (st : Setting) (failures : List FailureAt) (base : Base) →
        IsGoodBase (shared_of st failures) base →
        AreNumbers (length st.graph.edges) (base_numbers base).edge base.edges.items }
{}

/// A call opens with a base of the law: its order is valid, stands by ticket and leaves every
/// vertex a task, and its numbers are its replay.
pub fn calls_open_with_bases()
    ensures { (st : Setting) (failures : List FailureAt) (kept : List Entry) (resumed : Bool)
        (base : BaseView) (first : Cluster) →
        IsOpened st failures kept resumed base first → IsBase st base first.next }
{}
