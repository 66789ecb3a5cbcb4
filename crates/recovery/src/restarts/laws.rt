//! A law of the restarts that a store has. It is the contract of a function that does nothing.
ghost use Rattle.std.specs.Prelude.{◌≡◌, ℕ, Bool, List, filter};
ghost use Rattle.gl_base.specs.declared.entries.Entry.{Entry};
ghost use Rattle.gl_base.specs.declared.jobs.FailureAt.{FailureAt};
ghost use Rattle.recovery.specs.restarts.Missing.{Begins, Setting, is_restart};
ghost use Rattle.cluster_laws.specs.cluster_core.Recovering.{going_on};
ghost use Rattle.cluster_laws.specs.cluster_model.Clusters.{BaseView, Cluster};
ghost use Rattle.cluster_laws.specs.cluster_model.Events.{Event, recovers};
ghost use Rattle.store.specs.declared.store_format.header.Header.{Header};
ghost use Rattle.recovery.specs.records.Keeping.{KeepsUp, fronts_in, recorded_in, stored_order};
ghost use Rattle.call_laws.specs.whole_calls.Opened.{IsTraceOfCall};

/// A store that keeps up with a call has no restart but those of the order that the newest attempt
/// began with, and these in the same turn, the first first. So it may be told which it lacks.
pub fn stored_restarts_come_first()
    ensures { (st : Setting) (failures : List FailureAt) (kept : List Entry) (resumed : Bool)
        (base : BaseView) (first : Cluster) (events : List Event) (c : Cluster)
        (header : Header) (start bodies : List (List ℕ)) →
        IsTraceOfCall st failures kept resumed base first events c → kept ≡ stored_order start →
        KeepsUp st failures header start
        (fronts_in (going_on st base.numbers base.number) (recovers st base first) events)
        (recorded_in (going_on st base.numbers base.number) (recovers st base first) events)
        bodies →
        Begins (filter is_restart (stored_order bodies)) (filter is_restart c.base.order) }
{}
