//! Laws of a store beside the course of a call. Each is the contract of a function that does
//! nothing.
ghost use Rattle.std.specs.Prelude.{List, Option, [], length, ℕ, ◌++◌, ◌∷◌, ◌≡◌};
ghost use Rattle.gl_base.specs.declared.entries.Entry.{Entry};
ghost use Rattle.gl_base.specs.declared.snapshots.Record.{Record};
ghost use Rattle.cluster_step.specs.trace.Traces.{BaseView, Engine, GoesBackWith, HasGoneBack, StoreView, newest_setting};
ghost use Rattle.cluster_step.specs.trace.Events.{HappensInCall};
ghost use Rattle.whole_laws.specs.cluster_records.Recorded.{snapshot_due};
ghost use Rattle.cluster_laws.specs.cluster_runs.Recorded.{shared_of};
ghost use Rattle.recovery.specs.Journals.{NumbersFit, RecordFits, body_bytes};
ghost use Rattle.cluster_step.specs.declared.clusters.events.Event.TheVariants as event;
ghost use Rattle.cluster_step.specs.declared.clusters.events.Lead.TheVariants as lead;
ghost use Rattle.call_laws.specs.whole_calls.Lost.{TakesAway};
ghost use Rattle.engine_runs.specs.stores.Stores.{CallOpening, TraceGoesOn, TraceView, Header, IsTraceNow, IsGoodStore, IsKnownTrace, IsRecordBehind, IsRememberedAt, IsStoredTrace, Setting, as_since, first_cluster, stored_order};

use cluster_step::trace::SavingMachine;

/// A good store keeps up as a call opens; it still does behind events that acknowledge nothing and
/// begin no attempt; and where the record that is due is added and then acknowledged, it does so
/// with that record too. Where all go back it stays as it is, and what was lost grows by what that
/// takes away.
pub fn stores_go_with_traces<M: SavingMachine>()
    ensures opens { (v : TraceView M) (header : Header) (start : List (List ℕ))
        (st : Setting) (o : CallOpening) →
        IsTraceNow M.represents v st o [] (first_cluster st o) →
        IsGoodStore (shared_of st v.failures) header start →
        IsStoredTrace M.represents v header start start [] st o }
    ensures passes { (old new : TraceView M) (header : Header) (start bodies : List (List ℕ))
        (lost : List Entry) (st : Setting) (o : CallOpening) →
        IsRememberedAt old new → TraceGoesOn M.represents (as_since new) new →
        IsStoredTrace M.represents old header start bodies lost st o →
        IsStoredTrace M.represents new header start bodies lost st o }
    ensures grows { (old new : TraceView M) (header : Header) (start bodies : List (List ℕ))
        (lost : List Entry) (made : Record) (st : Setting) (o : CallOpening) →
        new.failures ≡ old.failures → HappensInCall M.represents old (event.Lead lead.Record) new →
        (was : IsStoredTrace M.represents old header start bodies lost st o) →
        o.kept ≡ stored_order start →
        IsRecordBehind st (stored_order bodies) was.cluster.base.order
        (snapshot_due was.cluster.coordinator) made →
        RecordFits made → NumbersFit made → length made.sections.items ≡ header.machines →
        IsStoredTrace M.represents new header start (bodies ++ body_bytes made ∷ []) lost st o }
    ensures returns { (old new : TraceView M) (header : Header) (start bodies : List (List ℕ))
        (lost gone : List Entry) (machines : List M) (engine : Engine) (store : Option StoreView)
        (st : Setting) (o : CallOpening) (base : BaseView) →
        new.failures ≡ old.failures → HasGoneBack M.represents old machines engine store new →
        (was : IsStoredTrace M.represents old header start bodies lost st o) →
        GoesBackWith M.represents old machines engine store st o was.events was.cluster base →
        TakesAway (newest_setting st o was.events) was.cluster base gone →
        IsStoredTrace M.represents new header start bodies (lost ++ gone) st o }
{}

/// What is known of a store is still known behind events that acknowledge nothing and begin no
/// attempt.
pub fn stores_stay_known<M: SavingMachine>()
    ensures { (old new : TraceView M) (header : Header) (start bodies : List (List ℕ))
        (lost stored front order : List Entry) (st : Setting) (o : CallOpening) →
        IsRememberedAt old new → TraceGoesOn M.represents (as_since new) new →
        IsKnownTrace M.represents old header start bodies lost stored front order st o →
        IsKnownTrace M.represents new header start bodies lost stored front order st o }
{}
