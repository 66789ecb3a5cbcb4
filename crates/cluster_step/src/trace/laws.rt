//! Laws of courses. Each is the contract of a function that does nothing.
ghost use Rattle.std.specs.Prelude.{List, [], ◌++◌, ◌∷◌, ◌≡◌};
ghost use Rattle.gl_base.specs.declared.entries.Entry.{Entry};
ghost use Rattle.cluster_step.specs.trace.Traces.{ArePassing, BaseView, CallOpening, Cluster, Setting, first_cluster, first_setting, newest_setting};
ghost use Rattle.cluster_laws.specs.cluster_model.Events.{Event, IsTrace, Record, Recover};
ghost use Rattle.whole_laws.specs.cluster_records.Recorded.{snapshot_due};
ghost use Rattle.call_laws.specs.whole_calls.Lost.{AreLostIn, TakesAway};
ghost use Rattle.call_laws.specs.whole_calls.Saved.{fronts_in, recorded_in};

/// What events add to the snapshots that were acknowledged, with the orders that their attempts
/// began with, and to what recoveries took away: passing events add nothing, an acknowledgement
/// adds the snapshot that was due, and going back adds what it takes away.
pub fn traces_add_up()
    ensures passing { (st : Setting) (o : CallOpening) (events more : List Event)
        (lost : List Entry) → ArePassing more →
        AreLostIn (first_setting st o) (first_cluster st o) events lost →
        (recorded_in (first_setting st o) (first_cluster st o) (events ++ more) ≡ recorded_in
        (first_setting st o) (first_cluster st o) events)
        × (fronts_in (first_setting st o) (first_cluster st o) (events ++ more) ≡ fronts_in
        (first_setting st o) (first_cluster st o) events)
        × AreLostIn (first_setting st o) (first_cluster st o) (events ++ more) lost }
    ensures records { (st : Setting) (o : CallOpening) (events : List Event) (c : Cluster)
        (lost : List Entry) → IsTrace (first_setting st o) (first_cluster st o) events c →
        AreLostIn (first_setting st o) (first_cluster st o) events lost →
        (recorded_in (first_setting st o) (first_cluster st o) (events ++ Record ∷ []) ≡ recorded_in
        (first_setting st o) (first_cluster st o) events ++ snapshot_due c.coordinator ∷ [])
        × (fronts_in (first_setting st o) (first_cluster st o) (events ++ Record ∷ []) ≡ fronts_in
        (first_setting st o) (first_cluster st o) events ++ c.base.order ∷ [])
        × AreLostIn (first_setting st o) (first_cluster st o) (events ++ Record ∷ []) lost }
    ensures recoveries { (st : Setting) (o : CallOpening) (events : List Event) (c : Cluster)
        (base : BaseView) (lost gone : List Entry) →
        IsTrace (first_setting st o) (first_cluster st o) events c →
        AreLostIn (first_setting st o) (first_cluster st o) events lost →
        TakesAway (newest_setting st o events) c base gone →
        (recorded_in (first_setting st o) (first_cluster st o) (events ++ Recover base ∷ []) ≡
        recorded_in (first_setting st o) (first_cluster st o) events)
        × (fronts_in (first_setting st o) (first_cluster st o) (events ++ Recover base ∷ []) ≡
        fronts_in (first_setting st o) (first_cluster st o) events)
        × AreLostIn (first_setting st o) (first_cluster st o)
        (events ++ Recover base ∷ []) (lost ++ gone) }
{}
