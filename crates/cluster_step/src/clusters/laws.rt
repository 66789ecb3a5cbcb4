//! A law of bases. It is the contract of a function that does nothing.
ghost use Rattle.std.specs.Prelude.{List};
ghost use Rattle.cluster_laws.specs.cluster_core.Recovering.{going_on};
ghost use Rattle.cluster_laws.specs.cluster_core.Settings.{IsSetting, Setting};
ghost use Rattle.cluster_laws.specs.cluster_model.Clusters.{BaseView, Cluster};
ghost use Rattle.cluster_laws.specs.cluster_model.Events.{Event, IsTrace, recovers};
ghost use Rattle.whole_laws.specs.cluster_records.Bases.{IsBase};
ghost use Rattle.whole_laws.specs.cluster_whole.Whole.{AreColoured, setting_behind};
ghost use Rattle.cluster_step.specs.clusters.Cuts.{HasGoodBase};

/// In a call that began with a good base each attempt goes on from a good one, whatever failures
/// and recoveries are among its events. So what is said of an attempt's base and updates is said of
/// all attempts: the base's order has the restarts and what the snapshots kept.
pub fn bases_stay_good()
    ensures { (st : Setting) (base : BaseView) (first c : Cluster) (events : List Event) →
        IsSetting st → AreColoured st st.engine → IsBase st base first.next →
        IsTrace (going_on st base.numbers base.number) (recovers st base first) events c →
        HasGoodBase (setting_behind (going_on st base.numbers base.number) events) c }
{}
