//! A worked example. It is the contract of a function that does nothing.
ghost use Rattle.std.specs.Prelude.{None, Some, [], false, ◌+◌, ◌∷◌, ◌≡◌};
ghost use Rattle.gl_base.specs.declared.entries.Entry.TheVariants.{Go};
ghost use Rattle.whole_laws.specs.cluster_ending.FourWaves.{first_base, fresh_cluster};
ghost use Rattle.cluster_laws.specs.cluster_model.Events.{entries_below};
ghost use Rattle.cluster_laws.specs.cluster_model.Leading.{RecordIsDue};
ghost use Rattle.whole_laws.specs.cluster_records.Recorded.{snapshot_due};
ghost use Rattle.call_laws.specs.each_saved_once.EdgeSaved.{both_come, pair_saves_once, pair_with_store};
ghost use Rattle.call_laws.specs.whole_calls.Opened.{IsTraceOfCall};

/// Two machines with a vertex each and an edge between them, with a window of 1. The first vertex
/// is updated, its machine asks for a snapshot, and both vertices are marked, the first one first.
/// The premises of the laws are met: a record is due. Machine 0 saved the edge, and machine 1, to
/// which word of the first mark had come, did not. The snapshot brings the one update, and one of
/// the 20 tickets was drawn.
pub fn an_edge_in_one_section()
    ensures premises { IsTraceOfCall pair_with_store [] [] false (first_base pair_with_store)
        (fresh_cluster pair_with_store) pair_saves_once both_come }
    ensures due { RecordIsDue pair_with_store both_come.coordinator }
    ensures sections { (((snapshot_due both_come.coordinator).sections 0).section.edges 0 ≡
        Some 0) × (((snapshot_due both_come.coordinator).sections 1).section.edges 0 ≡ None) }
    ensures entries { entries_below 2 (snapshot_due both_come.coordinator) ≡ Go (record { 0 = 0 })
        (record { 0 = 0 }) 0 ∷ [] }
    ensures tickets { (both_come.next ≡ 1) × (both_come.left ≡ 19) }
{}
