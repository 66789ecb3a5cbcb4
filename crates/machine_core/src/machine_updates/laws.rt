//! Laws about works. Each is the contract of a function that does nothing.
ghost use Rattle.std.specs.Prelude.{◌≡◌, ◌≢◌, ℕ, true, false, None};
ghost use Rattle.local_graph.specs.declared.works.Work.{Work};
ghost use Rattle.wire.specs.declared.wire_msgs.messages.Done.{Done};
ghost use Rattle.cluster_laws.specs.cluster_core.Settings.{IsSetting, is_in_scope, is_near};
ghost use Rattle.partition.specs.machine_numbers.Views.{is_in_update, news_of};
ghost use Rattle.machine_core.specs.declared.machine_parts.cores.Core.{Core};
ghost use Rattle.machine_core.specs.machine_parts.Order.{IsOrderly};
ghost use Rattle.machine_core.specs.machine_parts.Parts.{part_of};
ghost use Rattle.machine_core.specs.machine_parts.Settings.{Setting, IsPartOf};
ghost use Rattle.machine_core.specs.machine_updates.Learning.{IsAtHome, MayLearn, CanLearn};
ghost use Rattle.machine_core.specs.machine_updates.Works.{IsApartFrom, HasItsRow};

/// The update of a vertex changes no number that a work of another vertex holds, where no edge of
/// the graph joins the two.
pub fn works_of_strangers_are_apart()
    ensures { (st : Setting) (m : Core) (u w : Work) → IsSetting st → HasItsRow st m u →
        HasItsRow st m w → w.vertex.0 ≢ u.vertex.0 → is_near st w.vertex.0 u.vertex.0 ≡ false →
        IsApartFrom m u.vertex.0 w }
{}

/// Word of an update that may come in a cluster, as its law has it, can be learned, where it is
/// word of an update of its home and not of a snapshot, its scope stands nowhere here and has no
/// lock here but those of its own vertices, and it wakes neighbours of its centre alone.
pub fn dones_can_be_learned()
    ensures { (st : Setting) (p : ℕ) (m : Core) (done : Done) → IsSetting st → IsPartOf st m →
        IsOrderly m → MayLearn st p m.numbers.local.me.0 (part_of m) done.scope (news_of done) →
        IsAtHome st done.scope done.centre.0 → (part_of m).stand done.scope ≡ None →
        ((x : ℕ) → st.owner x ≡ m.numbers.local.me.0 → is_in_scope st done.centre.0 x ≡ false →
        (part_of m).holder x done.scope ≡ None) →
        ((u : ℕ) → is_in_update done.wakes.items u ≡ true → is_near st done.centre.0 u ≡ true) →
        ((u : ℕ) → is_in_update done.pends.items u ≡ false) → done.number ≡ 0 → CanLearn m done }
{}
