//! What an update gives the other machines of its scope.
ghost use Rattle.std.specs.Prelude.{◌≡◌, ◌≢◌, ℕ, ◌<◌, ◌+◌, ◌==◌, ◌&&◌, not, List, Bool, Some, length, slice_index_or, All, IfOk, OnOk};
ghost use Rattle.graph_core.specs.DataGraph.{size};
ghost use Rattle.graph_core.specs.Halves.{halves_of};
ghost use Rattle.seq_run.specs.States.{GraphState, is_woken};
ghost use Rattle.cluster_laws.specs.cluster_core.Settings.{IsSetting, Setting};
ghost use Rattle.full_scope.specs.FullStates.{after_full, full_wakes};
ghost use Rattle.full_scope.specs.FullUpdates.{FullUpdate};
ghost use Rattle.full_laws.specs.FullEffects.{gift_for, gives};
ghost use Rattle.full_laws.specs.FullMessages.{FullMessage as ModelMessage, Gift};
ghost use Rattle.full_cluster.specs.FullQueues.{AreQueuesOf, HasRoomFor};
ghost use Rattle.full_cluster.specs.Given.{IsDividedAs};
ghost use Rattle.full_cluster.specs.Updating.{is_other, AreGiftsTo, HasGift, HaveRoomFor};
ghost use Rattle.full_cluster.specs.Inner.Gifts.{IsToldBelow};
ghost use Rattle.full_cluster.specs.declared.giving.FullGift.{FullGift};
ghost use Rattle.full_cluster.specs.Inner.Making.{IsMade};

use crate::updates::MadeUpdate;
use crate::{Division, FullGift, FullMessage, FullQueues};
use gl_base::{MachineNo, NoMemory, ScopeId, Vertex};
use std::alloc::Global;

/// What the update of v gives each of so many machines, in the place of its number: the others in
/// the scope of v have a gift there. The owners are below `machines`.
pub(crate) fn gifts_of(
    alloc: Global,
    division: &Division<'_>,
    machines: u16,
    v: Vertex,
    made: &MadeUpdate,
) -> Result<Vec<Option<FullGift>>, NoMemory>
    requires vertex { v.0 < size division.now.graph.now }
    requires low { All (λ m. m.0 < machines) division.now.owner.now }
    requires row { let many = length (halves_of division.now.graph.now v.0) in
        length made.now.row.items ≡ many + many }
    ensures count { IfOk result (λ gifts. length gifts.items ≡ machines) }
    ensures given { (st : Setting) (p : FullUpdate) (lent : GraphState) →
        IsDividedAs st division.now → let after = after_full st.graph p lent v.0 in
        IsMade st.graph after v.0 made.now.centre made.now.row.items →
        ((u : ℕ) → full_wakes st.graph p lent v.0 u
        ≡ is_woken made.now.woken (halves_of st.graph v.0) u) →
        IfOk result (λ gifts.
        AreGiftsTo st v.0 (st.owner v.0) (gift_for st p lent v.0) gifts.items) }
{
    let marks = division.machine_marks(alloc, v, machines)?;
    let mut gifts = Vec::new(alloc);
    for q in 0..machines {
        let gift = gift_to(alloc, division, v, made, MachineNo(q), marks[q as usize])?;
        gifts.push(gift)?;
    }
    Ok(gifts)
}

/// What the update of v gives a machine, if that is in the scope of v, as this says, and another one
/// made the update.
fn gift_to(
    alloc: Global,
    division: &Division<'_>,
    v: Vertex,
    made: &MadeUpdate,
    to: MachineNo,
    takes_part: bool,
) -> Result<Option<FullGift>, NoMemory>
    requires vertex { v.0 < size division.now.graph.now }
    requires row { let many = length (halves_of division.now.graph.now v.0) in
        length made.now.row.items ≡ many + many }
    ensures { (st : Setting) (p : FullUpdate) (lent : GraphState) →
        IsDividedAs st division.now → let after = after_full st.graph p lent v.0 in
        IsMade st.graph after v.0 made.now.centre made.now.row.items →
        ((u : ℕ) → full_wakes st.graph p lent v.0 u
        ≡ is_woken made.now.woken (halves_of st.graph v.0) u) →
        IfOk result (HasGift st (takes_part && not (to.0 == st.owner v.0))
        (gift_for st p lent v.0 to.0)) }
{
    if !takes_part || to.0 == division.owner_of(v).0 {
        return Ok(None);
    }
    let gift = made.give(alloc, division, v, to)?;
    Ok(Some(gift))
}

/// Makes room for what each machine is given. The messages stay, whatever the answer.
pub(crate) fn reserve_gifts(
    out: &mut FullQueues,
    gifts: &[Option<FullGift>],
) -> Result<(), NoMemory>
    requires few { length gifts.now < 65536 }
    requires inside { length gifts.now ≡ length out.old.queues.items }
    ensures count { length out.new.queues.items ≡ length out.old.queues.items }
    ensures room { OnOk result (HaveRoomFor out.new.queues.items gifts.now) }
    ensures same { (st : Setting) (waits : ℕ → List ModelMessage) →
        AreQueuesOf st out.old.queues.items waits → AreQueuesOf st out.new.queues.items waits }
{
    for q in 0..gifts.len() {
        if gifts[q].is_some() {
            out.reserve(MachineNo(q as u16))?;
        }
    }
    Ok(())
}

/// Each machine is told what it is given. It takes no memory.
pub(crate) fn send_gifts(out: &mut FullQueues, scope: ScopeId, mut gifts: Vec<Option<FullGift>>)
    requires few { length gifts.items < 65536 }
    requires inside { length gifts.items ≡ length out.old.queues.items }
    requires room { HaveRoomFor out.old.queues.items gifts.items }
    ensures count { length out.new.queues.items ≡ length out.old.queues.items }
    ensures sent { (st : Setting) (v a : ℕ) (given : ℕ → Gift) (waits : ℕ → List ModelMessage) →
        IsSetting st → st.machines ≡ length gifts.items →
        AreQueuesOf st out.old.queues.items waits → AreGiftsTo st v a given gifts.items →
        AreQueuesOf st out.new.queues.items (gives st a v scope given waits) }
{
    for q in 0..gifts.len() {
        let gift = gifts[q].take();
        send_gift(out, scope, MachineNo(q as u16), gift);
    }
}

/// The machine is told what it is given, if it is given something.
fn send_gift(out: &mut FullQueues, scope: ScopeId, to: MachineNo, gift: Option<FullGift>)
    requires inside { to.0 < length out.old.queues.items }
    requires room { (one : FullGift) → gift ≡ Some one → HasRoomFor out.old.queues.items to.0 }
    ensures count { length out.new.queues.items ≡ length out.old.queues.items }
    ensures kept { (q : ℕ) → q ≢ to.0 → HasRoomFor out.old.queues.items q →
        HasRoomFor out.new.queues.items q }
    ensures told { (st : Setting) (v a : ℕ) (given : ℕ → Gift) (waits : ℕ → List ModelMessage) →
        IsToldBelow st v a scope given waits out.old.queues.items to.0 →
        HasGift st (is_other st v a to.0) (given to.0) gift →
        IsToldBelow st v a scope given waits out.new.queues.items (to.0 + 1) }
{
    match gift {
        Some(gift) => out.put(to, FullMessage::Give { scope, gift }),
        None => (),
    }
}
