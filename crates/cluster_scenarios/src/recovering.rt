//! All machines go back to the newest snapshot.
use crate::beginnings::{Beginning, begin_again};
use crate::replays::Numbers;
use crate::restarts::missing_of;
use crate::scenes::{Kept, Scene};
use crate::stores::{Store, opened_again};
use crate::trouble::Trouble;
use cluster_step::clusters::{SavingMachine, SnapCluster};
use gl_base::{Base, MachineNo};
use recovery::recover;
use recovery::restarts::{base_behind, count_failed};
use std::alloc::Global;
use update_api::Program;

/// Lets all machines go back to the newest snapshot, with a restart for each that has failed, if
/// one has. Returns whether one had. If values are given, the vertices have these in place of the
/// snapshot's, and replays begin with them from then on.
pub fn go_back<P: Program>(
    alloc: Global,
    scene: &mut Scene<'_, P>,
    values: &[u64],
) -> Result<bool, Trouble> {
    let failures = failures_of(alloc, &scene.whole)?;
    if failures == 0 {
        return Ok(false);
    }
    let base = base_behind_failures(alloc, scene, values, failures)?;
    let outcome = begin_again(alloc, scene.beginning, &base, &mut scene.whole);
    drop(base);
    outcome
}

/// Returns how many machines have failed.
fn failures_of<M: SavingMachine>(alloc: Global, whole: &SnapCluster<M>) -> Result<usize, Trouble> {
    let mut flags = Vec::new(alloc);
    for m in 0..whole.machines() {
        flags.push(whole.has_failed(MachineNo(m as u16)))?;
    }
    Ok(count_failed(&flags))
}

/// Returns the newest snapshot with these values, if there are some, and with the restarts that the
/// store lacks.
fn base_behind_failures<P: Program>(
    alloc: Global,
    scene: &mut Scene<'_, P>,
    values: &[u64],
    failures: usize,
) -> Result<Base, Trouble> {
    let mut base = newest_base(alloc, scene.beginning, &mut scene.kept)?;
    if let Err(trouble) = prepare(alloc, scene, &mut base, values, failures) {
        drop(base);
        return Err(trouble);
    }
    Ok(base_behind(base, &scene.kept.lacking)?)
}

/// Puts the values into the base, if there are some, and keeps the restarts that the store lacks
/// behind it.
fn prepare<P: Program>(
    alloc: Global,
    scene: &mut Scene<'_, P>,
    base: &mut Base,
    values: &[u64],
    failures: usize,
) -> Result<(), Trouble> {
    if base.number != scene.whole.stored() {
        return Err(Trouble::Because("another snapshot is the store's last"));
    }
    if !values.is_empty() {
        base.values = Vec::from_slice(alloc, values)?;
        scene.kept.first = Numbers::of(alloc, base)?;
        scene.kept.order.clear();
    }
    scene.kept.lacking = missing_of(alloc, &scene.kept, failures, scene.whole.next())?;
    Ok(())
}

/// Returns the newest snapshot of the store, or the start, which has to be what is known of it.
pub fn newest_base<P: Program>(
    alloc: Global,
    beginning: &Beginning<'_, P>,
    kept: &mut Kept,
) -> Result<Base, Trouble> {
    let base = recovered(alloc, beginning, &mut kept.store)?;
    if let Err(trouble) = is_newest(&base, kept) {
        drop(base);
        return Err(trouble);
    }
    Ok(base)
}

/// Returns what the store tells, which is opened again.
fn recovered<P: Program>(
    alloc: Global,
    beginning: &Beginning<'_, P>,
    kept: &mut Option<Store>,
) -> Result<Base, Trouble> {
    let mut store = opened_again(alloc, kept)?;
    let base = recover(alloc, &mut store, beginning.graph, &beginning.program);
    *kept = Some(store);
    match base {
        Ok(base) => Ok(base),
        Err(_) => Err(Trouble::Because("the store tells no snapshot")),
    }
}

/// Looks whether the base has the order and the numbers that are known of the newest snapshot.
fn is_newest(base: &Base, kept: &Kept) -> Result<(), Trouble> {
    if base.order.as_slice() != kept.order.as_slice() {
        return Err(Trouble::Because("the store has another order"));
    }
    if base.values.as_slice() != kept.newest.values.as_slice()
        || base.edges.as_slice() != kept.newest.edges.as_slice()
    {
        return Err(Trouble::Because("the store has other numbers"));
    }
    Ok(())
}
