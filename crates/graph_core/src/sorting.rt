//! Sorts lists by a key that no two items have, and finds the first key that stands twice.
ghost use Rattle.std.specs.Prelude.{◌≡◌, ℕ, map, nat_eq, MatchBool, MatchOption, IfOk, OnOk};
ghost use Rattle.std.specs.List.Sorted.{IsPermutation, IsNonDecreasingBy};
ghost use Rattle.std.specs.List.{IsDistinct};
ghost use Rattle.graph_core.specs.Inner.SortedKeys.{Rises, IsFirstDouble, AreSorted};

use gl_base::{NoMemory, OrNoMemory, Vertex};
use std::alloc::Global;
use std::collections::BTreeSet;

/// A thing that is sorted by a number.
pub trait HasKey: Copy {
    ghost key: { Self → ℕ };

    /// The number.
    fn key(&self) -> u64
        ensures { result ≡ key self.now };
}

impl HasKey for u64 {
    ghost key = { λ id. id };

    fn key(&self) -> u64 {
        *self
    }
}

impl HasKey for Vertex {
    ghost key = { λ v. v.0 };

    fn key(&self) -> u64 {
        u64::from(self.0)
    }
}

/// The key at this place stands before it too, and no earlier key does.
#[derive(Clone, Copy)]
pub struct DoubleAt(pub usize);

/// The items by ascending keys. Items that are in order already stay where they are.
pub fn sorted<T: HasKey>(alloc: Global, items: Vec<T>) -> Result<Vec<T>, OrNoMemory<DoubleAt>>
    ensures { AreSorted T.key items.items result }
{
    if rises(&items) {
        return Ok(items);
    }
    let mut sorted = Vec::from_slice(alloc, &items)?;
    sort(&mut sorted)?;
    if rises(&sorted) {
        return Ok(sorted);
    }
    match first_double(alloc, &items)? {
        Some(place) => Err(OrNoMemory::Fault(DoubleAt(place))),
        None => unreachable!(),
    }
}

/// Puts the items in the order of their keys. Keys that seldom fall are long runs, which a stable
/// sort keeps; on keys in no order the unstable one is faster.
fn sort<T: HasKey>(items: &mut Vec<T>) -> Result<(), NoMemory>
    ensures same { IsPermutation items.old.items items.new.items }
    ensures up { OnOk result (IsNonDecreasingBy T.key items.new.items) }
{
    if fall_seldom(items) {
        items.sort_by_key(|item| item.key())?;
    } else {
        items.sort_unstable_by_key(|item| item.key());
    }
    Ok(())
}

/// Whether at most one key in 16 is below the one before.
fn fall_seldom<T: HasKey>(items: &[T]) -> bool {
    let mut left = items.len() / 16;
    for k in 1..items.len() {
        if items[k - 1].key() > items[k].key() {
            if left == 0 {
                return false;
            }
            left -= 1;
        }
    }
    true
}

/// Whether each key is below the next.
pub fn rises<T: HasKey>(items: &[T]) -> bool
    ensures { MatchBool result (Rises T.key items.now) (¬ Rises T.key items.now) }
{
    for k in 1..items.len() {
        if items[k - 1].key() >= items[k].key() {
            return false;
        }
    }
    true
}

/// The first place whose key stands before it too.
fn first_double<T: HasKey>(alloc: Global, items: &[T]) -> Result<Option<usize>, NoMemory>
    ensures { IfOk result (λ found.
        MatchOption found (IsDistinct nat_eq (map T.key items.now))
        (IsFirstDouble (map T.key items.now))) }
{
    let mut seen = BTreeSet::new(alloc);
    for place in 0..items.len() {
        if !seen.insert(items[place].key())? {
            return Ok(Some(place));
        }
    }
    Ok(None)
}
