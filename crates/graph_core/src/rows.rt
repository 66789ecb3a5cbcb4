//! Lists by key in one flat list, each with its place there.
ghost use Rattle.std.specs.Prelude.{◌≡◌, ℕ, suc, ◌+◌, ◌^◌, ◌<◌, ◌++◌, ◌∷◌, List, [], length, slice_index, slice_index_or, slice_range, slice_get, sum, take, All, IfOk, OnErr, OnOk, Some};
ghost use Rattle.graph_core.specs.Rows.{with_key};
ghost use Rattle.graph_core.specs.Inner.RowSteps.{count_below, AreRowsAt, AreRowsFrom, AreStarts, place_in};

use gl_base::NoMemory;
use std::alloc::Global;
use std::marker::Model;

/// As many items as are placed at once where their keys lie apart.
const MANY: usize = 1 << 21;

/// How many keys are looked at to see whether keys lie apart.
const SAMPLES: usize = 64;

/// How far apart places, and keys, are near one another.
const NEAR: usize = 64;

/// A list of items that have keys, read by place.
pub trait Keyed {
    type Item: Copy;

    ghost list: { Self → List (ℕ × Self.Item) };

    /// How many items there are.
    fn len(&self) -> usize
        ensures { result ≡ length (list self.now) };

    /// The item at a place, behind its key.
    fn at(&self, place: usize) -> (u32, Self::Item)
        requires { place < length (list self.now) }
        ensures { slice_get (list self.now) place ≡ Some result };
}

/// Rows of items, one after another. Contracts see the list of the rows.
#[derive(Drop)]
pub struct Rows<T> {
    starts: Vec<u32>,
    items: Vec<T>,
}

impl<T> Model for Rows<T> {
    ghost use Rattle.std.specs.Prelude.{List, length};
    ghost use Rattle.graph_core.specs.Rows.{rows_of};
    ghost use Rattle.graph_core.specs.Inner.RowSteps.{AreStarts};

    ghost Value = { List (List T) };

    ghost view = { λ r. rows_of r.starts.items r.items.items };

    ghost invariant = { λ r. AreStarts r.starts.items (length r.items.items) };
}

impl<T: Copy> Rows<T> {
    /// For each key below `count`, the items that have it, in their order. It needs two passes over
    /// the items, and keeps no second copy of them.
    pub fn group<K: Keyed<Item = T>>(
        alloc: Global,
        count: usize,
        keyed: &K,
    ) -> Result<Rows<T>, NoMemory>
        requires few { count < 2 ^ 32 }
        requires few_items { length (K.list keyed.now) < 2 ^ 32 }
        requires keys { All (λ pair. pair.0 < count) (K.list keyed.now) }
        ensures count { IfOk result (λ rows. length rows ≡ count) }
        ensures each { IfOk result (λ rows. (k : ℕ) → k < count →
            slice_index_or rows k [] ≡ with_key k (K.list keyed.now)) }
    {
        let mut starts = row_ends(alloc, count, keyed)?;
        let items = placed(alloc, &mut starts, keyed)?;
        Ok(Rows { starts, items })
    }

    /// No row, with room for so many rows and so many items.
    pub fn none(alloc: Global, rows: usize, items: usize) -> Result<Rows<T>, NoMemory>
        ensures { IfOk result (λ rows. rows ≡ []) }
    {
        let mut starts = Vec::with_capacity(alloc, rows.saturating_add(1))?;
        starts.push(0)?;
        let items = Vec::with_capacity(alloc, items)?;
        Ok(Rows { starts, items })
    }

    /// One more row behind the others. More than 4,294,967,295 items find no memory. After
    /// `NoMemory` the rows are unchanged.
    pub fn push(&mut self, row: &[T]) -> Result<(), NoMemory>
        ensures pushed { OnOk result (self.new ≡ self.old ++ row.now ∷ []) }
        ensures unchanged { OnErr result (self.new ≡ self.old) }
    {
        let end = self.items.len().saturating_add(row.len());
        if end > u32::MAX as usize {
            return Err(NoMemory);
        }
        self.starts.reserve(1)?;
        self.items.extend_from_slice(row)?;
        self.starts.push_reserved(end as u32);
        Ok(())
    }
}

impl<T> Rows<T> {
    /// How many rows there are.
    #[tactic(auto, using(crate::proofs::RowLemmas::length_of_rows))]
    pub fn len(&self) -> usize
        ensures { result ≡ length self.now }
    {
        self.starts.len() - 1
    }

    /// The row with this number.
    #[tactic(auto, using(crate::proofs::RowLemmas::length_of_rows, crate::proofs::RowLemmas::row_of_rows))]
    pub fn row(&self, k: usize) -> &[T]
        requires { k < length self.now }
        ensures { result.now ≡ slice_index_or self.now k [] }
    {
        part(&self.starts, &self.items, k)
    }
}

/// Row k of rows that begin at these starts.
fn part<'a, T>(starts: &[u32], items: &'a [T], k: usize) -> &'a [T]
    requires starts { AreStarts starts.now (length items.now) }
    requires k { k + 1 < length starts.now }
    ensures { result.now ≡ slice_range items.now (slice_index starts.now k)
        (slice_index starts.now (k + 1)) }
{
    let start = starts[k] as usize;
    let end = starts[k + 1] as usize;
    &items[start..end]
}

/// Where the row of each key ends, and where all rows end behind that.
fn row_ends<K: Keyed>(alloc: Global, count: usize, keyed: &K) -> Result<Vec<u32>, NoMemory>
    requires few { count < 2 ^ 32 }
    requires few_items { length (K.list keyed.now) < 2 ^ 32 }
    requires keys { All (λ pair. pair.0 < count) (K.list keyed.now) }
    ensures len { IfOk result (λ ends. length ends.items ≡ count + 1) }
    ensures ends { IfOk result (λ ends. (k : ℕ) → k < count + 1 →
        slice_index ends.items k ≡ count_below (suc k) (K.list keyed.now)) }
{
    let mut counts = Vec::from_elem(alloc, 0, count + 1)?;
    let ends = counts.as_mut_slice();
    count_keys(ends, keyed);
    sum_up(ends);
    Ok(counts)
}

/// The items row by row. Each row begins at its start in the end.
fn placed<K: Keyed>(alloc: Global, starts: &mut [u32], keyed: &K) -> Result<Vec<K::Item>, NoMemory>
    requires keys { All (λ pair. pair.0 < length starts.old) (K.list keyed.now) }
    requires ends { (k : ℕ) → k < length starts.old →
        slice_index starts.old k ≡ count_below (suc k) (K.list keyed.now) }
    ensures len { IfOk result (λ items. length items.items ≡ length (K.list keyed.now)) }
    ensures rows { IfOk result (λ items. AreRowsFrom 0 (K.list keyed.now) starts.new items.items) }
{
    let mut items = room_for(alloc, keyed)?;
    place_items(starts, items.as_mut_slice(), keyed);
    Ok(items)
}

/// Counts the items with each key, from no item on.
fn count_keys<K: Keyed>(starts: &mut [u32], keyed: &K)
    requires few { length (K.list keyed.now) < 2 ^ 32 }
    requires keys { All (λ pair. pair.0 < length starts.old) (K.list keyed.now) }
    requires none { (k : ℕ) → slice_index starts.old k ≡ 0 }
    ensures { (k : ℕ) → k < length starts.new →
        slice_index starts.new k ≡ length (with_key k (K.list keyed.now)) }
{
    for place in 0..keyed.len() {
        let (key, _) = keyed.at(place);
        starts[key as usize] += 1;
    }
}

/// Turns how many items each key has into where its row ends.
fn sum_up(starts: &mut [u32])
    requires { sum starts.old < 2 ^ 32 }
    ensures { (k : ℕ) → k < length starts.old →
        slice_index starts.new k ≡ sum (take (k + 1) starts.old) }
{
    for k in 1..starts.len() {
        starts[k] += starts[k - 1];
    }
}

/// As many items as are listed, in any order.
fn room_for<K: Keyed>(alloc: Global, keyed: &K) -> Result<Vec<K::Item>, NoMemory>
    ensures { IfOk result (λ items. length items.items ≡ length (K.list keyed.now)) }
{
    if keyed.len() == 0 {
        return Ok(Vec::new(alloc));
    }
    let (_, any) = keyed.at(0);
    Ok(Vec::from_elem(alloc, any, keyed.len())?)
}

/// Puts each item before the start of its row, the last item first, in parts of the rows one after
/// another. So each row begins at its start in the end.
fn place_items<K: Keyed>(starts: &mut [u32], items: &mut [K::Item], keyed: &K)
    requires keys { All (λ pair. pair.0 < length starts.old) (K.list keyed.now) }
    requires ends { AreRowsFrom (length (K.list keyed.now))
        (K.list keyed.now) starts.old items.old }
    requires room { length items.old ≡ length (K.list keyed.now) }
    ensures { AreRowsFrom 0 (K.list keyed.now) starts.new items.new }
{
    let width = starts.len() / parts_of(keyed).max(1) + 1;
    let mut low = 0;
    while low < starts.len() {
        let high = low + width.min(starts.len() - low);
        place_part(starts, items, keyed, low, high);
        low = high;
    }
}

/// The same for the rows from `low` to below `high` alone.
fn place_part<K: Keyed>(
    starts: &mut [u32],
    items: &mut [K::Item],
    keyed: &K,
    low: usize,
    high: usize,
)
    requires keys { All (λ pair. pair.0 < length starts.old) (K.list keyed.now) }
    requires room { length items.old ≡ length (K.list keyed.now) }
    requires before { AreRowsAt
        (place_in low high (length (K.list keyed.now)) (length (K.list keyed.now)))
        (K.list keyed.now) starts.old items.old }
    ensures rows { AreRowsAt (place_in low high 0 (length (K.list keyed.now)))
        (K.list keyed.now) starts.new items.new }
{
    let mut place = keyed.len();
    while place > 0 {
        place -= 1;
        let (key, item) = keyed.at(place);
        let row = key as usize;
        if low <= row && row < high {
            let at = starts[row] - 1;
            starts[row] = at;
            items[at as usize] = item;
        }
    }
}

/// In how many parts the rows are filled: in one where keys that stand near one another are near
/// one another, or where the items are few, since then what is written lies together.
fn parts_of<K: Keyed>(keyed: &K) -> usize {
    if keyed.len() < MANY || !lie_apart(keyed) {
        return 1;
    }
    keyed.len() / MANY
}

/// Whether more than a quarter of some keys, at places that are spread over the list, are far from
/// all that stand behind them.
fn lie_apart<K: Keyed>(keyed: &K) -> bool {
    let step = keyed.len() / SAMPLES;
    let mut left = SAMPLES / 4;
    for sample in 0..SAMPLES {
        let place = sample.saturating_mul(step);
        if is_apart(keyed, place) || is_apart(keyed, place.saturating_add(1)) {
            if left == 0 {
                return true;
            }
            left -= 1;
        }
    }
    false
}

/// Whether the key at a place is far from those at the next places.
fn is_apart<K: Keyed>(keyed: &K, place: usize) -> bool {
    if place >= keyed.len() {
        return false;
    }
    let (key, _) = keyed.at(place);
    for step in 1..NEAR.min(keyed.len() - place) {
        let (other, _) = keyed.at(place + step);
        if key.abs_diff(other) < NEAR as u32 {
            return false;
        }
    }
    true
}
