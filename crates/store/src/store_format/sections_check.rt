//! The check of sections.
ghost use Rattle.std.specs.Prelude.{◌≡◌, ℕ, ◌+◌, ◌*◌, ◌^◌, ◌<◌, ◌≤◌, ◌==◌, if◌then◌else◌, List, [], ◌∷◌, length, Some, None, IfOk, OnOk, IfErr};
ghost use Rattle.store.specs.store_format.Sections.{key_fault, keys_fault, keys_taken, row_end, row_taken, row_fault, sections_fault};
ghost use Rattle.store.specs.store_format.Fields.{bad_outside};
ghost use Rattle.store.specs.store_format.Inner.Taken.{AreTaken, AreLeftOf};

use crate::store_format::Header;
use crate::store_format::fields::check_within;
use gl_base::NoMemory;
use graph_atoms::atom_file::u32_at;
use std::alloc::Global;

/// Which keys stand in the rows so far, and how many are left.
#[derive(Drop)]
pub struct Keys {
    pub marks: Vec<bool>,
    pub left: u32,
}

/// All keys are left.
pub fn all_keys(alloc: Global, count: u32) -> Result<Keys, NoMemory>
    ensures left { IfOk result (λ keys. AreLeftOf keys.marks.items keys.left []) }
    ensures limit { IfOk result (λ keys. length keys.marks.items ≡ count) }
    ensures all { IfOk result (λ keys. keys.left ≡ count) }
{
    let marks = vec![in alloc; false; count as usize]?;
    Ok(Keys { marks, left: count })
}

/// Looks at the key at a place, which may not be below `least`, and marks it. Tells the least key
/// that may follow.
fn check_key(marks: &mut [bool], key: u32, least: u64, place: usize) -> Result<u64, usize>
    ensures none { IfOk result (λ _. (taken : List ℕ) → AreTaken marks.old taken →
        key_fault (length marks.old) taken least key place ≡ None) }
    ensures next { IfOk result (λ next. next ≡ key + 1) }
    ensures marked { IfOk result (λ _. (taken : List ℕ) → AreTaken marks.old taken →
        AreTaken marks.new (key ∷ taken)) }
    ensures fault { IfErr result (λ at. (taken : List ℕ) → AreTaken marks.old taken →
        key_fault (length marks.old) taken least key place ≡ Some at) }
    ensures place { IfErr result (λ at. at ≡ place) }
{
    let limit = marks.len() as u64;
    check_within(least, limit, u64::from(key), place)?;
    let here = key as usize;
    if marks[here] {
        return Err(place);
    }
    marks[here] = true;
    Ok(u64::from(key) + 1)
}

/// Looks at so many keys from a place on, and marks them.
fn check_keys(marks: &mut [bool], body: &[u8], at: usize, count: u32) -> Result<(), usize>
    requires { at + 12 * count ≤ length body.now }
    ensures none { (taken : List ℕ) → AreTaken marks.old taken →
        OnOk result (keys_fault (length marks.old) taken 0 count body.now at ≡ None) }
    ensures marked { (taken : List ℕ) → AreTaken marks.old taken →
        OnOk result (AreTaken marks.new (keys_taken count body.now at taken)) }
    ensures fault { (taken : List ℕ) → AreTaken marks.old taken →
        IfErr result (λ place.
        keys_fault (length marks.old) taken 0 count body.now at ≡ Some place) }
    ensures inside { IfErr result (λ place. place < length body.now) }
{
    let mut least = 0;
    for i in 0..count as usize {
        let place = at + 12 * i;
        least = check_key(marks, u32_at(body, place), least, place)?;
    }
    Ok(())
}

/// Looks at the row at a place, behind which so many sections stand, and tells where it ends.
fn check_row(keys: &mut Keys, more: u16, body: &[u8], at: usize) -> Result<usize, usize>
    requires { at + (4 + 12 * keys.old.left) ≤ length body.now }
    ensures none { (taken : List ℕ) → AreLeftOf keys.old.marks.items keys.old.left taken →
        IfOk result (λ _. row_fault (length keys.old.marks.items) taken more body.now at ≡ None) }
    ensures left { (taken : List ℕ) → AreLeftOf keys.old.marks.items keys.old.left taken →
        IfOk result (λ _. AreLeftOf keys.new.marks.items keys.new.left
        (row_taken body.now at taken)) }
    ensures fault { (taken : List ℕ) → AreLeftOf keys.old.marks.items keys.old.left taken →
        IfErr result (λ place.
        row_fault (length keys.old.marks.items) taken more body.now at ≡ Some place) }
    ensures end { IfOk result (λ end. end ≡ row_end body.now at) }
    ensures room { IfOk result (λ end. end + 12 * keys.new.left ≡ at + (4 + 12 * keys.old.left)) }
    ensures limit { length keys.new.marks.items ≡ length keys.old.marks.items }
    ensures inside { IfErr result (λ place. place < length body.now) }
{
    let count = u32_at(body, at);
    check_count(keys.left, more, count, at)?;
    check_keys(&mut keys.marks, body, at + 4, count)?;
    keys.left -= count;
    Ok(at + (4 + 12 * count as usize))
}

/// Looks whether a row may have so many keys, where so many are left and so many sections follow.
fn check_count(left: u32, more: u16, count: u32, place: usize) -> Result<(), usize>
    ensures fits { OnOk result (count ≤ left) }
    ensures none { OnOk result (bad_outside (if more == 0 then left
        else 0) (left + 1) count place ≡ None) }
    ensures fault { IfErr result (λ at.
        bad_outside (if more == 0 then left else 0) (left + 1) count place ≡ Some at) }
    ensures place { IfErr result (λ at. at ≡ place) }
{
    let least = if more == 0 { left } else { 0 };
    check_within(
        u64::from(least),
        u64::from(left) + 1,
        u64::from(count),
        place,
    )
}

/// Looks at the sections of a body, which begin at a place and fill the rest of it. No key stands
/// before them.
pub fn check_sections(
    header: &Header,
    vertices: &mut Keys,
    edges: &mut Keys,
    body: &[u8],
    start: usize,
) -> Result<(), usize>
    requires vertices { AreLeftOf vertices.old.marks.items vertices.old.left [] }
    requires edges { AreLeftOf edges.old.marks.items edges.old.left [] }
    requires n { length vertices.old.marks.items ≡ header.now.n }
    requires m { length edges.old.marks.items ≡ header.now.m }
    requires size { start + (8 * header.now.machines + 12 * header.now.n + 12 * header.now.m) ≡
        length body.now }
    ensures none { OnOk result
        (sections_fault header.now header.now.machines [] [] body.now start ≡ None) }
    ensures fault { IfErr result (λ place.
        sections_fault header.now header.now.machines [] [] body.now start ≡ Some place) }
    ensures inside { IfErr result (λ place. place < length body.now) }
{
    let mut at = start;
    for i in 0..header.machines {
        let more = header.machines - (i + 1);
        at = check_row(vertices, more, body, at)?;
        at = check_row(edges, more, body, at)?;
    }
    Ok(())
}
