//! Rows of equal length as one list, and back.
ghost use Rattle.std.specs.Prelude.{◌≡◌, ◌≤◌, ◌*◌, ◌++◌, length, IfOk, OnOk};
ghost use Rattle.std.specs.List.{All, flat_map};
ghost use Rattle.std.specs.Vec.Iter.{into_iter_items, into_iter_len};

use std::alloc::{AllocError, Global};
use std::vec::IntoIter;

/// All that stands in rows, one row behind the other.
pub fn flat<T: Drop>(alloc: Global, rows: Vec<Vec<T>>) -> Result<Vec<T>, AllocError>
    ensures { IfOk result (λ list. list.items ≡ flat_map (λ row. row.items) rows.items) }
{
    let mut list = Vec::new(alloc);
    for row in rows {
        append(&mut list, row)?;
    }
    Ok(list)
}

/// The row stands behind the list.
fn append<T: Drop>(list: &mut Vec<T>, row: Vec<T>) -> Result<(), AllocError>
    ensures { OnOk result (list.new.items ≡ list.old.items ++ row.items) }
{
    list.extend(row)
}

/// A list in so many rows of this length.
pub fn in_rows<T: Drop>(
    alloc: Global,
    list: Vec<T>,
    many: usize,
    width: usize,
) -> Result<Vec<Vec<T>>, AllocError>
    requires { length list.items ≡ many * width }
    ensures whole { IfOk result (λ rows. flat_map (λ row. row.items) rows.items ≡ list.items) }
    ensures many { IfOk result (λ rows. length rows.items ≡ many) }
    ensures long { IfOk result (λ rows. All (λ row. length row.items ≡ width) rows.items) }
{
    let mut rows = Vec::with_capacity(alloc, many)?;
    let mut rest = list.into_iter();
    for _ in 0..many {
        let row = take_row(alloc, &mut rest, width)?;
        rows.push_reserved(row);
    }
    Ok(rows)
}

/// Takes the first ones off.
fn take_row<T: Drop>(
    alloc: Global,
    rest: &mut IntoIter<T>,
    width: usize,
) -> Result<Vec<T>, AllocError>
    requires width { width ≤ length (into_iter_items rest.old) }
    requires counted { into_iter_len rest.old ≡ length (into_iter_items rest.old) }
    ensures whole { IfOk result (λ row.
        row.items ++ into_iter_items rest.new ≡ into_iter_items rest.old) }
    ensures long { IfOk result (λ row. length row.items ≡ width) }
    ensures counted { into_iter_len rest.new ≡ length (into_iter_items rest.new) }
{
    let mut row = Vec::with_capacity(alloc, width)?;
    for _ in 0..width {
        if let Some(x) = rest.next() {
            row.push_reserved(x);
        }
    }
    Ok(row)
}
