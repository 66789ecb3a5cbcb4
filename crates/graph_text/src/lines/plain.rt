//! Plain lines: up to three numbers with one blank between them, and LF. They are read without a
//! look at the place of each byte.
ghost use Rattle.std.specs.Prelude.{◌≡◌, ◌+◌, ◌≤◌, length, MatchOption, Some};
ghost use Rattle.graph_text.specs.lines.Inner.Steps.{behind_first as at_second, behind_second as at_third};
ghost use Rattle.graph_text.specs.lines.Inner.PlainLines.{IsNumberAt, IsReadTo, IsLineAt};

use crate::lines::fields::with_digit;
use crate::lines::said::Row;

/// As many bytes as a plain line has at most: three numbers of 18 digits, two blanks and LF.
pub(crate) const PLAIN: usize = 57;

/// A number, and how many digits it has.
#[derive(Clone, Copy)]
struct Number {
    value: u64,
    len: usize,
}

/// The row of a line, and how many bytes the line has with its LF.
#[derive(Clone, Copy)]
pub(crate) struct PlainLine {
    pub(crate) row: Row,
    pub(crate) len: usize,
}

/// The plain line at the front of these bytes. Where none is found any line may stand there.
#[inline(always)]
pub(crate) fn plain_line(bytes: &[u8]) -> Option<PlainLine>
    requires { 57 ≤ length bytes.now }
    ensures { MatchOption result (Unit {0}) (IsLineAt bytes.now) }
{
    let from = number_at(bytes, 0);
    if from.len == 0 {
        return None;
    }
    let row = Row::One(Some(from.value));
    let len = from.len + 1;
    match bytes[from.len] {
        b'\n' => Some(PlainLine { row, len }),
        b' ' => behind_first(bytes, from.value, len),
        _ => None,
    }
}

/// The same, where the second number begins at this place.
#[inline(always)]
fn behind_first(bytes: &[u8], from: u64, at: usize) -> Option<PlainLine>
    requires room { at + 38 ≤ length bytes.now }
    requires read { IsReadTo bytes.now at (at_second (Some from)) }
    ensures { MatchOption result (Unit {0}) (IsLineAt bytes.now) }
{
    let to = number_at(bytes, at);
    if to.len == 0 {
        return None;
    }
    let row = Row::Two(Some(from), Some(to.value));
    let len = at + to.len + 1;
    match bytes[at + to.len] {
        b'\n' => Some(PlainLine { row, len }),
        b' ' => behind_second(bytes, from, to.value, len),
        _ => None,
    }
}

/// The same, where the third number begins at this place.
#[inline(always)]
fn behind_second(bytes: &[u8], from: u64, to: u64, at: usize) -> Option<PlainLine>
    requires room { at + 19 ≤ length bytes.now }
    requires read { IsReadTo bytes.now at (at_third (Some from) (Some to)) }
    ensures { MatchOption result (Unit {0}) (IsLineAt bytes.now) }
{
    let weight = number_at(bytes, at);
    if weight.len == 0 || bytes[at + weight.len] != b'\n' {
        return None;
    }
    let row = Row::Three(Some(from), Some(to), Some(weight.value));
    let len = at + weight.len + 1;
    Some(PlainLine { row, len })
}

/// The number of the digits from this place on, of 18 at most.
#[inline(always)]
fn number_at(bytes: &[u8], at: usize) -> Number
    requires { at + 18 ≤ length bytes.now }
    ensures { IsNumberAt bytes.now at result }
{
    let mut value = 0;
    for len in 0..18 {
        let byte = bytes[at + len];
        if !byte.is_ascii_digit() {
            return Number { value, len };
        }
        value = with_digit(value, byte - b'0');
    }
    Number { value, len: 18 }
}
