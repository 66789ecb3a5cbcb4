//! The fields of a line, byte by byte.
ghost use Rattle.std.specs.Prelude.{◌≡◌, ℕ, ◌<◌, IsTrue, ◌≢◌, true, false, None};
ghost use Rattle.graph_text.specs.lines.Inner.Steps.{grown, number_more, begin, seen_more, row_seen};
ghost use Rattle.graph_text.specs.lines.Lines.{is_blank};
ghost use Rattle.graph_text.specs.lines.Inner.Places.{seen_at, seen_before, broken_place, IsInsideField};

use crate::lines::said::Row;
use gl_base::INF;

/// Where in a line the next byte stands.
#[derive(Clone, Copy)]
pub(crate) enum Place {
    Begin,
    Comment,
    First,
    BehindFirst,
    Second,
    BehindSecond,
    /// In the third field, up to its first point.
    Digits,
    /// Behind the point.
    Point,
    /// Behind zeros behind the point.
    Zeros,
    BehindThird,
}

/// A line as far as it was read: the place, and the numbers of the fields that are ended. The
/// number of the field that is begun is kept beside it.
#[derive(Clone, Copy)]
pub(crate) struct Fields {
    pub(crate) place: Place,
    from: Option<u64>,
    to: Option<u64>,
    weight: Option<u64>,
}

impl Fields {
    /// No byte of a line is read.
    pub(crate) fn new() -> Self
        ensures { seen_at result None ≡ begin }
    {
        Fields {
            place: Place::Begin,
            from: None,
            to: None,
            weight: None,
        }
    }
    /// Takes a byte of the line, LF excepted, and gives the number of the field that is begun.
    #[inline]
    pub(crate) fn take(&mut self, number: Option<u64>, byte: u8) -> Option<u64>
        ensures seen { seen_at self.new result ≡ seen_more (seen_at self.old number) byte }
        ensures inside { IsInsideField self.new.place result }
    {
        if byte == b' ' || byte == b'\t' {
            self.leave(number);
            return None;
        }
        match self.place {
            Place::Begin if byte == b'#' => {
                self.place = Place::Comment;
                None
            }
            Place::Digits if byte == b'.' => {
                self.place = Place::Point;
                self.weight = number;
                None
            }
            Place::Point | Place::Zeros if byte == b'0' => {
                self.place = Place::Zeros;
                None
            }
            _ => self.enter(number, byte),
        }
    }

    /// Takes a blank or a tab, which ends a field.
    #[inline]
    fn leave(&mut self, number: Option<u64>)
        ensures { (byte : ℕ) → is_blank byte ≡ true →
            seen_at self.new None ≡ seen_more (seen_at self.old number) byte }
    {
        match self.place {
            Place::First => {
                self.from = number;
                self.place = Place::BehindFirst;
            }
            Place::Second => {
                self.to = number;
                self.place = Place::BehindSecond;
            }
            Place::Digits => {
                self.weight = number;
                self.place = Place::BehindThird;
            }
            Place::Point => {
                self.weight = None;
                self.place = Place::BehindThird;
            }
            Place::Zeros => self.place = Place::BehindThird,
            _ => {}
        }
    }

    /// Takes a byte that is a part of a field.
    #[inline]
    fn enter(&mut self, number: Option<u64>, byte: u8) -> Option<u64>
        requires blank { is_blank byte ≡ false }
        requires comment { self.old.place ≡ Place.Begin → byte ≢ 35 }
        requires point { self.old.place ≡ Place.Digits → byte ≢ 46 }
        requires behind_point { self.old.place ≡ Place.Point → byte ≢ 48 }
        requires zeros { self.old.place ≡ Place.Zeros → byte ≢ 48 }
        ensures seen { seen_at self.new result ≡ seen_more (seen_at self.old number) byte }
        ensures inside { IsInsideField self.new.place result }
    {
        let number = match self.place {
            Place::First | Place::Second | Place::Digits => number,
            Place::Begin | Place::BehindFirst | Place::BehindSecond => Some(0),
            _ => None,
        };
        self.place = broken(self.place);
        with_byte(number, byte)
    }

    /// The fields of the line, where the byte that stands next is at `place` with this number
    /// beside it.
    #[inline]
    pub(crate) fn row(self, place: Place, number: Option<u64>) -> Row
        ensures { result ≡ row_seen (seen_before self (place, number)) }
    {
        match place {
            Place::Begin | Place::Comment => Row::Nothing,
            Place::First => Row::One(number),
            Place::BehindFirst => Row::One(self.from),
            Place::Second => Row::Two(self.from, number),
            Place::BehindSecond => Row::Two(self.from, self.to),
            Place::Digits => Row::Three(self.from, self.to, number),
            Place::Point => Row::Three(self.from, self.to, None),
            Place::Zeros | Place::BehindThird => Row::Three(self.from, self.to, self.weight),
        }
    }
}

/// The place behind a byte that belongs to no number.
#[inline]
pub(crate) fn broken(place: Place) -> Place
    ensures { result ≡ broken_place place }
{
    match place {
        Place::Begin | Place::First => Place::First,
        Place::BehindFirst | Place::Second => Place::Second,
        Place::Comment => Place::Comment,
        Place::BehindThird => Place::BehindThird,
        _ => Place::Digits,
    }
}

/// The number with one byte more, and none where the byte isn't a digit.
#[inline]
fn with_byte(number: Option<u64>, byte: u8) -> Option<u64>
    ensures { result ≡ number_more number byte }
{
    match number {
        Some(n) if byte.is_ascii_digit() => Some(with_digit(n, byte - b'0')),
        _ => None,
    }
}

/// The number with one digit more, up to `INF`.
#[inline(always)]
pub(crate) fn with_digit(n: u64, digit: u8) -> u64
    requires { digit < 10 }
    ensures { result ≡ grown n digit }
{
    if n < INF / 10 || n == INF / 10 && u64::from(digit) <= INF % 10 {
        n * 10 + u64::from(digit)
    } else {
        INF
    }
}
