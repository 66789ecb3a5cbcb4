//! Reads the lines of a text from any source, byte by byte, and keeps their items alone.
ghost use Rattle.std.specs.Prelude.{◌≡◌, ℕ, ◌+◌, ◌-◌, ◌^◌, ◌<◌, ◌≤◌, min, List, length, None, IfOk};
ghost use Rattle.std.specs.Io.KnownBytes.{Consumes};
ghost use Rattle.gl_base.specs.declared.limits.TheConstants.{MAX_TEXT_BYTES};
ghost use Rattle.graph_text.specs.lines.Found.{run, collect, ReadsLines};
ghost use Rattle.graph_text.specs.lines.Inner.Steps.{byte_step, line_end, nothing_read};
ghost use Rattle.graph_text.specs.lines.Inner.Places.{IsInsideField};
ghost use Rattle.graph_text.specs.lines.Inner.Texts.{read_text, kept_at, IsBegunAs, IsBetween, TakesItem, TakesPlain, LeadsTo, LeadsToText, TakesPiece, ReadsBytes};

use crate::lines::fields::{Fields, Place, broken, with_digit};
use crate::lines::items::LineItem;
use crate::lines::plain::{PLAIN, plain_line};
use crate::lines::said::{Ending, Halt, Said, Unread};
use gl_base::{MAX_TEXT_BYTES, TextKind};
use gl_outside::Source;
use std::alloc::Global;

/// How many bytes are asked for at once.
const PIECE: usize = 65536;

/// What was found in a text: items with their lines, and why no more was read, where the text has
/// more.
#[derive(Drop)]
pub struct FoundItems<X> {
    pub items: Vec<X>,
    pub places: Vec<u32>,
    pub ending: Option<Ending<X>>,
}

/// A text, as far as it was read: the items with their lines, and the line that is begun.
#[derive(Drop)]
struct Lines<X> {
    items: Vec<X>,
    places: Vec<u32>,
    line: u32,
    fields: Fields,
    before_cr: Option<(Place, Option<u64>)>,
}

impl<X: LineItem> Lines<X> {
    /// Nothing is read.
    fn new(alloc: Global) -> Self
        ensures text { read_text result None ≡ nothing_read }
    {
        Lines {
            items: Vec::new(alloc),
            places: Vec::new(alloc),
            line: 1,
            fields: Fields::new(),
            before_cr: None,
        }
    }

    /// Keeps what a line says.
    #[inline(always)]
    fn keep(&mut self, said: Said<X>) -> Result<(), Halt<X>>
        requires { self.old.line + 1 < 2 ^ 32 }
        ensures kept { LeadsTo (collect X.MOST (kept_at self.old) said) (kept_at self.new) result }
        ensures line { self.new.line ≤ self.old.line + 1 }
        ensures begun { IsBegunAs self.old self.new }
    {
        match said {
            Said::Passed => {}
            Said::Wrong(kind) => return Err(Halt::Stopped(Ending::Fault(self.line, kind))),
            Said::Late(x, kind) => return Err(Halt::Stopped(Ending::Late(self.line, x, kind))),
            Said::Item(x) => self.push(x)?,
        }
        self.line += 1;
        Ok(())
    }

    /// Keeps an item and its line.
    #[inline(always)]
    fn push(&mut self, x: X) -> Result<(), Halt<X>>
        ensures takes { TakesItem X.MOST (kept_at self.old) x (kept_at self.new) result }
        ensures line { self.new.line ≡ self.old.line }
        ensures begun { IsBegunAs self.old self.new }
    {
        if self.items.len() >= X::MOST {
            return Err(Halt::Stopped(Ending::Full(self.line, x)));
        }
        match self.items.push(x) {
            Ok(()) => {}
            Err(_) => return Err(Halt::NoMemory),
        }
        match self.places.push(self.line) {
            Ok(()) => Ok(()),
            Err(_) => Err(Halt::NoMemory),
        }
    }

    /// Ends the line that is begun.
    #[inline]
    fn end_line(&mut self, weighted: bool, number: Option<u64>) -> Result<(), Halt<X>>
        requires { self.old.line + 1 < 2 ^ 32 }
        ensures kept { LeadsTo (line_end X.MOST (X.says weighted) (read_text self.old number))
            (kept_at self.new) result }
        ensures line { self.new.line ≤ self.old.line + 1 }
    {
        let (place, number) = match self.before_cr {
            Some(before) => before,
            None => (self.fields.place, number),
        };
        self.keep(X::said(self.fields.row(place, number), weighted))
    }

    /// Takes one byte, and gives the number of the field that is begun. A digit inside a number
    /// touches that number alone.
    #[inline(always)]
    fn take(
        &mut self,
        weighted: bool,
        number: Option<u64>,
        byte: u8,
    ) -> Result<Option<u64>, Halt<X>>
        requires between { IsBetween self.old number }
        requires room { self.old.line + 1 < 2 ^ 32 }
        ensures takes { LeadsToText
            (byte_step X.MOST (X.says weighted) (read_text self.old number) byte) self.new result }
        ensures between { IfOk result (IsBetween self.new) }
        ensures line { self.new.line ≤ self.old.line + 1 }
    {
        match number {
            Some(n) if byte.is_ascii_digit() => Ok(Some(with_digit(n, byte - b'0'))),
            _ => self.take_any(weighted, number, byte),
        }
    }

    /// Takes one byte, whatever it is.
    fn take_any(
        &mut self,
        weighted: bool,
        number: Option<u64>,
        byte: u8,
    ) -> Result<Option<u64>, Halt<X>>
        requires { self.old.line + 1 < 2 ^ 32 }
        ensures takes { LeadsToText
            (byte_step X.MOST (X.says weighted) (read_text self.old number) byte) self.new result }
        ensures between { IfOk result (IsBetween self.new) }
        ensures line { self.new.line ≤ self.old.line + 1 }
    {
        if byte == b'\n' {
            self.end_line(weighted, number)?;
            self.fields.place = Place::Begin;
            self.before_cr = None;
            return Ok(None);
        }
        if byte == b'\r' {
            self.before_cr = Some((self.fields.place, number));
            self.fields.place = broken(self.fields.place);
            return Ok(None);
        }
        self.before_cr = None;
        Ok(self.fields.take(number, byte))
    }

    /// Takes the plain line at the front of the bytes, where no line is begun, and says how many
    /// bytes that are: none where no plain line is found.
    #[inline(always)]
    fn take_plain(
        &mut self,
        weighted: bool,
        number: Option<u64>,
        bytes: &[u8],
    ) -> Result<usize, Halt<X>>
        requires room { self.old.line + 1 < 2 ^ 32 }
        ensures takes { TakesPlain X.MOST (X.says weighted) self.old number
            bytes.now self.new result }
        ensures line { self.new.line ≤ self.old.line + 1 }
        ensures lines { IfOk result (λ taken. self.new.line ≤ self.old.line + taken) }
    {
        let (Place::Begin, None, None) = (self.fields.place, number, self.before_cr) else {
            return Ok(0);
        };
        if bytes.len() < PLAIN {
            return Ok(0);
        }
        let Some(line) = plain_line(bytes) else {
            return Ok(0);
        };
        self.keep(X::said(line.row, weighted))?;
        Ok(line.len)
    }

    /// Takes bytes in turn: whole plain lines, and else one byte at a time.
    fn take_bytes(
        &mut self,
        weighted: bool,
        number: Option<u64>,
        bytes: &[u8],
    ) -> Result<Option<u64>, Halt<X>>
        requires between { IsBetween self.old number }
        requires room { self.old.line + length bytes.now < 2 ^ 32 }
        ensures takes { LeadsToText
            (run (byte_step X.MOST (X.says weighted)) (read_text self.old number) bytes.now)
            self.new result }
        ensures between { IfOk result (IsBetween self.new) }
        ensures line { self.new.line ≤ self.old.line + length bytes.now }
    {
        let mut number = number;
        let mut at = 0;
        while at < bytes.len() {
            let taken = self.take_plain(weighted, number, &bytes[at..])?;
            if taken > 0 {
                at += taken;
            } else {
                number = self.take(weighted, number, bytes[at])?;
                at += 1;
            }
        }
        Ok(number)
    }

    /// Takes the next bytes, of which no more than `room` are within the limit.
    fn take_piece(
        &mut self,
        weighted: bool,
        number: Option<u64>,
        piece: &[u8],
        room: usize,
    ) -> Result<Option<u64>, Halt<X>>
        requires between { IsBetween self.old number }
        requires room { self.old.line + room < 2 ^ 32 }
        ensures takes { TakesPiece X.MOST (X.says weighted) (read_text self.old number)
            piece.now room self.new result }
        ensures between { IfOk result (IsBetween self.new) }
        ensures line { IfOk result (λ _. self.new.line ≤ self.old.line + length piece.now) }
    {
        let within = piece.len().min(room);
        let number = self.take_bytes(weighted, number, &piece[..within])?;
        if within < piece.len() {
            return Err(Halt::Stopped(Ending::Fault(self.line, TextKind::TooLong)));
        }
        Ok(number)
    }
}

/// Reads the source to its end, or up to the line that ends the reading. The source keeps what was
/// taken, whatever is answered.
pub fn read_lines<S: Source, X: LineItem>(
    alloc: Global,
    source: &mut S,
    weighted: bool,
) -> Result<FoundItems<X>, Unread>
    ensures answer { ReadsLines X.MOST (X.says weighted) result (S.left source.old)
        (S.faults source.old) (S.faults source.new) }
    ensures taken { (taken : List ℕ) × Consumes (S.left source.old) (S.left source.new) taken }
    ensures later { S.faults source.old ≤ S.faults source.new }
    ensures same { S.same source.old source.new }
{
    let mut lines = Lines::new(alloc);
    let ending = match read_bytes(source, weighted, &mut lines) {
        Ok(()) => None,
        Err(Halt::Stopped(ending)) => Some(ending),
        Err(Halt::ReadFault) => return Err(Unread::ReadFault),
        Err(Halt::NoMemory) => return Err(Unread::NoMemory),
    };
    Ok(FoundItems {
        items: lines.items,
        places: lines.places,
        ending,
    })
}

/// Reads the bytes of the source. Each turn takes one at least, so one turn more than there may be
/// finds the end.
fn read_bytes<S: Source, X: LineItem>(
    source: &mut S,
    weighted: bool,
    lines: &mut Lines<X>,
) -> Result<(), Halt<X>>
    requires { read_text lines.old None ≡ nothing_read }
    ensures answer { ReadsBytes X.MOST (X.says weighted) (kept_at lines.new) result
        (S.left source.old) (S.faults source.old) (S.faults source.new) }
    ensures taken { (taken : List ℕ) × Consumes (S.left source.old) (S.left source.new) taken }
    ensures later { S.faults source.old ≤ S.faults source.new }
    ensures same { S.same source.old source.new }
{
    let mut buf = [0; PIECE];
    let mut number = None;
    let mut room = MAX_TEXT_BYTES as usize;
    'reading: for _turn in 0..=MAX_TEXT_BYTES {
        match source.read(&mut buf) {
            Ok(0) => return lines.end_line(weighted, number),
            Ok(count) => {
                number = lines.take_piece(weighted, number, &buf[..count], room)?;
                room -= count;
            }
            Err(_) => return Err(Halt::ReadFault),
        }
    }
    unreachable!()
}
