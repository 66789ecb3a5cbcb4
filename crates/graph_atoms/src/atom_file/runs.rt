//! Records of one kind that stand one after another.
ghost use Rattle.std.specs.Prelude.{◌≡◌, ◌≢◌, ℕ, ◌+◌, ◌-◌, ◌<◌, ◌≤◌, length, slice_index, Some, None, IfOk, OnOk, IfErr};
ghost use Rattle.graph_atoms.specs.atom_file.Faults.{record_size, record_key, record_fault};
ghost use Rattle.graph_atoms.specs.atom_file.Inner.Runs.{tag_of, size_of, fault_from, IsRunBetween, IsBelow};

use crate::atom_file::AtomFault;
use crate::atom_file::fields::u32_at;

/// The kinds of records, in the order in which they stand.
#[derive(Clone, Copy)]
pub enum RecordKind {
    Vertices,
    Ghosts,
    Edges,
}

impl RecordKind {
    /// The first byte of a record.
    pub fn tag(self) -> u8
        ensures { result ≡ tag_of self }
    {
        match self {
            RecordKind::Vertices => 1,
            RecordKind::Ghosts => 2,
            RecordKind::Edges => 3,
        }
    }

    /// How many bytes a record has.
    pub fn size(self) -> usize
        ensures { result ≡ size_of self }
    {
        match self {
            RecordKind::Vertices => 13,
            RecordKind::Ghosts => 15,
            RecordKind::Edges => 17,
        }
    }
}

/// Where a reader stands: at this byte, with so many records left, of which the next has at least
/// this key.
#[derive(Clone, Copy)]
pub struct Place {
    pub at: usize,
    pub left: u32,
    pub least: u64,
}

/// So many records, and the place behind them.
#[derive(Clone, Copy)]
pub struct Run {
    pub count: u32,
    pub end: Place,
}

/// Reads records of one kind, as many as there are.
pub fn run_of(bytes: &[u8], kind: RecordKind, start: Place) -> Result<Run, AtomFault>
    requires { start.at ≤ length bytes.now }
    ensures run { IfOk result (λ run. IsRunBetween bytes.now kind start run.count run.end) }
    ensures rest { IfOk result (λ run. fault_from bytes.now run.end ≡ fault_from bytes.now start) }
    ensures ended { IfOk result (λ run. 0 < run.end.left → run.end.at < length bytes.now →
        slice_index bytes.now run.end.at ≢ tag_of kind) }
    ensures fault { IfErr result (λ fault. fault_from bytes.now start ≡ Some fault) }
{
    let mut place = start;
    let mut count = 0;
    'records: while place.left > 0 && place.at < bytes.len() && bytes[place.at] == kind.tag() {
        place = passed(bytes, kind, place)?;
        count += 1;
    }
    Ok(Run { count, end: place })
}

/// Passes over the record at a place, whose tag is that of its kind.
fn passed(bytes: &[u8], kind: RecordKind, place: Place) -> Result<Place, AtomFault>
    requires inside { place.at < length bytes.now }
    requires tag { slice_index bytes.now place.at ≡ tag_of kind }
    requires some { 0 < place.left }
    ensures none { IfOk result (λ _. record_fault bytes.now place.least place.at ≡ None) }
    ensures next { IfOk result (λ end. end ≡ record {
      at = place.at + size_of kind;
      left = place.left - 1;
      least = record_key bytes.now place.at + 1;
    }) }
    ensures inside { IfOk result (λ end. end.at ≤ length bytes.now) }
    ensures risen { IfOk result (λ _. place.least ≤ record_key bytes.now place.at) }
    ensures fault { IfErr result (λ fault.
        record_fault bytes.now place.least place.at ≡ Some fault) }
{
    if bytes.len() - place.at < kind.size() {
        return Err(AtomFault::Torn(bytes.len() as u64));
    }
    let key = u64::from(kind.tag()) * 0x1_0000_0000 + u64::from(u32_at(bytes, place.at + 1));
    if key < place.least {
        return Err(AtomFault::OutOfOrder(place.at as u64));
    }
    Ok(Place {
        at: place.at + kind.size(),
        left: place.left - 1,
        least: key + 1,
    })
}

/// Looks whether the file ends where the last record does.
pub fn check_end(bytes: &[u8], end: Place) -> Result<(), AtomFault>
    requires inside { end.at ≤ length bytes.now }
    requires low { 0 < end.left → IsBelow bytes.now end }
    ensures none_left { OnOk result (end.left ≡ 0) }
    ensures whole { OnOk result (end.at ≡ length bytes.now) }
    ensures none { OnOk result (fault_from bytes.now end ≡ None) }
    ensures fault { IfErr result (λ fault. fault_from bytes.now end ≡ Some fault) }
{
    if end.left > 0 {
        return Err(fault_at(bytes, end));
    }
    if end.at < bytes.len() {
        return Err(AtomFault::Trailing(end.at as u64));
    }
    Ok(())
}

/// What is wrong with the record at a place, which is out of order where it is one.
fn fault_at(bytes: &[u8], place: Place) -> AtomFault
    requires inside { place.at ≤ length bytes.now }
    requires low { IsBelow bytes.now place }
    ensures { record_fault bytes.now place.least place.at ≡ Some result }
{
    if place.at >= bytes.len() {
        return AtomFault::Torn(bytes.len() as u64);
    }
    let size = record_size(bytes[place.at]);
    if size == 0 {
        return AtomFault::BadTag(place.at as u64);
    }
    if bytes.len() - place.at < size {
        return AtomFault::Torn(bytes.len() as u64);
    }
    AtomFault::OutOfOrder(place.at as u64)
}

/// How many bytes a record with a tag has, and 0 where no record has it.
fn record_size(tag: u8) -> usize
    ensures { result ≡ record_size tag }
{
    match tag {
        1 => 13,
        2 => 15,
        3 => 17,
        _ => 0,
    }
}
