//! Texts that are written in pieces.
ghost use Rattle.std.specs.Prelude.{◌≡◌, ◌+◌, ◌<◌, ◌≤◌, [], IsOk, OnOk, OnErr, length};
ghost use Rattle.std.specs.Io.KnownBytes.{Appends};
ghost use Rattle.gl_outside.specs.Faults.{Rose};
ghost use Rattle.gl_outside.specs.Fronts.{AppendsFront, Moves};

use crate::{Failed, Sink};

/// How many bytes are gathered before they are written.
pub const PIECE: usize = 65536;

/// Writes all of the bytes. A write that takes none of them is a fault. Where it fails, a front of
/// them was appended.
pub fn write_all<K: Sink>(sink: &mut K, bytes: &[u8]) -> Result<(), Failed>
    ensures ok { OnOk result (Appends (K.held sink.old) (K.held sink.new) bytes.now) }
    ensures fault { OnErr result (Rose (K.faults sink.old) (K.faults sink.new)) }
    ensures front { OnErr result (AppendsFront (K.held sink.old) (K.held sink.new) bytes.now) }
    ensures later { K.faults sink.old ≤ K.faults sink.new }
    ensures same { K.same sink.old sink.new }
{
    let mut written = 0;
    while written < bytes.len() {
        let taken = sink.write(&bytes[written..])?;
        if taken == 0 {
            return Err(Failed);
        }
        written += taken;
    }
    Ok(())
}

/// Writes the gathered bytes and empties the list, where with as many as `line` bytes more it would
/// be longer than a piece. Else nothing is written, and all stays as it was. Where it fails the
/// list stays as it was.
pub fn write_when_full<K: Sink>(
    sink: &mut K,
    piece: &mut Vec<u8>,
    line: usize,
) -> Result<(), Failed>
    ensures ok { OnOk result
        (Moves (K.held sink.old) (K.held sink.new) piece.old.items piece.new.items) }
    ensures fault { OnErr result (Rose (K.faults sink.old) (K.faults sink.new)) }
    ensures front { OnErr result
        (AppendsFront (K.held sink.old) (K.held sink.new) piece.old.items) }
    ensures waits { length piece.old.items + line ≤ PIECE →
        IsOk result × (sink.new ≡ sink.old) × (piece.new ≡ piece.old) }
    ensures empties { PIECE < length piece.old.items + line → OnOk result (piece.new.items ≡ []) }
    ensures kept { OnErr result (piece.new.items ≡ piece.old.items) }
    ensures later { K.faults sink.old ≤ K.faults sink.new }
    ensures same { K.same sink.old sink.new }
{
    if line <= PIECE && piece.len() <= PIECE - line {
        return Ok(());
    }
    write_all(sink, piece)?;
    piece.clear();
    Ok(())
}
