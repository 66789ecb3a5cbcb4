//! The streams of the system as sinks.
ghost use Rattle.std.specs.Prelude.{◌≡◌, ℕ, ◌<◌, ◌≤◌, None, IfOk, length, take};
ghost use Rattle.std.specs.Io.KnownBytes.{Appends, WriteAppends};
ghost use Rattle.gl_outside.specs.Faults.{Counts, Rose};
ghost use Rattle.gl_outside.specs.Fronts.{AppendsFront};
ghost use Rattle.gl_outside.specs.Host.{faults_after};

use crate::fault_count::FaultCount;
use crate::{Failed, Sink};
use std::io;
use std::marker::Model;

/// A writer as a sink. Each write is flushed, and it fails where the writer or the flush fails, and
/// where the writer takes nothing of a piece that is not empty.
#[derive(Drop)]
pub struct WriterSink<W> {
    writer: W,
    faults: FaultCount,
}

/// The sink of the answer, over standard output.
pub type OutSink<W> = WriterSink<W>;

/// The sink of reports and messages, over standard error.
pub type NoteSink<W> = WriterSink<W>;

impl<W> Model for WriterSink<W> {
    ghost use Rattle.gl_outside.specs.Host.{WriterState};

    ghost Value = { WriterState W };

    ghost view = { λ s. record { writer = s.writer; faults = s.faults } };
}

impl<W> WriterSink<W> {
    /// The sink over this writer. Contracts see the writer and the count of faults.
    pub fn new(writer: W) -> Self
        ensures { result ≡ record { writer = writer; faults = 0 } }
    {
        WriterSink {
            writer,
            faults: FaultCount::new(),
        }
    }
}

impl<W: io::Write> Sink for WriterSink<W> {
    ghost faults = { λ s. s.faults };

    ghost held = { λ s. None };

    ghost same = { λ s t. Unit {0} };

    ghost same_refl = { λ a. tt };

    ghost same_trans = { λ a b c p q. tt };

    /// Hands the piece to the writer, once.
    fn write(&mut self, piece: &[u8]) -> Result<usize, Failed>
        ensures bound { IfOk result (λ count. count ≤ length piece.now) }
        ensures bytes { WriteAppends None None result piece.now }
        ensures none_taken { IfOk result (λ count. count ≡ 0 → 0 < length piece.now →
            Rose self.old.faults self.new.faults) }
        ensures same { Unit {0} }
        ensures counts { Counts self.old.faults self.new.faults result }

        ensures written { IfOk result
            (λ count. Appends (W.contents self.old.writer) (W.contents self.new.writer)
            (take count piece.now)) }
        ensures front { AppendsFront (W.contents self.old.writer)
            (W.contents self.new.writer) piece.now }
        ensures counted { self.new.faults ≡ faults_after self.old.faults result }
    {
        match write_through(&mut self.writer, piece) {
            Ok(count) if count > 0 || piece.is_empty() => Ok(count),
            _ => Err(self.faults.raise()),
        }
    }
}

/// Writes what the writer takes of the piece, and flushes it.
pub(crate) fn write_through<W: io::Write>(writer: &mut W, piece: &[u8]) -> io::Result<usize>
    ensures bound { IfOk result (λ count. count ≤ length piece.now) }
    ensures bytes { IfOk result (λ count.
        Appends (W.contents writer.old) (W.contents writer.new) (take count piece.now)) }
    ensures front { AppendsFront (W.contents writer.old) (W.contents writer.new) piece.now }
{
    let count = writer.write(piece)?;
    writer.flush()?;
    Ok(count)
}
