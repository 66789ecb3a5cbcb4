//! A sink in memory.
ghost use Rattle.std.specs.Prelude.{◌≡◌, ◌⊎◌, ℕ, ◌<◌, ◌≤◌, [], Some, IfOk, OnErr, IsErr, length};
ghost use Rattle.std.specs.Io.KnownBytes.{WriteAppends};
ghost use Rattle.gl_outside.specs.Faults.{Counts, Rose};
ghost use Rattle.gl_outside.specs.Calls.{no_calls, NextFails, after_call};
ghost use Rattle.gl_outside.specs.InMemory.{fitting, room_after, HasNoRoom, WantsMemory};

use crate::calls::Calls;
use crate::{Failed, Sink};
use std::alloc::Global;
use std::marker::Model;

/// A sink that keeps what it takes, with a list of the numbers of the writes that fail and with
/// room for so many bytes. The first write has the number 1.
#[derive(Drop)]
pub struct MemSink {
    bytes: Vec<u8>,
    room: u64,
    calls: Calls,
}

impl Model for MemSink {
    ghost use Rattle.std.specs.Prelude.{vec_capacity};
    ghost use Rattle.gl_outside.specs.InMemory.{SinkState};

    ghost Value = { SinkState };

    ghost view = { λ s. record {
      held = s.bytes.items;
      room = s.room;
      ready = vec_capacity s.bytes;
      calls = s.calls;
    } };
}

impl MemSink {
    /// The empty sink with room for `room` bytes. It takes no memory.
    pub fn new(alloc: Global, failing: Vec<u64>, room: u64) -> Self
        ensures held { result.held ≡ [] }
        ensures room { result.room ≡ room }
        ensures ready { result.ready ≡ 0 }
        ensures calls { result.calls ≡ no_calls failing.items }
    {
        MemSink {
            bytes: Vec::new(alloc),
            room,
            calls: Calls::new(failing),
        }
    }

    /// The bytes that it holds.
    pub fn bytes(&self) -> &[u8]
        ensures { result.now ≡ self.now.held }
    {
        self.bytes.as_slice()
    }
}

impl Sink for MemSink {
    ghost faults = { λ s. s.calls.faults };

    ghost held = { λ s. Some s.held };

    ghost same = { λ s t. Unit {0} };

    ghost same_refl = { λ a. tt };

    ghost same_trans = { λ a b c p q. tt };

    /// Takes what there is room for. It fails where its number is listed, where there is no room
    /// for a piece that is not empty, and where there is no memory for what it would take.
    fn write(&mut self, piece: &[u8]) -> Result<usize, Failed>
        ensures bound { IfOk result (λ count. count ≤ length piece.now) }
        ensures bytes { WriteAppends (Some self.old.held) (Some self.new.held) result piece.now }
        ensures none_taken { IfOk result
            (λ count. count ≡ 0 → 0 < length piece.now →
            Rose self.old.calls.faults self.new.calls.faults) }
        ensures same { Unit {0} }
        ensures counts { Counts self.old.calls.faults self.new.calls.faults result }

        ensures listed { NextFails self.old.calls → IsErr result }
        ensures no_room { HasNoRoom self.old piece.now → IsErr result }
        ensures only { OnErr result
            (NextFails self.old.calls ⊎ HasNoRoom self.old piece.now ⊎
            WantsMemory self.old piece.now) }
        ensures all { IfOk result (λ count. count ≡ fitting self.old piece.now) }
        ensures room { self.new.room ≡ room_after self.old.room result }
        ensures ready { self.old.ready ≤ self.new.ready }
        ensures calls { self.new.calls ≡ after_call self.old.calls result }
    {
        if self.calls.count() {
            return Err(self.calls.fault());
        }
        let count = self.room.min(piece.len() as u64) as usize;
        if count == 0 && !piece.is_empty() {
            return Err(self.calls.fault());
        }
        match self.bytes.extend_from_slice(&piece[..count]) {
            Ok(()) => {
                self.room -= count as u64;
                Ok(count)
            }
            Err(_) => Err(self.calls.fault()),
        }
    }
}
