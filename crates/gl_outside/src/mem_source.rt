//! Sources in memory.
ghost use Rattle.std.specs.Prelude.{◌≡◌, ◌↔◌, ℕ, ◌≤◌, min, Some, IfOk, IsOk, IsErr, length, take, drop};
ghost use Rattle.std.specs.Io.KnownBytes.{ReadConsumes};
ghost use Rattle.gl_outside.specs.Faults.{Counts};
ghost use Rattle.gl_outside.specs.Calls.{no_calls, NextFails, after_call};

use crate::calls::Calls;
use crate::{Failed, Source};
use std::marker::Model;

/// Bytes in memory that are read without a fault.
#[derive(Drop)]
pub struct PlainSource {
    bytes: Vec<u8>,
    at: usize,
}

impl Model for PlainSource {
    ghost use Rattle.std.specs.Prelude.{ℕ, ◌≤◌, List, drop, vec_len};

    ghost Value = { List ℕ };

    ghost view = { λ s. drop s.at s.bytes.items };

    ghost invariant = { λ s. s.at ≤ vec_len s.bytes };
}

impl PlainSource {
    /// The source that gives these bytes. It takes no memory.
    pub fn new(bytes: Vec<u8>) -> Self
        ensures { result ≡ bytes.items }
    {
        PlainSource { bytes, at: 0 }
    }
}

impl Source for PlainSource {
    ghost faults = { λ s. 0 };

    ghost left = { λ s. Some s };

    ghost same = { λ s t. Unit {0} };

    ghost same_refl = { λ a. tt };

    ghost same_trans = { λ a b c p q. tt };

    fn read(&mut self, buf: &mut [u8]) -> Result<usize, Failed>
        ensures bound { IfOk result (λ count. count ≤ length buf.new) }
        ensures bytes { ReadConsumes (Some self.old) (Some self.new) result buf.new }
        ensures same { Unit {0} }
        ensures counts { Counts 0 0 result }

        ensures never_fails { IsOk result }
        ensures all { IfOk result (λ count. count ≡ min (length self.old) (length buf.new)) }
    {
        let count = copy_front(&self.bytes[self.at..], buf);
        self.at += count;
        Ok(count)
    }
}

/// Bytes in memory, with a list of the numbers of the reads that fail. The first read has the
/// number 1.
#[derive(Drop)]
pub struct MemSource {
    bytes: PlainSource,
    calls: Calls,
}

impl Model for MemSource {
    ghost use Rattle.gl_outside.specs.InMemory.{SourceState};

    ghost Value = { SourceState };

    ghost view = { λ s. record { left = s.bytes; calls = s.calls } };
}

impl MemSource {
    /// The source that gives these bytes. It takes no memory.
    pub fn new(bytes: Vec<u8>, failing: Vec<u64>) -> Self
        ensures { result ≡ record { left = bytes.items; calls = no_calls failing.items } }
    {
        MemSource {
            bytes: PlainSource::new(bytes),
            calls: Calls::new(failing),
        }
    }
}

impl Source for MemSource {
    ghost faults = { λ s. s.calls.faults };

    ghost left = { λ s. Some s.left };

    ghost same = { λ s t. Unit {0} };

    ghost same_refl = { λ a. tt };

    ghost same_trans = { λ a b c p q. tt };

    fn read(&mut self, buf: &mut [u8]) -> Result<usize, Failed>
        ensures bound { IfOk result (λ count. count ≤ length buf.new) }
        ensures bytes { ReadConsumes (Some self.old.left) (Some self.new.left) result buf.new }
        ensures same { Unit {0} }
        ensures counts { Counts self.old.calls.faults self.new.calls.faults result }

        ensures fails { IsErr result ↔ NextFails self.old.calls }
        ensures all { IfOk result (λ count. count ≡ min (length self.old.left) (length buf.new)) }
        ensures calls { self.new.calls ≡ after_call self.old.calls result }
    {
        if self.calls.count() {
            return Err(self.calls.fault());
        }
        self.bytes.read(buf)
    }
}

/// Copies the front of `rest` into the front of `buf`, as much as both have, and returns how much
/// that is.
pub(crate) fn copy_front(rest: &[u8], buf: &mut [u8]) -> usize
    ensures count { result ≡ min (length rest.now) (length buf.old) }
    ensures front { take result buf.new ≡ take result rest.now }
{
    let count = rest.len().min(buf.len());
    buf[..count].copy_from_slice(&rest[..count]);
    count
}
