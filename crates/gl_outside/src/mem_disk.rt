//! A disk in memory.
ghost use Rattle.std.specs.Prelude.{◌≡◌, ◌↔◌, ◌≤◌, [], true, IsTrue, IfOk, OnErr, IsErr, length, refl};
ghost use Rattle.std.proofs.Common.{◌∙◌};
ghost use Rattle.gl_outside.specs.Calls.{no_calls, after_call};
ghost use Rattle.gl_outside.specs.Disk.{ReadsAt, Syncs, WritesAt};
ghost use Rattle.gl_outside.specs.Faults.{Counts};
ghost use Rattle.gl_outside.specs.MemDisk.{NextStops, past_of};
ghost use Rattle.gl_outside.specs.Inner.DiskImages.{kept_image};

use crate::calls::Calls;
use crate::disk_bytes::DiskBytes;
use crate::{Disk, Failed};
use std::alloc::Global;
use std::marker::Model;

/// Bytes in memory as a disk, with a list of the numbers of the calls that fail; each call after
/// the first `stop` calls fails too. The first call has the number 1. It keeps every call, so that
/// it is told at each moment what a crash may have left.
#[derive(Drop)]
pub struct MemDisk {
    kept: DiskBytes,
    calls: Calls,
    stop: u64,
}

impl Model for MemDisk {
    ghost use Rattle.gl_outside.specs.MemDisk.{MemDiskState};

    ghost Value = { MemDiskState };

    ghost view = { λ d. record { kept = d.kept; calls = d.calls; stop = d.stop } };
}

impl MemDisk {
    /// The disk that holds these bytes, all of them synced. It takes no memory.
    pub fn new(alloc: Global, bytes: Vec<u8>, failing: Vec<u64>, stop: u64) -> Self
        ensures { result ≡ record {
          kept = record { first = bytes.items; done = [] };
          calls = no_calls failing.items;
          stop = stop;
        } }
    {
        MemDisk {
            kept: DiskBytes::new(alloc, bytes),
            calls: Calls::new(failing),
            stop,
        }
    }

    /// What a read gives.
    pub fn bytes(&self) -> &[u8]
        ensures { result.now ≡ (past_of self.now.kept).now.seen }
    {
        self.kept.bytes()
    }
}

impl Disk for MemDisk {
    ghost faults = { λ d. d.calls.faults };

    ghost observable = { true };

    ghost past = { λ d. past_of d.kept };

    ghost same = { λ d e. e.stop ≡ d.stop };

    ghost same_refl = { λ a. refl };

    ghost same_trans = { λ a b c p q. q ∙ p };

    fn len(&mut self) -> Result<u64, Failed>
        ensures length { IsTrue true →
            IfOk result (λ count. count ≡ length (past_of self.old.kept).now.seen) }
        ensures past { IsTrue true → past_of self.new.kept ≡ past_of self.old.kept }
        ensures same { self.new.stop ≡ self.old.stop }
        ensures counts { Counts self.old.calls.faults self.new.calls.faults result }

        ensures fails { IsErr result ↔ NextStops self.old.calls self.old.stop }
        ensures calls { self.new.calls ≡ after_call self.old.calls result }
        ensures kept { self.new.kept ≡ self.old.kept }
    {
        if self.calls.count_until(self.stop) {
            return Err(self.calls.fault());
        }
        Ok(self.kept.bytes().len() as u64)
    }

    fn read_at(&mut self, at: u64, buf: &mut [u8]) -> Result<usize, Failed>
        ensures bound { IfOk result (λ count. count ≤ length buf.new) }
        ensures bytes { IsTrue true → ReadsAt (past_of self.old.kept).now.seen at buf.new result }
        ensures past { IsTrue true → past_of self.new.kept ≡ past_of self.old.kept }
        ensures same { self.new.stop ≡ self.old.stop }
        ensures counts { Counts self.old.calls.faults self.new.calls.faults result }

        ensures fails { IsErr result ↔ NextStops self.old.calls self.old.stop }
        ensures calls { self.new.calls ≡ after_call self.old.calls result }
        ensures kept { self.new.kept ≡ self.old.kept }
    {
        if self.calls.count_until(self.stop) {
            return Err(self.calls.fault());
        }
        Ok(self.kept.read(at, buf))
    }

    /// Fails where its number is listed, past the first `stop` calls, and where there is no memory
    /// to keep it; then nothing is written.
    fn write_at(&mut self, at: u64, piece: &[u8]) -> Result<(), Failed>
        ensures past { IsTrue true →
            WritesAt (past_of self.old.kept) at piece.now (past_of self.new.kept) result }
        ensures same { self.new.stop ≡ self.old.stop }
        ensures counts { Counts self.old.calls.faults self.new.calls.faults result }

        ensures listed { NextStops self.old.calls self.old.stop → IsErr result }
        ensures refused { OnErr result (self.new.kept ≡ self.old.kept) }
        ensures calls { self.new.calls ≡ after_call self.old.calls result }
    {
        if self.calls.count_until(self.stop) {
            return Err(self.calls.fault());
        }
        match self.kept.write(at, piece) {
            Ok(()) => Ok(()),
            Err(_) => Err(self.calls.fault()),
        }
    }

    /// Fails as a write does.
    fn sync(&mut self) -> Result<(), Failed>
        ensures past { IsTrue true → Syncs (past_of self.old.kept) (past_of self.new.kept) result }
        ensures same { self.new.stop ≡ self.old.stop }
        ensures counts { Counts self.old.calls.faults self.new.calls.faults result }

        ensures listed { NextStops self.old.calls self.old.stop → IsErr result }
        ensures refused { OnErr result (self.new.kept ≡ self.old.kept) }
        ensures calls { self.new.calls ≡ after_call self.old.calls result }
    {
        if self.calls.count_until(self.stop) {
            return Err(self.calls.fault());
        }
        match self.kept.sync() {
            Ok(()) => Ok(()),
            Err(_) => Err(self.calls.fault()),
        }
    }

    ghost reads_an_image = { λ disk told. kept_image disk.kept };
}
