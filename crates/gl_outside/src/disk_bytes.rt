//! Bytes in memory that are written at any place, with all that was done to them.
ghost use Rattle.std.specs.Prelude.{◌≡◌, ◌+◌, ◌-◌, ◌≤◌, [], ◌++◌, OnOk, OnErr, length, take, drop, replicate};
ghost use Rattle.gl_outside.specs.Disk.{ReadsSome, after_sync, after_write, followed_by, with_piece};
ghost use Rattle.gl_outside.specs.MemDisk.{past_of};

use crate::mem_source::copy_front;
use std::alloc::{AllocError, Global};
use std::marker::Model;

/// A call that changed what a disk holds, or what a crash may leave of it.
#[derive(Drop)]
pub(crate) enum DiskCall {
    Wrote { at: usize, piece: Vec<u8> },
    Synced,
}

/// The bytes of a disk, those before the first write, and every call that changed them.
#[derive(Drop)]
pub(crate) struct DiskBytes {
    alloc: Global,
    bytes: Vec<u8>,
    // None before the first write: no memory is taken for bytes that are handed in.
    first: Option<Vec<u8>>,
    done: Vec<DiskCall>,
}

impl Model for DiskBytes {
    ghost use Rattle.std.specs.Prelude.{◌≡◌};
    ghost use Rattle.gl_outside.specs.MemDisk.{KeptDisk, past_of};
    ghost use Rattle.gl_outside.specs.Inner.DiskBytes.{first_of};

    ghost Value = { KeptDisk };

    ghost view = { λ d. record { first = first_of d.first d.bytes.items; done = d.done.items } };

    ghost invariant = { λ d.
        d.bytes.items ≡ (past_of (record {
          first = first_of d.first d.bytes.items;
          done = d.done.items;
        })).now.seen };
}

impl DiskBytes {
    /// A disk that holds these bytes. It takes no memory.
    pub(crate) fn new(alloc: Global, bytes: Vec<u8>) -> Self
        ensures { result ≡ record { first = bytes.items; done = [] } }
    {
        DiskBytes {
            alloc,
            bytes,
            first: None,
            done: Vec::new(alloc),
        }
    }

    /// What a read gives.
    pub(crate) fn bytes(&self) -> &[u8]
        ensures { result.now ≡ (past_of self.now).now.seen }
    {
        self.bytes.as_slice()
    }

    /// Copies what stands at that place into the front of the buffer, and returns how much that is.
    pub(crate) fn read(&self, at: u64, buf: &mut [u8]) -> usize
        ensures { ReadsSome (past_of self.now).now.seen at buf.new result }
    {
        let bytes = self.bytes.as_slice();
        let from = (at as usize).min(bytes.len());
        copy_front(&bytes[from..], buf)
    }

    /// Writes the piece at that place. Where there is no memory, all stays as it was.
    pub(crate) fn write(&mut self, at: u64, piece: &[u8]) -> Result<(), AllocError>
        ensures ok { OnOk result (past_of self.new ≡ followed_by (past_of self.old)
            (after_write (past_of self.old).now at (length piece.now)
            (with_piece (past_of self.old).now.seen at piece.now))) }
        ensures err { OnErr result (self.new ≡ self.old) }
    {
        let call = DiskCall::Wrote {
            at: at as usize,
            piece: piece.to_vec(self.alloc)?,
        };
        self.done.reserve(1)?;
        if self.first.is_none() {
            self.first = Some(self.bytes.to_vec(self.alloc)?);
        }
        put_piece(&mut self.bytes, at as usize, piece)?;
        self.done.push_reserved(call);
        Ok(())
    }

    /// Notes that all is on the disk. Where there is no memory, all stays as it was.
    pub(crate) fn sync(&mut self) -> Result<(), AllocError>
        ensures ok { OnOk result
            (past_of self.new ≡ followed_by (past_of self.old)
            (after_sync (past_of self.old).now)) }
        ensures err { OnErr result (self.new ≡ self.old) }
    {
        self.done.push(DiskCall::Synced)?;
        Ok(())
    }
}

/// Puts the piece in its place. Where there is no memory, all stays as it was.
fn put_piece(bytes: &mut Vec<u8>, at: usize, piece: &[u8]) -> Result<(), AllocError>
    ensures ok { OnOk result (bytes.new.items ≡ with_piece bytes.old.items at piece.now) }
    ensures err { OnErr result (bytes.new.items ≡ bytes.old.items) }
{
    let Some(end) = at.checked_add(piece.len()) else {
        return Err(AllocError);
    };
    grow(bytes, end)?;
    write_over(bytes, at, piece);
    Ok(())
}

/// Adds zeros up to a length. Where there is no memory, all stays as it was.
fn grow(bytes: &mut Vec<u8>, end: usize) -> Result<(), AllocError>
    ensures ok { OnOk result
        (bytes.new.items ≡ bytes.old.items ++ replicate (end - length bytes.old.items) 0) }
    ensures err { OnErr result (bytes.new.items ≡ bytes.old.items) }
{
    if end > bytes.len() {
        bytes.resize(end, 0)?;
    }
    Ok(())
}

/// Writes the piece over what stands at its place.
fn write_over(bytes: &mut Vec<u8>, at: usize, piece: &[u8])
    requires { at + length piece.now ≤ length bytes.old.items }
    ensures { bytes.new.items ≡ take at bytes.old.items ++ piece.now ++ drop
        (at + length piece.now) bytes.old.items }
{
    bytes[at..at + piece.len()].copy_from_slice(piece);
}
