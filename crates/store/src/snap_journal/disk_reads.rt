//! Reads of a disk.
ghost use Rattle.std.specs.Prelude.{◌≡◌, ◌+◌, ◌^◌, ◌<◌, ◌≤◌, length, take, drop, IsTrue, IfOk, IfErr};
ghost use Rattle.store.specs.snap_journal.Disks.{Counts};
ghost use Rattle.store.specs.snap_journal.Inner.Reads.{IsFilled, ReadErrorCause};

use crate::snap_journal::JournalFault;
use gl_outside::{Disk, Failed};
use std::alloc::Global;

/// Reads from a place on until the buffer is full or the disk ends. Tells how many bytes that is.
fn read_full<D: Disk>(disk: &mut D, at: u64, buf: &mut [u8]) -> Result<usize, Failed>
    requires { at + length buf.old < 2 ^ 64 }
    ensures bound { IfOk result (λ count. count ≤ length buf.new) }
    ensures bytes { IsTrue D.observable →
        IfOk result (λ count. IsFilled (D.past disk.old).now.seen at buf.new count) }
    ensures past { IsTrue D.observable → D.past disk.new ≡ D.past disk.old }
    ensures same { D.same disk.old disk.new }
    ensures counts { Counts (D.faults disk.old) (D.faults disk.new) result }
{
    let mut done = 0;
    'pieces: while done < buf.len() {
        let count = disk.read_at(at + done as u64, &mut buf[done..])?;
        if count == 0 {
            return Ok(done);
        }
        done += count;
    }
    Ok(done)
}

/// The bytes from a place on, up to so many.
pub fn read_front<D: Disk>(
    alloc: Global,
    disk: &mut D,
    at: u64,
    count: usize,
) -> Result<Vec<u8>, JournalFault>
    requires { at + count < 2 ^ 64 }
    ensures most { IfOk result (λ front. length front.items ≤ count) }
    ensures bytes { IsTrue D.observable →
        IfOk result (λ front. front.items ≡ take count (drop at (D.past disk.old).now.seen)) }
    ensures past { IsTrue D.observable → D.past disk.new ≡ D.past disk.old }
    ensures same { D.same disk.old disk.new }
    ensures fault { IfErr result (ReadErrorCause (D.faults disk.old) (D.faults disk.new)) }
    ensures later { D.faults disk.old ≤ D.faults disk.new }
{
    let mut front = vec![in alloc; 0u8; count]?;
    let there = read_full(disk, at, &mut front)?;
    front.truncate(there);
    Ok(front)
}
