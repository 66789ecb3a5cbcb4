//! Calls of the engine over files in memory.
use crate::gates::CountingGate;
use crate::stage::{Fault, Held, Stage};
use engine_cli::{Ended, engine};
use gl_outside::{MemFiles, MemSink};
use std::alloc::Global;
use std::sync::Wait;
use std::thread::Threads;

/// As many words as the engine does not take.
const TOO_MANY_WORDS: usize = 4294967295;

/// What a call left.
#[derive(Drop)]
pub struct Left {
    pub ended: Ended,
    pub files: MemFiles,
    pub out: MemSink,
    pub note: MemSink,
    pub gate: CountingGate,
}

/// Makes a call.
pub fn make_call<R: Threads + Wait + Sync>(
    rt: &R,
    alloc: Global,
    stage: &Stage<'_>,
    words: &[String],
) -> Left {
    let words = if words.len() < TOO_MANY_WORDS {
        words
    } else {
        &[]
    };
    let mut files = files_of(alloc, stage);
    let mut out = sink_of(alloc, stage, "out", stage.room_of_out);
    let mut note = sink_of(alloc, stage, "note", stage.room_of_note);
    let gate = CountingGate::new(alloc, stage.meeting);
    let ended = engine(rt, alloc, words, &mut files, &mut out, &mut note, &gate);
    Left {
        ended,
        files,
        out,
        note,
        gate,
    }
}

/// Returns the files and disks that are there.
fn files_of(alloc: Global, stage: &Stage<'_>) -> MemFiles {
    let reads = numbers(alloc, &stage.faults, "reads");
    let writes = numbers(alloc, &stage.faults, "writes");
    let disks = numbers(alloc, &stage.faults, "disks");
    let stop = calls_before_stop(&stage.faults);
    let mut files = MemFiles::new(alloc, reads, writes, disks, stop);
    for held in stage.held.iter() {
        put(alloc, held, &mut files);
    }
    files
}

/// Puts a file or a disk that is there.
fn put(alloc: Global, held: &Held<'_>, files: &mut MemFiles) {
    let Some(bytes) = copied(alloc, &held.bytes) else {
        return;
    };
    if held.is_disk {
        let _ = files.put_disk(held.name, bytes);
    } else {
        let _ = files.put(held.name, bytes);
    }
}

/// Returns a copy of the bytes of a file that is there.
fn copied(alloc: Global, bytes: &Option<Vec<u8>>) -> Option<Vec<u8>> {
    match bytes {
        Some(bytes) => Vec::from_slice(alloc, bytes).ok(),
        None => None,
    }
}

/// Returns a sink with so much room, on which these calls fail.
fn sink_of(alloc: Global, stage: &Stage<'_>, calls: &str, room: u64) -> MemSink {
    MemSink::new(alloc, numbers(alloc, &stage.faults, calls), room)
}

/// Returns the numbers of the calls that fail.
fn numbers(alloc: Global, faults: &[Fault<'_>], calls: &str) -> Vec<u64> {
    let mut numbers = Vec::new(alloc);
    for fault in faults {
        if fault.calls == calls {
            let _ = numbers.push(fault.number);
        }
    }
    numbers
}

/// Returns how many calls on disks are made before all fail.
fn calls_before_stop(faults: &[Fault<'_>]) -> u64 {
    let mut least = u64::MAX;
    for fault in faults {
        if fault.calls == "stop" {
            least = least.min(fault.number.saturating_sub(1));
        }
    }
    least
}

/// Returns the files and disks that a call left, of those that are named.
pub fn kept<'a>(alloc: Global, held: &[Held<'a>], files: &MemFiles) -> Vec<Held<'a>> {
    let mut all = Vec::new(alloc);
    for held in held {
        let _ = all.push(Held {
            name: held.name,
            is_disk: held.is_disk,
            bytes: bytes_left(alloc, held, files),
        });
    }
    all
}

/// Returns what a call left of a file or a disk.
fn bytes_left(alloc: Global, held: &Held<'_>, files: &MemFiles) -> Option<Vec<u8>> {
    let bytes = if held.is_disk {
        Some(files.disk_bytes(held.name))
    } else {
        files.bytes(held.name)
    };
    match bytes {
        Some(bytes) => Vec::from_slice(alloc, bytes).ok(),
        None => None,
    }
}

/// Returns whether a call left a file or a disk as it was.
pub fn is_kept(held: &Held<'_>, files: &MemFiles) -> bool {
    let before = match &held.bytes {
        Some(bytes) => Some(bytes.as_slice()),
        None => None,
    };
    if held.is_disk {
        return before.unwrap_or(&[]) == files.disk_bytes(held.name);
    }
    match (before, files.bytes(held.name)) {
        (Some(before), Some(after)) => before == after,
        (None, None) => true,
        _ => false,
    }
}
