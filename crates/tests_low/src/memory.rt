//! The sources, sinks, files and disks in memory.
use crate::bytes::text_of;
use crate::disks::{Call, print_calls, print_calls_by_name};
use crate::images::{images_of_a_write, write_and_sync};
use crate::names::{is_written, print_file, print_reads};
use gl_outside::{
    Gate, MemDisk, MemFiles, MemSink, MemSource, OpenGate, PlainSource, Sink, write_all,
};
use std::alloc::{AllocError, Global};
use std::io;

/// Prints what the objects in memory give and take, and their failing calls.
pub fn print_memory(rt: &impl Print, alloc: Global) -> io::Result<()> {
    print_sources(rt, alloc)?;
    print_sink(rt, &mut MemSink::new(alloc, Vec::new(alloc), 5))?;
    print_files(rt, alloc, &mut files_of(alloc, 0, 0)?)?;
    for fault in &FAULTS {
        print_disk(rt, alloc, fault)?;
    }
    for fault in &FAULTS_BY_NAME {
        print_disk_by_name(rt, alloc, fault)?;
    }
    print_images(rt, alloc)
}

fn bytes(alloc: Global, text: &str) -> Result<Vec<u8>, AllocError> {
    Vec::from_slice(alloc, text.as_bytes())
}

fn print_sources(rt: &impl Print, alloc: Global) -> io::Result<()> {
    let mut source = MemSource::new(bytes(alloc, "hello")?, vec![in alloc; 2]?);
    print!(rt; "source in memory, call 2 fails:")?;
    print_reads(rt, &mut source, 5)?;
    print!(rt; "\nplain source:")?;
    print_reads(rt, &mut PlainSource::new(bytes(alloc, "abc")?), 3)?;
    println!(rt; "")
}

/// Fills a sink.
fn print_sink(rt: &impl Print, sink: &mut MemSink) -> io::Result<()> {
    let whole = write_all(sink, b"abc").is_ok();
    let count = sink.write(b"defg").ok();
    let held = text_of(sink.bytes());
    OpenGate.pass(7);
    println!(rt;
        "sink with room for 5: abc written {whole}, bytes taken of defg {count:?}, holds {held}"
    )
}

/// A file is read as it was put, and as it was written then.
fn print_files(rt: &impl Print, alloc: Global, files: &mut MemFiles) -> io::Result<()> {
    let kept = files.put("a", bytes(alloc, "one")?).is_ok();
    print!(rt; "file in memory: put {kept}, read")?;
    print_file(rt, files, "a")?;
    let written = is_written(files, "a", "three");
    print!(rt; ", written {written}, read")?;
    print_file(rt, files, "a")?;
    let held = text_of(files.bytes("a").unwrap_or(b""));
    println!(rt; ", holds {held}")
}

/// The calls on a disk of three bytes.
static CALLS: [Call; 5] = [
    Call::Len,
    Call::Write(1, "xy"),
    Call::Sync,
    Call::Read(0),
    Call::Read(9),
];

/// Which call on a disk fails, 0 for none, and after how many all do.
type Fault = (&'static str, u64, u64);

static FAULTS: [Fault; 3] = [
    ("no call fails", 0, u64::MAX),
    ("call 2 fails", 2, u64::MAX),
    ("calls fail from 3 on", 0, 2),
];

/// The same of calls on files, of which the first opens the disk.
static FAULTS_BY_NAME: [Fault; 4] = [
    ("no call fails", 0, u64::MAX),
    ("call 3 fails", 3, u64::MAX),
    ("calls fail from 4 on", 0, 3),
    ("call 1 fails", 1, u64::MAX),
];

/// No files, and no disks.
fn files_of(alloc: Global, failing: u64, stop: u64) -> Result<MemFiles, AllocError> {
    let failing = vec![in alloc; failing]?;
    Ok(MemFiles::new(alloc, Vec::new(alloc), Vec::new(alloc), failing, stop))
}

/// Makes the calls on a disk of three bytes.
fn print_disk(rt: &impl Print, alloc: Global, (name, failing, stop): &Fault) -> io::Result<()> {
    let failing = vec![in alloc; *failing]?;
    let mut disk = MemDisk::new(alloc, bytes(alloc, "abc")?, failing, *stop);
    print!(rt; "disk in memory, {name}:")?;
    print_calls(rt, &mut disk, &CALLS)?;
    println!(rt; "")
}

/// Makes the calls on a disk among files, and prints what it holds then.
fn print_disk_by_name(
    rt: &impl Print,
    alloc: Global,
    (name, failing, stop): &Fault,
) -> io::Result<()> {
    let mut files = files_of(alloc, *failing, *stop)?;
    let kept = files.put_disk("d", bytes(alloc, "abc")?).is_ok();
    print!(rt; "disk among files, {name}: put {kept}")?;
    print_calls_by_name(rt, &mut files, "d", &CALLS)?;
    println!(rt; ", holds {}", text_of(files.disk_bytes("d")))
}

/// The disk whose images `images_of_a_write` tells.
fn print_images(rt: &impl Print, alloc: Global) -> io::Result<()> {
    images_of_a_write();
    let bytes = Vec::from_slice(alloc, &[1, 2, 3])?;
    let mut disk = MemDisk::new(alloc, bytes, Vec::new(alloc), u64::MAX);
    let done = write_and_sync(&mut disk).is_ok();
    println!(rt;
        "disk of 1, 2, 3 with 9 written at 1 and synced: done {done}, holds {:?}",
        disk.bytes()
    )
}
