//! Calls on disks, played from a list.
use crate::bytes::text_of;
use gl_outside::{Disk, DiskOf, Failed, Files};
use std::io;

/// A call on a disk.
#[derive(Clone, Copy)]
pub enum Call {
    Len,
    Read(u64),
    Write(u64, &'static str),
    Sync,
}

/// Makes the calls in turn, and prints what each answers.
pub fn print_calls<D: Disk>(rt: &impl Print, disk: &mut D, calls: &[Call]) -> io::Result<()> {
    for call in calls {
        print_call(rt, disk, *call)?;
    }
    Ok(())
}

fn print_call<D: Disk>(rt: &impl Print, disk: &mut D, call: Call) -> io::Result<()> {
    match call {
        Call::Len => print_length(rt, disk.len()),
        Call::Read(at) => print_read(rt, disk, at),
        Call::Write(at, piece) => print_done(rt, "write", disk.write_at(at, piece.as_bytes())),
        Call::Sync => print_done(rt, "sync", disk.sync()),
    }
}

fn print_length(rt: &impl Print, length: Result<u64, Failed>) -> io::Result<()> {
    match length {
        Ok(count) => print!(rt; " length={count}"),
        Err(_) => print!(rt; " length=failed"),
    }
}

/// Reads up to four bytes at a place.
fn print_read<D: Disk>(rt: &impl Print, disk: &mut D, at: u64) -> io::Result<()> {
    let mut buf = [0; 4];
    match disk.read_at(at, &mut buf) {
        Ok(count) => print!(rt; " read=[{}]", text_of(&buf[..count])),
        Err(_) => print!(rt; " read=failed"),
    }
}

fn print_done(rt: &impl Print, call: &str, answer: Result<(), Failed>) -> io::Result<()> {
    let how = if answer.is_ok() { "done" } else { "failed" };
    print!(rt; " {call}={how}")
}

/// Opens the disk of this name, and makes the calls on it.
pub fn print_calls_by_name<F: Files>(
    rt: &impl Print,
    files: &mut F,
    name: &str,
    calls: &[Call],
) -> io::Result<()> {
    match files.open_disk(name) {
        Ok(file) => print_calls(rt, &mut DiskOf::new(files, file), calls),
        Err(_) => print!(rt; " open=failed"),
    }
}
