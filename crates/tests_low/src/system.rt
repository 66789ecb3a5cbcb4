//! Files, disks and streams of the system.
use crate::bytes::text_of;
use crate::disks::{Call, print_calls_by_name};
use crate::names::{is_written, print_file};
use gl_outside::{Failed, Files, HostFiles, LockFile, OutSink, Sink};
use std::alloc::Global;
use std::{fs, io, rt};

/// Prints what files and disks of the system give and take, in the folder where the program runs.
pub fn print_system<R: Print + rt::Files + Alloc>(rt: &R, alloc: Global) -> io::Result<()>
where
    R::File: LockFile,
{
    fs::write(rt, "some_file", b"a longer text".as_slice())?;
    print_files(rt, &mut HostFiles::new(alloc, rt))?;
    print_disk(
        rt,
        &mut HostFiles::new(alloc, rt),
        &mut HostFiles::new(alloc, rt),
    )?;
    print_disk_again(rt, &mut HostFiles::new(alloc, rt))?;
    print_held(rt)
}

fn print_files<R: Print + rt::Files>(rt: &R, files: &mut HostFiles<&R>) -> io::Result<()>
where
    R::File: LockFile,
{
    print_written(rt, files)?;
    fs::remove_file(rt, "some_file")?;
    print_unread(rt, files)
}

/// A file is read as it was written over.
fn print_written<R: Print + rt::Files>(rt: &R, files: &mut HostFiles<&R>) -> io::Result<()>
where
    R::File: LockFile,
{
    let written = is_written(files, "some_file", "one line");
    print!(rt; "file of the system: written over {written}, read")?;
    print_file(rt, files, "some_file")?;
    println!(rt; "")
}

/// A file that is gone is not opened. A folder is no file.
fn print_unread<R: Print + rt::Files>(rt: &R, files: &mut HostFiles<&R>) -> io::Result<()>
where
    R::File: LockFile,
{
    print!(rt; "file that is gone: read")?;
    print_file(rt, files, "some_file")?;
    print!(rt; "\nfolder as a file: read")?;
    print_file(rt, files, ".")?;
    println!(rt; ", written {}", is_written(files, ".", ""))
}

static CALLS: [Call; 7] = [
    Call::Len,
    Call::Write(0, "abc"),
    Call::Write(1, "xy"),
    Call::Sync,
    Call::Len,
    Call::Read(1),
    Call::Read(9),
];

/// A disk is opened, and others want it while it is open.
fn print_disk<F: Files>(rt: &impl Print, files: &mut F, others: &mut F) -> io::Result<()> {
    print!(rt; "disk of the system:")?;
    print_calls_by_name(rt, files, "some_disk", &CALLS)?;
    print!(rt; "\ndisk of the system, while it is open:")?;
    print_calls_by_name(rt, others, "some_disk", &CALLS[5..])
}

/// A disk that nobody has open is opened again.
fn print_disk_again<F: Files>(rt: &impl Print, files: &mut F) -> io::Result<()> {
    print!(rt; "\ndisk of the system, opened again:")?;
    print_calls_by_name(rt, files, "some_disk", &CALLS[5..])
}

fn print_held<R: Print + rt::Files + Alloc>(rt: &R) -> io::Result<()> {
    let held = fs::read(rt, "some_disk")?;
    fs::remove_file(rt, "some_disk")?;
    println!(rt; "\nfile of that disk: {}", text_of(&held))
}

/// A writer that takes at most so many bytes of a piece, or none and an error, and whose flush may
/// fail.
#[derive(Drop)]
struct Fake {
    takes: Option<usize>,
    flushes: bool,
}

fn full(fails: bool) -> io::Result<()> {
    if fails {
        Err(io::Error::from(io::ErrorKind::StorageFull))
    } else {
        Ok(())
    }
}

impl io::Write for Fake {
    fn write(&mut self, buf: &[u8]) -> io::Result<usize> {
        full(self.takes.is_none())?;
        Ok(self.takes.unwrap_or(0).min(buf.len()))
    }

    fn flush(&mut self) -> io::Result<()> {
        full(!self.flushes)
    }
}

/// How many bytes of a piece a writer takes, and whether its flush is done.
static WRITERS: [(&str, Option<usize>, bool); 4] = [
    ("takes two bytes", Some(2), true),
    ("takes none", Some(0), true),
    ("takes three, and can't be flushed", Some(3), false),
    ("fails", None, true),
];

/// Prints what sinks over writers take of three bytes.
pub fn print_streams(rt: &impl Print, alloc: Global) -> io::Result<()> {
    let mut held = Vec::new(alloc);
    print_taken(rt, "takes all", OutSink::new(&mut held).write(b"abc"))?;
    println!(rt; "what it took: {}", text_of(&held))?;
    for (name, takes, flushes) in &WRITERS {
        let fake = Fake {
            takes: *takes,
            flushes: *flushes,
        };
        print_taken(rt, name, OutSink::new(fake).write(b"abc"))?;
    }
    Ok(())
}

/// Prints what a sink takes of no bytes.
pub fn print_nothing<K: Sink>(rt: &impl Print, sink: &mut K) -> io::Result<()> {
    print_taken(rt, "gets no bytes", sink.write(b""))
}

fn print_taken(rt: &impl Print, name: &str, taken: Result<usize, Failed>) -> io::Result<()> {
    match taken {
        Ok(count) => println!(rt; "writer that {name}: {count}"),
        Err(_) => println!(rt; "writer that {name}: failed"),
    }
}
