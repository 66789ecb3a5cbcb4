//! A file of the system as a disk.
ghost use Rattle.std.specs.Prelude.{◌≤◌, IfOk, length};

use std::fs::{File, OpenFile, OpenOptions};
use std::io::{self, ErrorKind, Read, Seek, SeekFrom, Write};
use std::marker::Model;
use std::path::Path;
use std::rt;

/// An open file, and its folder until that was synced too: a file that was made is found again only
/// then, and who made one that is there may have ended before.
#[derive(Drop)]
pub(crate) struct HostDisk<F> {
    file: F,
    folder: Option<F>,
}

impl<F> Model for HostDisk<F> {
    ghost Value = { F };

    ghost view = { λ d. d.file };
}

/// A file on which one process at a time can hold the system's advisory lock.
pub trait LockFile {
    /// Takes the lock, which the process holds until it closes the file. It is an error if another
    /// holds it.
    fn lock_alone(&self) -> io::Result<()>;
}

impl LockFile for File {
    fn lock_alone(&self) -> io::Result<()> {
        self.try_lock()?;
        Ok(())
    }
}

/// Opens a file to read and write it, and locks it. One that is missing is made, without bytes,
/// where its folder can be opened.
pub(crate) fn open_host_disk<R: rt::Files>(rt: &R, name: &str) -> io::Result<HostDisk<R::File>>
where
    R::File: LockFile,
{
    let disk = open_unlocked(rt, name)?;
    disk.file.lock_alone()?;
    Ok(disk)
}

/// Opens a file to read and write it, or makes it.
fn open_unlocked<R: rt::Files>(rt: &R, name: &str) -> io::Result<HostDisk<R::File>> {
    let folder = File::open(rt, folder_of(name));
    match OpenOptions::new().read(true).write(true).open(rt, name) {
        Ok(file) => Ok(HostDisk {
            file,
            folder: folder.ok(),
        }),
        Err(error) if error.kind() == ErrorKind::NotFound => Ok(HostDisk {
            folder: Some(folder?),
            file: File::create_new(rt, name)?,
        }),
        Err(error) => Err(error),
    }
}

/// The folder in which a file of this name is.
fn folder_of(name: &str) -> &str {
    match Path::new(name).parent() {
        Some(folder) if !folder.as_str().is_empty() => folder.as_str(),
        _ => ".",
    }
}

impl<F: Read + Write + Seek + OpenFile> HostDisk<F> {
    pub(crate) fn len(&mut self) -> io::Result<u64> {
        Ok(self.file.metadata()?.len())
    }

    pub(crate) fn read_at(&mut self, at: u64, buf: &mut [u8]) -> io::Result<usize>
        ensures { IfOk result (λ count. count ≤ length buf.new) }
    {
        self.file.seek(SeekFrom::Start(at))?;
        self.file.read(buf)
    }

    /// Writes all of the piece, in as many calls as the system takes for it.
    pub(crate) fn write_at(&mut self, at: u64, piece: &[u8]) -> io::Result<()> {
        self.file.seek(SeekFrom::Start(at))?;
        self.file.write_all(piece)
    }
}

impl<F: OpenFile + Drop> HostDisk<F> {
    /// Syncs the file, and its folder the first time.
    pub(crate) fn sync(&mut self) -> io::Result<()> {
        self.file.sync_all()?;
        if let Some(folder) = &self.folder {
            folder.sync_all()?;
        }
        self.folder = None;
        Ok(())
    }
}
