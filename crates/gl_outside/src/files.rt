//! Files by name.
ghost use Rattle.std.specs.Prelude.{◌≡◌, ℕ, ◌<◌, ◌≤◌, Bool, IsTrue, List, Some, is_some, IfSome, IfOk, OnOk, length};
ghost use Rattle.std.specs.Io.KnownBytes.{ReadConsumes, WriteAppends};
ghost use Rattle.gl_outside.specs.Faults.{Counts, Rose};
ghost use Rattle.gl_outside.specs.Disk.{ReadsAt, Syncs, WritesAt, images_now};
ghost use Rattle.gl_outside.specs.FilesState.{FilesState, disk_past, is_opened, left_of, sink_of, written_of};
ghost use Rattle.gl_outside.specs.Frames.{ChangesDisk, LooksAtDisk, OpensDisk, OpensSource, OpensSink, ReadsOnly, WritesOnly};
ghost use Rattle.gl_outside.specs.Names.{NotesName};

use crate::Failed;
use std::alloc::{AllocError, AllocFailed};

/// A file that was opened. Those for reading, those for writing and disks are numbered apart.
#[derive(Clone, Copy)]
pub struct FileNo(pub u32);

/// Why a file was not opened.
#[derive(Clone, Copy)]
pub enum OpenFault {
    Failed,
    NoMemory,
}

impl From<Failed> for OpenFault {
    ghost use Rattle.gl_outside.specs.declared.files.OpenFault.{OpenFault};

    ghost from_gives = { λ error fault. fault ≡ OpenFault.Failed };

    fn from(_: Failed) -> Self {
        OpenFault::Failed
    }
}

impl From<AllocError> for OpenFault {
    ghost use Rattle.gl_outside.specs.declared.files.OpenFault.{OpenFault};

    ghost from_gives = { λ error fault. fault ≡ OpenFault.NoMemory };

    fn from(_: AllocError) -> Self {
        OpenFault::NoMemory
    }
}

impl<T: Drop> From<AllocFailed<T>> for OpenFault {
    ghost use Rattle.gl_outside.specs.declared.files.OpenFault.{OpenFault};

    ghost from_gives = { λ error fault. fault ≡ OpenFault.NoMemory };

    fn from(_: AllocFailed<T>) -> Self {
        OpenFault::NoMemory
    }
}

/// Files by name. That two names are two files is for the caller to see to, on a real system.
///
/// A file that is open for reading goes on with the bytes that it had as it was opened, whatever is
/// written since. A file that is opened for writing is a new one, from which its name gives. A disk
/// is a file apart, also from one of the same name that is opened for reading or writing.
pub trait Files {
    /// What names give, the files that were opened, and how many faults there were.
    ghost state: { Self → FilesState };

    /// Whether it is told what disks hold: over memory it is, and over a real system it is not.
    ghost disks_observable: { Bool };

    /// Opens the file of this name for reading, from its front, and gives it a number of its own. A
    /// file that is missing is
    /// `Failed`: where the names are told that were handed to this call, a name that was opened gives something. Where it
    /// answers a fault no file is opened.
    fn open_source(&mut self, name: &str) -> Result<FileNo, OpenFault>
        ensures opens { OpensSource (state self.old) (state self.new) name.now result }
        ensures there { OnOk result
            (IfSome (state self.old).sources.names (λ names.
            IsTrue (is_some ((state self.old).contents name.now)))) }
        ensures names { NotesName (state self.old).sources.names
            (state self.new).sources.names name.now result }
        ensures later { (state self.old).sources.faults ≤ (state self.new).sources.faults }
        ensures failed { result ≡ Err OpenFault.Failed → Rose (state self.old).sources.faults (state self.new).sources.faults };

    /// Reads on in an open file, as `Source::read` does.
    fn read(&mut self, file: FileNo, buf: &mut [u8]) -> Result<usize, Failed>
        requires { IsTrue (is_opened (state self.old).sources file.0) }
        ensures bound { IfOk result (λ count. count ≤ length buf.new) }
        ensures bytes { ReadConsumes (left_of (state self.old) file.0)
            (left_of (state self.new) file.0) result buf.new }
        ensures frame { ReadsOnly file.0 (state self.old) (state self.new) }
        ensures counts { Counts (state self.old).sources.faults (state self.new).sources.faults result };

    /// Makes the file of this name, or empties it, and opens it for writing. Where it answers a
    /// fault no file is opened, and each name gives what it gave before: an empty file is made only
    /// where `Ok` is answered.
    fn open_sink(&mut self, name: &str) -> Result<FileNo, OpenFault>
        ensures opens { OpensSink (state self.old) (state self.new) name.now result }
        ensures names { NotesName (state self.old).sinks.names
            (state self.new).sinks.names name.now result }
        ensures later { (state self.old).sinks.faults ≤ (state self.new).sinks.faults }
        ensures failed { result ≡ Err OpenFault.Failed → Rose (state self.old).sinks.faults (state self.new).sinks.faults };

    /// Writes behind what was written to an open file, as `Sink::write` does.
    fn write(&mut self, file: FileNo, piece: &[u8]) -> Result<usize, Failed>
        requires { IsTrue (is_opened (state self.old).sinks file.0) }
        ensures bound { IfOk result (λ count. count ≤ length piece.now) }
        ensures bytes { WriteAppends (written_of (state self.old) file.0)
            (written_of (state self.new) file.0) result piece.now }
        ensures none_taken { IfOk result (λ count. count ≡ 0 → 0 < length piece.now →
            Rose (state self.old).sinks.faults (state self.new).sinks.faults) }
        ensures frame { WritesOnly file.0 (state self.old) (state self.new) }
        ensures counts { Counts (state self.old).sinks.faults (state self.new).sinks.faults result };

    /// Opens the file of this name as a disk, and gives it a number of its own. A file that is
    /// missing is made, without bytes. What disks hold, and what a crash may leave of them, stays
    /// as it was. Where it answers a fault no file is opened.
    fn open_disk(&mut self, name: &str) -> Result<FileNo, OpenFault>
        ensures opens { OpensDisk (state self.old) (state self.new) name.now result }
        ensures names { NotesName (state self.old).disks.names
            (state self.new).disks.names name.now result }
        ensures later { (state self.old).disks.faults ≤ (state self.new).disks.faults }
        ensures failed { result ≡ Err OpenFault.Failed → Rose (state self.old).disks.faults (state self.new).disks.faults };

    /// How many bytes a disk has, as `Disk::len` tells.
    fn len(&mut self, file: FileNo) -> Result<u64, Failed>
        requires { IsTrue (is_opened (state self.old).disks file.0) }
        ensures length { IsTrue disks_observable →
            IfOk result (λ count. count ≡ length (disk_past (state self.old) file.0).now.seen) }
        ensures frame { LooksAtDisk (state self.old) (state self.new) }
        ensures counts { Counts (state self.old).disks.faults (state self.new).disks.faults result };

    /// Reads from a disk, as `Disk::read_at` does.
    fn read_at(&mut self, file: FileNo, at: u64, buf: &mut [u8]) -> Result<usize, Failed>
        requires { IsTrue (is_opened (state self.old).disks file.0) }
        ensures bound { IfOk result (λ count. count ≤ length buf.new) }
        ensures bytes { IsTrue disks_observable →
            ReadsAt (disk_past (state self.old) file.0).now.seen at buf.new result }
        ensures frame { LooksAtDisk (state self.old) (state self.new) }
        ensures counts { Counts (state self.old).disks.faults (state self.new).disks.faults result };

    /// Writes to a disk, as `Disk::write_at` does.
    fn write_at(&mut self, file: FileNo, at: u64, piece: &[u8]) -> Result<(), Failed>
        requires { IsTrue (is_opened (state self.old).disks file.0) }
        ensures past { IsTrue disks_observable →
            WritesAt (disk_past (state self.old) file.0) at piece.now
            (disk_past (state self.new) file.0) result }
        ensures frame { ChangesDisk file.0 (state self.old) (state self.new) }
        ensures counts { Counts (state self.old).disks.faults (state self.new).disks.faults result };

    /// Syncs a disk, as `Disk::sync` does.
    fn sync(&mut self, file: FileNo) -> Result<(), Failed>
        requires { IsTrue (is_opened (state self.old).disks file.0) }
        ensures past { IsTrue disks_observable →
            Syncs (disk_past (state self.old) file.0) (disk_past (state self.new) file.0) result }
        ensures frame { ChangesDisk file.0 (state self.old) (state self.new) }
        ensures counts { Counts (state self.old).disks.faults (state self.new).disks.faults result };

    /// A name that a file has which is open for writing gives what was written to it.
    ghost filled: { (files : Self) (file : ℕ) (name : List ℕ) →
        (sink_of (state files) file).name ≡ Some name →
        (state files).contents name ≡ written_of (state files) file };

    /// A disk as it reads is one of its images.
    ghost reads_an_image: { (files : Self) (name : List ℕ) → IsTrue disks_observable →
        images_now ((state files).pasts name) ((state files).pasts name).now.seen };
}
