//! The files of the system.
ghost use Rattle.std.specs.Prelude.{◌≡◌, ◌<◌, ◌≤◌, [], false, Err, IsTrue, is_some, IfSome, IfOk, OnOk, length, refl};
ghost use Rattle.std.specs.Io.KnownBytes.{ReadConsumes, WriteAppends};
ghost use Rattle.gl_outside.specs.Faults.{Counts, Rose};
ghost use Rattle.gl_outside.specs.Disk.{ReadsAt, Syncs, WritesAt};
ghost use Rattle.gl_outside.specs.FilesState.{disk_past, is_opened, left_of, written_of};
ghost use Rattle.gl_outside.specs.Frames.{ChangesDisk, LooksAtDisk, OpensDisk, OpensSource, OpensSink, ReadsOnly, WritesOnly};
ghost use Rattle.gl_outside.specs.Names.{NotesName};
ghost use Rattle.gl_outside.specs.Host.{files_of_host, faults_after, faults_after_open, ChangesAt, TakesFront, OpensOne};
ghost use Rattle.gl_outside.specs.Inner.Laws.{nothing_filled};

use crate::fault_count::FaultCount;
use crate::host_disk::{HostDisk, LockFile, open_host_disk};
use crate::writer_sink::write_through;
use crate::{Failed, FileNo, Files, OpenFault};
use std::alloc::Global;
use std::fs::File;
use std::io::Read;
use std::marker::Model;
use std::rt;

/// The files of the system, by path. Each error of the system is a fault, and so is an open of more
/// files than there are numbers for them. A folder may be opened as a file is, and then each read
/// of it fails.
///
/// An open takes its memory first. So where it answers `NoMemory` it has not asked the system for
/// the file, and a file that was to be written is what it was.
#[derive(Drop)]
pub struct HostFiles<R: rt::Files> {
    rt: R,
    sources: Vec<R::File>,
    sinks: Vec<R::File>,
    disks: Vec<HostDisk<R::File>>,
    reads: FaultCount,
    writes: FaultCount,
    disk_faults: FaultCount,
}

impl<R: rt::Files> Model for HostFiles<R> {
    ghost use Rattle.gl_outside.specs.Host.{HostState};

    ghost Value = { HostState R.File };

    ghost view = { λ s. record {
      sources = s.sources.items;
      sinks = s.sinks.items;
      disks = s.disks.items;
      reads = s.reads;
      writes = s.writes;
      disk_faults = s.disk_faults;
    } };
}

impl<R: rt::Files> HostFiles<R> {
    /// The files of this runtime. Nothing is opened yet, and it takes no memory.
    pub fn new(alloc: Global, rt: R) -> Self
        ensures { result ≡ record {
          sources = [];
          sinks = [];
          disks = [];
          reads = 0;
          writes = 0;
          disk_faults = 0;
        } }
    {
        HostFiles {
            rt,
            sources: Vec::new(alloc),
            sinks: Vec::new(alloc),
            disks: Vec::new(alloc),
            reads: FaultCount::new(),
            writes: FaultCount::new(),
            disk_faults: FaultCount::new(),
        }
    }
}

impl<R: rt::Files> Files for HostFiles<R>
where
    R::File: LockFile,
{
    ghost state = { files_of_host };

    ghost disks_observable = { false };

    fn open_source(&mut self, name: &str) -> Result<FileNo, OpenFault>
        ensures opens { OpensSource (files_of_host self.old)
            (files_of_host self.new) name.now result }
        ensures there { OnOk result
            (IfSome (files_of_host self.old).sources.names (λ names.
            IsTrue (is_some ((files_of_host self.old).contents name.now)))) }
        ensures names { NotesName (files_of_host self.old).sources.names
            (files_of_host self.new).sources.names name.now result }
        ensures later { self.old.reads ≤ self.new.reads }
        ensures failed { result ≡ Err OpenFault.Failed → Rose self.old.reads self.new.reads }

        ensures one { OpensOne self.old.sources self.new.sources result }
        ensures counted { self.new.reads ≡ faults_after_open self.old.reads result }
        ensures written { self.new.sinks ≡ self.old.sinks }
        ensures disks { self.new.disks ≡ self.old.disks }
        ensures no_memory { result ≡ Err OpenFault.NoMemory → self.new ≡ self.old }
    {
        open_file(
            &self.rt,
            Way::Read,
            &mut self.sources,
            &mut self.reads,
            name,
        )
    }

    /// Reads on in the file of this number alone. What it gives is what the system gave.
    fn read(&mut self, file: FileNo, buf: &mut [u8]) -> Result<usize, Failed>
        requires { IsTrue (is_opened (files_of_host self.old).sources file.0) }
        ensures bound { IfOk result (λ count. count ≤ length buf.new) }
        ensures bytes { ReadConsumes (left_of (files_of_host self.old) file.0)
            (left_of (files_of_host self.new) file.0) result buf.new }
        ensures frame { ReadsOnly file.0 (files_of_host self.old) (files_of_host self.new) }
        ensures counts { Counts self.old.reads self.new.reads result }

        ensures from_system { ChangesAt file.0 self.old.sources self.new.sources
            (λ was now. ReadConsumes (R.File.remaining was) (R.File.remaining now) result buf.new) }
        ensures counted { self.new.reads ≡ faults_after self.old.reads result }
        ensures written { self.new.sinks ≡ self.old.sinks }
        ensures disks { self.new.disks ≡ self.old.disks }
    {
        match self.sources[file.0 as usize].read(buf) {
            Ok(count) => Ok(count),
            Err(_) => Err(self.reads.raise()),
        }
    }

    fn open_sink(&mut self, name: &str) -> Result<FileNo, OpenFault>
        ensures opens { OpensSink (files_of_host self.old)
            (files_of_host self.new) name.now result }
        ensures names { NotesName (files_of_host self.old).sinks.names
            (files_of_host self.new).sinks.names name.now result }
        ensures later { self.old.writes ≤ self.new.writes }
        ensures failed { result ≡ Err OpenFault.Failed → Rose self.old.writes self.new.writes }

        ensures one { OpensOne self.old.sinks self.new.sinks result }
        ensures counted { self.new.writes ≡ faults_after_open self.old.writes result }
        ensures read { self.new.sources ≡ self.old.sources }
        ensures disks { self.new.disks ≡ self.old.disks }
        ensures no_memory { result ≡ Err OpenFault.NoMemory → self.new ≡ self.old }
    {
        open_file(
            &self.rt,
            Way::Write,
            &mut self.sinks,
            &mut self.writes,
            name,
        )
    }

    /// Hands the piece to the file of this number alone, once.
    fn write(&mut self, file: FileNo, piece: &[u8]) -> Result<usize, Failed>
        requires { IsTrue (is_opened (files_of_host self.old).sinks file.0) }
        ensures bound { IfOk result (λ count. count ≤ length piece.now) }
        ensures bytes { WriteAppends (written_of (files_of_host self.old) file.0)
            (written_of (files_of_host self.new) file.0) result piece.now }
        ensures none_taken { IfOk result (λ count. count ≡ 0 → 0 < length piece.now →
            Rose self.old.writes self.new.writes) }
        ensures frame { WritesOnly file.0 (files_of_host self.old) (files_of_host self.new) }
        ensures counts { Counts self.old.writes self.new.writes result }

        ensures to_system { ChangesAt file.0 self.old.sinks self.new.sinks
            (λ was now. TakesFront (R.File.contents was) (R.File.contents now) result piece.now) }
        ensures counted { self.new.writes ≡ faults_after self.old.writes result }
        ensures read { self.new.sources ≡ self.old.sources }
        ensures disks { self.new.disks ≡ self.old.disks }
    {
        match write_through(&mut self.sinks[file.0 as usize], piece) {
            Ok(count) if count > 0 || piece.is_empty() => Ok(count),
            _ => Err(self.writes.raise()),
        }
    }

    /// Opens the file to read and write it, and makes it where it is missing. It fails while
    /// another process has the file open so: the file is locked until these files are dropped. The
    /// first sync that succeeds syncs its folder too, where that could be opened, so that a file
    /// that was made is found again.
    fn open_disk(&mut self, name: &str) -> Result<FileNo, OpenFault>
        ensures opens { OpensDisk (files_of_host self.old)
            (files_of_host self.new) name.now result }
        ensures names { NotesName (files_of_host self.old).disks.names
            (files_of_host self.new).disks.names name.now result }
        ensures later { self.old.disk_faults ≤ self.new.disk_faults }
        ensures failed { result ≡ Err OpenFault.Failed →
            Rose self.old.disk_faults self.new.disk_faults }

        ensures one { OpensOne self.old.disks self.new.disks result }
        ensures counted { self.new.disk_faults ≡ faults_after_open self.old.disk_faults result }
        ensures read { self.new.sources ≡ self.old.sources }
        ensures written { self.new.sinks ≡ self.old.sinks }
        ensures no_memory { result ≡ Err OpenFault.NoMemory → self.new ≡ self.old }
    {
        open_disk_file(&self.rt, &mut self.disks, &mut self.disk_faults, name)
    }

    fn len(&mut self, file: FileNo) -> Result<u64, Failed>
        requires { IsTrue (is_opened (files_of_host self.old).disks file.0) }
        ensures length { IsTrue false →
            IfOk result (λ count.
            count ≡ length (disk_past (files_of_host self.old) file.0).now.seen) }
        ensures frame { LooksAtDisk (files_of_host self.old) (files_of_host self.new) }
        ensures counts { Counts self.old.disk_faults self.new.disk_faults result }

        ensures of_its_file { ChangesAt file.0 self.old.disks self.new.disks (λ was now. Unit {0}) }
        ensures counted { self.new.disk_faults ≡ faults_after self.old.disk_faults result }
    {
        match self.disks[file.0 as usize].len() {
            Ok(count) => Ok(count),
            Err(_) => Err(self.disk_faults.raise()),
        }
    }

    fn read_at(&mut self, file: FileNo, at: u64, buf: &mut [u8]) -> Result<usize, Failed>
        requires { IsTrue (is_opened (files_of_host self.old).disks file.0) }
        ensures bound { IfOk result (λ count. count ≤ length buf.new) }
        ensures bytes { IsTrue false →
            ReadsAt (disk_past (files_of_host self.old) file.0).now.seen at buf.new result }
        ensures frame { LooksAtDisk (files_of_host self.old) (files_of_host self.new) }
        ensures counts { Counts self.old.disk_faults self.new.disk_faults result }

        ensures of_its_file { ChangesAt file.0 self.old.disks self.new.disks (λ was now. Unit {0}) }
        ensures counted { self.new.disk_faults ≡ faults_after self.old.disk_faults result }
    {
        match self.disks[file.0 as usize].read_at(at, buf) {
            Ok(count) => Ok(count),
            Err(_) => Err(self.disk_faults.raise()),
        }
    }

    fn write_at(&mut self, file: FileNo, at: u64, piece: &[u8]) -> Result<(), Failed>
        requires { IsTrue (is_opened (files_of_host self.old).disks file.0) }
        ensures past { IsTrue false →
            WritesAt (disk_past (files_of_host self.old) file.0) at piece.now
            (disk_past (files_of_host self.new) file.0) result }
        ensures frame { ChangesDisk file.0 (files_of_host self.old) (files_of_host self.new) }
        ensures counts { Counts self.old.disk_faults self.new.disk_faults result }

        ensures of_its_file { ChangesAt file.0 self.old.disks self.new.disks (λ was now. Unit {0}) }
        ensures counted { self.new.disk_faults ≡ faults_after self.old.disk_faults result }
    {
        match self.disks[file.0 as usize].write_at(at, piece) {
            Ok(()) => Ok(()),
            Err(_) => Err(self.disk_faults.raise()),
        }
    }

    /// Asks the system to put the file on the disk, and its folder the first time.
    fn sync(&mut self, file: FileNo) -> Result<(), Failed>
        requires { IsTrue (is_opened (files_of_host self.old).disks file.0) }
        ensures past { IsTrue false →
            Syncs (disk_past (files_of_host self.old) file.0)
            (disk_past (files_of_host self.new) file.0) result }
        ensures frame { ChangesDisk file.0 (files_of_host self.old) (files_of_host self.new) }
        ensures counts { Counts self.old.disk_faults self.new.disk_faults result }

        ensures of_its_file { ChangesAt file.0 self.old.disks self.new.disks (λ was now. Unit {0}) }
        ensures counted { self.new.disk_faults ≡ faults_after self.old.disk_faults result }
    {
        match self.disks[file.0 as usize].sync() {
            Ok(()) => Ok(()),
            Err(_) => Err(self.disk_faults.raise()),
        }
    }

    ghost filled = { nothing_filled };

    ghost reads_an_image = { λ files name told. refl };
}

/// What a file is opened for.
#[derive(Clone, Copy)]
enum Way {
    Read,
    Write,
}

/// Opens a file behind those that are open, once there is memory for it.
fn open_file<R: rt::Files>(
    rt: &R,
    way: Way,
    files: &mut Vec<R::File>,
    faults: &mut FaultCount,
    name: &str,
) -> Result<FileNo, OpenFault>
    ensures one { OpensOne files.old.items files.new.items result }
    ensures counted { faults.new ≡ faults_after_open faults.old result }
    ensures later { faults.old ≤ faults.new }
    ensures failed { result ≡ Err OpenFault.Failed → Rose faults.old faults.new }
{
    let Ok(number) = u32::try_from(files.len()) else {
        return Err(faults.raise().into());
    };
    files.reserve(1)?;
    let opened = match way {
        Way::Read => File::open(rt, name),
        Way::Write => File::create(rt, name),
    };
    let Ok(file) = opened else {
        return Err(faults.raise().into());
    };
    files.push_reserved(file);
    Ok(FileNo(number))
}

/// Opens a file as a disk behind those that are open, once there is memory for it.
fn open_disk_file<R: rt::Files>(
    rt: &R,
    disks: &mut Vec<HostDisk<R::File>>,
    faults: &mut FaultCount,
    name: &str,
) -> Result<FileNo, OpenFault>
where
    R::File: LockFile,
    ensures one { OpensOne disks.old.items disks.new.items result }
    ensures counted { faults.new ≡ faults_after_open faults.old result }
    ensures later { faults.old ≤ faults.new }
    ensures failed { result ≡ Err OpenFault.Failed → Rose faults.old faults.new }
{
    let Ok(number) = u32::try_from(disks.len()) else {
        return Err(faults.raise().into());
    };
    disks.reserve(1)?;
    let Ok(disk) = open_host_disk(rt, name) else {
        return Err(faults.raise().into());
    };
    disks.push_reserved(disk);
    Ok(FileNo(number))
}
