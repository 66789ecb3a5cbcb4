//! Files in memory.
ghost use Rattle.std.specs.Prelude.{◌≡◌, ◌≢◌, ◌↔◌, ◌⊎◌, ℕ, ◌+◌, ◌^◌, ◌<◌, ◌≤◌, min, [], ◌∷◌, ◌++◌, true, IsTrue, List, Some, None, is_some, All, IfSome, IfOk, OnOk, OnErr, IsErr, MatchOption, Err, length, map, take};
ghost use Rattle.std.specs.Option.{option_map};
ghost use Rattle.std.specs.Io.KnownBytes.{ReadConsumes, WriteAppends};
ghost use Rattle.gl_outside.specs.Faults.{Counts, Rose};
ghost use Rattle.gl_outside.specs.Disk.{ReadsAt, Syncs, WritesAt, at_rest};
ghost use Rattle.gl_outside.specs.DiskStore.{HasNoDiskNumber, opened_disks, past_among};
ghost use Rattle.gl_outside.specs.FilesState.{disk_past, is_opened, left_of, written_of};
ghost use Rattle.gl_outside.specs.Frames.{ChangesDisk, LooksAtDisk, OpensDisk, OpensSource, OpensSink, ReadsOnly, WritesOnly};
ghost use Rattle.gl_outside.specs.MemDisk.{NextStops};
ghost use Rattle.gl_outside.specs.Names.{NotesName};
ghost use Rattle.gl_outside.specs.Calls.{no_calls, NextFails, after_call};
ghost use Rattle.gl_outside.specs.Store.{bytes_of, bytes_at, after_open, files_of_store, IsMissing, HasNoNumber, HasNoSinkNumber, ready_at, ready_in, WantsMemoryAt, WantsMemoryIn};
ghost use Rattle.gl_outside.specs.Inner.OpenFiles.{AddsFile, AddsSink, AddsSource, left_in, IsOpenInside, appended};
ghost use Rattle.gl_outside.specs.Inner.Laws.{among_image, name_filled};

use crate::calls::Calls;
use crate::mem_disks::MemDisks;
use crate::mem_source::copy_front;
use crate::{Failed, FileNo, Files, OpenFault};
use gl_base::{Name, NoMemory};
use std::alloc::{AllocError, Global};
use std::marker::Model;

#[derive(Drop)]
struct StoredFile {
    name: Name,
    bytes: Vec<u8>,
}

impl Model for StoredFile {
    ghost use Rattle.std.specs.Prelude.{vec_capacity};
    ghost use Rattle.gl_outside.specs.Store.{NamedBytes};

    ghost Value = { NamedBytes };

    ghost view = { λ f. record {
      name = f.name;
      bytes = f.bytes.items;
      ready = vec_capacity f.bytes;
    } };
}

/// A file that is open for reading: its place among the files, how far it was read, and where it
/// ended as it was opened.
#[derive(Clone, Copy)]
struct OpenFile {
    place: usize,
    at: usize,
    end: usize,
}

/// Files in memory, with lists of the numbers of the calls that fail. Opens for reading and reads
/// are counted together, so are opens for writing and writes, and so are opens as a disk and the
/// calls on disks, of which each after the first
/// `stop` fails too. The first call of each kind has the number 1.
///
/// A file that is put or made again is a new file: what was opened before goes on with the bytes
/// that it had. A disk is a file apart from the one of its name that is read or written, and one
/// that nobody wrote to has no bytes.
#[derive(Drop)]
pub struct MemFiles {
    alloc: Global,
    files: Vec<StoredFile>,
    source_names: Vec<Name>,
    opened: Vec<OpenFile>,
    reads: Calls,
    sink_names: Vec<Name>,
    sinks: Vec<usize>,
    writes: Calls,
    disks: MemDisks,
}

impl Model for MemFiles {
    ghost use Rattle.std.specs.Prelude.{All, map};
    ghost use Rattle.gl_outside.specs.Store.{StoreState};

    ghost Value = { StoreState };

    ghost use Rattle.gl_outside.specs.Inner.OpenFiles.{left_in, IsOpenInside, AreSinks};

    ghost view = { λ s. record {
      files = s.files.items;
      source_names = s.source_names.items;
      opened = map (left_in s.files.items) s.opened.items;
      reads = s.reads;
      sink_names = s.sink_names.items;
      sinks = s.sinks.items;
      writes = s.writes;
      disks = s.disks;
    } };

    ghost invariant = { λ s. All (IsOpenInside s.files.items) s.opened.items ×
        AreSinks s.files.items s.sinks.items };
}

impl MemFiles {
    /// No files, the numbers of the calls of each kind that fail, and after how many calls on disks
    /// all of them fail. It takes no memory.
    pub fn new(alloc: Global, reads: Vec<u64>, writes: Vec<u64>, disk: Vec<u64>, stop: u64) -> Self
        ensures { result ≡ record {
          files = [];
          source_names = [];
          opened = [];
          reads = no_calls reads.items;
          sink_names = [];
          sinks = [];
          writes = no_calls writes.items;
          disks = record {
            disks = [];
            places = [];
            names = [];
            calls = no_calls disk.items;
            stop = stop;
          };
        } }
    {
        MemFiles {
            alloc,
            files: Vec::new(alloc),
            source_names: Vec::new(alloc),
            opened: Vec::new(alloc),
            reads: Calls::new(reads),
            sink_names: Vec::new(alloc),
            sinks: Vec::new(alloc),
            writes: Calls::new(writes),
            disks: MemDisks::new(alloc, disk, stop),
        }
    }

    /// Adds a file, or replaces what the file of this name gives. Where there is no memory, all
    /// stays as it was.
    pub fn put(&mut self, name: &str, bytes: Vec<u8>) -> Result<(), NoMemory>
        ensures gives { OnOk result (bytes_of self.new.files name.now ≡ Some bytes.items) }
        ensures others { OnOk result
            ((other : List ℕ) → other ≢ name.now →
            bytes_of self.new.files other ≡ bytes_of self.old.files other) }
        ensures source_names { self.new.source_names ≡ self.old.source_names }
        ensures opened { self.new.opened ≡ self.old.opened }
        ensures reads { self.new.reads ≡ self.old.reads }
        ensures sink_names { self.new.sink_names ≡ self.old.sink_names }
        ensures sinks { self.new.sinks ≡ self.old.sinks }
        ensures written { (file : ℕ) →
            written_of (files_of_store self.new) file ≡ written_of (files_of_store self.old) file }
        ensures writes { self.new.writes ≡ self.old.writes }
        ensures disks { self.new.disks ≡ self.old.disks }
        ensures unchanged { OnErr result (self.new ≡ self.old) }
    {
        let name = copied_name(self.alloc, name)?;
        self.files.push(StoredFile { name, bytes })?;
        Ok(())
    }

    /// The bytes of the file of this name, where there is one.
    pub fn bytes(&self, name: &str) -> Option<&[u8]>
        ensures { MatchOption result (IsMissing self.now name.now)
            (λ bytes. bytes_of self.now.files name.now ≡ Some bytes.now) }
    {
        let place = newest(&self.files, name)?;
        let file = &self.files[place];
        Some(file.bytes.as_slice())
    }

    /// The disk of this name holds these bytes from now on, all of them synced. Where there is no
    /// memory, no disk changes.
    pub fn put_disk(&mut self, name: &str, bytes: Vec<u8>) -> Result<(), NoMemory>
        ensures holds { OnOk result
            (past_among self.new.disks.disks name.now ≡ at_rest bytes.items) }
        ensures others { (other : List ℕ) → other ≢ name.now
            → past_among self.new.disks.disks other ≡ past_among self.old.disks.disks other }
        ensures opened { opened_disks self.new.disks ≡ opened_disks self.old.disks }
        ensures calls { self.new.disks.calls ≡ self.old.disks.calls }
        ensures stop { self.new.disks.stop ≡ self.old.disks.stop }
        ensures files { self.new ≡ record self.old { disks = self.new.disks } }
        ensures unchanged { OnErr result
            (past_among self.new.disks.disks ≡ past_among self.old.disks.disks) }
    {
        Ok(self.disks.put(name, bytes)?)
    }

    /// What the disk of this name reads, nothing where none was opened or put.
    pub fn disk_bytes(&self, name: &str) -> &[u8]
        ensures { result.now ≡ (past_among self.now.disks.disks name.now).now.seen }
    {
        self.disks.bytes(name)
    }
}

impl Files for MemFiles {
    ghost state = { files_of_store };

    ghost disks_observable = { true };

    /// Fails where its number is listed, where no file has the name, and where as many files were
    /// opened as there are numbers for them.
    fn open_source(&mut self, name: &str) -> Result<FileNo, OpenFault>
        ensures opens { OpensSource (files_of_store self.old)
            (files_of_store self.new) name.now result }
        ensures there { OnOk result
            (IfSome (files_of_store self.old).sources.names (λ names.
            IsTrue (is_some ((files_of_store self.old).contents name.now)))) }
        ensures names { NotesName (files_of_store self.old).sources.names
            (files_of_store self.new).sources.names name.now result }
        ensures later { self.old.reads.faults ≤ self.new.reads.faults }
        ensures failed { result ≡ Err OpenFault.Failed →
            Rose self.old.reads.faults self.new.reads.faults }

        ensures listed { NextFails self.old.reads → IsErr result }
        ensures missing { IsMissing self.old name.now → IsErr result }
        ensures only { result ≡ Err OpenFault.Failed →
            NextFails self.old.reads ⊎ IsMissing self.old name.now ⊎ HasNoNumber self.old }
        ensures refused { OnErr result (self.new.opened ≡ self.old.opened) }
        ensures one { OnOk result (length self.new.opened ≡ length self.old.opened + 1) }
        ensures number { IfOk result (λ file. file.0 ≡ length self.old.opened) }
        ensures calls { self.new.reads ≡ after_open self.old.reads result }
        ensures files { self.new.files ≡ self.old.files }
        ensures written { self.new.sinks ≡ self.old.sinks }
        ensures writes { self.new.writes ≡ self.old.writes }
        ensures disks { self.new.disks ≡ self.old.disks }
    {
        let listed = self.reads.count();
        let answer = open_in(
            self.alloc,
            &self.files,
            &mut self.source_names,
            &mut self.opened,
            listed,
            name,
        );
        self.reads.settle(answer);
        answer
    }

    fn read(&mut self, file: FileNo, buf: &mut [u8]) -> Result<usize, Failed>
        requires { IsTrue (is_opened (files_of_store self.old).sources file.0) }
        ensures bound { IfOk result (λ count. count ≤ length buf.new) }
        ensures bytes { ReadConsumes (left_of (files_of_store self.old) file.0)
            (left_of (files_of_store self.new) file.0) result buf.new }
        ensures frame { ReadsOnly file.0 (files_of_store self.old) (files_of_store self.new) }
        ensures counts { Counts self.old.reads.faults self.new.reads.faults result }

        ensures fails { IsErr result ↔ NextFails self.old.reads }
        ensures all { IfOk result (λ count.
            IfSome (left_of (files_of_store self.old) file.0) (λ left.
            count ≡ min (length left) (length buf.new))) }
        ensures calls { self.new.reads ≡ after_call self.old.reads result }
        ensures files { self.new.files ≡ self.old.files }
        ensures written { self.new.sinks ≡ self.old.sinks }
        ensures writes { self.new.writes ≡ self.old.writes }
        ensures disks { self.new.disks ≡ self.old.disks }
    {
        if self.reads.count() {
            return Err(self.reads.fault());
        }
        let number = file.0 as usize;
        let (count, file) = read_on(&self.files, self.opened[number], buf);
        self.opened[number] = file;
        Ok(count)
    }

    /// Fails where its number is listed, and where as many files were opened as there are numbers
    /// for them.
    fn open_sink(&mut self, name: &str) -> Result<FileNo, OpenFault>
        ensures opens { OpensSink (files_of_store self.old)
            (files_of_store self.new) name.now result }
        ensures names { NotesName (files_of_store self.old).sinks.names
            (files_of_store self.new).sinks.names name.now result }
        ensures later { self.old.writes.faults ≤ self.new.writes.faults }
        ensures failed { result ≡ Err OpenFault.Failed →
            Rose self.old.writes.faults self.new.writes.faults }

        ensures listed { NextFails self.old.writes → IsErr result }
        ensures only { result ≡ Err OpenFault.Failed → NextFails self.old.writes ⊎
            HasNoSinkNumber self.old }
        ensures gives { OnOk result (bytes_of self.new.files name.now ≡ Some []) }
        ensures refused { OnErr result ((self.new.files ≡ self.old.files) ×
            (self.new.sinks ≡ self.old.sinks)) }
        ensures next { IfOk result (λ file. file.0 ≡ length self.old.sinks) }
        ensures calls { self.new.writes ≡ after_open self.old.writes result }
        ensures reads { self.new.reads ≡ self.old.reads }
        ensures disks { self.new.disks ≡ self.old.disks }
    {
        let listed = self.writes.count();
        let answer = make_in(
            self.alloc,
            &mut self.files,
            &mut self.sink_names,
            &mut self.sinks,
            listed,
            name,
        );
        self.writes.settle(answer);
        answer
    }

    /// Takes the whole piece. It fails where its number is listed, and where there is no memory for
    /// the piece.
    fn write(&mut self, file: FileNo, piece: &[u8]) -> Result<usize, Failed>
        requires { IsTrue (is_opened (files_of_store self.old).sinks file.0) }
        ensures bound { IfOk result (λ count. count ≤ length piece.now) }
        ensures bytes { WriteAppends (written_of (files_of_store self.old) file.0)
            (written_of (files_of_store self.new) file.0) result piece.now }
        ensures none_taken { IfOk result
            (λ count. count ≡ 0 → 0 < length piece.now →
            Rose self.old.writes.faults self.new.writes.faults) }
        ensures frame { WritesOnly file.0 (files_of_store self.old) (files_of_store self.new) }
        ensures counts { Counts self.old.writes.faults self.new.writes.faults result }

        ensures listed { NextFails self.old.writes → IsErr result }
        ensures only { OnErr result (NextFails self.old.writes ⊎
            WantsMemoryIn self.old file.0 piece.now) }
        ensures all { IfOk result (λ count. count ≡ length piece.now) }
        ensures ready { ready_in self.old file.0 ≤ ready_in self.new file.0 }
        ensures refused { OnErr result (self.new.files ≡ self.old.files) }
        ensures calls { self.new.writes ≡ after_call self.old.writes result }
        ensures reads { self.new.reads ≡ self.old.reads }
        ensures disks { self.new.disks ≡ self.old.disks }
    {
        let listed = self.writes.count();
        let place = self.sinks[file.0 as usize];
        match write_in(&mut self.files, place, listed, piece) {
            Ok(()) => Ok(piece.len()),
            Err(_) => Err(self.writes.fault()),
        }
    }

    /// Fails where its number is listed, past the first `stop` calls on disks, and where as many
    /// were opened as there are numbers for them.
    fn open_disk(&mut self, name: &str) -> Result<FileNo, OpenFault>
        ensures opens { OpensDisk (files_of_store self.old)
            (files_of_store self.new) name.now result }
        ensures names { NotesName (files_of_store self.old).disks.names
            (files_of_store self.new).disks.names name.now result }
        ensures later { self.old.disks.calls.faults ≤ self.new.disks.calls.faults }
        ensures failed { result ≡ Err OpenFault.Failed →
            Rose self.old.disks.calls.faults self.new.disks.calls.faults }

        ensures listed { NextStops self.old.disks.calls self.old.disks.stop → IsErr result }
        ensures only { result ≡ Err OpenFault.Failed →
            NextStops self.old.disks.calls self.old.disks.stop ⊎ HasNoDiskNumber self.old.disks }
        ensures calls { self.new.disks.calls ≡ after_open self.old.disks.calls result }
        ensures stop { self.new.disks.stop ≡ self.old.disks.stop }
        ensures files { self.new ≡ record self.old { disks = self.new.disks } }
    {
        self.disks.open(name)
    }

    fn len(&mut self, file: FileNo) -> Result<u64, Failed>
        requires { IsTrue (is_opened (files_of_store self.old).disks file.0) }
        ensures length { IsTrue true →
            IfOk result (λ count.
            count ≡ length (disk_past (files_of_store self.old) file.0).now.seen) }
        ensures frame { LooksAtDisk (files_of_store self.old) (files_of_store self.new) }
        ensures counts { Counts self.old.disks.calls.faults self.new.disks.calls.faults result }

        ensures fails { IsErr result ↔ NextStops self.old.disks.calls self.old.disks.stop }
        ensures calls { self.new.disks.calls ≡ after_call self.old.disks.calls result }
        ensures files { self.new ≡ record self.old { disks = self.new.disks } }
    {
        self.disks.len(file)
    }

    fn read_at(&mut self, file: FileNo, at: u64, buf: &mut [u8]) -> Result<usize, Failed>
        requires { IsTrue (is_opened (files_of_store self.old).disks file.0) }
        ensures bound { IfOk result (λ count. count ≤ length buf.new) }
        ensures bytes { IsTrue true →
            ReadsAt (disk_past (files_of_store self.old) file.0).now.seen at buf.new result }
        ensures frame { LooksAtDisk (files_of_store self.old) (files_of_store self.new) }
        ensures counts { Counts self.old.disks.calls.faults self.new.disks.calls.faults result }

        ensures fails { IsErr result ↔ NextStops self.old.disks.calls self.old.disks.stop }
        ensures calls { self.new.disks.calls ≡ after_call self.old.disks.calls result }
        ensures files { self.new ≡ record self.old { disks = self.new.disks } }
    {
        self.disks.read_at(file, at, buf)
    }

    /// Fails where its number is listed, past the first `stop` calls on disks, and where there is
    /// no memory to keep it; then nothing is written.
    fn write_at(&mut self, file: FileNo, at: u64, piece: &[u8]) -> Result<(), Failed>
        requires { IsTrue (is_opened (files_of_store self.old).disks file.0) }
        ensures past { IsTrue true →
            WritesAt (disk_past (files_of_store self.old) file.0) at piece.now
            (disk_past (files_of_store self.new) file.0) result }
        ensures frame { ChangesDisk file.0 (files_of_store self.old) (files_of_store self.new) }
        ensures counts { Counts self.old.disks.calls.faults self.new.disks.calls.faults result }

        ensures listed { NextStops self.old.disks.calls self.old.disks.stop → IsErr result }
        ensures refused { OnErr result (self.new.disks.disks ≡ self.old.disks.disks) }
        ensures calls { self.new.disks.calls ≡ after_call self.old.disks.calls result }
        ensures files { self.new ≡ record self.old { disks = self.new.disks } }
    {
        self.disks.write_at(file, at, piece)
    }

    /// Fails as a write to a disk does.
    fn sync(&mut self, file: FileNo) -> Result<(), Failed>
        requires { IsTrue (is_opened (files_of_store self.old).disks file.0) }
        ensures past { IsTrue true →
            Syncs (disk_past (files_of_store self.old) file.0)
            (disk_past (files_of_store self.new) file.0) result }
        ensures frame { ChangesDisk file.0 (files_of_store self.old) (files_of_store self.new) }
        ensures counts { Counts self.old.disks.calls.faults self.new.disks.calls.faults result }

        ensures listed { NextStops self.old.disks.calls self.old.disks.stop → IsErr result }
        ensures refused { OnErr result (self.new.disks.disks ≡ self.old.disks.disks) }
        ensures calls { self.new.disks.calls ≡ after_call self.old.disks.calls result }
        ensures files { self.new ≡ record self.old { disks = self.new.disks } }
    {
        self.disks.sync(file)
    }

    ghost filled = { name_filled };

    ghost reads_an_image = { λ files name told. among_image files.disks.disks name };
}

pub(crate) fn copied_name(alloc: Global, name: &str) -> Result<Name, AllocError>
    ensures { IfOk result (λ copy. copy ≡ name.now) }
{
    Ok(Name::new(String::from_str(alloc, name)?))
}

/// Notes a name that was handed to an open. Where there is no memory, none is noted.
pub(crate) fn note(alloc: Global, names: &mut Vec<Name>, name: &str) -> Result<(), AllocError>
    ensures ok { OnOk result (names.new.items ≡ names.old.items ++ name.now ∷ []) }
    ensures err { OnErr result (names.new.items ≡ names.old.items) }
{
    names.push(copied_name(alloc, name)?)?;
    Ok(())
}

/// The number of the next file, where the call is not listed and there is a number left.
pub(crate) fn next_number(listed: bool, count: usize) -> Option<FileNo>
    ensures { MatchOption result (IsTrue listed ⊎
        (2 ^ 32 ≤ count)) (λ file. (file.0 ≡ count) × (IsTrue listed → ⊥)) }
{
    if listed {
        return None;
    }
    let number = u32::try_from(count).ok()?;
    Some(FileNo(number))
}

/// Opens the newest file of this name for reading, unless the call is listed. The name is noted
/// first.
fn open_in(
    alloc: Global,
    files: &[StoredFile],
    names: &mut Vec<Name>,
    opened: &mut Vec<OpenFile>,
    listed: bool,
    name: &str,
) -> Result<FileNo, OpenFault>
    requires { All (IsOpenInside files.now) opened.old.items }
    ensures names { NotesName (Some names.old.items) (Some names.new.items) name.now result }
    ensures adds { AddsSource files.now opened.old.items opened.new.items name.now result }
    ensures inside { All (IsOpenInside files.now) opened.new.items }
    ensures listed { IsTrue listed → IsErr result }
    ensures only { result ≡ Err OpenFault.Failed → IsTrue listed ⊎
        (bytes_of files.now name.now ≡ None) ⊎ (2 ^ 32 ≤ length opened.old.items) }
{
    note(alloc, names, name)?;
    add_opened(files, opened, listed, name)
}

/// Adds the newest file of this name to those that are open, unless the call is listed.
fn add_opened(
    files: &[StoredFile],
    opened: &mut Vec<OpenFile>,
    listed: bool,
    name: &str,
) -> Result<FileNo, OpenFault>
    requires { All (IsOpenInside files.now) opened.old.items }
    ensures adds { AddsSource files.now opened.old.items opened.new.items name.now result }
    ensures inside { All (IsOpenInside files.now) opened.new.items }
    ensures listed { IsTrue listed → IsErr result }
    ensures only { result ≡ Err OpenFault.Failed → IsTrue listed ⊎
        (bytes_of files.now name.now ≡ None) ⊎ (2 ^ 32 ≤ length opened.old.items) }
{
    let Some(number) = next_number(listed, opened.len()) else {
        return Err(OpenFault::Failed);
    };
    let Some(file) = open_newest(files, name) else {
        return Err(OpenFault::Failed);
    };
    opened.push(file)?;
    Ok(number)
}

/// The newest file of this name, from its front.
fn open_newest(files: &[StoredFile], name: &str) -> Option<OpenFile>
    ensures inside { IfSome result (λ file. IsOpenInside files.now file) }
    ensures left { option_map (left_in files.now) result ≡ bytes_of files.now name.now }
{
    let place = newest(files, name)?;
    let file = &files[place];
    let end = file.bytes.len();
    Some(OpenFile { place, at: 0, end })
}

/// Makes an empty file of this name and opens it for writing, unless the call is listed. The name
/// is noted first.
fn make_in(
    alloc: Global,
    files: &mut Vec<StoredFile>,
    names: &mut Vec<Name>,
    sinks: &mut Vec<usize>,
    listed: bool,
    name: &str,
) -> Result<FileNo, OpenFault>
    ensures names { NotesName (Some names.old.items) (Some names.new.items) name.now result }
    ensures adds { AddsSink files.old.items files.new.items sinks.old.items
        sinks.new.items name.now result }
    ensures listed { IsTrue listed → IsErr result }
    ensures only { result ≡ Err OpenFault.Failed → IsTrue listed ⊎
        (2 ^ 32 ≤ length sinks.old.items) }
{
    note(alloc, names, name)?;
    let Some(number) = next_number(listed, sinks.len()) else {
        return Err(OpenFault::Failed);
    };
    make(alloc, files, sinks, name)?;
    Ok(number)
}

/// The place of the newest file of this name.
fn newest(files: &[StoredFile], name: &str) -> Option<usize>
    ensures inside { IfSome result (λ place. place < length files.now) }
    ensures bytes { option_map (bytes_at files.now) result ≡ bytes_of files.now name.now }
{
    let mut found = None;
    for (place, file) in files.iter().enumerate() {
        if file.name.as_str() == name {
            found = Some(place);
        }
    }
    found
}

/// Reads on in an open file. Returns how much that is, and the file as it is then.
fn read_on(files: &[StoredFile], file: OpenFile, buf: &mut [u8]) -> (usize, OpenFile)
    requires { IsOpenInside files.now file }
    ensures count { result.0 ≡ min (length (left_in files.now file)) (length buf.old) }
    ensures bytes { left_in files.now file ≡ take result.0 buf.new ++ left_in files.now result.1 }
    ensures inside { IsOpenInside files.now result.1 }
{
    let stored = &files[file.place];
    let count = copy_front(&stored.bytes[file.at..file.end], buf);
    let at = file.at + count;
    (count, OpenFile { at, ..file })
}

/// Adds an empty file of this name, and its place to those that are open for writing. Where there
/// is no memory, all stays as it was.
fn make(
    alloc: Global,
    files: &mut Vec<StoredFile>,
    sinks: &mut Vec<usize>,
    name: &str,
) -> Result<(), AllocError>
    ensures adds { OnOk result
        (AddsFile files.old.items files.new.items sinks.old.items sinks.new.items name.now) }
    ensures err { OnErr result ((files.new.items ≡ files.old.items) ×
        (sinks.new.items ≡ sinks.old.items)) }
{
    let name = copied_name(alloc, name)?;
    let bytes = Vec::new(alloc);
    sinks.push(files.len())?;
    if files.push(StoredFile { name, bytes }).is_err() {
        sinks.pop();
        return Err(AllocError);
    }
    Ok(())
}

/// Adds the piece to the file at this place, unless the call is listed. Where it fails, all stays
/// as it was.
fn write_in(
    files: &mut Vec<StoredFile>,
    place: usize,
    listed: bool,
    piece: &[u8],
) -> Result<(), Failed>
    requires { place < length files.old.items }
    ensures ok { OnOk result
        (files.new.items ≡ appended files.old.items place piece.now
        (ready_at files.new.items place)) }
    ensures err { OnErr result (files.new.items ≡ files.old.items) }
    ensures listed { IsTrue listed → IsErr result }
    ensures only { OnErr result (IsTrue listed ⊎ WantsMemoryAt files.old.items place piece.now) }
    ensures ready { ready_at files.old.items place ≤ ready_at files.new.items place }
{
    if listed {
        return Err(Failed);
    }
    match append(files, place, piece) {
        Ok(()) => Ok(()),
        Err(_) => Err(Failed),
    }
}

/// Adds the piece to the file at this place. Where there is no memory, all stays as it was.
fn append(files: &mut Vec<StoredFile>, place: usize, piece: &[u8]) -> Result<(), AllocError>
    requires { place < length files.old.items }
    ensures ok { OnOk result
        (files.new.items ≡ appended files.old.items place piece.now
        (ready_at files.new.items place)) }
    ensures err { OnErr result (files.new.items ≡ files.old.items) }
    ensures full { OnErr result (WantsMemoryAt files.old.items place piece.now) }
    ensures ready { ready_at files.old.items place ≤ ready_at files.new.items place }
{
    let bytes = &mut files[place].bytes;
    bytes.reserve(piece.len())?;
    bytes.extend_from_slice(piece)
}
