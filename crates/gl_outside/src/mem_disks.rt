//! Disks in memory, by name.
ghost use Rattle.std.specs.Prelude.{◌≡◌, ◌≢◌, ◌↔◌, ◌⊎◌, ℕ, ◌^◌, ◌<◌, ◌≤◌, [], ◌∷◌, ◌++◌, IsTrue, List, Some, None, Err, IfOk, OnOk, OnErr, IsErr, MatchOption, All, length, map, slice_index_or};
ghost use Rattle.gl_outside.specs.Calls.{no_calls, after_call};
ghost use Rattle.gl_outside.specs.Disk.{ReadsAt, Syncs, WritesAt, at_rest};
ghost use Rattle.gl_outside.specs.DiskStore.{HasNoDiskNumber, disk_at, opened_disks, past_among, past_in, told_name};
ghost use Rattle.gl_outside.specs.Faults.{Counts, Rose};
ghost use Rattle.gl_outside.specs.MemDisk.{NextStops};
ghost use Rattle.gl_outside.specs.Names.{NotesName};
ghost use Rattle.gl_outside.specs.Store.{after_open};
ghost use Rattle.gl_outside.specs.Inner.Disks.{HaveOwnNames, IsUnknown};

use crate::calls::Calls;
use crate::disk_bytes::DiskBytes;
use crate::mem_files::{copied_name, next_number, note};
use crate::{Failed, FileNo, OpenFault};
use gl_base::Name;
use std::alloc::{AllocError, Global};
use std::marker::Model;

#[derive(Drop)]
struct StoredDisk {
    name: Name,
    kept: DiskBytes,
}

impl Model for StoredDisk {
    ghost use Rattle.gl_outside.specs.DiskStore.{NamedDisk};

    ghost Value = { NamedDisk };

    ghost view = { λ d. record { name = d.name; kept = d.kept } };
}

/// Disks by name, with a list of the numbers of the calls that fail, opens included; each call
/// after the first `stop` calls fails too. The first call has the number 1.
#[derive(Drop)]
pub(crate) struct MemDisks {
    alloc: Global,
    disks: Vec<StoredDisk>,
    places: Vec<usize>,
    names: Vec<Name>,
    calls: Calls,
    stop: u64,
}

impl Model for MemDisks {
    ghost use Rattle.std.specs.Prelude.{◌<◌, All, length};
    ghost use Rattle.gl_outside.specs.DiskStore.{DisksState};
    ghost use Rattle.gl_outside.specs.Inner.Disks.{HaveOwnNames};

    ghost Value = { DisksState };

    ghost view = { λ s. record {
      disks = s.disks.items;
      places = s.places.items;
      names = s.names.items;
      calls = s.calls;
      stop = s.stop;
    } };

    ghost invariant = { λ s. All (λ place. place < length s.disks.items) s.places.items ×
        HaveOwnNames s.disks.items };
}

impl MemDisks {
    /// No disks. It takes no memory.
    pub(crate) fn new(alloc: Global, failing: Vec<u64>, stop: u64) -> Self
        ensures { result ≡ record {
          disks = [];
          places = [];
          names = [];
          calls = no_calls failing.items;
          stop = stop;
        } }
    {
        MemDisks {
            alloc,
            disks: Vec::new(alloc),
            places: Vec::new(alloc),
            names: Vec::new(alloc),
            calls: Calls::new(failing),
            stop,
        }
    }

    /// What the disk of this name reads, nothing where there is none.
    pub(crate) fn bytes(&self, name: &str) -> &[u8]
        ensures { result.now ≡ (past_among self.now.disks name.now).now.seen }
    {
        match place_of(&self.disks, name) {
            Some(place) => {
                let disk = &self.disks[place];
                disk.kept.bytes()
            }
            None => &[],
        }
    }

    /// The disk of this name holds these bytes from now on, all of them synced. Where there is no
    /// memory, all stays as it was.
    pub(crate) fn put(&mut self, name: &str, bytes: Vec<u8>) -> Result<(), AllocError>
        ensures holds { OnOk result (past_among self.new.disks name.now ≡ at_rest bytes.items) }
        ensures others { (other : List ℕ) → other ≢ name.now →
            past_among self.new.disks other ≡ past_among self.old.disks other }
        ensures opened { opened_disks self.new ≡ opened_disks self.old }
        ensures calls { self.new.calls ≡ self.old.calls }
        ensures stop { self.new.stop ≡ self.old.stop }
        ensures unchanged { OnErr result (past_among self.new.disks ≡ past_among self.old.disks) }
    {
        let place = place_for(self.alloc, &mut self.disks, name)?;
        self.disks[place].kept = DiskBytes::new(self.alloc, bytes);
        Ok(())
    }

    /// Opens the disk of this name, which is made where there is none.
    pub(crate) fn open(&mut self, name: &str) -> Result<FileNo, OpenFault>
        ensures number { IfOk result (λ file. file.0 ≡ length self.old.places) }
        ensures opened { OnOk result
            ((opened_disks self.new).files ≡ (opened_disks self.old).files ++ Some name.now ∷ []) }
        ensures pasts { past_among self.new.disks ≡ past_among self.old.disks }
        ensures refused { OnErr result
            ((opened_disks self.new).files ≡ (opened_disks self.old).files) }
        ensures names { NotesName (Some self.old.names) (Some self.new.names) name.now result }
        ensures later { self.old.calls.faults ≤ self.new.calls.faults }
        ensures failed { result ≡ Err OpenFault.Failed →
            Rose self.old.calls.faults self.new.calls.faults }
        ensures listed { NextStops self.old.calls self.old.stop → IsErr result }
        ensures only { result ≡ Err OpenFault.Failed → NextStops self.old.calls self.old.stop ⊎
            HasNoDiskNumber self.old }
        ensures calls { self.new.calls ≡ after_open self.old.calls result }
        ensures stop { self.new.stop ≡ self.old.stop }
    {
        let listed = self.calls.count_until(self.stop);
        let answer = open_in(
            self.alloc,
            &mut self.disks,
            &mut self.places,
            &mut self.names,
            listed,
            name,
        );
        self.calls.settle(answer);
        answer
    }

    pub(crate) fn len(&mut self, file: FileNo) -> Result<u64, Failed>
        requires { file.0 < length self.old.places }
        ensures length { IfOk result (λ count. count ≡ length (past_in self.old file.0).now.seen) }
        ensures frame { self.new ≡ record self.old { calls = self.new.calls } }
        ensures counts { Counts self.old.calls.faults self.new.calls.faults result }
        ensures fails { IsErr result ↔ NextStops self.old.calls self.old.stop }
        ensures calls { self.new.calls ≡ after_call self.old.calls result }
    {
        if self.calls.count_until(self.stop) {
            return Err(self.calls.fault());
        }
        let disk = &self.disks[self.places[file.0 as usize]];
        Ok(disk.kept.bytes().len() as u64)
    }

    pub(crate) fn read_at(&mut self, file: FileNo, at: u64, buf: &mut [u8]) -> Result<usize, Failed>
        requires { file.0 < length self.old.places }
        ensures bound { IfOk result (λ count. count ≤ length buf.new) }
        ensures bytes { ReadsAt (past_in self.old file.0).now.seen at buf.new result }
        ensures frame { self.new ≡ record self.old { calls = self.new.calls } }
        ensures counts { Counts self.old.calls.faults self.new.calls.faults result }
        ensures fails { IsErr result ↔ NextStops self.old.calls self.old.stop }
        ensures calls { self.new.calls ≡ after_call self.old.calls result }
    {
        if self.calls.count_until(self.stop) {
            return Err(self.calls.fault());
        }
        let disk = &self.disks[self.places[file.0 as usize]];
        Ok(disk.kept.read(at, buf))
    }

    pub(crate) fn write_at(&mut self, file: FileNo, at: u64, piece: &[u8]) -> Result<(), Failed>
        requires { file.0 < length self.old.places }
        ensures past { WritesAt (past_in self.old file.0) at piece.now
            (past_in self.new file.0) result }
        ensures others { (other : List ℕ) →
            slice_index_or (opened_disks self.old).files file.0 None ≢ Some other →
            past_among self.new.disks other ≡ past_among self.old.disks other }
        ensures frame { self.new ≡ record self.old {
          disks = self.new.disks;
          calls = self.new.calls;
        } }
        ensures named { opened_disks self.new ≡
            record (opened_disks self.old) { faults = self.new.calls.faults } }
        ensures counts { Counts self.old.calls.faults self.new.calls.faults result }
        ensures listed { NextStops self.old.calls self.old.stop → IsErr result }
        ensures refused { OnErr result (self.new.disks ≡ self.old.disks) }
        ensures calls { self.new.calls ≡ after_call self.old.calls result }
    {
        if self.calls.count_until(self.stop) {
            return Err(self.calls.fault());
        }
        let place = self.places[file.0 as usize];
        match self.disks[place].kept.write(at, piece) {
            Ok(()) => Ok(()),
            Err(_) => Err(self.calls.fault()),
        }
    }

    pub(crate) fn sync(&mut self, file: FileNo) -> Result<(), Failed>
        requires { file.0 < length self.old.places }
        ensures past { Syncs (past_in self.old file.0) (past_in self.new file.0) result }
        ensures others { (other : List ℕ) →
            slice_index_or (opened_disks self.old).files file.0 None ≢ Some other →
            past_among self.new.disks other ≡ past_among self.old.disks other }
        ensures frame { self.new ≡ record self.old {
          disks = self.new.disks;
          calls = self.new.calls;
        } }
        ensures named { opened_disks self.new ≡
            record (opened_disks self.old) { faults = self.new.calls.faults } }
        ensures counts { Counts self.old.calls.faults self.new.calls.faults result }
        ensures listed { NextStops self.old.calls self.old.stop → IsErr result }
        ensures refused { OnErr result (self.new.disks ≡ self.old.disks) }
        ensures calls { self.new.calls ≡ after_call self.old.calls result }
    {
        if self.calls.count_until(self.stop) {
            return Err(self.calls.fault());
        }
        let place = self.places[file.0 as usize];
        match self.disks[place].kept.sync() {
            Ok(()) => Ok(()),
            Err(_) => Err(self.calls.fault()),
        }
    }
}

/// Opens the disk of this name, which is made where there is none, unless the call is listed. The
/// name is noted first.
fn open_in(
    alloc: Global,
    disks: &mut Vec<StoredDisk>,
    places: &mut Vec<usize>,
    names: &mut Vec<Name>,
    listed: bool,
    name: &str,
) -> Result<FileNo, OpenFault>
    requires inside { All (λ place. place < length disks.old.items) places.old.items }
    requires apart { HaveOwnNames disks.old.items }
    ensures number { IfOk result (λ file. file.0 ≡ length places.old.items) }
    ensures names { NotesName (Some names.old.items) (Some names.new.items) name.now result }
    ensures opened { OnOk result
        (map (told_name disks.new.items) places.new.items ≡ map (told_name disks.old.items)
        places.old.items ++ Some name.now ∷ []) }
    ensures refused { OnErr result
        (map (told_name disks.new.items) places.new.items ≡ map
        (told_name disks.old.items) places.old.items) }
    ensures pasts { past_among disks.new.items ≡ past_among disks.old.items }
    ensures inside { All (λ place. place < length disks.new.items) places.new.items }
    ensures apart { HaveOwnNames disks.new.items }
    ensures listed { IsTrue listed → IsErr result }
    ensures only { result ≡ Err OpenFault.Failed → IsTrue listed ⊎
        (2 ^ 32 ≤ length places.old.items) }
{
    note(alloc, names, name)?;
    let Some(number) = next_number(listed, places.len()) else {
        return Err(OpenFault::Failed);
    };
    add_place(alloc, disks, places, name)?;
    Ok(number)
}

/// Adds the place of the disk of this name to those that are open. Where there is no memory, none
/// is added.
fn add_place(
    alloc: Global,
    disks: &mut Vec<StoredDisk>,
    places: &mut Vec<usize>,
    name: &str,
) -> Result<(), AllocError>
    requires inside { All (λ place. place < length disks.old.items) places.old.items }
    requires apart { HaveOwnNames disks.old.items }
    ensures opened { OnOk result
        (map (told_name disks.new.items) places.new.items ≡ map (told_name disks.old.items)
        places.old.items ++ Some name.now ∷ []) }
    ensures refused { OnErr result
        (map (told_name disks.new.items) places.new.items ≡ map
        (told_name disks.old.items) places.old.items) }
    ensures pasts { past_among disks.new.items ≡ past_among disks.old.items }
    ensures inside { All (λ place. place < length disks.new.items) places.new.items }
    ensures apart { HaveOwnNames disks.new.items }
{
    places.reserve(1)?;
    let place = place_for(alloc, disks, name)?;
    places.push_reserved(place);
    Ok(())
}

/// The place of the disk of this name.
fn place_of(disks: &[StoredDisk], name: &str) -> Option<usize>
    ensures { MatchOption result (IsUnknown disks.now name.now)
        (λ place. (place < length disks.now) × ((disk_at disks.now place).name ≡ name.now)) }
{
    disks.iter().position(|disk| disk.name.as_str() == name)
}

/// The place of the disk of this name, which is added where there is none. Where there is no
/// memory, all stays as it was.
fn place_for(alloc: Global, disks: &mut Vec<StoredDisk>, name: &str) -> Result<usize, AllocError>
    requires { HaveOwnNames disks.old.items }
    ensures place { IfOk result (λ place. (place < length disks.new.items) ×
        ((disk_at disks.new.items place).name ≡ name.now)) }
    ensures pasts { past_among disks.new.items ≡ past_among disks.old.items }
    ensures names { (places : List ℕ) → All (λ place. place < length disks.old.items) places
        → map (told_name disks.new.items) places ≡ map (told_name disks.old.items) places }
    ensures longer { length disks.old.items ≤ length disks.new.items }
    ensures apart { HaveOwnNames disks.new.items }
    ensures err { OnErr result (disks.new.items ≡ disks.old.items) }
{
    if let Some(place) = place_of(disks, name) {
        return Ok(place);
    }
    let place = disks.len();
    let name = copied_name(alloc, name)?;
    let kept = DiskBytes::new(alloc, Vec::new(alloc));
    disks.push(StoredDisk { name, kept })?;
    Ok(place)
}
