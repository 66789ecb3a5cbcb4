//! What the coordinator knows of snapshots.
ghost use Rattle.std.specs.Prelude.{◌≡◌, ◌+◌, ◌^◌, ◌<◌, ◌≤◌, ◌↔◌, true, IsTrue, IfOk, IfSome, length, option_map};
ghost use Rattle.coordinator.specs.coord_core.Saving.{HasRoomForRecord, IsApart, IsRecordDue, IsSnapshotDue, saving_first, saving_nothing, saved_length, saved_before, section_view, with_acknowledged, saving_begun, saving_section, with_want};
ghost use Rattle.coordinator.specs.coord_core.Records.{IsRecordOf};
ghost use Rattle.coordinator.specs.coord_core.Stores.{store_view};

use crate::coord_core::records::record_of;
use crate::coord_core::stores::{Store, count_entries, forget, have_all_come, no_sections};
use gl_base::{MachineNo, NoMemory, Record};
use std::alloc::Global;
use std::marker::Model;
use wire::wire_msgs::Section;

/// How many snapshots a store takes, and how many bytes.
const SNAPSHOTS: u32 = 4096;

const STORE_BYTES: u128 = 1 << 30;

/// What the coordinator knows of snapshots: which ones were begun and acknowledged, the sections
/// that have come, whether one is wanted, and what the snapshots of this attempt have.
#[derive(Drop)]
pub struct Saving {
    stored: bool,
    vertices: u32,
    edges: u32,
    begun: u32,
    acknowledged: u32,
    come: Vec<Option<Section>>,
    wanted: bool,
    entries: u64,
    saved: bool,
    store_end: u64,
}

impl Model for Saving {
    ghost use Rattle.std.specs.Prelude.{map, option_map};
    ghost use Rattle.coordinator.specs.coord_core.Saving.{SavingView, section_view};
    ghost use Rattle.coordinator.specs.coord_core.Inner.Kept.{IsSavingKept};

    ghost Value = { SavingView };

    ghost view = { λ s. record {
      stored = s.stored;
      vertices = s.vertices;
      edges = s.edges;
      begun = s.begun;
      acknowledged = s.acknowledged;
      come = map (option_map section_view) s.come.items;
      wanted = s.wanted;
      entries = s.entries;
      saved = s.saved;
      store_end = s.store_end;
    } };

    ghost invariant = { λ s. IsSavingKept (record {
      stored = s.stored;
      vertices = s.vertices;
      edges = s.edges;
      begun = s.begun;
      acknowledged = s.acknowledged;
      come = map (option_map section_view) s.come.items;
      wanted = s.wanted;
      entries = s.entries;
      saved = s.saved;
      store_end = s.store_end;
    }) };
}

impl Saving {
    /// An attempt begins: with the newest snapshot of the store, or without a store, where no
    /// snapshots are taken.
    pub fn new(alloc: Global, machines: u16, store: Option<Store>) -> Result<Saving, NoMemory>
        requires newest { IfSome store (λ s. s.newest + 1 < 2 ^ 32) }
        requires length { IfSome store (λ s. s.length < 2 ^ 32) }
        ensures { IfOk result (λ s. s ≡ saving_first machines (option_map store_view store)) }
    {
        match store {
            Some(store) => Saving::with_store(alloc, machines, store),
            None => Saving::none(alloc, machines),
        }
    }

    /// No snapshots are taken.
    fn none(alloc: Global, machines: u16) -> Result<Saving, NoMemory>
        ensures { IfOk result (λ s. s ≡ saving_nothing machines) }
    {
        Ok(Saving {
            stored: false,
            vertices: 0,
            edges: 0,
            begun: 0,
            acknowledged: 0,
            come: no_sections(alloc, machines)?,
            wanted: false,
            entries: 0,
            saved: false,
            store_end: 0,
        })
    }

    /// An attempt begins, with the newest snapshot of this store.
    fn with_store(alloc: Global, machines: u16, store: Store) -> Result<Saving, NoMemory>
        requires newest { store.newest + 1 < 2 ^ 32 }
        requires length { store.length < 2 ^ 32 }
        ensures { IfOk result (λ s. s ≡ saved_before machines (store_view store)) }
    {
        Ok(Saving {
            stored: true,
            vertices: store.vertices,
            edges: store.edges,
            begun: store.newest,
            acknowledged: store.newest,
            come: no_sections(alloc, machines)?,
            wanted: false,
            entries: 0,
            saved: false,
            store_end: store.length,
        })
    }

    /// The newest snapshot that was begun.
    pub fn begun(&self) -> u32
        ensures { result ≡ self.now.begun }
    {
        self.begun
    }

    /// The newest snapshot that was acknowledged.
    pub fn acknowledged(&self) -> u32
        ensures { result ≡ self.now.acknowledged }
    {
        self.acknowledged
    }

    /// The number of the next snapshot.
    pub fn next_number(&self) -> u32
        requires { self.now.acknowledged ≡ self.now.begun }
        ensures { result ≡ self.now.begun + 1 }
    {
        self.begun + 1
    }

    /// Where the store's file ends.
    pub fn store_end(&self) -> u64
        ensures { result ≡ self.now.store_end }
    {
        self.store_end
    }

    /// Whether no snapshot is under way.
    pub fn is_settled(&self) -> bool
        ensures { (result ≡ true) ↔ (self.now.acknowledged ≡ self.now.begun) }
    {
        self.acknowledged == self.begun
    }

    /// Whether snapshots are taken, one is under way, and all its sections have come.
    pub fn is_record_due(&self) -> bool
        ensures { IsTrue result ↔ IsRecordDue self.now }
    {
        self.stored && self.acknowledged < self.begun && have_all_come(&self.come)
    }

    /// Whether a snapshot is due, where the cluster is quiet or not and its machines have told so
    /// many updates.
    pub fn is_snapshot_due(&self, quiet: bool, updates: u128) -> bool
        ensures { IsTrue result ↔ IsSnapshotDue self.now quiet updates }
    {
        let lacks = updates != self.entries as u128 || !self.saved;
        self.stored && self.is_settled() && (self.wanted || quiet && lacks)
    }

    /// How many bytes the record of the sections that have come has, with the gate behind it.
    fn record_size(&self) -> u128
        ensures size { result ≡ saved_length self.now }
        ensures bound { result < 2 ^ 100 }
    {
        let entries = count_entries(&self.come);
        let machines = self.come.len() as u128;
        8 + 16 * entries + 8 * machines + 12 * self.vertices as u128 + 12 * self.edges as u128 + 9
    }

    /// Whether the store takes the record of the sections that have come.
    pub fn has_room(&self) -> bool
        ensures { IsTrue result ↔ HasRoomForRecord self.now }
    {
        self.acknowledged < SNAPSHOTS && self.store_end as u128 + self.record_size() <= STORE_BYTES
    }

    /// The next snapshot begins.
    pub fn begin(&mut self)
        requires stored { self.old.stored ≡ true }
        requires none { self.old.acknowledged ≡ self.old.begun }
        ensures { self.new ≡ saving_begun self.old }
    {
        self.begun += 1;
    }

    /// The section of a machine has come. It takes no memory.
    pub fn put(&mut self, from: MachineNo, section: Section)
        requires machine { from.0 < length self.old.come }
        requires apart { IsApart (section_view section) }
        ensures { self.new ≡ saving_section from.0 (section_view section) self.old }
    {
        self.come[from.0 as usize] = Some(section);
    }

    /// A machine wants a snapshot after this one.
    pub fn want(&mut self, acknowledged: u32)
        ensures { self.new ≡ with_want acknowledged self.old }
    {
        self.wanted = self.wanted || acknowledged == self.acknowledged;
    }

    /// The record of the sections that have come. It goes over each number once.
    pub fn record(&self, alloc: Global) -> Result<Record, NoMemory>
        ensures { IfOk result (IsRecordOf self.now) }
    {
        record_of(alloc, self.begun, &self.come)
    }

    /// The snapshot under way is acknowledged, and its sections are gone. It takes no memory.
    pub fn acknowledge(&mut self)
        requires due { IsRecordDue self.old }
        requires room { HasRoomForRecord self.old }
        ensures { self.new ≡ with_acknowledged self.old }
    {
        let entries = count_entries(&self.come) as u64;
        let size = self.record_size() as u64;
        self.entries += entries;
        self.store_end += size;
        self.acknowledged = self.begun;
        self.wanted = false;
        self.saved = true;
        forget(&mut self.come);
    }
}
