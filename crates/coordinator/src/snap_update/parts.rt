//! What a machine keeps for snapshots.
ghost use Rattle.std.specs.Prelude.{◌≡◌, ◌+◌, ◌^◌, ◌<◌, ◌≤◌, not, nat_lt, OnOk, OnErr, IfOk, pred};
ghost use Rattle.coordinator.specs.snap_update.Snaps.{SnapRoom, HasKeptRoom, HasUsedEntry, IsSameButRoom, nothing_since, outside_of, with_begun, with_vertex, with_edge, with_entry, with_section, own_section, section_view, first_unsure, with_committed, asked_behind, with_asking};

use gl_base::{EdgeNo, Entry, NoMemory, Vertex};
use std::alloc::Global;
use std::collections::VecDeque;
use std::marker::Model;
use wire::wire_msgs::Section;

/// What a machine keeps for snapshots: which ones it knows, what it saved for the newest of them,
/// and its updates that no section of it has yet, those made before their vertex was marked apart
/// from those made behind that. The lists keep their room from one snapshot to the next.
#[derive(Drop)]
pub struct SnapPart {
    known: u32,
    sent: u32,
    acknowledged: u32,
    wanted: bool,
    vertices: Vec<(Vertex, u64)>,
    edges: Vec<(EdgeNo, u64)>,
    before: Vec<Entry>,
    behind: Vec<Entry>,
    unsure: VecDeque<u64>,
    outside: u64,
}

impl Model for SnapPart {
    ghost use Rattle.std.specs.Prelude.{◌≡◌, ◌+◌, ◌-◌, ◌≤◌, length, min, sum_by, vec_capacity};
    ghost use Rattle.coordinator.specs.snap_update.Snaps.{SnapView};

    ghost Value = { SnapView };

    ghost view = { λ p. record {
      known = p.known;
      sent = p.sent;
      acknowledged = p.acknowledged;
      wanted = p.wanted;
      vertices = p.vertices.items;
      edges = p.edges.items;
      before = p.before.items;
      behind = p.behind.items;
      unsure = p.unsure.items;
      room = record {
        vertices = p.vertices.cap - length p.vertices.items;
        edges = p.edges.cap - length p.edges.items;
        entries = min (p.before.cap - (length p.before.items + length p.behind.items))
            (p.behind.cap - length p.behind.items);
      };
    } };

    // How many updates are outside is counted, and all that is behind the marks has its room before
    // the next ones.
    ghost invariant = { λ p.
        (p.outside ≡ sum_by (λ n.
        n) p.unsure.items + length p.before.items + length p.behind.items) ×
        (length p.before.items + length p.behind.items ≤ p.before.cap) };
}

impl SnapPart {
    /// Nothing was made since this snapshot, or since the start where it is 0. It takes no memory.
    pub fn new(alloc: Global, base: u32) -> SnapPart
        ensures { result ≡ nothing_since base result.room }
    {
        SnapPart {
            known: base,
            sent: base,
            acknowledged: base,
            wanted: false,
            vertices: Vec::new(alloc),
            edges: Vec::new(alloc),
            before: Vec::new(alloc),
            behind: Vec::new(alloc),
            unsure: VecDeque::new(alloc),
            outside: 0,
        }
    }

    /// The newest snapshot that is known.
    pub fn known(&self) -> u32
        ensures { result ≡ self.now.known }
    {
        self.known
    }

    /// Whether a vertex with this mark is marked for the snapshot that is known.
    pub fn is_marked(&self, mark: u32) -> bool
        ensures { result ≡ not (nat_lt mark self.now.known) }
    {
        self.known <= mark
    }

    /// Whether the section of the snapshot that is known wasn't sent yet.
    pub fn is_unsent(&self) -> bool
        ensures { result ≡ nat_lt self.now.sent self.now.known }
    {
        self.sent < self.known
    }

    /// How many updates are outside the last snapshot that is known to be acknowledged.
    pub fn outside(&self) -> u64
        ensures { result ≡ outside_of self.now }
    {
        self.outside
    }

    /// The numbers of vertices that were saved.
    pub fn vertices(&self) -> &[(Vertex, u64)]
        ensures { result.now ≡ self.now.vertices }
    {
        &self.vertices
    }

    /// The numbers of edges that were saved.
    pub fn edges(&self) -> &[(EdgeNo, u64)]
        ensures { result.now ≡ self.now.edges }
    {
        &self.edges
    }

    /// The updates that the next section has: those made before their vertex was marked.
    pub fn before(&self) -> &[Entry]
        ensures { result.now ≡ self.now.before }
    {
        &self.before
    }

    /// The updates that were made behind the mark of their vertex.
    pub fn behind(&self) -> &[Entry]
        ensures { result.now ≡ self.now.behind }
    {
        &self.behind
    }

    /// This snapshot has begun; whether it is newer than those known before. It takes no memory.
    pub fn begin(&mut self, number: u32) -> bool
        ensures newer { result ≡ nat_lt self.old.known number }
        ensures begun { IsSameButRoom (with_begun number self.old) self.new }
        ensures room { HasKeptRoom self.old.room self.new.room }
    {
        if number <= self.known {
            return false;
        }
        self.known = number;
        self.vertices.clear();
        self.edges.clear();
        match self.before.append(&mut self.behind) {
            Ok(()) => true,
            Err(_) => unreachable!(),
        }
    }

    /// Makes room for the snapshot update of a vertex that saves the numbers of so many edges.
    pub fn reserve_mark(&mut self, edges: usize) -> Result<(), NoMemory>
        ensures vertex { OnOk result (0 < self.new.room.vertices) }
        ensures edges { OnOk result (edges ≤ self.new.room.edges) }
        ensures kept { HasKeptRoom self.old.room self.new.room }
        ensures same { IsSameButRoom self.old self.new }
    {
        self.vertices.reserve(1)?;
        self.edges.reserve(edges)?;
        Ok(())
    }

    /// The snapshot update of v saves its number. It takes no memory.
    pub fn save_vertex(&mut self, v: Vertex, value: u64)
        requires { 0 < self.old.room.vertices }
        ensures { self.new ≡ with_vertex v value self.old }
    {
        self.vertices.push_reserved((v, value));
    }

    /// A snapshot update saves the number of an edge to a neighbour that has no mark yet. It takes
    /// no memory.
    pub fn save_edge(&mut self, e: EdgeNo, number: u64)
        requires { 0 < self.old.room.edges }
        ensures { self.new ≡ with_edge e number self.old }
    {
        self.edges.push_reserved((e, number));
    }

    /// Makes room for one more entry.
    pub fn reserve(&mut self) -> Result<(), NoMemory>
        ensures room { OnOk result (0 < self.new.room.entries) }
        ensures kept { HasKeptRoom self.old.room self.new.room }
        ensures same { IsSameButRoom self.old self.new }
    {
        self.before.reserve(self.behind.len() + 1)?;
        self.behind.reserve(1)?;
        Ok(())
    }

    /// An update was made of a vertex with this mark: it is before the marks where the vertex isn't
    /// marked for the snapshot that is known, and else behind them. It takes no memory.
    pub fn log(&mut self, entry: Entry, mark: u32)
        requires room { 0 < self.old.room.entries }
        requires few { outside_of self.old + 1 < 2 ^ 64 }
        ensures logged { IsSameButRoom (with_entry entry mark self.old) self.new }
        ensures room { HasUsedEntry self.old.room self.new.room }
    {
        if self.is_marked(mark) {
            self.behind.push_reserved(entry);
        } else {
            self.before.push_reserved(entry);
        }
        self.outside += 1;
    }

    /// The section of the snapshot that is known, once every vertex of this machine is marked: what
    /// was saved, and the updates made before their vertex was marked, which no later section has.
    /// After want of memory all is as it was. It goes over what it tells.
    pub fn section(&mut self, alloc: Global) -> Result<Section, NoMemory>
        ensures told { IfOk result (λ s. section_view s ≡ own_section self.old) }
        ensures sent { OnOk result (IsSameButRoom (with_section self.old) self.new) }
        ensures room { HasKeptRoom self.old.room self.new.room }
        ensures unchanged { OnErr result (self.new ≡ self.old) }
    {
        let vertices = Vec::from_slice(alloc, &self.vertices)?;
        let edges = Vec::from_slice(alloc, &self.edges)?;
        let entries = Vec::from_slice(alloc, &self.before)?;
        self.unsure.push_back(self.before.len() as u64)?;
        self.before.clear();
        self.sent = self.known;
        Ok(Section {
            number: self.known,
            vertices,
            edges,
            entries,
        })
    }

    /// This snapshot is acknowledged, which has the oldest section that wasn't known to be; how
    /// many updates that has, which are outside no more. It takes no memory.
    pub fn committed(&mut self, number: u32) -> u64
        ensures many { result ≡ first_unsure self.old.unsure }
        ensures committed { self.new ≡ with_committed number self.old }
    {
        let many = self.unsure.pop_front().unwrap_or(0);
        self.outside -= many;
        self.acknowledged = number;
        self.wanted = false;
        many
    }

    /// The last acknowledged snapshot that is known, where one behind it is to be asked for: so
    /// many updates are outside, and it wasn't asked for yet.
    pub fn ask(&mut self, half: u64) -> Option<u32>
        ensures behind { result ≡ asked_behind half self.old }
        ensures asked { self.new ≡ with_asking half self.old }
    {
        if self.wanted || self.outside < half {
            return None;
        }
        self.wanted = true;
        Some(self.acknowledged)
    }

    /// Nothing was made since this snapshot, to which the machine has gone back. The lists keep
    /// their room.
    pub fn reset(&mut self, base: u32)
        ensures since { self.new ≡ nothing_since base self.new.room }
        ensures room { HasKeptRoom self.old.room self.new.room }
    {
        self.known = base;
        self.sent = base;
        self.acknowledged = base;
        self.wanted = false;
        self.vertices.clear();
        self.edges.clear();
        self.before.clear();
        self.behind.clear();
        self.unsure.clear();
        self.outside = 0;
    }
}
