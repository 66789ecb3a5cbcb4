//! The gate of a call. It counts the updates that begin, and two of them may wait for each other
//! there.
use gl_outside::Gate;
use scenario_lines::Page;
use std::alloc::Global;
use std::sync::atomic::{AtomicU64, Ordering};
use std::thread;

/// The updates of vertices with identifiers below this one are counted.
pub const COUNTED: u64 = 64;

/// How often an update looks whether another one has begun, before it goes on alone.
const MOST_LOOKS: u32 = 10000000;

/// The identifiers of two vertices whose updates wait for each other.
#[derive(Clone, Copy)]
pub struct Meeting {
    pub one: u64,
    pub other: u64,
}

/// How many updates of a vertex have begun, and how many of these waited in vain.
#[derive(Drop)]
struct Count {
    begun: AtomicU64,
    in_vain: AtomicU64,
}

/// A gate that counts the updates that begin, and holds those of two vertices until both have begun.
#[derive(Drop)]
pub struct CountingGate {
    counts: Vec<Count>,
    meeting: Option<Meeting>,
}

impl Gate for CountingGate {
    fn pass(&self, id: u64) {
        let Some(count) = self.counts.get(id as usize) else {
            return;
        };
        count.begun.fetch_add(1, Ordering::SeqCst);
        if !self.meets(id) {
            count.in_vain.fetch_add(1, Ordering::SeqCst);
        }
    }
}

impl CountingGate {
    /// Returns a gate that no update has passed.
    pub fn new(alloc: Global, meeting: Option<Meeting>) -> CountingGate {
        let mut counts = Vec::new(alloc);
        for _ in 0..COUNTED {
            let _ = counts.push(Count {
                begun: AtomicU64::new(0),
                in_vain: AtomicU64::new(0),
            });
        }
        CountingGate { counts, meeting }
    }

    /// Waits until an update of the vertex that this one is to meet has begun, if there is such a
    /// vertex. Returns false if that takes too long.
    fn meets(&self, id: u64) -> bool {
        match self.meeting {
            Some(meeting) if id == meeting.one => self.waits_for(meeting.other),
            Some(meeting) if id == meeting.other => self.waits_for(meeting.one),
            _ => true,
        }
    }

    /// Waits until an update of the vertex has begun. Returns false if that takes too long.
    fn waits_for(&self, id: u64) -> bool {
        for _ in 0..MOST_LOOKS {
            if self.begun(id) > 0 {
                return true;
            }
            thread::yield_now();
        }
        false
    }

    /// Returns how many updates of the vertex have begun.
    fn begun(&self, id: u64) -> u64 {
        match self.counts.get(id as usize) {
            Some(count) => count.begun.load(Ordering::SeqCst),
            None => 0,
        }
    }

    /// Returns how many updates of the vertex waited in vain.
    fn in_vain(&self, id: u64) -> u64 {
        match self.counts.get(id as usize) {
            Some(count) => count.in_vain.load(Ordering::SeqCst),
            None => 0,
        }
    }

    /// Adds the identifiers of the vertices that were to meet and whose updates did, each behind a
    /// blank.
    pub fn add_met(&self, page: &mut Page) {
        let Some(meeting) = self.meeting else {
            return;
        };
        for id in [meeting.one, meeting.other] {
            if self.begun(id) > 0 && self.in_vain(id) == 0 {
                page.add_numbers(&[id]);
            }
        }
    }

    /// Adds the identifier of each vertex behind a blank, as often as an update of it began.
    pub fn add_passed(&self, page: &mut Page) {
        for id in 0..COUNTED {
            for _ in 0..self.begun(id) {
                page.add_numbers(&[id]);
            }
        }
    }
}
