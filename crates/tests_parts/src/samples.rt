//! The store of the examples: two machines, components, two vertices and one edge, with two
//! snapshots. Its bytes are those that the description of the format gives.
ghost use Rattle.store.specs.snap_journal.Formats.{IsAllowed};

use gl_base::{EdgeNo, Entry, MachineNo, NoMemory, Record, SavedPart, Vertex};
use std::alloc::Global;
use store::store_format::{Digest, Header};

/// The bytes of the store.
pub static STORE: [u8; 251] = *b"GLABSTOR\0\0\0\x01\0\x02\x02\0\0\0\0\0\0\0\0\0\0\0\0\x02\0\0\0\x01\
\x07\x07\x07\x07\x07\x07\x07\x07\x07\x07\x07\x07\x07\x07\x07\x07\x07\x07\x07\x07\x07\x07\x07\x07\x07\x07\x07\x07\x07\x07\x07\x07\
\x01\0\0\0\0\0\0\0\x3c\
\0\0\0\x01\0\0\0\0\
\0\0\0\x01\0\0\0\0\0\0\0\0\0\0\0\x01\0\0\0\0\
\0\0\0\x01\0\0\0\x01\0\0\0\0\0\0\0\x02\0\0\0\x01\0\0\0\0\0\0\0\0\0\0\0\0\
\x01\0\0\0\0\0\0\0\x6c\
\0\0\0\x02\0\0\0\x03\
\x01\0\0\0\0\0\0\0\0\0\0\0\0\0\0\0\
\x02\0\0\0\0\0\0\0\0\0\0\0\0\0\0\x01\
\x01\0\0\x01\0\0\0\x01\0\0\0\0\0\0\0\x01\
\0\0\0\x01\0\0\0\0\0\0\0\0\0\0\0\x01\0\0\0\x01\0\0\0\0\0\0\0\0\0\0\0\x05\
\0\0\0\x01\0\0\0\x01\0\0\0\0\0\0\0\x01\0\0\0\0\
\0";

/// Where its gates are: behind no snapshot, behind one and behind both.
pub static GATES: [usize; 3] = [64, 133, 250];

/// What the store is for.
pub fn header() -> Header
    ensures { IsAllowed result }
{
    Header {
        machines: 2,
        algorithm: 2,
        directed: 0,
        source: 0,
        n: 2,
        m: 1,
        digest: Digest([7; 32]),
    }
}

/// The order of the second snapshot.
pub static ORDER: [Entry; 3] = [
    Entry::Go {
        machine: MachineNo(0),
        vertex: Vertex(0),
        ticket: 0,
    },
    Entry::Restart { ticket: 1 },
    Entry::Go {
        machine: MachineNo(1),
        vertex: Vertex(1),
        ticket: 1,
    },
];

/// The record of the first snapshot.
pub fn first(alloc: Global) -> Result<Record, NoMemory> {
    Ok(Record {
        number: 1,
        entries: Vec::new(alloc),
        sections: vec![in alloc;
            SavedPart {
                vertices: vec![in alloc; (Vertex(0), 1)]?,
                edges: Vec::new(alloc),
            },
            SavedPart {
                vertices: vec![in alloc; (Vertex(1), 2)]?,
                edges: vec![in alloc; (EdgeNo(0), 0)]?,
            },
        ]?,
    })
}

/// The record of the second one.
pub fn second(alloc: Global) -> Result<Record, NoMemory> {
    Ok(Record {
        number: 2,
        entries: Vec::from_slice(alloc, &ORDER)?,
        sections: vec![in alloc;
            SavedPart {
                vertices: vec![in alloc; (Vertex(0), 1)]?,
                edges: vec![in alloc; (EdgeNo(0), 5)]?,
            },
            SavedPart {
                vertices: vec![in alloc; (Vertex(1), 1)]?,
                edges: Vec::new(alloc),
            },
        ]?,
    })
}
