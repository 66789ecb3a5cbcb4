//! Stores that have many snapshots.

/// How many vertices the graph of such a store may have.
const MOST_VERTICES: u64 = 64;

/// Adds snapshots of the components of a graph without edges, as they stand behind the header of
/// its store, and the gate that ends them: behind the first one, each has a restart more than the
/// one before it. The vertices have the identifiers from 1 on, and no updates.
pub fn add_snapshots(store: &mut Vec<u8>, count: u64, vertices: u64) {
    let vertices = vertices.min(MOST_VERTICES);
    for place in 0..count.min(5000) {
        let restarts = place.min(1);
        add_number(store, 1, 1);
        add_number(store, 16 + 16 * restarts + 12 * vertices, 8);
        add_number(store, place.saturating_add(1), 4);
        add_number(store, restarts, 4);
        if place > 0 {
            add_number(store, 2, 1);
            add_number(store, 0, 7);
            add_number(store, place - 1, 8);
        }
        add_number(store, vertices, 4);
        for vertex in 0..vertices {
            add_number(store, vertex, 4);
            add_number(store, vertex + 1, 8);
        }
        add_number(store, 0, 4);
    }
    add_number(store, 0, 1);
}

/// Adds a number in so many bytes, eight at most, the highest first.
fn add_number(store: &mut Vec<u8>, number: u64, size: usize) {
    let before = 8usize.saturating_sub(size);
    for byte in number.to_be_bytes().into_iter().skip(before) {
        let _ = store.push(byte);
    }
}
