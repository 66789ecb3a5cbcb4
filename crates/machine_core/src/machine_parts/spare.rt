//! Lists that are kept for later use.
ghost use Rattle.std.specs.Prelude.{◌≡◌, IfOk};

use gl_base::{NoMemory, Vertex};
use std::alloc::Global;

/// Lists of vertices that scopes have left behind. The next scopes that come take them, so that in
/// the long run none is made.
#[derive(Drop)]
pub struct SpareParts {
    lists: Vec<Vec<Vertex>>,
}

impl SpareParts {
    /// Room for so many lists, of which none is there yet.
    pub fn with_room(alloc: Global, many: usize) -> Result<SpareParts, NoMemory> {
        Ok(SpareParts {
            lists: Vec::with_capacity(alloc, many)?,
        })
    }

    /// A list of these vertices.
    pub fn copy(&mut self, alloc: Global, part: &[Vertex]) -> Result<Vec<Vertex>, NoMemory>
        ensures { IfOk result (λ list. list.items ≡ part.now) }
    {
        let mut list = match self.lists.pop() {
            Some(list) => list,
            None => Vec::new(alloc),
        };
        list.clear();
        list.extend_from_slice(part)?;
        Ok(list)
    }

    /// Keeps a list where there is room for it.
    pub fn keep(&mut self, list: Vec<Vertex>) {
        if self.lists.len() < self.lists.capacity() {
            self.lists.push_reserved(list);
        }
    }
}
