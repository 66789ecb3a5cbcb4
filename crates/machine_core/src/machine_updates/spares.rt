//! Lists that works have left behind.
ghost use Rattle.std.specs.Prelude.{◌≤◌, IfOk, vec_capacity};
ghost use Rattle.partition.specs.machine_numbers.Steps.{HasRoom};

use gl_base::NoMemory;
use partition::machine_numbers::{ScratchBuffers, Spent};
use std::alloc::Global;

/// Lists that works have left behind. The works that are taken next get them, so that in the long
/// run none is made.
#[derive(Drop)]
pub struct Spares {
    lists: Vec<ScratchBuffers>,
    made: Vec<Vec<u64>>,
}

impl Spares {
    /// Room for the lists of so many works, of which none is there yet.
    pub fn with_room(alloc: Global, many: usize) -> Result<Spares, NoMemory> {
        Ok(Spares {
            lists: Vec::with_capacity(alloc, many)?,
            made: Vec::with_capacity(alloc, many)?,
        })
    }

    /// Lists with room for the work of a vertex with so many edges.
    pub fn fitted(&mut self, alloc: Global, degree: usize) -> Result<ScratchBuffers, NoMemory>
        ensures { IfOk result (λ spare. HasRoom spare degree) }
    {
        match self.lists.pop() {
            Some(spare) => Ok(ScratchBuffers {
                links: fit(spare.links, degree)?,
                edges: fit(spare.edges, degree)?,
                near: fit(spare.near, degree)?,
            }),
            None => ScratchBuffers::with_room(alloc, degree),
        }
    }

    /// A list for what is made of a work.
    pub fn for_outcome(&mut self, alloc: Global) -> Vec<u64> {
        match self.made.pop() {
            Some(list) => list,
            None => Vec::new(alloc),
        }
    }

    /// Keeps the lists of a work and of what was made of it, where there is room for them.
    pub fn keep_all(&mut self, spent: Spent) {
        let Spent {
            links,
            edges,
            near,
            made,
        } = spent;
        self.keep(ScratchBuffers { links, edges, near });
        if self.made.len() < self.made.capacity() {
            self.made.push_reserved(made);
        }
    }

    /// Keeps the lists of a work where there is room for them.
    pub fn keep(&mut self, spare: ScratchBuffers) {
        if self.lists.len() < self.lists.capacity() {
            self.lists.push_reserved(spare);
        }
    }
}

/// The list, empty and with room for so many.
fn fit<T: Drop>(list: Vec<T>, degree: usize) -> Result<Vec<T>, NoMemory>
    ensures { IfOk result (λ v. degree ≤ vec_capacity v) }
{
    let mut list = list;
    list.clear();
    list.reserve(degree)?;
    Ok(list)
}
