//! Finds a vertex by its identifier, without a search through all of them.
ghost use Rattle.std.specs.Prelude.{◌≡◌, ℕ, ◌+◌, ◌^◌, ◌<◌, ◌≤◌, length, slice_index, All, IfOk};
ghost use Rattle.gl_base.specs.Lists.{Ascends};
ghost use Rattle.graph_core.specs.IdTable.{AreRanges, IsFormOf, IsTableOf, IsVertexWith};

use gl_base::{MAX_ID, NoMemory, Vertex};
use std::alloc::Global;

/// Where the identifiers of an ascending list stand in it. The list itself stays with its owner,
/// who hands it to each call.
#[derive(Drop)]
pub struct IdTable {
    form: Form,
}

#[derive(Drop)]
enum Form {
    /// Each identifier is one above the one before; this is the least.
    Consecutive(u64),
    Ranged(Ranges),
}

/// Identifiers whose high bits agree, counted from the least identifier, make a range.
#[derive(Drop)]
struct Ranges {
    least: u64,
    /// How many low bits a range leaves open.
    shift: u32,
    /// The place at which each range begins, and the number of identifiers behind that.
    starts: Vec<u32>,
}

impl IdTable {
    /// The table of a list of identifiers.
    pub fn new(alloc: Global, ids: &[u64]) -> Result<IdTable, NoMemory>
        requires few { length ids.now < 2 ^ 32 }
        requires ascending { Ascends ids.now }
        requires ids { All (λ id. id ≤ MAX_ID) ids.now }
        ensures { IfOk result (λ table. IsTableOf ids.now table) }
    {
        Ok(IdTable {
            form: Form::new(alloc, ids)?,
        })
    }

    /// The vertex with this identifier, where `ids` are those that the table was made of.
    pub fn find(&self, ids: &[u64], id: u64) -> Option<Vertex>
        requires { IsTableOf ids.now self.now }
        ensures { IsVertexWith ids.now id result }
    {
        match &self.form {
            Form::Consecutive(least) => find_consecutive(ids, *least, id),
            Form::Ranged(ranges) => ranges.find(ids, id),
        }
    }
}

impl Form {
    fn new(alloc: Global, ids: &[u64]) -> Result<Form, NoMemory>
        requires few { length ids.now < 2 ^ 32 }
        requires ascending { Ascends ids.now }
        requires ids { All (λ id. id ≤ MAX_ID) ids.now }
        ensures { IfOk result (λ form. IsFormOf ids.now form) }
    {
        if ids.is_empty() {
            return Ok(Form::Consecutive(0));
        }
        let least = ids[0];
        let span = ids[ids.len() - 1] - least;
        if span < ids.len() as u64 {
            return Ok(Form::Consecutive(least));
        }
        let shift = shift_for(span / ids.len() as u64);
        Ok(Form::Ranged(Ranges::new(alloc, ids, shift)?))
    }
}

/// The vertex with this identifier among identifiers that follow one another from the least on.
fn find_consecutive(ids: &[u64], least: u64, id: u64) -> Option<Vertex>
    requires few { length ids.now < 2 ^ 32 }
    requires consecutive { (k : ℕ) → k < length ids.now → slice_index ids.now k ≡ least + k }
    ensures { IsVertexWith ids.now id result }
{
    if id < least || id - least >= ids.len() as u64 {
        return None;
    }
    Some(Vertex((id - least) as u32))
}

/// How many bits a gap between identifiers has.
fn shift_for(gap: u64) -> u32
    ensures { result < 64 }
{
    (64 - gap.leading_zeros()).min(63)
}

impl Ranges {
    fn new(alloc: Global, ids: &[u64], shift: u32) -> Result<Ranges, NoMemory>
        requires some { 0 < length ids.now }
        requires few { length ids.now < 2 ^ 32 }
        requires ascending { Ascends ids.now }
        requires ids { All (λ id. id ≤ MAX_ID) ids.now }
        requires shift { shift < 64 }
        ensures { IfOk result (λ ranges.
            AreRanges ids.now ranges.least ranges.shift ranges.starts.items) }
    {
        let least = ids[0];
        let mut starts = Vec::new(alloc);
        for k in 0..ids.len() {
            let range = ((ids[k] - least) >> shift) as usize;
            starts.resize(range + 1, k as u32)?;
        }
        starts.push(ids.len() as u32)?;
        Ok(Ranges {
            least,
            shift,
            starts,
        })
    }

    fn find(&self, ids: &[u64], id: u64) -> Option<Vertex>
        requires few { length ids.now < 2 ^ 32 }
        requires ascending { Ascends ids.now }
        requires ranges { AreRanges ids.now self.now.least self.now.shift self.now.starts.items }
        ensures { IsVertexWith ids.now id result }
    {
        if id < self.least {
            return None;
        }
        let range = ((id - self.least) >> self.shift) as usize;
        if range >= self.starts.len() - 1 {
            return None;
        }
        let start = self.starts[range] as usize;
        let end = self.starts[range + 1] as usize;
        match ids[start..end].binary_search(&id) {
            Ok(place) => Some(Vertex((start + place) as u32)),
            Err(_) => None,
        }
    }
}
