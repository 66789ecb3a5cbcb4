//! What a machine keeps by place, made one place behind another.
ghost use Rattle.std.specs.Prelude.{◌≡◌, ◌<◌, ◌≤◌, ◌++◌, ◌∷◌, true, [], length, map, slice_index_or, IfOk, OnOk};
ghost use Rattle.std.specs.List.{All};
ghost use Rattle.local_graph.specs.Played.{numbers_of, side_of, sides_kept};
ghost use Rattle.local_graph.specs.Inner.AtPlaces.{ArePlain, scope_numbers};
ghost use Rattle.local_graph.specs.Inner.ByPlace.{AreMadeTo};
ghost use Rattle.local_graph.specs.Inner.Ways.{links_along};

use crate::Side;
use crate::ends::Standing;
use crate::linking::fill_ways;
use crate::links::{LinkRows, Way};
use crate::machines::fill_machines;
use crate::scopes::fill_scope;
use crate::siding::fill_sides;
use gl_base::{MachineNo, NoMemory, Vertex};
use graph_core::{Half, Rows};
use std::alloc::Global;

/// Lists by place: the links of rows and the machines of scopes of the own vertices, and the sides
/// and the own vertices of scopes of all.
#[derive(Drop)]
pub struct ByPlace {
    pub links: LinkRows,
    pub sides: Rows<Side>,
    pub parts: Rows<MachineNo>,
    pub part: Rows<Vertex>,
}

/// What the lists are made from: the vertices by place, the own ones first, the own ones in their
/// order and whether they are plain, the half-edges at each vertex, and how many machines there
/// are.
#[derive(Drop)]
pub struct Sources<'a> {
    pub known: &'a [Vertex],
    pub owned: &'a [Vertex],
    pub is_plain: bool,
    pub halves: &'a Rows<Half>,
    pub machines: u16,
}

impl Sources<'_> {
    /// The half-edges at a vertex.
    #[inline]
    fn row(&self, v: Vertex) -> &[Half]
        requires { v.0 < length self.now.halves.now }
        ensures { result.now ≡ slice_index_or self.now.halves.now v.0 [] }
    {
        self.halves.row(v.0 as usize)
    }
}

/// What is made of one place, before it is added to the lists.
#[derive(Drop)]
struct Draft {
    ways: Vec<Way>,
    sides: Vec<Side>,
    machines: Vec<MachineNo>,
    scope: Vec<Vertex>,
}

/// The lists from these sources, with room for so many sides at first.
pub fn make_by_place(
    alloc: Global,
    sources: &Sources<'_>,
    standing: &Standing<'_>,
    room: usize,
) -> Result<ByPlace, NoMemory>
    requires many { standing.now.many ≤ length sources.now.known.now }
    requires few { standing.now.many < 4294967295 }
    requires below { All (λ v. v.0 < length sources.now.halves.now) sources.now.known.now }
    requires plain { sources.now.is_plain ≡ true →
        ArePlain sources.now.owned.now standing.now.many standing.now.places.now }
    ensures { IfOk result (λ lists.
        AreMadeTo (side_of standing.now.me standing.now.many standing.now.ghosts.now
        standing.now.places.now) standing.now.many standing.now.me sources.now.machines
        sources.now.halves.now sources.now.known.now sources.now.owned.now standing.now.many
        (length sources.now.known.now) lists) }
{
    let mut lists = no_lists(alloc, sources.known.len(), standing.many, room)?;
    let mut draft = Draft {
        ways: Vec::new(alloc),
        sides: Vec::new(alloc),
        machines: Vec::new(alloc),
        scope: Vec::new(alloc),
    };
    add_own(&mut lists, &mut draft, sources, standing)?;
    add_ghosts(&mut lists, &mut draft, sources, standing)?;
    Ok(lists)
}

/// No place, with room for so many, of which so many are of own vertices, and for so many sides.
fn no_lists(alloc: Global, places: usize, own: usize, room: usize) -> Result<ByPlace, NoMemory>
    ensures { IfOk result (λ lists. (lists.links ≡ []) × (lists.sides ≡ []) ×
        (lists.parts ≡ []) × (lists.part ≡ [])) }
{
    Ok(ByPlace {
        links: LinkRows::none(alloc, own)?,
        sides: Rows::none(alloc, places, room)?,
        parts: Rows::none(alloc, own, own)?,
        part: Rows::none(alloc, places, room.saturating_add(own))?,
    })
}

/// Adds the places of the own vertices.
fn add_own(
    lists: &mut ByPlace,
    draft: &mut Draft,
    sources: &Sources<'_>,
    standing: &Standing<'_>,
) -> Result<(), NoMemory>
    requires many { standing.now.many ≤ length sources.now.known.now }
    requires few { standing.now.many < 4294967295 }
    requires below { All (λ v. v.0 < length sources.now.halves.now) sources.now.known.now }
    requires plain { sources.now.is_plain ≡ true →
        ArePlain sources.now.owned.now standing.now.many standing.now.places.now }
    requires made { AreMadeTo
        (side_of standing.now.me standing.now.many standing.now.ghosts.now standing.now.places.now)
        standing.now.many standing.now.me sources.now.machines sources.now.halves.now
        sources.now.known.now sources.now.owned.now 0 0 lists.old }
    ensures { OnOk result
        (AreMadeTo (side_of standing.now.me standing.now.many standing.now.ghosts.now
        standing.now.places.now) standing.now.many standing.now.me sources.now.machines
        sources.now.halves.now sources.now.known.now sources.now.owned.now standing.now.many
        standing.now.many lists.new) }
{
    for place in 0..standing.many {
        let v = sources.known[place];
        let halves = sources.row(v);
        draft.fill(v, halves, true, sources, standing)?;
        fill_machines(
            &mut draft.machines,
            &draft.sides,
            standing.me,
            sources.machines,
        )?;
        fill_ways(&mut draft.ways, halves)?;
        lists.push_own(&draft.ways, &draft.machines)?;
        lists.push_around(draft)?;
    }
    Ok(())
}

/// Adds the places of the ghosts behind them.
fn add_ghosts(
    lists: &mut ByPlace,
    draft: &mut Draft,
    sources: &Sources<'_>,
    standing: &Standing<'_>,
) -> Result<(), NoMemory>
    requires many { standing.now.many ≤ length sources.now.known.now }
    requires few { standing.now.many < 4294967295 }
    requires below { All (λ v. v.0 < length sources.now.halves.now) sources.now.known.now }
    requires plain { sources.now.is_plain ≡ true →
        ArePlain sources.now.owned.now standing.now.many standing.now.places.now }
    requires made { AreMadeTo
        (side_of standing.now.me standing.now.many standing.now.ghosts.now standing.now.places.now)
        standing.now.many standing.now.me sources.now.machines sources.now.halves.now
        sources.now.known.now sources.now.owned.now standing.now.many standing.now.many lists.old }
    ensures { OnOk result
        (AreMadeTo (side_of standing.now.me standing.now.many standing.now.ghosts.now
        standing.now.places.now) standing.now.many standing.now.me sources.now.machines
        sources.now.halves.now sources.now.known.now sources.now.owned.now standing.now.many
        (length sources.now.known.now) lists.new) }
{
    for place in standing.many..sources.known.len() {
        let v = sources.known[place];
        let halves = sources.row(v);
        draft.fill(v, halves, false, sources, standing)?;
        lists.push_around(draft)?;
    }
    Ok(())
}

impl Draft {
    /// The sides and the own vertices of the scope of a vertex with these half-edges, an own one or
    /// a ghost.
    fn fill(
        &mut self,
        v: Vertex,
        halves: &[Half],
        is_own: bool,
        sources: &Sources<'_>,
        standing: &Standing<'_>,
    ) -> Result<(), NoMemory>
        requires few { standing.now.many < 4294967295 }
        requires plain { sources.now.is_plain ≡ true →
            ArePlain sources.now.owned.now standing.now.many standing.now.places.now }
        ensures sides { OnOk result (self.new.sides.items ≡ sides_kept is_own standing.now.many
            (map (side_of standing.now.me standing.now.many standing.now.ghosts.now
            standing.now.places.now) halves.now)) }
        ensures scope { OnOk result
            (numbers_of self.new.scope.items ≡ scope_numbers sources.now.owned.now
            v.0 self.new.sides.items) }
    {
        fill_sides(&mut self.sides, halves, is_own, standing)?;
        fill_scope(
            &mut self.scope,
            v,
            &self.sides,
            sources.owned,
            sources.is_plain,
            standing,
        )
    }
}

impl ByPlace {
    /// Adds the row and the machines of the scope of an own vertex.
    fn push_own(&mut self, ways: &[Way], machines: &[MachineNo]) -> Result<(), NoMemory>
        ensures links { OnOk result
            (self.new.links ≡ self.old.links ++ links_along 0 ways.now ∷ []) }
        ensures parts { OnOk result (self.new.parts ≡ self.old.parts ++ machines.now ∷ []) }
        ensures rest { (self.new.sides ≡ self.old.sides) × (self.new.part ≡ self.old.part) }
    {
        self.links.push(ways)?;
        self.parts.push(machines)
    }

    /// Adds the sides of a vertex, and the own vertices of its scope.
    fn push_around(&mut self, draft: &Draft) -> Result<(), NoMemory>
        ensures sides { OnOk result
            (self.new.sides ≡ self.old.sides ++ draft.now.sides.items ∷ []) }
        ensures part { OnOk result (self.new.part ≡ self.old.part ++ draft.now.scope.items ∷ []) }
        ensures rest { (self.new.links ≡ self.old.links) × (self.new.parts ≡ self.old.parts) }
    {
        self.sides.push(&draft.sides)?;
        self.part.push(&draft.scope)
    }
}
