//! The part of the graph that a machine owns, made from its lines.
ghost use Rattle.std.specs.Prelude.{◌≡◌, ◌+◌, ◌^◌, ◌<◌, ◌≤◌, length, map, IfOk};
ghost use Rattle.std.specs.List.{All};
ghost use Rattle.gl_base.specs.declared.limits.TheConstants.{MAX_VERTICES};
ghost use Rattle.graph_core.specs.DataGraph.{size};
ghost use Rattle.local_graph.specs.Played.{IsMadeOf, IsPermutation, IsPlayedFrom, graph_halves};
ghost use Rattle.local_graph.specs.Inner.Beside.{AreBeside};
ghost use Rattle.local_graph.specs.Inner.ByPlace.{HaveEdgesBelow, IsPlayedBy};

use crate::ends::{EndsOf, Standing};
use crate::grouping::halves_by_vertex;
use crate::making::{Sources, make_by_place};
use crate::numbers::EdgeNumbers;
use crate::order::{growth_order, list_known};
use crate::scopes::are_plain;
use crate::{LocalGraph, Outline};
use gl_base::vertex_places::Places;
use gl_base::{Datum, GhostLine, Lines, MAX_VERTICES, MachineNo, NoMemory, Vertex, VertexLine};
use graph_core::{Graph, Half, Rows};
use std::alloc::Global;

/// No number is set.
const NO_DATUM: Datum = Datum {
    value: 0,
    version: 0,
    mark: 0,
};

/// The lines of a machine: of its own vertices, and of the ghosts beside them.
#[derive(Drop)]
pub struct MachineLines<'a> {
    pub me: MachineNo,
    pub own: &'a [VertexLine],
    pub ghosts: &'a [GhostLine],
}

impl LocalGraph {
    /// Machine `me`'s part of a graph, from the lines of its vertices, the ghosts beside them and
    /// the edges at them: the atom that it has where each vertex is in the atom with the number of
    /// its owner. Its order of vertices is breadth-first growth from `first`, where that is its
    /// own, and then from the least own vertex that was not reached. No number is set yet: data and
    /// edges have 0.
    pub fn play(
        alloc: Global,
        me: MachineNo,
        lines: &Lines,
        outline: Outline,
        first: Vertex,
    ) -> Result<LocalGraph, NoMemory>
        requires vertices { All (λ v. v.vertex.0 < outline.vertices) lines.now.vertices.items }
        requires ghosts { All (λ g. g.vertex.0 < outline.vertices) lines.now.ghosts.items }
        requires few { length lines.now.vertices.items + length
            lines.now.ghosts.items ≤ outline.vertices }
        requires limit { outline.vertices ≤ MAX_VERTICES }
        requires edges { All (λ e. e.edge.0 < outline.edges) lines.now.edges.items }
        requires few_edges { length lines.now.edges.items < 2 ^ 31 }
        ensures { IfOk result (λ local. IsPlayedFrom me lines.now outline local) }
    {
        let ends = EndsOf {
            edges: &lines.edges,
            directed: outline.directed,
            none: outline.vertices,
        };
        let halves = halves_by_vertex(alloc, &ends)?;
        let room = 2 * lines.edges.len();
        let played = MachineLines {
            me,
            own: &lines.vertices,
            ghosts: &lines.ghosts,
        };
        play_halves(alloc, &played, outline, first, &halves, room)
    }

    /// A machine's part of this graph, one of so many machines, from the lines of its own vertices
    /// and of the ghosts beside them. Its order of vertices is that of `play`, and no number is set
    /// yet.
    pub fn of(
        alloc: Global,
        graph: &Graph,
        lines: &MachineLines<'_>,
        machines: u16,
        first: Vertex,
    ) -> Result<LocalGraph, NoMemory>
        requires vertices { All (λ v. v.vertex.0 < size graph.now) lines.now.own.now }
        requires ghosts { All (λ g. g.vertex.0 < size graph.now) lines.now.ghosts.now }
        requires few { length lines.now.own.now + length lines.now.ghosts.now ≤ size graph.now }
        ensures { IfOk result (λ local.
            IsMadeOf lines.now.me lines.now.own.now lines.now.ghosts.now (graph_halves graph.now)
            machines (length graph.now.edges) local) }
    {
        let outline = Outline {
            machines,
            vertices: graph.n(),
            edges: graph.m(),
            directed: graph.directed(),
        };
        let halves = graph.half_rows();
        let room = count_halves(lines.own, halves);
        play_halves(alloc, lines, outline, first, halves, room)
    }
}

/// How many half-edges there are at the vertices of these lines.
fn count_halves(own: &[VertexLine], halves: &Rows<Half>) -> usize {
    let mut count: usize = 0;
    for line in own {
        let v = line.vertex.0 as usize;
        if v < halves.len() {
            count = count.saturating_add(halves.row(v).len());
        }
    }
    count
}

/// The part of the graph with these vertices and ghosts, from the half-edges at each vertex. Room
/// for so many sides is made at first.
fn play_halves(
    alloc: Global,
    lines: &MachineLines<'_>,
    outline: Outline,
    first: Vertex,
    halves: &Rows<Half>,
    room: usize,
) -> Result<LocalGraph, NoMemory>
    requires vertices { All (λ v. v.vertex.0 < outline.vertices) lines.now.own.now }
    requires ghosts { All (λ g. g.vertex.0 < outline.vertices) lines.now.ghosts.now }
    requires few { length lines.now.own.now + length lines.now.ghosts.now ≤ outline.vertices }
    requires limit { outline.vertices ≤ MAX_VERTICES }
    requires many { outline.vertices ≤ length halves.now }
    requires edges { HaveEdgesBelow outline.vertices outline.edges halves.now }
    ensures { IfOk result (λ local.
        IsPlayedBy lines.now.me lines.now.own.now lines.now.ghosts.now halves.now outline local) }
{
    let order = growth_order(alloc, lines.own, outline.vertices, first, halves)?;
    play_in_order(alloc, lines, outline, &order, halves, room)
}

/// The same with the own vertices in this order.
fn play_in_order(
    alloc: Global,
    lines: &MachineLines<'_>,
    outline: Outline,
    order: &[VertexLine],
    halves: &Rows<Half>,
    room: usize,
) -> Result<LocalGraph, NoMemory>
    requires vertices { All (λ v. v.vertex.0 < outline.vertices) lines.now.own.now }
    requires ghosts { All (λ g. g.vertex.0 < outline.vertices) lines.now.ghosts.now }
    requires few { length lines.now.own.now + length lines.now.ghosts.now ≤ outline.vertices }
    requires limit { outline.vertices ≤ MAX_VERTICES }
    requires many { outline.vertices ≤ length halves.now }
    requires edges { HaveEdgesBelow outline.vertices outline.edges halves.now }
    requires order { IsPermutation lines.now.own.now order.now }
    ensures { IfOk result (λ local.
        IsPlayedBy lines.now.me lines.now.own.now lines.now.ghosts.now halves.now outline local) }
{
    let known = list_known(alloc, order, lines.ghosts)?;
    let places = Places::new(alloc, &known, outline.vertices)?;
    let owned = list_vertices(alloc, lines.own)?;
    let standing = Standing {
        me: lines.me,
        many: order.len(),
        ghosts: lines.ghosts,
        places: &places,
    };
    let sources = Sources {
        known: &known,
        owned: &owned,
        is_plain: are_plain(&owned, &standing),
        halves,
        machines: outline.machines,
    };
    let lists = make_by_place(alloc, &sources, &standing, room)?;
    let beside = make_beside(alloc, lines.ghosts, order, outline.edges)?;
    Ok(LocalGraph {
        me: lines.me,
        owned,
        ghosts: beside.ghosts,
        places,
        ids: beside.ids,
        kept: beside.kept,
        links: lists.links,
        outs: beside.outs,
        sides: lists.sides,
        parts: lists.parts,
        part: lists.part,
        numbers: beside.numbers,
    })
}

/// What a machine keeps beside the lists that are made from half-edges.
#[derive(Drop)]
struct Beside {
    ghosts: Vec<GhostLine>,
    ids: Vec<u64>,
    kept: Vec<Datum>,
    outs: Vec<bool>,
    numbers: EdgeNumbers,
}

/// The ghosts, the identifiers of the own vertices in this order, no number set, of these and of so
/// many edges, and no row out.
fn make_beside(
    alloc: Global,
    ghosts: &[GhostLine],
    order: &[VertexLine],
    edges: u32,
) -> Result<Beside, NoMemory>
    ensures { IfOk result (λ beside. AreBeside ghosts.now order.now edges beside) }
{
    Ok(Beside {
        ghosts: Vec::from_slice(alloc, ghosts)?,
        ids: list_ids(alloc, order)?,
        kept: Vec::from_elem(alloc, NO_DATUM, order.len())?,
        outs: Vec::from_elem(alloc, false, order.len())?,
        numbers: EdgeNumbers::blank(alloc, edges as usize)?,
    })
}

/// The vertices of lines.
fn list_vertices(alloc: Global, lines: &[VertexLine]) -> Result<Vec<Vertex>, NoMemory>
    ensures { IfOk result (λ vertices. vertices.items ≡ map (λ v. v.vertex) lines.now) }
{
    let vertices: Vec<Vertex> = lines.iter().map(|line| line.vertex).collect(alloc)?;
    Ok(vertices)
}

/// The identifiers of lines.
fn list_ids(alloc: Global, lines: &[VertexLine]) -> Result<Vec<u64>, NoMemory>
    ensures { IfOk result (λ ids. ids.items ≡ map (λ v. v.id) lines.now) }
{
    let ids: Vec<u64> = lines.iter().map(|line| line.id).collect(alloc)?;
    Ok(ids)
}
