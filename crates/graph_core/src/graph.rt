//! The data graph as a built structure.
ghost use Rattle.std.specs.Prelude.{◌≡◌, ◌<◌, ◌≤◌, length, map, slice_index, vec_len, All, IfOk, IfErr, OnErr, OnOk, None};

use crate::edge_lists::kept_edges;
use crate::edges::Edge;
use crate::half_rows::half_rows;
use crate::halves::Half;
use crate::id_table::IdTable;
use crate::neighbours::list_neighbours;
use crate::rows::Rows;
use crate::vertex_lists::sorted_ids;
use crate::{EdgeIn, GraphFault};
use gl_base::{EdgeLine, EdgeNo, MAX_EDGES, MAX_ID, MAX_VERTICES, NoMemory, Vertex};
use std::alloc::Global;
use std::marker::Model;

/// A graph. Vertices are numbered by ascending identifier, and edges by ascending ends; an edge
/// without direction has its lower vertex as `from`. Contracts see the data graph.
#[derive(Drop)]
pub struct Graph {
    directed: bool,
    ids: Vec<u64>,
    table: IdTable,
    edges: Vec<Edge>,
    halves: Rows<Half>,
}

impl Model for Graph {
    ghost use Rattle.graph_core.specs.DataGraph.{DataGraph};
    ghost use Rattle.graph_core.specs.Graphs.{data_graph};
    ghost use Rattle.graph_core.specs.Inner.GraphParts.{AreGraphParts};

    ghost Value = { DataGraph };

    ghost view = { λ g. data_graph g.directed g.ids.items g.edges.items };

    ghost invariant = { λ g.
        AreGraphParts (data_graph g.directed g.ids.items g.edges.items) g.table g.halves };
}

impl Graph {
    ghost use Rattle.graph_core.specs.DataGraph.{DataGraph, IsDataGraph, size};
    ghost use Rattle.graph_core.specs.GraphLists.{IsGraphOf, graph_fault, NamesFirstFault};
    ghost use Rattle.graph_core.specs.Halves.{halves_of};
    ghost use Rattle.graph_core.specs.HalfRows.{AreHalfRows, data_half};
    ghost use Rattle.graph_core.specs.IdTable.{IsVertexWith};
    ghost use Rattle.graph_core.specs.Neighbours.{neighbours_of};
    ghost use Rattle.graph_core.specs.Graphs.{HasEnds, IsEdgeLine};

    /// The graph of a list of identifiers and a list of edges between them. It refuses first the
    /// least place of an identifier that stands before it too; then the least place of an edge with
    /// an end that is no identifier, with two equal ends, or that stands before it too, in this
    /// order.
    pub fn build(
        alloc: Global,
        ids: Vec<u64>,
        edges: Vec<EdgeIn>,
        directed: bool,
    ) -> Result<Graph, GraphFault>
        requires few { vec_len ids ≤ MAX_VERTICES }
        requires few_edges { vec_len edges ≤ MAX_EDGES }
        requires ids { All (λ id. id ≤ MAX_ID) ids.items }
        ensures graph { IfOk result (IsGraphOf ids.items edges.items directed) }
        ensures no_fault { OnOk result (graph_fault ids.items edges.items directed ≡ None) }
        ensures fault { IfErr result
            (NamesFirstFault (graph_fault ids.items edges.items directed)) }
    {
        let ids = sorted_ids(alloc, ids)?;
        let table = IdTable::new(alloc, &ids)?;
        let edges = kept_edges(alloc, &table, &ids, edges, directed)?;
        let halves = half_rows(alloc, ids.len(), &edges, directed)?;
        Ok(Graph {
            directed,
            ids,
            table,
            edges,
            halves,
        })
    }

    /// How many vertices there are.
    pub fn n(&self) -> u32
        ensures count { result ≡ size self.now }
        ensures graph { IsDataGraph self.now }
    {
        self.ids.len() as u32
    }

    /// How many edges there are.
    pub fn m(&self) -> u32
        ensures count { result ≡ length self.now.edges }
        ensures graph { IsDataGraph self.now }
    {
        self.edges.len() as u32
    }

    /// Whether edges have a direction.
    pub fn directed(&self) -> bool
        ensures { result ≡ self.now.directed }
    {
        self.directed
    }

    /// The identifier of a vertex.
    pub fn id(&self, v: Vertex) -> u64
        requires { v.0 < size self.now }
        ensures { result ≡ slice_index self.now.ids v.0 }
    {
        self.ids[v.0 as usize]
    }

    /// The vertex with an identifier, and `None` where no vertex has it.
    pub fn find(&self, id: u64) -> Option<Vertex>
        ensures { IsVertexWith self.now.ids id result }
    {
        self.table.find(&self.ids, id)
    }

    /// Lists the neighbours of a vertex, ascending, each once, in place of what the list had. After
    /// `NoMemory` the list is unchanged.
    pub fn list_neighbours(&self, v: Vertex, list: &mut Vec<Vertex>) -> Result<(), NoMemory>
        requires { v.0 < size self.now }
        ensures neighbours { OnOk result (map (λ u.
            u.0) list.new.items ≡ neighbours_of self.now v.0) }
        ensures unchanged { OnErr result (list.new.items ≡ list.old.items) }
    {
        list_neighbours(list, self.halves.row(v.0 as usize))?;
        Ok(())
    }

    /// The edges at a vertex, ascending.
    pub fn halves(&self, v: Vertex) -> &[Half]
        requires { v.0 < size self.now }
        ensures { map data_half result.now ≡ halves_of self.now v.0 }
    {
        self.halves.row(v.0 as usize)
    }

    /// The edges at each vertex, ascending.
    pub fn half_rows(&self) -> &Rows<Half>
        ensures { AreHalfRows self.now result.now }
    {
        &self.halves
    }

    /// Where an edge begins and where it ends.
    pub fn ends(&self, e: EdgeNo) -> (Vertex, Vertex)
        requires { e.0 < length self.now.edges }
        ensures { HasEnds self.now e.0 result.0.0 result.1.0 }
    {
        let edge = self.edges[e.0 as usize];
        (edge.from, edge.to)
    }

    /// An edge: its number, where it begins and ends, and its weight.
    pub fn edge(&self, e: EdgeNo) -> EdgeLine
        requires { e.0 < length self.now.edges }
        ensures { IsEdgeLine self.now e.0 result }
    {
        let edge = self.edges[e.0 as usize];
        EdgeLine {
            edge: e,
            from: edge.from,
            to: edge.to,
            weight: edge.weight,
        }
    }
}
