//! A program on a graph that is placed.
use graph_core::Graph;
use placed_machines::Places;
use update_api::Program;

/// A program, the graph on which it runs, and where that is placed.
#[derive(Clone, Copy)]
pub struct PlacedProgram<'a, P: Program> {
    pub graph: &'a Graph,
    pub program: P,
    pub places: &'a Places,
}
