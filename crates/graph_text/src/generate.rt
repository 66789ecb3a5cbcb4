//! The texts of made graphs.

mod laws;
mod making;
mod stride;

pub use laws::{
    made_edges_are_apart, made_edges_are_listed, made_texts_describe_graphs,
    made_vertices_are_listed, offsets_are_apart, strides_are_unique,
};
pub use making::{Writing, make_edges, make_vertices};
