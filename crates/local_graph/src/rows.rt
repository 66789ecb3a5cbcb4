//! The edges at a vertex, as an update of it uses them.
use update_api::Link;

/// The edges at a vertex that was taken out: a link for each, in the order of edges, and their
/// numbers. `near` and `edge` of a link are its own place.
#[derive(Drop)]
pub struct Row {
    pub links: Vec<Link>,
    pub numbers: Vec<u64>,
}
