//! A graph on machines: the part of each machine, and the numbers with which it begins.

mod beginning;
mod cutting;
mod owners;
mod parts;
mod starting;
mod weighing;

pub use beginning::{first_numbers, first_numbers_of_all};
pub use cutting::{PlacedGraph, Placement, owners_by_weight, placed_by_cut, placement_by_cut};
pub use parts::{parts_by_owner, placed};
pub use starting::first_base;
