//! Atoms: how a graph is cut, placed and written to files, and how files are gathered to a cut.
#![tactic(auto)]

pub mod atom_cut;
pub mod atom_file;
pub mod atom_gather;
pub mod atom_place;
