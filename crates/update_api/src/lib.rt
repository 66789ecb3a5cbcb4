//! What a program does at a vertex: the update functions of Distributed GraphLab (PVLDB 2012).
#![tactic(auto)]

mod laws;
mod links;
mod programs;
mod scopes;
mod woken;

pub use laws::{colours_take_the_least_free_number, cores_take_the_greatest_supported_number};
pub use links::{Direction, Link};
pub use programs::Program;
pub use scopes::Scope;
pub use woken::Woken;
