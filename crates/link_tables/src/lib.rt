//! Links that threads share: each queue is taken, changed and given back whole, and tickets are
//! drawn one by one.
#![tactic(auto)]

mod padding;
#[cfg(test)]
mod posting;
mod rules;
mod tables;
#[cfg(test)]
mod tests;
mod views;
mod words;

pub use rules::{Becomes, LinkRule};
pub use tables::{LinkTable, Place};
pub use views::{Sight, View};
pub use words::LinkWord;
