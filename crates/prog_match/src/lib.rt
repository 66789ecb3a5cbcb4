//! The program that matches vertices in pairs, so that no edge has two unmatched ends.
#![tactic(auto)]

mod examples;
mod laws;
mod pairs;

pub use examples::{
    a_restart_keeps_pairs, a_vertex_apart_stays_unmatched, the_line_is_matched_whole,
    the_third_takes_the_second,
};
pub use laws::{pairs_are_maximal, pairs_need_few_updates};
pub use pairs::Pairs;
