//! Reads the lines of scenarios, and writes them as they were seen: for players that print each
//! line again, with what they saw in place of what is written.
//!
//! Reading a line never fails. A word that is no number is `u64::MAX`, and memory that is missing
//! leaves text out: both show in what is printed.
#![tactic(auto)]

mod lines;
mod pages;
mod parts;

pub use lines::{Line, number_of, word_of, words_behind};
pub use pages::Page;
pub use parts::{is_given, is_remark, parts_of};
