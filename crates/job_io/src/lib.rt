//! A job: its words, its keys, and the files that it reads and writes.
#![tactic(auto)]

pub mod graph_files;
pub mod job_config;
pub mod job_files;
pub mod job_stores;
pub mod job_words;
pub mod whole_files;
