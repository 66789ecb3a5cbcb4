//! Plays scenarios of a cluster that takes snapshots, and prints each of their lines as it was
//! seen.
//!
//! Its words name files of scenarios. What it prints is their text, one file after the other, if
//! everything in them is so.
#![tactic(auto)]

mod acts;
mod answers;
mod beginnings;
mod calls;
mod chances;
mod driving;
mod events;
mod graphs;
mod imprints;
mod looks;
mod orders;
mod parts;
mod plans;
mod playing;
mod records;
mod recovering;
mod replays;
mod restarts;
mod scenes;
mod stores;
mod trouble;
mod walks;

use parts::play_file;
use std::{env, io};

fn main(rt: HostRuntime) -> io::Result<()> {
    for word in env::args(&rt)?.skip(1) {
        play_file(&rt, word.as_str())?;
    }
    Ok(())
}
