//! Plays scenarios, and prints each of their lines again, with what it saw in place of what is
//! written: calls of the engine over files in memory, which may fail.
//!
//! Its words name files of scenarios. If the engine does what they say, it prints their very text.
#![tactic(auto)]

mod calling;
mod entries;
mod escapes;
mod gates;
mod playing;
mod printing;
mod sections;
mod stage;
mod steps;
mod stores;
mod told;
mod turns;
mod updates;
mod words;

use playing::play_file;
use std::rt::Env;
use std::{env, io};

fn main(rt: HostRuntime) -> io::Result<()> {
    for word in env::args(&rt)?.skip(1) {
        play_file(&rt, word.as_str())?;
    }
    Ok(())
}
