//! Numbers that look random, the same ones in each run.
ghost use Rattle.std.specs.Prelude.{◌<◌};

use gl_base::NoMemory;
use std::io;

/// A linear congruential generator.
#[derive(Drop)]
pub struct Chances {
    state: u64,
}

impl Chances {
    pub fn new(seed: u64) -> Chances {
        Chances { state: seed }
    }

    /// A number below `bound`.
    pub fn below(&mut self, bound: u32) -> u32
        requires { 0 < bound }
        ensures { result < bound }
    {
        self.state = self
            .state
            .wrapping_mul(6364136223846793005)
            .wrapping_add(1442695040888963407);
        ((self.state >> 33) % bound as u64) as u32
    }
}

/// Prints how many of 1,000 random calls were answered alike. A smaller number is the place of the
/// first that was not.
pub fn print_alike(
    rt: &impl Print,
    name: &str,
    seed: u64,
    alike: Result<u32, NoMemory>,
) -> io::Result<()> {
    match alike {
        Ok(count) => println!(rt; "random {name}, seed {seed}: calls answered alike {count}"),
        Err(fault) => println!(rt; "random {name}, seed {seed}: {fault}"),
    }
}
