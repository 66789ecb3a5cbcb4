//! Random calls of a pipe, beside plain lists of the scopes in flight and of those that have come.
ghost use Rattle.tests_parts.specs.Flying.{AllFly};

use crate::chances::{Chances, print_alike};
use gl_base::scope_lists::is_scope;
use gl_base::{MachineNo, Mode, NoMemory, ScopeId, Vertex};
use scope_locks::scope_pipe::{Flight, Next, PipeFault, ScopePipe};
use std::alloc::Global;
use std::io;

const WIDTH: usize = 5;

/// A scope that has come, and all that it still wants, what is next first. The last it wants again
/// and again.
#[derive(Drop)]
struct Stand {
    scope: ScopeId,
    wants: Vec<Next>,
}

/// A pipe; beside it the scopes in flight, those that are ready, and those that have come.
#[derive(Drop)]
struct Both {
    pipe: ScopePipe,
    flights: Vec<Flight>,
    ready: Vec<ScopeId>,
    come: Vec<Stand>,
    ghost fly: { AllFly pipe flights.items },
}

impl Both {
    /// Admits a scope of v. Like the other calls it tells whether the pipe answered as it should.
    fn admit(&mut self, v: Vertex) -> Result<bool, NoMemory> {
        let wanted = if self.flights.iter().any(|flight| flight.centre == v) {
            Some(PipeFault::InFlight)
        } else if self.flights.len() == WIDTH {
            Some(PipeFault::Full)
        } else {
            None
        };
        let next = self.pipe.next_id();
        if next.serial == u64::MAX {
            return Ok(false);
        }
        match self.pipe.admit(v) {
            Ok(scope) => {
                self.flights.push(Flight { scope, centre: v })?;
                Ok(wanted.is_none() && scope == next)
            }
            Err(fault) => Ok(wanted == Some(fault)),
        }
    }

    /// A scope in flight gets ready or finishes.
    fn go_on(&mut self, place: usize, finishes: bool) -> Result<bool, NoMemory> {
        if place >= self.flights.len() {
            return Ok(self.pipe.flight_count() == self.flights.len());
        }
        let Flight { scope, centre } = self.flights[place];
        let is_ready = self.pipe.is_ready(scope);
        let alike = is_ready == self.ready.iter().any(|one| *one == scope)
            && self.pipe.flies(centre)
            && self.pipe.is_in_flight(scope)
            && self.pipe.centre(scope) == centre;
        if finishes {
            self.pipe.finish(scope);
            self.flights.retain(|flight| !is_scope(flight.scope, scope));
            self.ready.retain(|one| *one != scope);
        } else if !is_ready {
            self.pipe.ready(scope);
            self.ready.push(scope)?;
        }
        Ok(alike && self.pipe.ready_ones().len() == self.ready.len())
    }

    /// A scope comes, where it has not come yet.
    fn enter(
        &mut self,
        scope: ScopeId,
        part: Vec<Vertex>,
        rest: Vec<MachineNo>,
        alloc: Global,
    ) -> Result<bool, NoMemory> {
        let is_there = self.come.iter().any(|stand| stand.scope == scope);
        if self.pipe.has_come(scope) || self.pipe.entered_count() >= 4096 {
            return Ok(is_there);
        }
        let centre = Vertex(3);
        let mut wants = Vec::new(alloc);
        for vertex in &part {
            let mode = if *vertex == centre {
                Mode::Writer
            } else {
                Mode::Reader
            };
            wants.push(Next::Lock(*vertex, mode))?;
        }
        wants.push(behind(&rest))?;
        self.pipe.enter(scope, centre, part, rest);
        self.come.push(Stand { scope, wants })?;
        Ok(!is_there && self.pipe.entered_count() == self.come.len())
    }

    /// A scope that has come goes on, or leaves.
    fn advance(&mut self, place: usize, leaves: bool) -> Result<bool, NoMemory> {
        if place >= self.come.len() {
            return Ok(self.pipe.entered_count() == self.come.len());
        }
        let stand = &mut self.come[place];
        let scope = stand.scope;
        if !self.pipe.has_come(scope) {
            return Ok(false);
        }
        let looked = self.pipe.look(scope);
        if stand.wants.first() != Some(&looked) {
            return Ok(false);
        }
        if leaves {
            let left = self.pipe.leave(scope);
            let stand = self.come.swap_remove(place);
            return Ok(stand.wants.last() == Some(&behind(&left.rest)));
        }
        if stand.wants.len() > 1 {
            stand.wants.remove(0);
        }
        Ok(self.pipe.advance(scope) == looked)
    }

    /// A random call.
    fn call(&mut self, chances: &mut Chances, alloc: Global) -> Result<bool, NoMemory> {
        match chances.below(4) {
            0 => self.admit(Vertex(chances.below(8))),
            1 => self.go_on(chances.below(6) as usize, chances.below(2) == 0),
            2 => {
                let scope = ScopeId {
                    home: MachineNo(16 * chances.below(2) as u16),
                    serial: 128 * chances.below(4) as u64,
                };
                let part = &[Vertex(1), Vertex(3), Vertex(5)][chances.below(4) as usize..];
                let rest = &[MachineNo(4), MachineNo(6)][chances.below(3) as usize..];
                let part = Vec::from_slice(alloc, part)?;
                let rest = Vec::from_slice(alloc, rest)?;
                self.enter(scope, part, rest, alloc)
            }
            _ => self.advance(chances.below(9) as usize, chances.below(6) == 0),
        }
    }

    /// Makes 1,000 random calls, or those up to the first that is answered otherwise, and tells how
    /// many are answered alike.
    fn play(&mut self, seed: u64, alloc: Global) -> Result<u32, NoMemory> {
        let mut chances = Chances::new(seed);
        for count in 0..1000 {
            if !self.call(&mut chances, alloc)? {
                return Ok(count);
            }
        }
        Ok(1000)
    }

    fn reset(&mut self) {
        self.pipe.reset();
        self.flights.clear();
        self.ready.clear();
        self.come.clear();
    }
}

/// What a scope wants that has all its locks here.
fn behind(rest: &[MachineNo]) -> Next {
    match rest.first() {
        Some(machine) => Next::Forward(*machine),
        None => Next::Home,
    }
}

/// Prints how many of 1,000 calls a pipe answers as plain lists do, at each of 8 seeds.
pub fn print_random_pipes(rt: &impl Print, alloc: Global) -> io::Result<()> {
    match empty(alloc) {
        Ok(mut both) => print_traces(rt, alloc, &mut both),
        Err(fault) => println!(rt; "random pipes: {fault}"),
    }
}

fn empty(alloc: Global) -> Result<Both, NoMemory> {
    Ok(Both {
        pipe: ScopePipe::new(alloc, MachineNo(0), WIDTH as u16)?,
        flights: Vec::new(alloc),
        ready: Vec::new(alloc),
        come: Vec::new(alloc),
    })
}

fn print_traces(rt: &impl Print, alloc: Global, both: &mut Both) -> io::Result<()> {
    for seed in 0..8 {
        print_alike(rt, "pipes", seed, both.play(seed, alloc))?;
        both.reset();
    }
    Ok(())
}
