//! The last two waves, and whether they show the end.
ghost use Rattle.std.specs.Prelude.{◌≡◌, ◌↔◌, true, sum_by, IfOk, IsTrue};
ghost use Rattle.coordinator.specs.quiet_waves.Waves.{AreEvenWaves, MayAnswer, ShowTheEnd, all_answered, answered, no_waves, turned, updates_told};

use crate::quiet_waves::answering::Answers;
use gl_base::{Counted, MachineNo, NoMemory};
use std::alloc::Global;
use std::marker::Model;
use std::mem;

/// What the last two waves show.
#[derive(Clone, Copy, PartialEq, Eq)]
pub enum Verdict {
    /// The end.
    Quiet,
    /// Not the end, or an answer is missing.
    NotYet,
}

/// What each machine has answered to this wave and to the one before, where it has.
#[derive(Drop)]
pub struct Waves {
    before: Answers,
    wave: Answers,
}

impl Model for Waves {
    ghost use Rattle.std.specs.Prelude.{◌≡◌, length};
    ghost use Rattle.coordinator.specs.quiet_waves.Waves.{TwoWaves};

    ghost Value = { TwoWaves };

    ghost view = { λ w. record { before = w.before; wave = w.wave } };

    ghost invariant = { λ w. length w.before ≡ length w.wave };
}

impl Waves {
    /// Nobody of so many machines has answered a wave.
    pub fn new(alloc: Global, machines: u16) -> Result<Waves, NoMemory>
        ensures { IfOk result (λ w. w ≡ no_waves machines) }
    {
        Ok(Waves {
            before: Answers::none(alloc, machines)?,
            wave: Answers::none(alloc, machines)?,
        })
    }

    /// Whether each machine has answered this wave.
    pub fn is_whole(&self) -> bool
        ensures { result ≡ all_answered self.now.wave }
    {
        self.wave.sums().missing == 0
    }

    /// Whether machine `m` has not answered this wave yet, or the next one where each machine has
    /// answered this one.
    pub fn awaits(&self, m: MachineNo) -> bool
        ensures { (result ≡ true) ↔ MayAnswer self.now m.0 }
    {
        (m.0 as usize) < self.wave.machines() && (self.is_whole() || self.wave.is_missing(m))
    }

    /// Machine `m` answers this wave, or the next one where each machine has answered this one.
    pub fn count(&mut self, m: MachineNo, counted: Counted)
        requires { MayAnswer self.old m.0 }
        ensures { self.new ≡ answered self.old m.0 counted }
    {
        if self.is_whole() {
            self.turn();
        }
        self.wave.put(m, counted);
    }

    /// `Quiet` exactly where in both waves each machine was idle, and as many messages had been sent, and as many received: the
    /// same number.
    pub fn verdict(&self) -> Verdict
        ensures { (result ≡ Verdict.Quiet) ↔ ShowTheEnd self.now }
    {
        let restless_before = self.before.sums().restless;
        let restless = self.wave.sums().restless;
        if restless_before == 0 && restless == 0 && self.is_even() {
            Verdict::Quiet
        } else {
            Verdict::NotYet
        }
    }

    /// Whether in both waves as many messages had been sent, and as many received: the same number.
    pub fn is_even(&self) -> bool
        ensures { IsTrue result ↔ AreEvenWaves self.now }
    {
        let before = self.before.sums();
        let wave = self.wave.sums();
        let even = before.received == before.sent;
        let same = wave.sent == before.sent && wave.received == before.sent;
        even && same
    }

    /// How many updates the machines have told in this wave.
    pub fn updates(&self) -> u128
        ensures { result ≡ sum_by updates_told self.now.wave }
    {
        self.wave.sums().updates
    }

    /// The wave before is forgotten, and the next one begins.
    fn turn(&mut self)
        requires { all_answered self.old.wave ≡ true }
        ensures { self.new ≡ turned self.old }
    {
        mem::swap(&mut self.before, &mut self.wave);
        self.wave.clear();
    }
}
