//! What the coordinator knows of its steps.
ghost use Rattle.std.specs.Prelude.{◌≡◌, ◌↔◌, IsTrue};
ghost use Rattle.coordinator.specs.coord_core.Steps.{HasColours, IsStepDue, colour_in_turn, first_steps, steps_begun, steps_asked};

use std::marker::Model;

/// How updates that run side by side are kept apart.
#[derive(Clone, Copy)]
pub enum Engine {
    /// By locks on each update's scope.
    Locking,
    /// By steps, each of one of so many colours.
    Chromatic(u32),
}

/// What the coordinator knows of its steps: the colour of the newest one, 0 where none was put out,
/// and how many waves were put out since, of which no more than two are counted.
#[derive(Drop)]
pub struct Steps {
    engine: Engine,
    colour: u32,
    since: u8,
}

impl Model for Steps {
    ghost use Rattle.coordinator.specs.coord_core.Steps.{StepsView};
    ghost use Rattle.coordinator.specs.coord_core.Inner.Kept.{AreStepsKept};

    ghost Value = { StepsView };

    ghost view = { λ s. record { engine = s.engine; colour = s.colour; since = s.since } };

    ghost invariant = { λ s. AreStepsKept (record {
      engine = s.engine;
      colour = s.colour;
      since = s.since;
    }) };
}

impl Steps {
    /// No step was put out.
    pub fn none(engine: Engine) -> Steps
        ensures { result ≡ first_steps engine }
    {
        Steps {
            engine,
            colour: 0,
            since: 0,
        }
    }

    /// How updates are kept apart.
    pub fn engine(&self) -> Engine
        ensures { result ≡ self.now.engine }
    {
        self.engine
    }

    /// Whether the next step is due, where the last two waves were even or not.
    pub fn is_due(&self, even: bool) -> bool
        ensures { IsTrue result ↔ IsStepDue self.now even }
    {
        match self.engine {
            Engine::Locking => false,
            Engine::Chromatic(colours) => colours > 0
                && (self.colour == 0 || self.since == 2 && even),
        }
    }

    /// The colour of the next step: after the greatest one 1 again.
    pub fn next_colour(&self) -> u32
        ensures { result ≡ colour_in_turn self.now.engine self.now.colour }
    {
        match self.engine {
            Engine::Chromatic(colours) if self.colour < colours => self.colour + 1,
            _ => 1,
        }
    }

    /// The next step begins.
    pub fn begin(&mut self)
        requires { HasColours self.old.engine }
        ensures { self.new ≡ steps_begun self.old }
    {
        self.colour = self.next_colour();
        self.since = 0;
    }

    /// One wave more is put out.
    pub fn ask(&mut self)
        ensures { self.new ≡ steps_asked self.old }
    {
        if self.since < 2 {
            self.since += 1;
        }
    }
}
