//! The coordinator.
ghost use Rattle.std.specs.Prelude.{◌≡◌, ◌≢◌, ◌+◌, ◌^◌, ◌<◌, ◌≤◌, ◌↔◌, true, IfOk, IfSome, IsErrOf, IsTrue, length, option_map, slice_index_or, OnOk, OnErr};
ghost use Rattle.coordinator.specs.coord_core.Coordinators.{HasCluster, MayBeCounted, message_view, no_outbox};
ghost use Rattle.wire.specs.outboxes.Outboxes.{has_waiting};
ghost use Rattle.coordinator.specs.coord_core.Calls.{HasBegunNext, HasHandedOver, HasPutStep, HasPutWave, HasRecorded, HasShownIt, HasTakenReport, IsDueOf, IsFirstWith, IsReadyToRecord, IsRecordDueOf, MayLeadBegin, MayNotBegin, MayNotPutStep, MayNotPutWave, MayNotRecord, MayPutStep, MayPutWave, MayLeadRecord, MayReport, StaysCoordinator};
ghost use Rattle.coordinator.specs.coord_core.Stores.{store_view};
ghost use Rattle.coordinator.specs.coord_core.Inner.Kept.{IsSavingKept};
ghost use Rattle.coordinator.specs.coord_core.Inner.Seen.{SeesEnd, HasShownTheEnd, IsFirstSaving, IsWaveTurn, WantsSnapshot, WantsStep};

use crate::coord_core::asking::{Word, reserve_each, tell_each};
use crate::coord_core::saving::Saving;
use crate::coord_core::steps::{Engine, Steps};
use crate::coord_core::stores::Store;
use crate::quiet_waves::{Verdict, Waves};
use gl_base::{MachineNo, NoMemory, Peer, Record, Refused};
use std::alloc::Global;
use std::marker::Model;
use wire::outboxes::Outboxes;
use wire::wire_msgs::Message;

/// What the coordinator is to do next.
#[derive(Clone, Copy, Debug, PartialEq, Eq)]
pub enum Due {
    /// All sections of the snapshot of this number have come: it is to be recorded.
    Record(u32),
    /// The snapshot of this number is to begin.
    Snapshot(u32),
    /// The run is over.
    Ended,
    /// The next step is to begin, of this colour.
    Step(u32),
    /// A wave is to be put out.
    Wave,
    Nothing,
}

/// The coordinator of a cluster: how many waves it has put out, whether answers to the newest are
/// missing, what the last two brought in, what it knows of its steps and of snapshots, and what
/// waits to be sent to each machine.
#[derive(Drop)]
pub struct Coordinator {
    machines: u16,
    put_out: u64,
    waiting: bool,
    waves: Waves,
    steps: Steps,
    saving: Saving,
    out: Outboxes,
}

impl Model for Coordinator {
    ghost use Rattle.std.specs.Prelude.{◌≡◌, length};
    ghost use Rattle.coordinator.specs.coord_core.Coordinators.{CoordinatorView};
    ghost use Rattle.coordinator.specs.coord_core.Inner.Asking.{AreOutboxesOf};
    ghost use Rattle.coordinator.specs.coord_core.Inner.Kept.{AreStepsKept, IsSavingKept};

    ghost Value = { CoordinatorView };

    ghost view = { λ c. record {
      counting = record {
        put_out = c.put_out;
        waiting = c.waiting;
        waves = c.waves;
      };
      steps = c.steps;
      saving = c.saving;
      out = c.out;
    } };

    ghost invariant = { λ c. AreOutboxesOf c.out c.machines × (length c.saving.come ≡ c.machines) ×
        IsSavingKept c.saving × AreStepsKept c.steps };
}

impl Coordinator {
    /// No wave and no step was put out to so many machines, whose updates are kept apart so, and
    /// nothing waits. Snapshots are taken behind the newest one of the store. Without a store none
    /// is.
    pub fn new(
        alloc: Global,
        machines: u16,
        engine: Engine,
        store: Option<Store>,
    ) -> Result<Coordinator, NoMemory>
        requires newest { IfSome store (λ s. s.newest + 1 < 2 ^ 32) }
        requires length { IfSome store (λ s. s.length < 2 ^ 32) }
        ensures { IfOk result (λ c.
            IsFirstWith machines engine (option_map store_view store) c) }
    {
        let saving = Saving::new(alloc, machines, store)?;
        Coordinator::first(alloc, machines, engine, saving)
    }

    /// What is due: a record where all sections of the snapshot under way have come, also where the
    /// store takes it no more; else a snapshot where the next one is to begin; else the end where
    /// no snapshot is under way and the last two waves showed it; else a step where the next one
    /// may be put out; else a wave where one may. Some cluster has this coordinator, so that what
    /// is said of all of them says something.
    pub fn due(&self) -> Due
        ensures due { IsDueOf self.now result }
        ensures cluster { HasCluster self.now }
    {
        if self.saving.is_record_due() {
            return Due::Record(self.saving.begun());
        }
        if self.wants_snapshot() {
            return Due::Snapshot(self.saving.next_number());
        }
        if self.sees_end() {
            return Due::Ended;
        }
        if self.wants_step() {
            return Due::Step(self.steps.next_colour());
        }
        if self.waiting || !self.is_wave_turn() {
            return Due::Nothing;
        }
        Due::Wave
    }

    /// Begins the next snapshot: tells each machine. `NotNow` comes exactly where none is due.
    pub fn begin(&mut self) -> Result<(), Refused>
        ensures begun { OnOk result (MayLeadBegin self.old × HasBegunNext self.old self.new) }
        ensures not_now { IsErrOf result Refused.NotNow → MayNotBegin self.old }
        ensures no_memory { IsErrOf result Refused.NoMemory → MayLeadBegin self.old }
        ensures unchanged { OnErr result (StaysCoordinator self.old self.new) }
    {
        if !self.wants_snapshot() {
            return Err(Refused::NotNow);
        }
        reserve_each(&mut self.out, self.machines)?;
        let number = self.saving.next_number();
        tell_each(&mut self.out, self.machines, Word::Begin(number));
        self.saving.begin();
        Ok(())
    }

    /// Puts the next step out: tells each machine its colour. `NotNow` comes exactly where there
    /// are no colours, where answers to the last wave are missing, where the step before isn't
    /// over, or where a snapshot is due.
    pub fn step(&mut self) -> Result<(), Refused>
        ensures put_out { OnOk result (MayPutStep self.old × HasPutStep self.old self.new) }
        ensures not_now { IsErrOf result Refused.NotNow → MayNotPutStep self.old }
        ensures no_memory { IsErrOf result Refused.NoMemory → MayPutStep self.old }
        ensures unchanged { OnErr result (StaysCoordinator self.old self.new) }
    {
        if self.wants_snapshot() || !self.wants_step() {
            return Err(Refused::NotNow);
        }
        reserve_each(&mut self.out, self.machines)?;
        let colour = self.steps.next_colour();
        tell_each(&mut self.out, self.machines, Word::Step(colour));
        self.steps.begin();
        Ok(())
    }

    /// Puts the next wave out: asks each machine for its counts. `NotNow` comes exactly where
    /// answers to the last one are missing, a snapshot or a step is due, or with locks a snapshot
    /// is under way; the end of its number is want of memory.
    pub fn wave(&mut self) -> Result<(), Refused>
        ensures put_out { OnOk result (MayPutWave self.old × HasPutWave self.old self.new) }
        ensures not_now { IsErrOf result Refused.NotNow → MayNotPutWave self.old }
        ensures no_memory { IsErrOf result Refused.NoMemory → MayPutWave self.old }
        ensures unchanged { OnErr result (StaysCoordinator self.old self.new) }
    {
        if self.waiting || !self.is_wave_turn() || self.wants_snapshot() || self.wants_step() {
            return Err(Refused::NotNow);
        }
        if self.put_out == u64::MAX {
            return Err(Refused::NoMemory);
        }
        reserve_each(&mut self.out, self.machines)?;
        tell_each(&mut self.out, self.machines, Word::Wave(self.put_out));
        self.put_out += 1;
        self.waiting = true;
        self.steps.ask();
        Ok(())
    }

    /// Makes room for the word to each machine that the snapshot under way is acknowledged, and
    /// gives its number. `NotNow` comes exactly where a section is missing, or the store takes no
    /// record more, or not this one.
    pub fn make_ready(&mut self) -> Result<u32, Refused>
        ensures due { OnOk result (MayLeadRecord self.old) }
        ensures ready { IfOk result (λ number. IsReadyToRecord self.new number) }
        ensures not_now { IsErrOf result Refused.NotNow → MayNotRecord self.old }
        ensures no_memory { IsErrOf result Refused.NoMemory → MayLeadRecord self.old }
        ensures same { StaysCoordinator self.old self.new }
        ensures saving { self.new.saving ≡ self.old.saving }
    {
        if !self.saving.is_record_due() || !self.saving.has_room() {
            return Err(Refused::NotNow);
        }
        reserve_each(&mut self.out, self.machines)?;
        Ok(self.saving.begun())
    }

    /// The record of the snapshot under way, of which nothing is told yet; and room for the word of
    /// it to each machine. `NotNow` comes exactly where a section is missing, or the store takes no
    /// record more, or not this one. It goes over each number once.
    pub fn record(&mut self, alloc: Global) -> Result<Record, Refused>
        ensures due { OnOk result (MayLeadRecord self.old) }
        ensures made { IfOk result (λ made. IsRecordDueOf self.old made) }
        ensures ready { IfOk result (λ made. IsReadyToRecord self.new made.number) }
        ensures not_now { IsErrOf result Refused.NotNow → MayNotRecord self.old }
        ensures no_memory { IsErrOf result Refused.NoMemory → MayLeadRecord self.old }
        ensures same { StaysCoordinator self.old self.new }
    {
        self.make_ready()?;
        Ok(self.saving.record(alloc)?)
    }

    /// The snapshot of this number is acknowledged: each machine is told, and its sections are
    /// gone. It takes no memory.
    pub fn recorded(&mut self, number: u32)
        requires { IsReadyToRecord self.old number }
        ensures { HasRecorded self.old self.new }
    {
        tell_each(&mut self.out, self.machines, Word::Committed(number));
        self.saving.acknowledge();
    }

    /// Whether counts of this machine for this wave may be received: it is the newest one, and they
    /// are missing.
    pub fn awaits(&self, from: MachineNo, wave: u64) -> bool
        ensures { (result ≡ true) ↔ MayBeCounted self.now.counting from.0 wave }
    {
        self.waiting && wave < self.put_out && self.put_out - 1 == wave && self.waves.awaits(from)
    }

    /// Whether the waves have shown the end: all answers have come, and in the last two waves
    /// nothing was left to do.
    pub fn has_seen_the_end(&self) -> bool
        ensures { IsTrue result → HasShownIt self.now }
    {
        self.is_quiet()
    }

    /// How updates are kept apart.
    pub fn engine(&self) -> Engine
        ensures { result ≡ self.now.steps.engine }
    {
        self.steps.engine()
    }

    /// Whether it is the coordinator of this machine.
    pub fn has_machine(&self, m: MachineNo) -> bool
        ensures { IsTrue result ↔ (m.0 < length self.now.out.machines) }
    {
        m.0 < self.machines
    }

    /// A message of a machine has come: its counts, its section, or that it wants a snapshot. It
    /// takes no memory.
    pub fn receive(&mut self, from: MachineNo, message: Message)
        requires { MayReport self.old from.0 (message_view message) }
        ensures { HasTakenReport self.old self.new from.0 (message_view message) }
    {
        match message {
            Message::Count { wave: _, counted } => {
                self.waves.count(from, counted);
                self.waiting = !self.waves.is_whole();
            }
            Message::Section(section) => self.saving.put(from, section),
            Message::Want { acknowledged } => self.saving.want(acknowledged),
            _ => unreachable!(),
        }
    }

    /// Whether a message waits for a machine.
    pub fn waits(&self, to: MachineNo) -> bool
        ensures { result ≡ has_waiting (slice_index_or self.now.out.machines to.0 no_outbox) }
    {
        self.out.waits(Peer::Machine(to))
    }

    /// Takes the first message that waits for a machine; `None` exactly where none waits.
    pub fn outbox_take(&mut self, to: MachineNo) -> Option<Message>
        ensures { HasHandedOver self.old self.new to.0 result }
    {
        self.out.take(Peer::Machine(to))
    }

    /// How many snapshots are stored: the number of the newest acknowledged one.
    pub fn stored(&self) -> u32
        ensures { result ≡ self.now.saving.acknowledged }
    {
        self.saving.acknowledged()
    }

    /// How long the store's file is: the place behind its closing gate.
    pub fn length(&self) -> u64
        ensures { result ≡ self.now.saving.store_end }
    {
        self.saving.store_end()
    }

    /// Whether a snapshot is under way. One is only where snapshots are taken.
    pub fn is_under_way(&self) -> bool
        ensures is { IsTrue result ↔ (self.now.saving.acknowledged ≢ self.now.saving.begun) }
        ensures taken { IsTrue result → self.now.saving.stored ≡ true }
    {
        !self.saving.is_settled()
    }

    /// The coordinator that an attempt begins with.
    fn first(
        alloc: Global,
        machines: u16,
        engine: Engine,
        saving: Saving,
    ) -> Result<Coordinator, NoMemory>
        requires come { length saving.come ≡ machines }
        requires kept { IsSavingKept saving }
        ensures { IfOk result (λ c. IsFirstSaving machines engine saving c) }
    {
        // A drop by a call is proved in one step; one at the end of the scope is proved here, field
        // by field.
        let Ok(waves) = Waves::new(alloc, machines) else {
            drop(saving);
            return Err(NoMemory);
        };
        let Ok(out) = Outboxes::new(alloc, machines) else {
            drop(saving);
            drop(waves);
            return Err(NoMemory);
        };
        Ok(Coordinator {
            machines,
            put_out: 0,
            waiting: false,
            waves,
            steps: Steps::none(engine),
            saving,
            out,
        })
    }

    /// Whether all answers have come, and the last two waves showed the end.
    fn is_quiet(&self) -> bool
        ensures { IsTrue result ↔ HasShownTheEnd self.now.counting }
    {
        !self.waiting && self.waves.verdict() == Verdict::Quiet
    }

    /// Whether the next snapshot is to begin.
    fn wants_snapshot(&self) -> bool
        ensures { IsTrue result ↔ WantsSnapshot self.now }
    {
        self.saving
            .is_snapshot_due(self.is_quiet(), self.waves.updates())
    }

    /// Whether no snapshot is under way, and the last two waves showed the end.
    fn sees_end(&self) -> bool
        ensures { IsTrue result ↔ SeesEnd self.now }
    {
        self.saving.is_settled() && self.is_quiet()
    }

    /// Whether the next step is to begin, as far as snapshots go.
    fn wants_step(&self) -> bool
        ensures { IsTrue result ↔ WantsStep self.now }
    {
        !self.waiting && self.steps.is_due(self.waves.is_even())
    }

    /// Whether it is a wave's turn: with locks no snapshot is under way.
    fn is_wave_turn(&self) -> bool
        ensures { IsTrue result ↔ IsWaveTurn self.now.steps.engine self.now.saving }
    {
        match self.steps.engine() {
            Engine::Locking => self.saving.is_settled(),
            Engine::Chromatic(_) => true,
        }
    }
}
