//! What a machine counts, and the wave that it has to answer.
ghost use Rattle.std.specs.Prelude.{◌≡◌, ◌+◌, Some, true, is_some, IfOk, OnOk, OnErr};
ghost use Rattle.snapshot_machines.specs.wave_counts.Counts.{HasSlackFor, MayTellCounts, HasAnsweredWave, none_counted, one_more};

use gl_base::{Counted, NoMemory};
use std::marker::Model;

/// A number of machines isn't greater.
const SLACK: u64 = 65536;

/// What a machine answers to a wave.
#[derive(Clone, Copy)]
pub struct WaveAnswer {
    pub wave: u64,
    pub counted: Counted,
}

/// How many messages to machines have left a machine's outboxes, how many of machines it received,
/// and the wave that it has to answer still. A count stands still at the greatest number, and tells
/// nothing then.
#[derive(Drop)]
pub struct WaveCounts {
    sent: u64,
    received: u64,
    held: Option<u64>,
}

impl Model for WaveCounts {
    ghost use Rattle.snapshot_machines.specs.wave_counts.Counts.{CountsView};

    ghost Value = { CountsView };

    ghost view = { λ c. record { sent = c.sent; received = c.received; held = c.held } };
}

impl WaveCounts {
    /// Nothing was sent or received, and no wave is held.
    pub fn new() -> WaveCounts
        ensures { result ≡ none_counted }
    {
        WaveCounts {
            sent: 0,
            received: 0,
            held: None,
        }
    }

    /// A message to a machine has left its outbox.
    pub fn add_sent(&mut self)
        ensures { self.new ≡ record self.old { sent = one_more self.old.sent } }
    {
        if self.sent < u64::MAX {
            self.sent += 1;
        }
    }

    /// A message of a machine was received.
    pub fn add_received(&mut self)
        ensures { self.new ≡ record self.old { received = one_more self.old.received } }
    {
        if self.received < u64::MAX {
            self.received += 1;
        }
    }

    /// How many messages to machines were put out, where so many wait in the outboxes: want of
    /// memory exactly where a count has ended.
    pub fn put_out(&self, waiting: u128) -> Result<u64, NoMemory>
        ensures put_out { IfOk result (λ sent. sent ≡ self.now.sent + waiting) }
        ensures told { OnOk result (MayTellCounts self.now waiting) }
        ensures ends { OnErr result (MayTellCounts self.now waiting → ⊥) }
    {
        let room = (u64::MAX - self.sent) as u128;
        if room > 0 && self.received < u64::MAX && waiting <= room {
            Ok(self.sent + waiting as u64)
        } else {
            Err(NoMemory)
        }
    }

    /// Whether the counts are far from their end, where so many messages wait in the outboxes: they
    /// can be told also when one message more was received and one more for each machine was put
    /// out.
    pub fn has_slack(&self, waiting: u128) -> bool
        ensures { result ≡ true → HasSlackFor self.now waiting }
    {
        match self.put_out(waiting) {
            Ok(sent) => sent < u64::MAX - SLACK && self.received < u64::MAX - 1,
            Err(_) => false,
        }
    }

    /// The coordinator asks for the counts of this wave.
    pub fn begin_answer(&mut self, wave: u64)
        ensures { self.new ≡ record self.old { held = Some wave } }
    {
        self.held = Some(wave);
    }

    /// Whether a wave is to be answered still.
    pub fn holds_wave(&self) -> bool
        ensures { result ≡ is_some self.now.held }
    {
        self.held.is_some()
    }

    /// The answer to the wave that is held, where one is and the machine's share is done: so many
    /// messages put out and updates made, what it has received, and whether it is idle. Then none
    /// is held any more.
    pub fn answer(&mut self, done: bool, sent: u64, updates: u64, idle: bool) -> Option<WaveAnswer>
        ensures { HasAnsweredWave self.old self.new done sent updates idle result }
    {
        if !done {
            return None;
        }
        let wave = self.held.take()?;
        Some(WaveAnswer {
            wave,
            counted: Counted {
                sent,
                received: self.received,
                updates,
                idle,
            },
        })
    }
}
