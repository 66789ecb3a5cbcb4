//! The answer to a wave, behind each call that changes the machine.
ghost use Rattle.std.specs.Prelude.{◌≡◌, ◌≤◌, ◌<◌, true, is_some, length, OnOk};
ghost use Rattle.placed_machines.specs.chromatic.Prompting.{CanTellCountsNow, HasPrompted, HasRoomToAnswer, HasSlack};

use crate::chromatic::machines::ChromaticMachine;
use gl_base::{Entry, NoMemory};
use update_api::Program;
use wire::wire_msgs::Message;

impl<P: Program> ChromaticMachine<P> {
    /// Makes room for so many reports; and where a wave is held, it is want of memory too where a
    /// count is about to end. What follows a call can't fail then.
    pub(crate) fn prepare(&mut self, reports: usize) -> Result<(), NoMemory>
        ensures room { OnOk result (reports ≤ self.new.reports.room) }
        ensures slack { OnOk result (HasSlack self.old) }
        ensures same { self.new.reports.messages ≡ self.old.reports.messages }
        ensures rest { self.new ≡ record self.old { reports = self.new.reports } }
    {
        self.reports.reserve_many(reports)?;
        if self.counts.holds_wave() && !self.counts.has_slack(self.machine.waiting()) {
            return Err(NoMemory);
        }
        Ok(())
    }

    /// Makes room for the answer to a wave; it is want of memory too where a count has ended.
    pub(crate) fn prepare_answer(&mut self) -> Result<(), NoMemory>
        ensures room { OnOk result (0 < self.new.reports.room) }
        ensures told { OnOk result (CanTellCountsNow self.old) }
        ensures same { self.new.reports.messages ≡ self.old.reports.messages }
        ensures rest { self.new ≡ record self.old { reports = self.new.reports } }
    {
        self.reports.reserve()?;
        self.counts.put_out(self.machine.waiting())?;
        Ok(())
    }

    /// Answers the wave that is held, where one is and the machine's share of the step is done:
    /// nothing more is admitted in the step, and the counts are put out. It takes no memory.
    pub(crate) fn prompt(&mut self)
        requires { HasRoomToAnswer self.old }
        ensures { HasPrompted P.meaning self.old self.new }
    {
        let _core = self.machine.core();
        if !self.counts.holds_wave() {
            return;
        }
        let Ok(sent) = self.counts.put_out(self.machine.waiting()) else {
            return;
        };
        if self.machine.close().is_err() {
            return;
        }
        let updates = count(self.machine.log());
        let idle = self.machine.is_idle();
        if let Some(answer) = self.counts.answer(true, sent, updates, idle) {
            self.reports.put(Message::Count {
                wave: answer.wave,
                counted: answer.counted,
            });
        }
    }
}

/// How many entries there are.
fn count(entries: &[Entry]) -> u64
    ensures { result ≡ length entries.now }
{
    entries.len() as u64
}
