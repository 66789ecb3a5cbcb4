//! The receipt of a board: the updates that were made on it.
ghost use Rattle.std.specs.Prelude.{◌≡◌, drop, length, IfOk};
ghost use Rattle.cluster_laws.specs.cluster_core.Replays.{ticket_of};
ghost use Rattle.cluster_step.specs.trace.Traces.{InEachTrace};
ghost use Rattle.wire_board.specs.Receipts.{AreLengthsOf, HasLoggedBehind, IsMerge, entries_in, logged_behind};

use cluster_step::clusters::SavingMachine;
use cluster_step::trace::Trace;
use gl_base::{Entry, MachineNo, NoMemory};
use std::alloc::Global;
use std::marker::Model;

/// What closing a board leaves of the updates that were made on it, by ticket: behind those of the
/// receipt that the board was opened with, if any. A board that is closed makes one, and nothing
/// else does. Contracts see its entries.
#[derive(Drop)]
pub struct Receipt {
    entries: Vec<Entry>,
}

impl Model for Receipt {
    ghost use Rattle.std.specs.Prelude.{List};
    ghost use Rattle.gl_base.specs.declared.entries.Entry.{Entry};

    ghost Value = { List Entry };

    ghost view = { λ r. r.entries.items };
}

impl Receipt {
    /// The updates, by ticket.
    pub fn entries(&self) -> &[Entry]
        ensures { result.now ≡ self.now }
    {
        &self.entries
    }
}

/// What is kept of a trace whose cluster goes onto a board: the receipt so far, if there is one,
/// and how many updates each machine had made in this attempt.
#[derive(Drop)]
pub struct Opened {
    pub(crate) so_far: Option<Receipt>,
    pub(crate) lengths: Vec<usize>,
}

impl Opened {
    /// What is kept of this trace.
    pub(crate) fn of<M: SavingMachine>(
        alloc: Global,
        trace: &Trace<M>,
        so_far: Option<Receipt>,
    ) -> Result<Opened, NoMemory>
        ensures so_far { IfOk result (λ o. o.so_far ≡ so_far) }
        ensures lengths { IfOk result (λ o.
            AreLengthsOf M.represents trace.now o.lengths.items) }
    {
        let lengths = log_lengths(alloc, trace)?;
        Ok(Opened { so_far, lengths })
    }

    /// The receipt of a board that was opened so, and whose cluster is that of this trace now.
    pub(crate) fn closed<M: SavingMachine>(
        self,
        alloc: Global,
        trace: &Trace<M>,
    ) -> Result<Receipt, NoMemory>
        requires { length self.lengths.items ≡ length trace.now.now.machines.items }
        ensures { IfOk result (λ receipt. HasLoggedBehind M.represents trace.now self.lengths.items
            (entries_in self.so_far) receipt) }
    {
        let Opened { so_far, lengths } = self;
        let made = made_behind(alloc, trace, &lengths)?;
        match so_far {
            None => Ok(Receipt { entries: made }),
            Some(receipt) => {
                let Receipt { entries } = receipt;
                let mut entries = entries;
                entries.extend_from_slice(&made)?;
                Ok(Receipt { entries })
            }
        }
    }
}

/// How many updates each machine has made in this attempt.
fn log_lengths<M: SavingMachine>(alloc: Global, trace: &Trace<M>) -> Result<Vec<usize>, NoMemory>
    ensures { IfOk result (λ lengths. AreLengthsOf M.represents trace.now lengths.items) }
{
    let many = trace.machines();
    let mut lengths = Vec::with_capacity(alloc, many)?;
    for m in 0..many {
        let log = trace.log(MachineNo(m as u16));
        lengths.push_reserved(log.len());
    }
    Ok(lengths)
}

/// The updates that the machines have behind these lengths of their logs, by ticket.
fn made_behind<M: SavingMachine>(
    alloc: Global,
    trace: &Trace<M>,
    lengths: &[usize],
) -> Result<Vec<Entry>, NoMemory>
    requires { length lengths.now ≡ length trace.now.now.machines.items }
    ensures { IfOk result (λ made.
        InEachTrace M.represents trace.now (λ st o events c.
        IsMerge (logged_behind lengths.now st.machines c) made.items)) }
{
    let mut made = all_behind(alloc, trace, lengths)?;
    made.sort_unstable_by_key(|entry| ticket(*entry));
    Ok(made)
}

/// The updates that the machines have behind these lengths of their logs, one machine behind the
/// other.
fn all_behind<M: SavingMachine>(
    alloc: Global,
    trace: &Trace<M>,
    lengths: &[usize],
) -> Result<Vec<Entry>, NoMemory>
    requires { length lengths.now ≡ length trace.now.now.machines.items }
    ensures { IfOk result (λ all.
        InEachTrace M.represents trace.now (λ st o events c.
        all.items ≡ logged_behind lengths.now st.machines c)) }
{
    let mut all = Vec::new(alloc);
    for m in 0..trace.machines() {
        let log = trace.log(MachineNo(m as u16));
        all.extend_from_slice(rest_from(log, lengths[m]))?;
    }
    Ok(all)
}

/// What the log has from this place on.
fn rest_from(log: &[Entry], from: usize) -> &[Entry]
    ensures { result.now ≡ drop from log.now }
{
    if from < log.len() {
        &log[from..]
    } else {
        &log[log.len()..]
    }
}

/// The ticket of an entry.
fn ticket(entry: Entry) -> u64
    ensures { result ≡ ticket_of entry }
{
    match entry {
        Entry::Go { ticket, .. } | Entry::Restart { ticket } => ticket,
    }
}
