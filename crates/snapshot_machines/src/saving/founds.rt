//! Updates at once of vertices that were found.
ghost use Rattle.std.specs.Prelude.{◌≡◌, ℕ, OnErr, OnOk};
ghost use Rattle.machine_core.specs.machine_at_once.Picks.{HasEachRow, IsOrderly, KnowsPlaces, datum_here, is_own};
ghost use Rattle.coordinator.specs.snap_update.Snaps.{IsSameButRoom};
ghost use Rattle.snapshot_machines.specs.saving.Machines.{IsBetweenCalls, SameSettings, part_of};
ghost use Rattle.snapshot_machines.specs.saving.Updates.{HasLoggedAtOnce, HasRunAtOnce, HasUpdatedFound, WaitsAt};

use crate::saving::machines::SnapMachine;
use gl_base::{Entry, NoMemory};
use machine_core::machine_at_once::{Found, Stamp};
use machine_core::machine_parts::Core;
use machine_core::machine_updates::Spares;
use std::alloc::Global;
use update_api::Program;

impl<P: Program> SnapMachine<P> {
    /// Updates a task that was found, which is neither pending nor admitted, where the window has
    /// room: as if a scope of it were admitted and made its update. Its scope has this machine
    /// alone, so no message is sent, and nobody claims its locks. The update is logged under the
    /// ticket, and kept before the marks where its vertex has no mark of the snapshot that is
    /// known, else behind them.
    pub fn update_found(&mut self, found: Found, ticket: u64) -> Result<(), NoMemory>
        requires { WaitsAt self.old.core.numbers found.place found.vertex }
        ensures updated { OnOk result
            (HasUpdatedFound (P.meaning self.old.program) self.old.core
            self.new.core found.vertex ticket) }
        ensures run { OnOk result
            (HasRunAtOnce self.old.core.numbers.tasks self.new.core.numbers.tasks) }
        ensures logged { OnOk result
            (HasLoggedAtOnce self.old.core self.old.kept self.new.kept found.vertex ticket) }
        ensures unchanged { OnErr result (part_of self.new.core ≡ part_of self.old.core) }
        ensures same { OnErr result (IsSameButRoom self.old.kept self.new.kept) }
        ensures tasks { OnErr result (self.new.core.numbers.tasks ≡ self.old.core.numbers.tasks) }
        ensures local { let old = self.old.core.numbers.local in
            let new = self.new.core.numbers.local in
            new ≡ record old { kept = new.kept; rows = new.rows; numbers = new.numbers } }
        ensures program { self.new.program ≡ self.old.program }
        ensures places { self.new.core.by_place ≡ self.old.core.by_place }
        ensures terms { self.new.core.terms ≡ self.old.core.terms }
        ensures settings { SameSettings self.old.core self.new.core }
        ensures order { IsBetweenCalls self.old.core self.old.kept }
    {
        if self.snaps.reserve().is_err() {
            return Err(NoMemory);
        }
        match make_found(
            self.alloc,
            &mut self.core,
            &mut self.spares,
            &self.program,
            found,
            ticket,
        ) {
            Ok(()) => {
                let entry = Entry::Go {
                    ticket,
                    machine: self.core.numbers.local.me(),
                    vertex: found.vertex,
                };
                self.snaps
                    .log(entry, self.core.numbers.datum(found.vertex).mark);
                Ok(())
            }
            Err(NoMemory) => Err(NoMemory),
        }
    }
}

/// Makes the update of a task that was found. It touches no lock and sends no message. It is want
/// of memory too that no serial is left.
fn make_found<P: Program>(
    alloc: Global,
    core: &mut Core,
    spares: &mut Spares,
    program: &P,
    found: Found,
    ticket: u64,
) -> Result<(), NoMemory>
    requires orderly { IsOrderly core.old }
    requires places { KnowsPlaces core.old }
    requires rows { HasEachRow core.old.numbers.local }
    requires waits { WaitsAt core.old.numbers found.place found.vertex }
    ensures updated { OnOk result
        (HasUpdatedFound (P.meaning program.now) core.old core.new found.vertex ticket) }
    ensures run { OnOk result (HasRunAtOnce core.old.numbers.tasks core.new.numbers.tasks) }
    ensures unchanged { OnErr result (part_of core.new ≡ part_of core.old) }
    ensures tasks { OnErr result (core.new.numbers.tasks ≡ core.old.numbers.tasks) }
    ensures rows { HasEachRow core.new.numbers.local }
    ensures own { (x : ℕ) → is_own core.new.numbers.local x ≡ is_own core.old.numbers.local x }
    ensures marks { (x : ℕ) →
        (datum_here core.new.numbers x).mark ≡ (datum_here core.old.numbers x).mark }
    ensures local { let old = core.old.numbers.local in let new = core.new.numbers.local in
        new ≡ record old { kept = new.kept; rows = new.rows; numbers = new.numbers } }
    ensures orderly { IsOrderly core.new }
    ensures places { KnowsPlaces core.new }
    ensures settings { SameSettings core.old core.new }
    ensures rest { core.new ≡ record core.old { numbers = core.new.numbers; pipe = core.new.pipe } }
{
    if !core.pipe.has_serial() {
        return Err(NoMemory);
    }
    let scope = core.pipe.next_id();
    let stamp = Stamp { scope, ticket };
    match machine_core::machine_at_once::make(
        alloc,
        &mut core.numbers,
        spares,
        program,
        found,
        stamp,
    ) {
        Ok(()) => {
            core.pipe.pass();
            Ok(())
        }
        Err(NoMemory) => Err(NoMemory),
    }
}
