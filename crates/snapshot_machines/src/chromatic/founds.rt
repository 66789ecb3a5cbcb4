//! Updates at once in a step, of a vertex that is found before.
ghost use Rattle.std.specs.Prelude.{◌≡◌, IfNone, IfSome, OnErr, OnOk};
ghost use Rattle.coordinator.specs.snap_update.Snaps.{IsSameButRoom};
ghost use Rattle.snapshot_machines.specs.chromatic.AtOnce.{HasLoggedAtOnce, HasNoneByColour, HasRunAtOnce, HasUpdatedByColour};
ghost use Rattle.snapshot_machines.specs.chromatic.Eager.{FindsInStep};
ghost use Rattle.snapshot_machines.specs.chromatic.Machines.{IsInSameStep, part_of_steps};
ghost use Rattle.snapshot_machines.specs.chromatic.Inner.Picking.{IsFoundInStep};
ghost use Rattle.snapshot_machines.specs.saving.Machines.{IsBetweenCalls};

use crate::chromatic::machines::ColorSnapMachine;
use gl_base::{NoMemory, Vertex};
use machine_core::color_parts::{Which, enlist_near};
use machine_core::machine_at_once::Found;
use update_api::Program;

impl<P: Program> ColorSnapMachine<P> {
    /// The vertex that would be admitted next, where it may be updated at once.
    pub fn next_at_once(&self) -> Option<Vertex>
        ensures found { IfSome result (λ v. FindsInStep self.now v) }
        ensures none { IfNone result (HasNoneByColour self.now) }
        ensures order { IsBetweenCalls self.now.core self.now.kept }
    {
        match self.find_at_once() {
            Some(found) => Some(found.vertex),
            None => None,
        }
    }

    /// Updates a vertex that was found, as `update_at_once` does.
    pub fn update_now(&mut self, v: Vertex, ticket: u64) -> Result<(), NoMemory>
        requires { FindsInStep self.old v }
        ensures updated { OnOk result
            (HasUpdatedByColour (P.meaning self.old.program) self.old self.new v ticket) }
        ensures run { OnOk result
            (HasRunAtOnce self.old.core.numbers.tasks self.new.core.numbers.tasks) }
        ensures logged { OnOk result
            (HasLoggedAtOnce self.old.core self.old.kept self.new.kept v ticket) }
        ensures unchanged { OnErr result (part_of_steps self.new ≡ part_of_steps self.old) }
        ensures same { OnErr result (IsSameButRoom self.old.kept self.new.kept) }
        ensures tasks { OnErr result (self.new.core.numbers.tasks ≡ self.old.core.numbers.tasks) }
        ensures local { let old = self.old.core.numbers.local in
            let new = self.new.core.numbers.local in
            new ≡ record old { kept = new.kept; rows = new.rows; numbers = new.numbers } }
        ensures step { IsInSameStep self.old self.new }
        ensures order { IsBetweenCalls self.old.core self.old.kept }
    {
        let place = self.machine.place_of(v);
        self.update_found(Found { place, vertex: v }, ticket)
    }

    /// Updates a vertex that was found. The vertices that it wakes stand in line by their colours.
    pub(crate) fn update_found(&mut self, found: Found, ticket: u64) -> Result<(), NoMemory>
        requires { IsFoundInStep self.old found }
        ensures updated { OnOk result
            (HasUpdatedByColour (P.meaning self.old.program) self.old
            self.new found.vertex ticket) }
        ensures run { OnOk result
            (HasRunAtOnce self.old.core.numbers.tasks self.new.core.numbers.tasks) }
        ensures logged { OnOk result
            (HasLoggedAtOnce self.old.core self.old.kept self.new.kept found.vertex ticket) }
        ensures unchanged { OnErr result (part_of_steps self.new ≡ part_of_steps self.old) }
        ensures same { OnErr result (IsSameButRoom self.old.kept self.new.kept) }
        ensures tasks { OnErr result (self.new.core.numbers.tasks ≡ self.old.core.numbers.tasks) }
        ensures local { let old = self.old.core.numbers.local in
            let new = self.new.core.numbers.local in
            new ≡ record old { kept = new.kept; rows = new.rows; numbers = new.numbers } }
        ensures step { IsInSameStep self.old self.new }
        ensures order { IsBetweenCalls self.old.core self.old.kept }
    {
        match self.machine.update_found(found, ticket) {
            Ok(()) => {
                self.lines.remove(found.place);
                let after = self.machine.core();
                enlist_near(&mut self.lines, &after.numbers, found.vertex, Which::Tasks);
                Ok(())
            }
            Err(NoMemory) => Err(NoMemory),
        }
    }
}
