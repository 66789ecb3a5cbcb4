//! The coordinator's turn on a board.
ghost use Rattle.std.specs.Prelude.{◌≡◌, ◌≢◌, ◌+◌, ◌*◌, ◌^◌, ◌<◌, ℕ, suc, true, false, List, IfOk, OnErr, OnOk};
ghost use Rattle.coordinator.specs.coord_core.Calls.{StaysCoordinator};
ghost use Rattle.link_tables.specs.Seats.{Rests};
ghost use Rattle.wire_board.specs.Directing.{HasDirected, HasDirectedIf, HasLedAt};
ghost use Rattle.wire_board.specs.Led.{Lead, link_no};
ghost use Rattle.wire_board.specs.Seats.{Leads};
ghost use Rattle.wire_board.specs.Sights.{HasLooked, Sees};

use crate::boards::Board;
use crate::moving::{has_come, has_gone};
use crate::standings::{Leading, Seated};
use crate::turns::either;
use cluster_step::clusters::{Due, Link, SavingMachine};
use gl_base::{MachineNo, NoMemory, Refused};
use link_tables::Place;
use std::alloc::Global;
use std::marker::Brand;

/// How the coordinator's turn has gone.
#[derive(Clone, Copy, Debug, PartialEq, Eq)]
pub enum Directed {
    /// Something moved.
    Moved,
    /// Nothing moved.
    Nothing,
    /// A record is due, or the end.
    Ending,
}

impl<M: SavingMachine> Board<M> {
    /// The coordinator's turn: it tells each machine a call, looks at the link from each and hears
    /// a report, and does what is due. It puts a wave out only where nothing has moved. Where a
    /// record is due, or the end, it does nothing of its own. `Moved` comes only where something
    /// had moved before, or events of its seat lead from the coordinator as it was to what it is;
    /// `Nothing` only where its seat has made none.
    pub fn direct(
        &self,
        alloc: Global,
        lead: &mut Leading,
        place: &mut Place<Seated<M>, Link>,
        moved: bool,
    ) -> Result<Directed, NoMemory>
        requires table { place.old.seat.table_id ≡ self.now.table.table.shared.table_id }
        requires links { (suc lead.old.number * suc lead.old.number ≡ self.now.table.many) ×
            (suc lead.old.number < 2 ^ 16) }
        requires sits { (others : List (Seated M)) × Leads lead.old others place.old.seat.me }
        ensures table { place.new.seat.table_id ≡ place.old.seat.table_id }
        ensures sits { (others : List (Seated M)) → Leads lead.old others place.old.seat.me →
            Leads lead.new others place.new.seat.me }
        ensures number { lead.new.number ≡ lead.old.number }
        ensures looked { OnOk result (
            (from : ℕ) → from < lead.old.number →
            HasLooked place.old.seat.me place.new.seat.me
            (link_no (suc lead.old.number) from lead.old.number)) }
        ensures led { IfOk result (λ how.
            HasDirected lead.old.number lead.old.coordinator place.old.seat.me
            lead.new.coordinator place.new.seat.me
            ((how ≡ Directed.Moved) × (moved ≡ false)) (how ≡ Directed.Nothing)) }
    {
        let told = self.tell_calls(alloc, lead, place)?;
        let heard = self.hear_reports(alloc, lead, place);
        let passed = either(told, heard);
        let any = either(moved, passed);
        self.lead(lead, place, any)
    }

    /// Tells each machine a call that waits for it. Says whether one did.
    fn tell_calls(
        &self,
        alloc: Global,
        lead: &mut Leading,
        place: &mut Place<Seated<M>, Link>,
    ) -> Result<bool, NoMemory>
        requires table { place.old.seat.table_id ≡ self.now.table.table.shared.table_id }
        requires links { (suc lead.old.number * suc lead.old.number ≡ self.now.table.many) ×
            (suc lead.old.number < 2 ^ 16) }
        requires sits { (others : List (Seated M)) × Leads lead.old others place.old.seat.me }
        ensures table { place.new.seat.table_id ≡ place.old.seat.table_id }
        ensures sits { (others : List (Seated M)) → Leads lead.old others place.old.seat.me →
            Leads lead.new others place.new.seat.me }
        ensures number { lead.new.number ≡ lead.old.number }
        ensures sees { OnOk result (Sees place.old.seat.me place.new.seat.me) }
        ensures led { IfOk result (λ some.
            HasDirectedIf lead.old.number lead.old.coordinator place.old.seat.me
            lead.new.coordinator place.new.seat.me some) }
    {
        let mut moved = false;
        for to in 0..lead.number {
            let how = self.tell_call(alloc, lead, place, MachineNo(to as u16))?;
            moved = either(moved, has_gone(how));
        }
        Ok(moved)
    }

    /// Hears a report of each machine. Says whether one has come.
    fn hear_reports(
        &self,
        alloc: Global,
        lead: &mut Leading,
        place: &mut Place<Seated<M>, Link>,
    ) -> bool
        requires table { place.old.seat.table_id ≡ self.now.table.table.shared.table_id }
        requires links { (suc lead.old.number * suc lead.old.number ≡ self.now.table.many) ×
            (suc lead.old.number < 2 ^ 16) }
        requires sits { (others : List (Seated M)) × Leads lead.old others place.old.seat.me }
        ensures table { place.new.seat.table_id ≡ place.old.seat.table_id }
        ensures sits { (others : List (Seated M)) → Leads lead.old others place.old.seat.me →
            Leads lead.new others place.new.seat.me }
        ensures number { lead.new.number ≡ lead.old.number }
        ensures looked { (from : ℕ) → from < lead.old.number →
            HasLooked place.old.seat.me place.new.seat.me
            (link_no (suc lead.old.number) from lead.old.number) }
        ensures led { HasDirectedIf lead.old.number lead.old.coordinator place.old.seat.me
            lead.new.coordinator place.new.seat.me result }
    {
        let mut moved = false;
        for from in 0..lead.number {
            let how = self.hear_report(alloc, lead, place, MachineNo(from as u16));
            moved = either(moved, has_come(how));
        }
        moved
    }

    /// Does what is due of its own.
    pub(crate) fn lead(
        &self,
        lead: &mut Leading,
        place: &mut Place<Seated<M>, Link>,
        moved: bool,
    ) -> Result<Directed, NoMemory>
        requires table { place.old.seat.table_id ≡ self.now.table.table.shared.table_id }
        requires sits { (others : List (Seated M)) × Leads lead.old others place.old.seat.me }
        ensures table { place.new.seat.table_id ≡ place.old.seat.table_id }
        ensures sits { (others : List (Seated M)) → Leads lead.old others place.old.seat.me →
            Leads lead.new others place.new.seat.me }
        ensures number { lead.new.number ≡ lead.old.number }
        ensures sees { Sees place.old.seat.me place.new.seat.me }
        ensures led { IfOk result (λ how.
            HasDirected lead.old.number lead.old.coordinator place.old.seat.me
            lead.new.coordinator place.new.seat.me
            ((how ≡ Directed.Moved) × (moved ≡ false)) (how ≢ Directed.Moved)) }
        ensures nothing { IfOk result (λ how. how ≡ Directed.Nothing → moved ≡ false) }
    {
        let due = lead.coordinator.due();
        if matches!(due, Due::Record(_) | Due::Ended) {
            return Ok(Directed::Ending);
        }
        match self.lead_due(lead, place, due, moved) {
            Ok(()) => Ok(Directed::Moved),
            Err(Refused::NoMemory) => Err(NoMemory),
            Err(Refused::NotNow) if moved => Ok(Directed::Moved),
            Err(Refused::NotNow) => Ok(Directed::Nothing),
        }
    }

    /// Does this, which is due; a wave only where nothing has moved.
    fn lead_due(
        &self,
        lead: &mut Leading,
        place: &mut Place<Seated<M>, Link>,
        due: Due,
        moved: bool,
    ) -> Result<(), Refused>
        requires table { place.old.seat.table_id ≡ self.now.table.table.shared.table_id }
        requires sits { (others : List (Seated M)) × Leads lead.old others place.old.seat.me }
        ensures table { place.new.seat.table_id ≡ place.old.seat.table_id }
        ensures sits { (others : List (Seated M)) → Leads lead.old others place.old.seat.me →
            Leads lead.new others place.new.seat.me }
        ensures number { lead.new.number ≡ lead.old.number }
        ensures sees { Sees place.old.seat.me place.new.seat.me }
        ensures led { OnOk result (HasLedAt lead.old.number lead.old.coordinator
            place.old.seat.me lead.new.coordinator place.new.seat.me) }
        ensures unchanged { OnErr result
            (StaysCoordinator lead.old.coordinator lead.new.coordinator) }
    {
        match due {
            Due::Snapshot(_) => self.begin(lead, place),
            Due::Step(_) => self.step(lead, place),
            Due::Wave if !moved => self.wave(lead, place),
            _ => Err(Refused::NotNow),
        }
    }

    /// The coordinator's place has it as it is now.
    pub fn rest_lead(&self, lead: &Leading, place: &mut Place<Seated<M>, Link>)
        requires table { place.old.seat.table_id ≡ self.now.table.table.shared.table_id }
        requires sits { (others : List (Seated M)) × Leads lead.now others place.old.seat.me }
        ensures table { place.new.seat.table_id ≡ place.old.seat.table_id }
        ensures rests { (others : List (Seated M)) → Leads lead.now others place.old.seat.me →
            Rests place.new.seat.me (Lead lead.now) others }
    {
        self.table.settle::<Brand, Leading>(place, lead);
    }
}

/// Whether something moved in the turn.
pub(crate) fn is_led(how: Directed) -> bool
    ensures some { result ≡ true → how ≡ Directed.Moved }
    ensures none { result ≡ false → how ≢ Directed.Moved }
{
    match how {
        Directed::Moved => true,
        Directed::Nothing | Directed::Ending => false,
    }
}
