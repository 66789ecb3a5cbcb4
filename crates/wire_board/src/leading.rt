//! What the coordinator's seat does.
ghost use Rattle.std.specs.Prelude.{◌≡◌, List, IsErrOf, OnErr, OnOk};
ghost use Rattle.coordinator.specs.coord_core.Calls.{HasBegunNext, HasPutStep, HasPutWave, MayLeadBegin, MayNotBegin, MayNotPutStep, MayNotPutWave, MayPutStep, MayPutWave, StaysCoordinator};
ghost use Rattle.wire_board.specs.Seats.{Leads};
ghost use Rattle.wire_board.specs.Sights.{Sees};

use crate::boards::Board;
use crate::standings::{Leading, Seated};
use cluster_step::clusters::{Link, SavingMachine};
use gl_base::Refused;
use link_tables::Place;
use std::marker::Brand;

impl<M: SavingMachine> Board<M> {
    /// Begins the next snapshot. `NotNow` comes exactly where none is due.
    pub fn begin(
        &self,
        lead: &mut Leading,
        place: &mut Place<Seated<M>, Link>,
    ) -> Result<(), Refused>
        requires table { place.old.seat.table_id ≡ self.now.table.table.shared.table_id }
        requires sits { (others : List (Seated M)) × Leads lead.old others place.old.seat.me }
        ensures table { place.new.seat.table_id ≡ place.old.seat.table_id }
        ensures sits { (others : List (Seated M)) → Leads lead.old others place.old.seat.me →
            Leads lead.new others place.new.seat.me }
        ensures number { lead.new.number ≡ lead.old.number }
        ensures begun { OnOk result (MayLeadBegin lead.old.coordinator ×
            HasBegunNext lead.old.coordinator lead.new.coordinator) }
        ensures not_now { IsErrOf result Refused.NotNow → MayNotBegin lead.old.coordinator }
        ensures no_memory { IsErrOf result Refused.NoMemory → MayLeadBegin lead.old.coordinator }
        ensures unchanged { OnErr result
            (StaysCoordinator lead.old.coordinator lead.new.coordinator) }
        ensures sees { Sees place.old.seat.me place.new.seat.me }
    {
        lead.coordinator.begin()?;
        self.table.settle::<Brand, Leading>(place, lead);
        Ok(())
    }

    /// Puts the next step out. `NotNow` comes exactly where none is due.
    pub fn step(
        &self,
        lead: &mut Leading,
        place: &mut Place<Seated<M>, Link>,
    ) -> Result<(), Refused>
        requires table { place.old.seat.table_id ≡ self.now.table.table.shared.table_id }
        requires sits { (others : List (Seated M)) × Leads lead.old others place.old.seat.me }
        ensures table { place.new.seat.table_id ≡ place.old.seat.table_id }
        ensures sits { (others : List (Seated M)) → Leads lead.old others place.old.seat.me →
            Leads lead.new others place.new.seat.me }
        ensures number { lead.new.number ≡ lead.old.number }
        ensures put_out { OnOk result (MayPutStep lead.old.coordinator ×
            HasPutStep lead.old.coordinator lead.new.coordinator) }
        ensures not_now { IsErrOf result Refused.NotNow → MayNotPutStep lead.old.coordinator }
        ensures no_memory { IsErrOf result Refused.NoMemory → MayPutStep lead.old.coordinator }
        ensures unchanged { OnErr result
            (StaysCoordinator lead.old.coordinator lead.new.coordinator) }
        ensures sees { Sees place.old.seat.me place.new.seat.me }
    {
        lead.coordinator.step()?;
        self.table.settle::<Brand, Leading>(place, lead);
        Ok(())
    }

    /// Puts the next wave out. `NotNow` comes exactly where none is due.
    pub fn wave(
        &self,
        lead: &mut Leading,
        place: &mut Place<Seated<M>, Link>,
    ) -> Result<(), Refused>
        requires table { place.old.seat.table_id ≡ self.now.table.table.shared.table_id }
        requires sits { (others : List (Seated M)) × Leads lead.old others place.old.seat.me }
        ensures table { place.new.seat.table_id ≡ place.old.seat.table_id }
        ensures sits { (others : List (Seated M)) → Leads lead.old others place.old.seat.me →
            Leads lead.new others place.new.seat.me }
        ensures number { lead.new.number ≡ lead.old.number }
        ensures put_out { OnOk result (MayPutWave lead.old.coordinator ×
            HasPutWave lead.old.coordinator lead.new.coordinator) }
        ensures not_now { IsErrOf result Refused.NotNow → MayNotPutWave lead.old.coordinator }
        ensures no_memory { IsErrOf result Refused.NoMemory → MayPutWave lead.old.coordinator }
        ensures unchanged { OnErr result
            (StaysCoordinator lead.old.coordinator lead.new.coordinator) }
        ensures sees { Sees place.old.seat.me place.new.seat.me }
    {
        lead.coordinator.wave()?;
        self.table.settle::<Brand, Leading>(place, lead);
        Ok(())
    }
}
