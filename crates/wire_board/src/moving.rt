//! Steps of a machine's seat which say whether they have moved anything.
ghost use Rattle.std.specs.Prelude.{◌≡◌, ◌≢◌, ◌-◌, ◌*◌, ◌^◌, ◌<◌, ℕ, suc, true, false, IfOk};
ghost use Rattle.wire_board.specs.Acts.{HasMovedIf};
ghost use Rattle.wire_board.specs.Freeing.{IsFree};
ghost use Rattle.wire_board.specs.Led.{link_no};
ghost use Rattle.wire_board.specs.Seats.{Sits};
ghost use Rattle.wire_board.specs.Sights.{FoundNothing, HasLooked, Sees};

use crate::boards::Board;
use crate::passing::{Heard, Told};
use crate::standings::{Member, Seated};
use cluster_step::clusters::{Link, SavingMachine};
use gl_base::{MachineNo, NoMemory};
use link_tables::Place;
use std::alloc::Global;

impl<M: SavingMachine> Board<M> {
    /// Hears what another machine has put on the link to this one. Says whether anything has come.
    pub(crate) fn hear_some(
        &self,
        alloc: Global,
        member: &mut Member<M>,
        place: &mut Place<Seated<M>, Link>,
        from: MachineNo,
    ) -> Result<bool, NoMemory>
        requires table { place.old.seat.table_id ≡ self.now.table.table.shared.table_id }
        requires links { (member.old.peers * member.old.peers ≡ self.now.table.many) ×
            (member.old.peers < 2 ^ 16) }
        requires from { (suc from.0 < member.old.peers) ×
            (suc member.old.number < member.old.peers) }
        requires sits { Sits M.represents member.old place.old.seat.me }
        ensures table { place.new.seat.table_id ≡ place.old.seat.table_id }
        ensures sits { Sits M.represents member.new place.new.seat.me }
        ensures same { (member.new.number ≡ member.old.number) ×
            (member.new.peers ≡ member.old.peers) }
        ensures looked { HasLooked place.old.seat.me place.new.seat.me
            (link_no member.old.peers from.0 member.old.number) }
        ensures nothing { IfOk result (λ some. some ≡ false →
            FoundNothing place.old.seat.me place.new.seat.me
            (link_no member.old.peers from.0 member.old.number)) }
        ensures moved { IfOk result (λ some.
            HasMovedIf M.represents self.now.table.many member.old.peers member.old.number
            member.old.machine place.old.seat.me member.new.machine place.new.seat.me some) }
    {
        let how = self.hear(alloc, member, place, from)?;
        Ok(has_come(how))
    }

    /// Tells another machine what waits for it. Says whether that is on the link.
    pub(crate) fn tell_some(
        &self,
        alloc: Global,
        member: &mut Member<M>,
        place: &mut Place<Seated<M>, Link>,
        to: MachineNo,
    ) -> Result<bool, NoMemory>
        requires table { place.old.seat.table_id ≡ self.now.table.table.shared.table_id }
        requires links { (member.old.peers * member.old.peers ≡ self.now.table.many) ×
            (member.old.peers < 2 ^ 16) }
        requires to { (suc to.0 < member.old.peers) × (suc member.old.number < member.old.peers) }
        requires sits { Sits M.represents member.old place.old.seat.me }
        ensures table { place.new.seat.table_id ≡ place.old.seat.table_id }
        ensures sits { Sits M.represents member.new place.new.seat.me }
        ensures same { (member.new.number ≡ member.old.number) ×
            (member.new.peers ≡ member.old.peers) }
        ensures sees { Sees place.old.seat.me place.new.seat.me }
        ensures moved { IfOk result (λ some.
            HasMovedIf M.represents self.now.table.many member.old.peers member.old.number
            member.old.machine place.old.seat.me member.new.machine place.new.seat.me some) }
    {
        let how = self.tell(alloc, member, place, to)?;
        Ok(has_gone(how))
    }

    /// Hears a call of the coordinator. Says whether one has come. The machine has reached the
    /// count of no failure.
    pub(crate) fn hear_call_if(
        &self,
        alloc: Global,
        member: &mut Member<M>,
        place: &mut Place<Seated<M>, Link>,
    ) -> Result<bool, NoMemory>
        requires table { place.old.seat.table_id ≡ self.now.table.table.shared.table_id }
        requires links { (member.old.peers * member.old.peers ≡ self.now.table.many) ×
            (member.old.peers < 2 ^ 16) }
        requires inside { suc member.old.number < member.old.peers }
        requires free { IsFree M.represents
            self.now.table.table.shared.key.about.failures.value.items
            self.now.table.table.shared.key.about.done.value.items
            member.old.machine member.old.number }
        requires sits { Sits M.represents member.old place.old.seat.me }
        ensures table { place.new.seat.table_id ≡ place.old.seat.table_id }
        ensures sits { Sits M.represents member.new place.new.seat.me }
        ensures same { (member.new.number ≡ member.old.number) ×
            (member.new.peers ≡ member.old.peers) }
        ensures sees { Sees place.old.seat.me place.new.seat.me }
        ensures moved { IfOk result (λ some.
            HasMovedIf M.represents self.now.table.many member.old.peers member.old.number
            member.old.machine place.old.seat.me member.new.machine place.new.seat.me some) }
    {
        let how = self.hear_call(alloc, member, place)?;
        Ok(has_come(how))
    }

    /// Tells the coordinator a report. Says whether one is on the link.
    pub(crate) fn tell_report_if(
        &self,
        alloc: Global,
        member: &mut Member<M>,
        place: &mut Place<Seated<M>, Link>,
    ) -> Result<bool, NoMemory>
        requires table { place.old.seat.table_id ≡ self.now.table.table.shared.table_id }
        requires links { (member.old.peers * member.old.peers ≡ self.now.table.many) ×
            (member.old.peers < 2 ^ 16) }
        requires inside { suc member.old.number < member.old.peers }
        requires sits { Sits M.represents member.old place.old.seat.me }
        ensures table { place.new.seat.table_id ≡ place.old.seat.table_id }
        ensures sits { Sits M.represents member.new place.new.seat.me }
        ensures same { (member.new.number ≡ member.old.number) ×
            (member.new.peers ≡ member.old.peers) }
        ensures sees { Sees place.old.seat.me place.new.seat.me }
        ensures moved { IfOk result (λ some.
            HasMovedIf M.represents self.now.table.many member.old.peers member.old.number
            member.old.machine place.old.seat.me member.new.machine place.new.seat.me some) }
    {
        let how = self.tell_report(alloc, member, place)?;
        Ok(has_gone(how))
    }
}

/// Whether something was heard.
pub(crate) fn has_come(how: Heard) -> bool
    ensures some { result ≡ true → how ≡ Heard.Applied }
    ensures none { result ≡ false → how ≢ Heard.Applied }
{
    match how {
        Heard::Applied => true,
        Heard::Empty | Heard::Busy => false,
    }
}

/// Whether something was told.
pub(crate) fn has_gone(how: Told) -> bool
    ensures some { result ≡ true → how ≡ Told.Moved }
    ensures none { result ≡ false → how ≢ Told.Moved }
{
    match how {
        Told::Moved => true,
        Told::Nothing | Told::Busy => false,
    }
}
