//! A machine's turn on a board.
ghost use Rattle.std.specs.Prelude.{◌≡◌, ◌≢◌, ◌⊎◌, ◌+◌, ◌-◌, ◌*◌, ◌^◌, ◌<◌, ◌≤◌, ℕ, suc, true, false, slice_index_or, None, IfNone, IfOk, IfSome, OnOk};
ghost use Rattle.link_tables.specs.Seats.{sight, word_at};
ghost use Rattle.wire_board.specs.Acts.{HasMoved, HasMovedIf, HasReachedBetween};
ghost use Rattle.wire_board.specs.Freeing.{HasReached, IsFree};
ghost use Rattle.wire_board.specs.Led.{link_no};
ghost use Rattle.wire_board.specs.Seats.{Sits};
ghost use Rattle.wire_board.specs.Sights.{FoundNothing, HasLooked, HasSeen, Sees};

use crate::boards::Board;
use crate::drawing::Drawn;
use crate::failing::is_free;
use crate::standings::{Member, Seated};
use crate::working::{admit_one, settle_all};
use cluster_step::clusters::{Link, SavingMachine};
use coordinator::machine_api::EagerMachine;
use gl_base::{FailureAt, MachineNo, NoMemory, ScopeId, Vertex};
use link_tables::Place;
use std::alloc::Global;

/// How many steps of work a machine makes in one turn.
const STEPS_IN_A_TURN: u32 = 64;

/// How a machine's work has gone.
#[derive(Clone, Copy, Debug, PartialEq, Eq)]
pub enum Worked {
    /// Something was done.
    Some,
    /// Nothing was done.
    Nothing,
    /// The machine has reached the count of a failure.
    Reached,
    /// No ticket is left.
    Spent,
}

/// How a step of work has gone.
#[derive(Clone, Copy, Debug, PartialEq, Eq)]
pub(crate) enum Work {
    /// An update was made, or a scope was admitted.
    Made,
    /// Another machine has drawn the ticket.
    Late,
    /// There is nothing to do.
    Nothing,
    /// No ticket is left.
    Spent,
}

impl<M: EagerMachine> Board<M> {
    /// A machine's turn: it looks at the link from each machine and hears what has come, works,
    /// tells what waits, and where it has reached the count of no failure it hears the coordinator.
    /// Says how its work has gone: `Some` comes only where it has made an event, `Nothing` only
    /// where it has made none, `Reached` only where it had reached a count, and `Spent` only where
    /// it has seen that no ticket is left. For want of memory nothing is said of the seat.
    pub fn turn(
        &self,
        alloc: Global,
        member: &mut Member<M>,
        place: &mut Place<Seated<M>, Link>,
        failures: &[FailureAt],
        before: u64,
    ) -> Result<Worked, NoMemory>
        requires table { place.old.seat.table_id ≡ self.now.table.table.shared.table_id }
        requires links { (member.old.peers * member.old.peers ≡ self.now.table.many) ×
            (member.old.peers < 2 ^ 16) }
        requires inside { suc member.old.number < member.old.peers }
        requires job { failures.now ≡ self.now.table.table.shared.key.about.failures.value.items }
        requires before { slice_index_or self.now.table.table.shared.key.about.done.value.items
            member.old.number 0 ≡ before }
        requires sits { Sits M.represents member.old place.old.seat.me }
        ensures table { place.new.seat.table_id ≡ place.old.seat.table_id }
        ensures sits { OnOk result (Sits M.represents member.new place.new.seat.me) }
        ensures same { (member.new.number ≡ member.old.number) ×
            (member.new.peers ≡ member.old.peers) }
        ensures looked { OnOk result ((from : ℕ) → suc from < member.old.peers →
            HasLooked place.old.seat.me place.new.seat.me
            (link_no member.old.peers from member.old.number)) }
        ensures spent { IfOk result (λ worked. worked ≡ Worked.Spent → (next : ℕ) ×
            (self.now.table.top ≤ next) × HasSeen place.old.seat.me place.new.seat.me
            (sight (word_at self.now.table.many) next None)) }
        ensures nothing { IfOk result (λ worked. worked ≡ Worked.Nothing → (from : ℕ) →
            suc from < member.old.peers → FoundNothing place.old.seat.me place.new.seat.me
            (link_no member.old.peers from member.old.number)) }
        ensures moved { IfOk result (λ worked.
            HasMoved M.represents self.now.table.many member.old.peers member.old.number
            member.old.machine place.old.seat.me member.new.machine place.new.seat.me
            (worked ≡ Worked.Some) (worked ≡ Worked.Nothing)) }
        ensures reached { IfOk result (λ worked. worked ≡ Worked.Reached →
            HasReachedBetween M.represents
            self.now.table.table.shared.key.about.failures.value.items
            self.now.table.table.shared.key.about.done.value.items
            self.now.table.many member.old.peers member.old.number
            member.old.machine place.old.seat.me member.new.machine place.new.seat.me) }
    {
        let heard = self.hear_each(alloc, member, place)?;
        let settled = self.settle(member, place)?;
        let worked = self.work_on(member, place, failures, before)?;
        let told = self.tell_each(alloc, member, place)?;
        let called = self.call_and_report(alloc, member, place, failures, before)?;
        let sent = either(told, called);
        Ok(behind(worked, heard, either(settled, sent)))
    }

    /// Hears what has come from the machines. Says whether anything has.
    fn hear_each(
        &self,
        alloc: Global,
        member: &mut Member<M>,
        place: &mut Place<Seated<M>, Link>,
    ) -> Result<bool, NoMemory>
        requires table { place.old.seat.table_id ≡ self.now.table.table.shared.table_id }
        requires links { (member.old.peers * member.old.peers ≡ self.now.table.many) ×
            (member.old.peers < 2 ^ 16) }
        requires inside { suc member.old.number < member.old.peers }
        requires sits { Sits M.represents member.old place.old.seat.me }
        ensures table { place.new.seat.table_id ≡ place.old.seat.table_id }
        ensures sits { OnOk result (Sits M.represents member.new place.new.seat.me) }
        ensures same { (member.new.number ≡ member.old.number) ×
            (member.new.peers ≡ member.old.peers) }
        ensures looked { OnOk result ((from : ℕ) → suc from < member.old.peers →
            HasLooked place.old.seat.me place.new.seat.me
            (link_no member.old.peers from member.old.number)) }
        ensures sees { OnOk result (Sees place.old.seat.me place.new.seat.me) }
        ensures nothing { IfOk result (λ moved. moved ≡ false → (from : ℕ) →
            suc from < member.old.peers → FoundNothing place.old.seat.me place.new.seat.me
            (link_no member.old.peers from member.old.number)) }
        ensures moved { IfOk result (λ some.
            HasMovedIf M.represents self.now.table.many member.old.peers member.old.number
            member.old.machine place.old.seat.me member.new.machine place.new.seat.me some) }
    {
        let mut moved = false;
        for from in 0..member.peers - 1 {
            let some = self.hear_some(alloc, member, place, MachineNo(from as u16))?;
            moved = either(moved, some);
        }
        Ok(moved)
    }

    /// Tells the machines what waits for them. Says whether anything is on a link.
    fn tell_each(
        &self,
        alloc: Global,
        member: &mut Member<M>,
        place: &mut Place<Seated<M>, Link>,
    ) -> Result<bool, NoMemory>
        requires table { place.old.seat.table_id ≡ self.now.table.table.shared.table_id }
        requires links { (member.old.peers * member.old.peers ≡ self.now.table.many) ×
            (member.old.peers < 2 ^ 16) }
        requires inside { suc member.old.number < member.old.peers }
        requires sits { Sits M.represents member.old place.old.seat.me }
        ensures table { place.new.seat.table_id ≡ place.old.seat.table_id }
        ensures sits { OnOk result (Sits M.represents member.new place.new.seat.me) }
        ensures same { (member.new.number ≡ member.old.number) ×
            (member.new.peers ≡ member.old.peers) }
        ensures sees { OnOk result (Sees place.old.seat.me place.new.seat.me) }
        ensures moved { IfOk result (λ some.
            HasMovedIf M.represents self.now.table.many member.old.peers member.old.number
            member.old.machine place.old.seat.me member.new.machine place.new.seat.me some) }
    {
        let mut moved = false;
        for to in 0..member.peers - 1 {
            let some = self.tell_some(alloc, member, place, MachineNo(to as u16))?;
            moved = either(moved, some);
        }
        Ok(moved)
    }

    /// Tells the coordinator a report, and hears a call of it where the machine has reached the
    /// count of no failure. Says whether there was either.
    fn call_and_report(
        &self,
        alloc: Global,
        member: &mut Member<M>,
        place: &mut Place<Seated<M>, Link>,
        failures: &[FailureAt],
        before: u64,
    ) -> Result<bool, NoMemory>
        requires table { place.old.seat.table_id ≡ self.now.table.table.shared.table_id }
        requires links { (member.old.peers * member.old.peers ≡ self.now.table.many) ×
            (member.old.peers < 2 ^ 16) }
        requires inside { suc member.old.number < member.old.peers }
        requires job { failures.now ≡ self.now.table.table.shared.key.about.failures.value.items }
        requires before { slice_index_or self.now.table.table.shared.key.about.done.value.items
            member.old.number 0 ≡ before }
        requires sits { Sits M.represents member.old place.old.seat.me }
        ensures table { place.new.seat.table_id ≡ place.old.seat.table_id }
        ensures sits { OnOk result (Sits M.represents member.new place.new.seat.me) }
        ensures same { (member.new.number ≡ member.old.number) ×
            (member.new.peers ≡ member.old.peers) }
        ensures sees { OnOk result (Sees place.old.seat.me place.new.seat.me) }
        ensures moved { IfOk result (λ some.
            HasMovedIf M.represents self.now.table.many member.old.peers member.old.number
            member.old.machine place.old.seat.me member.new.machine place.new.seat.me some) }
    {
        let told = self.tell_report_if(alloc, member, place)?;
        if !is_free(failures, member, before) {
            return Ok(told);
        }
        let heard = self.hear_call_if(alloc, member, place)?;
        Ok(either(told, heard))
    }

    /// Does all that may be done without a ticket and without a message. Says whether there was
    /// something.
    pub(crate) fn settle(
        &self,
        member: &mut Member<M>,
        place: &Place<Seated<M>, Link>,
    ) -> Result<bool, NoMemory>
        requires sits { Sits M.represents member.old place.now.seat.me }
        ensures sits { Sits M.represents member.new place.now.seat.me }
        ensures same { (member.new.number ≡ member.old.number) ×
            (member.new.peers ≡ member.old.peers) }
        ensures moved { IfOk result (λ some.
            HasMovedIf M.represents self.now.table.many member.old.peers member.old.number
            member.old.machine place.now.seat.me member.new.machine place.now.seat.me some) }
    {
        settle_all(&mut member.machine)
    }

    /// Works as long as there is something to do, and not longer than a turn is. Says how it has
    /// gone.
    fn work_on(
        &self,
        member: &mut Member<M>,
        place: &mut Place<Seated<M>, Link>,
        failures: &[FailureAt],
        before: u64,
    ) -> Result<Worked, NoMemory>
        requires table { place.old.seat.table_id ≡ self.now.table.table.shared.table_id }
        requires small { member.old.number < 2 ^ 16 }
        requires job { failures.now ≡ self.now.table.table.shared.key.about.failures.value.items }
        requires before { slice_index_or self.now.table.table.shared.key.about.done.value.items
            member.old.number 0 ≡ before }
        requires sits { Sits M.represents member.old place.old.seat.me }
        ensures table { place.new.seat.table_id ≡ place.old.seat.table_id }
        ensures sits { OnOk result (Sits M.represents member.new place.new.seat.me) }
        ensures same { (member.new.number ≡ member.old.number) ×
            (member.new.peers ≡ member.old.peers) }
        ensures sees { OnOk result (Sees place.old.seat.me place.new.seat.me) }
        ensures spent { IfOk result (λ worked. worked ≡ Worked.Spent → (next : ℕ) ×
            (self.now.table.top ≤ next) × HasSeen place.old.seat.me place.new.seat.me
            (sight (word_at self.now.table.many) next None)) }
        ensures moved { IfOk result (λ worked.
            HasMoved M.represents self.now.table.many member.old.peers member.old.number
            member.old.machine place.old.seat.me member.new.machine place.new.seat.me
            (worked ≡ Worked.Some) (worked ≡ Worked.Nothing)) }
        ensures reached { IfOk result (λ worked. worked ≡ Worked.Reached →
            HasReached M.represents self.now.table.table.shared.key.about.failures.value.items
            self.now.table.table.shared.key.about.done.value.items
            member.new.machine member.old.number) }
    {
        let mut made = false;
        for _ in 0..STEPS_IN_A_TURN {
            if !is_free(failures, member, before) {
                return Ok(Worked::Reached);
            }
            let work = self.work(member, place)?;
            match work {
                Work::Spent => return Ok(Worked::Spent),
                Work::Nothing => return Ok(worked_so(made)),
                Work::Made | Work::Late => (),
            }
            made = either(made, is_made(work));
        }
        Ok(worked_so(made))
    }

    /// Makes a ready update; or else updates a vertex at once; or else admits a scope, which goes
    /// as far as it may. The machine has reached the count of no failure.
    pub(crate) fn work(
        &self,
        member: &mut Member<M>,
        place: &mut Place<Seated<M>, Link>,
    ) -> Result<Work, NoMemory>
        requires table { place.old.seat.table_id ≡ self.now.table.table.shared.table_id }
        requires free { IsFree M.represents
            self.now.table.table.shared.key.about.failures.value.items
            self.now.table.table.shared.key.about.done.value.items
            member.old.machine member.old.number }
        requires sits { Sits M.represents member.old place.old.seat.me }
        ensures table { place.new.seat.table_id ≡ place.old.seat.table_id }
        ensures sits { OnOk result (Sits M.represents member.new place.new.seat.me) }
        ensures same { (member.new.number ≡ member.old.number) ×
            (member.new.peers ≡ member.old.peers) }
        ensures sees { OnOk result (Sees place.old.seat.me place.new.seat.me) }
        ensures spent { IfOk result (λ work. work ≡ Work.Spent → (next : ℕ) ×
            (self.now.table.top ≤ next) × HasSeen place.old.seat.me place.new.seat.me
            (sight (word_at self.now.table.many) next None)) }
        ensures moved { IfOk result (λ work.
            HasMoved M.represents self.now.table.many member.old.peers member.old.number
            member.old.machine place.old.seat.me member.new.machine place.new.seat.me
            (work ≡ Work.Made) (work ≢ Work.Made)) }
    {
        if let Some(scope) = member.machine.next_update() {
            let Some(ticket) = self.look_for_ticket(member, place) else {
                return Ok(Work::Spent);
            };
            let drawn = self.draw(member, place, scope, ticket)?;
            return Ok(work_of(drawn));
        }
        if let Some(v) = member.machine.next_at_once() {
            let Some(ticket) = self.look_for_ticket(member, place) else {
                return Ok(Work::Spent);
            };
            let drawn = self.draw_at_once(member, place, v, ticket)?;
            return Ok(work_of(drawn));
        }
        self.admit(member, place)
    }

    /// Admits a scope, which goes as far as it may.
    fn admit(
        &self,
        member: &mut Member<M>,
        place: &Place<Seated<M>, Link>,
    ) -> Result<Work, NoMemory>
        requires sits { Sits M.represents member.old place.now.seat.me }
        ensures sits { OnOk result (Sits M.represents member.new place.now.seat.me) }
        ensures same { (member.new.number ≡ member.old.number) ×
            (member.new.peers ≡ member.old.peers) }
        ensures unspent { IfOk result (λ work. work ≢ Work.Spent) }
        ensures moved { IfOk result (λ work.
            HasMoved M.represents self.now.table.many member.old.peers member.old.number
            member.old.machine place.now.seat.me member.new.machine place.now.seat.me
            (work ≡ Work.Made) (work ≢ Work.Made)) }
    {
        if !admit_one(&mut member.machine)? {
            return Ok(Work::Nothing);
        }
        let _settled = self.settle(member, place)?;
        Ok(Work::Made)
    }

    /// Reads the next ticket. The seat stands as before.
    fn look_for_ticket(&self, member: &Member<M>, place: &mut Place<Seated<M>, Link>) -> Option<u64>
        requires table { place.old.seat.table_id ≡ self.now.table.table.shared.table_id }
        requires sits { Sits M.represents member.now place.old.seat.me }
        ensures table { place.new.seat.table_id ≡ place.old.seat.table_id }
        ensures sits { Sits M.represents member.now place.new.seat.me }
        ensures ticket { IfSome result (λ ticket. ticket < self.now.table.top) }
        ensures sees { Sees place.old.seat.me place.new.seat.me }
        ensures spent { IfNone result ((next : ℕ) × (self.now.table.top ≤ next) ×
            HasSeen place.old.seat.me place.new.seat.me
            (sight (word_at self.now.table.many) next None)) }
    {
        self.next_ticket(place)
    }
}

/// Whether one of them is so.
pub(crate) fn either(one: bool, other: bool) -> bool
    ensures some { result ≡ true → (one ≡ true) ⊎ (other ≡ true) }
    ensures none { result ≡ false → (one ≡ false) × (other ≡ false) }
{
    one || other
}

/// How a step of work has gone, where it drew a ticket so.
fn work_of(drawn: Drawn) -> Work
    ensures made { result ≡ Work.Made → drawn ≡ Drawn.Made }
    ensures late { result ≢ Work.Made → drawn ≡ Drawn.Late }
    ensures unspent { result ≢ Work.Spent }
{
    match drawn {
        Drawn::Made => Work::Made,
        Drawn::Late => Work::Late,
    }
}

/// Whether the step made anything.
pub(crate) fn is_made(work: Work) -> bool
    ensures some { result ≡ true → work ≡ Work.Made }
    ensures none { result ≡ false → work ≢ Work.Made }
{
    match work {
        Work::Made => true,
        Work::Late | Work::Nothing | Work::Spent => false,
    }
}

/// How the work has gone, where something was made, or nothing.
fn worked_so(made: bool) -> Worked
    ensures some { result ≡ Worked.Some → made ≡ true }
    ensures nothing { result ≡ Worked.Nothing → made ≡ false }
    ensures other { (result ≢ Worked.Reached) × (result ≢ Worked.Spent) }
{
    if made { Worked::Some } else { Worked::Nothing }
}

/// How the turn has gone behind what was heard and what else was done: where there was something,
/// it isn't `Nothing`.
fn behind(worked: Worked, heard: bool, done: bool) -> Worked
    ensures some { result ≡ Worked.Some →
        (worked ≡ Worked.Some) ⊎ ((heard ≡ true) ⊎ (done ≡ true)) }
    ensures nothing { result ≡ Worked.Nothing → (worked ≡ Worked.Nothing) × (heard ≡ false) ×
        (done ≡ false) }
    ensures same { result ≢ Worked.Some → result ≡ worked }
{
    if worked == Worked::Nothing && either(heard, done) {
        Worked::Some
    } else {
        worked
    }
}
