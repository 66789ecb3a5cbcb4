//! What the machine does of snapshots.
ghost use Rattle.std.specs.Prelude.{◌≡◌, true, false, length, IfNone, IfOk, IfSome, OnOk, OnErr, IsErrOf};
ghost use Rattle.gl_base.specs.declared.scopes.ScopeId.{ScopeId};
ghost use Rattle.coordinator.specs.snap_update.Snaps.{IsSameButRoom, own_section, section_view, with_begun, with_committed, with_section};
ghost use Rattle.snapshot_machines.specs.chromatic.Machines.{IsInSameStep, part_of_steps};
ghost use Rattle.snapshot_machines.specs.chromatic.Snapshots.{CanHearNews, HasBegunInStep, HasEndedPlan, HasFewerOutside, HasHeardNews, HasMarkedInStep, HasOnlyMadeRoom, HasOtherPending, HasSavedMore, HasSavedOnce, MayMark, MayNotSendInStep, MaySendInStep};
ghost use Rattle.snapshot_machines.specs.chromatic.Inner.Keeping.{HasFirstInLine};
ghost use Rattle.snapshot_machines.specs.saving.Machines.{IsBetweenCalls};

use crate::chromatic::machines::ColorSnapMachine;
use crate::chromatic::updates::centre_of;
use gl_base::{Refused, ScopeId};
use machine_core::color_parts::{Which, enlist, enlist_all, enlist_at, enlist_near};
use task_sets::color_tasks::ColorLines;
use task_sets::task_sched::TaskSet;
use update_api::Program;
use wire::wire_msgs::{Done, Section};

impl<P: Program> ColorSnapMachine<P> {
    /// A snapshot of this number has begun, by the coordinator's word. It takes no memory.
    pub fn begin(&mut self, number: u32)
        ensures begun { HasBegunInStep self.old self.new number }
        ensures kept { IsSameButRoom (with_begun number self.old.kept) self.new.kept }
        ensures rest { HasOtherPending self.old.core self.new.core }
        ensures step { IsInSameStep self.old self.new }
    {
        self.machine.begin(number);
        enlist_first(&mut self.asked, &self.machine.core().numbers.tasks);
    }

    /// This snapshot is acknowledged: the updates of its section are outside no more. It takes no
    /// memory.
    pub fn committed(&mut self, number: u32)
        ensures kept { self.new.kept ≡ with_committed number self.old.kept }
        ensures fewer { HasFewerOutside self.old.core self.new.core }
        ensures part { part_of_steps self.new ≡ part_of_steps self.old }
        ensures step { IsInSameStep self.old self.new }
    {
        self.machine.committed(number);
    }

    /// Word of an update elsewhere has come, be it a snapshot update or not. Those whom it wakes,
    /// and those who become pending, stand in line by their colours. It takes no memory.
    pub fn learn(&mut self, done: Done)
        requires { CanHearNews self.old.core done }
        ensures learned { HasHeardNews self.old self.new done }
        ensures kept { IsSameButRoom (with_begun done.number self.old.kept) self.new.kept }
        ensures tasks { let now = self.new.core.numbers.tasks in
            now ≡ record self.old.core.numbers.tasks {
              task = now.task;
              pending = now.pending;
              asked = now.asked;
            } }
        ensures local { self.new.core.numbers.local ≡
            record self.old.core.numbers.local { numbers = self.new.core.numbers.local.numbers } }
        ensures step { IsInSameStep self.old self.new }
    {
        self.begin(done.number);
        let begun = self.machine.core();
        enlist_all(&mut self.lines, &begun.numbers, &done.wakes, Which::All);
        enlist_all(&mut self.asked, &begun.numbers, &done.pends, Which::All);
        self.machine.learn(done);
    }

    /// Makes the snapshot update of a scope that is in flight here, whose vertex is pending. Those
    /// who become pending stand in line by their colours, and so does the vertex where it is a
    /// task.
    pub fn mark(&mut self, scope: ScopeId) -> Result<(), Refused>
        ensures marked { OnOk result (HasMarkedInStep self.old self.new scope) }
        ensures saved { HasSavedMore self.old.kept self.new.kept }
        ensures once { OnOk result (HasSavedOnce self.old.core self.old.kept self.new.kept scope) }
        ensures plans { OnOk result (HasEndedPlan self.old.core self.new.core scope) }
        ensures not_now { IsErrOf result Refused.NotNow →
            MayMark scope (part_of_steps self.old) → ⊥ }
        ensures no_memory { IsErrOf result Refused.NoMemory →
            MayMark scope (part_of_steps self.old) }
        ensures unchanged { OnErr result (HasOnlyMadeRoom self.old.core self.new.core) }
        ensures part { OnErr result (part_of_steps self.new ≡ part_of_steps self.old) }
        ensures same { OnErr result (IsSameButRoom self.old.kept self.new.kept) }
        ensures local { self.new.core.numbers.local ≡
            record self.old.core.numbers.local { kept = self.new.core.numbers.local.kept } }
        ensures step { IsInSameStep self.old self.new }
    {
        let before = self.machine.core();
        let Some(centre) = centre_of(before, scope) else {
            return Err(Refused::NotNow);
        };
        match self.machine.mark(scope) {
            Ok(()) => {
                let after = self.machine.core();
                enlist(&mut self.lines, &after.numbers, centre, Which::Tasks);
                enlist_near(&mut self.asked, &after.numbers, centre, Which::Pending);
                enlist_first(&mut self.asked, &after.numbers.tasks);
                Ok(())
            }
            Err(refused) => Err(refused),
        }
    }

    /// Whether a scope may make its snapshot update now.
    pub fn can_mark(&self, scope: ScopeId) -> bool
        ensures yes { result ≡ true → MayMark scope (part_of_steps self.now) }
        ensures no { result ≡ false → MayMark scope (part_of_steps self.now) → ⊥ }
        ensures order { IsBetweenCalls self.now.core self.now.kept }
    {
        self.machine.can_mark(scope)
    }

    /// A scope of this home that may make its snapshot update now; `None` exactly where none may.
    pub fn next_mark(&self) -> Option<ScopeId>
        ensures some { IfSome result (λ s. MayMark s (part_of_steps self.now)) }
        ensures home { IfSome result (λ s. s.home ≡ self.now.core.numbers.local.me) }
        ensures none { IfNone result ((s : ScopeId) → MayMark s (part_of_steps self.now) → ⊥) }
    {
        self.machine.next_mark()
    }

    /// Whether the section may be sent now. It takes no memory, and nothing changes.
    pub fn has_section(&mut self) -> bool
        ensures yes { result ≡ true → MaySendInStep self.old }
        ensures no { result ≡ false → MayNotSendInStep self.old }
        ensures same { self.new ≡ self.old }
    {
        self.machine.has_section()
    }

    /// The section of the snapshot that is known, once, where each own vertex has its mark.
    pub fn section(&mut self) -> Result<Section, Refused>
        ensures may { OnOk result (MaySendInStep self.old) }
        ensures told { IfOk result (λ s. section_view s ≡ own_section self.old.kept) }
        ensures sent { OnOk result (IsSameButRoom (with_section self.old.kept) self.new.kept) }
        ensures not_now { IsErrOf result Refused.NotNow → MayNotSendInStep self.old }
        ensures no_memory { IsErrOf result Refused.NoMemory → MaySendInStep self.old }
        ensures unchanged { OnErr result (self.new ≡ self.old) }
        ensures rest { self.new ≡ record self.old { kept = self.new.kept } }
    {
        self.machine.section()
    }
}

/// The vertex that has been pending longest of those that are not admitted stands in line, where
/// there is one.
fn enlist_first(asked: &mut ColorLines, tasks: &TaskSet)
    requires { length asked.old.colours ≡ length tasks.now.task }
    ensures { HasFirstInLine tasks.now asked.old asked.new }
{
    if let Some(pick) = tasks.look() {
        enlist_at(asked, tasks, pick.vertex, Which::Pending);
    }
}
