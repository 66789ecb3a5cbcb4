//! What the machine does of snapshots.
ghost use Rattle.std.specs.Prelude.{◌≡◌, true, false, length, IfNone, IfOk, IfSome, OnOk, OnErr, IsErrOf};
ghost use Rattle.gl_base.specs.declared.scopes.ScopeId.{ScopeId};
ghost use Rattle.snapshot_machines.specs.marking.Hearing.{HasBegun, HasFewerOutside};
ghost use Rattle.snapshot_machines.specs.marking.Learning.{CanLearnNews, HasLearnedNews};
ghost use Rattle.snapshot_machines.specs.marking.Marking.{HasEndedPlan, HasMarked, HasOnlyMadeRoom, HasSavedMore, HasSavedOnce, MayMark};
ghost use Rattle.snapshot_machines.specs.marking.Seeding.{HasOtherPending};
ghost use Rattle.snapshot_machines.specs.marking.Sending.{MayNotSendSection, MaySendSection};
ghost use Rattle.coordinator.specs.snap_update.Snaps.{IsSameButRoom, own_section, section_view, with_begun, with_committed, with_section};
ghost use Rattle.snapshot_machines.specs.saving.Machines.{IsBetweenCalls, IsOrderly, SameSettings, part_of};

use crate::saving::machines::SnapMachine;
use gl_base::{Refused, ScopeId};
use update_api::Program;
use wire::wire_msgs::{Done, Section};

impl<P: Program> SnapMachine<P> {
    /// A snapshot of this number has begun, by the coordinator's word. It takes no memory.
    pub fn begin(&mut self, number: u32)
        ensures begun { HasBegun self.old.core self.old.kept self.new.core self.new.kept number }
        ensures kept { IsSameButRoom (with_begun number self.old.kept) self.new.kept }
        ensures rest { HasOtherPending self.old.core self.new.core }
        ensures program { self.new.program ≡ self.old.program }
        ensures terms { self.new.core.terms ≡ self.old.core.terms }
        ensures settings { SameSettings self.old.core self.new.core }
        ensures order { IsBetweenCalls self.old.core self.old.kept }
    {
        crate::marking::begin(&mut self.core, &mut self.snaps, &mut self.seen, number);
    }

    /// This snapshot is acknowledged: the updates of its section are outside no more. It takes no
    /// memory.
    pub fn committed(&mut self, number: u32)
        ensures kept { self.new.kept ≡ with_committed number self.old.kept }
        ensures fewer { HasFewerOutside self.old.core self.new.core }
        ensures part { part_of self.new.core ≡ part_of self.old.core }
        ensures program { self.new.program ≡ self.old.program }
        ensures terms { self.new.core.terms ≡ self.old.core.terms }
        ensures settings { SameSettings self.old.core self.new.core }
    {
        crate::marking::committed(&mut self.core, &mut self.snaps, number);
    }

    /// Word of an update elsewhere has come, be it a snapshot update or not. It takes no memory.
    pub fn learn(&mut self, done: Done)
        requires { IsOrderly self.old.core → CanLearnNews self.old.core done }
        ensures learned { HasLearnedNews self.old.core self.old.kept
            self.new.core self.new.kept done }
        ensures kept { IsSameButRoom (with_begun done.number self.old.kept) self.new.kept }
        ensures tasks { let now = self.new.core.numbers.tasks in
            now ≡ record self.old.core.numbers.tasks {
              task = now.task;
              pending = now.pending;
              asked = now.asked;
            } }
        ensures local { self.new.core.numbers.local ≡
            record self.old.core.numbers.local { numbers = self.new.core.numbers.local.numbers } }
        ensures program { self.new.program ≡ self.old.program }
        ensures places { self.new.core.by_place ≡ self.old.core.by_place }
        ensures terms { self.new.core.terms ≡ self.old.core.terms }
        ensures settings { SameSettings self.old.core self.new.core }
        ensures many { let old = self.old.core.numbers.tasks in
            length self.new.core.numbers.tasks.task ≡ length old.task }
        ensures order { IsBetweenCalls self.old.core self.old.kept }
    {
        crate::marking::learn(
            self.alloc,
            &mut self.core,
            &mut self.snaps,
            &mut self.seen,
            done,
        );
    }

    /// Makes the snapshot update of a ready scope of this machine whose vertex is pending.
    pub fn mark(&mut self, scope: ScopeId) -> Result<(), Refused>
        ensures marked { OnOk result
            (HasMarked self.old.core self.old.kept self.new.core self.new.kept scope) }
        ensures saved { HasSavedMore self.old.kept self.new.kept }
        ensures once { OnOk result (HasSavedOnce self.old.core self.old.kept self.new.kept scope) }
        ensures plans { OnOk result (HasEndedPlan self.old.core self.new.core scope) }
        ensures not_now { IsErrOf result Refused.NotNow →
            MayMark scope (part_of self.old.core) → ⊥ }
        ensures no_memory { IsErrOf result Refused.NoMemory →
            MayMark scope (part_of self.old.core) }
        ensures unchanged { OnErr result (HasOnlyMadeRoom self.old.core self.new.core) }
        ensures part { OnErr result (part_of self.new.core ≡ part_of self.old.core) }
        ensures same { OnErr result (IsSameButRoom self.old.kept self.new.kept) }
        ensures local { self.new.core.numbers.local ≡
            record self.old.core.numbers.local { kept = self.new.core.numbers.local.kept } }
        ensures program { self.new.program ≡ self.old.program }
        ensures places { self.new.core.by_place ≡ self.old.core.by_place }
        ensures terms { self.new.core.terms ≡ self.old.core.terms }
        ensures settings { SameSettings self.old.core self.new.core }
        ensures order { IsBetweenCalls self.old.core self.old.kept }
    {
        crate::marking::mark(
            self.alloc,
            &mut self.core,
            &mut self.snaps,
            &mut self.seen,
            scope,
        )
    }

    /// Whether a scope may make its snapshot update now.
    pub fn can_mark(&self, scope: ScopeId) -> bool
        ensures yes { result ≡ true → MayMark scope (part_of self.now.core) }
        ensures no { result ≡ false → MayMark scope (part_of self.now.core) → ⊥ }
        ensures order { IsBetweenCalls self.now.core self.now.kept }
    {
        crate::marking::may_mark(&self.core, scope)
    }

    /// A scope of this home that may make its snapshot update now; `None` exactly where none may.
    /// It looks at the ready scopes alone.
    pub fn next_mark(&self) -> Option<ScopeId>
        ensures some { IfSome result (λ s. MayMark s (part_of self.now.core)) }
        ensures home { IfSome result (λ s. s.home ≡ self.now.core.numbers.local.me) }
        ensures none { IfNone result ((s : ScopeId) → MayMark s (part_of self.now.core) → ⊥) }
    {
        crate::marking::next_mark(&self.core)
    }

    /// Whether the section may be sent now. It takes no memory, and nothing changes.
    pub fn has_section(&mut self) -> bool
        ensures yes { result ≡ true → MaySendSection self.old.core self.old.kept }
        ensures no { result ≡ false → MayNotSendSection self.old.core self.old.kept }
        ensures same { self.new ≡ self.old }
    {
        crate::marking::is_section_due(&self.core, &self.snaps, &mut self.seen)
    }

    /// The section of the snapshot that is known, once, where each own vertex has its mark.
    pub fn section(&mut self) -> Result<Section, Refused>
        ensures may { OnOk result (MaySendSection self.old.core self.old.kept) }
        ensures told { IfOk result (λ s. section_view s ≡ own_section self.old.kept) }
        ensures sent { OnOk result (IsSameButRoom (with_section self.old.kept) self.new.kept) }
        ensures not_now { IsErrOf result Refused.NotNow →
            MayNotSendSection self.old.core self.old.kept }
        ensures no_memory { IsErrOf result Refused.NoMemory →
            MaySendSection self.old.core self.old.kept }
        ensures unchanged { OnErr result (self.new.kept ≡ self.old.kept) }
        ensures core { self.new.core ≡ self.old.core }
        ensures program { self.new.program ≡ self.old.program }
    {
        crate::marking::section(self.alloc, &self.core, &mut self.snaps, &mut self.seen)
    }
}
