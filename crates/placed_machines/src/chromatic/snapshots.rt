//! Snapshot updates and sections.
ghost use Rattle.std.specs.Prelude.{◌≡◌, ◌↔◌, true, false, IfNone, IfSome, IsTrue, OnOk, OnErr, IsErrOf};
ghost use Rattle.snapshot_machines.specs.chromatic.Machines.{IsOrderly, part_of};
ghost use Rattle.snapshot_machines.specs.chromatic.Snapshots.{MayMark};
ghost use Rattle.coordinator.specs.machine_api.Promises.{Mark, MayBeDone, OfEach, Section, CanDo, CanMarkNone, CanNotDo, HasDone, StandsStill};
ghost use Rattle.placed_machines.specs.chromatic.Machines.{IsChromaticMachineOf};

use crate::chromatic::machines::ChromaticMachine;
use gl_base::{Refused, ScopeId};
use update_api::Program;
use wire::wire_msgs::Message;

impl<P: Program> ChromaticMachine<P> {
    /// Makes the snapshot update of a ready scope of this home, whose vertex is pending; and where
    /// the step is done with it, a wave that is held is answered.
    pub(crate) fn mark_one(&mut self, scope: ScopeId) -> Result<(), Refused>
        ensures marked { OnOk result
            (HasDone (IsChromaticMachineOf P.meaning) self.old (Mark scope) self.new) }
        ensures not_now { IsErrOf result Refused.NotNow →
            CanNotDo (IsChromaticMachineOf P.meaning) self.old (Mark scope) }
        ensures no_memory { IsErrOf result Refused.NoMemory →
            CanDo (IsChromaticMachineOf P.meaning) self.old (Mark scope) }
        ensures unchanged { OnErr result
            (StandsStill (IsChromaticMachineOf P.meaning) self.old self.new) }
    {
        if !self.machine.can_mark(scope) {
            return Err(Refused::NotNow);
        }
        if self.prepare(1).is_err() {
            return Err(Refused::NoMemory);
        }
        match self.machine.mark(scope) {
            Ok(()) => {
                self.prompt();
                Ok(())
            }
            Err(refused) => Err(refused),
        }
    }

    /// A ready scope of this home whose snapshot update may be made now; `None` exactly where there
    /// is none.
    pub(crate) fn next_mark_here(&self) -> Option<ScopeId>
        ensures some { IfSome result (λ s.
            CanDo (IsChromaticMachineOf P.meaning) self.now (Mark s)) }
        ensures none { IfNone result (CanMarkNone (IsChromaticMachineOf P.meaning) self.now) }
    {
        self.machine.next_mark()
    }

    /// Puts out the section of the snapshot that the machine knows, all of whose vertices have the
    /// mark.
    pub(crate) fn put_section(&mut self) -> Result<(), Refused>
        ensures sent { OnOk result
            (HasDone (IsChromaticMachineOf P.meaning) self.old Section self.new) }
        ensures not_now { IsErrOf result Refused.NotNow →
            CanNotDo (IsChromaticMachineOf P.meaning) self.old Section }
        ensures no_memory { IsErrOf result Refused.NoMemory →
            CanDo (IsChromaticMachineOf P.meaning) self.old Section }
        ensures unchanged { OnErr result
            (StandsStill (IsChromaticMachineOf P.meaning) self.old self.new) }
    {
        if !self.machine.has_section() {
            return Err(Refused::NotNow);
        }
        if self.prepare(2).is_err() {
            return Err(Refused::NoMemory);
        }
        match self.machine.section() {
            Ok(section) => {
                self.reports.put(Message::Section(section));
                self.prompt();
                Ok(())
            }
            Err(refused) => Err(refused),
        }
    }

    /// Whether the section may be put out now.
    pub(crate) fn may_put_section(&mut self) -> bool
        ensures section { OfEach (IsChromaticMachineOf P.meaning) self.old (λ st a m.
            IsTrue result ↔
            MayBeDone st a m Section) }
        ensures unchanged { StandsStill (IsChromaticMachineOf P.meaning) self.old self.new }
    {
        self.machine.has_section()
    }
}
