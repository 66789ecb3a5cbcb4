//! A course whose cluster is taken out for a while, and put back.
ghost use Rattle.std.specs.Prelude.{◌≡◌, ℕ, false, length, slice_index_or, IsTrue};
ghost use Rattle.cluster_step.specs.clusters.Clusters.{StandsForSaving};
ghost use Rattle.cluster_step.specs.trace.Later.{IsLaterInAttempt, apart_now, with_cluster};
ghost use Rattle.cluster_step.specs.trace.Traces.{IsSameAttempt};

use crate::clusters::{Parts, SavingMachine, SnapCluster};
use crate::trace::traces::Trace;
use gl_base::FailureAt;
use std::marker::Model;
use std::snapshot::Snapshot;

/// The course of a call whose cluster is out. Contracts see the course as it was when the cluster
/// went out.
#[derive(Drop)]
pub struct OpenTrace<M: SavingMachine> {
    failures: Vec<FailureAt>,
    done: Vec<u64>,
    start: Snapshot<SnapCluster<M>>,
    was: Snapshot<SnapCluster<M>>,
}

impl<M: SavingMachine> Model for OpenTrace<M> {
    ghost use Rattle.std.specs.Prelude.{◌≡◌, length};
    ghost use Rattle.cluster_step.specs.trace.Traces.{TraceView};

    ghost Value = { TraceView M };

    ghost view = { λ c. record {
      start = c.start.value;
      failures = c.failures.items;
      done = c.done.items;
      since = c.was.value;
      now = c.was.value;
    } };

    ghost invariant = { λ c. length c.done.items ≡ length c.was.value.machines.items };
}

impl<M: SavingMachine> Trace<M> {
    /// Takes the cluster out of the course, in its parts.
    pub fn apart(self) -> (OpenTrace<M>, Parts<M>)
        ensures trace { result.0 ≡ apart_now self }
        ensures parts { result.1 ≡ self.now }
        ensures stands { StandsForSaving M.represents result.1 }
    {
        let Trace {
            cluster,
            failures,
            done,
            start,
            since: _,
        } = self;
        let was = Snapshot::of(&cluster);
        let trace = OpenTrace {
            failures,
            done,
            start,
            was,
        };
        (trace, cluster.into_parts())
    }

    /// Whether no machine has failed in this attempt.
    pub fn are_all_awake(&self) -> bool
        ensures { IsTrue result →
            (a : ℕ) → slice_index_or self.now.now.failed.items a false ≡ false }
    {
        !self.cluster.parts.failed.iter().any(|failed| *failed)
    }
}

impl<M: SavingMachine> OpenTrace<M> {
    /// The failures that the job orders.
    pub fn failures(&self) -> &Vec<FailureAt>
        ensures { result.now.items ≡ self.now.failures }
    {
        &self.failures
    }

    /// How many updates each machine had completed as the attempt began.
    pub fn done(&self) -> &Vec<u64>
        ensures { result.now.items ≡ self.now.done }
    {
        &self.done
    }

    /// Puts the parts of a later cluster of the same attempt into the course, which remembers it.
    pub fn joined(self, parts: Parts<M>) -> Trace<M>
        requires stands { StandsForSaving M.represents parts }
        requires later { IsLaterInAttempt M.represents self (record self { now = parts }) }
        requires many { length parts.machines.items ≡ length self.now.machines.items }
        requires stopped { parts.stopped ≡ self.now.stopped }
        ensures trace { result ≡ with_cluster self parts }
        ensures same { IsSameAttempt (record self { since = parts }) result }
        ensures later { IsLaterInAttempt M.represents self result }
    {
        let OpenTrace {
            failures,
            done,
            start,
            was: _,
        } = self;
        let cluster = SnapCluster::of_parts(parts);
        let since = Snapshot::of(&cluster);
        Trace {
            cluster,
            failures,
            done,
            start,
            since,
        }
    }
}
