//! A cluster that is taken apart, and one that is put together.
ghost use Rattle.std.specs.Prelude.{◌≡◌};
ghost use Rattle.cluster_step.specs.clusters.Clusters.{StandsForSaving};

use crate::clusters::clusters::SnapCluster;
use crate::clusters::parts::Parts;
use coordinator::machine_api::SavingMachine;

impl<M: SavingMachine> SnapCluster<M> {
    /// Takes the cluster apart. Its parts stand for a cluster of the law.
    pub fn into_parts(self) -> Parts<M>
        ensures parts { result ≡ self }
        ensures stands { StandsForSaving M.represents result }
    {
        let SnapCluster { parts } = self;
        parts
    }

    /// Puts a cluster together of parts that stand for a cluster of the law.
    pub fn of_parts(parts: Parts<M>) -> SnapCluster<M>
        requires { StandsForSaving M.represents parts }
        ensures { result ≡ parts }
    {
        SnapCluster { parts }
    }
}
