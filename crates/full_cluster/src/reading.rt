//! What can be read of a cluster.
ghost use Rattle.std.specs.Prelude.{◌≡◌, ℕ, ◌<◌, ◌≤◌, true, Some, None, length, slice_index, IfSome};
ghost use Rattle.graph_core.specs.DataGraph.{size};
ghost use Rattle.cluster_laws.specs.cluster_core.Settings.{Setting};
ghost use Rattle.full_scope.specs.FullUpdates.{FullUpdate};
ghost use Rattle.full_laws.specs.FullParts.{FullPart};
ghost use Rattle.full_laws.specs.FullWorlds.{FullWorld};
ghost use Rattle.full_laws.specs.Items.{keeps, AnEdge, AVertex};
ghost use Rattle.full_cluster.specs.FullClusters.{IsClusterOf, IsFullSeat, IsLinkOf};
ghost use Rattle.full_cluster.specs.FullMachines.{IsMachineOf};
ghost use Rattle.full_cluster.specs.Given.{is_marked};

use crate::{FullCluster, FullMachine, FullQueues};
use gl_base::{EdgeNo, Entry, MachineNo, Vertex};

impl FullCluster {
    /// The machine with a number; `None` exactly where there are not so many.
    pub fn machine(&self, a: MachineNo) -> Option<&FullMachine>
        ensures some { (st : Setting) (p : FullUpdate) (w : FullWorld) →
            IsClusterOf st p w self.now → IfSome result (λ m. IsFullSeat st a.0 m.now (w.part a.0)) }
        ensures none { (st : Setting) (p : FullUpdate) (w : FullWorld) →
            IsClusterOf st p w self.now → result ≡ None → st.machines ≤ a.0 }
    {
        let place = a.0 as usize;
        if place >= self.machines.len() {
            return None;
        }
        Some(&self.machines[place])
    }

    /// The links from a machine to all; `None` exactly where there are not so many.
    pub fn links_from(&self, a: MachineNo) -> Option<&FullQueues>
        ensures some { (st : Setting) (p : FullUpdate) (w : FullWorld) →
            IsClusterOf st p w self.now →
            IfSome result (λ links. IsLinkOf st links.now (w.link a.0)) }
        ensures none { (st : Setting) (p : FullUpdate) (w : FullWorld) →
            IsClusterOf st p w self.now → result ≡ None → st.machines ≤ a.0 }
    {
        let place = a.0 as usize;
        if place >= self.links.len() {
            return None;
        }
        Some(&self.links[place])
    }

    /// How many more updates may be made.
    pub fn tickets_left(&self) -> u64
        ensures { (st : Setting) (p : FullUpdate) (w : FullWorld) →
            IsClusterOf st p w self.now → result ≡ w.left }
    {
        self.left
    }
}

impl FullMachine {
    /// The number of a vertex that the machine owns. For other vertices it means nothing.
    pub fn number(&self, x: Vertex) -> Option<u64>
        ensures { (st : Setting) (part : FullPart) → IsMachineOf st self.now part →
            x.0 < size st.graph → keeps st self.now.me.0 (AVertex x.0) ≡ true →
            result ≡ Some (part.number (AVertex x.0)) }
    {
        nth_number(&self.kept.numbers, x.0 as usize)
    }

    /// The number of an edge with an end that the machine owns. For other edges it means nothing.
    pub fn edge(&self, e: EdgeNo) -> Option<u64>
        ensures { (st : Setting) (part : FullPart) → IsMachineOf st self.now part →
            e.0 < length st.graph.edges → keeps st self.now.me.0 (AnEdge e.0) ≡ true →
            result ≡ Some (part.number (AnEdge e.0)) }
    {
        nth_number(&self.kept.edges, e.0 as usize)
    }

    /// Whether a vertex is a task of the machine.
    pub fn is_task(&self, u: Vertex) -> bool
        ensures { (st : Setting) (part : FullPart) → IsMachineOf st self.now part →
            u.0 < size st.graph → result ≡ part.task u.0 }
    {
        nth_mark(&self.kept.tasks, u.0 as usize)
    }

    /// The updates that were made here, the first first.
    pub fn log(&self) -> &[Entry]
        ensures { (st : Setting) (part : FullPart) → IsMachineOf st self.now part →
            result.now ≡ part.log }
    {
        &self.log
    }
}

/// The number at a place; `None` behind the end.
fn nth_number(numbers: &[u64], place: usize) -> Option<u64>
    ensures { place < length numbers.now → result ≡ Some (slice_index numbers.now place) }
{
    if place >= numbers.len() {
        return None;
    }
    Some(numbers[place])
}

/// Whether a place is marked; none behind the end is.
fn nth_mark(marks: &[bool], place: usize) -> bool
    ensures { result ≡ is_marked marks.now place }
{
    place < marks.len() && marks[place]
}
