//! What an update gives another machine.
ghost use Rattle.std.specs.Prelude.{◌≡◌, ◌≢◌, ℕ, ◌+◌, ◌<◌, length, IfOk, OnOk};
ghost use Rattle.graph_core.specs.DataGraph.{size};
ghost use Rattle.graph_core.specs.Halves.{halves_of};
ghost use Rattle.seq_run.specs.States.{GraphState, is_woken};
ghost use Rattle.cluster_laws.specs.cluster_core.Settings.{Setting};
ghost use Rattle.full_scope.specs.FullStates.{after_full, full_wakes};
ghost use Rattle.full_scope.specs.FullUpdates.{FullUpdate};
ghost use Rattle.full_laws.specs.FullEffects.{gift_for};
ghost use Rattle.full_cluster.specs.Given.{IsDividedAs, IsGift, IsWithin};
ghost use Rattle.full_cluster.specs.Owners.{owner_in};
ghost use Rattle.full_cluster.specs.Inner.Giving.{IsAdded};
ghost use Rattle.full_cluster.specs.Inner.Making.{IsMade};

use crate::Division;
use crate::kept::is_woken_along;
use crate::updates::MadeUpdate;
use gl_base::{EdgeNo, MachineNo, NoMemory, Vertex};
use graph_core::Half;
use std::alloc::Global;
use update_api::Woken;

/// What an update gives another machine: the numbers of that machine's vertices in the scope, those
/// of the edges to them, and which of them are woken.
#[derive(Drop)]
pub struct FullGift {
    pub numbers: Vec<(Vertex, u64)>,
    pub edges: Vec<(EdgeNo, u64)>,
    pub wakes: Vec<Vertex>,
}

impl MadeUpdate {
    /// What machine `to` is given of this update of v, which another machine made.
    pub fn give(
        &self,
        alloc: Global,
        division: &Division<'_>,
        v: Vertex,
        to: MachineNo,
    ) -> Result<FullGift, NoMemory>
        requires vertex { v.0 < size division.now.graph.now }
        requires other { owner_in division.now.owner.now v.0 ≢ to.0 }
        requires row { let many = length (halves_of division.now.graph.now v.0) in
            length self.now.row.items ≡ many + many }
        ensures given { (st : Setting) (p : FullUpdate) (lent : GraphState) →
            IsDividedAs st division.now → let after = after_full st.graph p lent v.0 in
            IsMade st.graph after v.0 self.now.centre self.now.row.items →
            ((u : ℕ) → full_wakes st.graph p lent v.0 u
            ≡ is_woken self.now.woken (halves_of st.graph v.0) u) →
            IfOk result (λ gift. IsGift st gift (gift_for st p lent v.0 to.0)) }
        ensures within { let g = division.now.graph.now in
            IfOk result (IsWithin (size g) (length g.edges)) }
    {
        let mut gift = FullGift {
            numbers: Vec::new(alloc),
            edges: Vec::new(alloc),
            wakes: Vec::new(alloc),
        };
        let halves = division.graph.halves(v);
        let count = halves.len();
        for (i, half) in halves.iter().enumerate() {
            if division.owner_of(half.other).0 == to.0 {
                let is_woken = is_woken_along(self.woken, half.out);
                add_half(&mut gift, half, self.row[i], self.row[count + i], is_woken)?;
            }
        }
        Ok(gift)
    }
}

/// Adds what is given to the other end of a half-edge: its number, that of the edge, and whether it
/// is woken.
fn add_half(
    gift: &mut FullGift,
    half: &Half,
    number: u64,
    mark: u64,
    is_woken: bool,
) -> Result<(), NoMemory>
    ensures { (s : GraphState) → number ≡ s.vertex half.now.other.0 →
        mark ≡ s.edge half.now.edge.0 →
        OnOk result (IsAdded s half.now is_woken gift.old gift.new) }
{
    gift.numbers.push((half.other, number))?;
    gift.edges.push((half.edge, mark))?;
    if is_woken {
        gift.wakes.push(half.other)?;
    }
    Ok(())
}
