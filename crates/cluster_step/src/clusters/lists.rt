//! Links as one list, and back.
ghost use Rattle.std.specs.Prelude.{◌≡◌, ◌+◌, ◌*◌, ◌<◌, ℕ, length, IfOk};
ghost use mathlib.Core.Option.{some};
ghost use lib.ListN.{get_elem?};
ghost use Rattle.cluster_step.specs.clusters.Inner.Writing.{HaveLinks};
ghost use Rattle.cluster_step.specs.clusters.Links.{link_between};

use crate::clusters::link::Link;
use crate::clusters::links::Links;
use crate::clusters::rows::{flat, in_rows};
use gl_base::NoMemory;
use std::alloc::Global;

impl Links {
    /// All links in one list, those from the first machine first.
    pub fn into_list(self, alloc: Global) -> Result<Vec<Link>, NoMemory>
        ensures many { IfOk result (λ list. (n : ℕ) → HaveLinks self n →
            length list.items ≡ n * n) }
        ensures each { IfOk result (λ list. (n i j : ℕ) → HaveLinks self n → i < n → j < n →
            get_elem? list.items (i * n + j) ≡ some (link_between self i j)) }
    {
        let Links { rows } = self;
        Ok(flat(alloc, rows)?)
    }

    /// The links of so many machines, from a list of all.
    pub fn of_list(alloc: Global, list: Vec<Link>, machines: usize) -> Result<Links, NoMemory>
        requires { length list.items ≡ machines * machines }
        ensures have { IfOk result (λ links. HaveLinks links machines) }
        ensures each { IfOk result (λ links. (i j : ℕ) → i < machines → j < machines →
            get_elem? list.items (i * machines + j) ≡ some (link_between links i j)) }
    {
        let rows = in_rows(alloc, list, machines, machines)?;
        Ok(Links { rows })
    }
}
