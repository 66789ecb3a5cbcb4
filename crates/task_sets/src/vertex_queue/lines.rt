//! Vertices in line.
ghost use Rattle.std.specs.Prelude.{◌≡◌, ℕ, ◌<◌, ◌==◌, ◌++◌, None, [], ◌∷◌, true, false, length, drop, slice_get, slice_set, IfOk, IfSome, IsPermutation};
ghost use Rattle.std.specs.List.{list_any};
ghost use Rattle.task_sets.specs.vertex_queue.Flags.{is_flagged};
ghost use Rattle.task_sets.specs.vertex_queue.Lines.{LineView, without};

use gl_base::{NoMemory, Vertex};
use std::alloc::Global;
use std::collections::VecDeque;
use std::marker::Model;

/// Vertices in line, each once, in the order in which they came as long as none leaves out of turn.
/// It has room for all of them, so that no later call takes memory.
#[derive(Drop)]
pub struct VertexLine {
    among: Vec<bool>,
    line: VecDeque<Vertex>,
    /// The turn of each vertex that stands in line. Turns are numbered in the order of the line,
    /// and the numbers wrap.
    turns: Vec<u32>,
    /// The turn of the first in line.
    first_turn: u32,
}

impl Model for VertexLine {
    ghost use Rattle.task_sets.specs.vertex_queue.Lines.{LineView};
    ghost use Rattle.task_sets.specs.vertex_queue.Inner.Queues.{IsLine};

    ghost Value = { LineView };

    ghost view = { λ l. record { among = l.among.items; line = l.line.items } };

    ghost invariant = { λ l.
        IsLine l.among.items l.line.items l.line.cap l.turns.items l.first_turn };
}

impl VertexLine {
    /// A line for the vertices below `count`, in which none stands.
    pub fn new(alloc: Global, count: u32) -> Result<VertexLine, NoMemory>
        ensures count { IfOk result (λ l. length l.among ≡ count) }
        ensures none { IfOk result (λ l. (u : ℕ) → is_flagged l.among u ≡ false) }
        ensures line { IfOk result (λ l. l.line ≡ []) }
    {
        let count = count as usize;
        Ok(VertexLine {
            among: Vec::from_elem(alloc, false, count)?,
            line: VecDeque::with_capacity(alloc, count)?,
            turns: Vec::from_elem(alloc, 0, count)?,
            first_turn: 0,
        })
    }

    /// The first in line, and `None` where nobody stands there.
    pub fn first(&self) -> Option<Vertex>
        ensures first { result ≡ slice_get self.now.line 0 }
        ensures among { IfSome result (λ v. is_flagged self.now.among v.0 ≡ true) }
        ensures none { result ≡ None → (u : ℕ) → is_flagged self.now.among u ≡ false }
        ensures each { (u : ℕ) →
            list_any (λ v. v.0 == u) self.now.line ≡ is_flagged self.now.among u }
    {
        self.line.front().copied()
    }

    /// The vertex comes, and stands behind the others.
    pub fn push(&mut self, vertex: Vertex)
        requires within { vertex.0 < length self.old.among }
        requires away { is_flagged self.old.among vertex.0 ≡ false }
        ensures { self.new ≡ record {
          among = slice_set self.old.among vertex.0 true;
          line = self.old.line ++ vertex ∷ [];
        } }
    {
        let place = vertex.0 as usize;
        self.among[place] = true;
        self.turns[place] = self.first_turn.wrapping_add(self.line.len() as u32);
        self.line.push_back_reserved(vertex);
    }

    /// The first in line leaves.
    pub fn pop(&mut self) -> Option<Vertex>
        ensures first { result ≡ slice_get self.old.line 0 }
        ensures rest { self.new ≡ without self.old result }
    {
        let first = self.line.pop_front()?;
        self.among[first.0 as usize] = false;
        self.first_turn = self.first_turn.wrapping_add(1);
        Some(first)
    }

    /// The vertex, which stands in line, leaves it, whether its turn has come or not. In which
    /// order the others stand then is told nowhere.
    pub fn remove(&mut self, vertex: Vertex)
        requires { is_flagged self.old.among vertex.0 ≡ true }
        ensures among { self.new.among ≡ slice_set self.old.among vertex.0 false }
        ensures others { IsPermutation self.old.line (vertex ∷ self.new.line) }
    {
        let place = vertex.0 as usize;
        let turn = self.turns[place];
        let index = turn.wrapping_sub(self.first_turn) as usize;
        self.line.swap_remove_back(index);
        if let Some(moved) = self.line.get(index) {
            self.turns[moved.0 as usize] = turn;
        }
        self.among[place] = false;
    }

    /// All leave.
    pub fn clear(&mut self)
        ensures count { length self.new.among ≡ length self.old.among }
        ensures none { (u : ℕ) → is_flagged self.new.among u ≡ false }
        ensures line { self.new.line ≡ [] }
    {
        'line: while self.first().is_some() {
            self.pop();
        }
    }
}
