//! The numbers of edges.
ghost use Rattle.std.specs.Prelude.{◌≡◌, ℕ, ◌<◌, ◌≤◌, true, [], length, replicate, slice_index, slice_set, vec_capacity, IfOk};
ghost use Rattle.std.specs.List.{All};
ghost use Rattle.local_graph.specs.Inner.Blank.{AreBlank};
ghost use Rattle.local_graph.specs.Locals.{numbers_along, written};

use crate::Side;
use gl_base::{EdgeNo, NoMemory};
use std::alloc::Global;
use std::marker::Model;

/// The numbers of edges, by the number of the edge. While it is known that each is 0 the list has
/// none, and none is looked at where they are lent and come back as they were. It has room for all,
/// so that the first mark takes no memory. Contracts see the numbers.
#[derive(Drop)]
pub struct EdgeNumbers {
    numbers: Vec<u64>,
    count: usize,
    blank: bool,
}

impl Model for EdgeNumbers {
    ghost use Rattle.std.specs.Prelude.{ℕ, List};
    ghost use Rattle.local_graph.specs.Inner.Blank.{AreNumbersKept, kept_numbers};

    ghost Value = { List ℕ };

    ghost view = { λ n. kept_numbers n.blank n.count n.numbers.items };

    ghost invariant = { λ n. AreNumbersKept n.blank n.count n.numbers.items n.numbers.cap };
}

impl EdgeNumbers {
    /// So many edges with the number 0.
    pub fn blank(alloc: Global, count: usize) -> Result<EdgeNumbers, NoMemory>
        ensures { IfOk result (λ numbers. numbers ≡ replicate count 0) }
    {
        Ok(EdgeNumbers {
            numbers: Vec::with_capacity(alloc, count)?,
            count,
            blank: true,
        })
    }

    /// How many edges there are.
    pub fn count(&self) -> usize
        ensures { result ≡ length self.now }
    {
        self.count
    }

    /// The number of an edge.
    pub fn get(&self, edge: EdgeNo) -> u64
        requires { edge.0 < length self.now }
        ensures { result ≡ slice_index self.now edge.0 }
    {
        if self.blank {
            0
        } else {
            self.numbers[edge.0 as usize]
        }
    }

    /// Writes the number of an edge.
    pub fn set(&mut self, edge: EdgeNo, number: u64)
        requires { edge.0 < length self.old }
        ensures { self.new ≡ slice_set self.old edge.0 number }
    {
        if self.blank {
            if number == 0 {
                return;
            }
            add_zeros(&mut self.numbers, self.count);
            self.blank = false;
        }
        self.numbers[edge.0 as usize] = number;
    }

    /// The numbers of the edges of these sides, in a list that has room for them.
    #[inline]
    pub fn lend(&self, spare: Vec<u64>, sides: &[Side]) -> Vec<u64>
        requires room { length sides.now ≤ vec_capacity spare }
        requires edges { All (λ s. s.edge.0 < length self.now) sides.now }
        ensures { result.items ≡ numbers_along (slice_index self.now) sides.now }
    {
        if self.blank {
            fill_blank(spare, sides)
        } else {
            fill_numbers(spare, sides, &self.numbers)
        }
    }

    /// Writes the numbers of the edges of these sides.
    #[inline]
    pub fn keep(&mut self, sides: &[Side], new: &[u64])
        requires many { length new.now ≡ length sides.now }
        requires edges { All (λ s. s.edge.0 < length self.old) sides.now }
        ensures written { (e : ℕ) →
            slice_index self.new e ≡ written sides.now new.now (slice_index self.old) e }
        ensures many { length self.new ≡ length self.old }
    {
        if self.blank {
            if are_blank(new) {
                return;
            }
            add_zeros(&mut self.numbers, self.count);
            self.blank = false;
        }
        write_numbers(&mut self.numbers, sides, new);
    }
}

/// So many zeros, in a list that has none and room for them.
fn add_zeros(numbers: &mut Vec<u64>, count: usize)
    requires none { numbers.old.items ≡ [] }
    requires room { count ≤ vec_capacity numbers.old }
    ensures { numbers.new.items ≡ replicate count 0 }
{
    for _place in 0..count {
        numbers.push_reserved(0);
    }
}

/// Whether each of these numbers is 0.
fn are_blank(numbers: &[u64]) -> bool
    ensures { result ≡ true → AreBlank numbers.now }
{
    for place in 0..numbers.len() {
        if numbers[place] != 0 {
            return false;
        }
    }
    true
}

/// A 0 for each of these sides, in a list that has room for them.
fn fill_blank(spare: Vec<u64>, sides: &[Side]) -> Vec<u64>
    requires { length sides.now ≤ vec_capacity spare }
    ensures { result.items ≡ numbers_along (slice_index []) sides.now }
{
    let mut filled = spare;
    filled.clear();
    for _side in sides {
        filled.push_reserved(0);
    }
    filled
}

/// The numbers of the edges of these sides, in a list that has room for them.
fn fill_numbers(spare: Vec<u64>, sides: &[Side], numbers: &[u64]) -> Vec<u64>
    requires room { length sides.now ≤ vec_capacity spare }
    requires edges { All (λ s. s.edge.0 < length numbers.now) sides.now }
    ensures { result.items ≡ numbers_along (slice_index numbers.now) sides.now }
{
    let mut filled = spare;
    filled.clear();
    for side in sides {
        filled.push_reserved(numbers[side.edge.0 as usize]);
    }
    filled
}

/// Writes the numbers of the edges of these sides.
fn write_numbers(numbers: &mut [u64], sides: &[Side], new: &[u64])
    requires many { length new.now ≡ length sides.now }
    requires edges { All (λ s. s.edge.0 < length numbers.old) sides.now }
    ensures { (e : ℕ) → slice_index numbers.new e ≡ written sides.now new.now
        (slice_index numbers.old) e }
{
    for place in (0..sides.len()).rev() {
        numbers[sides[place].edge.0 as usize] = new[place];
    }
}
