//! What a user says of parts and links, the rule of the table that follows, and what each step
//! tells.
ghost use Rattle.std.specs.Prelude.{ℕ, List, [], Option, None, length};
ghost use Rattle.link_tables.specs.Seats.{view, gone, first_alone, second_alone, together};
ghost use Rattle.link_tables.specs.Rule.{HoldsTable};
ghost use Rattle.link_tables.specs.Steps.{looked, looked_at_link, looked_at_halt, took_by, gave_by, drew_by, changed_by, lifted};

use crate::padding::Padded;
use crate::views::View;
use atomic_table::{Join, Play, Split, TableRule};
use std::marker::{Brand, PhantomData};

/// What parts in seats and queues on links have to be.
pub trait LinkRule<P, Q, K> {
    /// The number of a part, which stays as the part changes.
    ghost number_of: { P → ℕ };

    /// Nothing is on the link.
    ghost empty: { Q → Type 0 };

    /// Parts, in the order of their numbers, links, the next ticket and how many are left: to these
    /// the steps so far have led.
    ghost led: { K → List P → List Q → ℕ → ℕ → Type 0 };

    /// What a seat with this part learns of a link that it takes.
    ghost learns: { P → ℕ → Q → Type 0 };

    /// The parts that the first seat has.
    ghost first: { K → List P };
}

/// Which part the first one of a seat becomes at its next step.
pub trait Becomes<P> {
    ghost part: { Option P };
}

impl<P> Becomes<P> for Brand {
    ghost part = { None };
}

/// What a table is told as it is made.
#[derive(Drop)]
pub struct Start<K> {
    pub many: usize,
    pub top: u64,
    pub about: K,
}

/// The rule of a table of links.
pub struct Law<K, R> {
    of: PhantomData<(K, R)>,
}

impl<P, Q, K, R: LinkRule<P, Q, K>> TableRule<Padded<Q>, View<P, Q>, Start<K>> for Law<K, R> {
    ghost holds = { λ k.
        HoldsTable R.number_of R.empty (R.led k.about) k.many k.top (length (R.first k.about)) };

    ghost first = { λ k. view (R.first k.about) None 0 [] };
}

pub(crate) struct Look;

impl<P, Q> Play<Padded<Q>, View<P, Q>> for Look {
    ghost then = { looked };
}

pub(crate) struct LookAtLink;

impl<P, Q> Play<Padded<Q>, View<P, Q>> for LookAtLink {
    ghost then = { looked_at_link };
}

pub(crate) struct LookAtHalt<K, R> {
    of: PhantomData<(K, R)>,
}

impl<P, Q, K, R: LinkRule<P, Q, K>> Play<Padded<Q>, View<P, Q>> for LookAtHalt<K, R> {
    ghost then = { looked_at_halt R.number_of R.empty R.led };
}

pub(crate) struct Lift;

impl<P, Q> Play<Padded<Q>, View<P, Q>> for Lift {
    ghost then = { lifted };
}

pub(crate) struct Take<K, R, B> {
    of: PhantomData<(K, R, B)>,
}

impl<P, Q, K, R: LinkRule<P, Q, K>, B: Becomes<P>> Play<Padded<Q>, View<P, Q>> for Take<K, R, B> {
    ghost then = { took_by R.learns B.part };
}

pub(crate) struct Give<B> {
    of: PhantomData<B>,
}

impl<P, Q, B: Becomes<P>> Play<Padded<Q>, View<P, Q>> for Give<B> {
    ghost then = { gave_by B.part };
}

pub(crate) struct Draw<B> {
    of: PhantomData<B>,
}

impl<P, Q, B: Becomes<P>> Play<Padded<Q>, View<P, Q>> for Draw<B> {
    ghost then = { drew_by B.part };
}

pub(crate) struct Settle<B> {
    of: PhantomData<B>,
}

impl<P, Q, B: Becomes<P>> Play<Padded<Q>, View<P, Q>> for Settle<B> {
    ghost then = { changed_by B.part };
}

pub(crate) struct Apart;

impl<P, Q> Split<View<P, Q>> for Apart {
    ghost left = { first_alone };

    ghost right = { second_alone };
}

pub(crate) struct Together;

impl<P, Q> Join<View<P, Q>> for Together {
    ghost both = { together };

    ghost spent = { gone };
}
