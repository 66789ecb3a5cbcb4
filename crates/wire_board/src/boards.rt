//! A board of links and tickets.
ghost use Rattle.std.specs.Prelude.{◌≡◌, ◌≢◌, ◌+◌, ◌*◌, ◌^◌, ◌<◌, ◌∷◌, ℕ, suc, true, false, List, [], length, None, IfOk};
ghost use Rattle.link_tables.specs.Rule.{AllHere, Ended};
ghost use Rattle.link_tables.specs.Seats.{Rests, first_alone, saw, second_alone, together, view, word_at};
ghost use Rattle.link_tables.specs.declared.words.LinkWord.TheVariants.{Bare, Out};
ghost use Rattle.cluster_step.specs.clusters.Clusters.{StandsForSaving};
ghost use Rattle.wire_board.specs.Halts.{FindsBoardHalt};
ghost use Rattle.wire_board.specs.Led.{HasBeenLed, IsBare, Learns, link_no, number_of};
ghost use Rattle.wire_board.specs.Openings.{AreOpening, first_parts, standing_parts};

use crate::standings::Seated;
use cluster_step::clusters::{Link, Parts, SavingMachine};
use gl_base::{FailureAt, NoMemory};
use link_tables::{LinkRule, LinkTable, LinkWord, Place};
use std::alloc::Global;
use std::marker::PhantomData;
use std::snapshot::Snapshot;

/// What a board is made of: how many machines there are, the failures that the job orders, how many
/// updates each machine had completed as the attempt began, and the parts of the cluster.
#[derive(Drop)]
pub struct About<M: SavingMachine> {
    pub machines: usize,
    pub failures: Snapshot<Vec<FailureAt>>,
    pub done: Snapshot<Vec<u64>>,
    pub opening: Snapshot<Parts<M>>,
}

/// The rule of a board: the parts in seats and the links are those of a cluster to which events of
/// the law have led.
pub struct BoardRule<M: SavingMachine> {
    of: PhantomData<M>,
}

impl<M: SavingMachine> LinkRule<Seated<M>, Link, About<M>> for BoardRule<M> {
    ghost number_of = { number_of };

    ghost empty = { IsBare };

    ghost led = { λ k. HasBeenLed M.represents k.failures.value.items k.done.value.items
        (standing_parts k.machines k.opening.value) k.machines };

    ghost learns = { Learns M.represents };

    ghost first = { λ k. first_parts k.machines k.opening.value };
}

/// The links of a cluster, and its tickets.
#[derive(Drop)]
pub struct Board<M: SavingMachine> {
    pub(crate) table: LinkTable<Seated<M>, Link, About<M>, BoardRule<M>>,
}

impl<M: SavingMachine> Board<M> {
    /// Makes a board of these links, and one place, which has the coordinator and all machines.
    /// `NoMemory` drops the links.
    pub fn new(
        alloc: Global,
        links: Vec<Link>,
        next: u64,
        left: u64,
        about: About<M>,
    ) -> Result<(Board<M>, Place<Seated<M>, Link>), NoMemory>
        requires opening { AreOpening about.machines about.opening.value links.items }
        requires stands { StandsForSaving M.represents about.opening.value }
        requires tickets { (about.opening.value.next ≡ next) × (about.opening.value.left ≡ left) }
        requires few { (next + left < 2 ^ 64) × (length links.items < 2 ^ 24) }
        ensures facts { IfOk result (λ t. (t.0.table.many ≡ length links.items) ×
            (t.0.table.table.shared.key.about ≡ about) × (t.0.table.top ≡ next + left)) }
        ensures place { IfOk result (λ t. (t.1.seat.table_id ≡ t.0.table.table.shared.table_id) ×
            (t.1.seat.me ≡ (
              view (first_parts about.machines about.opening.value) None 0 [],
              [],
            ))) }
    {
        let (table, place) = LinkTable::new(alloc, links, next, left, about)?;
        Ok((Board { table }, place))
    }

    /// Gives the place's second part a place of its own.
    pub fn split(&self, place: &mut Place<Seated<M>, Link>) -> Place<Seated<M>, Link>
        requires table { place.old.seat.table_id ≡ self.now.table.table.shared.table_id }
        requires rests { (p : Seated M) × (x : Seated M) × (others : List (Seated M)) ×
            Rests place.old.seat.me p (x ∷ others) }
        ensures tables { (place.new.seat.table_id ≡ place.old.seat.table_id) ×
            (result.seat.table_id ≡ place.old.seat.table_id) }
        ensures parts { (place.new.seat.me ≡ (first_alone place.old.seat.me.0, [])) ×
            (result.seat.me ≡ (second_alone place.old.seat.me.0, [])) }
    {
        self.table.split(place)
    }

    /// Puts the parts of another place behind those of this one.
    pub fn gather(&self, place: &mut Place<Seated<M>, Link>, other: Place<Seated<M>, Link>)
        requires tables { (place.old.seat.table_id ≡ self.now.table.table.shared.table_id) ×
            (other.seat.table_id ≡ self.now.table.table.shared.table_id) }
        requires rests { (other.seat.me.0.link ≡ None) × (other.seat.me.1 ≡ []) }
        ensures table { place.new.seat.table_id ≡ place.old.seat.table_id }
        ensures parts { place.new.seat.me ≡ (
          together place.old.seat.me.0 other.seat.me.0,
          place.old.seat.me.1,
        ) }
    {
        self.table.join(place, other);
    }

    /// Closes the board and returns its links and the next ticket. The place has all parts.
    pub fn close(self, place: Place<Seated<M>, Link>) -> (Vec<Link>, u64)
        requires table { place.seat.table_id ≡ self.table.table.shared.table_id }
        requires all { (place.seat.me.0.link ≡ None) ×
            AllHere number_of (length
            (first_parts self.table.table.shared.key.about.machines
            self.table.table.shared.key.about.opening.value)) place.seat.me.0.parts }
        ensures ended { (left : ℕ) × (result.1 + left ≡ self.table.top)
            × Ended number_of (HasBeenLed M.represents
            self.table.table.shared.key.about.failures.value.items
            self.table.table.shared.key.about.done.value.items
            (standing_parts self.table.table.shared.key.about.machines
            self.table.table.shared.key.about.opening.value)
            self.table.table.shared.key.about.machines) place.seat.me.0.parts
            result.0.items result.1 left }
        ensures count { length result.0.items ≡ self.table.many }
    {
        let Board { table } = self;
        table.close(place)
    }

    /// Says whether the halt is up. It is exactly where a seat has raised it.
    pub fn is_halted(&self, place: &mut Place<Seated<M>, Link>) -> bool
        requires table { place.old.seat.table_id ≡ self.now.table.table.shared.table_id }
        ensures table { place.new.seat.table_id ≡ place.old.seat.table_id }
        ensures found { (number : ℕ) ×
            (place.new.seat.me ≡ (
              saw place.old.seat.me.0 (word_at (self.now.table.many + 1)) number,
              place.old.seat.me.1,
            )) × (result ≡ true → number ≢ 0) × (result ≡ false → number ≡ 0) }
        ensures own { result ≡ false → place.old.seat.me.0.raised ≡ 0 }
        ensures exact { FindsBoardHalt M.represents self.now.table.many place.old.seat.me result }
    {
        self.table.is_halted(place)
    }

    /// Raises the halt, which stays up.
    pub fn raise(&self, place: &mut Place<Seated<M>, Link>)
        requires table { place.old.seat.table_id ≡ self.now.table.table.shared.table_id }
        ensures table { place.new.seat.table_id ≡ place.old.seat.table_id }
        ensures raised { place.new.seat.me ≡ (
          view place.old.seat.me.0.parts place.old.seat.me.0.link
              (suc place.old.seat.me.0.raised) place.old.seat.me.0.seen,
          place.old.seat.me.1,
        ) }
    {
        self.table.raise(place);
    }

    /// Which link leads from one peer to another.
    pub(crate) fn link(&self, from: usize, to: usize, peers: usize) -> usize
        requires { (from < peers) × (to < peers) ×
            (peers * peers ≡ self.now.table.many) × (peers < 2 ^ 16) }
        ensures number { result ≡ link_no peers from to }
        ensures low { result < self.now.table.many }
    {
        from * peers + to
    }
}

/// The word of a link that goes back.
pub(crate) fn word_of(queue: &Link) -> LinkWord
    ensures home { result ≢ Out }
    ensures none { result ≡ Bare → IsBare queue.now }
{
    if queue.is_empty() {
        LinkWord::Bare
    } else {
        LinkWord::Laden
    }
}
