//! A table of links.
ghost use Rattle.std.specs.Prelude.{◌≡◌, ◌≢◌, ◌↔◌, ℕ, suc, ◌+◌, ◌*◌, ◌^◌, ◌<◌, ◌≤◌, List, [], ◌∷◌, ◌++◌, true, false, length, slice_index, Some, None, IfOk, vec_len, vec_capacity};
ghost use Rattle.atomic_table.specs.Table.{rest};
ghost use Rattle.link_tables.specs.Seats.{view, number_in, word_at, Rests, HoldsLink, with_first, saw, sight, first_alone, second_alone, together};
ghost use Rattle.link_tables.specs.Halts.{FindsHalt};
ghost use Rattle.link_tables.specs.Rule.{Carries, CarriesLink, CarriesTicket, Learnt, AreInOrder, AllHere, Ended};
ghost use Rattle.link_tables.specs.declared.words.LinkWord.TheVariants.{Bare, Out};

use crate::padding::Padded;
use crate::rules::{
    Apart, Becomes, Draw, Give, Law, Lift, LinkRule, Look, LookAtHalt, LookAtLink, Settle, Start,
    Take, Together,
};
use crate::views::View;
use crate::words::{LinkWord, word_place};
use atomic_table::{Refused, Seat, Table};
use gl_base::NoMemory;
use std::alloc::{AllocError, Global};

/// Links that threads take and give back, the next ticket, and a halt that any seat may raise.
#[derive(Drop)]
pub struct LinkTable<P, Q: Drop, K: Drop, R: LinkRule<P, Q, K>> {
    table: Table<Padded<Q>, View<P, Q>, Start<K>, Law<K, R>, Global>,
    many: usize,
    top: u64,
    // Room for all links, so that closing takes no memory.
    room: Vec<Q>,
    ghost empty_room: { (vec_len room ≡ 0) × (room.items ≡ []) × (many ≤ vec_capacity room) },
    ghost told: { (table.shared.key.many ≡ many) × (table.shared.key.top ≡ top) },
    ghost sized: { (table.shared.table_id.words ≡ word_at (many + 2)) ×
        (table.shared.table_id.slots ≡ many) × (many < 2 ^ 24) },
}

/// What a thread makes its steps with: a seat at a table.
#[derive(Drop)]
pub struct Place<P, Q: Drop> {
    seat: Seat<Padded<Q>, View<P, Q>>,
}

impl<P, Q: Drop, K: Drop, R: LinkRule<P, Q, K>> LinkTable<P, Q, K, R> {
    /// Makes a table of these links with this next ticket and so many left, and one place, which
    /// has all parts.
    /// `NoMemory` drops the links.
    pub fn new(
        alloc: Global,
        links: Vec<Q>,
        next: u64,
        left: u64,
        about: K,
    ) -> Result<(LinkTable<P, Q, K, R>, Place<P, Q>), NoMemory>
        requires few { (next + left < 2 ^ 64) × (length links.items < 2 ^ 24) }
        requires led { (front : List P) × (last : P) × (R.first about ≡ last ∷ front) ×
            AreInOrder R.number_of (front ++ last ∷ []) ×
            R.led about (front ++ last ∷ []) links.items next left }
        ensures facts { IfOk result (λ t. (t.0.many ≡ length links.items) ×
            (t.0.top ≡ next + left) × (t.0.table.shared.key.about ≡ about)) }
        ensures place { IfOk result (λ t. (t.1.seat.table_id ≡ t.0.table.shared.table_id) ×
            (t.1.seat.me ≡ (view (R.first about) None 0 [], []))) }
    {
        let many = links.len();
        let top = next + left;
        let room = Vec::with_capacity(alloc, many)?;
        let words = first_words(alloc, many, next)?;
        let slots = padded(alloc, links)?;
        let start = Start { many, top, about };
        let row = words.as_slice();
        let made = Table::new(alloc, row, slots, &start);
        let (table, seat) = match made {
            Ok(made) => made,
            Err(Refused { slots: _ }) => return Err(NoMemory),
        };
        let table = LinkTable {
            table,
            many,
            top,
            room,
        };
        Ok((table, Place { seat }))
    }

    /// Closes the table and returns its links and the next ticket. The place has all parts.
    pub fn close(self, place: Place<P, Q>) -> (Vec<Q>, u64)
        requires table { place.seat.table_id ≡ self.table.shared.table_id }
        requires all { (place.seat.me.0.link ≡ None) ×
            AllHere R.number_of (length (R.first self.table.shared.key.about))
            place.seat.me.0.parts }
        ensures ended { (left : ℕ) × (result.1 + left ≡ self.top) ×
            Ended R.number_of (R.led self.table.shared.key.about) place.seat.me.0.parts
            result.0.items result.1 left }
        ensures count { length result.0.items ≡ self.many }
    {
        let LinkTable {
            table,
            many,
            top: _,
            room,
        } = self;
        let Place { seat } = place;
        let mut closed = table.close_with(seat);
        let next = closed.word(word_place(many));
        let mut links = room;
        for link in 0..many {
            let slot = closed.take(link);
            links.push_reserved(slot.into_inner());
        }
        closed.free();
        (links, next)
    }

    /// Returns how many links there are.
    pub fn links(&self) -> usize
        ensures { result ≡ self.now.many }
    {
        self.many
    }

    /// Returns the first number that is no ticket any more.
    pub fn top(&self) -> u64
        ensures { result ≡ self.now.top }
    {
        self.top
    }

    /// Reads the word of a link.
    pub fn look(&self, place: &mut Place<P, Q>, link: usize) -> LinkWord
        requires table { place.old.seat.table_id ≡ self.now.table.shared.table_id }
        requires link { link < self.now.many }
        ensures table { place.new.seat.table_id ≡ place.old.seat.table_id }
        ensures found { place.new.seat.me ≡
            (saw place.old.seat.me.0 (word_at link) (number_in result), place.old.seat.me.1) }
    {
        let shared = &self.table.shared;
        LinkWord::of(shared.load::<LookAtLink>(&mut place.seat, word_place(link)))
    }

    /// Reads the next ticket.
    pub fn next_ticket(&self, place: &mut Place<P, Q>) -> u64
        requires table { place.old.seat.table_id ≡ self.now.table.shared.table_id }
        ensures table { place.new.seat.table_id ≡ place.old.seat.table_id }
        ensures found { place.new.seat.me ≡ (
          saw place.old.seat.me.0 (word_at self.now.many) result,
          place.old.seat.me.1,
        ) }
    {
        let word = word_place(self.many);
        self.table.shared.load::<Look>(&mut place.seat, word)
    }

    /// Says whether the halt is up. It is exactly where a seat has raised it.
    pub fn is_halted(&self, place: &mut Place<P, Q>) -> bool
        requires table { place.old.seat.table_id ≡ self.now.table.shared.table_id }
        ensures table { place.new.seat.table_id ≡ place.old.seat.table_id }
        ensures found { (number : ℕ) ×
            (place.new.seat.me ≡ (
              saw place.old.seat.me.0 (word_at (self.now.many + 1)) number,
              place.old.seat.me.1,
            )) × (result ≡ true → number ≢ 0) × (result ≡ false → number ≡ 0) }
        ensures own { result ≡ false → place.old.seat.me.0.raised ≡ 0 }
        ensures exact { FindsHalt R.number_of R.empty R.led self.now.many place.old.seat.me result }
    {
        let word = word_place(self.many + 1);
        self.table
            .shared
            .load::<LookAtHalt<K, R>>(&mut place.seat, word)
            != 0
    }

    /// Raises the halt, which stays up.
    pub fn raise(&self, place: &mut Place<P, Q>)
        requires table { place.old.seat.table_id ≡ self.now.table.shared.table_id }
        ensures table { place.new.seat.table_id ≡ place.old.seat.table_id }
        ensures raised { place.new.seat.me ≡ (
          view place.old.seat.me.0.parts place.old.seat.me.0.link
              (suc place.old.seat.me.0.raised) place.old.seat.me.0.seen,
          place.old.seat.me.1,
        ) }
    {
        let word = word_place(self.many + 1);
        self.table.shared.store::<Lift>(&mut place.seat, word, 1);
    }

    /// Takes a link whose word is still the expected one, and returns the word that it found. The
    /// place has the link where that is the expected one, and then its first part has become what
    /// is picked.
    pub fn take<B: Becomes<P>, T>(
        &self,
        place: &mut Place<P, Q>,
        link: usize,
        expected: LinkWord,
        _from: &T,
    ) -> LinkWord
        requires table { place.old.seat.table_id ≡ self.now.table.shared.table_id }
        requires link { (link < self.now.many) × (expected ≢ Out) }
        requires rests { (new : P) × (p : P) × (others : List P) × (B.part ≡ Some new) ×
            Rests place.old.seat.me p others × (R.number_of new ≡ R.number_of p)
            × Carries R.number_of (R.led self.now.table.shared.key.about) p new ×
            Learnt R.number_of (R.led self.now.table.shared.key.about) R.learns new link }
        ensures table { place.new.seat.table_id ≡ place.old.seat.table_id }
        ensures taken { result ≡ expected → (new : P) → B.part ≡ Some new → (q : Q)
            × (place.new.seat.me ≡ (
              view (with_first new place.old.seat.me.0.parts) (Some (
                link,
                q,
              )) place.old.seat.me.0.raised
                  (sight (word_at link) (number_in result) None ∷ place.old.seat.me.0.seen),
              (link, q) ∷ [],
            ))
            × R.learns new link q }
        ensures missed { result ≢ expected →
            place.new.seat.me ≡ (
              saw place.old.seat.me.0 (word_at link) (number_in result),
              place.old.seat.me.1,
            ) }
    {
        let old = expected.number();
        let out = LinkWord::Out.number();
        let shared = &self.table.shared;
        LinkWord::of(shared.compare_exchange::<Take<K, R, B>>(
            &mut place.seat,
            word_place(link),
            old,
            out,
        ))
    }

    /// Puts a queue into the link that the place has, and returns what was in it.
    pub fn exchange(&self, place: &mut Place<P, Q>, link: usize, new: Q) -> Q
        requires table { place.old.seat.table_id ≡ self.now.table.shared.table_id }
        requires holds { (r : Q) × (place.old.seat.me.1 ≡ (link, r) ∷ []) }
        ensures table { place.new.seat.table_id ≡ place.old.seat.table_id }
        ensures was { place.old.seat.me.1 ≡ (link, result) ∷ [] }
        ensures now { place.new.seat.me ≡ (place.old.seat.me.0, (link, new) ∷ []) }
    {
        let shared = &self.table.shared;
        shared
            .exchange(&mut place.seat, link, Padded::new(new))
            .into_inner()
    }

    /// Gives the link back with what is in it. The place's first part has become what is picked, and
    /// the place knows what was on the link as it was taken.
    pub fn give<B: Becomes<P>, T>(
        &self,
        place: &mut Place<P, Q>,
        link: usize,
        word: LinkWord,
        _from: &T,
    )
        requires table { place.old.seat.table_id ≡ self.now.table.shared.table_id }
        requires link { (link < self.now.many) × (word ≢ Out) }
        requires holds { (new : P) × (p : P) × (others : List P) × (q : Q) × (r : Q) ×
            (B.part ≡ Some new) × HoldsLink place.old.seat.me p others link q r
            × (word ≡ Bare → R.empty r) × (R.number_of new ≡ R.number_of p)
            × CarriesLink R.number_of (R.led self.now.table.shared.key.about) link p q new r }
        ensures table { place.new.seat.table_id ≡ place.old.seat.table_id }
        ensures given { (new : P) → B.part ≡ Some new →
            place.new.seat.me ≡ (
              view (with_first new place.old.seat.me.0.parts) None place.old.seat.me.0.raised
                  (sight (word_at link) (number_in word) place.old.seat.me.0.link ∷
                  place.old.seat.me.0.seen),
              [],
            ) }
    {
        let number = word.number();
        let shared = &self.table.shared;
        shared.store::<Give<B>>(&mut place.seat, word_place(link), number);
    }

    /// Draws this ticket where it is still the next one, and says whether it has. The place's first
    /// part has become what is picked then.
    pub fn draw<B: Becomes<P>, T, U>(
        &self,
        place: &mut Place<P, Q>,
        ticket: u64,
        _from: &T,
        _owed: &U,
    ) -> bool
        requires table { place.old.seat.table_id ≡ self.now.table.shared.table_id }
        requires ticket { ticket < self.now.top }
        requires rests { (new : P) × (p : P) × (others : List P) × (B.part ≡ Some new) ×
            Rests place.old.seat.me p others × (R.number_of new ≡ R.number_of p)
            × CarriesTicket R.number_of (R.led self.now.table.shared.key.about) ticket p new }
        ensures table { place.new.seat.table_id ≡ place.old.seat.table_id }
        ensures drawn { result ≡ true → (new : P) → B.part ≡ Some new
            → place.new.seat.me ≡ (
              view (with_first new place.old.seat.me.0.parts) None place.old.seat.me.0.raised
                  (sight (word_at self.now.many) ticket None ∷ place.old.seat.me.0.seen),
              [],
            ) }
        ensures late { result ≡ false → (number : ℕ) × (number ≢ ticket) ×
            (place.new.seat.me ≡ (saw place.old.seat.me.0 (word_at self.now.many) number, [])) }
    {
        let word = word_place(self.many);
        let shared = &self.table.shared;
        shared.compare_exchange::<Draw<B>>(&mut place.seat, word, ticket, ticket + 1) == ticket
    }

    /// Reads the next ticket. The place's first part has become what is picked.
    pub fn settle<B: Becomes<P>, T>(&self, place: &mut Place<P, Q>, _from: &T) -> u64
        requires table { place.old.seat.table_id ≡ self.now.table.shared.table_id }
        requires rests { (new : P) × (p : P) × (others : List P) × (B.part ≡ Some new) ×
            Rests place.old.seat.me p others × (R.number_of new ≡ R.number_of p)
            × Carries R.number_of (R.led self.now.table.shared.key.about) p new }
        ensures table { place.new.seat.table_id ≡ place.old.seat.table_id }
        ensures settled { (new : P) → B.part ≡ Some new
            → place.new.seat.me ≡ (
              view (with_first new place.old.seat.me.0.parts) None place.old.seat.me.0.raised
                  (sight (word_at self.now.many) result None ∷ place.old.seat.me.0.seen),
              [],
            ) }
    {
        let word = word_place(self.many);
        let shared = &self.table.shared;
        shared.load::<Settle<B>>(&mut place.seat, word)
    }

    /// Gives the place's second part a place of its own.
    pub fn split(&self, place: &mut Place<P, Q>) -> Place<P, Q>
        requires table { place.old.seat.table_id ≡ self.now.table.shared.table_id }
        requires rests { (p : P) × (x : P) × (others : List P) ×
            Rests place.old.seat.me p (x ∷ others) }
        ensures tables { (place.new.seat.table_id ≡ place.old.seat.table_id) ×
            (result.seat.table_id ≡ place.old.seat.table_id) }
        ensures parts { (place.new.seat.me ≡ (first_alone place.old.seat.me.0, [])) ×
            (result.seat.me ≡ (second_alone place.old.seat.me.0, [])) }
    {
        let shared = &self.table.shared;
        Place {
            seat: shared.split_seat::<Apart>(&mut place.seat),
        }
    }

    /// Puts the parts of another place behind those of this one.
    pub fn join(&self, place: &mut Place<P, Q>, other: Place<P, Q>)
        requires tables { (place.old.seat.table_id ≡ self.now.table.shared.table_id) ×
            (other.seat.table_id ≡ self.now.table.shared.table_id) }
        requires rests { (other.seat.me.0.link ≡ None) × (other.seat.me.1 ≡ []) }
        ensures table { place.new.seat.table_id ≡ place.old.seat.table_id }
        ensures parts { place.new.seat.me ≡ (
          together place.old.seat.me.0 other.seat.me.0,
          place.old.seat.me.1,
        ) }
    {
        let Place { seat } = other;
        let shared = &self.table.shared;
        shared.join_seat::<Together>(&mut place.seat, seat);
    }
}

/// The words as a table is made: no link is out, each may have something on it, and the halt is
/// down.
fn first_words(alloc: Global, many: usize, next: u64) -> Result<Vec<u64>, AllocError>
    requires { many < 2 ^ 24 }
    ensures long { IfOk result (λ v. length v.items ≡ word_at (many + 2)) }
    ensures links { IfOk result (λ v. (i : ℕ) → i < many → slice_index v.items (word_at i) ≡ 2) }
    ensures others { IfOk result (λ v. (slice_index v.items (word_at many) ≡ next) ×
        (slice_index v.items (word_at (many + 1)) ≡ 0)) }
{
    let count = word_place(many + 2);
    let mut words = Vec::from_elem(alloc, 0u64, count)?;
    lay_words(words.as_mut_slice(), many, next);
    Ok(words)
}

/// Writes the next ticket and the words of the links over zeros.
fn lay_words(words: &mut [u64], many: usize, next: u64)
    requires few { many < 2 ^ 24 }
    requires long { length words.old ≡ word_at (many + 2) }
    requires down { slice_index words.old (word_at (many + 1)) ≡ 0 }
    ensures long { length words.new ≡ word_at (many + 2) }
    ensures links { (i : ℕ) → i < many → slice_index words.new (word_at i) ≡ 2 }
    ensures others { (slice_index words.new (word_at many) ≡ next) ×
        (slice_index words.new (word_at (many + 1)) ≡ 0) }
{
    let laden = LinkWord::Laden.number();
    let tickets = word_place(many);
    words[tickets] = next;
    for link in 0..many {
        let place = word_place(link);
        words[place] = laden;
    }
}

/// The same links, each with a line of the cache of its own.
fn padded<Q: Drop>(alloc: Global, links: Vec<Q>) -> Result<Vec<Padded<Q>>, AllocError>
    ensures { IfOk result (λ v. v.items ≡ links.items) }
{
    let mut slots = Vec::with_capacity(alloc, links.len())?;
    for link in links {
        slots.push_reserved(Padded::new(link));
    }
    Ok(slots)
}
