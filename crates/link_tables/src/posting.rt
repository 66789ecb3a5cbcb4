//! Two nodes on threads of their own exchange many messages, each over the link to the other.
ghost use Rattle.std.specs.Prelude.{◌≡◌, ℕ, ◌+◌, ◌*◌, ◌<◌, ◌≤◌, [], ◌∷◌, length, ⊤, IfSome, IfOk};
ghost use mathlib.Core.Option.{some};
ghost use lib.ListN.{get_elem?};
ghost use Rattle.link_tables.specs.Seats.{Rests};

use super::*;
use gl_base::NoMemory;
use std::alloc::Global;
use std::marker::Brand;
use std::sync::Wait;
use std::test::Fail;
use std::thread;
use std::thread::Threads;

/// How many messages each node sends to the other, and how many go onto a link at once.
const MESSAGES: u64 = 100_000;

const AT_ONCE: u64 = 250;

/// A node is its number.
type Poster = u64;

/// Whatever is on a link may be there.
struct Post;

impl LinkRule<Poster, Vec<u64>, ()> for Post {
    ghost number_of = { λ node. node };

    ghost empty = { λ queue. ⊤ };

    ghost led = { λ about nodes links next left. ⊤ };

    ghost learns = { λ node link queue. ⊤ };

    ghost first = { λ about. 1 ∷ 0 ∷ [] };
}

type PostTable = LinkTable<Poster, Vec<u64>, (), Post>;

type PostPlace = Place<Poster, Vec<u64>>;

/// Puts the numbers from one up to another behind what is on the link, where no one has it, and
/// says whether it did.
fn put(
    alloc: Global,
    table: &PostTable,
    place: &mut PostPlace,
    node: &Poster,
    link: usize,
    numbers: (u64, u64),
) -> Result<bool, NoMemory>
    requires table { (place.old.seat.table_id ≡ table.now.table.shared.table_id) ×
        (link < table.now.many) }
    requires rests { Rests place.old.seat.me node.now [] }
    ensures table { place.new.seat.table_id ≡ place.old.seat.table_id }
    ensures rests { Rests place.new.seat.me node.now [] }
{
    let word = table.look(place, link);
    if word == LinkWord::Out {
        return Ok(false);
    }
    if table.take::<Brand, Poster>(place, link, word, node) != word {
        return Ok(false);
    }
    let mut queue = table.exchange(place, link, Vec::new(alloc));
    let filled = fill(&mut queue, numbers);
    table.exchange(place, link, queue);
    table.give::<Brand, Poster>(place, link, LinkWord::Laden, node);
    filled?;
    Ok(true)
}

/// Pushes the numbers from one up to another.
fn fill(queue: &mut Vec<u64>, numbers: (u64, u64)) -> Result<(), NoMemory> {
    for number in numbers.0..numbers.1 {
        queue.push(number)?;
    }
    Ok(())
}

/// Takes all that is on the link, if anything may be.
fn collect(
    alloc: Global,
    table: &PostTable,
    place: &mut PostPlace,
    node: &Poster,
    link: usize,
) -> Option<Vec<u64>>
    requires table { (place.old.seat.table_id ≡ table.now.table.shared.table_id) ×
        (link < table.now.many) }
    requires rests { Rests place.old.seat.me node.now [] }
    ensures table { place.new.seat.table_id ≡ place.old.seat.table_id }
    ensures rests { Rests place.new.seat.me node.now [] }
{
    let word = table.take::<Brand, Poster>(place, link, LinkWord::Laden, node);
    if word != LinkWord::Laden {
        return None;
    }
    let queue = table.exchange(place, link, Vec::new(alloc));
    table.give::<Brand, Poster>(place, link, LinkWord::Bare, node);
    Some(queue)
}

/// The number behind those that follow this one, where they stand in order.
fn behind(queue: &[u64], first: u64) -> Option<u64> {
    let mut next = first;
    for number in queue {
        if *number != next {
            return None;
        }
        next = next.wrapping_add(1);
    }
    Some(next)
}

/// Sends all messages over one link while it receives those of the other, and returns how many of
/// them have come in order, up to the first that has not.
fn exchange<R: Wait>(
    rt: &R,
    alloc: Global,
    table: &PostTable,
    place: PostPlace,
    node: Poster,
    links: (usize, usize),
) -> (PostPlace, Result<u64, NoMemory>)
    requires table { (place.seat.table_id ≡ table.now.table.shared.table_id) ×
        (links.0 < table.now.many) × (links.1 < table.now.many) }
    requires rests { Rests place.seat.me node [] }
    ensures table { result.0.seat.table_id ≡ table.now.table.shared.table_id }
    ensures rests { Rests result.0.seat.me node [] }
{
    let mut place = place;
    let mut sent = 0u64;
    let mut come = 0u64;
    for _ in rt.forever() {
        if sent < MESSAGES {
            let more = MESSAGES.min(sent.saturating_add(AT_ONCE));
            match put(alloc, table, &mut place, &node, links.0, (sent, more)) {
                Ok(true) => sent = more,
                Ok(false) => (),
                Err(NoMemory) => return (place, Err(NoMemory)),
            }
        }
        if let Some(queue) = collect(alloc, table, &mut place, &node, links.1) {
            match behind(queue.as_slice(), come) {
                Some(next) => come = next,
                None => return (place, Ok(come)),
            }
        }
        if sent == MESSAGES && come == MESSAGES {
            return (place, Ok(come));
        }
        thread::yield_now();
    }
    unreachable!()
}

/// Runs both nodes, each on a thread of its own, and puts their places together.
fn run<R: Threads + Wait + Sync>(
    rt: &R,
    alloc: Global,
    table: &PostTable,
    one: PostPlace,
    other: PostPlace,
) -> (PostPlace, Result<u64, NoMemory>, Result<u64, NoMemory>)
    requires table { (one.seat.table_id ≡ table.now.table.shared.table_id)
        × (other.seat.table_id ≡ table.now.table.shared.table_id) × (1 < table.now.many) }
    requires rests { Rests one.seat.me 1 [] × Rests other.seat.me 0 [] }
    ensures table { result.0.seat.table_id ≡ table.now.table.shared.table_id }
    ensures rests { Rests result.0.seat.me 1 (0 ∷ []) }
{
    let ((place, first), (theirs, second)) = thread::join(
        rt,
        move ||
            requires { (one.seat.table_id ≡ table.now.table.shared.table_id) × (1 < table.now.many)
                × Rests one.seat.me 1 [] }
            ensures { (result.0.seat.table_id ≡ table.entry.now.table.shared.table_id)
                × Rests result.0.seat.me 1 [] }
        { exchange(rt, alloc, table, one, 1, (0, 1)) },
        move ||
            requires { (other.seat.table_id ≡ table.now.table.shared.table_id) ×
                (1 < table.now.many) × Rests other.seat.me 0 [] }
            ensures { (result.0.seat.table_id ≡ table.entry.now.table.shared.table_id)
                × Rests result.0.seat.me 0 [] }
        { exchange(rt, alloc, table, other, 0, (1, 0)) },
    );
    let mut place = place;
    table.join(&mut place, theirs);
    (place, first, second)
}

/// Makes a table with a link from each node to the other, and a place with both nodes.
fn opened(alloc: Global) -> Result<(PostTable, PostPlace), NoMemory>
    ensures table { IfOk result (λ t. (t.1.seat.table_id ≡ t.0.table.shared.table_id) ×
        (t.0.many ≡ 2)) }
    ensures rests { IfOk result (λ t. Rests t.1.seat.me 1 (0 ∷ [])) }
{
    let mut links = Vec::with_capacity(alloc, 2)?;
    links.push_reserved(Vec::new(alloc));
    links.push_reserved(Vec::new(alloc));
    LinkTable::new(alloc, links, 0, 0, ())
}

#[test]
fn exchanges_messages(rt: HostRuntime) -> Result<(), Fail> {
    let alloc = rt.alloc();
    let (table, place) = opened(alloc)?;
    let mut place = place;
    let theirs = table.split(&mut place);
    let (place, first, second) = run(&rt, alloc, &table, place, theirs);
    assert_eq!(rt; first?, MESSAGES);
    assert_eq!(rt; second?, MESSAGES);
    let (links, next) = table.close(place);
    assert_eq!(rt; links.len(), 2);
    assert_eq!(rt; next, 0);
    Ok(())
}
