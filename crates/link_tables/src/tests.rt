//! Two nodes on threads of their own: one sends a message over a link, and the other receives it.
ghost use Rattle.std.specs.Prelude.{◌≡◌, ℕ, ◌+◌, ◌*◌, ◌<◌, [], ◌∷◌, length, Option, Some, None, IfSome, IfOk};
ghost use mathlib.Core.Option.{some};
ghost use lib.ListN.{get_elem?};
ghost use Rattle.link_tables.specs.Seats.{Rests};

use super::*;
use gl_base::NoMemory;
use std::alloc::Global;
use std::marker::Brand;
use std::sync::Wait;
use std::test::Fail;
use std::thread;
use std::thread::Threads;

/// A node, and the ticket that it drew last.
#[derive(Drop)]
struct Node {
    number: u64,
    ticket: Option<u64>,
}

/// Each message is below 100.
struct Mail;

impl LinkRule<Node, Option<u64>, ()> for Mail {
    ghost number_of = { λ node. node.number };

    ghost empty = { λ mail. mail ≡ None };

    ghost led = { λ about nodes links next left. (i : ℕ) (mail : Option ℕ)
        → get_elem? links i ≡ some mail → IfSome mail (λ message. message < 100) };

    ghost learns = { λ node link mail. IfSome mail (λ message. message < 100) };

    ghost first = { λ about. record {
      number = 1;
      ticket = None;
    } ∷ record { number = 0; ticket = None } ∷ [] };
}

type MailTable = LinkTable<Node, Option<u64>, (), Mail>;

type MailPlace = Place<Node, Option<u64>>;

/// Puts a message on the link.
fn send<R: Wait>(rt: &R, table: &MailTable, place: &mut MailPlace, node: &Node, message: u64)
    requires table { (place.old.seat.table_id ≡ table.now.table.shared.table_id) ×
        (0 < table.now.many) }
    requires rests { Rests place.old.seat.me node.now [] }
    requires few { message < 100 }
    ensures table { place.new.seat.table_id ≡ place.old.seat.table_id }
    ensures rests { Rests place.new.seat.me node.now [] }
{
    for _ in rt.forever() {
        let word = table.look(place, 0);
        if word != LinkWord::Out && table.take::<Brand, Node>(place, 0, word, node) == word {
            table.exchange(place, 0, Some(message));
            table.give::<Brand, Node>(place, 0, LinkWord::Laden, node);
            return;
        }
    }
    unreachable!()
}

/// Takes a message off the link.
fn receive<R: Wait>(rt: &R, table: &MailTable, place: &mut MailPlace, node: &Node) -> u64
    requires table { (place.old.seat.table_id ≡ table.now.table.shared.table_id) ×
        (0 < table.now.many) }
    requires rests { Rests place.old.seat.me node.now [] }
    ensures table { place.new.seat.table_id ≡ place.old.seat.table_id }
    ensures rests { Rests place.new.seat.me node.now [] }
    ensures few { result < 100 }
{
    for _ in rt.forever() {
        let word = table.take::<Brand, Node>(place, 0, LinkWord::Laden, node);
        if word == LinkWord::Laden {
            let mail = table.exchange(place, 0, None);
            table.give::<Brand, Node>(place, 0, LinkWord::Bare, node);
            if let Some(message) = mail {
                return message;
            }
        }
    }
    unreachable!()
}

/// Draws a ticket, if any is left.
fn draw<R: Wait>(rt: &R, table: &MailTable, place: &mut MailPlace, node: Node) -> Node
    requires table { place.old.seat.table_id ≡ table.now.table.shared.table_id }
    requires rests { Rests place.old.seat.me node [] }
    ensures table { place.new.seat.table_id ≡ place.old.seat.table_id }
    ensures rests { Rests place.new.seat.me result [] }
    ensures number { result.number ≡ node.number }
{
    for _ in rt.forever() {
        let ticket = table.next_ticket(place);
        if ticket >= table.top() {
            return node;
        }
        let drawn = Node {
            number: node.number,
            ticket: Some(ticket),
        };
        if table.draw::<Brand, Node, ()>(place, ticket, &drawn, &()) {
            return drawn;
        }
    }
    unreachable!()
}

/// What the first node does.
fn draw_and_send<R: Wait>(
    rt: &R,
    table: &MailTable,
    place: MailPlace,
    node: Node,
) -> (MailPlace, Node)
    requires table { (place.seat.table_id ≡ table.now.table.shared.table_id) ×
        (0 < table.now.many) }
    requires rests { Rests place.seat.me node [] }
    ensures table { result.0.seat.table_id ≡ table.now.table.shared.table_id }
    ensures rests { Rests result.0.seat.me result.1 [] × (result.1.number ≡ node.number) }
{
    let mut place = place;
    let node = draw(rt, table, &mut place, node);
    send(rt, table, &mut place, &node, 42);
    (place, node)
}

/// What the second node does. It raises the halt when it has the message.
fn draw_and_receive<R: Wait>(
    rt: &R,
    table: &MailTable,
    place: MailPlace,
    node: Node,
) -> (MailPlace, Node, u64)
    requires table { (place.seat.table_id ≡ table.now.table.shared.table_id) ×
        (0 < table.now.many) }
    requires rests { Rests place.seat.me node [] }
    ensures table { result.0.seat.table_id ≡ table.now.table.shared.table_id }
    ensures rests { Rests result.0.seat.me result.1 [] × (result.1.number ≡ node.number) }
    ensures few { result.2 < 100 }
{
    let mut place = place;
    let node = draw(rt, table, &mut place, node);
    let message = receive(rt, table, &mut place, &node);
    table.raise(&mut place);
    (place, node, message)
}

/// Runs both nodes, each on a thread of its own, and puts their places together.
fn run<R: Threads + Wait + Sync>(
    rt: &R,
    table: &MailTable,
    one: MailPlace,
    other: MailPlace,
) -> (MailPlace, Node, Node, u64)
    requires table { (one.seat.table_id ≡ table.now.table.shared.table_id)
        × (other.seat.table_id ≡ table.now.table.shared.table_id) × (0 < table.now.many) }
    requires rests { Rests one.seat.me (record { number = 1; ticket = None }) []
        × Rests other.seat.me (record { number = 0; ticket = None }) [] }
    ensures table { result.0.seat.table_id ≡ table.now.table.shared.table_id }
    ensures rests { Rests result.0.seat.me result.1 (result.2 ∷ []) ×
        (result.1.number ≡ 1) × (result.2.number ≡ 0) }
    ensures few { result.3 < 100 }
{
    let ((place, first), (theirs, second, message)) = thread::join(
        rt,
        move ||
            requires { (one.seat.table_id ≡ table.now.table.shared.table_id) × (0 < table.now.many)
                × Rests one.seat.me (record { number = 1; ticket = None }) [] }
            ensures { (result.0.seat.table_id ≡ table.entry.now.table.shared.table_id)
                × Rests result.0.seat.me result.1 [] × (result.1.number ≡ 1) }
        {
            let node = Node {
                number: 1,
                ticket: None,
            };
            draw_and_send(rt, table, one, node)
        },
        move ||
            requires { (other.seat.table_id ≡ table.now.table.shared.table_id) ×
                (0 < table.now.many)
                × Rests other.seat.me (record { number = 0; ticket = None }) [] }
            ensures { (result.0.seat.table_id ≡ table.entry.now.table.shared.table_id)
                × Rests result.0.seat.me result.1 [] × (result.1.number ≡ 0) × (result.2 < 100) }
        {
            let node = Node {
                number: 0,
                ticket: None,
            };
            draw_and_receive(rt, table, other, node)
        },
    );
    let mut place = place;
    table.join(&mut place, theirs);
    (place, first, second, message)
}

/// Makes a table with one link and the tickets 5 and 6, and a place with both nodes.
fn opened(alloc: Global) -> Result<(MailTable, MailPlace), NoMemory>
    ensures table { IfOk result (λ t. (t.1.seat.table_id ≡ t.0.table.shared.table_id) ×
        (t.0.many ≡ 1)) }
    ensures rests { IfOk result (λ t.
        Rests t.1.seat.me (record { number = 1; ticket = None }) (record {
          number = 0;
          ticket = None;
        } ∷ [])) }
{
    let mut links = Vec::with_capacity(alloc, 1)?;
    links.push_reserved(None);
    LinkTable::new(alloc, links, 5, 2, ())
}

#[test]
fn sends_a_message(rt: HostRuntime) -> Result<(), Fail> {
    let (table, place) = opened(rt.alloc())?;
    let mut place = place;
    assert_eq!(rt; table.links(), 1);
    assert_eq!(rt; table.top(), 7);
    assert!(rt; table.look(&mut place, 0) == LinkWord::Laden);
    assert!(rt; !table.is_halted(&mut place));
    let node = Node {
        number: 1,
        ticket: None,
    };
    assert_eq!(rt; table.settle::<Brand, Node>(&mut place, &node), 5);
    let theirs = table.split(&mut place);
    let (place, first, second, message) = run(&rt, &table, place, theirs);
    let mut place = place;
    assert_eq!(rt; message, 42);
    let tickets = (first.ticket, second.ticket);
    assert!(rt; tickets == (Some(5), Some(6)) || tickets == (Some(6), Some(5)));
    assert!(rt; table.is_halted(&mut place));
    assert!(rt; table.look(&mut place, 0) == LinkWord::Bare);
    assert_eq!(rt; table.next_ticket(&mut place), 7);
    let (links, next) = table.close(place);
    assert_eq!(rt; links.as_slice(), [None].as_slice());
    assert_eq!(rt; next, 7);
    Ok(())
}
