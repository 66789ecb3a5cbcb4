//! Random calls of a lock table, beside plain lists of those that hold and those that wait.
use crate::chances::{Chances, print_alike};
use gl_base::{Claim, MachineNo, Mode, NoMemory, ScopeId, Vertex};
use scope_locks::vertex_locks::{LockTable, Turn};
use std::alloc::Global;
use std::io;

/// Who holds a lock, and who waits for it, the first first.
#[derive(Drop)]
struct Plain {
    holders: Vec<Claim>,
    queue: Vec<Claim>,
}

impl Plain {
    /// Whether the claim may be held beside those that hold, so that no writer is beside another.
    fn has_room_for(&self, claim: &Claim) -> bool {
        let reads = |claim: &Claim| claim.mode == Mode::Reader;
        self.holders.is_empty() || (reads(claim) && self.holders.iter().all(reads))
    }

    /// Whether the first that waits would hold the lock.
    fn would_grant(&self) -> bool {
        match self.queue.first() {
            Some(first) => self.has_room_for(first),
            None => false,
        }
    }

    /// The first that waits holds the lock, where no writer is beside another.
    fn grant(&mut self) -> Result<Turn, NoMemory> {
        let Some(first) = self.queue.first().copied() else {
            return Ok(Turn::Waiting);
        };
        if !self.has_room_for(&first) {
            return Ok(Turn::Waiting);
        }
        self.queue.remove(0);
        self.holders.push(first)?;
        Ok(Turn::Granted(first))
    }
}

fn is_among(claims: &[Claim], scope: ScopeId) -> bool {
    claims.iter().any(|claim| claim.scope == scope)
}

/// One random call of both, and whether they answered alike.
fn call(
    table: &mut LockTable,
    plain: &mut [Plain],
    chances: &mut Chances,
) -> Result<bool, NoMemory> {
    let place = chances.below(4);
    let x = Vertex(place);
    let scope = ScopeId {
        home: MachineNo(chances.below(2) as u16),
        serial: chances.below(4) as u64,
    };
    if !table.owns(x) || place as usize >= plain.len() {
        return Ok(false);
    }
    let lock = &mut plain[place as usize];
    table.reserve(x)?;
    let waits = table.waits(x, scope);
    let holds = table.holds(x, scope);
    if waits != is_among(&lock.queue, scope) || holds != is_among(&lock.holders, scope) {
        return Ok(false);
    }
    if holds {
        table.release(x, scope);
        lock.holders.retain(|claim| claim.scope != scope);
    } else if waits {
        let looked = table.look(x);
        let turn = table.grant(x);
        return Ok(looked == turn && turn == lock.grant()?);
    } else {
        let mode = [Mode::Reader, Mode::Writer][chances.below(2) as usize];
        let claim = Claim { scope, mode };
        table.request(x, claim);
        lock.queue.push(claim)?;
    }
    Ok(true)
}

/// Whether the table tells of a lock that would be granted, and of none where none would be.
fn tells_of_one(table: &mut LockTable, plain: &[Plain]) -> bool {
    match table.next_grant() {
        Some(x) => match plain.get(x.0 as usize) {
            Some(lock) => lock.would_grant(),
            None => false,
        },
        None => plain.iter().all(|lock| !lock.would_grant()),
    }
}

/// The plain lists of four locks that nobody claims.
fn unclaimed(alloc: Global) -> Result<Vec<Plain>, NoMemory> {
    let mut plain = Vec::new(alloc);
    for _ in 0..4 {
        plain.push(Plain {
            holders: Vec::new(alloc),
            queue: Vec::new(alloc),
        })?;
    }
    Ok(plain)
}

/// Makes 1,000 random calls of both, or those up to the first that they answer otherwise, and tells
/// how many they answer alike.
fn play(table: &mut LockTable, plain: &mut [Plain], seed: u64) -> Result<u32, NoMemory> {
    let mut chances = Chances::new(seed);
    for count in 0..1000 {
        let alike = call(table, plain, &mut chances)?;
        if !alike || !tells_of_one(table, plain) {
            return Ok(count);
        }
    }
    Ok(1000)
}

/// Prints how many of 1,000 calls a table answers as plain lists do, at each of 8 seeds.
pub fn print_random_locks(rt: &impl Print, alloc: Global) -> io::Result<()> {
    let owned = [Vertex(3), Vertex(0), Vertex(2), Vertex(1)];
    match LockTable::new(alloc, &owned, 4) {
        Ok(mut table) => print_traces(rt, alloc, &mut table),
        Err(fault) => println!(rt; "random locks: {fault}"),
    }
}

fn print_traces(rt: &impl Print, alloc: Global, table: &mut LockTable) -> io::Result<()> {
    for seed in 0..8 {
        print_alike(rt, "locks", seed, play_from_start(table, seed, alloc))?;
        table.reset();
    }
    Ok(())
}

fn play_from_start(table: &mut LockTable, seed: u64, alloc: Global) -> Result<u32, NoMemory> {
    let mut plain = unclaimed(alloc)?;
    play(table, &mut plain, seed)
}
