//! Updates that are made on a machine's own numbers.
ghost use Rattle.std.specs.Prelude.{◌≡◌, ℕ, ◌==◌, Some, length, if◌then◌else◌, OnOk, OnErr};
ghost use Rattle.gl_base.specs.declared.entries.Entry.TheVariants.{Go};
ghost use Rattle.machine_core.specs.machine_at_once.Picks.{IsRowIn, is_own, links_at};
ghost use Rattle.machine_core.specs.machine_at_once.Inner.Finding.{WaitsAt};
ghost use Rattle.machine_core.specs.machine_at_once.Inner.Making.{CanBeKept, CanBeMade, HasMadeHere, HasRunOne, HasSameNumbers, HasUpdated, made_of, run_of, sides_at};

use crate::machine_at_once::finding::Found;
use crate::machine_updates::{Spares, reserve_log};
use gl_base::{Entry, NoMemory, ScopeId, Vertex};
use local_graph::Work;
use partition::machine_numbers::{Numbers, ScratchBuffers};
use std::alloc::Global;
use update_api::{Program, Woken};

/// What an update is known by: the name of its scope, and its ticket.
#[derive(Clone, Copy)]
pub struct Stamp {
    pub scope: ScopeId,
    pub ticket: u64,
}

/// Makes the update of a task and keeps it under its ticket. For want of memory no number changes.
pub fn make<P: Program>(
    alloc: Global,
    numbers: &mut Numbers,
    spares: &mut Spares,
    program: &P,
    found: Found,
    stamp: Stamp,
) -> Result<(), NoMemory>
    requires waits { WaitsAt numbers.old found.place found.vertex }
    requires can { CanBeMade numbers.old found.vertex }
    requires row { IsRowIn (links_at numbers.old.local found.vertex.0)
        (length (sides_at numbers.old.local found.vertex.0)) }
    ensures made { OnOk result
        (HasMadeHere (P.meaning program.now) numbers.old numbers.new found.vertex
        (Go numbers.old.local.me found.vertex stamp.ticket)) }
    ensures same { OnErr result (HasSameNumbers numbers.old numbers.new) }
{
    let version = numbers.datum(found.vertex).version;
    reserve_log(&mut numbers.log, version)?;
    let degree = numbers.local.sides(found.vertex).len();
    let spare = spares.fitted(alloc, degree)?;
    let mut work = numbers.take_work(stamp.scope, found.vertex, spare);
    let woken = work.update(program);
    spares.keep(keep(numbers, work, woken, found.place, stamp.ticket));
    Ok(())
}

/// Keeps an update that was made, of the task at this place, under this ticket. It takes no memory.
fn keep(
    numbers: &mut Numbers,
    work: Work,
    woken: Woken,
    place: Vertex,
    ticket: u64,
) -> ScratchBuffers
    requires { CanBeKept numbers.old (run_of work woken) place }
    ensures updated { HasUpdated numbers.old numbers.new (made_of (run_of work woken))
        (Go numbers.old.local.me work.vertex ticket) }
    ensures back { (x : ℕ) →
        links_at numbers.new.local x ≡
        (if x == work.vertex.0 then Some work.row.links.items
        else links_at numbers.old.local x) }
    ensures own { (x : ℕ) → is_own numbers.new.local x ≡ is_own numbers.old.local x }
    ensures edges { length numbers.new.local.numbers ≡ length numbers.old.local.numbers }
    ensures local { numbers.new.local ≡ record numbers.old.local {
      kept = numbers.new.local.kept;
      rows = numbers.new.local.rows;
      numbers = numbers.new.local.numbers;
    } }
    ensures ghosts { numbers.new.ghosts ≡ numbers.old.ghosts }
    ensures run { HasRunOne numbers.old numbers.new }
{
    let entry = Entry::Go {
        ticket,
        machine: numbers.local.me(),
        vertex: work.vertex,
    };
    numbers.tasks.admit_task(place);
    numbers.finish_work(work, woken, entry)
}
