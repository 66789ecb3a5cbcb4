//! The update of a scope.
ghost use Rattle.std.specs.Prelude.{◌≡◌, ℕ, ◌==◌, Some, length, if◌then◌else◌, OnOk, OnErr, IsErrOf};
ghost use Rattle.local_graph.specs.Works.{IsRow};
ghost use Rattle.machine_core.specs.machine_turns.Turns.{IsOrderly, KnowsPlaces, SameSettings, HasEachRow, MayUpdate, HasMadeUpdate, HasRunOf, IsAsBefore, IsOut, Setting, IsPartOf, part_of, datum_here, is_own, links_at, sides_at};
ghost use Rattle.machine_core.specs.machine_turns.Inner.Taking.{CanBeTaken, HasItsRow, IsReserved, HasCompleted, HasRunAt};

use crate::machine_parts::Core;
use crate::machine_turns::waiting::centre_to_update;
use crate::machine_updates::{Prepared, Spares, commit, put_back, reserve_commit, take_work};
use gl_base::{NoMemory, Refused, ScopeId};
use local_graph::{Outcome, Work};
use scope_locks::scope_pipe::Flight;
use std::alloc::Global;
use update_api::Program;

/// Makes the update of a ready scope of this machine, whose vertex is a task and not pending, and
/// tells the other machines of the scope. It is logged under the ticket. A log that holds as many
/// updates as it may is want of memory too.
pub fn update<P: Program>(
    alloc: Global,
    core: &mut Core,
    spares: &mut Spares,
    program: &P,
    scope: ScopeId,
    ticket: u64,
) -> Result<(), Refused>
    requires orderly { IsOrderly core.old }
    requires rows { HasEachRow core.old.numbers.local }
    ensures updated { OnOk result
        (HasMadeUpdate (P.meaning program.now) core.old core.new scope ticket) }
    ensures run { OnOk result (HasRunOf core.old core.new scope) }
    ensures not_now { IsErrOf result Refused.NotNow → MayUpdate scope (part_of core.old) 1 → ⊥ }
    ensures no_memory { IsErrOf result Refused.NoMemory → MayUpdate scope (part_of core.old) 1 }
    ensures same { IsErrOf result Refused.NotNow → core.new ≡ core.old }
    ensures unchanged { OnErr result (IsAsBefore core.old core.new) }
    ensures rows { HasEachRow core.new.numbers.local }
    ensures links { (x : ℕ) →
        links_at core.new.numbers.local x ≡ links_at core.old.numbers.local x }
    ensures own { (x : ℕ) → is_own core.new.numbers.local x ≡ is_own core.old.numbers.local x }
    ensures marks { (x : ℕ) →
        (datum_here core.new.numbers x).mark ≡ (datum_here core.old.numbers x).mark }
    ensures local { let old = core.old.numbers.local in let new = core.new.numbers.local in
        new ≡ record old { kept = new.kept; rows = new.rows; numbers = new.numbers } }
    ensures orderly { IsOrderly core.new }
    ensures places { KnowsPlaces core.old → KnowsPlaces core.new }
    ensures settings { SameSettings core.old core.new }
    ensures pipe { core.new.pipe ≡ record core.old.pipe {
      waiting = core.new.pipe.waiting;
      ready = core.new.pipe.ready;
    } }
    ensures rest { core.new ≡ record core.old {
      numbers = core.new.numbers;
      pipe = core.new.pipe;
      locks = core.new.locks;
      out = core.new.out;
      spare = core.new.spare;
    } }
{
    let Some(centre) = centre_to_update(core, scope) else {
        return Err(Refused::NotNow);
    };
    match make(
        alloc,
        core,
        spares,
        program,
        Flight { scope, centre },
        ticket,
    ) {
        Ok(()) => Ok(()),
        Err(NoMemory) => Err(Refused::NoMemory),
    }
}

/// The same for a scope that may make its update.
fn make<P: Program>(
    alloc: Global,
    core: &mut Core,
    spares: &mut Spares,
    program: &P,
    flight: Flight,
    ticket: u64,
) -> Result<(), NoMemory>
    requires orderly { IsOrderly core.old }
    requires rows { HasEachRow core.old.numbers.local }
    requires can { CanBeTaken core.old flight.scope flight.centre }
    ensures made { OnOk result
        (HasMadeUpdate (P.meaning program.now) core.old core.new flight.scope ticket) }
    ensures run { OnOk result (HasRunOf core.old core.new flight.scope) }
    ensures unchanged { OnErr result (IsAsBefore core.old core.new) }
    ensures rows { HasEachRow core.new.numbers.local }
    ensures links { (x : ℕ) →
        links_at core.new.numbers.local x ≡ links_at core.old.numbers.local x }
    ensures own { (x : ℕ) → is_own core.new.numbers.local x ≡ is_own core.old.numbers.local x }
    ensures marks { (x : ℕ) →
        (datum_here core.new.numbers x).mark ≡ (datum_here core.old.numbers x).mark }
    ensures local { let old = core.old.numbers.local in let new = core.new.numbers.local in
        new ≡ record old { kept = new.kept; rows = new.rows; numbers = new.numbers } }
    ensures orderly { IsOrderly core.new }
    ensures places { KnowsPlaces core.old → KnowsPlaces core.new }
    ensures settings { SameSettings core.old core.new }
    ensures pipe { core.new.pipe ≡ record core.old.pipe {
      waiting = core.new.pipe.waiting;
      ready = core.new.pipe.ready;
    } }
    ensures rest { core.new ≡ record core.old {
      numbers = core.new.numbers;
      pipe = core.new.pipe;
      locks = core.new.locks;
      out = core.new.out;
      spare = core.new.spare;
    } }
{
    let prepared = reserve_commit(alloc, core, flight.scope)?;
    let degree = core.numbers.local.sides(flight.centre).len();
    let spare = spares.fitted(alloc, degree)?;
    let work = take_work(core, flight, spare);
    let terms = CommitTerms { prepared, ticket };
    complete(alloc, core, spares, program, work, terms)
}

/// What an update is committed with: room for what other machines are told, and its ticket.
#[derive(Drop)]
struct CommitTerms {
    prepared: Vec<Prepared>,
    ticket: u64,
}

/// Makes the update of a work that is out, and commits it. For want of memory the work is put back.
fn complete<P: Program>(
    alloc: Global,
    core: &mut Core,
    spares: &mut Spares,
    program: &P,
    work: Work,
    terms: CommitTerms,
) -> Result<(), NoMemory>
    requires orderly { IsOrderly core.old }
    requires out { IsOut core.old work }
    requires row { IsRow work.row.links.items
        (length (sides_at core.old.numbers.local work.vertex.0)) }
    requires reserved { IsReserved core.old work.scope work.vertex terms.prepared.items }
    ensures completed { OnOk result
        (HasCompleted (P.meaning program.now) core.old core.new work terms.ticket) }
    ensures run { OnOk result (HasRunAt core.old core.new work.vertex) }
    ensures part { OnErr result (part_of core.new ≡ part_of core.old) }
    ensures back { OnErr result
        (core.new ≡ record core.old {
          numbers = record core.old.numbers {
            local = record core.old.numbers.local {
              rows = core.new.numbers.local.rows;
              numbers = core.new.numbers.local.numbers;
            };
          };
        }) }
    ensures rows { (x : ℕ) →
        links_at core.new.numbers.local x ≡ (if x == work.vertex.0 then Some work.row.links.items
        else links_at core.old.numbers.local x) }
    ensures local { let old = core.old.numbers.local in let new = core.new.numbers.local in
        new ≡ record old { kept = new.kept; rows = new.rows; numbers = new.numbers } }
    ensures own { (x : ℕ) → is_own core.new.numbers.local x ≡ is_own core.old.numbers.local x }
    ensures marks { (x : ℕ) →
        (datum_here core.new.numbers x).mark ≡ (datum_here core.old.numbers x).mark }
    ensures orderly { IsOrderly core.new }
    ensures places { KnowsPlaces core.old → KnowsPlaces core.new }
    ensures settings { (st : Setting) → IsPartOf st core.old →
        HasItsRow st core.old work → IsPartOf st core.new }
    ensures pipe { core.new.pipe ≡ record core.old.pipe {
      waiting = core.new.pipe.waiting;
      ready = core.new.pipe.ready;
    } }
    ensures rest { core.new ≡ record core.old {
      numbers = core.new.numbers;
      pipe = core.new.pipe;
      locks = core.new.locks;
      out = core.new.out;
      spare = core.new.spare;
    } }
{
    match Outcome::in_list(spares.for_outcome(alloc), work) {
        Ok(mut outcome) => {
            outcome.update(program);
            spares.keep_all(commit(core, outcome, terms.prepared, terms.ticket));
            Ok(())
        }
        Err(work) => {
            spares.keep(put_back(core, work));
            Err(NoMemory)
        }
    }
}
