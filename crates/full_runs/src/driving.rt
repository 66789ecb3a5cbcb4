//! Events of a cluster are tried until nothing that is given is on its way.
ghost use Rattle.std.specs.Prelude.{◌≡◌, ◌+◌, OnOk};
ghost use Rattle.full_cluster.specs.FullClusters.{IsClusterFor};
ghost use Rattle.full_runs.specs.Inner.Driving.{IsAllGivenIn, IsClusterOn};

use crate::agendas::Agenda;
use crate::outlooks::ready_centre;
use crate::quiet::is_quiet;
use crate::so_far::pass;
use full_cluster::{Division, FullCluster, FullEvent, FullTerms};
use full_scope::FullProgram;
use gl_base::{NoMemory, Refused};
use gl_outside::Gate;
use std::alloc::Global;
use std::sync::Wait;

/// Tries events until none is left to try, and no message is on its way. The gate is passed as each
/// update begins.
pub(crate) fn drive<R: Wait, P: FullProgram, G: Gate>(
    rt: &R,
    alloc: Global,
    division: &Division<'_>,
    terms: FullTerms,
    program: &P,
    gate: &G,
    cluster: &mut FullCluster,
) -> Result<(), NoMemory>
    requires cluster { IsClusterFor division.now terms (P.meaning program.now) cluster.old }
    ensures cluster { IsClusterFor division.now terms (P.meaning program.now) cluster.new }
    ensures tickets { cluster.new.next + cluster.new.left ≡ cluster.old.next + cluster.old.left }
    ensures given { OnOk result (IsAllGivenIn terms.machines cluster.new) }
{
    let mut agenda = Agenda::new(alloc, division, terms.machines)?;
    for _ in rt.forever() {
        if let Some(event) = agenda.next() {
            pass_if_update(gate, division, cluster, event);
            try_event(alloc, division, terms, program, cluster, &mut agenda, event)?;
        } else if is_quiet(cluster, terms.machines) {
            return Ok(());
        } else {
            agenda.find_messages(cluster, terms.machines)?;
        }
    }
    unreachable!()
}

/// The gate is passed, if the event is an update that can be made now.
fn pass_if_update<G: Gate>(
    gate: &G,
    division: &Division<'_>,
    cluster: &FullCluster,
    event: FullEvent,
)
    requires { IsClusterOn division.now cluster.now }
{
    let FullEvent::Update { scope } = event else {
        return;
    };
    if let Some(v) = ready_centre(division, cluster, scope) {
        pass(gate, division.graph, v);
    }
}

/// Makes the event, if it can happen now. What follows it is on the agenda then.
fn try_event<P: FullProgram>(
    alloc: Global,
    division: &Division<'_>,
    terms: FullTerms,
    program: &P,
    cluster: &mut FullCluster,
    agenda: &mut Agenda,
    event: FullEvent,
) -> Result<(), NoMemory>
    requires cluster { IsClusterFor division.now terms (P.meaning program.now) cluster.old }
    ensures cluster { IsClusterFor division.now terms (P.meaning program.now) cluster.new }
    ensures tickets { cluster.new.next + cluster.new.left ≡ cluster.old.next + cluster.old.left }
{
    if agenda.foresee(division, terms, cluster, event)? {
        make(alloc, division, terms, program, cluster, event)?;
    }
    agenda.follow(terms, cluster, event)
}

/// Makes the event, if it can happen now.
fn make<P: FullProgram>(
    alloc: Global,
    division: &Division<'_>,
    terms: FullTerms,
    program: &P,
    cluster: &mut FullCluster,
    event: FullEvent,
) -> Result<(), NoMemory>
    requires cluster { IsClusterFor division.now terms (P.meaning program.now) cluster.old }
    ensures cluster { IsClusterFor division.now terms (P.meaning program.now) cluster.new }
    ensures tickets { cluster.new.next + cluster.new.left ≡ cluster.old.next + cluster.old.left }
{
    passed_over(cluster.apply(alloc, division, terms, program, event))
}

/// An event that can't happen now is passed over.
fn passed_over(made: Result<(), Refused>) -> Result<(), NoMemory> {
    match made {
        Err(Refused::NoMemory) => Err(NoMemory),
        _ => Ok(()),
    }
}
