//! What can follow an event of a cluster.
ghost use Rattle.full_runs.specs.Inner.Driving.{IsClusterOn};

use full_cluster::{Division, FullCluster, FullEvent, FullTerms, ScopeStand};
use gl_base::{MachineNo, ScopeId, Vertex};
use graph_core::Half;

/// Whether a machine can admit one scope more.
pub(crate) fn has_room(cluster: &FullCluster, terms: FullTerms, a: MachineNo) -> bool {
    match cluster.machine(a) {
        Some(machine) => machine.flying < terms.pipeline,
        None => false,
    }
}

/// Whether the vertex is a task of the machine.
pub(crate) fn is_task(cluster: &FullCluster, a: MachineNo, v: Vertex) -> bool {
    match cluster.machine(a) {
        Some(machine) => machine.is_task(v),
        None => false,
    }
}

/// Whether the machine owns the vertex.
pub(crate) fn is_owner(division: &Division<'_>, a: MachineNo, v: Vertex) -> bool {
    match division.owner.get(v.0 as usize) {
        Some(owner) => owner.0 == a.0,
        None => false,
    }
}

/// The edges at a vertex; none where the graph has no such vertex.
pub(crate) fn halves_at<'a>(division: &'a Division<'_>, v: Vertex) -> &'a [Half] {
    if v.0 < division.graph.n() {
        division.graph.halves(v)
    } else {
        &[]
    }
}

/// What follows where machine a admits a scope of v: it asks for its first lock there, or sets out
/// for another machine.
pub(crate) fn after_admission(division: &Division<'_>, a: MachineNo, v: Vertex) -> FullEvent {
    let first = first_machine(division, a, v);
    if first.0 == a.0 {
        first_grant(division, a, v)
    } else {
        FullEvent::Send { from: a, to: first }
    }
}

/// The first of machine a and those that own a neighbour of v.
fn first_machine(division: &Division<'_>, a: MachineNo, v: Vertex) -> MachineNo {
    let mut first = a;
    for half in halves_at(division, v) {
        first = first_of(first, division.owner.get(half.other.0 as usize));
    }
    first
}

/// The first of one machine and another, if there is one.
fn first_of(one: MachineNo, other: Option<&MachineNo>) -> MachineNo {
    match other {
        Some(other) if other.0 < one.0 => *other,
        _ => one,
    }
}

/// What follows where a scope of v comes to machine a: it gets its first lock there.
pub(crate) fn first_grant(division: &Division<'_>, a: MachineNo, v: Vertex) -> FullEvent {
    FullEvent::Grant {
        machine: a,
        vertex: first_lock(division, a, v),
    }
}

/// The first vertex of machine a in the scope of v, and v where there is none.
fn first_lock(division: &Division<'_>, a: MachineNo, v: Vertex) -> Vertex {
    let mut first = v;
    let mut is_own = is_owner(division, a, v);
    for half in halves_at(division, v) {
        let x = half.other;
        if is_owner(division, a, x) && (!is_own || x.0 < first.0) {
            first = x;
            is_own = true;
        }
    }
    first
}

/// What follows where machine a grants the lock of x; `None` where nobody would get it.
pub(crate) fn after_grant(
    division: &Division<'_>,
    cluster: &FullCluster,
    a: MachineNo,
    x: Vertex,
) -> Option<FullEvent>
    requires { IsClusterOn division.now cluster.now }
{
    let machine = cluster.machine(a)?;
    if x.0 >= division.graph.n() {
        return None;
    }
    let scope = machine.locks.first(x)?;
    let stand = machine.stands.get(scope)?;
    Some(after_lock(a, scope, stand))
}

/// What follows where a scope gets the lock before which it stands at machine a.
fn after_lock(a: MachineNo, scope: ScopeId, stand: &ScopeStand) -> FullEvent {
    match stand.part.get(stand.place.saturating_add(1)) {
        Some(lock) => FullEvent::Grant {
            machine: a,
            vertex: *lock,
        },
        None => leaving(a, scope, stand.rest.first()),
    }
}

/// What follows where a scope has all its locks at machine a, and this machine is next, if there is
/// one.
fn leaving(a: MachineNo, scope: ScopeId, next: Option<&MachineNo>) -> FullEvent {
    match next {
        Some(to) => FullEvent::Send { from: a, to: *to },
        None => coming_home(a, scope),
    }
}

/// What follows where a scope has all its locks, the last at machine a.
fn coming_home(a: MachineNo, scope: ScopeId) -> FullEvent {
    if scope.home.0 == a.0 {
        FullEvent::Update { scope }
    } else {
        FullEvent::Send {
            from: a,
            to: scope.home,
        }
    }
}

/// The vertex whose update the scope can make now; `None` where it can make none.
pub(crate) fn ready_centre(
    division: &Division<'_>,
    cluster: &FullCluster,
    scope: ScopeId,
) -> Option<Vertex>
    requires { IsClusterOn division.now cluster.now }
{
    if cluster.tickets_left() == 0 {
        return None;
    }
    let machine = cluster.machine(scope.home)?;
    let _seen = machine.ready.get(scope)?;
    machine.flights.get(scope).copied()
}
