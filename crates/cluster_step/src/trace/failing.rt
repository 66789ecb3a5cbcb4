//! What a machine makes only before it has reached the count of a failure, or only once it has.
ghost use Rattle.std.specs.Prelude.{◌≡◌, ◌+◌, ◌&&◌, ◌==◌, nat_le, nat_lt};
ghost use Rattle.cluster_step.specs.trace.Events as events;
ghost use Rattle.call_laws.specs.whole_calls.Following.{reaches};

use crate::clusters::{Event, Local, Passage};
use gl_base::{FailureAt, MachineNo};

/// The machine of the event, where it is one that a machine makes only before it has reached the
/// count of a failure, as an update and what it hears of the coordinator, or only once it has, as
/// failing.
pub(crate) fn watched(event: Event) -> Option<(MachineNo, bool)>
    ensures { result ≡ events.watched event }
{
    match event {
        Event::Local(Local::Update(scope)) => Some((scope.home, false)),
        Event::Local(Local::Fail(m)) => Some((m, true)),
        Event::Passage(Passage::DeliverCall(m)) => Some((m, false)),
        _ => None,
    }
}

/// Whether the machine, which had completed so many updates before, has reached the count of one of
/// the failures with these more.
pub fn is_count_reached(failures: &[FailureAt], m: MachineNo, before: u64, made: u64) -> bool
    ensures { result ≡ reaches failures.now m.0 before (before + made) }
{
    failures
        .iter()
        .any(|failure| is_reached(failure, m, before, made))
}

/// Whether it has reached the count of this one.
fn is_reached(failure: &FailureAt, m: MachineNo, before: u64, made: u64) -> bool
    ensures { result ≡ ((failure.now.machine.0 == m.0) && (nat_lt before failure.now.after && nat_le
        failure.now.after (before + made))) }
{
    failure.machine == m && before < failure.after && failure.after - before <= made
}
