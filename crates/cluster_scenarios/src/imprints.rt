//! A number that is another one if what is read of a cluster is another.
ghost use Rattle.std.specs.Prelude.{◌<◌, length};

use cluster_step::clusters::{Due, SavingMachine, SnapCluster};
use gl_base::{MachineNo, ScopeId};

/// Returns a number that two clusters are not expected to share of which something else is read.
pub fn imprint<M: SavingMachine>(whole: &SnapCluster<M>) -> u64 {
    let mut print = mixed(mixed(whole.next(), whole.left()), whole.stored() as u64);
    print = mixed_due(print, whole.due());
    for m in 0..whole.machines() {
        print = mixed_machine(print, whole, MachineNo(m as u16));
    }
    print
}

/// Adds what is read of a machine and of the links from it.
fn mixed_machine<M: SavingMachine>(print: u64, whole: &SnapCluster<M>, m: MachineNo) -> u64
    requires { m.0 < length whole.now.machines.items }
{
    let mut print = mixed(print, whole.log(m).len() as u64);
    print = mixed(print, whole.machine(m).serial());
    print = mixed_scope(print, whole.next_update(m));
    print = mixed_scope(print, whole.next_mark(m));
    print = mixed(print, whole.has_failed(m) as u64);
    print = mixed(print, whole.call_waits(m) as u64);
    print = mixed(print, whole.has_call(m) as u64);
    print = mixed(print, whole.has_report(m) as u64);
    for other in 0..whole.machines() {
        let to = MachineNo(other as u16);
        print = mixed(print, whole.machine(m).waits(to) as u64);
        print = mixed(print, whole.has_message(m, to) as u64);
    }
    print
}

/// Adds what is due.
fn mixed_due(print: u64, due: Due) -> u64 {
    match due {
        Due::Ended => mixed(print, 1),
        Due::Wave => mixed(print, 2),
        Due::Nothing => mixed(print, 3),
        Due::Record(number) => mixed(mixed(print, 4), number as u64),
        Due::Snapshot(number) => mixed(mixed(print, 5), number as u64),
        Due::Step(colour) => mixed(mixed(print, 6), colour as u64),
    }
}

/// Adds the serial of a scope, if there is one.
fn mixed_scope(print: u64, scope: Option<ScopeId>) -> u64 {
    match scope {
        Some(scope) => mixed(mixed(print, 1), scope.serial),
        None => mixed(print, 0),
    }
}

/// Adds a number.
fn mixed(print: u64, number: u64) -> u64 {
    print
        .wrapping_mul(6364136223846793005)
        .wrapping_add(number)
        .wrapping_add(1442695040888963407)
}
