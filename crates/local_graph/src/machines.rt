//! The machines of the scope of a vertex, from its sides.
ghost use Rattle.std.specs.Prelude.{◌≡◌, ◌==◌, ◌++◌, ◌∷◌, [], if◌then◌else◌, OnOk};
ghost use Rattle.std.specs.List.{list_any};
ghost use Rattle.local_graph.specs.Played.{meets};
ghost use Rattle.local_graph.specs.Inner.AtPlaces.{machines_of};

use crate::Side;
use gl_base::{MachineNo, NoMemory};

/// Lists the machines of the scope of a vertex with these sides, ascending, in place of what the
/// list had.
pub fn fill_machines(
    list: &mut Vec<MachineNo>,
    sides: &[Side],
    me: MachineNo,
    machines: u16,
) -> Result<(), NoMemory>
    ensures { OnOk result (list.new.items ≡ machines_of me machines sides.now) }
{
    list.clear();
    for a in 0..machines {
        let takes = takes_part(sides, me, a);
        push_machine(list, MachineNo(a), takes)?;
    }
    Ok(())
}

/// Lists a machine that takes part.
fn push_machine(list: &mut Vec<MachineNo>, machine: MachineNo, takes: bool) -> Result<(), NoMemory>
    ensures { OnOk result (list.new.items ≡ list.old.items ++ (if takes then machine ∷ []
        else [])) }
{
    if takes {
        list.push(machine)?;
    }
    Ok(())
}

/// Whether a machine owns a vertex of the scope of one with these sides.
fn takes_part(sides: &[Side], me: MachineNo, a: u16) -> bool
    ensures { result ≡ meets me sides.now a }
{
    a == me.0 || owns_some(sides, a)
}

fn owns_some(sides: &[Side], a: u16) -> bool
    ensures { result ≡ list_any (λ s. s.owner.0 == a) sides.now }
{
    sides.iter().any(|side| side.owner.0 == a)
}
