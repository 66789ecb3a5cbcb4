//! How many messages wait for machines.
ghost use Rattle.std.specs.Prelude.{◌≡◌, length};
ghost use Rattle.machine_core.specs.machine_rest.Rest.{IsPartOf, Setting, part_of, total};

use crate::machine_parts::Core;

/// How many messages wait to be sent to machines. Those for the coordinator don't count.
pub fn waiting(core: &Core) -> u128
    ensures { (st : Setting) → IsPartOf st core.now →
        result ≡ total st.machines (λ q. length ((part_of core.now).out q)) }
{
    core.out.count_for_machines()
}
