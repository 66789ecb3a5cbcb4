//! A base with restarts behind its order.
ghost use Rattle.std.specs.Prelude.{◌≡◌, ◌++◌, IfOk};

use gl_base::{Base, Entry, NoMemory};

/// The base with the restarts that the store lacks behind its order.
pub fn base_behind(base: Base, missing: &[Entry]) -> Result<Base, NoMemory>
    ensures order { IfOk result (λ made. made.order.items ≡ base.order.items ++ missing.now) }
    ensures number { IfOk result (λ made. made.number ≡ base.number) }
    ensures values { IfOk result (λ made. made.values.items ≡ base.values.items) }
    ensures edges { IfOk result (λ made. made.edges.items ≡ base.edges.items) }
    ensures length { IfOk result (λ made. made.length ≡ base.length) }
{
    let mut base = base;
    base.order.extend_from_slice(missing)?;
    Ok(base)
}
