//! Programs whose updates pass a gate.
use gl_outside::Gate;
use update_api::{Program, Scope, Woken};

/// A program whose updates pass a gate, each once as it begins, by the identifier of its vertex.
/// They do what those of the program do: a gate sees that they begin and may hold them up, and
/// changes nothing of them.
#[derive_where(Clone, Copy)]
pub struct Gated<'g, P: Program, G: Gate> {
    pub program: P,
    pub gate: &'g G,
}

impl<P: Program, G: Gate> Program for Gated<'_, P, G> {
    ghost meaning = { λ p. P.meaning p.program };

    fn start(&self, id: u64) -> u64 {
        self.program.start(id)
    }

    fn update(&self, scope: &mut Scope<'_>) -> Woken {
        self.gate.pass(scope.id());
        self.program.update(scope)
    }
}
