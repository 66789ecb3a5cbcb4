//! The least identifier of a component.
ghost use Rattle.std.specs.Prelude.{◌≡◌, map};
ghost use Rattle.update_api.specs.Scopes.{nears};
ghost use Rattle.update_api.specs.Updates.{least, update_of_components};

use update_api::{Program, Scope, Woken};

/// Each vertex gets the least identifier in its weakly connected component.
#[derive(Clone, Copy)]
pub struct Components;

impl Program for Components {
    ghost meaning = { λ p. update_of_components };

    fn start(&self, id: u64) -> u64 {
        id
    }

    fn update(&self, scope: &mut Scope<'_>) -> Woken {
        let old = scope.centre();
        let new = least_label(scope);
        if new == old {
            return Woken::Nobody;
        }
        *scope.centre_mut() = new;
        Woken::Around
    }
}

/// The least of the vertex's own label and its neighbours' labels.
fn least_label(scope: &Scope<'_>) -> u64
    ensures { result ≡ least scope.now.centre.now (map (λ near. near.number) (nears scope.now)) }
{
    let mut label = scope.centre();
    for i in 0..scope.degree() {
        label = label.min(scope.near(i));
    }
    label
}
