//! A number for each vertex that none of its neighbours has.
ghost use Rattle.std.specs.Prelude.{◌≡◌, ◌==◌, ◌<◌, length};
ghost use Rattle.std.specs.List.{list_any};
ghost use Rattle.update_api.specs.LeastFree.{least_free};
ghost use Rattle.update_api.specs.Scopes.{nears};
ghost use Rattle.update_api.specs.Updates.{update_of_colours};

use update_api::{Program, Scope, Woken};

/// Each vertex gets a colour, from 1 on, that none of its neighbours has; 0 stands for none.
#[derive(Clone, Copy)]
pub struct Colours;

impl Program for Colours {
    ghost meaning = { λ p. update_of_colours };

    fn start(&self, _id: u64) -> u64 {
        0
    }

    fn update(&self, scope: &mut Scope<'_>) -> Woken {
        if scope.centre() == 0 {
            let colour = least_free_colour(scope);
            *scope.centre_mut() = colour;
        }
        Woken::Nobody
    }
}

/// The least colour that no neighbour has. It is one more than the degree at most, and each colour
/// up to it is looked for among the neighbours.
fn least_free_colour(scope: &Scope<'_>) -> u64
    ensures { result ≡ least_free (nears scope.now) }
{
    let mut colour = 1;
    for _ in 0..scope.degree() {
        if !is_taken(scope, colour) {
            return colour;
        }
        colour += 1;
    }
    colour
}

/// Whether some neighbour has this colour.
fn is_taken(scope: &Scope<'_>, colour: u64) -> bool
    ensures { result ≡ list_any (λ near. near.number == colour) (nears scope.now) }
{
    for i in 0..scope.degree() {
        if scope.near(i) == colour {
            return true;
        }
    }
    false
}
