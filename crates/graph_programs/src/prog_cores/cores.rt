//! The greatest degree that a vertex keeps in some part of the graph.
ghost use Rattle.std.specs.Prelude.{◌≡◌, ◌≤◌};
ghost use Rattle.update_api.specs.Scopes.{nears};
ghost use Rattle.update_api.specs.Supported.{greatest_supported, support};
ghost use Rattle.update_api.specs.Updates.{update_of_cores};

use gl_base::INF;
use update_api::{Program, Scope, Woken};

/// Each vertex gets its core number: the greatest k for which it lies in a part of the graph whose
/// vertices all have at least k neighbours in that part (Seidman 1983). The edges have no
/// direction.
#[derive(Clone, Copy)]
pub struct Cores;

impl Program for Cores {
    ghost meaning = { λ p. update_of_cores };

    fn start(&self, _id: u64) -> u64 {
        INF
    }

    fn update(&self, scope: &mut Scope<'_>) -> Woken {
        let old = scope.centre();
        let new = greatest_supported(scope, old.min(scope.degree() as u64));
        if new == old {
            return Woken::Nobody;
        }
        *scope.centre_mut() = new;
        Woken::Around
    }
}

/// Returns the greatest number up to `most` that as many neighbours reach. The first look is at
/// `most` itself, as a vertex mostly keeps its number. As many as reach a number reach their own
/// count too, and no more reach a greater one, so each look bounds the result from both sides.
fn greatest_supported(scope: &Scope<'_>, most: u64) -> u64
    ensures { result ≡ greatest_supported most (nears scope.now) }
{
    let mut low = 0;
    let mut high = most;
    let mut looked = most;
    while low < high {
        let count = support(scope, looked);
        if count >= looked {
            low = looked;
            high = high.min(count);
        } else {
            low = low.max(count);
            high = looked - 1;
        }
        looked = high - (high - low) / 2;
    }
    low
}

/// Returns how many neighbours have a number of at least `k`.
fn support(scope: &Scope<'_>, k: u64) -> u64
    ensures { result ≡ support k (nears scope.now) }
{
    let mut count = 0;
    for i in 0..scope.degree() {
        if scope.near(i) >= k {
            count += 1;
        }
    }
    count
}
