//! The fold of a list of numbers, and the fold of two lists from the folds of each.
ghost use Rattle.std.specs.Prelude.{◌≡◌, ℕ, ◌+◌, ◌^◌, ◌<◌, List, ◌++◌};
ghost use Rattle.graph_text.specs.sync_folds.Folds.{fold_of, merged};

use gl_base::INF;

/// What a list of numbers of vertices comes to. A number is reached where it is not `INF`.
#[derive(Clone, Copy, Debug, PartialEq, Eq)]
pub struct Fold {
    /// How many numbers are reached.
    pub reached: u64,
    /// What the reached numbers add up to.
    pub sum: u128,
    /// The greatest reached number, and 0 where none is reached.
    pub max: u64,
}

impl Fold {
    /// The fold of a list of numbers.
    pub fn of(values: &[u64]) -> Fold
        ensures { result ≡ fold_of values.now }
    {
        let mut fold = Fold {
            reached: 0,
            sum: 0,
            max: 0,
        };
        for value in values {
            let reached = *value != INF;
            if reached {
                fold.reached += 1;
                fold.sum += u128::from(*value);
                fold.max = fold.max.max(*value);
            }
        }
        fold
    }

    /// The fold of two lists, from the fold of each.
    pub fn merge(self, other: Fold) -> Fold
        requires reached { self.reached + other.reached < 2 ^ 64 }
        requires sum { self.sum + other.sum < 2 ^ 128 }
        ensures merged { result ≡ merged self other }
        ensures lists { (xs ys : List ℕ) → self ≡ fold_of xs → other ≡ fold_of ys →
            result ≡ fold_of (xs ++ ys) }
    {
        Fold {
            reached: self.reached + other.reached,
            sum: self.sum + other.sum,
            max: self.max.max(other.max),
        }
    }
}
