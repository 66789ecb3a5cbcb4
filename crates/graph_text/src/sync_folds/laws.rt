//! Laws about folds. Each is the contract of a function that does nothing.
ghost use Rattle.std.specs.Prelude.{◌≡◌, ℕ, ◌*◌, ◌<◌, ◌≤◌, List, [], ◌++◌, length, All, Contains};
ghost use Rattle.std.specs.List.Sorted.{IsPermutation};
ghost use Rattle.graph_text.specs.declared.sync_folds.folds.Fold.{Fold};
ghost use Rattle.graph_text.specs.sync_folds.Folds.{reached_of, fold_of, merged};

/// The fold of two lists, one after the other, is merged from the folds of each.
pub fn folds_join()
    ensures { (xs ys : List ℕ) → fold_of (xs ++ ys) ≡ merged (fold_of xs) (fold_of ys) }
{}

/// Merging is commutative and associative, and the fold of no numbers changes nothing.
pub fn merging_needs_no_order()
    ensures commutative { (a b : Fold) → merged a b ≡ merged b a }
    ensures associative { (a b c : Fold) → merged (merged a b) c ≡ merged a (merged b c) }
    ensures none { (a : Fold) → merged a (fold_of []) ≡ a }
{}

/// A fold stays the same in whatever order the numbers stand.
pub fn order_does_not_count()
    ensures { (xs ys : List ℕ) → IsPermutation xs ys → fold_of xs ≡ fold_of ys }
{}

/// No reached number is above `max`, and a `max` above 0 is one of them.
pub fn max_is_greatest()
    ensures bound { (values : List ℕ) → All (λ x. x ≤ (fold_of values).max) (reached_of values) }
    ensures among { (values : List ℕ) → 0 < (fold_of values).max →
        Contains (reached_of values) (fold_of values).max }
{}

/// No more numbers are reached than there are, and their sum is at most a bound for each of them.
/// So folds of parts of a graph may be merged.
pub fn folds_are_bounded()
    ensures reached { (values : List ℕ) → (fold_of values).reached ≤ length values }
    ensures sum { (values : List ℕ) (bound : ℕ) → All (λ x. x ≤ bound) values →
        (fold_of values).sum ≤ length values * bound }
{}
