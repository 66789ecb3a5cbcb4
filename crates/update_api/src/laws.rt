//! Laws about updates. Each is the contract of a function that does nothing.
ghost use Rattle.std.specs.Prelude.{◌≡◌, ◌≢◌, ℕ, List};
ghost use Rattle.update_api.specs.LeastFree.{IsLeastFree};
ghost use Rattle.update_api.specs.Near.{Near};
ghost use Rattle.update_api.specs.Supported.{IsGreatestSupported};
ghost use Rattle.update_api.specs.Updates.{update_of_colours, update_of_cores};

/// A vertex without a colour gets the least number from 1 that none of its neighbours has, and one
/// with a colour keeps it.
pub fn colours_take_the_least_free_number()
    ensures uncoloured { (nears : List Near) →
        IsLeastFree nears (update_of_colours.number 0 nears) }
    ensures kept { (own : ℕ) (nears : List Near) → own ≢ 0 →
        update_of_colours.number own nears ≡ own }
{}

/// A core number falls to the greatest number that is not above it and that so many neighbours
/// reach.
pub fn cores_take_the_greatest_supported_number()
    ensures { (own : ℕ) (nears : List Near) →
        IsGreatestSupported own nears (update_of_cores.number own nears) }
{}
