// Laws on the states of a ring.
ghost use Rattle.std.specs.Prelude.{ℕ, List};
ghost use Rattle.fl_ring.specs.Laws.{StepsAreTheModels, BlankIsFresh};
ghost use Rattle.fl_ring.specs.Ring.{Shape, RingState, IsShape};
ghost use Rattle.fl_ring.specs.Wear.{WearsAlike};
ghost use Rattle.fl_ring.specs.Worn.{CallsWearAlike, QuietMountsEraseNothing};

/// The steps of a ring are those of the store's model, which has the counts of records in place of the pages.
pub fn steps_are_the_models()
    ensures { (r : Shape) → (count_of : List ℕ → ℕ) → (s : RingState) → StepsAreTheModels r count_of s }
{}

/// Blank pages are a new ring.
pub fn blank_is_fresh()
    ensures { (r : Shape) → (page : ℕ → List ℕ) → IsShape r → BlankIsFresh r page }
{}

/// The blocks of a ring wear alike: after any seals that were all done, the numbers of erases of two blocks differ by
/// at most one.
pub fn blocks_wear_alike()
    ensures { WearsAlike }
{}

/// The blocks of a ring wear alike over its calls: from a new ring on, as long as each seal and each mount ends well, the erases
/// that they make are of each block as often as of any other one, but for one more at most.
pub fn calls_wear_alike()
    ensures { CallsWearAlike }
{}

/// A mount erases nothing if no page is torn and no block waits for its erase.
pub fn quiet_mounts_erase_nothing()
    ensures { QuietMountsEraseNothing }
{}
