//! Laws of values at rest that may be unknown.

ghost use Rattle.std.specs.Prelude.{ℕ};
ghost use Rattle.rtl_flat.specs.Flats.{Flat};
ghost use Rattle.net_rest.specs.Rest.{IsSolvable};
ghost use Rattle.net_covers.specs.Marks.{RestsMay};

/// Values at rest tell the numbers of each solution that inputs, registers and closed latches tell.
pub fn rests_may()
    ensures { (d : Flat) (level : ℕ → ℕ) → IsSolvable d level → RestsMay d }
{}
