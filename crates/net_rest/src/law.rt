//! Laws of values at rest.

ghost use Rattle.std.specs.Prelude.{ℕ};
ghost use Rattle.rtl_flat.specs.Flats.{Flat};
ghost use Rattle.net_rest.specs.Laws.{AreAlone, AreKnownAtRest, AreSolved, LevelsAscend, SolutionsRest};
ghost use Rattle.net_rest.specs.Rest.{IsSolvable};

/// Values at rest are known.
pub fn known_at_rest()
    ensures { (d : Flat) (level : ℕ → ℕ) → IsSolvable d level → AreKnownAtRest d }
{}

/// Values at rest solve the equations.
pub fn solved()
    ensures { (d : Flat) (level : ℕ → ℕ) → IsSolvable d level → AreSolved d }
{}

/// Solutions that are given alike are alike.
pub fn alone()
    ensures { (d : Flat) (level : ℕ → ℕ) → IsSolvable d level → AreAlone d }
{}

/// Solutions are at rest.
pub fn solutions_rest()
    ensures { (d : Flat) (level : ℕ → ℕ) → IsSolvable d level → SolutionsRest d }
{}

/// Where each process without edges has a level, levels order processes.
pub fn levels_ascend()
    ensures { (d : Flat) → LevelsAscend d }
{}
