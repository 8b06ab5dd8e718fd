//! Laws of where simulation from unknown values starts.

ghost use Rattle.std.specs.Prelude.{ℕ};
ghost use Rattle.rtl_flat.specs.Flats.{Flat};
ghost use Rattle.net_model.specs.Cycle.{Chain};
ghost use Rattle.sign_unknown.specs.sign_cycles.Formed.{IsCleanClocked};
ghost use Rattle.unknown_starts.specs.Starts.{ChoicesAlone, CompletesClean};

/// A settled state has numbers, whatever the unknown bits of its registers and of its closed latches are taken for.
pub fn completes()
    ensures { (d : Flat) (chains : ℕ → Chain) (level : ℕ → ℕ) → CompletesClean d chains level }
{}

/// No other choices have numbers.
pub fn choices_alone()
    ensures { (d : Flat) (chains : ℕ → Chain) (level : ℕ → ℕ) → IsCleanClocked d chains level → ChoicesAlone d chains }
{}
