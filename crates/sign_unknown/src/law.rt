//! Laws of simulation from unknown values.

ghost use Rattle.std.specs.Prelude.{ℕ};
ghost use Rattle.rtl_flat.specs.Flats.{Flat};
ghost use Rattle.net_model.specs.Cycle.{Chain};
ghost use Rattle.sign_unknown.specs.Laws.{SoundWhereRest, StepsSoundClean};

/// Over lawful steps from a settled state each known bit is the number's, for all numbers that follow from a completion.
pub fn steps_sound()
    ensures { (d : Flat) (chains : ℕ → Chain) (level : ℕ → ℕ) → StepsSoundClean d chains level }
{}

/// Where such steps can come to rest from known values, simulation is sound.
pub fn sound_where_rest()
    ensures { (d : Flat) (chains : ℕ → Chain) (level : ℕ → ℕ) → SoundWhereRest d chains level }
{}
