//! Laws of rounds.

ghost use Rattle.std.specs.Prelude.{ℕ};
ghost use Rattle.rtl_flat.specs.Flats.{Flat};
ghost use Rattle.net_rest.specs.Rest.{IsSolvable};
ghost use Rattle.sign_cycles.specs.PowerUp.{CanAllWake};
ghost use Rattle.sign_cycles.specs.RoundLaws.{Agree, Arrive, ArrivedFollow, BringsUp, SettledForBoth};
ghost use Rattle.sign_cycles.specs.Round.{HasNoClock, HasNoLatch};

/// A round from a settled state that comes to rest leaves each process without edges in agreement with its bits.
pub fn arrive()
    ensures { (d : Flat) (level : ℕ → ℕ) → IsSolvable d level → Arrive d }
{}

/// Such a state shows the one solution of the equations, with the registers and closed latches that it has.
pub fn arrived_follow()
    ensures { (d : Flat) (level : ℕ → ℕ) → IsSolvable d level → ArrivedFollow d }
{}

/// Without clocks and latches every round of every list shows the one solution.
pub fn agree()
    ensures { (d : Flat) (level : ℕ → ℕ) → IsSolvable d level → HasNoClock d → HasNoLatch d → Agree d }
{}

/// Rounds from power-up that set every input bring a design up, where its registers and closed latches are known then.
pub fn brings_up()
    ensures { (d : Flat) (level : ℕ → ℕ) → IsSolvable d level → CanAllWake d → BringsUp d }
{}

/// A state that is settled for one fill is settled for the other.
pub fn settled_both()
    ensures { (d : Flat) (level : ℕ → ℕ) → IsSolvable d level → SettledForBoth d }
{}
