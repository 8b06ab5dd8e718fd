//! Laws of lists of steps.

ghost use Rattle.std.specs.Prelude.{ℕ};
ghost use Rattle.rtl_flat.specs.Flats.{Flat};
ghost use Rattle.net_model.specs.declared.fill.Fill.{Fill};
ghost use Rattle.net_model.specs.Cycle.{Chain};
ghost use Rattle.net_rest.specs.Rest.{IsSolvable};
ghost use Rattle.sign_cycles.specs.Agree.{Agree};
ghost use Rattle.sign_cycles.specs.Beside.{BenchesAgreeClean, BesideFollows};
ghost use Rattle.sign_cycles.specs.Formed.{IsCleanClocked};
ghost use Rattle.sign_cycles.specs.Known.{KnownSettlesClean};
ghost use Rattle.sign_cycles.specs.Lacking.{AreGatesDecided, BringUpsAre};
ghost use Rattle.sign_cycles.specs.Laws.{BringsUpClean, DataFollows, DataStaysKnown, KnownForBoth, RegistersAre, SettlesBoth, StepsAreAlone, StepsFollow, TurnsFollow};
ghost use Rattle.sign_cycles.specs.Unfired.{UnfiredAgree};

/// Where each step from a settled state leads to numbers that follow, and to no others, all lists of steps agree.
pub fn agree_by_steps()
    ensures { (d : Flat) (chains : ℕ → Chain) (f : Fill) → StepsFollow d chains f
        → StepsAreAlone d chains f → Agree d chains f }
{}

/// In a clean design each step of data from a settled state leads to states that show numbers which follow, with all
/// registers and all closed latches as they were.
pub fn data_follows()
    ensures { (d : Flat) (chains : ℕ → Chain) (level : ℕ → ℕ) → IsCleanClocked d chains level
        → (f : Fill) → DataFollows d chains f }
{}

/// Registers whose resets are active have their constants after such a step, too.
pub fn data_known()
    ensures { (d : Flat) (chains : ℕ → Chain) (level : ℕ → ℕ) → IsCleanClocked d chains level
        → (f : Fill) → DataStaysKnown d chains f }
{}

/// At rest after a step of one clock or reset each register bit is what synthesis gives to it.
pub fn register_is()
    ensures { (d : Flat) (chains : ℕ → Chain) (level : ℕ → ℕ) → IsCleanClocked d chains level
        → (f : Fill) → RegistersAre d chains f }
{}

/// Each step of one clock or reset leads to settled states that show numbers which follow.
pub fn turns_follow()
    ensures { (d : Flat) (chains : ℕ → Chain) (level : ℕ → ℕ) → IsCleanClocked d chains level
        → (f : Fill) → TurnsFollow d chains f }
{}

/// So does each lawful step.
pub fn steps_follow()
    ensures { (d : Flat) (chains : ℕ → Chain) (level : ℕ → ℕ) → IsCleanClocked d chains level
        → (f : Fill) → StepsFollow d chains f }
{}

/// From the same numbers, but for temporaries, a step gives the same.
pub fn steps_alone()
    ensures { (d : Flat) (chains : ℕ → Chain) (level : ℕ → ℕ) → IsCleanClocked d chains level
        → (f : Fill) → StepsAreAlone d chains f }
{}

/// Over every list of lawful steps from a settled state, in every order of events, a clean design shows the numbers of its
/// synthesised meaning on outputs, registers and latches.
pub fn agreement()
    ensures { (d : Flat) (chains : ℕ → Chain) (level : ℕ → ℕ) → IsCleanClocked d chains level
        → (f : Fill) → Agree d chains f }
{}

/// Data that are given where the nonblocking updates of a turn become active, or later, lead to numbers that follow by
/// the data from those after the turn.
pub fn beside_follows()
    ensures { (d : Flat) (chains : ℕ → Chain) (level : ℕ → ℕ) → IsCleanClocked d chains level
        → (f : Fill) → BesideFollows d chains f }
{}

/// So a clean design shows the numbers of its synthesised meaning under lists of such steps among others, where
/// numbers follow by each turn.
pub fn benches_agree()
    ensures { (d : Flat) (chains : ℕ → Chain) (level : ℕ → ℕ) → BenchesAgreeClean d chains level }
{}

/// Where no clock fires, any inputs but gates may be set at any moments of one run, resets among them: every run shows the
/// numbers that the same settings give one after another, in whatever order.
pub fn unfired_agrees()
    ensures { (d : Flat) (chains : ℕ → Chain) (level : ℕ → ℕ) → IsCleanClocked d chains level
        → (f : Fill) → UnfiredAgree d chains f }
{}

/// A state that is settled for one fill is settled for the other.
pub fn settled_both()
    ensures { (d : Flat) (level : ℕ → ℕ) → IsSolvable d level → SettlesBoth d }
{}

/// The same with registers that are reset, in a clean design with clocks.
pub fn known_both()
    ensures { (d : Flat) (chains : ℕ → Chain) (level : ℕ → ℕ) → IsCleanClocked d chains level
        → KnownForBoth d chains }
{}

/// Every bring-up of a clean design, with any clocks among its inputs and in every order of events, ends in a settled state.
pub fn brings_up()
    ensures { (d : Flat) (chains : ℕ → Chain) (level : ℕ → ℕ) → BringsUpClean d chains level }
{}

/// Wherever steps from power-up come to rest with every input, every register and every latch of a clean design known, the
/// state is settled.
pub fn known_settles()
    ensures { (d : Flat) (chains : ℕ → Chain) (level : ℕ → ℕ) → KnownSettlesClean d chains level }
{}

/// A clean design has a bring-up, or an input resets one process at 1 and another at 0, and not both.
pub fn bring_ups()
    ensures { (d : Flat) (chains : ℕ → Chain) (level : ℕ → ℕ) → IsCleanClocked d chains level → AreGatesDecided d
        → BringUpsAre d chains }
{}
