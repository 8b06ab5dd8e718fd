//! What a design without findings of the first grade is.

ghost use Rattle.rtl_flat.specs.Flats.{Flat, Parts};
ghost use Rattle.check_clean.specs.Benches.{BenchesByRules};
ghost use Rattle.check_clean.specs.Clean.{CleanByRules};
ghost use Rattle.check_clean.specs.Ending.{EndsByRules, FulfilledByRules, HasRunsByRules, SettledAreReached};
ghost use Rattle.check_clean.specs.Promise.{PromisedByRules, SettlesByRules};

/// In a lawful design without such findings each block that waits for edges is a register with a clock and at
/// most one reset, all else computes on levels or is a latch whose gate is used as such alone, and every block can be
/// woken: what agreement and bring-up stand on.
pub fn clean()
    ensures { (d : Parts) → CleanByRules d }
{}

/// So simulation agrees with synthesis on it in every order of events, and bring-ups end in states that agree.
pub fn promised()
    ensures { (d : Parts) → PromisedByRules d }
{}

/// And it settles by level.
pub fn settles()
    ensures { (d : Parts) → SettlesByRules d }
{}

/// Every run of every step comes to rest, in whatever order events are taken.
pub fn ends()
    ensures { (d : Parts) → EndsByRules d }
{}

/// States that are settled are among those that steps start from.
pub fn settled_reached()
    ensures { (d : Flat) → SettledAreReached d }
{}

/// So states follow from every list of steps.
pub fn states_follow()
    ensures { (d : Parts) → HasRunsByRules d }
{}

/// Those that follow from lawful steps show the numbers of the synthesised meaning; and where each
/// register has a reset, every bring-up leads to a settled state.
pub fn fulfilled()
    ensures { (d : Parts) → FulfilledByRules d }
{}

/// It agrees, too, where a test bench turns a clock or a reset and gives data beside it by nonblocking assignments,
/// and such steps end.
pub fn benches()
    ensures { (d : Parts) → BenchesByRules d }
{}
