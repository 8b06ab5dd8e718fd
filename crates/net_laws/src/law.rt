//! Laws of synthesised numbers beside simulated values.

ghost use Rattle.rtl_flat.specs.Flats.{Flat};
ghost use Rattle.net_laws.specs.Laws.{AreCovered, AreExact, BlockDepends, BlockIs, BlocksAreKnown, ClockedIs, DigitsAreKnown, FillsAgree, LateIs, LeaveNumbers, StartDepends, TakePaths, TameDepends};
ghost use Rattle.net_laws.specs.Rules.{ExclusiveByRules, FirmByRules, TameByRules};

/// Where signals are known the value of a firm expression is known, and is its number with either fill.
pub fn exact()
    ensures { (d : Flat) → AreExact d }
{}

/// Of a case that is complete by its labels an item matches, where signals are known.
pub fn covered()
    ensures { (d : Flat) → AreCovered d }
{}

/// From known values the run of a tame body takes a path of the body.
pub fn whole_path()
    ensures { (d : Flat) → TakePaths d }
{}

/// From known values a tame body makes known values.
pub fn numbers_after()
    ensures { (d : Flat) → LeaveNumbers d }
{}

/// From known values the function of a tame body gives what a run makes, late writes last.
pub fn clocked_is()
    ensures { (d : Flat) → ClockedIs d }
{}

/// It gives the last of a bit's late writes, or else what is written at once.
pub fn late_is()
    ensures { (d : Flat) → LateIs d }
{}

/// With blocking assignments alone it gives what the run makes at once.
pub fn block_is()
    ensures { (d : Flat) → BlockIs d }
{}

/// The function of a tame body is the same with both fills.
pub fn fills_agree()
    ensures { (d : Flat) → FillsAgree d }
{}

/// What the function of a tame body gives to a bit that every path writes depends on what it reads outside alone.
pub fn tame_depends()
    ensures { (d : Flat) → TameDepends d }
{}

/// The number of any sized expression has a digit for each of its bits.
pub fn digits_known()
    ensures { (d : Flat) → DigitsAreKnown d }
{}

/// The function of any body gives digits.
pub fn block_known()
    ensures { (d : Flat) → BlocksAreKnown d }
{}

/// The function of any body depends on what it reads outside and on what it may write.
pub fn block_depends()
    ensures { (d : Flat) → BlockDepends d }
{}

/// In a design's equations it depends on its own bits as they are held, and on the others that it reads outside.
pub fn start_depends()
    ensures { (d : Flat) → StartDepends d }
{}

/// An expression without a finding of X1, Z1, X2 or X3 is firm.
pub fn firm()
    ensures { (d : Flat) → FirmByRules d }
{}

/// A body without a finding of those or of C1 is tame.
pub fn tame()
    ensures { (d : Flat) → TameByRules d }
{}

/// Where C2 finds nothing, at most one item of a case that says `parallel_case` matches.
pub fn exclusive()
    ensures { (d : Flat) → ExclusiveByRules d }
{}
