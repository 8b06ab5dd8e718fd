//! How runs of one policy from one state end. Each function is a law: it answers nothing, and its contract speaks of all
//! inputs.

ghost use Rattle.rtl_flat.specs.Flats.{Flat};
ghost use Rattle.event_laws.specs.Once.{EndOnce, HaveOneLevel, StopNowhereElse};

/// A process has one level.
pub fn one_level()
    ensures { (d : Flat) → HaveOneLevel d }
{}

/// Runs of a policy from one state that find nothing more to take end in one state.
pub fn one_end()
    ensures { (d : Flat) → EndOnce d }
{}

/// Where one run finds nothing more to take within the budget, no other comes to an event that is too dear.
pub fn end_or_stop()
    ensures { (d : Flat) → StopNowhereElse d }
{}
