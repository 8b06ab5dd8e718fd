//! Laws of steps.

ghost use Rattle.rtl_flat.specs.Flats.{Flat};
ghost use Rattle.net_settle.specs.Laws.{AreCarried, MakeCycles};

/// In each solution what is behind a signal of one bit by plain connections has its number.
pub fn carried()
    ensures { (d : Flat) → AreCarried d }
{}

/// A solution for the inputs after a step, with what registers take, has the numbers after the step.
pub fn cycle()
    ensures { (d : Flat) → MakeCycles d }
{}
