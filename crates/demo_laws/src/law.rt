//! Each function is a law: it answers nothing, and its contract speaks of all inputs.

ghost use Rattle.rtl_flat.specs.Flats.{Flat};
ghost use Rattle.demo_laws.specs.Lasting.{LastingDepends};
ghost use Rattle.demo_laws.specs.Laws.{FaultOnce, FirstOnce, ReplayOnce, ReplayOrFault};

/// What the function of a body gives to a bit that lasts is the same, whatever numbers temporaries
/// have.
pub fn lasting_depends()
    ensures { (d : Flat) → LastingDepends d }
{}

/// Trials of a design show one first difference for a finding, or for it none.
pub fn one_first()
    ensures { (d : Flat) → FirstOnce d }
{}

/// A demonstration that is run again shows one pair of values.
pub fn one_replay()
    ensures { (d : Flat) → ReplayOnce d }
{}

/// Where it shows them, there is no fault but want of memory.
pub fn replay_or_fault()
    ensures { (d : Flat) → ReplayOrFault d }
{}

/// Where it shows nothing there is one reason, but for want of memory.
pub fn one_fault()
    ensures { (d : Flat) → FaultOnce d }
{}
