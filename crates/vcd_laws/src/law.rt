//! Each function is a law: it answers nothing, and its contract speaks of all inputs.

ghost use Rattle.rtl_flat.specs.Flats.{Flat};
ghost use Rattle.vcd_laws.specs.Laws.{FaultOnce, VerdictOnce, VerdictOrFault};

/// A dump of a design has one verdict: design, scope and dump settle it.
pub fn one_verdict()
    ensures { (d : Flat) → VerdictOnce d }
{}

/// Where it has one, there is no fault but want of memory.
pub fn verdict_or_fault()
    ensures { (d : Flat) → VerdictOrFault d }
{}

/// Where it has none there is one reason, but for want of memory.
pub fn one_fault()
    ensures { (d : Flat) → FaultOnce d }
{}
