//! Laws of gates of latches, in runs of the event queue in any order.

ghost use Rattle.rtl_flat.specs.Flats.{Flat};
ghost use Rattle.event_edges.specs.event_laws.Steady.{AreLawful};
ghost use Rattle.event_edges.specs.Synchronous.{IsSynchronous};
ghost use Rattle.event_gates.specs.Closing.{Closes};
ghost use Rattle.event_gates.specs.Fixed.{BesideFixes, MovesFix, RestIsFixed, RunsFix};

/// A step that closes a gate changes nothing but what is reached from its input.
pub fn closes()
    ensures { (d : Flat) → IsSynchronous d → Closes d }
{}

/// At rest an input that isn't set is fixed.
pub fn rest_fixed()
    ensures { (d : Flat) → AreLawful d → RestIsFixed d }
{}

/// What is reached from a fixed input stays, and so do latches that it closes.
pub fn runs_fix()
    ensures { (d : Flat) → AreLawful d → RunsFix d }
{}

/// So it is where other inputs are set meanwhile.
pub fn moves_fix()
    ensures { (d : Flat) → AreLawful d → MovesFix d }
{}

/// And where data are given beside a turn of a clock or a reset.
pub fn beside_fixes()
    ensures { (d : Flat) → AreLawful d → BesideFixes d }
{}
