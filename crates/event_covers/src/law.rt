//! Laws of values and of bodies: what is known stays right, whatever an unknown bit is.

ghost use Rattle.rtl_flat.specs.Flats.{Flat};
ghost use Rattle.event_covers.specs.Covers.{BodiesMay, ValuesMay};

/// The value of an expression without `===` may be its value from what the signals may be.
pub fn values_may()
    ensures { (d : Flat) → ValuesMay d }
{}

/// Two runs of a body, of which one starts from what the other's values may be, go the same way and may make the same,
/// where they agree on what decides and the first writes nothing at once that decides.
pub fn bodies_may()
    ensures { (d : Flat) → BodiesMay d }
{}
