//! What follows where rules about a clocked process have no finding.

ghost use Rattle.rtl_flat.specs.Flats.{Flat};
ghost use Rattle.chain_laws.specs.Chained.{ChainsHold};

/// A process that waits for edges alone, and whose body is a chain of resets, each tested at the
/// level that its edge goes to, has an `if` for each reset, with a test that is true just where the
/// reset is active.
pub fn chains_hold()
    ensures { (d : Flat) → ChainsHold d }
{}
