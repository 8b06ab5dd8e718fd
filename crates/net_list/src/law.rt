//! What follows for a design of which registers and blocks are inferred.

ghost use Rattle.rtl_flat.specs.declared.design.Design.{Design};
ghost use Rattle.rtl_flat.specs.Flats.{flat, Flat};
ghost use Rattle.net_model.specs.Cycle.{AreChains};
ghost use Rattle.net_list.specs.Chosen.{chains_of};
ghost use Rattle.net_list.specs.Faults.{AreAlone, AreApart, AreFormed};

/// No bit may be written by two processes.
pub fn apart()
    ensures { (d : Flat) → AreFormed d → AreAlone d → AreApart d }
{}

/// Each process that waits for edges is one `if` for each of its resets, with a test that is true
/// just where the reset is active, and the event that is left is its clock.
pub fn chains()
    ensures { (design : Design) → AreFormed (flat design)
        → AreChains (flat design) (chains_of (flat design)) }
{}
