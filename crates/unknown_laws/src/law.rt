//! What follows where no rule on unknown values has a finding.

ghost use Rattle.rtl_flat.specs.Flats.{Flat, Parts};
ghost use Rattle.unknown_laws.specs.Doubt.{ConeIsSure, DoubtfulAreMarks, FreeTellsNone, InputsAreSure, MarkedAreMarks, RegistersAreReset};

/// A design without findings of X4, U1 and U2 tells no unknown value from a known one.
pub fn free_tells_none()
    ensures { (d : Parts) → FreeTellsNone d }
{}

/// In such a design doubtful signals are marks that spread with what processes read, and none of them decides.
pub fn doubtful_marks()
    ensures { (d : Flat) → DoubtfulAreMarks d }
{}

/// And so are all marks of just these signals.
pub fn marked_marks()
    ensures { (d : Flat) → MarkedAreMarks d }
{}

/// A process that may write a register which isn't doubtful has a reset.
pub fn registers_reset()
    ensures { (d : Flat) → RegistersAreReset d }
{}

/// A4: no top input is doubtful, and nothing that is reached from one through input ports.
pub fn inputs_sure()
    ensures { (d : Flat) → InputsAreSure d }
{}

/// So it is with what clocks, resets and gates come to.
pub fn cone_sure()
    ensures { (d : Flat) → ConeIsSure d }
{}
