//! What follows where a rule has no finding, a law for each rule.

ghost use Rattle.rtl_flat.specs.Flats.{Flat};
ghost use Rattle.check_laws.specs.Cases.{FullCase, ParallelCase};
ghost use Rattle.check_laws.specs.Clocks.{AsyncPair, DerivedClock, DerivedClockOnce};
ghost use Rattle.check_laws.specs.Designs.{BlockingState, CombLoop, CombLoopAlone, LatchesDecided, LatchInferred, MixedAssign, MixedEdges, NeverWakes, NonblockingComb, SenseMissing, SeveralDrivers, TemporariesDecided, Undriven};
ghost use Rattle.check_laws.specs.Expressions.{DivideVariable, ExclusiveBodies, FirmAssigns, SelectRange, StoredAreMarked, TameBodies, Tristate, UnknownLiteral};
ghost use Rattle.check_laws.specs.Targets.{SelectTargets};

/// S1: where no signal is missing in lists, a body lists each bit that it reads outside.
pub fn sense_missing()
    ensures { (d : Flat) → SenseMissing d }
{}

/// S2: a body without edges lists a bit that can wake it.
pub fn never_wakes()
    ensures { (d : Flat) → NeverWakes d }
{}

/// S3: events beside an edge are edges too.
pub fn mixed_edges()
    ensures { (d : Flat) → MixedEdges d }
{}

/// A1: what a body that waits for edges writes by blocking assignments are its temporaries.
pub fn blocking_state()
    ensures { (d : Flat) → BlockingState d }
{}

/// A2: a body without edges has no nonblocking assignment.
pub fn nonblocking_comb()
    ensures { (d : Flat) → NonblockingComb d }
{}

/// A3: no bit is written in both ways.
pub fn mixed_assign()
    ensures { (d : Flat) → MixedAssign d }
{}

/// A4: a bit is written by one process alone.
pub fn several_drivers()
    ensures { (d : Flat) → SeveralDrivers d }
{}

/// A5: each bit that lasts is an input's or a register's, or is computed.
pub fn undriven()
    ensures { (d : Flat) → Undriven d }
{}

/// A6: no process is on a cycle of the level graph or behind one.
pub fn comb_loop()
    ensures { (d : Flat) → CombLoop d }
{}

/// A6: a body without edges reads outside nothing that it may write.
pub fn comb_loop_alone()
    ensures { (d : Flat) → CombLoopAlone d }
{}

/// In a design whose latches with gates are listed it is decided which processes are such.
pub fn latches_decided()
    ensures { (d : Flat) → LatchesDecided d }
{}

/// L1: what a body without edges may write it writes on every path, or it is a latch with a gate from outside.
pub fn latch_inferred()
    ensures { (d : Flat) → LatchInferred d }
{}

/// C1: a case with `full_case` and no `default` is complete by its labels.
pub fn full_case()
    ensures { (d : Flat) → FullCase d }
{}

/// C2: the items of a case with `parallel_case` are disjoint.
pub fn parallel_case()
    ensures { (d : Flat) → ParallelCase d }
{}

/// X1: no literal has an x, but for labels that are one.
pub fn unknown_literal()
    ensures { (d : Flat) → UnknownLiteral d }
{}

/// Z1: none has a z.
pub fn tristate()
    ensures { (d : Flat) → Tristate d }
{}

/// X2: each bit-select has its bit whatever the index is.
pub fn select_range()
    ensures { (d : Flat) → SelectRange d }
{}

/// X3: each divisor is a power of two.
pub fn divide_variable()
    ensures { (d : Flat) → DivideVariable d }
{}

/// The expressions of stored processes have a width, a sign and a place at each operand.
pub fn stored()
    ensures { (d : Flat) → StoredAreMarked d }
{}

/// With these a continuous assignment has a known value where signals are known.
pub fn firm_assigns()
    ensures { (d : Flat) → FirmAssigns d }
{}

/// And each body is tame.
pub fn tame_bodies()
    ensures { (d : Flat) → TameBodies d }
{}

/// And of a case with `parallel_case` at most one item matches.
pub fn exclusive_bodies()
    ensures { (d : Flat) → ExclusiveBodies d }
{}

/// In a lawful design it is decided which signals are temporaries.
pub fn temporaries_decided()
    ensures { (d : Flat) → TemporariesDecided d }
{}

/// A7: clocks and resets come from top inputs, where it is decided which signals do.
pub fn derived_clock()
    ensures { (d : Flat) → DerivedClock d }
{}

/// A7: no two items of a list come from one top input.
pub fn derived_clock_once()
    ensures { (d : Flat) → DerivedClockOnce d }
{}

/// X2: each nonblocking assignment of a body may write some bit.
pub fn select_targets()
    ensures { (d : Flat) → SelectTargets d }
{}

/// R3: a process has one reset at most.
pub fn async_pair()
    ensures { (d : Flat) → AsyncPair d }
{}
