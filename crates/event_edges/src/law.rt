//! Laws of steps of clocks, of resets and of data, in runs of the event queue in any order.

ghost use Rattle.rtl_flat.specs.Flats.{Flat};
ghost use Rattle.event_runs.specs.event_laws.Steady.{AreLawful};
ghost use Rattle.event_edges.specs.Laws.{ActivationIsQuiet, AllTurn, DataIsQuiet, KeepsRegisters, KeepsTurning, MovesAreQuiet, MovesKeepDue, ResetsSet, RunsAreQuiet, RunsKeepTurning, SetAtRest, StepsBegin, TakesBeside, TakesEdges, TurnsCone, TurnsConeBeside};
ghost use Rattle.event_edges.specs.Levels.{UnfiredKeepDue};
ghost use Rattle.event_edges.specs.Synchronous.{IsSynchronous};

/// A step that turns one clock or reset begins a turn.
pub fn steps_begin()
    ensures { (d : Flat) → IsSynchronous d → StepsBegin d }
{}

/// Each event but the activation keeps the turn: nothing but what is reached from the input and temporaries of bodies
/// changes, what is reached turns once, and a body that has run isn't woken again.
pub fn turning_after()
    ensures { (d : Flat) → IsSynchronous d → KeepsTurning d }
{}

/// Each run without an activation keeps the turn.
pub fn turning_run()
    ensures { (d : Flat) → IsSynchronous d → RunsKeepTurning d }
{}

/// Once no event is active, all that is reached from the input has turned.
pub fn all_turned()
    ensures { (d : Flat) → IsSynchronous d → AllTurn d }
{}

/// The activation of nonblocking updates leads to a quiet state.
pub fn activation_quiet()
    ensures { (d : Flat) → ActivationIsQuiet d }
{}

/// A step of data begins in a quiet state.
pub fn data_quiet()
    ensures { (d : Flat) → IsSynchronous d → DataIsQuiet d }
{}

/// In runs from a quiet state no clock and no reset changes, and no body that waits for edges is woken.
pub fn quiet_run()
    ensures { (d : Flat) → IsSynchronous d → RunsAreQuiet d }
{}

/// So it is where data are given meanwhile.
pub fn quiet_moves()
    ensures { (d : Flat) → IsSynchronous d → MovesAreQuiet d }
{}

/// And what is due to a register stays.
pub fn due_moves()
    ensures { (d : Flat) → IsSynchronous d → MovesKeepDue d }
{}

/// At rest after a step of one clock or reset all that is reached from it has turned, and the rest of the clock cone is
/// as it was.
pub fn cone_turns()
    ensures { (d : Flat) → IsSynchronous d → TurnsCone d }
{}

/// At rest after a step of one clock or reset a register has what its body asked for from the values before it, if an
/// event of the body came, and else what it had.
pub fn at_edge()
    ensures { (d : Flat) → IsSynchronous d → TakesEdges d }
{}

/// With data given where nonblocking updates become active, or later, clocks and resets turn as without.
pub fn turned_beside()
    ensures { (d : Flat) → IsSynchronous d → TurnsConeBeside d }
{}

/// And registers take what they take without.
pub fn taken_beside()
    ensures { (d : Flat) → IsSynchronous d → TakesBeside d }
{}

/// At rest after a quiet run a register has what it had.
pub fn at_data()
    ensures { (d : Flat) → IsSynchronous d → KeepsRegisters d }
{}

/// What a reset sets is set from power-up on, and stays so in every run.
pub fn resets_set()
    ensures { (d : Flat) → AreLawful d → ResetsSet d }
{}

/// At rest a register whose reset is active has its constant.
pub fn set_at_rest()
    ensures { (d : Flat) → AreLawful d → SetAtRest d }
{}

/// Where each clock and each reset goes to one level, at whatever moments, a body none of whose events is such a turn
/// isn't woken, and what is due to its registers stays.
pub fn unfired_due()
    ensures { (d : Flat) → IsSynchronous d → UnfiredKeepDue d }
{}
