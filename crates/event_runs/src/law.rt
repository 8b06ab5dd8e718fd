//! Laws of the events of the queue, and of its runs in every lawful design.

ghost use Rattle.event_model.specs.Queue.{power_up};
ghost use Rattle.rtl_flat.specs.Flats.{Flat};
ghost use Rattle.event_model.specs.Writes.{Values};
ghost use Rattle.event_laws.specs.Steady.{AreLawful};
ghost use Rattle.event_runs.specs.Laws.{DrivenAreResolved, DriversRest, HaveEffects, IsKept, IsKeptByRuns, IsKeptByRunning, IsKeptRunning, KeepsOrder, LeavesBits, LeavesInputs, NoneAreLate, OffersGive, OffersKeepOrder, OffersLeave, RunsKeepOrder, SoleDriverGives};
ghost use Rattle.event_runs.specs.Nets.{AreOffered, AreResolved};
ghost use Rattle.event_runs.specs.Plain.{AreStill, AreUnheard};
ghost use Rattle.event_runs.specs.Writers.{IsOrderly};

/// An event that is there makes its writes and wakes who hears them.
pub fn effect()
    ensures { (d : Flat) → HaveEffects d }
{}

/// An event leaves each bit that it can't write.
pub fn untouched()
    ensures { (d : Flat) → AreLawful d → LeavesBits d }
{}

/// An event leaves each input but the one that takes its value.
pub fn input_stays()
    ensures { (d : Flat) → AreLawful d → LeavesInputs d }
{}

/// Each event keeps a state orderly.
pub fn orderly_after()
    ensures { (d : Flat) → AreLawful d → KeepsOrder d }
{}

/// Each run keeps a state orderly.
pub fn orderly_run()
    ensures { (d : Flat) → AreLawful d → RunsKeepOrder d }
{}

/// Power-up is orderly.
pub fn orderly_power_up()
    ensures { (d : Flat) → IsOrderly d (power_up d) }
{}

/// Values that are offered keep a state orderly.
pub fn orderly_offer()
    ensures { (d : Flat) → OffersKeepOrder d }
{}

/// Where no update is to be made, all are late.
pub fn late_none()
    ensures { (d : Flat) → NoneAreLate d }
{}

/// After each event, plain blocks that wait and have run are consistent.
pub fn still_after()
    ensures { (d : Flat) → AreLawful d → IsKeptRunning d (AreStill d) }
{}

/// After each run, plain blocks that wait and have run are consistent.
pub fn still_run()
    ensures { (d : Flat) → AreLawful d → IsKeptByRunning d (AreStill d) }
{}

/// After each event, blocks that wait and haven't run find what they list as it was first.
pub fn unheard_after()
    ensures { (d : Flat) → AreLawful d → (first : Values)
        → IsKeptRunning d (λ ran s. AreUnheard d ran first s) }
{}

/// After each run, blocks that wait and haven't run find what they list as it was first.
pub fn unheard_run()
    ensures { (d : Flat) → AreLawful d → (first : Values)
        → IsKeptByRunning d (λ ran s. AreUnheard d ran first s) }
{}

/// After each event, driven bits show what their drivers give together.
pub fn resolved_after()
    ensures { (d : Flat) → AreLawful d → IsKept d (AreResolved d) }
{}

/// After each run, driven bits show what their drivers give together.
pub fn resolved_run()
    ensures { (d : Flat) → AreLawful d → IsKeptByRuns d (AreResolved d) }
{}

/// At power-up, driven bits show what their drivers give together.
pub fn resolved_power_up()
    ensures { (d : Flat) → AreLawful d → AreResolved d (power_up d) }
{}

/// On a bit that one process alone may write, all drivers together give what its driver gives.
pub fn sole_driver()
    ensures { (d : Flat) → AreLawful d → SoleDriverGives d }
{}

/// Driven bits that show what drivers give together show what each gives alone, and the other way round.
pub fn driven_resolved()
    ensures { (d : Flat) → AreLawful d → DrivenAreResolved d }
{}

/// At rest a driver has the value of its expression.
pub fn driver_rests()
    ensures { (d : Flat) → DriversRest d }
{}

/// After each event, inputs come to what was offered to them.
pub fn offered_after()
    ensures { (d : Flat) → AreLawful d → (given : Values) → IsKept d (AreOffered d given) }
{}

/// After each run, inputs come to what was offered to them.
pub fn offered_run()
    ensures { (d : Flat) → AreLawful d → (given : Values) → IsKeptByRuns d (AreOffered d given) }
{}

/// Values that are offered change nothing else.
pub fn offer_leaves()
    ensures { (d : Flat) → OffersLeave d }
{}

/// Values that are offered are what inputs are given then.
pub fn offer_gives()
    ensures { (d : Flat) → OffersGive d }
{}
