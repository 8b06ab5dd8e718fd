//! How the policy that goes by level settles a design, and how its runs end, in whatever order events are taken.

ghost use Rattle.std.specs.Prelude.{ℕ, Option};
ghost use Rattle.rtl_flat.specs.Flats.{Flat};
ghost use Rattle.net_model.specs.Control.{InClockCone};
ghost use Rattle.event_runs.specs.event_laws.Steady.{AreLawful};
ghost use Rattle.event_settling.specs.Conditions.{AreRulesKept};
ghost use Rattle.event_settling.specs.Ending.{Ends, PoliciesRest, StepsStart, StopsAtRest};
ghost use Rattle.event_settling.specs.Settling.{AlwaysSettles, IsSettling, Rests, Settles, StepsBegin};

/// What the rules give of levels, of what blocks write, and of clocks and resets makes a design settle.
pub fn rules_settle()
    ensures { (d : Flat) (level : ℕ → Option ℕ) → AreLawful d → AreRulesKept d level
        → IsSettling d level (InClockCone d) }
{}

/// From where a step may begin, the next event never costs more than is left of the budget.
pub fn settles()
    ensures { (d : Flat) (level : ℕ → Option ℕ) → AreLawful d → IsSettling d level (InClockCone d)
        → Settles d level }
{}

/// A run comes to where no event is left, within the budget.
pub fn rests()
    ensures { (d : Flat) (level : ℕ → Option ℕ) → AreLawful d → IsSettling d level (InClockCone d)
        → Rests d level }
{}

/// From power-up, each step begins where that holds, whatever steps came before it.
pub fn steps_begin()
    ensures { (d : Flat) (level : ℕ → Option ℕ) → AreLawful d → IsSettling d level (InClockCone d)
        → StepsBegin d level }
{}

/// From power-up, no step is ever stopped for what an event costs.
pub fn always_settled()
    ensures { (d : Flat) (level : ℕ → Option ℕ) → AreLawful d → IsSettling d level (InClockCone d)
        → AlwaysSettles d level }
{}

/// Where no event is left, the queue is at rest.
pub fn stops_at_rest()
    ensures { (d : Flat) → StopsAtRest d }
{}

/// Steps start at power-up, at settled states, and where the run of an earlier step has come to
/// rest.
pub fn steps_start()
    ensures { (d : Flat) → AreLawful d → StepsStart d }
{}

/// From where a step starts, the design bounds how many events a run has: whoever takes events as
/// long as any is there comes to rest.
pub fn ends()
    ensures { (d : Flat) (level : ℕ → Option ℕ) → AreLawful d → IsSettling d level (InClockCone d)
        → Ends d }
{}

/// In each of its orders the desk's simulator comes to where no event is left, whatever that costs.
pub fn policies_rest()
    ensures { (d : Flat) (level : ℕ → Option ℕ) → AreLawful d → IsSettling d level (InClockCone d)
        → PoliciesRest d }
{}
