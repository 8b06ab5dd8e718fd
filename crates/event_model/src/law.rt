//! What holds of all runs of a policy.

ghost use Rattle.std.specs.Prelude.{ℕ, Option};
ghost use Rattle.event_model.specs.declared.policy.Policy.{Policy};
ghost use Rattle.event_model.specs.Queue.{State, IsAtRest, Reaches};
ghost use Rattle.rtl_flat.specs.Flats.{Flat};
ghost use Rattle.event_model.specs.Order.{HasAll, HasAllActive, IsReady};
ghost use Rattle.event_model.specs.Policies.{IsDone, PolicyRun};

/// What a policy does is a run of the queue.
pub fn policies_run()
    ensures { (policy : Policy) (level : ℕ → Option ℕ) (d : Flat) (s t : State) (spent : ℕ)
        → PolicyRun policy level d s spent t → Reaches d s t }
{}

/// Where a policy finds no more to do, no event is left: nonblocking updates became active as soon as nothing else was.
pub fn policies_rest()
    ensures { (policy : Policy) (level : ℕ → Option ℕ) (d : Flat) (s t : State) (spent : ℕ)
        → IsReady d s → PolicyRun policy level d s spent t → IsDone policy level d t
        → IsAtRest d t }
{}

/// The list of active events has just the active events that may be taken.
pub fn active_are_there()
    ensures { (d : Flat) (s : State) → HasAllActive d s }
{}

/// Where nonblocking updates became active as soon as nothing else was, it has all events that may be taken.
pub fn ready_has_all()
    ensures { (d : Flat) (s : State) → IsReady d s → HasAll d s }
{}
