//! Values keep their widths, and continuous assignments that wait are up to date.

ghost use Rattle.std.specs.Prelude.{ℕ, List, length, Option, Some, ◌≤◌};
ghost use Rattle.std.specs.List.{All};
ghost use Rattle.rtl_bits.specs.declared.Bit.{Bit};
ghost use Rattle.rtl_flat.specs.WellFormed.{IsProcess};
ghost use Rattle.event_model.specs.Writes.{Values, put};
ghost use Rattle.event_model.specs.Queue.{State, Event, after, power_up, run, settled_at, CanRun, IsThere};
ghost use Rattle.rtl_flat.specs.Flats.{Flat, widths};
ghost use Rattle.event_laws.specs.Steady.{AreLawful, HaveWidths, IsSteady};

/// Each event keeps a state steady.
pub fn steady_after()
    ensures { (d : Flat) → AreLawful d → (s : State) (event : Event) → IsThere d s event
        → IsSteady d s → IsSteady d (after d s event) }
{}

/// Each run keeps a state steady.
pub fn steady_run()
    ensures { (d : Flat) → AreLawful d → (s : State) (events : List Event) → CanRun d s events
        → IsSteady d s → IsSteady d (run d s events) }
{}

/// Power-up is steady.
pub fn steady_power_up()
    ensures { (d : Flat) → IsSteady d (power_up d) }
{}

/// A settled state is steady where each of its values has its signal's width.
pub fn steady_settled()
    ensures { (d : Flat) (v : Values) → HaveWidths d v → IsSteady d (settled_at d v) }
{}

/// An offered value that isn't too long keeps a state steady.
pub fn steady_offer()
    ensures { (d : Flat) (s : State) (i : ℕ) (bits : List Bit) → length bits ≤ widths d i →
        IsSteady d s → IsSteady d (record s { offered = put s.offered i (Some bits) }) }
{}

/// The processes of a flat design are lawful.
pub fn lawful_processes()
    ensures { (d : Flat) → All (λ one. IsProcess d.signals one.does) d.tasks → AreLawful d }
{}
