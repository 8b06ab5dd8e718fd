//! Laws of solutions.

ghost use Rattle.std.specs.Prelude.{ℕ, List};
ghost use Rattle.rtl_flat.specs.Flats.{Flat};
ghost use Rattle.net_rest.specs.event_laws.Steady.{AreLawful};
ghost use Rattle.net_solve.specs.Laws.{AreSame, Ascends, IsOrder, IsWorkable, WorkedSolve};

/// Where no process feeds itself over others, two solutions of one design that are given alike are alike.
pub fn same()
    ensures { (d : Flat) (rank : ℕ → ℕ) → AreLawful d → Ascends d rank → AreSame d }
{}

/// So it is where processes have an order.
pub fn same_in_order()
    ensures { (d : Flat) (order : List ℕ) → AreLawful d → IsOrder d order → AreSame d }
{}

/// Processes that are worked out one after another, each behind those that feed it, solve the equations.
pub fn worked()
    ensures { (d : Flat) → IsWorkable d → WorkedSolve d }
{}
