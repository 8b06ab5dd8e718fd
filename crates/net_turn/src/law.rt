//! What is inferred of a design says what the laws of solutions ask.

ghost use Rattle.std.specs.Prelude.{ℕ, List};
ghost use Rattle.std.specs.List.{All};
ghost use Rattle.rtl_flat.specs.declared.design.Design.{Design};
ghost use Rattle.rtl_flat.specs.Flats.{flat};
ghost use Rattle.net_model.specs.Control.{IsBehind};
ghost use Rattle.net_model.specs.Gates.{ComesFrom};
ghost use Rattle.net_list.specs.declared.clocked.Clocked.{Clocked};
ghost use Rattle.net_list.specs.Chosen.{AreClocked, chains_of};
ghost use Rattle.net_list.specs.Faults as faults;
ghost use Rattle.net_list.specs.Faults.{AreFormed};
ghost use Rattle.net_settle.specs.net_solve.Laws.{AreApart};
ghost use Rattle.net_turn.specs.Sources.{AreSources, CanRun};

/// Where no bit has two drivers among those that are inferred, no two processes may write one.
pub fn apart()
    ensures { (design : Design) → faults.AreApart (flat design) → AreApart (flat design) }
{}

/// A signal that comes from a top input by plain connections is behind it by links.
pub fn behind()
    ensures { (design : Design) (top i : ℕ) → ComesFrom (flat design) top i →
        IsBehind (flat design) top i }
{}

/// Chains that are inferred are those of the processes that wait for edges, each once, with the top inputs that their
/// clocks and resets come from.
pub fn sources()
    ensures { (design : Design) (all : List Clocked) → AreFormed (flat design) →
        AreClocked (flat design) all → AreSources (flat design) (chains_of (flat design)) all }
{}

/// What they may run is lawful, and has room.
pub fn can_run()
    ensures { (design : Design) (all : List Clocked) → AreFormed (flat design) →
        AreClocked (flat design) all → All (CanRun design) all }
{}
