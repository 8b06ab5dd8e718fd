//! A law of path sets.

ghost use Rattle.std.specs.Prelude.{ℕ};
ghost use Rattle.rtl_flat.specs.Paths.{Flow, AreDecided};

/// Path sets are decided by recursion on the body: a bit is in one of them exactly where its test,
/// which follows the statements, says so.
pub fn path_sets()
    ensures { (flow : Flow) (s k : ℕ) → AreDecided flow s k }
{}
