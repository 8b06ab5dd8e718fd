//! What holds of all libraries that have what a top uses. Each function is a law: it does nothing, and its contract speaks of
//! all libraries.

ghost use Rattle.std.specs.Prelude.{◌≡◌, ℕ, List};
ghost use Rattle.rtl_elab.specs.elab_walk.Visits.{Library};
ghost use Rattle.rtl_elab.specs.Elaborated.{elaborated};
ghost use Rattle.elab_names.specs.Extracts.{IsStill, extract};
ghost use Rattle.elab_names.specs.LookUps.{AreUsed, looked_up};

/// Where all that a top used of a library is still there, elaboration makes the same of it.
pub fn same_design()
    ensures { (first second : Library) (top : List ℕ) (numbers others : List ℕ)
        → AreUsed first top numbers → IsStill first second top numbers others
        → elaborated (extract others second) top ≡ elaborated (extract numbers first) top }
{}

/// The files that it used are those that it uses still.
pub fn same_files()
    ensures { (first second : Library) (top : List ℕ) (numbers others : List ℕ)
        → AreUsed first top numbers → IsStill first second top numbers others
        → AreUsed second top others }
{}

/// A top looks up the same names in the files that it uses as among all.
pub fn same_names()
    ensures { (library : Library) (top : List ℕ) (numbers : List ℕ) → AreUsed library top numbers
        → looked_up (extract numbers library) top ≡ looked_up library top }
{}
