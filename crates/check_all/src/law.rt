//! A law of lists of findings: it does nothing, and its contract speaks of every design.

ghost use Rattle.std.specs.Prelude.{◌≡◌, List};
ghost use Rattle.rtl_rule.specs.declared.finding.Finding.{Finding};
ghost use Rattle.rtl_flat.specs.Flats.{Parts};
ghost use Rattle.check_all.specs.Findings.{AreAllFindings};

/// A design has one list of all findings.
pub fn alone()
    ensures { (d : Parts) (one other : List Finding) → AreAllFindings d one → AreAllFindings d other
        → one ≡ other }
{}
