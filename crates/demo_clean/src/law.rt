//! A law: it answers nothing, and its contract speaks of all inputs.

ghost use Rattle.rtl_flat.specs.declared.design.Design.{Design};
ghost use Rattle.demo_clean.specs.Unshown.{NoneShown};

/// Where no finding of a design is of a rule that agreement stands on, no trial of it shows a
/// difference.
pub fn none_shown()
    ensures { (design : Design) → NoneShown design }
{}
