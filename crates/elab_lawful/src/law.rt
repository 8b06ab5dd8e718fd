//! The flat design that instances without faults make is lawful.

ghost use Rattle.elab_lawful.specs.Laws.{LawfulLaw};

/// A top of whose instances nothing is told makes a flat design with all that holds of every one.
pub fn lawful()
    ensures { LawfulLaw }
{}
