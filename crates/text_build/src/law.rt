//! What the builder reads as an expression is spelled as one, and proper modules that it reads of a text are spelled by it.

ghost use Rattle.text_build.specs.Certain.{ReadingsAreCertain};
ghost use Rattle.text_build.specs.Shallow.{ShallowIsNotTooDeep};
ghost use Rattle.text_build.specs.Sound.{ExpressionsAreSound};
ghost use Rattle.text_build.specs.Whole.{TextsAreSound};

/// What is read as an expression is one.
pub fn expressions()
    ensures { ExpressionsAreSound }
{}

/// Proper modules that are read of a text with no attributes are spelled by it.
pub fn texts()
    ensures { TextsAreSound }
{}

/// Modules that are shallow enough hold nothing that is nested too deep.
pub fn shallow()
    ensures { ShallowIsNotTooDeep }
{}

/// Proper modules that are read of an ordinary text are spelled by it, and hold nothing that is nested too deep.
pub fn certain()
    ensures { ReadingsAreCertain }
{}
