//! Laws of what a body makes in one run.

ghost use Rattle.rtl_flat.specs.Flats.{Flat};
ghost use Rattle.event_laws.specs.Laws.{Depends, KeepsOthers, KeepsWidths, LeavesAlike, MakesOnPaths, MakesSure, MakesSureNow, MayLate, MayMake, MayNow, ReadsInside, TellsPaths, TellsTraces, TracesArePaths, ValuesAreWide, WritesInside, WritesVariables, WrittenIn, WrittenOut};

/// What a body makes depends on what it reads outside: where one run takes a path, a run that finds the same there makes
/// the same, by the same steps.
pub fn depends()
    ensures { (d : Flat) → Depends d }
{}

/// What the steps of a run write whatever an index is, the run makes.
pub fn body_sure_any()
    ensures { (d : Flat) → MakesSure d }
{}

/// What the steps of a statement write at once whatever an index is, the statement makes at once.
pub fn action_sure_now()
    ensures { (d : Flat) → MakesSureNow d }
{}

/// A run that takes a path makes each bit that every path writes.
pub fn sure_made()
    ensures { (d : Flat) → MakesOnPaths d }
{}

/// What is made at once, a blocking assignment of the body may write.
pub fn may_now()
    ensures { (d : Flat) → MayNow d }
{}

/// What is made later, a nonblocking assignment of the body may write.
pub fn may_late()
    ensures { (d : Flat) → MayLate d }
{}

/// What is made, the body may write.
pub fn may_make()
    ensures { (d : Flat) → MayMake d }
{}

/// A test of what is made that tells one of steps at each assignment tells it of the steps of a run.
pub fn actions_made()
    ensures { (d : Flat) → TellsTraces d }
{}

/// It tells it of the paths of the body, whether the run takes a path or not.
pub fn body_sets()
    ensures { (d : Flat) → TellsPaths d }
{}

/// A test that passes on the steps of a run passes on a path of the body, whether the run takes a path or not.
pub fn body_traced()
    ensures { (d : Flat) → TracesArePaths d }
{}

/// What a body may write are variables.
pub fn writes_variables()
    ensures { (d : Flat) → WritesVariables d }
{}

/// What a body may write lies inside its signal.
pub fn writes_inside()
    ensures { (d : Flat) → WritesInside d }
{}

/// What a body reads outside lies inside its signal.
pub fn outside_inside()
    ensures { (d : Flat) → ReadsInside d }
{}

/// The value of an expression has as many bits as the expression.
pub fn value_size()
    ensures { (d : Flat) → ValuesAreWide d }
{}

/// A bit that a write is over has the write's bit.
pub fn written_in()
    ensures { (d : Flat) → WrittenIn d }
{}

/// A bit that a write isn't over stays as it was.
pub fn written_out()
    ensures { (d : Flat) → WrittenOut d }
{}

/// Values keep their widths over a run.
pub fn have_made()
    ensures { (d : Flat) → KeepsWidths d }
{}

/// A bit that a run doesn't write at once stays as it was.
pub fn made_out()
    ensures { (d : Flat) → KeepsOthers d }
{}

/// After two runs that make the same, a bit is the same where it was or where they write it at once.
pub fn made_alike()
    ensures { (d : Flat) → LeavesAlike d }
{}
