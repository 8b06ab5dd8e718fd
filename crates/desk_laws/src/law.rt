//! Each function is a law: it answers nothing, and its contract speaks of all inputs.

ghost use Rattle.std.specs.Prelude.{◌≡◌, ℕ, List, Option, Some};
ghost use Rattle.rtl_flat.specs.declared.instance.Instance.{Instance};
ghost use Rattle.rtl_flat.specs.declared.signal.Signal.{Signal};
ghost use Rattle.rtl_flat.specs.Process.{Task};
ghost use Rattle.desk_io.specs.Shelf.{Files};
ghost use Rattle.source_file.specs.declared.SourceFile.{SourceFile};
ghost use Rattle.desk_steps.specs.Steps.{Steps};
ghost use Rattle.desk_runs.specs.Runs.{IsSimulated, Shown};
ghost use Rattle.desk_top.specs.Answers.{IsAnswered, OverWorld};
ghost use Rattle.desk_top.specs.desk_build.Building.{Built, IsBuilt};
ghost use Rattle.desk_top.specs.Delivery.{Outcome};
ghost use Rattle.desk_top.specs.Outcome.{IsOutcome, World};
ghost use Rattle.desk_laws.specs.Same.{AreSame, IsUndisturbed};

use desk_refusals::law::one_line;

/// A design shows one thing of given steps: the same lines, and the same of whether all of them came to rest.
pub fn one_run()
    ensures { (signals : List Signal) (tasks : List Task) (instances : List Instance)
        (steps : Steps) (one other : Shown) →
        IsSimulated signals tasks instances steps one
        → IsSimulated signals tasks instances steps other → one ≡ other }
{}

/// Texts make one thing of a top: one flat design, or one line that says why there is none.
pub fn one_built()
    ensures { (top : List ℕ) (sources : List SourceFile) (texts : List (List ℕ)) (one other : Built)
        →
        IsBuilt top sources texts one → IsBuilt top sources texts other → one ≡ other }
{
    one_line();
}

/// Words have one outcome over given files, of any command: one exit status and one list of bytes.
pub fn one_outcome()
    ensures { (words : List (List ℕ)) (world : World) (one other : Outcome) →
        IsOutcome words world one → IsOutcome words world other → one ≡ other }
{
    one_line();
}

/// What `desk` answers over files that are told is a function of its words and those files: the same status, and the same
/// bytes written. Left out are a read or a write that failed and want of memory, which come from outside.
pub fn one_answer()
    ensures { (files : Files) (words : List (List ℕ)) (one other : ℕ)
        (before now old new : Option (List ℕ)) →
        IsUndisturbed one → IsUndisturbed other →
        OverWorld (Some files) (IsAnswered words one before now)
        → OverWorld (Some files) (IsAnswered words other old new) →
        AreSame one other before now old new }
{
    one_line();
}
