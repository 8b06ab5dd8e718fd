//! What the survey has taken goes on to modules, and one place at most is the least that does not.

ghost use Rattle.std.specs.Prelude.{◌≡◌, ℕ, List};
ghost use Rattle.rtl_tree.specs.Symbols.{Terminal};
ghost use Rattle.text_survey.specs.Surveys.{AreNumbered, IsReached};
ghost use Rattle.text_survey.specs.Least.{GoesOn, IsLeast};

/// Tokens that the survey has taken go on to modules.
pub fn goes_on()
    ensures { (tokens : List Terminal) (n : ℕ) →
        AreNumbered tokens → IsReached tokens n → GoesOn tokens n }
{}

/// Tokens have one least place at most.
pub fn one_least()
    ensures { (tokens : List Terminal) (m n : ℕ) →
        IsLeast tokens m → IsLeast tokens n → m ≡ n }
{}
