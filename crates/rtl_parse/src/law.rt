//! What holds of every prepared text. Each function is a law: it does nothing, and its contract speaks of all texts.

ghost use Rattle.std.specs.Prelude.{◌≡◌, List};
ghost use Rattle.rtl_tree.specs.Prepared.{Ready};
ghost use Rattle.rtl_tree.specs.TreeModule.{Circuit};
ghost use Rattle.rtl_parse.specs.declared.fault.ParseFault.{ParseFault};
ghost use Rattle.rtl_parse.specs.Parses.{IsCause, IsOfText, IsParsed, reason};

/// A text has one list of modules at most.
pub fn one_list()
    ensures { (ready : Ready) (a b : List Circuit) → IsParsed ready a → IsParsed ready b → a ≡ b }
{}

/// A text alone settles why it isn't parsed: which fault, at which token, at which place. Want of memory is left out.
pub fn one_cause()
    ensures { (ready : Ready) (a b : ParseFault) → IsOfText a → IsOfText b → IsCause ready a
        → IsCause ready b →
        reason a ≡ reason b }
{}
