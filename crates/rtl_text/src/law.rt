// What holds of every text. Each function is a law: it does nothing, and its contract speaks of all texts.

ghost use Rattle.std.specs.Prelude.{◌≡◌, ℕ, List, Result};
ghost use Rattle.rtl_tree.specs.declared.token.Token.{Token};
ghost use Rattle.rtl_tree.specs.Splits.{Splits};
ghost use Rattle.rtl_text.specs.declared.fault.LexFault.{LexFault};
ghost use Rattle.rtl_text.specs.Faults.{Answers};

/// A text splits into one list of tokens at most.
pub fn one_split()
    ensures { (text : List ℕ) (a : List Token) (b : List Token) → Splits text a → Splits text b
        → a ≡ b }
{}

/// A text has one answer at most: its tokens or its first fault.
pub fn one_answer()
    ensures { (text : List ℕ) (a : Result (List Token) LexFault) (b : Result (List Token) LexFault)
        → Answers text a → Answers text b → a ≡ b }
{}
