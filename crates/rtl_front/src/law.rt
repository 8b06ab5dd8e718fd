//! What holds of every list of texts. Each function is a law: it does nothing, and its contract speaks of all texts.

ghost use Rattle.std.specs.Prelude.{◌≡◌, ℕ, false, List};
ghost use Rattle.rtl_tree.specs.TreeModule.{Circuit};
ghost use Rattle.rtl_front.specs.declared.fault.FileFault.{FileFault};
ghost use Rattle.rtl_prep.specs.Conditions.{FileConditions};
ghost use Rattle.rtl_front.specs.Fronts.{AreAsked, AreRead, IsFirst, is_memory};
ghost use Rattle.rtl_front.specs.Limits.{AreLimits};
ghost use Rattle.rtl_front.specs.Reasons.{reason};

/// Files of which one is refused have no list of modules: none are both read and refused. Want of memory, which tells
/// nothing of the files, is left out.
pub fn never_both()
    ensures { (texts : List (List ℕ)) (circuits : List (List Circuit)) (number : ℕ)
        (fault : FileFault) →
        is_memory fault ≡ false → AreRead texts circuits → IsFirst texts number fault → ⊥ }
{}

/// The first faulty file of a list is one at most: its texts alone settle which file is refused.
pub fn one_first()
    ensures { (texts : List (List ℕ)) (m n : ℕ) (a b : FileFault) → IsFirst texts m a
        → IsFirst texts n b → is_memory a ≡ false → is_memory b ≡ false → m ≡ n }
{}

/// The texts alone settle what is told of the first faulty file: which fault, with which word or token, at which place.
pub fn one_fault()
    ensures { (texts : List (List ℕ)) (m n : ℕ) (a b : FileFault) →
        is_memory a ≡ false → is_memory b ≡ false → IsFirst texts m a → IsFirst texts n b →
        reason a ≡ reason b }
{}

/// The texts alone settle what their conditions ask.
pub fn one_asked()
    ensures { (texts : List (List ℕ)) (a b : List FileConditions) → AreAsked texts a
        → AreAsked texts b → a ≡ b }
{}

/// The limits of a text are these numbers.
pub fn limits()
    ensures { AreLimits }
{}
