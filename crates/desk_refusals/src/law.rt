//! What holds of every list of texts. Each function is a law: it does nothing, and its contract speaks of all texts.

ghost use Rattle.std.specs.Prelude.{◌≡◌, ℕ, false, List};
ghost use Rattle.rtl_front.specs.declared.fault.FileFault.{FileFault};
ghost use Rattle.rtl_front.specs.Fronts.{IsFirst, is_memory};
ghost use Rattle.source_file.specs.declared.SourceFile.{SourceFile};
ghost use Rattle.desk_refusals.specs.Refusals.{source_line};

/// The texts alone settle the line that says why they are refused. Want of memory is left out.
pub fn one_line()
    ensures { (texts : List (List ℕ)) (sources : List SourceFile) (m n : ℕ) (a b : FileFault) →
        is_memory a ≡ false → is_memory b ≡ false → IsFirst texts m a → IsFirst texts n b →
        source_line sources m a ≡ source_line sources n b }
{}
