//! What readings say where no text has changed. Each function is a law: it does nothing, and its
//! contract speaks of all readings.

ghost use Rattle.std.specs.Prelude.{◌≡◌, List, Option, None, Some};
ghost use Rattle.rtl_prep.specs.Conditions.{FileConditions};
ghost use Rattle.rtl_tree.specs.TreeModule.{Circuit};
ghost use Rattle.rtl_front.specs.Fronts.{AreAsked, AreSpelled};
ghost use Rattle.source_file.specs.declared.SourceFile.{SourceFile};
ghost use Rattle.source_file.specs.SourceFiles.{texts_in};
ghost use Rattle.desk_memo.specs.declared.answer.Answer.{Answer};
ghost use Rattle.desk_memo.specs.Readings.{AllRead, AreDefined, AreKnown, AreReadings, IsFirstRefused, Reading, changed_count};
ghost use Rattle.desk_memo.specs.Readings.{first_refusal};

use rtl_front::law::{never_both, one_asked};

/// Where none is refused, the files spell their modules, and no others.
pub fn all_spelled<V: Drop>()
    ensures { (files : List SourceFile) (readings : List (Option (Reading V)))
        (modules : List (List Circuit))
        → AreReadings files readings modules → changed_count files readings ≡ 0
        → first_refusal readings ≡ None → AreSpelled (texts_in files) modules }
{}

/// Where none is refused, their conditions ask what is kept.
pub fn all_asked<V: Drop>()
    ensures { (files : List SourceFile) (readings : List (Option (Reading V)))
        (modules : List (List Circuit)) (conditions : List FileConditions)
        → AreReadings files readings modules → AreKnown readings conditions
        → changed_count files readings ≡ 0 → first_refusal readings ≡ None
        → AreAsked (texts_in files) conditions }
{}

/// Where one is refused, its refusal is that of the first file that spells no modules.
pub fn all_refused<V: Drop>()
    ensures { (files : List SourceFile) (readings : List (Option (Reading V)))
        (modules : List (List Circuit)) (answer : Answer V)
        → AreReadings files readings modules → changed_count files readings ≡ 0
        → first_refusal readings ≡ Some answer → IsFirstRefused files answer }
{}

/// The texts settle which modules they define, and what their conditions ask.
pub fn one_list<V: Drop>()
    ensures { (files : List SourceFile) (readings : List (Option (Reading V)))
        (modules : List (List Circuit)) (conditions : List FileConditions) (others : AllRead)
        → AreReadings files readings modules → AreKnown readings conditions
        → changed_count files readings ≡ 0 → AreDefined (texts_in files) others
        → others ≡ record { modules = modules; conditions = conditions } }
{
    // No text is both read and refused, and what one asks is settled.
    never_both();
    one_asked();
}
