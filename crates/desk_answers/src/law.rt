//! What a ruling says where it still holds. The function is a law: it does nothing, and its
//! contract speaks of all rulings.

ghost use Rattle.std.specs.Prelude.{◌≡◌, List, true};
ghost use Rattle.rtl_front.specs.Fronts.{AreAsked, AreSpelled};
ghost use Rattle.source_file.specs.declared.SourceFile.{SourceFile};
ghost use Rattle.source_file.specs.SourceFiles.{texts_in};
ghost use Rattle.desk_memo.specs.Orders.{AreInOrder};
ghost use Rattle.desk_memo.specs.Readings.{AllRead};
ghost use Rattle.desk_memo.specs.Rulings.{Ruling, is_current};
ghost use Rattle.desk_answers.specs.Fresh.{IsFresh};
ghost use Rattle.desk_answers.specs.Rulings.{IsRuling};

use crate::judge::Judge;
use elab_names::law::{same_design, same_files};
use rtl_front::law::one_asked;

/// A ruling that still holds is what the files say of its top now.
pub fn still_fresh<J: Judge>()
    ensures { (files : List SourceFile) (all : AllRead) (ruling : Ruling J.Said)
        → AreInOrder files → IsRuling J.says ruling → is_current files all ruling ≡ true
        → AreSpelled (texts_in files) all.modules → AreAsked (texts_in files) all.conditions
        → IsFresh J.says files ruling.top ruling.answer }
{
    same_design();
    same_files();
    one_asked();
}
