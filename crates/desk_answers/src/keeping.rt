// What files say of a top, to be kept.
ghost use Rattle.std.specs.Prelude.{◌≡◌, ◌≤◌, ◌+◌, IfOk, map, None, OnOk, Result, true};
ghost use Rattle.desk_memo.specs.check_conditions.Foreign.{elsewhere_in, foreign_in};
ghost use Rattle.desk_memo.specs.check_conditions.ToolNotes.{tool_noted};
ghost use Rattle.desk_refusals.specs.elab_scope.Faults.{Answer as Fault};
ghost use Rattle.rtl_flat.specs.Flats.{DesignParts};
ghost use Rattle.elab_names.specs.Extracts.{IsElaborated};
ghost use Rattle.elab_names.specs.elab_links.Modules.{all_placed, found, lookups_of};
ghost use Rattle.desk_memo.specs.Orders.{AreInOrder};
ghost use Rattle.source_file.specs.SourceFiles.{AreShort};
ghost use Rattle.desk_memo.specs.Readings.{AreKnown, AreReadings, changed_count, first_refusal};
ghost use Rattle.desk_memo.specs.Rulings.{is_current};
ghost use Rattle.desk_memo.specs.Shown.{lists_in, ruling_of};
ghost use Rattle.desk_memo.specs.ShownReadings.{conditions_of, modules_of, read_of, readings_of};
ghost use Rattle.desk_answers.specs.Rulings.{IsRuling};

use crate::fresh::of_design;
use crate::judge::Judge;
use desk_memo::check_conditions::{add_tool_notes, elsewhere};
use desk_memo::reading_law::{all_asked, all_spelled};
use desk_memo::{Kept, Readings};
use desk_refusals::elab_scope::fault::ElabFault;
use elab_names::elab_links::module_set::ModuleSet;
use elab_names::elaborate;
use elab_names::law::same_names;
use rtl_flat::design::Design;
use rtl_front::Conditions;
use source_file::SourceFile;
use std::alloc::Global;
use std::sync::ledger::Ledger;
use steps::Steps;
use text_ground::memory::Memory;
use text_ground::text::Text;

// Notes the conditions of the files with these numbers that ask for a name of a tool, or of any other
// file, in the design of the files, where there is one.
fn note_tools(
    alloc: Global,
    conditions: &[Conditions],
    numbers: &[usize],
    design: &mut Result<Design, ElabFault>,
) -> Result<(), Memory>
    ensures { OnOk result ((elaborated : Result DesignParts Fault)
        → IsElaborated elaborated design.old
        → IsElaborated (tool_noted (map (foreign_in conditions.now) numbers.now) elaborated)
        design.new) }
{
    match design {
        Ok(design) => add_tool_notes(alloc, conditions, numbers, design),
        Err(_) => Ok(()),
    }
}

// Of each file with these numbers, for which of the names that its conditions ask for another has
// a macro.
fn elsewhere_of(
    alloc: Global,
    conditions: &[Conditions],
    numbers: &[usize],
) -> Result<Vec<Vec<bool>>, Memory>
    ensures { IfOk result (λ lists. lists_in lists.items
        ≡ map (elsewhere_in conditions.now) numbers.now) }
{
    let mut lists = Vec::new(alloc);
    for number in numbers {
        lists.push(elsewhere(alloc, conditions, *number)?)?;
    }
    Ok(lists)
}

/// What files say of a top, kept with what it looked up. The readings are of the files, whose texts
/// are as they were read; `set` is made of their modules. It takes at most one step.
///
/// # Errors
///
/// Memory ran out.
pub fn kept_of<J: Judge, L: Ledger>(
    alloc: Global,
    files: &[SourceFile],
    readings: &Readings<J::Said>,
    set: &ModuleSet,
    top: &Text,
    steps: &mut Steps<L>,
) -> Result<Kept<J::Said>, Memory>
    requires set { lookups_of set.now ≡ found (all_placed (modules_of readings.now)) }
    requires right { AreReadings files.now (readings_of readings.now) (modules_of readings.now) }
    requires known { AreKnown (readings_of readings.now) (conditions_of readings.now) }
    requires unchanged { changed_count files.now (readings_of readings.now) ≡ 0 }
    requires spelled { first_refusal (readings_of readings.now) ≡ None }
    requires in_order { AreInOrder files.now }
    requires short { AreShort files.now }
    ensures counted { steps.new ≤ steps.old + 1 }
    ensures ruling { IfOk result (λ kept. IsRuling J.says (ruling_of kept)) }
    ensures top { IfOk result (λ kept. (ruling_of kept).top ≡ top.now) }
    ensures current { IfOk result (λ kept.
        is_current files.now (read_of readings.now) (ruling_of kept) ≡ true) }
{
    // The laws say that the files spell the modules, and no others, that their conditions ask what
    // is kept, and that a top looks up the same names in the files that it uses as among all.
    all_spelled::<J::Said>();
    all_asked::<J::Said>();
    same_names();
    let mut made = elaborate(alloc, readings.modules(), set, top, steps)?;
    note_tools(alloc, readings.conditions(), &made.files, &mut made.design)?;
    let answer = of_design::<J>(alloc, files, &made.files, &made.design)?;
    let elsewhere = elsewhere_of(alloc, readings.conditions(), &made.files)?;
    let kept = Kept::new(
        alloc,
        readings,
        top,
        made.look_ups,
        &made.files,
        elsewhere,
        answer,
    )?;
    Ok(kept)
}
