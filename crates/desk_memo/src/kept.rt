// A ruling that is kept.
ghost use Rattle.std.specs.Prelude.{◌≡◌, IfOk};
ghost use Rattle.std.specs.List.{list_any};
ghost use Rattle.desk_memo.specs.Readings.{file_at};
ghost use Rattle.desk_memo.specs.ShownReadings.{read_of, readings_of};
ghost use Rattle.desk_memo.specs.Rulings.{is_absent, is_current, is_of, is_own_module};
ghost use Rattle.desk_memo.specs.Shown.{IsChecked, lists_in, ruling_of, used_among};

use crate::answer::Answer;
use crate::current::{are_meant, are_there, are_told};
use crate::readings::Readings;
use crate::used::{Used, used_files};
use elab_lookups::LookUp;
use elab_lookups::elab_links::module_set::Lookup;
use source_file::SourceFile;
use std::alloc::Global;
use text_ground::memory::Memory;
use text_ground::text::Text;

/// An answer with its top, what it looked up, the files that it used, for which of the names that
/// the conditions of each ask for another file had a macro, and whether it is known to hold.
#[derive(Drop)]
pub struct Kept<V> {
    pub(crate) top: Text,
    look_ups: Vec<LookUp>,
    used: Vec<Used>,
    elsewhere: Vec<Vec<bool>>,
    pub(crate) answer: Box<Answer<V>>,
    pub(crate) is_checked: bool,
}

// Whether a look-up of the top's own name found a module.
fn has_own_module(top: &[u8], look_ups: &[LookUp]) -> bool
    ensures { result ≡ list_any (is_own_module top.now) look_ups.now }
{
    look_ups.iter().any(|look_up| {
        look_up.name.as_bytes() == top && matches!(look_up.meant, Lookup::Found(_))
    })
}

impl<V: Drop> Kept<V> {
    /// An answer for a top that is known to hold, with what the top looked up and the files that it
    /// used: of those that were read, the ones with these numbers. Beside each of them stands for
    /// which of the names that its conditions ask for another file has a macro.
    ///
    /// # Errors
    ///
    /// Memory ran out.
    pub fn new(
        alloc: Global,
        readings: &Readings<V>,
        top: &Text,
        look_ups: Vec<LookUp>,
        numbers: &[usize],
        elsewhere: Vec<Vec<bool>>,
        answer: Box<Answer<V>>,
    ) -> Result<Kept<V>, Memory>
        ensures top { IfOk result (λ kept. (ruling_of kept).top ≡ top.now) }
        ensures look_ups { IfOk result (λ kept. (ruling_of kept).look_ups ≡ look_ups.items) }
        ensures used { IfOk result (λ kept. (ruling_of kept).used
            ≡ used_among (file_at (readings_of readings.now)) numbers.now) }
        ensures elsewhere { IfOk result (λ kept. (ruling_of kept).elsewhere
            ≡ lists_in elsewhere.items) }
        ensures answer { IfOk result (λ kept. (ruling_of kept).answer ≡ answer.value) }
    {
        let used = used_files(alloc, readings, numbers)?;
        let top = Text::from_bytes(alloc, top.as_bytes())?;
        Ok(Kept {
            top,
            look_ups,
            used,
            elsewhere,
            answer,
            is_checked: true,
        })
    }

    /// Whether no module, or more than one, had the top's own name.
    pub fn is_absent(&self) -> bool
        ensures { result ≡ is_absent (ruling_of self.now) }
    {
        !has_own_module(self.top.as_bytes(), &self.look_ups)
    }

    pub(crate) fn is_of(&self, top: &[u8]) -> bool
        ensures { result ≡ is_of top.now (ruling_of self.now) }
    {
        self.top.as_bytes() == top
    }

    // Whether it holds among files, by what was read of them. Where that is known, nothing is
    // compared; and the files come first, as going through all modules for each name is dear.
    pub(crate) fn is_current(&self, files: &[SourceFile], readings: &Readings<V>) -> bool
        requires { IsChecked files.now (read_of readings.now) self.now }
        ensures { result ≡ is_current files.now (read_of readings.now) (ruling_of self.now) }
    {
        self.is_checked
            || are_there(files, &self.used)
                && are_told(files, readings.conditions(), &self.used, &self.elsewhere)
                && are_meant(files, readings.modules(), &self.used, &self.look_ups)
    }
}
