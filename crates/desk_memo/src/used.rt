// The files that a top used.
ghost use Rattle.std.specs.Prelude.{◌≡◌, ◌++◌, ◌∷◌, [], IfOk, OnOk};
ghost use Rattle.desk_memo.specs.Readings.{file_at};
ghost use Rattle.desk_memo.specs.ShownReadings.{readings_of};
ghost use Rattle.desk_memo.specs.Shown.{all_used, used_among};

use crate::readings::Readings;
use source_file::SourceFile;
use std::alloc::Global;
use std::rc::Rc;
use text_ground::memory::Memory;

/// A file that a top used, as it was read. It is shared with the readings.
#[derive(Drop)]
pub(crate) struct Used {
    pub(crate) file: Rc<SourceFile>,
}

// A file as it was read, behind others.
fn push_used<V: Drop>(
    readings: &Readings<V>,
    number: usize,
    used: &mut Vec<Used>,
) -> Result<(), Memory>
    ensures { OnOk result (all_used used.new.items
        ≡ all_used used.old.items
        ++ used_among (file_at (readings_of readings.now)) (number ∷ [])) }
{
    match readings.file(number) {
        Ok(Some(file)) => {
            used.push(Used { file })?;
            Ok(())
        }
        Ok(None) => Ok(()),
        Err(error) => Err(error),
    }
}

// The files with these numbers, as they were read.
pub(crate) fn used_files<V: Drop>(
    alloc: Global,
    readings: &Readings<V>,
    numbers: &[usize],
) -> Result<Vec<Used>, Memory>
    ensures { IfOk result (λ used. all_used used.items
        ≡ used_among (file_at (readings_of readings.now)) numbers.now) }
{
    let mut used = Vec::new(alloc);
    for number in numbers {
        push_used(readings, *number, &mut used)?;
    }
    Ok(used)
}
