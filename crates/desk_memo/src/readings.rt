// The files of the desk as they were read last.
ghost use Rattle.std.specs.Prelude.{◌≡◌, ◌≤◌, ◌+◌, [], None, IfOk, OnOk, option_copied};
ghost use Rattle.std.specs.Option.{option_map};
ghost use Rattle.elab_lookups.specs.elab_links.Modules.{circuits_of};
ghost use Rattle.check_conditions.specs.Foreign.{nothing_asked};
ghost use Rattle.desk_files.specs.Sources.{with_file, without_file};
ghost use Rattle.source_file.specs.SourceFiles.{AreShort};
ghost use Rattle.desk_memo.specs.Readings.{AreKnown, AreReadings, changed_count, file_at, first_refusal, with_blank, without};
ghost use Rattle.desk_memo.specs.ShownReadings.{AreFlagged, IsBeside, conditions_by, conditions_of, down_count, flags_by, flags_in, flags_of, held_modules_by, held_modules_of, modules_of, readings_by, readings_in, readings_of, room_of};

use crate::answer::Answer;
use crate::aside::Aside;
use crate::exchange::exchange;
use crate::place::{put_blank, remove_named};
use crate::reading::{Reading, is_current, mark, read, refusal_of};
use desk_files::{is_named, place_of};
use rtl_front::Conditions;
use rtl_tree::tree::modules::Module;
use source_file::SourceFile;
use std::alloc::Global;
use std::rc::Rc;
use std::sync::ledger::Ledger;
use steps::Steps;
use text_ground::memory::Memory;

/// Of each file, in the order of the files: the text that was read last, the modules that it spells
/// or why it spells none, what its conditions ask, and whether the file still has that text.
#[derive(Drop)]
pub struct Readings<V> {
    alloc: Global,
    readings: Vec<Option<Reading<V>>>,
    modules: Vec<Vec<Module>>,
    conditions: Vec<Conditions>,
}

// How many readings aren't current.
fn down<V: Drop>(readings: &[Option<Reading<V>>]) -> usize
    ensures { result ≡ down_count (flags_in readings.now) }
{
    let mut count = 0;
    for reading in readings {
        if !is_current(reading) {
            count += 1;
        }
    }
    count
}

// The first refusal.
fn refusal<V: Drop>(readings: &[Option<Reading<V>>]) -> Option<&Answer<V>>
    ensures { option_copied result ≡ first_refusal (readings_in readings.now) }
{
    for reading in readings {
        if let Some(answer) = refusal_of(reading) {
            return Some(answer);
        }
    }
    None
}

impl<V: Drop> Readings<V> {
    /// No files.
    pub fn new(alloc: Global) -> Readings<V>
        ensures readings { readings_of result ≡ [] }
        ensures modules { modules_of result ≡ [] }
        ensures conditions { conditions_of result ≡ [] }
        ensures flags { flags_of result ≡ [] }
    {
        Readings {
            alloc,
            readings: Vec::new(alloc),
            modules: Vec::new(alloc),
            conditions: Vec::new(alloc),
        }
    }

    /// Room for one file more.
    ///
    /// # Errors
    ///
    /// Memory ran out.
    pub fn reserve(&mut self) -> Result<(), Memory>
        ensures room { OnOk result (1 ≤ room_of self.new) }
        ensures readings { readings_of self.new ≡ readings_of self.old }
        ensures modules { modules_of self.new ≡ modules_of self.old }
        ensures conditions { conditions_of self.new ≡ conditions_of self.old }
        ensures flags { flags_of self.new ≡ flags_of self.old }
    {
        self.readings.reserve(1)?;
        self.modules.reserve(1)?;
        self.conditions.reserve(1)?;
        Ok(())
    }

    /// A file is put among files: one of a new name has no reading yet. It takes no memory.
    pub fn put(&mut self, files: &[SourceFile], file: &SourceFile)
        requires room { 1 ≤ room_of self.old }
        requires right { AreReadings files.now (readings_of self.old) (modules_of self.old) }
        requires known { AreKnown (readings_of self.old) (conditions_of self.old) }
        requires flagged { AreFlagged files.now self.old }
        ensures readings { readings_of self.new
            ≡ with_blank None file.now.name files.now (readings_of self.old) }
        ensures modules { modules_of self.new
            ≡ with_blank [] file.now.name files.now (modules_of self.old) }
        ensures conditions { conditions_of self.new
            ≡ with_blank nothing_asked file.now.name files.now (conditions_of self.old) }
        ensures right { AreReadings (with_file file.now files.now)
            (readings_of self.new) (modules_of self.new) }
        ensures known { AreKnown (readings_of self.new) (conditions_of self.new) }
        ensures flagged { AreFlagged (with_file file.now files.now) self.new }
    {
        let name = file.name.as_bytes();
        match place_of(files, name) {
            None => {
                put_blank(&mut self.readings, None, None);
                put_blank(&mut self.modules, None, Vec::new(self.alloc));
                put_blank(&mut self.conditions, None, Conditions::new(self.alloc));
            }
            Some(place) => {
                if is_named(&files[place], name) {
                    mark(&mut self.readings[place], file);
                } else {
                    put_blank(&mut self.readings, Some(place), None);
                    put_blank(&mut self.modules, Some(place), Vec::new(self.alloc));
                    put_blank(
                        &mut self.conditions,
                        Some(place),
                        Conditions::new(self.alloc),
                    );
                }
            }
        }
    }

    /// The file of a name is dropped from files. It takes no memory.
    pub fn drop_file(&mut self, files: &[SourceFile], name: &[u8])
        requires right { AreReadings files.now (readings_of self.old) (modules_of self.old) }
        requires known { AreKnown (readings_of self.old) (conditions_of self.old) }
        requires flagged { AreFlagged files.now self.old }
        ensures readings { readings_of self.new
            ≡ without name.now files.now (readings_of self.old) }
        ensures modules { modules_of self.new ≡ without name.now files.now (modules_of self.old) }
        ensures conditions { conditions_of self.new
            ≡ without name.now files.now (conditions_of self.old) }
        ensures right { AreReadings (without_file name.now files.now)
            (readings_of self.new) (modules_of self.new) }
        ensures known { AreKnown (readings_of self.new) (conditions_of self.new) }
        ensures flagged { AreFlagged (without_file name.now files.now) self.new }
        ensures room { room_of self.old ≤ room_of self.new }
    {
        remove_named(&mut self.readings, files, name);
        remove_named(&mut self.modules, files, name);
        remove_named(&mut self.conditions, files, name);
    }

    /// How many files aren't as they were read last. It compares no texts.
    pub fn changed(&self, files: &[SourceFile]) -> usize
        requires { AreFlagged files.now self.now }
        ensures { result ≡ changed_count files.now (readings_of self.now) }
    {
        down(&self.readings)
    }

    /// The refusal of the first file that spells no modules.
    pub fn refusal(&self) -> Option<&Answer<V>>
        ensures { option_copied result ≡ first_refusal (readings_of self.now) }
    {
        refusal(&self.readings)
    }

    /// The modules of all files, in their order.
    pub fn modules(&self) -> &[Vec<Module>]
        ensures { circuits_of result.now ≡ modules_of self.now }
    {
        &self.modules
    }

    /// What the conditions of all files ask, in their order.
    pub fn conditions(&self) -> &[Conditions]
        ensures { result.now ≡ conditions_of self.now }
    {
        &self.conditions
    }

    /// A further owner of a file, as it was read last.
    ///
    /// # Errors
    ///
    /// Memory ran out.
    pub fn file(&self, number: usize) -> Result<Option<Rc<SourceFile>>, Memory>
        ensures { IfOk result (λ file. option_map (λ file. file.value) file
            ≡ file_at (readings_of self.now) number) }
    {
        match self.readings.get(number) {
            Some(Some(reading)) => match reading.file.clone() {
                Ok(file) => Ok(Some(file)),
                Err(_) => Err(Memory),
            },
            _ => Ok(None),
        }
    }

    /// Reads the files that aren't as they were read last, beside what is kept: one step at most
    /// for each.
    ///
    /// # Errors
    ///
    /// Memory ran out.
    pub fn read_changed<L: Ledger>(
        &self,
        files: &[SourceFile],
        steps: &mut Steps<L>,
    ) -> Result<Aside<V>, Memory>
        requires right { AreReadings files.now (readings_of self.now) (modules_of self.now) }
        requires known { AreKnown (readings_of self.now) (conditions_of self.now) }
        requires flagged { AreFlagged files.now self.now }
        requires short { AreShort files.now }
        ensures counted { steps.new ≤ steps.old + changed_count files.now (readings_of self.now) }
        ensures aside { IfOk result (λ aside. IsBeside files.now self.now aside) }
    {
        let mut aside = Aside::new(self.alloc);
        for (number, file) in files.iter().enumerate() {
            if is_current(&self.readings[number]) {
                aside.push_none()?;
            } else {
                aside.push(read(self.alloc, file, steps)?)?;
            }
        }
        Ok(aside)
    }

    /// What was read beside changes places with what is kept. Doing it again undoes it. It takes no
    /// memory.
    pub fn exchange(&mut self, aside: &mut Aside<V>)
        ensures readings { readings_of self.new ≡ readings_by aside.old self.old }
        ensures held { held_modules_of self.new ≡ held_modules_by aside.old self.old }
        ensures conditions { conditions_of self.new ≡ conditions_by aside.old self.old }
        ensures flags { flags_of self.new ≡ flags_by aside.old self.old }
        ensures undone_readings { readings_by aside.new self.new ≡ readings_of self.old }
        ensures undone_held { held_modules_by aside.new self.new ≡ held_modules_of self.old }
        ensures undone_conditions { conditions_by aside.new self.new ≡ conditions_of self.old }
        ensures undone_flags { flags_by aside.new self.new ≡ flags_of self.old }
        ensures room { room_of self.new ≡ room_of self.old }
    {
        exchange(&mut self.readings, &mut aside.readings);
        exchange(&mut self.modules, &mut aside.modules);
        exchange(&mut self.conditions, &mut aside.conditions);
    }
}
