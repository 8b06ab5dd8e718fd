// The rulings that are kept.
ghost use Rattle.std.specs.Prelude.{◌≡◌, ◌++◌, ◌∷◌, [], if◌then◌else◌, is_some, List};
ghost use Rattle.std.specs.Prelude.{map, None, OnErr, OnOk, option_copied, option_to_list, Some};
ghost use Rattle.std.specs.List.{Contains};
ghost use Rattle.source_file.specs.declared.SourceFile.{SourceFile};
ghost use Rattle.desk_memo.specs.Readings.{AllRead};
ghost use Rattle.desk_memo.specs.Rulings.{Ruling, current_answer, current_of, is_absent};
ghost use Rattle.desk_memo.specs.Rulings.{is_current_of, is_of, others_of, with_ruling};
ghost use Rattle.desk_memo.specs.Shown.{AreAllChecked, AreChecked, IsChecked, IsPlaceOf};
ghost use Rattle.desk_memo.specs.Shown.{absent_of, all_of, ruling_of, rulings_of};
ghost use Rattle.desk_memo.specs.ShownReadings.{read_of};

use crate::answer::Answer;
use crate::kept::Kept;
use crate::readings::Readings;
use source_file::SourceFile;
use std::alloc::Global;
use text_ground::memory::Memory;
use text_ground::text::Text;

/// The rulings of tops, one for each, and that of the last top that no module, or more than one, is
/// named by: of such tops only the last is kept, so that requests for names that aren't there take
/// no memory for good.
#[derive(Drop)]
pub struct Memo<V> {
    rulings: Vec<Kept<V>>,
    absent: Option<Kept<V>>,
}

// The place of the ruling of a top.
fn place_of<V: Drop>(rulings: &[Kept<V>], top: &[u8]) -> Option<usize>
    ensures { IsPlaceOf (is_of top.now) (map ruling_of rulings.now) result }
{
    for (place, kept) in rulings.iter().enumerate() {
        if kept.is_of(top) {
            return Some(place);
        }
    }
    None
}

// The place of the ruling of a top that holds among files, by what was read of them.
fn current_place<V: Drop>(
    rulings: &[Kept<V>],
    files: &[SourceFile],
    readings: &Readings<V>,
    top: &[u8],
) -> Option<usize>
    requires { AreAllChecked files.now (read_of readings.now) rulings.now }
    ensures { IsPlaceOf (is_current_of files.now (read_of readings.now) top.now)
        (map ruling_of rulings.now) result }
{
    for (place, kept) in rulings.iter().enumerate() {
        if kept.is_of(top) && kept.is_current(files, readings) {
            return Some(place);
        }
    }
    None
}

// Keeps a ruling in place of that of its top, or behind all.
fn keep_in<V: Drop>(rulings: &mut Vec<Kept<V>>, kept: Kept<V>) -> Result<(), Memory>
    ensures rulings { OnOk result (map ruling_of rulings.new.items
        ≡ with_ruling (ruling_of kept) (map ruling_of rulings.old.items)) }
    ensures same { OnErr result (map ruling_of rulings.new.items
        ≡ map ruling_of rulings.old.items) }
    ensures checked { (files : List SourceFile) (all : AllRead)
        → IsChecked files all kept → AreAllChecked files all rulings.old.items
        → AreAllChecked files all rulings.new.items }
{
    match place_of(rulings, kept.top.as_bytes()) {
        Some(place) => {
            rulings[place] = kept;
            Ok(())
        }
        None => {
            rulings.push(kept)?;
            Ok(())
        }
    }
}

// None of the rulings is known to hold.
fn doubt_all<V: Drop>(rulings: &mut [Kept<V>])
    ensures rulings { map ruling_of rulings.new ≡ map ruling_of rulings.old }
    ensures checked { (files : List SourceFile) (all : AllRead)
        → AreAllChecked files all rulings.new }
{
    for place in 0..rulings.len() {
        rulings[place].is_checked = false;
    }
}

impl<V: Drop> Memo<V> {
    /// No rulings.
    pub fn new(alloc: Global) -> Memo<V>
        ensures rulings { rulings_of result ≡ [] }
        ensures absent { absent_of result ≡ None }
        ensures checked { (files : List SourceFile) (all : AllRead)
            → AreChecked files all result }
    {
        Memo {
            rulings: Vec::new(alloc),
            absent: None,
        }
    }

    /// No ruling is known to hold from now on. It takes no memory.
    pub fn doubt(&mut self)
        ensures rulings { rulings_of self.new ≡ rulings_of self.old }
        ensures absent { absent_of self.new ≡ absent_of self.old }
        ensures checked { (files : List SourceFile) (all : AllRead)
            → AreChecked files all self.new }
    {
        doubt_all(&mut self.rulings);
        if let Some(kept) = &mut self.absent {
            kept.is_checked = false;
        }
    }

    /// The answer of a top that holds among files, by what was read of them. It takes no memory.
    pub fn answer(
        &self,
        files: &[SourceFile],
        readings: &Readings<V>,
        top: &Text,
    ) -> Option<&Answer<V>>
        requires { AreChecked files.now (read_of readings.now) self.now }
        ensures { option_copied result
            ≡ current_answer files.now (read_of readings.now) top.now (all_of self.now) }
    {
        match current_place(&self.rulings, files, readings, top.as_bytes()) {
            Some(place) => Some(&self.rulings[place].answer),
            None => self.absent_answer(files, readings, top),
        }
    }

    // That of the absent top.
    fn absent_answer(
        &self,
        files: &[SourceFile],
        readings: &Readings<V>,
        top: &Text,
    ) -> Option<&Answer<V>>
        requires { AreChecked files.now (read_of readings.now) self.now }
        ensures { option_copied result ≡ current_answer files.now (read_of readings.now) top.now
            (option_to_list (absent_of self.now)) }
    {
        match &self.absent {
            Some(kept) => {
                if kept.is_of(top.as_bytes()) && kept.is_current(files, readings) {
                    Some(&kept.answer)
                } else {
                    None
                }
            }
            None => None,
        }
    }

    /// Whether there is a ruling of a top that holds among files, by what was read of them, which is known
    /// from then on. It takes no memory.
    pub fn check(&mut self, files: &[SourceFile], readings: &Readings<V>, top: &Text) -> bool
        requires { AreChecked files.now (read_of readings.now) self.old }
        ensures found { result
            ≡ is_some (current_of files.now (read_of readings.now) top.now (all_of self.old)) }
        ensures rulings { rulings_of self.new ≡ rulings_of self.old }
        ensures absent { absent_of self.new ≡ absent_of self.old }
        ensures checked { AreChecked files.now (read_of readings.now) self.new }
    {
        match current_place(&self.rulings, files, readings, top.as_bytes()) {
            Some(place) => {
                self.rulings[place].is_checked = true;
                true
            }
            None => self.check_absent(files, readings, top),
        }
    }

    // The same of the absent top.
    fn check_absent(&mut self, files: &[SourceFile], readings: &Readings<V>, top: &Text) -> bool
        requires { AreChecked files.now (read_of readings.now) self.old }
        ensures found { result ≡ is_some (current_of files.now (read_of readings.now) top.now
            (option_to_list (absent_of self.old))) }
        ensures rulings { rulings_of self.new ≡ rulings_of self.old }
        ensures absent { absent_of self.new ≡ absent_of self.old }
        ensures checked { AreChecked files.now (read_of readings.now) self.new }
    {
        let Some(kept) = &mut self.absent else {
            return false;
        };
        let holds = kept.is_of(top.as_bytes()) && kept.is_current(files, readings);
        if holds {
            kept.is_checked = true;
        }
        holds
    }

    /// Keeps a ruling in place of that of its top; one of an absent top in place of the last such.
    ///
    /// # Errors
    ///
    /// Memory ran out. All rulings stay then.
    pub fn keep(&mut self, kept: Kept<V>) -> Result<(), Memory>
        ensures placed { OnOk result (rulings_of self.new
            ≡ if is_absent (ruling_of kept) then rulings_of self.old
            else with_ruling (ruling_of kept) (rulings_of self.old)) }
        ensures alone { OnOk result (absent_of self.new
            ≡ if is_absent (ruling_of kept) then Some (ruling_of kept) else absent_of self.old) }
        ensures others { OnOk result (others_of (ruling_of kept).top (rulings_of self.new)
            ≡ others_of (ruling_of kept).top (rulings_of self.old)) }
        ensures there { OnOk result (Contains (all_of self.new) (ruling_of kept)) }
        ensures from { OnOk result ((ruling : Ruling V) → Contains (all_of self.new) ruling
            → Contains (all_of self.old ++ ruling_of kept ∷ []) ruling) }
        ensures rulings { OnErr result (rulings_of self.new ≡ rulings_of self.old) }
        ensures absent { OnErr result (absent_of self.new ≡ absent_of self.old) }
        ensures checked { (files : List SourceFile) (all : AllRead)
            → IsChecked files all kept → AreChecked files all self.old
            → AreChecked files all self.new }
    {
        if kept.is_absent() {
            self.absent = Some(kept);
            return Ok(());
        }
        match keep_in(&mut self.rulings, kept) {
            Ok(()) => Ok(()),
            Err(error) => Err(error),
        }
    }
}
