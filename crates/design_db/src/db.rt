// The files of the desk, what was read of them, and what they said of tops.
ghost use Rattle.std.specs.Prelude.{◌≡◌, ◌≤◌, ◌+◌, ℕ, List, [], None, length, IfOk, IfSome, IsOk, IsSome, OnErr, OnOk, option_copied};
ghost use Rattle.std.specs.List.{All};
ghost use Rattle.desk_memo.specs.check_conditions.Foreign.{nothing_asked};
ghost use Rattle.desk_files.specs.Limits.{MAX_BYTES};
ghost use Rattle.desk_files.specs.Sources.{has_file, with_file, without_file};
ghost use Rattle.source_file.specs.SourceFiles.{AreShort, texts_in};
ghost use Rattle.desk_memo.specs.Orders.{AreInOrder};
ghost use Rattle.desk_memo.specs.Readings.{AllRead, AreDefined, AreKnown, AreReadings};
ghost use Rattle.desk_memo.specs.Readings.{changed_count, first_refusal, with_blank, without};
ghost use Rattle.desk_memo.specs.ShownReadings.{conditions_of, modules_of, read_of, readings_of};
ghost use Rattle.desk_memo.specs.Rulings.{current_answer, current_of, others_of};
ghost use Rattle.desk_memo.specs.Shown.{AreChecked, absent_of, all_of, rulings_of};
ghost use Rattle.design_db.specs.Answers.{IsFresh, IsRuling};
ghost use Rattle.design_db.specs.Stores.{KeepsRulings, all_rulings, answer_of, changed_in, circuits_in, lasting_answer, refusal_or};

use crate::rules::Rules;
use desk_answers::elab_links::module_set::ModuleSet;
use desk_answers::kept_of;
use desk_answers::law::still_fresh;
use desk_files::{Files, Ready};
use desk_memo::reading_law::{all_asked, all_refused, all_spelled, one_list};
use desk_memo::{Memo, Readings};
use desk_verdict::Verdict;
use source_file::SourceFile;
use std::alloc::Global;
use std::marker::Model;
use std::sync::ledger::Ledger;
use steps::Steps;
use text_ground::memory::Memory;
use text_ground::text::Text;

/// What files say of a top by the rules.
pub type Answer = desk_memo::Answer<Verdict>;

/// Files in the order of the bytes of their names, each of at most 1 MiB, with what was read of
/// each last, and what the files said of tops, with all that it rests on: so an edit costs no more
/// than what it touches.
#[derive(Drop)]
pub struct Db {
    alloc: Global,
    files: Files,
    readings: Readings<Verdict>,
    memo: Memo<Verdict>,
}

impl Model for Db {
    ghost use Rattle.design_db.specs.Stores.{Store};

    ghost Value = { Store };

    ghost use Rattle.rtl_tree.specs.contracts.tree.modules.Module as written;
    ghost use Rattle.std.specs.Coded.{codes};

    ghost coded = { Prim.hlevel (codes, written.the_row.coded) };

    ghost use Rattle.design_db.specs.Shown.{IsWhole, store};

    ghost view = { λ db. store db.files db.readings db.memo };

    ghost invariant = { λ db. IsWhole db.files db.readings db.memo };
}

// Keeps what files that were read say of a top, where no ruling that is kept still holds.
fn rule<L: Ledger>(
    alloc: Global,
    files: &[SourceFile],
    readings: &Readings<Verdict>,
    memo: &mut Memo<Verdict>,
    top: &Text,
    steps: &mut Steps<L>,
) -> Result<(), Memory>
    requires in_order { AreInOrder files.now }
    requires short { AreShort files.now }
    requires right { AreReadings files.now (readings_of readings.now) (modules_of readings.now) }
    requires known { AreKnown (readings_of readings.now) (conditions_of readings.now) }
    requires unchanged { changed_count files.now (readings_of readings.now) ≡ 0 }
    requires checked { AreChecked files.now (read_of readings.now) memo.old }
    requires rulings { All IsRuling (all_of memo.old) }
    ensures counted { steps.new ≤ steps.old + 1 }
    ensures untouched { IsSome (current_of files.now (read_of readings.now) top.now
        (all_of memo.old)) → steps.new ≤ steps.old }
    ensures answered { OnOk result (IsSome (refusal_or (first_refusal (readings_of readings.now))
        (current_answer files.now (read_of readings.now) top.now (all_of memo.new)))) }
    ensures others { OnOk result
        (others_of top.now (rulings_of memo.new) ≡ others_of top.now (rulings_of memo.old)) }
    ensures keeps { OnOk result (KeepsRulings top.now (rulings_of memo.old) (absent_of memo.old)
        (rulings_of memo.new) (absent_of memo.new)) }
    ensures rulings { All IsRuling (all_of memo.new) }
    ensures same { OnErr result (rulings_of memo.new ≡ rulings_of memo.old) }
    ensures absent { OnErr result (absent_of memo.new ≡ absent_of memo.old) }
    ensures checked { AreChecked files.now (read_of readings.now) memo.new }
{
    if readings.refusal().is_some() {
        return Ok(());
    }
    if memo.check(files, readings, top) {
        return Ok(());
    }
    let set = ModuleSet::new(alloc, readings.modules())?;
    let kept = kept_of::<Rules, L>(alloc, files, readings, &set, top, steps)?;
    memo.keep(kept)
}

impl Db {
    /// No files.
    pub fn new(alloc: Global) -> Db
        ensures files { result.files ≡ [] }
        ensures readings { result.readings ≡ [] }
        ensures modules { circuits_in result ≡ [] }
        ensures conditions { result.conditions ≡ [] }
        ensures rulings { result.rulings ≡ [] }
        ensures absent { result.absent ≡ None }
    {
        Db {
            alloc,
            files: Files::new(alloc),
            readings: Readings::new(alloc),
            memo: Memo::new(alloc),
        }
    }

    /// The files, in the order of their names.
    pub fn files(&self) -> &[SourceFile]
        ensures { result.now ≡ self.now.files }
    {
        self.files.as_slice()
    }

    /// A copy of a name and a text, and room for one file more. All that is kept stays.
    ///
    /// # Errors
    ///
    /// Memory ran out.
    pub fn ready(&mut self, name: &Text, text: &Text) -> Result<Ready, Memory>
        ensures file { IfOk result (λ ready. (ready.file.name ≡ name.now)
            × (ready.file.text ≡ text.now)) }
        ensures room { OnOk result (1 ≤ self.new.room) }
        ensures files { self.new.files ≡ self.old.files }
        ensures readings { self.new.readings ≡ self.old.readings }
        ensures modules { circuits_in self.new ≡ circuits_in self.old }
        ensures conditions { self.new.conditions ≡ self.old.conditions }
        ensures rulings { self.new.rulings ≡ self.old.rulings }
        ensures absent { self.new.absent ≡ self.old.absent }
        ensures answers { (top : List ℕ) → answer_of self.new top ≡ answer_of self.old top }
    {
        let ready = self.files.ready(name.as_bytes(), text.as_bytes())?;
        self.readings.reserve()?;
        Ok(ready)
    }

    /// Puts a file that is ready, in place of the one that has its name, which keeps what was read
    /// of it. It takes no memory.
    pub fn put_ready(&mut self, ready: Ready)
        requires room { 1 ≤ self.old.room }
        requires short { length ready.file.text ≤ MAX_BYTES }
        ensures files { self.new.files ≡ with_file ready.file self.old.files }
        ensures readings { self.new.readings
            ≡ with_blank None ready.file.name self.old.files self.old.readings }
        ensures modules { circuits_in self.new
            ≡ with_blank [] ready.file.name self.old.files (circuits_in self.old) }
        ensures conditions { self.new.conditions
            ≡ with_blank nothing_asked ready.file.name self.old.files self.old.conditions }
        ensures rulings { self.new.rulings ≡ self.old.rulings }
        ensures absent { self.new.absent ≡ self.old.absent }
    {
        self.readings.put(self.files.as_slice(), &ready.file);
        self.files.put_ready(ready);
        self.memo.doubt();
    }

    /// Puts a file.
    ///
    /// # Errors
    ///
    /// Memory ran out. Nothing changes then.
    pub fn put(&mut self, name: &Text, text: &Text) -> Result<(), Memory>
        requires { length text.now ≤ MAX_BYTES }
        ensures ok { OnOk result (self.new.files
            ≡ with_file (record { name = name.now; text = text.now }) self.old.files) }
        ensures readings { OnOk result (self.new.readings
            ≡ with_blank None name.now self.old.files self.old.readings) }
        ensures modules { OnOk result (circuits_in self.new
            ≡ with_blank [] name.now self.old.files (circuits_in self.old)) }
        ensures conditions { OnOk result (self.new.conditions
            ≡ with_blank nothing_asked name.now self.old.files self.old.conditions) }
        ensures same { OnErr result (self.new.files ≡ self.old.files) }
        ensures read { OnErr result (self.new.readings ≡ self.old.readings) }
        ensures spelled { OnErr result (circuits_in self.new ≡ circuits_in self.old) }
        ensures asked { OnErr result (self.new.conditions ≡ self.old.conditions) }
        ensures rulings { self.new.rulings ≡ self.old.rulings }
        ensures absent { self.new.absent ≡ self.old.absent }
    {
        let ready = self.ready(name, text)?;
        self.put_ready(ready);
        Ok(())
    }

    /// Drops the file of a name with what was read of it, and says whether there was one. It takes
    /// no memory.
    pub fn drop_file(&mut self, name: &Text) -> bool
        ensures found { result ≡ has_file name.now self.old.files }
        ensures files { self.new.files ≡ without_file name.now self.old.files }
        ensures readings { self.new.readings ≡ without name.now self.old.files self.old.readings }
        ensures modules { circuits_in self.new
            ≡ without name.now self.old.files (circuits_in self.old) }
        ensures conditions { self.new.conditions
            ≡ without name.now self.old.files self.old.conditions }
        ensures rulings { self.new.rulings ≡ self.old.rulings }
        ensures absent { self.new.absent ≡ self.old.absent }
    {
        let name = name.as_bytes();
        self.readings.drop_file(self.files.as_slice(), name);
        self.memo.doubt();
        self.files.drop_file(name)
    }

    // Works out what the files say of a top, where some file isn't as it was read last. What was
    // read stands beside what is kept until nothing can fail any more.
    fn read_and_rule<L: Ledger>(&mut self, top: &Text, steps: &mut Steps<L>) -> Result<(), Memory>
        ensures counted { steps.new ≤ steps.old + changed_in self.old + 1 }
        ensures untouched { (all : AllRead) → AreDefined (texts_in self.old.files) all
            → IsSome (current_of self.old.files all top.now (all_rulings self.old))
            → steps.new ≤ steps.old + changed_in self.old }
        ensures files { self.new.files ≡ self.old.files }
        ensures answered { OnOk result (IsSome (answer_of self.new top.now)) }
        ensures others { OnOk result
            (others_of top.now self.new.rulings ≡ others_of top.now self.old.rulings) }
        ensures keeps { OnOk result (KeepsRulings top.now self.old.rulings self.old.absent
            self.new.rulings self.new.absent) }
        ensures same { OnErr result (self.new ≡ self.old) }
    {
        one_list::<Verdict>();
        let mut aside = self.readings.read_changed(self.files.as_slice(), steps)?;
        self.readings.exchange(&mut aside);
        self.memo.doubt();
        let files = self.files.as_slice();
        match rule(
            self.alloc,
            files,
            &self.readings,
            &mut self.memo,
            top,
            steps,
        ) {
            Ok(()) => Ok(()),
            Err(Memory) => {
                self.readings.exchange(&mut aside);
                self.memo.doubt();
                Err(Memory)
            }
        }
    }

    // Works out what the files say of a top, where all are as they were read last.
    fn rule_again<L: Ledger>(&mut self, top: &Text, steps: &mut Steps<L>) -> Result<(), Memory>
        requires unchanged { changed_in self.old ≡ 0 }
        ensures counted { steps.new ≤ steps.old + 1 }
        ensures untouched { (all : AllRead) → AreDefined (texts_in self.old.files) all
            → IsSome (current_of self.old.files all top.now (all_rulings self.old))
            → steps.new ≤ steps.old }
        ensures files { self.new.files ≡ self.old.files }
        ensures readings { self.new.readings ≡ self.old.readings }
        ensures modules { self.new.modules ≡ self.old.modules }
        ensures conditions { self.new.conditions ≡ self.old.conditions }
        ensures answered { OnOk result (IsSome (answer_of self.new top.now)) }
        ensures others { OnOk result
            (others_of top.now self.new.rulings ≡ others_of top.now self.old.rulings) }
        ensures keeps { OnOk result (KeepsRulings top.now self.old.rulings self.old.absent
            self.new.rulings self.new.absent) }
        ensures same { OnErr result (self.new ≡ self.old) }
    {
        one_list::<Verdict>();
        let files = self.files.as_slice();
        rule(
            self.alloc,
            files,
            &self.readings,
            &mut self.memo,
            top,
            steps,
        )
    }

    /// Works out what the files say of a top, where that isn't known. It takes at most one step for
    /// each file that is new or has another text than when it was read last, and one more where no
    /// ruling of the top that is kept still holds. Where the answer is there it takes neither a step
    /// nor memory.
    ///
    /// # Errors
    ///
    /// Memory ran out. Nothing changes then.
    pub fn ruling<L: Ledger>(&mut self, top: &Text, steps: &mut Steps<L>) -> Result<(), Memory>
        ensures counted { steps.new ≤ steps.old + changed_in self.old + 1 }
        // Where the modules that the texts define mean the same by all that the top looked up, and
        // the conditions of the files that it used are told the same of other files' macros, it isn't
        // elaborated.
        ensures untouched { (all : AllRead) → AreDefined (texts_in self.old.files) all
            → IsSome (current_of self.old.files all top.now (all_rulings self.old))
            → steps.new ≤ steps.old + changed_in self.old }
        ensures again { IsSome (answer_of self.old top.now) → steps.new ≡ steps.old }
        ensures there { IsSome (answer_of self.old top.now) → IsOk result }
        ensures kept { IsSome (answer_of self.old top.now) → self.new ≡ self.old }
        ensures files { self.new.files ≡ self.old.files }
        ensures answered { OnOk result (IsSome (answer_of self.new top.now)) }
        ensures others { OnOk result
            (others_of top.now self.new.rulings ≡ others_of top.now self.old.rulings) }
        // Of its own top the ruling goes that is kept, and where no module has the name, or more
        // than one, the last such.
        ensures keeps { OnOk result (KeepsRulings top.now self.old.rulings self.old.absent
            self.new.rulings self.new.absent) }
        ensures lasting { (other : List ℕ) → IsSome (lasting_answer self.old other)
            → answer_of self.new other ≡ answer_of self.old other }
        ensures same { OnErr result (self.new ≡ self.old) }
    {
        if self.answer(top).is_some() {
            self.check(top);
            return Ok(());
        }
        if self.changed() == 0 {
            return self.rule_again(top, steps);
        }
        self.read_and_rule(top, steps)
    }

    // How many files aren't as they were read last.
    fn changed(&self) -> usize
        ensures { result ≡ changed_in self.now }
    {
        self.readings.changed(self.files.as_slice())
    }

    // From now on it is known that the answer of a top holds, so that asking again is quick.
    fn check(&mut self, top: &Text)
        ensures { self.new ≡ self.old }
    {
        self.memo.check(self.files.as_slice(), &self.readings, top);
    }

    /// What the files say of a top, where that is known. It takes no memory.
    pub fn answer(&self, top: &Text) -> Option<&Answer>
        ensures is { option_copied result ≡ answer_of self.now top.now }
        ensures fresh { IfSome (answer_of self.now top.now) (IsFresh self.now.files top.now) }
    {
        still_fresh::<Rules>();
        all_refused::<Verdict>();
        all_spelled::<Verdict>();
        all_asked::<Verdict>();
        let files = self.files.as_slice();
        if self.readings.changed(files) != 0 {
            return None;
        }
        match self.readings.refusal() {
            Some(refusal) => Some(refusal),
            None => self.memo.answer(files, &self.readings, top),
        }
    }
}
