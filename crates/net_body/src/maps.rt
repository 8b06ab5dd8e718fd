//! The digits of all signals, and room for what bodies make of them.

ghost use Rattle.std.specs.Prelude.{ℕ, ◌≡◌, ◌≤◌, ◌<◌, ◌*◌, cond, length, map, None, false, IfOk};
ghost use Rattle.std.specs.List.{All};
ghost use Rattle.rtl_bits.specs.Bits.{is_one_at, tabulate};
ghost use Rattle.rtl_flat.specs.Expression.{tree};
ghost use Rattle.rtl_flat.specs.Flows.{may_target};
ghost use Rattle.rtl_flat.specs.Process.{Assign, action, body_of, doing, piece};
ghost use Rattle.rtl_flat.specs.Signs.{width_in};
ghost use Rattle.rtl_flat.specs.Value.{store};
ghost use Rattle.rtl_flat.specs.WellFormed.{IsBody, IsProcess, process_statements};
ghost use Rattle.rtl_flat.specs.Flats.{flat};
ghost use Rattle.event_model.specs.Writes.{driven, put};
ghost use Rattle.net_model.specs.Block.{first_maps, block_bit};
ghost use Rattle.net_model.specs.Numbers.{AreNumbers, bit, digits};
ghost use Rattle.net_body.specs.Ends.{changed_digits};
ghost use Rattle.net_body.specs.Levels.{levels_of, process_levels};
ghost use Rattle.net_body.specs.Marks.{AreKept, AreStored, HaveMarks, maps, next_bit, view_at};
ghost use Rattle.net_body.specs.Ready.{HasRoom, IsReady};

use crate::arms::Aside;
use crate::choices::evaluate;
use crate::drives::connect;
use crate::ends::end_all;
use crate::entries::Entry;
use crate::mark::Mark;
use crate::rooms::process_depth;
use crate::statements::run_all;
use net_model::fill::Fill;
use rtl_bits::{Bit, Vec4};
use rtl_flat::act::{Act, Process, Target};
use rtl_flat::design::Design;
use rtl_flat::expr::{SigId, SizedExpr};
use std::alloc::Global;
use text_ground::memory::Memory;

/// The digits of all signals of a design, and room for what bodies make of them.
#[derive(Drop)]
pub struct Maps<'d> {
    pub design: &'d Design,
    /// The digits of each signal.
    pub numbers: Vec<Vec4>,
    marks: Vec<Mark>,
    entries: Vec<Entry>,
    room: Vec<Aside>,
}

/// Marks in which nothing is written.
fn clear_marks(alloc: Global, numbers: &[Vec4]) -> Result<Vec<Mark>, Memory>
    ensures count { IfOk result (λ marks. length marks.items ≡ length numbers.now) }
    ensures next { IfOk result (λ marks. (i k : ℕ) → view_at next_bit (λ j. None) marks.items i k
        ≡ None) }
    ensures wrote { IfOk result (λ marks. (i k : ℕ)
        → view_at (λ mark. is_one_at mark.wrote) (λ j. false) marks.items i k ≡ false) }
    ensures late { IfOk result (λ marks. (i k : ℕ)
        → view_at (λ mark. is_one_at mark.late) (λ j. false) marks.items i k ≡ false) }
    ensures widths { IfOk result (λ marks. HaveMarks numbers.now marks.items) }
{
    let mut marks = Vec::new(alloc);
    for number in numbers {
        marks.push(Mark::clear(*number))?;
    }
    Ok(marks)
}

/// How deep cases with `parallel_case` stand in one another in the bodies of processes.
fn most_depth(processes: &[Process]) -> usize
    requires { All (λ process. process_statements (doing process.does) ≤ 100000) processes.now }
    ensures each { All (λ process. process_levels (doing process.does) ≤ result) processes.now }
    ensures at_most { result ≤ 100000 }
{
    let mut most = 0;
    for process in processes {
        most = most.max(process_depth(&process.does));
    }
    most
}

/// Runs a body from maps in which nothing is written, up to its end.
fn run_body(
    design: &Design,
    body: &[Act],
    fill: Fill,
    numbers: &mut [Vec4],
    marks: &mut [Mark],
    entries: &mut [Entry],
    room: &mut [Aside],
)
    requires body { IsBody design.now.signals.items (body_of (map action body.now)) }
    requires kept { AreKept design.now.signals.items numbers.old marks.old }
    requires clear { maps numbers.old marks.old ≡ first_maps (store numbers.old) }
    requires entries { 128 ≤ length entries.old }
    requires room { levels_of (body_of (map action body.now)) * length design.now.signals.items
        ≤ length room.old }
    ensures numbers { (i : ℕ) → store numbers.new i
        ≡ tabulate (width_in design.now.signals.items i)
        (λ k. block_bit (width_in design.now.signals.items) fill (store numbers.old)
        (body_of (map action body.now)) i k) }
    ensures kept { AreKept design.now.signals.items numbers.new marks.new }
    ensures clear { maps numbers.new marks.new ≡ first_maps (store numbers.new) }
{
    run_all(design, body, fill, numbers, marks, entries, room);
    end_all(&design.signals, body, false, &[], numbers, marks, &mut []);
}

/// Runs a body, puts aside what it changed, and goes back to the digits from before.
fn run_beside(
    design: &Design,
    body: &[Act],
    fill: Fill,
    before: &[Vec4],
    numbers: &mut [Vec4],
    marks: &mut [Mark],
    after: &mut [Vec4],
    entries: &mut [Entry],
    room: &mut [Aside],
)
    requires body { IsBody design.now.signals.items (body_of (map action body.now)) }
    requires kept { AreKept design.now.signals.items numbers.old marks.old }
    requires clear { maps numbers.old marks.old ≡ first_maps (store numbers.old) }
    requires entries { 128 ≤ length entries.old }
    requires room { levels_of (body_of (map action body.now)) * length design.now.signals.items
        ≤ length room.old }
    requires same { (i : ℕ) → store numbers.old i ≡ store before.now i }
    requires many { length before.now ≡ length design.now.signals.items }
    requires many_after { length after.old ≡ length design.now.signals.items }
    requires before { AreNumbers (flat design.now) (store before.now) }
    requires after { AreNumbers (flat design.now) (store after.old) }
    ensures after { let ws = width_in design.now.signals.items in
        let old = store before.now in
        let body = body_of (map action body.now) in
        (i : ℕ) → store after.new i
        ≡ changed_digits (old i) (tabulate (ws i) (block_bit ws fill old body i)) (store after.old i) }
    ensures numbers { (i : ℕ) → store numbers.new i ≡ store before.now i }
    ensures kept { AreKept design.now.signals.items numbers.new marks.new }
    ensures clear { maps numbers.new marks.new ≡ first_maps (store numbers.new) }
{
    run_all(design, body, fill, numbers, marks, entries, room);
    end_all(&design.signals, body, true, before, numbers, marks, after);
}

impl<'d> Maps<'d> {
    /// The digits that are given, with room for every body of the design.
    pub fn new(alloc: Global, design: &'d Design, numbers: Vec<Vec4>) -> Result<Maps<'d>, Memory>
        requires { AreStored design.now.signals.items numbers.items }
        ensures ready { IfOk result (λ m. IsReady m) }
        ensures numbers { IfOk result (λ m. m.numbers.items ≡ numbers.items) }
        ensures design { IfOk result (λ m. m.design.now ≡ design.now) }
        ensures room { IfOk result (λ m.
            All (λ process. process_levels (doing process.does) * length design.now.signals.items
            ≤ length m.room.items) design.now.processes.items) }
    {
        let marks = clear_marks(alloc, &numbers)?;
        let filler = Vec4::of_bit(Bit::Zero);
        let entry = Entry {
            signal: SigId(0),
            span: None,
            bits: filler,
        };
        let entries = vec![in alloc; entry; 128]?;
        let depth = most_depth(&design.processes);
        let aside = Aside::new(filler, Mark::clear(filler));
        let room = vec![in alloc; aside; depth * design.signals.len()]?;
        Ok(Maps {
            design,
            numbers,
            marks,
            entries,
            room,
        })
    }

    /// The digits of each signal.
    pub fn numbers(&self) -> &[Vec4]
        ensures { result.now ≡ self.now.numbers.items }
    {
        &self.numbers
    }

    /// Gives a signal a number of its width.
    pub fn set(&mut self, signal: SigId, number: Vec4)
        requires ready { IsReady self.old }
        requires there { signal.0 < length self.old.design.now.signals.items }
        requires width { length number ≡ width_in self.old.design.now.signals.items signal.0 }
        ensures numbers { store self.new.numbers.items
            ≡ put (store self.old.numbers.items) signal.0 number }
        ensures ready { IsReady self.new }
        ensures design { self.new.design ≡ self.old.design }
        ensures room { length self.new.room.items ≡ length self.old.room.items }
    {
        let place = signal.0 as usize;
        self.numbers[place] = number;
    }

    /// Gives the target of a continuous assignment its expression's number. It takes no memory.
    pub fn drive(&mut self, target: &Target, value: &SizedExpr, fill: Fill)
        requires ready { IsReady self.old }
        requires assignment { IsProcess self.old.design.now.signals.items
            (Assign (map piece target.now.parts.items) (tree value.now)) }
        ensures numbers { (i : ℕ) → store self.new.numbers.items i
            ≡ tabulate (width_in self.old.design.now.signals.items i)
            (λ k. cond (may_target (width_in self.old.design.now.signals.items)
            (map piece target.now.parts.items) i k)
            (bit (driven (width_in self.old.design.now.signals.items)
            (map piece target.now.parts.items)
            (digits fill (store self.old.numbers.items) (tree value.now))) i k)
            (bit (store self.old.numbers.items) i k)) }
        ensures ready { IsReady self.new }
        ensures design { self.new.design ≡ self.old.design }
        ensures room { length self.new.room.items ≡ length self.old.room.items }
    {
        let bits = evaluate(self.design, value, fill, &self.numbers);
        connect(
            &self.design.signals,
            &target.parts,
            bits,
            fill,
            &mut self.numbers,
            &mut self.entries,
        );
    }

    /// Gives each bit what the function of a body gives to it. It takes no memory.
    pub fn run(&mut self, body: &[Act], fill: Fill)
        requires ready { IsReady self.old }
        requires body { IsBody self.old.design.now.signals.items (body_of (map action body.now)) }
        requires room { HasRoom self.old (body_of (map action body.now)) }
        ensures numbers { (i : ℕ) → store self.new.numbers.items i
            ≡ tabulate (width_in self.old.design.now.signals.items i)
            (λ k. block_bit (width_in self.old.design.now.signals.items) fill
            (store self.old.numbers.items) (body_of (map action body.now)) i k) }
        ensures ready { IsReady self.new }
        ensures design { self.new.design ≡ self.old.design }
        ensures room { length self.new.room.items ≡ length self.old.room.items }
    {
        run_body(
            self.design,
            body,
            fill,
            &mut self.numbers,
            &mut self.marks,
            &mut self.entries,
            &mut self.room,
        );
    }

    /// Runs a body from the digits before, puts aside what it changed of them, and goes back to
    /// them. It takes no memory.
    pub fn run_aside(&mut self, body: &[Act], fill: Fill, before: &[Vec4], after: &mut [Vec4])
        requires ready { IsReady self.old }
        requires body { IsBody self.old.design.now.signals.items (body_of (map action body.now)) }
        requires room { HasRoom self.old (body_of (map action body.now)) }
        requires same { (i : ℕ) → store self.old.numbers.items i ≡ store before.now i }
        requires many { length before.now ≡ length self.old.design.now.signals.items }
        requires many_after { length after.old ≡ length self.old.design.now.signals.items }
        requires before { AreNumbers (flat self.old.design.now) (store before.now) }
        requires after { AreNumbers (flat self.old.design.now) (store after.old) }
        ensures after { let ws = width_in self.old.design.now.signals.items in
            let old = store before.now in
            let body = body_of (map action body.now) in
            (i : ℕ) → store after.new i
            ≡ changed_digits (old i) (tabulate (ws i) (block_bit ws fill old body i)) (store after.old i) }
        ensures numbers { (i : ℕ) → store self.new.numbers.items i ≡ store before.now i }
        ensures ready { IsReady self.new }
        ensures design { self.new.design ≡ self.old.design }
        ensures room { length self.new.room.items ≡ length self.old.room.items }
    {
        run_beside(
            self.design,
            body,
            fill,
            before,
            &mut self.numbers,
            &mut self.marks,
            after,
            &mut self.entries,
            &mut self.room,
        );
    }
}
