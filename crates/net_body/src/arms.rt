//! Items of a case that run side by side.

ghost use Rattle.std.specs.Prelude.{ℕ, ◌≡◌, ◌∷◌, [], ◌&&◌, ◌||◌, List, None, Some, cond, false, length, not, replicate, slice_index_or, unwrap_or};
ghost use Rattle.rtl_bits.specs.declared.Bit.TheVariants.{X, Zero};
ghost use Rattle.rtl_bits.specs.Bit.{or_bit};
ghost use Rattle.rtl_bits.specs.Bits.{is_one_at, tabulate, zip_with};
ghost use Rattle.net_model.specs.Block.{Maps, fresh, joined_arms};
ghost use Rattle.rtl_flat.specs.Value.{store};
ghost use Rattle.net_body.specs.Asides.{AreAside, HaveSums, IsBounded};
ghost use Rattle.net_body.specs.Marks.{HaveMarks, maps, next_bit, view_at};

use crate::bits::merged;
use crate::mark::Mark;
use rtl_bits::{Bit, Vec4};

/// What a case keeps of a signal while its items run side by side.
#[derive(Clone, Copy)]
pub struct Aside {
    /// Its digits before the case.
    pub number: Vec4,
    /// What was written of it before the case.
    pub mark: Mark,
    /// What the items that ran make of it together.
    pub sum: Vec4,
    /// The bits that one of them wrote.
    pub wrote: u128,
    /// The bits that a nonblocking assignment of one of them wrote.
    pub late: u128,
}

impl Aside {
    /// Nothing has run.
    pub(crate) fn new(number: Vec4, mark: Mark) -> Aside
        ensures number { result.number ≡ number }
        ensures mark { result.mark ≡ mark }
        ensures sum { result.sum ≡ replicate (length number) Zero }
        ensures wrote { (k : ℕ) → is_one_at result.wrote k ≡ false }
        ensures late { (k : ℕ) → is_one_at result.late k ≡ false }
    {
        Aside {
            number,
            mark,
            sum: Vec4::filled(number.width(), Bit::Zero),
            wrote: 0,
            late: 0,
        }
    }

    /// One item more has run.
    fn with(self, number: Vec4, mark: Mark) -> Aside
        requires next { length mark.next ≡ length number }
        requires sum { length self.sum ≡ length number }
        ensures number { result.number ≡ self.number }
        ensures mark { result.mark ≡ self.mark }
        ensures sum { result.sum ≡ zip_with or_bit
            (tabulate (length number) (λ k.
            unwrap_or (next_bit mark k) (slice_index_or number k X))) self.sum }
        ensures wrote { (k : ℕ) → is_one_at result.wrote k
            ≡ (is_one_at mark.wrote k || is_one_at self.wrote k) }
        ensures late { (k : ℕ) → is_one_at result.late k
            ≡ (is_one_at mark.late k || is_one_at self.late k) }
        ensures width { length result.sum ≡ length self.sum }
    {
        Aside {
            number: self.number,
            mark: self.mark,
            sum: merged(mark.has_next, mark.next, number).or(self.sum),
            wrote: mark.wrote | self.wrote,
            late: mark.late | self.late,
        }
    }

    /// The mark before the case, with nothing written in it.
    fn fresh_mark(self) -> Mark
        ensures next { (k : ℕ) → next_bit result k ≡ next_bit self.mark k }
        ensures wrote { (k : ℕ) → is_one_at result.wrote k ≡ false }
        ensures late { (k : ℕ) → is_one_at result.late k ≡ false }
        ensures width { length result.next ≡ length self.mark.next }
    {
        let mark = self.mark;
        Mark {
            next: mark.next,
            has_next: mark.has_next,
            wrote: 0,
            late: 0,
        }
    }

    /// The digits after all of them.
    fn joined_number(self) -> Vec4
        requires { length self.sum ≡ length self.number }
        ensures bits { result ≡ tabulate (length self.number)
            (λ k. cond (is_one_at self.wrote k && not (is_one_at self.late k))
            (slice_index_or self.sum k X) (slice_index_or self.number k X)) }
        ensures width { length result ≡ length self.number }
    {
        merged(self.wrote & (self.wrote ^ self.late), self.sum, self.number)
    }

    /// The mark after all of them.
    fn joined_mark(self) -> Mark
        requires { length self.sum ≡ length self.mark.next }
        ensures next { (k : ℕ) → next_bit result k
            ≡ cond (is_one_at self.late k) (Some (slice_index_or self.sum k X))
            (next_bit self.mark k) }
        ensures wrote { (k : ℕ) → is_one_at result.wrote k
            ≡ (is_one_at self.wrote k || is_one_at self.mark.wrote k) }
        ensures late { (k : ℕ) → is_one_at result.late k
            ≡ (is_one_at self.late k || is_one_at self.mark.late k) }
        ensures width { length result.next ≡ length self.mark.next }
    {
        let late = self.late;
        let wrote = self.wrote;
        let sum = self.sum;
        let mark = self.mark;
        Mark {
            next: merged(late, sum, mark.next),
            has_next: late | mark.has_next,
            wrote: wrote | mark.wrote,
            late: late | mark.late,
        }
    }
}

/// Puts the maps before a case aside.
fn keep(numbers: &[Vec4], marks: &[Mark], asides: &mut [Aside])
    requires marks { length marks.now ≡ length numbers.now }
    requires asides { length asides.old ≡ length numbers.now }
    requires widths { HaveMarks numbers.now marks.now }
    ensures asides { AreAside (maps numbers.now marks.now) [] asides.new }
    ensures sums { HaveSums numbers.now asides.new }
{
    for place in 0..asides.len() {
        asides[place] = Aside::new(numbers[place], marks[place]);
    }
}

/// Goes on with nothing written.
fn freshen(numbers: &[Vec4], marks: &mut [Mark])
    requires widths { HaveMarks numbers.now marks.old }
    ensures maps { maps numbers.now marks.new ≡ fresh (maps numbers.now marks.old) }
    ensures widths { HaveMarks numbers.now marks.new }
{
    for place in 0..marks.len() {
        marks[place] = marks[place].fresh();
    }
}

/// Puts the maps before a case aside, and goes on with nothing written.
pub(crate) fn set_aside(numbers: &[Vec4], marks: &mut [Mark], asides: &mut [Aside])
    requires marks { length marks.old ≡ length numbers.now }
    requires asides { length asides.old ≡ length numbers.now }
    requires widths { HaveMarks numbers.now marks.old }
    ensures asides { AreAside (maps numbers.now marks.old) [] asides.new }
    ensures fresh { maps numbers.now marks.new ≡ fresh (maps numbers.now marks.old) }
    ensures widths { HaveMarks numbers.now marks.new }
    ensures sums { HaveSums numbers.now asides.new }
{
    keep(numbers, marks, asides);
    freshen(numbers, marks);
}

/// Adds what an item made.
fn add(numbers: &[Vec4], marks: &[Mark], asides: &mut [Aside])
    requires marks { length marks.now ≡ length numbers.now }
    requires asides { length asides.old ≡ length numbers.now }
    requires widths { HaveMarks numbers.now marks.now }
    requires same { HaveSums numbers.now asides.old }
    ensures asides { (m : Maps) (arms : List Maps) → AreAside m arms asides.old
        → AreAside m (maps numbers.now marks.now ∷ arms) asides.new }
    ensures sums { HaveSums numbers.now asides.new }
{
    for place in 0..asides.len() {
        asides[place] = asides[place].with(numbers[place], marks[place]);
    }
}

/// Goes back to the digits before the case.
fn restore_numbers(numbers: &mut [Vec4], asides: &[Aside])
    requires { length asides.now ≡ length numbers.old }
    ensures { (i : ℕ) → store numbers.new i ≡ view_at (λ aside. aside.number) [] asides.now i }
{
    for place in 0..asides.len() {
        let aside = asides[place];
        numbers[place] = aside.number;
    }
}

/// Goes back to the marks before the case, with nothing written.
fn restore_marks(marks: &mut [Mark], asides: &[Aside])
    requires { length asides.now ≡ length marks.old }
    ensures next { (i : ℕ) → view_at next_bit (λ j. None) marks.new i
        ≡ view_at (λ aside. next_bit aside.mark) (λ j. None) asides.now i }
    ensures wrote { (i : ℕ) → view_at (λ mark. is_one_at mark.wrote) (λ j. false) marks.new i
        ≡ (λ k. false) }
    ensures late { (i : ℕ) → view_at (λ mark. is_one_at mark.late) (λ j. false) marks.new i
        ≡ (λ k. false) }
    ensures widths { (i : ℕ) → view_at (λ mark. length mark.next) 0 marks.new i
        ≡ view_at (λ aside. length aside.mark.next) 0 asides.now i }
{
    for place in 0..asides.len() {
        let aside = asides[place];
        marks[place] = aside.fresh_mark();
    }
}

/// Adds what an item made, and goes back to the maps before the case.
pub(crate) fn collect(numbers: &mut [Vec4], marks: &mut [Mark], asides: &mut [Aside])
    requires marks { length marks.old ≡ length numbers.old }
    requires asides { length asides.old ≡ length numbers.old }
    requires widths { HaveMarks numbers.old marks.old }
    requires same { HaveSums numbers.old asides.old }
    ensures asides { (m : Maps) (arms : List Maps) → AreAside m arms asides.old
        → AreAside m (maps numbers.old marks.old ∷ arms) asides.new }
    ensures maps { (m : Maps) (arms : List Maps) → AreAside m arms asides.old
        → maps numbers.new marks.new ≡ fresh m }
    ensures widths { HaveMarks numbers.new marks.new }
    ensures sums { HaveSums numbers.new asides.new }
{
    add(numbers, marks, asides);
    restore_numbers(numbers, asides);
    restore_marks(marks, asides);
}

/// The digits after all items that ran.
fn join_numbers(numbers: &mut [Vec4], asides: &[Aside])
    requires asides { length asides.now ≡ length numbers.old }
    requires same { HaveSums numbers.old asides.now }
    ensures { (m : Maps) (arms : List Maps) → AreAside m arms asides.now → (i : ℕ)
        → store numbers.new i ≡ (joined_arms m arms).now i }
{
    for place in 0..asides.len() {
        let aside = asides[place];
        numbers[place] = aside.joined_number();
    }
}

/// The marks after all items that ran.
fn join_marks(numbers: &[Vec4], marks: &mut [Mark], asides: &[Aside])
    requires asides { length asides.now ≡ length marks.old }
    requires same { HaveSums numbers.now asides.now }
    ensures next { (m : Maps) (arms : List Maps) → AreAside m arms asides.now → IsBounded m arms
        → (i k : ℕ) → view_at next_bit (λ j. None) marks.new i k ≡ (joined_arms m arms).next i k }
    ensures wrote { (m : Maps) (arms : List Maps) → AreAside m arms asides.now → (i k : ℕ)
        → view_at (λ mark. is_one_at mark.wrote) (λ j. false) marks.new i k
        ≡ (joined_arms m arms).wrote i k }
    ensures late { (m : Maps) (arms : List Maps) → AreAside m arms asides.now → (i k : ℕ)
        → view_at (λ mark. is_one_at mark.late) (λ j. false) marks.new i k
        ≡ (joined_arms m arms).late i k }
    ensures widths { HaveMarks numbers.now marks.new }
{
    for place in 0..asides.len() {
        let aside = asides[place];
        marks[place] = aside.joined_mark();
    }
}

/// The maps after all items that ran.
pub(crate) fn join(numbers: &mut [Vec4], marks: &mut [Mark], asides: &[Aside])
    requires marks { length marks.old ≡ length numbers.old }
    requires asides { length asides.now ≡ length numbers.old }
    requires same { HaveSums numbers.old asides.now }
    ensures maps { (m : Maps) (arms : List Maps) → AreAside m arms asides.now → IsBounded m arms
        → maps numbers.new marks.new ≡ joined_arms m arms }
    ensures widths { (m : Maps) (arms : List Maps) → AreAside m arms asides.now
        → HaveMarks numbers.new marks.new }
{
    join_marks(numbers, marks, asides);
    join_numbers(numbers, asides);
}
