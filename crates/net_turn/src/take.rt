//! What processes that wait for edges give to their bits, all from the numbers before.

ghost use Rattle.std.specs.Prelude.{ℕ, ◌≡◌, length};
ghost use Rattle.std.specs.List.{All};
ghost use Rattle.rtl_bits.specs.Bits.{tabulate};
ghost use Rattle.rtl_flat.specs.Value.{store};
ghost use Rattle.rtl_flat.specs.Flats.{flat, widths};
ghost use Rattle.net_model.specs.Numbers.{AreNumbers};
ghost use Rattle.net_settle.specs.net_body.Ends.{changed_digits};
ghost use Rattle.net_settle.specs.net_solve.Laws.{AreApart};
ghost use Rattle.net_settle.specs.Work.{IsAble};
ghost use Rattle.net_turn.specs.Runs.{ArePut, AreRuns, run_bit, run_of, runs_of, numbers_with};
ghost use Rattle.net_turn.specs.Sources.{CanRun};

use crate::choice::chosen;
use event_model::setting::Setting;
use net_list::clocked::Clocked;
use net_model::fill::Fill;
use net_settle::net_body::Maps;
use rtl_bits::Vec4;
use rtl_flat::expr::SigId;

/// Runs what one process does, if anything, from the old numbers.
fn take_one(
    maps: &mut Maps,
    one: &Clocked,
    before: &[Vec4],
    after: &mut [Vec4],
    turn: &Option<Setting>,
    fill: Fill,
)
    requires able { IsAble maps.old }
    requires can { CanRun maps.old.design.now one.now }
    requires same { (i : ℕ) → store maps.old.numbers.items i ≡ store before.now i }
    requires many { length before.now ≡ length maps.old.design.now.signals.items }
    requires many_after { length after.old ≡ length maps.old.design.now.signals.items }
    requires before { AreNumbers (flat maps.old.design.now) (store before.now) }
    requires after { AreNumbers (flat maps.old.design.now) (store after.old) }
    ensures after { let d = flat maps.old.design.now in
        let old = store before.now in
        let run = run_of old (numbers_with old turn.now) one.now in
        (i : ℕ) → store after.new i
        ≡ changed_digits (old i) (tabulate (widths d i) (run_bit (widths d) fill old run i))
        (store after.old i) }
    ensures same { (i : ℕ) → store maps.new.numbers.items i ≡ store before.now i }
    ensures able { IsAble maps.new }
    ensures design { maps.new.design ≡ maps.old.design }
{
    if let Some(body) = chosen(one, before, turn) {
        maps.run_aside(body, fill, before, after);
    }
}

/// Runs what each process does.
fn take_all(
    maps: &mut Maps,
    clocked: &[Clocked],
    before: &[Vec4],
    after: &mut [Vec4],
    turn: &Option<Setting>,
    fill: Fill,
)
    requires able { IsAble maps.old }
    requires can { All (CanRun maps.old.design.now) clocked.now }
    requires apart { AreApart (flat maps.old.design.now) }
    requires same { (i : ℕ) → store maps.old.numbers.items i ≡ store before.now i }
    requires many { length before.now ≡ length maps.old.design.now.signals.items }
    requires begun { after.old ≡ before.now }
    ensures put { let d = flat maps.old.design.now in
        let old = store before.now in
        let runs = runs_of old (numbers_with old turn.now) clocked.now in
        AreRuns d runs → ArePut d fill old runs (length runs) (store after.new) }
    ensures after { AreNumbers (flat maps.old.design.now) (store after.new) }
    ensures able { IsAble maps.new }
    ensures design { maps.new.design ≡ maps.old.design }
{
    for one in clocked {
        take_one(maps, one, before, after, turn, fill);
    }
}

/// Gives all signals the numbers that were put aside.
fn write_back(maps: &mut Maps, after: &[Vec4])
    requires able { IsAble maps.old }
    requires many { length after.now ≡ length maps.old.design.now.signals.items }
    requires after { AreNumbers (flat maps.old.design.now) (store after.now) }
    ensures numbers { (i : ℕ) → store maps.new.numbers.items i ≡ store after.now i }
    ensures able { IsAble maps.new }
    ensures design { maps.new.design ≡ maps.old.design }
{
    for place in 0..after.len() {
        maps.set(SigId(place as u32), after[place]);
    }
}

/// Gives registers what their processes give to them, all from the numbers before; the room for it is given.
pub(crate) fn take(
    maps: &mut Maps,
    clocked: &[Clocked],
    before: &mut [Vec4],
    after: &mut [Vec4],
    turn: &Option<Setting>,
    fill: Fill,
)
    requires able { IsAble maps.old }
    requires can { All (CanRun maps.old.design.now) clocked.now }
    requires apart { AreApart (flat maps.old.design.now) }
    requires many { length before.old ≡ length maps.old.design.now.signals.items }
    requires many_after { length after.old ≡ length maps.old.design.now.signals.items }
    ensures put { let d = flat maps.old.design.now in
        let old = store maps.old.numbers.items in
        let runs = runs_of old (numbers_with old turn.now) clocked.now in
        AreRuns d runs → ArePut d fill old runs (length runs) (store maps.new.numbers.items) }
    ensures able { IsAble maps.new }
    ensures design { maps.new.design ≡ maps.old.design }
{
    before.copy_from_slice(&maps.numbers);
    after.copy_from_slice(&maps.numbers);
    take_all(maps, clocked, before, after, turn, fill);
    write_back(maps, after);
}
