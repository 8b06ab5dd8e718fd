//! A clock, a reset or a gate changes; and where a simulation begins.

ghost use Rattle.std.specs.Prelude.{ℕ, ◌≡◌, [], ◌∷◌, false, length, Some};
ghost use Rattle.std.specs.List.{All};
ghost use Rattle.rtl_flat.specs.Value.{store};
ghost use Rattle.rtl_flat.specs.Flats.{flat};
ghost use Rattle.net_model.specs.Cycle as cycle;
ghost use Rattle.net_settle.specs.net_solve.Laws.{AreApart, IsOrder};
ghost use Rattle.net_settle.specs.Work.{IsAble, numbers_of};
ghost use Rattle.net_settle.specs.Settle.{SetsInput, setting_view};
ghost use Rattle.net_turn.specs.Sources.{CanRun};
ghost use Rattle.net_turn.specs.Steps.{Begins, Turns};

use crate::take::take;
use event_model::setting::Setting;
use net_list::clocked::Clocked;
use net_model::fill::Fill;
use net_settle::net_body::Maps;
use net_settle::work::work;
use rtl_bits::Vec4;
use rtl_flat::act::ProcId;

/// Sets a clock, a reset or a gate and works out what follows: from a solution it comes to the numbers after the step. It
/// takes no memory.
pub fn turn(
    maps: &mut Maps,
    order: &[ProcId],
    clocked: &[Clocked],
    before: &mut [Vec4],
    after: &mut [Vec4],
    setting: &Setting,
    fill: Fill,
)
    requires able { IsAble maps.old }
    requires order { IsOrder (flat maps.old.design.now) (numbers_of order.now) }
    requires apart { AreApart (flat maps.old.design.now) }
    requires can { All (CanRun maps.old.design.now) clocked.now }
    requires sets { SetsInput (flat maps.old.design.now) (setting_view setting.now) }
    requires many { length before.old ≡ length maps.old.design.now.signals.items }
    requires many_after { length after.old ≡ length maps.old.design.now.signals.items }
    ensures turns { Turns (flat maps.old.design.now) fill clocked.now
        (store maps.old.numbers.items) (setting_view setting.now) (store maps.new.numbers.items) }
    ensures able { IsAble maps.new }
    ensures design { maps.new.design ≡ maps.old.design }
{
    let turn = Some(*setting);
    take(maps, clocked, before, after, &turn, fill);
    maps.set(setting.signal, setting.value);
    work(maps, order, fill);
}

/// Works out the solution with which a simulation begins, where an active reset gives its constants. It takes no memory.
pub fn begin(
    maps: &mut Maps,
    order: &[ProcId],
    clocked: &[Clocked],
    before: &mut [Vec4],
    after: &mut [Vec4],
    fill: Fill,
)
    requires able { IsAble maps.old }
    requires order { IsOrder (flat maps.old.design.now) (numbers_of order.now) }
    requires apart { AreApart (flat maps.old.design.now) }
    requires can { All (CanRun maps.old.design.now) clocked.now }
    requires many { length before.old ≡ length maps.old.design.now.signals.items }
    requires many_after { length after.old ≡ length maps.old.design.now.signals.items }
    ensures begins { Begins (flat maps.old.design.now) fill clocked.now
        (store maps.old.numbers.items) (store maps.new.numbers.items) }
    ensures able { IsAble maps.new }
    ensures design { maps.new.design ≡ maps.old.design }
{
    take(maps, clocked, before, after, &None, fill);
    work(maps, order, fill);
}
