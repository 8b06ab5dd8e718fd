//! Data inputs that are set.

ghost use Rattle.std.specs.Prelude.{ℕ, ◌≡◌, [], ◌∷◌, length, map};
ghost use Rattle.std.specs.List.{All};
ghost use Rattle.rtl_flat.specs.Value.{store};
ghost use Rattle.rtl_flat.specs.Flats.{flat};
ghost use Rattle.net_model.specs.Cycle as cycle;
ghost use Rattle.net_solve.specs.Laws.{AreApart, IsOrder};
ghost use Rattle.net_settle.specs.Work.{IsAble, numbers_of};
ghost use Rattle.net_settle.specs.Settle.{IsSolved, MakesCycle, SetsInput, setting_view};

use crate::work::work;
use event_model::setting::Setting;
use net_body::Maps;
use net_model::fill::Fill;
use rtl_flat::act::ProcId;

/// Sets one input.
fn set_one(maps: &mut Maps, setting: &Setting)
    requires able { IsAble maps.old }
    requires sets { SetsInput (flat maps.old.design.now) (setting_view setting.now) }
    ensures numbers { store maps.new.numbers.items
        ≡ cycle.given_after (store maps.old.numbers.items) (setting_view setting.now ∷ []) }
    ensures able { IsAble maps.new }
    ensures design { maps.new.design ≡ maps.old.design }
{
    maps.set(setting.signal, setting.value);
}

/// Sets inputs one after another: of two settings of one input the last counts.
fn set_all(maps: &mut Maps, settings: &[Setting])
    requires able { IsAble maps.old }
    requires sets { All (SetsInput (flat maps.old.design.now)) (map setting_view settings.now) }
    ensures numbers { store maps.new.numbers.items
        ≡ cycle.given_after (store maps.old.numbers.items) (map setting_view settings.now) }
    ensures able { IsAble maps.new }
    ensures design { maps.new.design ≡ maps.old.design }
{
    for setting in settings {
        set_one(maps, setting);
    }
}

/// Sets data inputs and works out what follows: from a solution it comes to the numbers after the step. It takes no memory.
pub fn settle(maps: &mut Maps, order: &[ProcId], settings: &[Setting], fill: Fill)
    requires able { IsAble maps.old }
    requires order { IsOrder (flat maps.old.design.now) (numbers_of order.now) }
    requires apart { AreApart (flat maps.old.design.now) }
    requires sets { All (SetsInput (flat maps.old.design.now)) (map setting_view settings.now) }
    ensures cycle { let d = flat maps.old.design.now in
        let old = store maps.old.numbers.items in
        let step = cycle.Data (map setting_view settings.now) in
        IsSolved d fill old → MakesCycle d fill old step (store maps.new.numbers.items) }
    ensures able { IsAble maps.new }
    ensures design { maps.new.design ≡ maps.old.design }
{
    set_all(maps, settings);
    work(maps, order, fill);
}
