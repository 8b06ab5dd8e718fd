//! Processes in order.

ghost use Rattle.std.specs.Prelude.{ℕ, ◌≡◌, ◌<◌, length};
ghost use Rattle.rtl_flat.specs.Levels.{IsNode};
ghost use Rattle.rtl_flat.specs.Value.{store};
ghost use Rattle.rtl_flat.specs.Flats.{flat};
ghost use Rattle.net_solve.specs.Laws.{AreApart, IsOrder, IsWorked};
ghost use Rattle.net_settle.specs.Work.{IsAble, Solves, numbers_of};

use net_body::Maps;
use net_model::fill::Fill;
use rtl_flat::act::{Does, ProcId};

/// Works out one process: it gives its bits, and leaves all others.
fn work_one(maps: &mut Maps, p: ProcId, fill: Fill)
    requires able { IsAble maps.old }
    requires node { IsNode (flat maps.old.design.now).tasks p.0 }
    ensures worked { let old = store maps.old.numbers.items in
        IsWorked (flat maps.old.design.now) fill p.0 old (store maps.new.numbers.items) }
    ensures able { IsAble maps.new }
    ensures design { maps.new.design ≡ maps.old.design }
{
    let design = maps.design;
    match &design.processes[p.0 as usize].does {
        Does::Assign { target, value } => maps.drive(target, value, fill),
        Does::Comb { list: _, body } => maps.run(body, fill),
        Does::Edge { events: _, body: _ } => {}
    }
}

/// Works out each process without an edge, once and in order: what comes solves the equations of the design. It takes no
/// memory.
pub fn work(maps: &mut Maps, order: &[ProcId], fill: Fill)
    requires able { IsAble maps.old }
    requires order { IsOrder (flat maps.old.design.now) (numbers_of order.now) }
    requires apart { AreApart (flat maps.old.design.now) }
    ensures solves { let old = store maps.old.numbers.items in
        Solves (flat maps.old.design.now) fill old (store maps.new.numbers.items) }
    ensures able { IsAble maps.new }
    ensures design { maps.new.design ≡ maps.old.design }
{
    for p in order {
        work_one(maps, *p, fill);
    }
}
