//! The delays of items, which have no meaning in the design, with the processes that they stand in.

ghost use Rattle.std.specs.Prelude.{◌≡◌, ◌≤◌, ◌<◌, ◌+◌, ◌^◌, ◌∷◌, [], ◌++◌, OnOk, length, map};
ghost use Rattle.rtl_tree.specs.TreeItem.{module_item};
ghost use Rattle.rtl_tree.specs.TreeStmt.{action};
ghost use Rattle.elab_body.specs.elab_scope.Names.{meanings};
ghost use Rattle.elab_body.specs.Bodies.{steps};
ghost use Rattle.elab_body.specs.Steps.{delays_of};
ghost use Rattle.elab_parts.specs.Delays.{delay_in, item_delays, repeated};
ghost use Rattle.elab_parts.specs.Items.{item_places};

use crate::pauses::pauses_of;
use crate::places::count_of;
use elab_body::elab_scope::names::Names;
use elab_body::elab_scope::size::Site;
use rtl_flat::act::ProcId;
use rtl_flat::instance::Delay;
use rtl_tree::tree::item::Item;
use rtl_tree::tree::stmt::Stmt;
use text_ground::memory::Memory;
use text_ground::text::Spot;

/// The same delay in so many processes in a row.
fn push_repeated(
    first: usize,
    count: usize,
    spot: Spot,
    delays: &mut Vec<Delay>,
) -> Result<(), Memory>
    requires { first + count ≤ 2 ^ 32 }
    ensures { OnOk result (delays.new.items
        ≡ delays.old.items ++ repeated spot.file first spot.at count) }
{
    for index in 0..count {
        let process = ProcId((first + index) as u32);
        delays.push(Delay { process, spot })?;
    }
    Ok(())
}

/// Delays of one process at these places.
fn push_places(
    places: &[u32],
    process: u32,
    file: u32,
    delays: &mut Vec<Delay>,
) -> Result<(), Memory>
    ensures { OnOk result (delays.new.items
        ≡ delays.old.items ++ map (delay_in file process) places.now) }
{
    for at in places {
        let spot = Spot { file, at: *at };
        delays.push(Delay {
            process: ProcId(process),
            spot,
        })?;
    }
    Ok(())
}

/// The delays of a body.
fn push_body(
    body: &Stmt,
    names: &mut Names,
    site: Site,
    process: u32,
    delays: &mut Vec<Delay>,
) -> Result<(), Memory>
    ensures made { OnOk result (delays.new.items
        ≡ delays.old.items ++ map (delay_in site.file process)
        (delays_of (steps (action body.now) (meanings names.old)))) }
    ensures same { meanings names.new ≡ meanings names.old }
{
    let places = pauses_of(body, names, site.alloc)?;
    push_places(&places, process, site.file, delays)
}

/// The delays of an item whose first process has the number `first`, behind others.
pub fn push_delays(
    item: &Item,
    names: &mut Names,
    site: Site,
    first: usize,
    delays: &mut Vec<Delay>,
) -> Result<(), Memory>
    requires { first + length (item_places (module_item item.now)) ≤ 2 ^ 32 }
    ensures made { OnOk result (delays.new.items
        ≡ delays.old.items ++ item_delays site.file first (meanings names.old)
        (module_item item.now)) }
    ensures same { meanings names.new ≡ meanings names.old }
{
    match item {
        Item::Assigns(_, Some(delay), _)
        | Item::Gates {
            delay: Some(delay),
            ..
        } => {
            let spot = Spot {
                file: site.file,
                at: delay.at,
            };
            push_repeated(first, count_of(item), spot, delays)?
        }
        Item::Always(_, _, body) => push_body(body, names, site, first as u32, delays)?,
        Item::Assigns(_, None, _)
        | Item::Gates { delay: None, .. }
        | Item::Ports(_, _)
        | Item::Wires { .. }
        | Item::Regs { .. }
        | Item::Integers(_, _)
        | Item::Parameters { .. }
        | Item::Instances { .. } => {}
    }
    Ok(())
}
