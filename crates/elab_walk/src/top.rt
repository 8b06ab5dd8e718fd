//! The walk from the top on.

ghost use Rattle.std.specs.Prelude.{◌≡◌, IfOk, map};
ghost use Rattle.std.specs.Option.{option_map};
ghost use Rattle.elab_links.specs.elab_scope.Faults.{answer};
ghost use Rattle.rtl_tree.specs.TreeModule.{circuit};
ghost use Rattle.elab_walk.specs.Rooms.{whole_room};
ghost use Rattle.elab_walk.specs.Placements.{placements};
ghost use Rattle.elab_walk.specs.Trails.{AreDeclared, placement};
ghost use Rattle.elab_walk.specs.Visits.{all_visits, library, top_visit, visit};
ghost use Rattle.elab_walk.specs.Refusals.{come_to, refusal};

use crate::library::Library;
use crate::room::Room;
use crate::trail::{Placement, Trail};
use crate::visit::{Visit, file_of};
use crate::walk::visit;
use elab_links::elab_items::overrides::Overrides;
use elab_links::elab_scope::fault::ElabFault;
use elab_links::module_set::Place;
use elab_parts::elab_body::progress::Left;
use rtl_tree::tree::modules::Module;
use std::alloc::Global;
use text_ground::memory::Memory;
use text_ground::text::{Spot, Text};

/// The most modules on the way from the top to an instance, both counted.
const LEVELS: u32 = 32;

/// The most nodes of all expressions of a design.
const NODES: u32 = 2_000_000;

/// What a design may have.
fn whole_room() -> Room
    ensures { result ≡ whole_room }
{
    Room {
        base: 0,
        number: 0,
        processes: 20_000,
        left: Left {
            statements: 100_000,
            delays: 100_000,
            nodes: NODES,
        },
        extras: 200_000,
    }
}

/// The top: it isn't named anywhere, so its module's place stands for it.
pub fn top_visit(alloc: Global, place: Place, written: &Module) -> Result<Visit<'_>, Memory>
    ensures { IfOk result (λ met. visit met ≡ top_visit place (circuit written.now)) }
{
    let mut way = Vec::new(alloc);
    way.push(&written.name.text)?;
    Ok(Visit {
        path: Text::from_bytes(alloc, written.name.text.as_bytes())?,
        place,
        written,
        overrides: Overrides::new(alloc),
        way,
        spot: Spot {
            file: file_of(place)?,
            at: written.at,
        },
    })
}

/// The instances to which the walk comes from the top on, each before those that it holds, with their numbers.
#[derive(Drop)]
pub struct Walked<'a> {
    pub placements: Vec<Placement<'a>>,
    /// What is told of the last of them, where the walk stops there.
    pub fault: Option<ElabFault>,
}

/// The walk over the instances from the top on, up to the first of which something is told.
///
/// Fails only where memory runs out.
pub fn walk<'a>(alloc: Global, all: Library<'a>, met: Visit<'a>) -> Result<Walked<'a>, Memory>
    ensures told { IfOk result (λ walk. option_map answer walk.fault
        ≡ refusal (library all.entry) whole_room
        (all_visits (library all.entry) (visit met.entry))) }
    ensures placements { IfOk result (λ walk. map placement walk.placements.items
        ≡ placements 0 0 (come_to (library all.entry) whole_room
        (all_visits (library all.entry) (visit met.entry)))) }
    ensures declared { IfOk result (λ walk. AreDeclared walk.placements.items) }
{
    let mut trail = Trail {
        placements: Vec::new(alloc),
        room: whole_room(),
    };
    let fault = match visit(alloc, all, LEVELS, met, &mut trail) {
        Ok(()) => None,
        Err(fault) => match fault {
            ElabFault::Memory => return Err(Memory),
            other => Some(other),
        },
    };
    Ok(Walked {
        placements: trail.placements,
        fault,
    })
}
