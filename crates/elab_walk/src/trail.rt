//! How far the walk over the instances has come.

ghost use Rattle.std.specs.Prelude.{◌≡◌, IfOk, IfSome, None, OnOk};
ghost use Rattle.std.specs.List.{slice_get};
ghost use Rattle.elab_walk.specs.Trails.{AreDeclared, IsDeclared, followed, placement, trail};
ghost use Rattle.elab_walk.specs.Visits.{visit};

use crate::room::Room;
use crate::visit::Visit;
use elab_links::elab_items::declare::declare;
use elab_links::elab_items::roster::Roster;
use std::alloc::Global;
use text_ground::memory::Memory;

/// An instance, its number, and how many signals come before its own.
#[derive(Drop)]
pub struct Placement<'a> {
    pub visit: Visit<'a>,
    pub number: u16,
    pub base: u16,
    /// What its module declares in it, where the walk came past all that it holds.
    pub declared: Option<Roster<'a>>,
}

impl<'a> Placement<'a> {
    /// Takes what its module declares in it, which is worked out where the walk didn't come so far.
    pub fn take_declared(&mut self, alloc: Global) -> Result<Roster<'a>, Memory>
        requires { IfSome self.old.declared (IsDeclared (placement self.old).visit) }
        ensures declared { IfOk result (IsDeclared (placement self.old).visit) }
        ensures same { placement self.new ≡ placement self.old }
        ensures taken { self.new.declared ≡ None }
    {
        match self.declared.take() {
            Some(declared) => Ok(declared),
            None => {
                let declared = declare(alloc, self.visit.written, &self.visit.overrides, 0, None)?;
                Ok(Roster {
                    names: declared.names,
                    signals: declared.signals,
                })
            }
        }
    }

    /// Gives back what was taken.
    pub fn give_declared(&mut self, declared: Roster<'a>)
        requires { IsDeclared (placement self.old).visit declared }
        ensures declared { IfSome self.new.declared (IsDeclared (placement self.new).visit) }
        ensures same { placement self.new ≡ placement self.old }
    {
        self.declared = Some(declared);
    }
}

/// The instances so far, and the room that they leave.
#[derive(Drop)]
pub struct Trail<'a> {
    pub placements: Vec<Placement<'a>>,
    pub room: Room,
}

impl<'a> Trail<'a> {
    /// One instance more, which leaves this room.
    pub(crate) fn follow(&mut self, met: Visit<'a>, room: Room) -> Result<(), Memory>
        ensures followed { OnOk result
            (trail self.new ≡ followed (trail self.old) (visit met.entry) room) }
        ensures declared { AreDeclared self.old.placements.items
            → AreDeclared self.new.placements.items }
    {
        self.placements.push(Placement {
            visit: met,
            number: self.room.number,
            base: self.room.base,
            declared: None,
        })?;
        self.room = room;
        Ok(())
    }

    /// Keeps what the module of the instance in this place declares in it.
    pub(crate) fn keep(&mut self, place: usize, declared: Roster<'a>)
        requires { IfSome (slice_get (trail self.old).placements place)
            (λ at. IsDeclared at.visit declared) }
        ensures same { trail self.new ≡ trail self.old }
        ensures declared { AreDeclared self.old.placements.items
            → AreDeclared self.new.placements.items }
    {
        if let Some(at) = self.placements.get_mut(place) {
            at.declared = Some(declared);
        }
    }
}
