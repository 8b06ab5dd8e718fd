//! What instances are in a flat design.

ghost use Rattle.std.specs.Prelude.{◌≡◌, ◌+◌, ◌<◌, ◌++◌, IfOk, IfSome, None, OnOk, drop, length, map};
ghost use Rattle.std.specs.List.{flat_map, slice_get};
ghost use Rattle.elab_walk.specs.Placements.{instance_of, region, regions_at, signals_at};
ghost use Rattle.elab_walk.specs.elab_scope.Names.{meanings};
ghost use Rattle.elab_walk.specs.Trails.{AreDeclared, IsDeclared, placement};
ghost use Rattle.elab_walk.specs.Visits.{library};
ghost use Rattle.elab_flat.specs.Children.{HaveChildren};
ghost use Rattle.elab_flat.specs.Flats.{flat_of};
ghost use Rattle.elab_flat.specs.Views.{flat, works};
ghost use Rattle.elab_flat.specs.Works.{no_works, with_placements};
ghost use Rattle.elab_walk.specs.elab_items.Rosters.{listing};
ghost use Rattle.elab_walk.specs.elab_items.Scopes.{listings_of};

use crate::regions::dropped_in;
use crate::works::Works;
use elab_walk::elab_items::roster::{Listing, Roster};
use elab_walk::elab_items::signals::{Home, push_signals};
use elab_walk::library::Library;
use elab_walk::trail::Placement;
use elab_walk::visit::file_of;
use rtl_flat::instance::{DroppedRegion, Instance};
use rtl_flat::signal::Signal;
use std::alloc::Global;
use text_ground::dropped::Dropped;
use text_ground::memory::Memory;
use text_ground::text::{Spot, Text};

/// A flat design.
#[derive(Drop)]
pub struct DesignParts {
    pub signals: Vec<Signal>,
    pub works: Works,
    pub instances: Vec<Instance>,
    pub dropped: Vec<DroppedRegion>,
}

/// An instance of the design. One that is deeper than can be counted fits into no memory.
fn instance_of(alloc: Global, at: &Placement<'_>) -> Result<Instance, Memory>
    ensures { IfOk result (λ made. made ≡ instance_of (placement at.now)) }
{
    let Ok(depth) = u32::try_from(at.visit.way.len()) else {
        return Err(Memory);
    };
    Ok(Instance {
        path: Text::from_bytes(alloc, at.visit.path.as_bytes())?,
        depth,
        spot: at.visit.spot,
        file: at.visit.place.file,
        module: at.visit.place.index,
    })
}

fn instances_of(alloc: Global, placements: &[Placement<'_>]) -> Result<Vec<Instance>, Memory>
    ensures { IfOk result (λ made. made.items ≡ map instance_of (map placement placements.now)) }
{
    let mut made = Vec::new(alloc);
    for at in placements {
        made.push(instance_of(alloc, at)?)?;
    }
    Ok(made)
}

/// The signals of an instance, behind others; `listed` has those of its module.
fn push_own(
    alloc: Global,
    at: &Placement<'_>,
    listed: &[Listing<'_>],
    signals: &mut Vec<Signal>,
) -> Result<(), Memory>
    requires { map listing listed.now
        ≡ listings_of (placement at.now).visit.settings (placement at.now).visit.circuit }
    ensures { OnOk result (signals.new.items ≡ signals.old.items ++ signals_at (placement at.now)) }
{
    let home = Home {
        alloc,
        path: at.visit.path.as_bytes(),
        instance: u32::from(at.number),
        file: file_of(at.visit.place)?,
        is_top: at.number == 0,
    };
    push_signals(home, listed, signals)
}

/// The signals of instances, and their processes with the delays in them, from one look at what each instance declares.
#[derive(Drop)]
struct Contents {
    signals: Vec<Signal>,
    works: Works,
}

impl Contents {
    /// Those of the instance in this place, which declares this.
    fn add(
        &mut self,
        alloc: Global,
        all: Library<'_>,
        placements: &[Placement<'_>],
        place: usize,
        declared: &mut Roster<'_>,
    ) -> Result<(), Memory>
        requires inside { place < length placements.now }
        requires declared { IfSome (slice_get (map placement placements.now) place)
            (λ at. IsDeclared at.visit declared.old) }
        requires others { AreDeclared placements.now }
        requires held { HaveChildren (library all) (map placement placements.now) }
        ensures signals { let seen = map placement placements.now in OnOk result
            (self.new.signals.items ++ flat_map signals_at (drop (place + 1) seen)
            ≡ self.old.signals.items ++ flat_map signals_at (drop place seen)) }
        ensures works { let seen = map placement placements.now in OnOk result
            (with_placements (library all.entry) (works self.new.works) (drop (place + 1) seen)
            ≡ with_placements (library all.entry) (works self.old.works) (drop place seen)) }
        ensures names { meanings declared.new.names ≡ meanings declared.old.names }
        ensures listed { declared.new.signals ≡ declared.old.signals }
    {
        let at = &placements[place];
        push_own(alloc, at, &declared.signals, &mut self.signals)?;
        let behind = &placements[place + 1..];
        self.works
            .add_placement(alloc, all, at, &mut declared.names, behind)
    }
}

/// Those of all instances, each of which keeps what it declares.
fn contents_of(
    alloc: Global,
    all: Library<'_>,
    placements: &mut [Placement<'_>],
) -> Result<Contents, Memory>
    requires declared { AreDeclared placements.old }
    requires held { HaveChildren (library all) (map placement placements.old) }
    ensures signals { IfOk result (λ made. made.signals.items
        ≡ flat_map signals_at (map placement placements.old)) }
    ensures works { IfOk result (λ made. works made.works
        ≡ with_placements (library all.entry) no_works (map placement placements.old)) }
    ensures same { OnOk result (map placement placements.new ≡ map placement placements.old) }
    ensures declared { OnOk result (AreDeclared placements.new) }
{
    let mut made = Contents {
        signals: Vec::new(alloc),
        works: Works::none(alloc),
    };
    for place in 0..placements.len() {
        let mut declared = placements[place].take_declared(alloc)?;
        made.add(alloc, all, placements, place, &mut declared)?;
        placements[place].give_declared(declared);
    }
    Ok(made)
}

/// Regions of an instance's module, behind others.
fn push_located(
    at: &Placement<'_>,
    regions: &[Dropped],
    dropped: &mut Vec<DroppedRegion>,
) -> Result<(), Memory>
    ensures { OnOk result (dropped.new.items
        ≡ dropped.old.items ++ map (region (placement at.now)) regions.now) }
{
    let file = file_of(at.visit.place)?;
    for one in regions {
        let spot = Spot { file, at: one.at };
        dropped.push(DroppedRegion {
            kind: one.kind,
            instance: u32::from(at.number),
            spot,
        })?;
    }
    Ok(())
}

/// What synthesis doesn't see of an instance's module, behind others.
fn push_regions(
    alloc: Global,
    at: &Placement<'_>,
    dropped: &mut Vec<DroppedRegion>,
) -> Result<(), Memory>
    ensures { OnOk result (dropped.new.items ≡ dropped.old.items ++ regions_at (placement at.now)) }
{
    let regions = dropped_in(alloc, at.visit.written)?;
    push_located(at, &regions, dropped)
}

fn regions_of(alloc: Global, placements: &[Placement<'_>]) -> Result<Vec<DroppedRegion>, Memory>
    ensures { IfOk result (λ made. made.items
        ≡ flat_map regions_at (map placement placements.now)) }
{
    let mut made = Vec::new(alloc);
    for at in placements {
        push_regions(alloc, at, &mut made)?;
    }
    Ok(made)
}

/// The design of these instances, where those right under each are the ones that its items place. They keep what they
/// declare.
pub fn flat_of(
    alloc: Global,
    all: Library<'_>,
    placements: &mut [Placement<'_>],
) -> Result<DesignParts, Memory>
    requires declared { AreDeclared placements.old }
    requires held { HaveChildren (library all) (map placement placements.old) }
    ensures made { IfOk result (λ made. flat made
        ≡ flat_of (library all.entry) (map placement placements.old)) }
    ensures same { OnOk result (map placement placements.new ≡ map placement placements.old) }
    ensures declared { OnOk result (AreDeclared placements.new) }
{
    let Contents { signals, works } = contents_of(alloc, all, placements)?;
    Ok(DesignParts {
        signals,
        works,
        instances: instances_of(alloc, placements)?,
        dropped: regions_of(alloc, placements)?,
    })
}
