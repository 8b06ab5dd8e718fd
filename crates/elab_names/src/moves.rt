// Names, instances and faults where files are numbered among those that are used.

ghost use Rattle.std.specs.Prelude.{◌≡◌, IfOk, IfSome, OnOk, map};
ghost use Rattle.std.specs.List.Sorted.{IsStrictlyIncreasing};
ghost use Rattle.rtl_elab.specs.elab_scope.Faults.{answer};
ghost use Rattle.rtl_elab.specs.elab_walk.Trails.{AreDeclared, IsDeclared, placement};
ghost use Rattle.elab_names.specs.Extracts.{place_in, renumbered};
ghost use Rattle.elab_names.specs.Moves.{moved_answer, moved_look_up, moved_place, moved_placement, moved_spot};

use crate::used::place_in;
use elab_lookups::LookUp;
use rtl_elab::elab_links::module_set::{Lookup, Place};
use rtl_elab::elab_scope::fault::ElabFault;
use rtl_elab::elab_walk::trail::Placement;
use text_ground::memory::Memory;
use text_ground::text::Spot;

fn moved_place(place: Place, numbers: &[usize]) -> Place
    requires { IsStrictlyIncreasing numbers.now }
    ensures { result ≡ moved_place (place_in numbers.now) place }
{
    Place {
        file: place_in(numbers, place.file),
        index: place.index,
    }
}

/// More files than can be counted fit into no memory.
fn moved_spot(spot: Spot, numbers: &[usize]) -> Result<Spot, Memory>
    requires { IsStrictlyIncreasing numbers.now }
    ensures { IfOk result (λ moved. moved ≡ moved_spot (place_in numbers.now) spot) }
{
    match u32::try_from(place_in(numbers, spot.file as usize)) {
        Ok(file) => Ok(Spot { file, at: spot.at }),
        Err(_) => Err(Memory),
    }
}

fn renumbered(meant: Lookup, numbers: &[usize]) -> Lookup
    requires { IsStrictlyIncreasing numbers.now }
    ensures { result ≡ renumbered (place_in numbers.now) meant }
{
    match meant {
        Lookup::Missing => Lookup::Missing,
        Lookup::Found(place) => Lookup::Found(moved_place(place, numbers)),
        Lookup::Twice => Lookup::Twice,
    }
}

pub(crate) fn move_look_ups(look_ups: &mut [LookUp], numbers: &[usize])
    requires { IsStrictlyIncreasing numbers.now }
    ensures { look_ups.new ≡ map (moved_look_up (place_in numbers.now)) look_ups.old }
{
    for place in 0..look_ups.len() {
        look_ups[place].meant = renumbered(look_ups[place].meant, numbers);
    }
}

fn move_placement(at: &mut Placement<'_>, numbers: &[usize]) -> Result<(), Memory>
    requires { IsStrictlyIncreasing numbers.now }
    ensures moved { OnOk result (placement at.new
        ≡ moved_placement (place_in numbers.now) (placement at.old)) }
    ensures declared { OnOk result (IfSome at.old.declared (IsDeclared (placement at.old).visit)
        → IfSome at.new.declared (IsDeclared (placement at.new).visit)) }
{
    at.visit.spot = moved_spot(at.visit.spot, numbers)?;
    at.visit.place = moved_place(at.visit.place, numbers);
    Ok(())
}

pub(crate) fn move_placements(
    placements: &mut [Placement<'_>],
    numbers: &[usize],
) -> Result<(), Memory>
    requires { IsStrictlyIncreasing numbers.now }
    ensures moved { OnOk result (map placement placements.new
        ≡ map (moved_placement (place_in numbers.now)) (map placement placements.old)) }
    ensures declared { OnOk result (AreDeclared placements.old → AreDeclared placements.new) }
{
    for place in 0..placements.len() {
        move_placement(&mut placements[place], numbers)?;
    }
    Ok(())
}

pub(crate) fn moved_fault(fault: ElabFault, numbers: &[usize]) -> Result<ElabFault, Memory>
    requires { IsStrictlyIncreasing numbers.now }
    ensures { IfOk result (λ moved. answer moved
        ≡ moved_answer (place_in numbers.now) (answer fault)) }
{
    Ok(match fault {
        ElabFault::NoSuchModule(name) => ElabFault::NoSuchModule(name),
        ElabFault::ModuleTwice(name) => ElabFault::ModuleTwice(name),
        ElabFault::Undeclared(name, spot) => {
            ElabFault::Undeclared(name, moved_spot(spot, numbers)?)
        }
        ElabFault::DeclaredTwice(name, spot) => {
            ElabFault::DeclaredTwice(name, moved_spot(spot, numbers)?)
        }
        ElabFault::Width(spot) => ElabFault::Width(moved_spot(spot, numbers)?),
        ElabFault::Port(name, spot) => ElabFault::Port(name, moved_spot(spot, numbers)?),
        ElabFault::Parameter(name, spot) => ElabFault::Parameter(name, moved_spot(spot, numbers)?),
        ElabFault::NotAssignable(name, spot) => {
            ElabFault::NotAssignable(name, moved_spot(spot, numbers)?)
        }
        ElabFault::Range(spot) => ElabFault::Range(moved_spot(spot, numbers)?),
        ElabFault::Const(fault, spot) => ElabFault::Const(fault, moved_spot(spot, numbers)?),
        ElabFault::Genvar(name, spot) => ElabFault::Genvar(name, moved_spot(spot, numbers)?),
        ElabFault::TooManyTurns(spot) => ElabFault::TooManyTurns(moved_spot(spot, numbers)?),
        ElabFault::InstanceLoop(name, spot) => {
            ElabFault::InstanceLoop(name, moved_spot(spot, numbers)?)
        }
        ElabFault::TooLarge(spot) => ElabFault::TooLarge(moved_spot(spot, numbers)?),
        ElabFault::Memory => ElabFault::Memory,
    })
}
