// The files in which the modules stand that names mean.

ghost use Rattle.std.specs.Prelude.{◌≡◌, ◌↔◌, ◌⊎◌, ℕ, IfOk, OnOk};
ghost use Rattle.std.specs.List.{Contains};
ghost use Rattle.std.specs.List.Sorted.{IsStrictlyIncreasing};
ghost use Rattle.elab_names.specs.Extracts.{place_in};
ghost use Rattle.elab_names.specs.Moves.{AreFilesOf};

use elab_lookups::LookUp;
use rtl_elab::elab_links::module_set::Lookup;
use std::alloc::Global;
use text_ground::memory::Memory;

/// How many of ascending numbers come before this one; all of them where it isn't there.
pub(crate) fn place_in(numbers: &[usize], number: usize) -> usize
    requires { IsStrictlyIncreasing numbers.now }
    ensures { result ≡ place_in numbers.now number }
{
    match numbers.binary_search(&number) {
        Ok(place) => place,
        Err(_) => numbers.len(),
    }
}

/// Puts a number among ascending ones, where it isn't there yet.
fn insert(numbers: &mut Vec<usize>, number: usize) -> Result<(), Memory>
    requires { IsStrictlyIncreasing numbers.old.items }
    ensures ascending { OnOk result (IsStrictlyIncreasing numbers.new.items) }
    ensures each { OnOk result ((other : ℕ) → Contains numbers.new.items other
        ↔ (Contains numbers.old.items other ⊎ other ≡ number)) }
{
    if let Err(place) = numbers.binary_search(&number) {
        numbers.insert(place, number)?;
    }
    Ok(())
}

/// The numbers of the files in which the modules stand that names mean, each once and ascending.
pub(crate) fn used_files(alloc: Global, look_ups: &[LookUp]) -> Result<Vec<usize>, Memory>
    ensures { IfOk result (λ numbers. AreFilesOf look_ups.now numbers.items) }
{
    let mut numbers = Vec::new(alloc);
    for look_up in look_ups {
        if let Lookup::Found(place) = look_up.meant {
            insert(&mut numbers, place.file)?;
        }
    }
    Ok(numbers)
}
