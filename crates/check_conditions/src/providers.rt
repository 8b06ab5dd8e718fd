// Which files have a name as a macro at their end.

ghost use Rattle.std.specs.Prelude.{ℕ, ◌≡◌, ◌==◌, ◌&&◌, ◌||◌, List, not, IfOk, OnOk};
ghost use Rattle.std.specs.List.{list_any};
ghost use Rattle.std.specs.Str.{bytes_eq};
ghost use Rattle.name_map.specs.Values.{values_of};
ghost use Rattle.check_conditions.specs.Kept.{AreProviders, is_other, joined};

use name_map::NameMap;
use rtl_prep::Conditions;
use std::alloc::Global;
use text_ground::memory::Memory;
use text_ground::text::Text;

/// The files that have a name.
#[derive(Clone, Copy, PartialEq, Eq, Debug)]
pub(crate) enum Provider {
    /// The file of this number alone.
    One(usize),
    Many,
}

/// Who has a name, where one file more has it.
fn joined(had: Option<Provider>, file: usize) -> Provider
    ensures { result ≡ joined had file }
{
    match had {
        None => Provider::One(file),
        Some(Provider::One(first)) => {
            if first == file {
                Provider::One(first)
            } else {
                Provider::Many
            }
        }
        Some(Provider::Many) => Provider::Many,
    }
}

/// Whether a file of another number has the name.
pub(crate) fn is_elsewhere(providers: &NameMap<Provider>, number: usize, name: &Text) -> bool
    ensures { result ≡ is_other number (values_of providers.now name.now) }
{
    match providers.find(name) {
        None => false,
        Some(Provider::One(file)) => file != number,
        Some(Provider::Many) => true,
    }
}

/// Enters the macros of a file.
fn push_macros(
    macros: &[Text],
    file: usize,
    providers: &mut NameMap<Provider>,
) -> Result<(), Memory>
    ensures { OnOk result ((number : ℕ) (name : List ℕ)
        → is_other number (values_of providers.new name)
        ≡ (is_other number (values_of providers.old name)
        || (not (file == number) && list_any (λ one. bytes_eq one name) macros.now))) }
{
    for name in macros {
        let had = providers.find(name);
        providers.put(name, joined(had, file))?;
    }
    Ok(())
}

/// Of each name the files that have it.
pub(crate) fn providers(alloc: Global, all: &[Conditions]) -> Result<NameMap<Provider>, Memory>
    ensures { IfOk result (λ made. AreProviders made all.now) }
{
    let mut made = NameMap::new(alloc);
    for (file, conditions) in all.iter().enumerate() {
        push_macros(conditions.macros(), file, &mut made)?;
    }
    Ok(made)
}
