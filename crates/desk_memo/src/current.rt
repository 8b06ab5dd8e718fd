// Whether what was looked up still means the same, and the conditions are told the same.
ghost use Rattle.std.specs.Prelude.{◌≡◌, position, slice_get};
ghost use Rattle.std.specs.List.{list_all};
ghost use Rattle.elab_lookups.specs.elab_links.Modules.{circuits_of};
ghost use Rattle.desk_files.specs.Sources.{is_named};
ghost use Rattle.desk_memo.specs.Rulings.{are_told, is_meant, is_same_lookup, is_same_name, is_there, is_told};
ghost use Rattle.desk_memo.specs.Shown.{all_used, lists_in};

use crate::used::Used;
use check_conditions::is_still;
use desk_files::{file_named, is_named};
use elab_lookups::elab_links::module_set::Lookup;
use elab_lookups::{LookUp, resolve};
use rtl_front::Conditions;
use rtl_tree::tree::modules::Module;
use source_file::SourceFile;

// Whether the file with a number has the name of the one that was used as the other.
fn is_same_name(files: &[SourceFile], now: usize, used: &[Used], was: usize) -> bool
    ensures { result ≡ is_same_name (slice_get files.now now) (slice_get (all_used used.now) was) }
{
    match (files.get(now), used.get(was)) {
        (Some(file), Some(used)) => file.name.as_bytes() == used.file.name.as_bytes(),
        (None, _) | (_, None) => false,
    }
}

fn is_same_lookup(files: &[SourceFile], used: &[Used], now: Lookup, was: Lookup) -> bool
    ensures { result ≡ is_same_lookup files.now (all_used used.now) now was }
{
    match (now, was) {
        (Lookup::Missing, Lookup::Missing) | (Lookup::Twice, Lookup::Twice) => true,
        (Lookup::Found(first), Lookup::Found(second)) => {
            is_same_name(files, first.file, used, second.file) && first.index == second.index
        }
        _ => false,
    }
}

fn is_meant(files: &[SourceFile], modules: &[Vec<Module>], used: &[Used], look_up: &LookUp) -> bool
    ensures { result
        ≡ is_meant files.now (circuits_of modules.now) (all_used used.now) look_up.now }
{
    is_same_lookup(files, used, resolve(modules, &look_up.name), look_up.meant)
}

fn is_there(files: &[SourceFile], used: &SourceFile) -> bool
    ensures { result ≡ is_there files.now used.now }
{
    match file_named(files, used.name.as_bytes()) {
        Some(file) => file.text.as_bytes() == used.text.as_bytes(),
        None => false,
    }
}

// Whether each name means what it meant.
pub(crate) fn are_meant(
    files: &[SourceFile],
    modules: &[Vec<Module>],
    used: &[Used],
    look_ups: &[LookUp],
) -> bool
    ensures { result
        ≡ list_all (is_meant files.now (circuits_of modules.now) (all_used used.now)) look_ups.now }
{
    look_ups
        .iter()
        .all(|look_up| is_meant(files, modules, used, look_up))
}

fn all_there(files: &[SourceFile], used: &[Used]) -> bool
    ensures { result ≡ list_all (λ used. is_there files.now used.file.value) used.now }
{
    used.iter().all(|used| is_there(files, &used.file))
}

// Whether each file has its text still.
pub(crate) fn are_there(files: &[SourceFile], used: &[Used]) -> bool
    ensures { result ≡ list_all (is_there files.now) (all_used used.now) }
{
    all_there(files, used)
}

// The number of the file of a name.
fn number_named(files: &[SourceFile], name: &[u8]) -> Option<usize>
    ensures { result ≡ position (is_named name.now) files.now }
{
    files.iter().position(|file| is_named(file, name))
}

// Whether the conditions of the file of a name are told the same: of the names that they ask for, other
// files have those as macros which they had.
fn is_told(files: &[SourceFile], conditions: &[Conditions], used: &SourceFile, was: &[bool]) -> bool
    ensures { result ≡ is_told files.now conditions.now used.now was.now }
{
    match number_named(files, used.name.as_bytes()) {
        Some(number) => is_still(conditions, number, was),
        None => false,
    }
}

// The same of each file.
pub(crate) fn are_told(
    files: &[SourceFile],
    conditions: &[Conditions],
    used: &[Used],
    elsewhere: &[Vec<bool>],
) -> bool
    ensures { result
        ≡ are_told files.now conditions.now (all_used used.now) (lists_in elsewhere.now) }
{
    if used.len() != elsewhere.len() {
        return false;
    }
    for (place, used) in used.iter().enumerate() {
        if !is_told(files, conditions, &used.file, &elsewhere[place]) {
            return false;
        }
    }
    true
}
