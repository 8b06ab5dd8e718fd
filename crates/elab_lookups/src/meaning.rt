// What a name means, by going through modules.

ghost use Rattle.std.specs.Prelude.{◌≡◌, ◌++◌, List, if◌then◌else◌, map};
ghost use Rattle.std.specs.Str.{bytes_eq};
ghost use Rattle.rtl_tree.specs.TreeModule.{circuit};
ghost use Rattle.elab_links.specs.Modules.{Placed, all_placed, circuits_of};
ghost use Rattle.elab_links.specs.Modules.{found, placed_in, with_another};

use elab_links::module_set::{Lookup, Place};
use rtl_tree::tree::modules::Module;
use text_ground::text::Text;

/// What a name means where one module more has it.
fn with_another(place: Place, later: Lookup) -> Lookup
    ensures { result ≡ with_another place later }
{
    match later {
        Lookup::Missing => Lookup::Found(place),
        Lookup::Found(_) | Lookup::Twice => Lookup::Twice,
    }
}

/// What a name means among a module and those behind it.
fn with_module(place: Place, own: &Text, name: &Text, later: Lookup) -> Lookup
    ensures { result ≡ if bytes_eq own.now name.now then with_another place later else later }
{
    if own.as_bytes() == name.as_bytes() {
        with_another(place, later)
    } else {
        later
    }
}

/// What a name means among the modules of a file and those behind it.
fn with_file(file: usize, modules: &[Module], name: &Text, later: Lookup) -> Lookup
    ensures { (others : List Placed) → later ≡ found others name.now
        → result ≡ found (placed_in file 0 (map circuit modules.now) ++ others) name.now }
{
    let mut meant = later;
    let mut index = modules.len();
    while index > 0 {
        index -= 1;
        meant = with_module(
            Place { file, index },
            &modules[index].name.text,
            name,
            meant,
        );
    }
    meant
}

/// What a name means among the modules of files. It goes through all of them and takes no memory.
pub fn resolve(files: &[Vec<Module>], name: &Text) -> Lookup
    ensures { result ≡ found (all_placed (circuits_of files.now)) name.now }
{
    let mut meant = Lookup::Missing;
    let mut file = files.len();
    while file > 0 {
        file -= 1;
        meant = with_file(file, &files[file], name, meant);
    }
    meant
}
