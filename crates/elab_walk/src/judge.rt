//! What is told of one instance.

ghost use Rattle.std.specs.Prelude.{◌≡◌, ◌<◌, IfOk, map};
ghost use Rattle.std.specs.Option.{option_map};
ghost use Rattle.rtl_tree.specs.TreeItem.{module_item};
ghost use Rattle.rtl_tree.specs.TreeModule.{circuit};
ghost use Rattle.elab_links.specs.elab_scope.Faults.{after, refusal};
ghost use Rattle.elab_links.specs.elab_scope.Names.{meanings};
ghost use Rattle.elab_links.specs.elab_items.Rosters.{listing};
ghost use Rattle.elab_links.specs.elab_items.Scopes.{listings_of};
ghost use Rattle.elab_parts.specs.elab_body.Courses.{course};
ghost use Rattle.elab_parts.specs.elab_body.Steps.{faulty, passed};
ghost use Rattle.elab_links.specs.Instances.{link_faults};
ghost use Rattle.elab_walk.specs.Rooms.{part_steps, parts_steps, room_after, surplus};
ghost use Rattle.elab_walk.specs.Rooms.{place_of};
ghost use Rattle.elab_walk.specs.Refusals.{own_faults};
ghost use Rattle.elab_walk.specs.Visits.{library, scope_in, visit};
ghost use Rattle.elab_links.specs.elab_scope.Faults.{least};

use crate::extras::spare_extras;
use crate::library::Library;
use crate::links::spend_links;
use crate::places::{Seek, seek_all};
use crate::room::Room;
use crate::visit::Visit;
use elab_links::elab_items::declare::declare;
use elab_links::elab_items::roster::Listing;
use elab_links::elab_scope::fault::{Cause, Fault};
use elab_links::elab_scope::names::Names;
use elab_links::instances::judge_instances;
use elab_parts::elab_body::progress::Progress;
use elab_parts::judge::judge_item;
use rtl_tree::tree::item::Item;
use std::alloc::Global;
use text_ground::memory::Memory;
use text_ground::text::Text;

/// The faults of the instances that an item places.
#[tactic(auto, using(crate::proofs::Borrowed::passed_faulty, crate::proofs::Borrowed::passed_cut))]
fn judge_links<'a>(
    alloc: Global,
    all: Library<'a>,
    way: &[&Text],
    item: &'a Item,
    names: &Names,
    so_far: Progress<'a>,
) -> Result<Progress<'a>, Memory>
    ensures { IfOk result (λ judged. course judged
        ≡ passed (course so_far.entry)
        (faulty (link_faults (library all.entry).lookups (library all.entry).files
        (map (λ text. text.now) way.now) (meanings names.now) (module_item item.now)))) }
{
    match so_far.left {
        None => Ok(so_far),
        Some(_) => {
            let best = judge_instances(alloc, all.files, all.set, way, item, names, so_far.best)?;
            Ok(Progress {
                best,
                left: so_far.left,
                filled: so_far.filled,
            })
        }
    }
}

#[tactic(auto, using(crate::proofs::Borrowed::passed_append))]
fn judge_part<'a>(
    alloc: Global,
    all: Library<'a>,
    way: &[&Text],
    item: &'a Item,
    names: &mut Names,
    so_far: Progress<'a>,
) -> Result<Progress<'a>, Memory>
    ensures told { IfOk result (λ judged. course judged
        ≡ passed (course so_far.entry)
        (part_steps (library all.entry) (map (λ text. text.now) way.now) (meanings names.old)
        (module_item item.now))) }
    ensures same { meanings names.new ≡ meanings names.old }
{
    let so_far = judge_item(alloc, item, names, so_far)?;
    let so_far = spend_links(alloc, all, item, names, so_far)?;
    judge_links(alloc, all, way, item, names, so_far)
}

/// The faults of items, one after the other.
#[tactic(auto, using(crate::proofs::Borrowed::passed_append))]
fn judge_parts<'a>(
    alloc: Global,
    all: Library<'a>,
    way: &[&Text],
    items: &'a [Item],
    names: &mut Names,
    so_far: Progress<'a>,
) -> Result<Progress<'a>, Memory>
    ensures told { IfOk result (λ judged. course judged
        ≡ passed (course so_far.entry)
        (parts_steps (library all.entry) (map (λ text. text.now) way.now) (meanings names.old)
        (map module_item items.now))) }
    ensures same { meanings names.new ≡ meanings names.old }
{
    let mut so_far = so_far;
    for item in items {
        so_far = judge_part(alloc, all, way, item, names, so_far)?;
    }
    Ok(so_far)
}

/// The process that is one too many.
fn judge_surplus<'a>(seek: Seek, best: Option<Fault<'a>>) -> Option<Fault<'a>>
    ensures { option_map refusal result
        ≡ after (option_map refusal best.entry) (surplus (place_of seek)) }
{
    match seek {
        Seek::Left(_) => best,
        Seek::Found(at) => {
            let cause = Cause::TooLarge;
            Fault::keep(best, Fault { at, cause })
        }
    }
}

/// What is told of an instance, and what it leaves where nothing is.
#[derive(Drop)]
pub struct Judged<'a> {
    /// What the names of its module stand for.
    pub names: Names,
    /// The signals of its module, in the order of their numbers.
    pub signals: Vec<Listing<'a>>,
    /// The fault that is told.
    pub best: Option<Fault<'a>>,
    /// The room behind it; it counts where nothing is told.
    pub room: Room,
}

/// What is told of an instance, where so much room is left.
pub(crate) fn judge_visit<'a>(
    alloc: Global,
    all: Library<'a>,
    met: &Visit<'a>,
    room: Room,
) -> Result<Judged<'a>, Memory>
    requires { room.number < 20000 }
    ensures names { IfOk result (λ judged. meanings judged.names ≡ scope_in (visit met.now)) }
    ensures signals { IfOk result (λ judged. map listing judged.signals.items
        ≡ listings_of (visit met.now).settings (visit met.now).circuit) }
    ensures told { IfOk result (λ judged. option_map refusal judged.best
        ≡ least (own_faults (library all.entry) room (visit met.now))) }
    ensures room { IfOk result (λ judged. option_map refusal judged.best ≡ None
        → judged.room ≡ room_after (library all.entry) room (visit met.now)) }
{
    let base = u32::from(room.base);
    let declared = declare(alloc, met.written, &met.overrides, base, None)?;
    let mut names = declared.names;
    let so_far = Progress {
        best: declared.best,
        left: Some(room.left),
        filled: false,
    };
    let way = met.way.as_slice();
    let items = met.written.items.as_slice();
    let judged = judge_parts(alloc, all, way, items, &mut names, so_far)?;
    let seek = seek_all(items, Seek::Left(room.processes));
    let spare = spare_extras(met.written, room.extras);
    let listed = declared.signals.as_slice();
    let signals = listed.len();
    Ok(Judged {
        names,
        signals: declared.signals,
        best: judge_surplus(seek, judged.best),
        room: room.behind(signals, judged.left, seek, spare),
    })
}
