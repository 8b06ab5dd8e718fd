//! What is wrong with the instances of a module.

ghost use Rattle.std.specs.Prelude.{◌≡◌, IfOk, length, map};
ghost use Rattle.std.specs.List.{list_any};
ghost use Rattle.std.specs.Option.{option_map};
ghost use Rattle.std.specs.Str.{bytes_eq};
ghost use Rattle.rtl_tree.specs.TreeExpr.{identifier};
ghost use Rattle.rtl_tree.specs.TreeItem.{association, module_item, instantiation};
ghost use Rattle.rtl_tree.specs.TreeModule.{circuit};
ghost use Rattle.elab_items.specs.elab_scope.Faults.{after, refusal};
ghost use Rattle.elab_items.specs.elab_scope.Names.{meanings};
ghost use Rattle.elab_links.specs.Instances.{child_faults, depth_faults, found_faults, link_faults, loop_faults};
ghost use Rattle.elab_links.specs.Modules.{circuits_of, lookups_of};

use crate::connections::judge_instantiations;
use crate::module_set::{Lookup, ModuleSet, module_at};
use crate::parameters::{judge_parameters, settable};
use crate::ports::Ports;
use elab_items::elab_scope::fault::{Cause, Fault};
use elab_items::elab_scope::names::Names;
use elab_items::entries::entries_of;
use rtl_tree::tree::item::{Arguments, Instance, Item};
use rtl_tree::tree::modules::Module;
use rtl_tree::tree::names::Name;
use std::alloc::Global;
use text_ground::memory::Memory;
use text_ground::text::Text;

/// The most modules on the way from the top to an instance, both counted.
const DEEPEST: usize = 32;

fn is_on(way: &[&Text], name: &Text) -> bool
    ensures { result ≡ list_any (bytes_eq name.now) (map (λ text. text.now) way.now) }
{
    for other in way {
        if name.as_bytes() == other.as_bytes() {
            return true;
        }
    }
    false
}

/// A module doesn't hold itself.
fn judge_loop<'a>(way: &[&Text], child: &'a Name, best: Option<Fault<'a>>) -> Option<Fault<'a>>
    ensures { option_map refusal result
        ≡ after (option_map refusal best.entry)
        (loop_faults (map (λ text. text.now) way.now) (identifier child.now)) }
{
    if is_on(way, &child.text) {
        let cause = Cause::InstanceLoop(&child.text);
        Fault::keep(
            best,
            Fault {
                at: child.at,
                cause,
            },
        )
    } else {
        best
    }
}

/// Modules are at most 32 deep.
fn judge_depth<'a>(way: &[&Text], child: &'a Name, best: Option<Fault<'a>>) -> Option<Fault<'a>>
    ensures { option_map refusal result
        ≡ after (option_map refusal best.entry)
        (depth_faults (map (λ text. text.now) way.now) (identifier child.now)) }
{
    if way.len() < DEEPEST {
        best
    } else {
        let cause = Cause::TooLarge;
        Fault::keep(
            best,
            Fault {
                at: child.at,
                cause,
            },
        )
    }
}

/// What an item writes of its instances.
#[derive(Clone, Copy)]
struct Placing<'a> {
    child: &'a Name,
    parameters: &'a Arguments,
    instances: &'a [Instance],
}

/// The faults of instances of a module.
#[tactic(auto, using(crate::proofs::Borrowed::after_append))]
fn judge_child<'a>(
    alloc: Global,
    way: &[&Text],
    written: &'a Module,
    placing: Placing<'a>,
    names: &Names,
    best: Option<Fault<'a>>,
) -> Result<Option<Fault<'a>>, Memory>
    ensures { IfOk result (λ told. option_map refusal told
        ≡ after (option_map refusal best.entry)
        (child_faults (map (λ text. text.now) way.now) (meanings names.now)
        (identifier placing.entry.child.now) (circuit written.now)
        (association placing.entry.parameters.now)
        (map instantiation placing.entry.instances.now))) }
{
    let Placing {
        child,
        parameters,
        instances,
    } = placing;
    let best = judge_loop(way, child, best);
    let best = judge_depth(way, child, best);
    let entries = entries_of(alloc, written)?;
    let settable = settable(alloc, &entries)?;
    let best = judge_parameters(alloc, &child.text, &settable, parameters, names, best)?;
    let ports = Ports::new(alloc, written, &entries)?;
    judge_instantiations(alloc, &child.text, &ports, instances, names, best)
}

/// The faults of instances, by what the name of their module means.
fn judge_found<'a>(
    alloc: Global,
    files: &'a [Vec<Module>],
    way: &[&Text],
    lookup: Lookup,
    placing: Placing<'a>,
    names: &Names,
    best: Option<Fault<'a>>,
) -> Result<Option<Fault<'a>>, Memory>
    ensures { IfOk result (λ told. option_map refusal told
        ≡ after (option_map refusal best.entry)
        (found_faults (circuits_of files.now) (map (λ text. text.now) way.now)
        (meanings names.now) (identifier placing.entry.child.now) lookup
        (association placing.entry.parameters.now)
        (map instantiation placing.entry.instances.now))) }
{
    let child = placing.child;
    let cause = match lookup {
        Lookup::Missing => Cause::NoSuchModule(&child.text),
        Lookup::Twice => Cause::ModuleTwice(&child.text),
        Lookup::Found(place) => {
            return match module_at(files, place) {
                None => Ok(best),
                Some(written) => judge_child(alloc, way, written, placing, names, best),
            };
        }
    };
    Ok(Fault::keep(
        best,
        Fault {
            at: child.at,
            cause,
        },
    ))
}

/// The faults of an item that places instances, after `best`: of the module's name, the parameters that are set, and
/// the connections of each instance. `way` has the names of the modules from the top to the one that holds the item.
pub fn judge_instances<'a>(
    alloc: Global,
    files: &'a [Vec<Module>],
    set: &ModuleSet,
    way: &[&Text],
    item: &'a Item,
    names: &Names,
    best: Option<Fault<'a>>,
) -> Result<Option<Fault<'a>>, Memory>
    ensures { IfOk result (λ told. option_map refusal told
        ≡ after (option_map refusal best.entry)
        (link_faults (lookups_of set.now) (circuits_of files.now)
        (map (λ text. text.now) way.now) (meanings names.now) (module_item item.now))) }
{
    match item {
        Item::Instances {
            child,
            parameters,
            instances,
        } => {
            let placing = Placing {
                child,
                parameters,
                instances,
            };
            let lookup = set.find(&child.text);
            judge_found(alloc, files, way, lookup, placing, names, best)
        }
        Item::Ports(_, _)
        | Item::Wires { .. }
        | Item::Regs { .. }
        | Item::Integers(_, _)
        | Item::Parameters { .. }
        | Item::Assigns(_, _, _)
        | Item::Gates { .. }
        | Item::Always(_, _, _) => Ok(best),
    }
}
