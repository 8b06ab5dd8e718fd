//! The processes of a design and the delays in them.

ghost use Rattle.std.specs.Prelude.{◌≡◌, ◌++◌, IfOk, IfSome, OnOk, drop, map};
ghost use Rattle.std.specs.Option.{option_map};
ghost use Rattle.rtl_flat.specs.Process.{task};
ghost use Rattle.rtl_tree.specs.TreeItem.{association, module_item, instantiation};
ghost use Rattle.elab_walk.specs.elab_scope.Names.{meanings};
ghost use Rattle.elab_walk.specs.elab_links.Groups.{group};
ghost use Rattle.elab_walk.specs.elab_links.Ports.{sockets};
ghost use Rattle.elab_flat.specs.Links.{link_tasks, sides};
ghost use Rattle.elab_walk.specs.Trails.{AreDeclared, IsDeclared, placement};
ghost use Rattle.elab_walk.specs.Visits.{library, scope_in};
ghost use Rattle.elab_flat.specs.Children.{AreKept, AreKnown, HasChildren, bases_of, first_names, group_scopes, placed_scopes};
ghost use Rattle.elab_flat.specs.Held.{depth_of, held_under};
ghost use Rattle.elab_flat.specs.Views.{works};
ghost use Rattle.elab_flat.specs.Works.{first_base, group_in, group_tasks, no_works, placed, instantiations_tasks, sides_of, with_part, with_parts, with_placement, with_placements};

use crate::links::{Ends, push_links};
use elab_walk::elab_items::declare::declare;
use elab_walk::elab_items::entries::entries_of;
use elab_walk::elab_links::groups::{Group, group_of};
use elab_walk::elab_links::ports::Ports;
use elab_walk::elab_parts::delays::push_delays;
use elab_walk::elab_parts::places::count_of;
use elab_walk::elab_parts::tasks::push_processes;
use elab_walk::elab_scope::names::Names;
use elab_walk::elab_scope::size::Site;
use elab_walk::library::Library;
use elab_walk::trail::Placement;
use elab_walk::visit::file_of;
use rtl_flat::act::Process;
use rtl_flat::instance::Delay;
use rtl_tree::tree::item::{Instance, Item};
use std::alloc::Global;
use text_ground::memory::Memory;

/// So many processes have numbers; more than twice as many fit into no memory.
const MOST: usize = 1 << 31;

/// Processes, and the delays in them.
#[derive(Drop)]
pub struct Works {
    pub processes: Vec<Process>,
    pub delays: Vec<Delay>,
}

/// Where the items of an instance stand.
fn site_of(alloc: Global, at: &Placement<'_>) -> Result<Site, Memory>
    ensures file { IfOk result (λ site. site.file ≡ (placement at.now).visit.place.file) }
    ensures base { IfOk result (λ site. site.base ≡ (placement at.now).base) }
{
    Ok(Site {
        alloc,
        file: file_of(at.visit.place)?,
        base: at.base,
    })
}

/// An instance right under another.
#[derive(Clone, Copy)]
struct Child<'b> {
    /// How many signals come before its own.
    base: u16,
    /// What the names of its module stand for, where that is kept.
    names: Option<&'b Names>,
}

/// What is kept of the names of an instance's module.
fn names_of<'b>(at: &'b Placement<'_>) -> Option<&'b Names>
    requires { IfSome at.now.declared (IsDeclared (placement at.now).visit) }
    ensures { IfSome result (λ names. meanings names.now ≡ scope_in (placement at.now).visit) }
{
    match &at.declared {
        Some(declared) => Some(&declared.names),
        None => None,
    }
}

/// The instances right under one, of those behind it. An instance is looked at for each that holds it, so at most 32
/// times.
fn children_under<'b>(
    alloc: Global,
    at: &Placement<'_>,
    behind: &'b [Placement<'_>],
) -> Result<Vec<Child<'b>>, Memory>
    requires { AreDeclared behind.now }
    ensures { IfOk result (λ made. AreKept made.items
        (held_under (depth_of (placement at.now)) (map placement behind.now))) }
{
    let depth = at.visit.way.len();
    let mut made = Vec::new(alloc);
    for other in behind {
        let deep = other.visit.way.len();
        if deep <= depth {
            return Ok(made);
        }
        if deep == depth + 1 {
            made.push(Child {
                base: other.base,
                names: names_of(other),
            })?;
        }
    }
    Ok(made)
}

fn first_base(held: &[Child<'_>]) -> u16
    ensures { result ≡ first_base (bases_of held.now) }
{
    match held.first() {
        Some(child) => child.base,
        None => 0,
    }
}

fn first_names<'b>(held: &[Child<'b>]) -> Option<&'b Names>
    ensures { option_map (λ names. meanings names.now) result ≡ first_names held.now }
{
    match held.first() {
        Some(child) => child.names,
        None => None,
    }
}

/// What is left behind so many; nothing where there are fewer.
fn behind<'s, 'b>(held: &'s [Child<'b>], count: usize) -> &'s [Child<'b>]
    ensures { result.now ≡ drop count held.now }
{
    &held[count.min(held.len())..]
}

/// The connections of an instance that has so many signals before its own.
fn push_instantiation(
    site: Site,
    at: &Placement<'_>,
    names: &Names,
    ports: &Ports<'_>,
    inner: &Names,
    inner_base: u16,
    instance: &Instance,
    made: &mut Vec<Process>,
) -> Result<(), Memory>
    requires file { site.file ≡ (placement at.now).visit.place.file }
    requires base { site.base ≡ (placement at.now).base }
    requires names { meanings names.now ≡ scope_in (placement at.now).visit }
    ensures { OnOk result (map task made.new.items ≡ map task made.old.items
        ++ link_tasks (sockets ports.now)
        (sides_of (placement at.now) (meanings inner.now) inner_base)
        (association instance.now.connections)) }
{
    let ends = Ends {
        site,
        names,
        instance: u32::from(at.number),
        inner_base,
        inner,
    };
    push_links(ports, ends, &instance.connections, made)
}

/// The connections of instances of one module with the same parameters, the first of `held`.
fn push_instantiations(
    site: Site,
    at: &Placement<'_>,
    names: &Names,
    ports: &Ports<'_>,
    inner: &Names,
    held: &[Child<'_>],
    instances: &[Instance],
    made: &mut Vec<Process>,
) -> Result<(), Memory>
    requires file { site.file ≡ (placement at.now).visit.place.file }
    requires base { site.base ≡ (placement at.now).base }
    requires names { meanings names.now ≡ scope_in (placement at.now).visit }
    ensures { OnOk result (map task made.new.items ≡ map task made.old.items
        ++ instantiations_tasks (placement at.now) (sockets ports.now)
        (meanings inner.now) (bases_of held.now) (map instantiation instances.now)) }
{
    let mut held = held;
    for instance in instances {
        let inner_base = first_base(held);
        push_instantiation(site, at, names, ports, inner, inner_base, instance, made)?;
        held = behind(held, 1);
    }
    Ok(())
}

/// The same, by what an item places.
fn push_group(
    site: Site,
    at: &Placement<'_>,
    names: &Names,
    held: &[Child<'_>],
    found: Option<Group<'_>>,
    made: &mut Vec<Process>,
) -> Result<(), Memory>
    requires file { site.file ≡ (placement at.now).visit.place.file }
    requires base { site.base ≡ (placement at.now).base }
    requires names { meanings names.now ≡ scope_in (placement at.now).visit }
    requires known { AreKnown held.now (group_scopes (option_map group found)) }
    ensures { OnOk result (map task made.new.items ≡ map task made.old.items
        ++ group_tasks (placement at.now) (bases_of held.now) (option_map group found.entry)) }
{
    let Some(found) = found else {
        return Ok(());
    };
    let entries = entries_of(site.alloc, found.written)?;
    let ports = Ports::new(site.alloc, found.written, &entries)?;
    // All that the item places are of one module with the same parameters, so the first's names are those of each.
    if let Some(inner) = first_names(held) {
        return push_instantiations(site, at, names, &ports, inner, held, found.instances, made);
    }
    let inner = declare(site.alloc, found.written, &found.overrides, 0, None)?.names;
    push_instantiations(site, at, names, &ports, &inner, held, found.instances, made)
}

/// How many instances an item places.
fn placed(found: &Option<Group<'_>>) -> usize
    ensures { result ≡ placed (option_map group found.now) }
{
    match found {
        None => 0,
        Some(found) => found.instances.len(),
    }
}

impl Works {
    /// The processes of an item more, and its delays; the instances that it places, of which it gives the number, are
    /// the first of `held`. More processes than can be numbered fit into no memory.
    fn add(
        &mut self,
        all: Library<'_>,
        site: Site,
        at: &Placement<'_>,
        names: &mut Names,
        held: &[Child<'_>],
        item: &Item,
    ) -> Result<usize, Memory>
        requires file { site.file ≡ (placement at.now).visit.place.file }
        requires base { site.base ≡ (placement at.now).base }
        requires names { meanings names.old ≡ scope_in (placement at.now).visit }
        requires known { AreKnown held.now
            (group_scopes (group_in (library all) (placement at.now) (module_item item.now))) }
        ensures made { OnOk result (works self.new
            ≡ with_part (library all.entry) (placement at.now) (bases_of held.now) (works self.old)
            (module_item item.now)) }
        ensures count { IfOk result (λ count.
            count ≡ placed (group_in (library all.entry) (placement at.now)
            (module_item item.now))) }
        ensures same { meanings names.new ≡ meanings names.old }
    {
        let first = self.processes.len();
        if first > MOST || count_of(item) > MOST {
            return Err(Memory);
        }
        push_delays(item, names, site, first, &mut self.delays)?;
        push_processes(item, names, site, u32::from(at.number), &mut self.processes)?;
        let found = group_of(site.alloc, all.files, all.set, item, names)?;
        let count = placed(&found);
        push_group(site, at, names, held, found, &mut self.processes)?;
        Ok(count)
    }

    /// Those of items, in order.
    fn add_all(
        &mut self,
        all: Library<'_>,
        site: Site,
        at: &Placement<'_>,
        names: &mut Names,
        held: &[Child<'_>],
        items: &[Item],
    ) -> Result<(), Memory>
        requires file { site.file ≡ (placement at.now).visit.place.file }
        requires base { site.base ≡ (placement at.now).base }
        requires names { meanings names.old ≡ scope_in (placement at.now).visit }
        requires known { AreKnown held.now
            (placed_scopes (library all) (scope_in (placement at.now).visit)
            (map module_item items.now)) }
        ensures made { OnOk result (works self.new
            ≡ with_parts (library all.entry) (placement at.now) (bases_of held.now) (works self.old)
            (map module_item items.now)) }
        ensures same { meanings names.new ≡ meanings names.old }
    {
        let mut held = held;
        for item in items {
            let count = self.add(all, site, at, names, held, item)?;
            held = behind(held, count);
        }
        Ok(())
    }

    /// Those of an instance, where `behind` has the instances behind it.
    pub(crate) fn add_placement(
        &mut self,
        alloc: Global,
        all: Library<'_>,
        at: &Placement<'_>,
        names: &mut Names,
        behind: &[Placement<'_>],
    ) -> Result<(), Memory>
        requires names { meanings names.old ≡ scope_in (placement at.now).visit }
        requires declared { AreDeclared behind.now }
        requires held { HasChildren (library all) (placement at.now) (map placement behind.now) }
        ensures made { OnOk result (works self.new
            ≡ with_placement (library all.entry) (works self.old) (placement at.now)
            (map placement behind.now)) }
        ensures same { meanings names.new ≡ meanings names.old }
    {
        let site = site_of(alloc, at)?;
        let held = children_under(alloc, at, behind)?;
        self.add_all(all, site, at, names, &held, &at.visit.written.items)
    }

    /// No processes.
    pub(crate) fn none(alloc: Global) -> Works
        ensures { works result ≡ no_works }
    {
        Works {
            processes: Vec::new(alloc),
            delays: Vec::new(alloc),
        }
    }
}
