//! What synthesis doesn't see of modules.

ghost use Rattle.std.specs.Prelude.{◌≡◌, ◌++◌, IfOk, OnOk, map};
ghost use Rattle.std.specs.List.{filter};
ghost use Rattle.rtl_tree.specs.TreeItem.{module_item, variable};
ghost use Rattle.rtl_tree.specs.TreeModule.{circuit};
ghost use Rattle.elab_walk.specs.Regions.{dropped_in, initials, is_of, item_initials, merged, past, up_to, variable_initials};

use rtl_tree::tree::item::{Item, Reg};
use rtl_tree::tree::modules::Module;
use std::alloc::Global;
use text_ground::dropped::{DropKind, Dropped};
use text_ground::memory::Memory;

fn is_of(kind: DropKind, region: Dropped) -> bool
    ensures { result ≡ is_of kind region }
{
    match (kind, region.kind) {
        (DropKind::Initial, DropKind::Initial) => true,
        (DropKind::TranslateOff, DropKind::TranslateOff) => true,
        (DropKind::Comment, DropKind::Comment) => true,
        _ => false,
    }
}

/// The regions of one kind.
fn of_kind(alloc: Global, kind: DropKind, regions: &[Dropped]) -> Result<Vec<Dropped>, Memory>
    ensures { IfOk result (λ made. made.items ≡ filter (is_of kind) regions.now) }
{
    let mut made = Vec::new(alloc);
    for region in regions {
        if is_of(kind, *region) {
            made.push(*region)?;
        }
    }
    Ok(made)
}

/// The regions up to a place, behind others; those past it are left.
fn push_up_to<'a>(
    at: u32,
    regions: &'a [Dropped],
    made: &mut Vec<Dropped>,
) -> Result<&'a [Dropped], Memory>
    ensures made { OnOk result (made.new.items ≡ made.old.items ++ up_to at regions.now) }
    ensures left { IfOk result (λ left. left.now ≡ past at regions.now) }
{
    let mut rest = regions;
    while let Some((first, others)) = rest.split_first() {
        if at < first.at {
            return Ok(rest);
        }
        made.push(*first)?;
        rest = others;
    }
    Ok(rest)
}

/// Regions by place and others by place, all by place.
fn merged(alloc: Global, regions: &[Dropped], others: &[Dropped]) -> Result<Vec<Dropped>, Memory>
    ensures { IfOk result (λ made. made.items ≡ merged regions.now others.now) }
{
    let mut made = Vec::new(alloc);
    let mut rest = regions;
    for other in others {
        rest = push_up_to(other.at, rest, &mut made)?;
        made.push(*other)?;
    }
    made.extend_from_slice(rest)?;
    Ok(made)
}

/// The initial values of variables, behind others.
fn push_variables(regs: &[Reg], made: &mut Vec<Dropped>) -> Result<(), Memory>
    ensures { OnOk result (made.new.items
        ≡ made.old.items ++ variable_initials (map variable regs.now)) }
{
    for reg in regs {
        if reg.initial {
            made.push(Dropped {
                kind: DropKind::Initial,
                at: reg.name.at,
            })?;
        }
    }
    Ok(())
}

fn push_item(item: &Item, made: &mut Vec<Dropped>) -> Result<(), Memory>
    ensures { OnOk result (made.new.items
        ≡ made.old.items ++ item_initials (module_item item.now)) }
{
    match item {
        Item::Regs { regs, .. } => push_variables(regs, made)?,
        Item::Ports(_, _)
        | Item::Wires { .. }
        | Item::Integers(_, _)
        | Item::Parameters { .. }
        | Item::Assigns(_, _, _)
        | Item::Gates { .. }
        | Item::Always(_, _, _)
        | Item::Instances { .. } => {}
    }
    Ok(())
}

/// The initial values of the variables of items.
fn initials(alloc: Global, items: &[Item]) -> Result<Vec<Dropped>, Memory>
    ensures { IfOk result (λ made. made.items ≡ initials (map module_item items.now)) }
{
    let mut made = Vec::new(alloc);
    for item in items {
        push_item(item, &mut made)?;
    }
    Ok(made)
}

/// What synthesis doesn't see of a module, by place.
pub fn dropped_in(alloc: Global, written: &Module) -> Result<Vec<Dropped>, Memory>
    ensures { IfOk result (λ made. made.items ≡ dropped_in (circuit written.now)) }
{
    let pragmas = of_kind(alloc, DropKind::TranslateOff, &written.dropped)?;
    let constructs = of_kind(alloc, DropKind::Initial, &written.dropped)?;
    let regions = merged(alloc, &pragmas, &constructs)?;
    let values = initials(alloc, &written.items)?;
    let dropped = merged(alloc, &regions, &values)?;
    let comments = of_kind(alloc, DropKind::Comment, &written.dropped)?;
    merged(alloc, &dropped, &comments)
}
