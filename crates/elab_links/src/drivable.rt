//! Arguments of output ports: what a port may drive.

ghost use Rattle.std.specs.Prelude.{◌≡◌, ◌++◌, IfOk, OnOk, map};
ghost use Rattle.rtl_tree.specs.TreeExpr.{formula, formula_row};
ghost use Rattle.elab_items.specs.elab_scope.Names.{meanings};
ghost use Rattle.elab_items.specs.elab_scope.Own.{breadth};
ghost use Rattle.elab_links.specs.Drivable.{all_covers_of, all_have_nets, cover_list, covers_of, drivable, has_nets, may_link, meet, meets_itself};

use elab_items::elab_scope::covers::{Cover, bit_cover, is_covered, part_cover, whole_cover};
use elab_items::elab_scope::known::{Known, Role};
use elab_items::elab_scope::names::Names;
use elab_items::elab_scope::selects::ends_of;
use elab_items::elab_scope::size::field_in;
use elab_items::elab_scope::widths::Breadth;
use rtl_const::evaluate::constant;
use rtl_tree::tree::expr::Expr;
use std::alloc::Global;
use text_ground::memory::Memory;

/// A net may be driven; that a name isn't declared is a fault of its own.
fn may_link(known: Option<Known>) -> bool
    ensures { result ≡ may_link known }
{
    match known {
        None => true,
        Some(Known::Signal { role, .. }) => match role {
            Role::Net => true,
            Role::Input | Role::Variable => false,
        },
        Some(Known::Parameter { .. }) | Some(Known::Integer(_)) => false,
    }
}

/// Whether an argument is a net, a bit of one with a constant index, a part of one, or several of these beside one
/// another.
#[cycle(has_nets)]
#[tactic(auto, using(crate::proofs::Rows::concat_nets))]
fn has_nets(e: &Expr, names: &Names) -> bool
    ensures { result ≡ has_nets (meanings names.now) (formula e.now) }
{
    match e {
        Expr::Read(name) => may_link(names.find(&name.text)),
        Expr::ReadBit(name, index) => {
            may_link(names.find(&name.text)) && constant(index, names).is_ok()
        }
        Expr::ReadPart(name, _, _, _) => may_link(names.find(&name.text)),
        Expr::Concat(_, parts) => all_have_nets(parts, names),
        Expr::Number(_, _)
        | Expr::Parens(_, _)
        | Expr::Apply(_, _, _)
        | Expr::Repeat(_, _, _)
        | Expr::Unary(_, _, _)
        | Expr::Binary(_, _, _, _)
        | Expr::Choose(_, _, _, _) => false,
    }
}

#[cycle(has_nets)]
fn all_have_nets(parts: &[Expr], names: &Names) -> bool
    ensures { result ≡ all_have_nets (meanings names.now) (formula_row (map formula parts.now)) }
{
    for part in parts {
        if !has_nets(part, names) {
            return false;
        }
    }
    true
}

fn push_cover(cover: Option<Cover>, covers: &mut Vec<Cover>) -> Result<(), Memory>
    ensures { OnOk result (covers.new.items ≡ covers.old.items ++ cover_list cover) }
{
    if let Some(cover) = cover {
        covers.push(cover)?;
    }
    Ok(())
}

/// The bits that are driven through an argument, behind others.
#[cycle(push_covers)]
#[tactic(auto, using(crate::proofs::Rows::concat_covers))]
fn push_covers(e: &Expr, names: &Names, covers: &mut Vec<Cover>) -> Result<(), Memory>
    ensures { OnOk result (covers.new.items
        ≡ covers.old.items ++ covers_of (meanings names.now) (formula e.now)) }
{
    match e {
        Expr::Read(name) => push_cover(whole_cover(names.find(&name.text)), covers)?,
        Expr::ReadBit(name, index) => {
            let cover = bit_cover(names.find(&name.text), constant(index, names));
            push_cover(cover, covers)?;
        }
        Expr::ReadPart(name, kind, first, second) => {
            let known = names.find(&name.text);
            let ends = ends_of(*kind, first, second, names);
            let field = field_in(known, ends.msb, ends.lsb);
            push_cover(part_cover(known, field), covers)?;
        }
        Expr::Concat(_, parts) => push_all_covers(parts, names, covers)?,
        Expr::Number(_, _)
        | Expr::Parens(_, _)
        | Expr::Apply(_, _, _)
        | Expr::Repeat(_, _, _)
        | Expr::Unary(_, _, _)
        | Expr::Binary(_, _, _, _)
        | Expr::Choose(_, _, _, _) => {}
    }
    Ok(())
}

#[cycle(push_covers)]
#[tactic(auto, using(std::proofs::lemmas::Grind::common_steps))]
fn push_all_covers(parts: &[Expr], names: &Names, covers: &mut Vec<Cover>) -> Result<(), Memory>
    ensures { OnOk result (covers.new.items
        ≡ covers.old.items ++ all_covers_of (meanings names.now)
        (formula_row (map formula parts.now))) }
{
    for part in parts {
        push_covers(part, names, covers)?;
    }
    Ok(())
}

/// Whether one of some parts has a bit that stands in a later one too.
fn meet(covers: &[Cover]) -> bool
    ensures { result ≡ meet covers.now }
{
    match covers.split_first() {
        None => false,
        Some((first, others)) => is_covered(*first, others) || meet(others),
    }
}

/// Whether an output port may drive an argument of this breadth.
pub fn drivable(alloc: Global, e: &Expr, width: Breadth, names: &Names) -> Result<bool, Memory>
    requires { width ≡ breadth (meanings names.now) (formula e.now) }
    ensures { IfOk result (λ may. may ≡ drivable (meanings names.now) (formula e.now)) }
{
    if !has_nets(e, names) {
        return Ok(false);
    }
    match width {
        Breadth::Bits(_) => {
            let mut covers = Vec::new(alloc);
            push_covers(e, names, &mut covers)?;
            Ok(!meet(&covers))
        }
        Breadth::Unfit | Breadth::Hidden => Ok(true),
    }
}
