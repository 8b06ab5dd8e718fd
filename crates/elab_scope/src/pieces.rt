//! The parts of targets in the design.

ghost use Rattle.std.specs.Prelude.{◌≡◌, ◌++◌, IfOk, OnOk, map};
ghost use Rattle.rtl_const.specs.Constant.{constant};
ghost use Rattle.rtl_flat.specs.Process.{piece, selection};
ghost use Rattle.rtl_tree.specs.TreeExpr.{formula};
ghost use Rattle.rtl_tree.specs.TreeStmt.{target, target_row};
ghost use Rattle.elab_scope.specs.Names.{meanings, numbers_in};
ghost use Rattle.elab_scope.specs.Targets.{all_pieces_of, bit_selection, part_selection, pieces_of};
ghost use Rattle.elab_scope.specs.Trees.{low_of, own_context, signal_of, spot_in, tree_of};

use crate::context::own_context;
use crate::known::Known;
use crate::names::Names;
use crate::selects::ends_of;
use crate::size::{Site, boxed, field_in, low_of, signal_of};
use crate::widths::Field;
use rtl_const::evaluate::constant;
use rtl_flat::act::{Target, TargetPart};
use rtl_flat::expr::{Index, Select};
use rtl_tree::tree::expr::Expr;
use rtl_tree::tree::names::Name;
use rtl_tree::tree::stmt::Lvalue;
use text_ground::memory::Memory;
use text_ground::text::Spot;

/// The bit that an index selects: a constant one is its number.
pub fn bit(index: &Expr, known: Option<Known>, names: &Names, site: Site) -> Result<Select, Memory>
    ensures { IfOk result (λ made. selection made
        ≡ bit_selection (low_of known)
        (constant (numbers_in (meanings names.now)) (formula index.now))
        (tree_of site.file site.base (meanings names.now) (formula index.now)
        (own_context (meanings names.now) (formula index.now)))) }
{
    let low = low_of(known);
    match constant(index, names) {
        Ok(number) => Ok(Select::Bit {
            low,
            index: Index::Fixed(number),
        }),
        Err(_) => {
            let index = boxed(index, own_context(index, names), names, site)?;
            Ok(Select::Bit {
                low,
                index: Index::Computed(index),
            })
        }
    }
}

pub fn part(field: Option<Field>) -> Select
    ensures { selection result ≡ part_selection field }
{
    let field = field.unwrap_or(Field { low: 0, width: 1 });
    Select::Part {
        low: field.low,
        width: field.width,
    }
}

/// What is selected of a name.
pub fn part_of(name: &Name, known: Option<Known>, select: Select, site: Site) -> TargetPart
    ensures { piece result ≡ record {
      signal = signal_of site.base known;
      selection = selection select;
      spot = spot_in site.file
          name.now.at;
    } }
{
    TargetPart {
        signal: signal_of(site.base, known),
        select,
        spot: Spot {
            file: site.file,
            at: name.at,
        },
    }
}

/// The parts of a target, behind others.
#[cycle(push_parts)]
#[tactic(auto, using(crate::proofs::TargetViews::joined_pieces))]
fn push_parts(
    written: &Lvalue,
    names: &Names,
    site: Site,
    made: &mut Vec<TargetPart>,
) -> Result<(), Memory>
    ensures { OnOk result (map piece made.new.items ≡ map piece made.old.items
        ++ pieces_of site.file site.base (meanings names.now) (target written.now)) }
{
    match written {
        Lvalue::Whole(name) => {
            let known = names.find(&name.text);
            made.push(part_of(name, known, Select::Whole, site))?;
        }
        Lvalue::Bit(name, index) => {
            let known = names.find(&name.text);
            let select = bit(index, known, names, site)?;
            made.push(part_of(name, known, select, site))?;
        }
        Lvalue::Part(name, kind, first, second) => {
            let known = names.find(&name.text);
            let ends = ends_of(*kind, first, second, names);
            let field = field_in(known, ends.msb, ends.lsb);
            made.push(part_of(name, known, part(field), site))?;
        }
        Lvalue::Concat(_, parts) => push_all(parts, names, site, made)?,
    }
    Ok(())
}

/// The parts of several targets, behind others.
#[cycle(push_parts)]
#[tactic(auto, using(std::proofs::lemmas::Grind::common_steps))]
fn push_all(
    parts: &[Lvalue],
    names: &Names,
    site: Site,
    made: &mut Vec<TargetPart>,
) -> Result<(), Memory>
    ensures { OnOk result (map piece made.new.items ≡ map piece made.old.items
        ++ all_pieces_of site.file site.base (meanings names.now)
        (target_row (map target parts.now))) }
{
    for part in parts {
        push_parts(part, names, site, made)?;
    }
    Ok(())
}

/// A target in the design.
pub fn target_of(written: &Lvalue, names: &Names, site: Site) -> Result<Target, Memory>
    ensures { IfOk result (λ made. map piece made.parts.items
        ≡ pieces_of site.file site.base (meanings names.now) (target written.now)) }
{
    let mut parts = Vec::new(site.alloc);
    push_parts(written, names, site, &mut parts)?;
    Ok(Target { parts })
}
