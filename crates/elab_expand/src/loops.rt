//! The heads and the turns of generate loops.

ghost use Rattle.std.specs.Prelude.{◌≡◌, ◌++◌, ◌∷◌, [], Some, pos, cond, IfOk, map};
ghost use Rattle.rtl_const.specs.Constant.{constant};
ghost use Rattle.rtl_tree.specs.TreeExpr.{formula, identifier};
ghost use Rattle.rtl_tree.specs.TreeItem.{module_item};
ghost use Rattle.rtl_tree.specs.TreeWritten.{made};
ghost use Rattle.elab_scope.specs.Names.{entered, meanings, no_meanings};
ghost use Rattle.elab_scope.specs.declared.known.Known.TheVariants.{Integer};
ghost use Rattle.elab_expand.specs.Expansions.{Opening, at_number, block_component, head_faults, index_item, is_genvar, is_taken, loop_label, turn_component, turn_number, unless_faulty};
ghost use Rattle.elab_expand.specs.Openings.{opening, outers, piece, scopes_of, tally};
ghost use Rattle.elab_expand.specs.Scoping.{numbers_at};
ghost use Rattle.elab_expand.specs.Tallies.{judged};

use crate::block::{BlockSoFar, Piece, Site};
use crate::placing::copied;
use crate::scopes::Scopes;
use crate::tally::Tally;
use crate::told::Reason;
use elab_scope::known::Known;
use elab_scope::names::Names;
use itoa::Buffer;
use rtl_const::fault::ConstFault;
use rtl_tree::literal::Literal;
use rtl_tree::tree::expr::Expr;
use rtl_tree::tree::item::{Item, ParameterKind, Setting};
use rtl_tree::tree::names::Name;
use rtl_tree::tree::written::GenerateBlock;
use std::alloc::Global;
use text_ground::memory::Memory;
use text_ground::text::Text;

/// How many turns a loop may have.
pub(crate) const TURNS: u32 = 4096;

/// The head of a loop.
#[derive(Clone, Copy)]
pub struct Head<'h> {
    pub at: u32,
    pub index: &'h Name,
    pub condition: &'h Expr,
    pub step: &'h Expr,
}

fn is_genvar(known: Option<Known>) -> bool
    ensures { result ≡ is_genvar known }
{
    matches!(known, Some(Known::Integer(None)))
}

/// Whether a loop goes over a genvar, and its step is of the same one.
pub(crate) fn judge_head(
    site: Site<'_>,
    index: &Name,
    stepped: &Name,
    block: &BlockSoFar<'_>,
    so_far: &mut Tally,
) -> Result<bool, Memory>
    ensures { IfOk result (λ good. (next : Opening → Opening)
        → unless_faulty
        (head_faults (opening (outers site.entry.outer.now) block.now so_far.old).scopes (identifier index.now) (identifier stepped.now))
        (opening (outers site.entry.outer.now) block.now so_far.old) next
        ≡ cond good (next (opening (outers site.entry.outer.now) block.now so_far.new))
        (opening (outers site.entry.outer.now) block.now so_far.new)) }
{
    let within = Scopes {
        outer: site.outer,
        own: &block.own,
    };
    let is_over = is_genvar(within.find(&index.text));
    let is_same = index.text.as_bytes() == stepped.text.as_bytes();
    if !is_over {
        so_far.tell_genvar(site.alloc, Some(index))?;
    }
    if !is_same {
        so_far.tell_genvar(site.alloc, Some(stepped))?;
    }
    Ok(is_over && is_same)
}

/// The name of a loop's block; each has one by now.
pub(crate) fn loop_label(alloc: Global, at: u32, body: &GenerateBlock) -> Result<Name, Memory>
    ensures { IfOk result (λ name. identifier name ≡ loop_label at (made body.now)) }
{
    match body {
        GenerateBlock::Block(_, Some(label), _) => copied(alloc, label),
        GenerateBlock::Block(_, None, _) | GenerateBlock::Null(_) | GenerateBlock::Single(_) => {
            Ok(Name {
                text: Text::from_bytes(alloc, b"genblk")?,
                at,
            })
        }
    }
}

/// What stands before the names that a block declares.
pub(crate) fn block_component(alloc: Global, label: &Text) -> Result<Text, Memory>
    ensures { IfOk result (λ made. made ≡ block_component label.now) }
{
    let mut made = Vec::from_slice(alloc, label.as_bytes())?;
    made.push(b'.')?;
    Ok(Text::from_vec(made))
}

/// What stands before the names that a turn's block declares.
pub(crate) fn turn_component(alloc: Global, label: &Text, index: u32) -> Result<Text, Memory>
    ensures { IfOk result (λ made. made ≡ turn_component label.now index) }
{
    let mut buffer = Buffer::new();
    let mut made = Vec::from_slice(alloc, label.as_bytes())?;
    made.push(b'[')?;
    made.extend_from_slice(buffer.format(index).as_bytes())?;
    made.extend_from_slice(b"].")?;
    Ok(Text::from_vec(made))
}

/// The number of a turn that is made: a genvar isn't negative, and has 32 bits with its sign.
pub(crate) fn turn_number(number: i64) -> Option<u32>
    ensures { result ≡ turn_number number }
{
    if 0 <= number && number <= 2_147_483_647 {
        Some(number as u32)
    } else {
        None
    }
}

/// Names of which one alone is declared: the genvar with a number.
pub(crate) fn index_names(alloc: Global, index: &Name, number: i64) -> Result<Names, Memory>
    ensures { IfOk result (λ names. meanings names
        ≡ entered no_meanings index.now.text (Integer (Some number))) }
{
    let mut names = Names::new(alloc);
    names.declare(&index.text, Known::Integer(Some(number)))?;
    Ok(names)
}

/// A turn's genvar as a `localparam` of the turn's block.
fn index_item(alloc: Global, index: &Name, number: u32) -> Result<Item, Memory>
    ensures { IfOk result (λ made. module_item made ≡ index_item (identifier index.now) number) }
{
    let value = Literal {
        val: u128::from(number),
        unk: 0,
        width: 32,
        signed: true,
        sized: false,
        radix: 10,
    };
    let setting = Setting {
        name: copied(alloc, index)?,
        value: Expr::Number(value, index.at),
    };
    Ok(Item::Parameters {
        at: index.at,
        kind: ParameterKind::Local,
        range: None,
        settings: vec![in alloc; setting]?,
    })
}

/// The block of a turn, before the items of its loop.
pub(crate) fn turn_block<'a>(
    alloc: Global,
    index: &Name,
    number: u32,
) -> Result<BlockSoFar<'a>, Memory>
    ensures own { IfOk result (λ made. meanings made.own
        ≡ entered no_meanings index.now.text (Integer (Some (pos number)))) }
    ensures items { IfOk result (λ made. map piece made.items.items
        ≡ index_item (identifier index.now) number ∷ []) }
{
    let own = index_names(alloc, index, i64::from(number))?;
    let mut items = Vec::new(alloc);
    items.push(Piece::Made(index_item(alloc, index, number)?))?;
    Ok(BlockSoFar { own, items })
}

/// The blocks round a block of its own.
pub(crate) fn outer_with<'s>(
    alloc: Global,
    outer: &[&'s Names],
    own: &'s Names,
) -> Result<Vec<&'s Names>, Memory>
    ensures { IfOk result (λ made. outers made.items ≡ outers outer.now ++ meanings own.now ∷ []) }
{
    let mut made = Vec::new(alloc);
    for names in outer {
        made.push(*names)?;
    }
    made.push(own)?;
    Ok(made)
}

/// The number of an expression where the genvar has a number; what is wrong with it is told.
pub(crate) fn judge_at(
    site: Site<'_>,
    head: Head<'_>,
    e: &Expr,
    number: i64,
    block: &BlockSoFar<'_>,
    so_far: &mut Tally,
) -> Result<Result<i64, ConstFault>, Memory>
    ensures number { IfOk result (λ found. found ≡ constant (numbers_at (at_number
        (identifier head.entry.index.now) number (scopes_of site.entry.outer.now block.now))) (formula e.now)) }
    ensures judged { IfOk result (λ _. tally so_far.new ≡ judged (at_number
        (identifier head.entry.index.now) number (scopes_of site.entry.outer.now block.now)) head.entry.at
        (formula e.now) (tally so_far.old)) }
{
    let index = index_names(site.alloc, head.index, number)?;
    let outer = outer_with(site.alloc, site.outer, &block.own)?;
    let within = Scopes {
        outer: &outer,
        own: &index,
    };
    let found = so_far.judge(site.alloc, within, head.at, e)?;
    Ok(found)
}

/// Whether a turn with this number follows, by the condition.
pub(crate) fn goes_on(
    site: Site<'_>,
    head: Head<'_>,
    number: i64,
    block: &BlockSoFar<'_>,
    so_far: &mut Tally,
) -> Result<bool, Memory>
    ensures goes { IfOk result (λ goes. goes ≡ is_taken (constant (numbers_at (at_number
        (identifier head.entry.index.now) number (scopes_of site.entry.outer.now block.now)))
        (formula head.entry.condition.now))) }
    ensures judged { IfOk result (λ _. tally so_far.new ≡ judged (at_number
        (identifier head.entry.index.now) number (scopes_of site.entry.outer.now block.now)) head.entry.at
        (formula head.entry.condition.now) (tally so_far.old)) }
{
    let found = judge_at(site, head, head.condition, number, block, so_far)?;
    match found {
        Ok(value) => Ok(value != 0),
        Err(_) => Ok(false),
    }
}
