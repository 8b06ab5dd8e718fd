//! What constructs make, one after the other.

ghost use Rattle.std.specs.List.{slice_get};
ghost use Rattle.std.specs.Prelude.{◌≡◌, ◌++◌, ◌∷◌, [], IfOk, OnOk, map};
ghost use Rattle.elab_scope.specs.Names.{meanings};
ghost use Rattle.rtl_tree.specs.TreeExpr.{formula, identifier};
ghost use Rattle.rtl_tree.specs.TreeWritten.{choice, choice_row, item_row, made, written_item};
ghost use Rattle.elab_items.specs.Settings.{no_settings, settings_of};
ghost use Rattle.elab_expand.specs.Expansions.{block_component, entering, head_faults, unless_faulty, with_outcome, labelling, leaving, opened_block, opened_body, opened_choice, opened_item, opened_items, outcome_in, judging, looping, loop_label, case_opened, one_turn, turn_made, turn_number, turns};
ghost use Rattle.elab_expand.specs.Openings.{loop_of, opened_at, opening, outers};

use crate::block::{BlockSoFar, Site};
use crate::cases::pick;
use crate::lifting::lift_all;
use crate::loops::{
    Head, TURNS, block_component, goes_on, judge_at, judge_head, loop_label, outer_with,
    turn_block, turn_component, turn_number,
};
use crate::placing::{label, name_all, place};
use crate::scopes::Scopes;
use crate::tally::Tally;
use crate::told::Reason;
use elab_scope::known::Known;
use elab_scope::names::Names;
use rtl_const::fault::ConstFault;
use rtl_tree::tree::expr::Expr;
use rtl_tree::tree::names::Name;
use rtl_tree::tree::written::{GenerateBlock, GenerateChoice, WrittenItem};
use text_ground::memory::Memory;
use text_ground::text::Text;

/// The number of an expression that has to be constant, where it has one; else it is told why.
fn judge(
    site: Site<'_>,
    at: u32,
    e: &Expr,
    block: &BlockSoFar<'_>,
    so_far: &mut Tally,
) -> Result<Result<i64, ConstFault>, Memory>
    ensures number { IfOk result (λ number. number
        ≡ outcome_in (opening (outers site.entry.outer.now) block.now so_far.old) (formula e.now)) }
    ensures judged { IfOk result (λ _. opening (outers site.entry.outer.now) block.now so_far.new
        ≡ judging (opening (outers site.entry.outer.now) block.now so_far.old) at (formula e.now)) }
{
    let within = Scopes {
        outer: site.outer,
        own: &block.own,
    };
    so_far.judge(site.alloc, within, at, e)
}

/// An item.
#[cycle(open)]
pub(crate) fn open_item<'a>(
    item: &'a WrittenItem,
    site: Site<'_>,
    block: &mut BlockSoFar<'a>,
    so_far: &mut Tally,
) -> Result<(), Memory>
    requires { settings_of site.nothing.now ≡ no_settings }
    ensures { OnOk result (opening (outers site.entry.outer.now) block.new so_far.new
        ≡ opened_item (settings_of site.entry.given.now) (written_item item.now)
        (opening (outers site.entry.outer.now) block.old so_far.old)) }
{
    match item {
        WrittenItem::Plain(item) => place(site, item, block),
        // Gates are assignments by now.
        WrittenItem::Gates { .. } => Ok(()),
        WrittenItem::Genvars(at, names) => {
            name_all(site, *at, names, Known::Integer(None), block)
        }
        WrittenItem::Region(_, items) => open_items(items, site, block, so_far),
        WrittenItem::If(at, condition, taken) => {
            match judge(site, *at, condition, block, so_far)? {
                Ok(0) | Err(_) => Ok(()),
                Ok(_) => open_block(taken, site, block, so_far),
            }
        }
        WrittenItem::IfElse(at, condition, taken, otherwise) => {
            match judge(site, *at, condition, block, so_far)? {
                Err(_) => Ok(()),
                Ok(0) => open_block(otherwise, site, block, so_far),
                Ok(_) => open_block(taken, site, block, so_far),
            }
        }
        WrittenItem::Case(at, selector, choices) => {
            match judge(site, *at, selector, block, so_far)? {
                Err(_) => Ok(()),
                Ok(number) => open_case(choices, site, *at, number, block, so_far),
            }
        }
        WrittenItem::For {
            at,
            index,
            start,
            condition,
            stepped,
            step,
            body,
        } => {
            let head = Head {
                at: *at,
                index,
                condition,
                step,
            };
            open_headed(body, site, head, stepped, start, block, so_far)
        }
    }
}

/// A loop.
#[cycle(open)]
fn open_headed<'a>(
    body: &'a GenerateBlock,
    site: Site<'_>,
    head: Head<'_>,
    stepped: &Name,
    start: &Expr,
    block: &mut BlockSoFar<'a>,
    so_far: &mut Tally,
) -> Result<(), Memory>
    requires { settings_of site.nothing.now ≡ no_settings }
    ensures { OnOk result (opening (outers site.entry.outer.now) block.new so_far.new
        ≡ unless_faulty (head_faults (opening (outers site.entry.outer.now) block.old so_far.old).scopes
        (identifier head.entry.index.now) (identifier stepped.now))
        (opening (outers site.entry.outer.now) block.old so_far.old)
        (λ o. with_outcome (outcome_in o (formula start.now)) (judging o head.entry.at (formula start.now))
        (looping (opened_body (made body.now))
        (loop_of head.entry (loop_label head.entry.at (made body.now)).text)
        (loop_label head.entry.at (made body.now))))) }
{
    let good = judge_head(site, head.index, stepped, block, so_far)?;
    if !good {
        return Ok(());
    }
    let number = judge(site, head.at, start, block, so_far)?;
    match number {
        Err(_) => Ok(()),
        Ok(first) => open_for(body, site, head, first, block, so_far),
    }
}

/// Items, one after the other, until a limit is passed.
#[cycle(open)]
fn open_items<'a>(
    items: &'a [WrittenItem],
    site: Site<'_>,
    block: &mut BlockSoFar<'a>,
    so_far: &mut Tally,
) -> Result<(), Memory>
    requires { settings_of site.nothing.now ≡ no_settings }
    ensures { OnOk result (opening (outers site.entry.outer.now) block.new so_far.new
        ≡ opened_items (settings_of site.entry.given.now) (item_row (map written_item items.now))
        (opening (outers site.entry.outer.now) block.old so_far.old)) }
{
    for item in items {
        if !so_far.is_full() {
            open_item(item, site, block, so_far)?;
        }
    }
    Ok(())
}

/// The block that an `if` or a `case` takes.
#[cycle(open)]
fn open_block<'a>(
    taken: &'a GenerateBlock,
    site: Site<'_>,
    block: &mut BlockSoFar<'a>,
    so_far: &mut Tally,
) -> Result<(), Memory>
    requires { settings_of site.nothing.now ≡ no_settings }
    ensures { OnOk result (opening (outers site.entry.outer.now) block.new so_far.new
        ≡ opened_block (settings_of site.entry.given.now) (made taken.now)
        (opening (outers site.entry.outer.now) block.old so_far.old)) }
{
    match taken {
        GenerateBlock::Null(_) => Ok(()),
        GenerateBlock::Single(item) => open_item(item, site, block, so_far),
        GenerateBlock::Block(_, label, items) => match label {
            None => open_items(items, site, block, so_far),
            Some(name) => open_scope(items, site, name, block, so_far),
        },
    }
}

/// A block of its own.
#[cycle(open)]
fn open_scope<'a>(
    items: &'a [WrittenItem],
    site: Site<'_>,
    name: &Name,
    block: &mut BlockSoFar<'a>,
    so_far: &mut Tally,
) -> Result<(), Memory>
    requires { settings_of site.nothing.now ≡ no_settings }
    ensures { OnOk result (opening (outers site.entry.outer.now) block.new so_far.new
        ≡ leaving (block_component name.now.text) name.now.at
        (labelling (opening (outers site.entry.outer.now) block.old so_far.old) (identifier name.now))
        (opened_items no_settings (item_row (map written_item items.now))
        (entering (labelling (opening (outers site.entry.outer.now) block.old so_far.old) (identifier name.now))))) }
{
    label(site, name, block)?;
    let mut inner = BlockSoFar::new(site.alloc);
    open_inside(items, site, &block.own, &mut inner, so_far)?;
    let component = block_component(site.alloc, &name.text)?;
    lift_all(
        site.alloc,
        &inner.own,
        &component,
        name.at,
        &inner.items,
        &mut block.items,
        so_far,
    )
}

/// Items in a block of its own, which stands in one that declares these names.
#[cycle(open)]
fn open_inside<'a>(
    items: &'a [WrittenItem],
    site: Site<'_>,
    own: &Names,
    inner: &mut BlockSoFar<'a>,
    so_far: &mut Tally,
) -> Result<(), Memory>
    requires { settings_of site.nothing.now ≡ no_settings }
    ensures { OnOk result (opening (outers site.entry.outer.now ++ meanings own.now ∷ []) inner.new so_far.new
        ≡ opened_items no_settings (item_row (map written_item items.now))
        (opening (outers site.entry.outer.now ++ meanings own.now ∷ []) inner.old so_far.old)) }
{
    let outer = outer_with(site.alloc, site.outer, own)?;
    open_items(items, site.inside(&outer), inner, so_far)
}

/// The choice of a `case` whose selector has this number.
#[cycle(open)]
fn open_case<'a>(
    choices: &'a [GenerateChoice],
    site: Site<'_>,
    at: u32,
    number: i64,
    block: &mut BlockSoFar<'a>,
    so_far: &mut Tally,
) -> Result<(), Memory>
    requires { settings_of site.nothing.now ≡ no_settings }
    ensures { OnOk result (opening (outers site.entry.outer.now) block.new so_far.new
        ≡ case_opened (settings_of site.entry.given.now) at number (choice_row (map choice choices.now))
        (opening (outers site.entry.outer.now) block.old so_far.old)) }
{
    let within = Scopes {
        outer: site.outer,
        own: &block.own,
    };
    match pick(site.alloc, within, at, number, choices, so_far)? {
        None => Ok(()),
        Some(place) => open_choices(choices, site, place, block, so_far),
    }
}

/// The choice in this place, where there is one.
#[cycle(open)]
fn open_choices<'a>(
    choices: &'a [GenerateChoice],
    site: Site<'_>,
    place: usize,
    block: &mut BlockSoFar<'a>,
    so_far: &mut Tally,
) -> Result<(), Memory>
    requires { settings_of site.nothing.now ≡ no_settings }
    ensures { OnOk result (opening (outers site.entry.outer.now) block.new so_far.new
        ≡ opened_at (settings_of site.entry.given.now) (slice_get choices.now place)
        (opening (outers site.entry.outer.now) block.old so_far.old)) }
{
    match choices.get(place) {
        None => Ok(()),
        Some(one) => open_choice(one, site, block, so_far),
    }
}

#[cycle(open)]
fn open_choice<'a>(
    one: &'a GenerateChoice,
    site: Site<'_>,
    block: &mut BlockSoFar<'a>,
    so_far: &mut Tally,
) -> Result<(), Memory>
    requires { settings_of site.nothing.now ≡ no_settings }
    ensures { OnOk result (opening (outers site.entry.outer.now) block.new so_far.new
        ≡ opened_choice (settings_of site.entry.given.now) (choice one.now)
        (opening (outers site.entry.outer.now) block.old so_far.old)) }
{
    match one {
        GenerateChoice::Labelled(_, body) => open_block(body, site, block, so_far),
        GenerateChoice::Default(_, body) => open_block(body, site, block, so_far),
    }
}

/// A loop whose first number is known: it declares the name of its block.
#[cycle(open)]
fn open_for<'a>(
    body: &'a GenerateBlock,
    site: Site<'_>,
    head: Head<'_>,
    first: i64,
    block: &mut BlockSoFar<'a>,
    so_far: &mut Tally,
) -> Result<(), Memory>
    requires { settings_of site.nothing.now ≡ no_settings }
    ensures { OnOk result (opening (outers site.entry.outer.now) block.new so_far.new
        ≡ looping (opened_body (made body.now)) (loop_of head.entry (loop_label head.entry.at (made body.now)).text)
        (loop_label head.entry.at (made body.now)) first
        (opening (outers site.entry.outer.now) block.old so_far.old)) }
{
    let name = loop_label(site.alloc, head.at, body)?;
    label(site, &name, block)?;
    open_turns(body, site, head, &name.text, first, block, so_far)
}

/// The turns of a loop from its first number on.
#[cycle(open)]
fn open_turns<'a>(
    body: &'a GenerateBlock,
    site: Site<'_>,
    head: Head<'_>,
    name: &Text,
    first: i64,
    block: &mut BlockSoFar<'a>,
    so_far: &mut Tally,
) -> Result<(), Memory>
    requires { settings_of site.nothing.now ≡ no_settings }
    ensures { OnOk result (opening (outers site.entry.outer.now) block.new so_far.new
        ≡ turns (opened_body (made body.now)) (loop_of head.entry name.now) TURNS first
        (opening (outers site.entry.outer.now) block.old so_far.old)) }
{
    let mut number = first;
    for _turn in 0..TURNS {
        if !goes_on(site, head, number, block, so_far)? {
            return Ok(());
        }
        match open_turn(body, site, head, name, number, block, so_far)? {
            None => return Ok(()),
            Some(next) => number = next,
        }
    }
    if goes_on(site, head, number, block, so_far)? {
        so_far.tell(head.at, Reason::TooManyTurns);
    }
    Ok(())
}

/// A turn, and the number of the next one where one follows.
#[cycle(open)]
fn open_turn<'a>(
    body: &'a GenerateBlock,
    site: Site<'_>,
    head: Head<'_>,
    name: &Text,
    number: i64,
    block: &mut BlockSoFar<'a>,
    so_far: &mut Tally,
) -> Result<Option<i64>, Memory>
    requires { settings_of site.nothing.now ≡ no_settings }
    ensures { IfOk result (λ next. (record { next = next; opening = opening (outers site.entry.outer.now) block.new so_far.new })
        ≡ one_turn (opened_body (made body.now)) (loop_of head.entry name.now) number (turn_number number)
        (opening (outers site.entry.outer.now) block.old so_far.old)) }
{
    let Some(index) = turn_number(number) else {
        let at = head.index.at;
        so_far.tell(at, Reason::Const(ConstFault::Overflow(at)));
        return Ok(None);
    };
    so_far.count_turn(head.at)?;
    if so_far.is_full() {
        return Ok(None);
    }
    make_turn(body, site, head, name, index, block, so_far)?;
    if so_far.is_full() {
        return Ok(None);
    }
    let next = judge_at(site, head, head.step, number, block, so_far)?;
    match next {
        Ok(next) => Ok(Some(next)),
        Err(_) => Ok(None),
    }
}

/// The items of a turn.
#[cycle(open)]
fn make_turn<'a>(
    body: &'a GenerateBlock,
    site: Site<'_>,
    head: Head<'_>,
    name: &Text,
    index: u32,
    block: &mut BlockSoFar<'a>,
    so_far: &mut Tally,
) -> Result<(), Memory>
    requires { settings_of site.nothing.now ≡ no_settings }
    ensures { OnOk result (opening (outers site.entry.outer.now) block.new so_far.new
        ≡ turn_made (opened_body (made body.now)) (loop_of head.entry name.now) index
        (opening (outers site.entry.outer.now) block.old so_far.old)) }
{
    let mut inner = turn_block(site.alloc, head.index, index)?;
    open_body(body, site, &block.own, &mut inner, so_far)?;
    let component = turn_component(site.alloc, name, index)?;
    lift_all(
        site.alloc,
        &inner.own,
        &component,
        head.at,
        &inner.items,
        &mut block.items,
        so_far,
    )
}

/// The items of a loop's block in a turn, which stands in a block that declares these names.
#[cycle(open)]
fn open_body<'a>(
    body: &'a GenerateBlock,
    site: Site<'_>,
    own: &Names,
    inner: &mut BlockSoFar<'a>,
    so_far: &mut Tally,
) -> Result<(), Memory>
    requires { settings_of site.nothing.now ≡ no_settings }
    ensures { OnOk result (opening (outers site.entry.outer.now ++ meanings own.now ∷ []) inner.new so_far.new
        ≡ opened_body (made body.now)
        (opening (outers site.entry.outer.now ++ meanings own.now ∷ []) inner.old so_far.old)) }
{
    let outer = outer_with(site.alloc, site.outer, own)?;
    open_made(body, site.inside(&outer), inner, so_far)
}

/// The items of a loop's block.
#[cycle(open)]
fn open_made<'a>(
    body: &'a GenerateBlock,
    site: Site<'_>,
    block: &mut BlockSoFar<'a>,
    so_far: &mut Tally,
) -> Result<(), Memory>
    requires nothing { settings_of site.nothing.now ≡ no_settings }
    requires given { settings_of site.given.now ≡ no_settings }
    ensures { OnOk result (opening (outers site.entry.outer.now) block.new so_far.new
        ≡ opened_body (made body.now) (opening (outers site.entry.outer.now) block.old so_far.old)) }
{
    match body {
        GenerateBlock::Null(_) => Ok(()),
        GenerateBlock::Single(item) => open_item(item, site, block, so_far),
        GenerateBlock::Block(_, _, items) => open_items(items, site, block, so_far),
    }
}
