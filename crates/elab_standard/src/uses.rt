//! Expressions as they are used in an instance, and what other tools read otherwise in them.

ghost use Rattle.std.specs.Prelude.{◌≡◌, ◌≤◌, ◌++◌, map, OnOk};
ghost use Rattle.std.specs.List.{list_any};
ghost use Rattle.rtl_tree.specs.TreeExpr.{formula};
ghost use Rattle.rtl_tree.specs.TreeStmt.{branch, branch_row};
ghost use Rattle.elab_standard.specs.Cases.{case_labels};
ghost use Rattle.elab_standard.specs.Scopes.{scopes};
ghost use Rattle.elab_standard.specs.Uses.{all_inner_notes, any_differs, branch_notes, branches_notes, case_notes, inner_notes, is_case_differing, use_notes, used, value_notes};

use crate::alike::case_alike;
use crate::cases::is_case_misread;
use crate::contexts::case_context;
use crate::differing::differs;
use crate::nested::{push_format, push_nested};
use crate::notes::{push_if, root_place};
use crate::numbers::{push_count, push_number, push_truth};
use crate::scopes::{By, Scopes};
use crate::unsized_numbers::push_unsized;
use elab_walk::elab_scope::context::Context;
use rtl_flat::note::{Note, Reading};
use rtl_tree::tree::expr::Expr;
use rtl_tree::tree::stmt::CaseItem;
use text_ground::memory::Memory;

/// Where expressions of a module stand: in the text of a file, and in an instance.
#[derive(Clone, Copy)]
pub struct Home {
    pub file: u32,
    pub instance: u32,
}

/// An expression as it is used.
#[derive(Clone, Copy)]
pub enum Use<'a> {
    /// A value that is worked out while the design runs, in at least so many bits; 0 where nothing but itself sizes it.
    Value {
        value: &'a Expr,
        wanted: u8,
    },
    /// A case: its selector and the labels of its items are sized together.
    Case {
        at: u32,
        selector: &'a Expr,
        items: &'a [CaseItem],
    },
    /// A constant of which the number counts: an end of a range or of a part, an index, a count of copies.
    Number(&'a Expr),
    /// A constant of which the truth counts: the condition of an `if` or a `for`.
    Test(&'a Expr),
    /// The start or the step of a `for`, which an `integer` takes.
    Count(&'a Expr),
}

/// Adds what is told of the constants, the computed indices and the numbers without a width in an expression.
fn push_inner(home: Home, kept: &Scopes, e: &Expr, made: &mut Vec<Note>) -> Result<(), Memory>
    ensures { OnOk result (made.new.items
        ≡ made.old.items ++ inner_notes home (scopes kept.now) (formula e.now)) }
{
    push_nested(home, kept, e, made)?;
    push_unsized(home, kept, e, made)
}

fn push_labels(
    home: Home,
    kept: &Scopes,
    labels: &[Expr],
    made: &mut Vec<Note>,
) -> Result<(), Memory>
    ensures { OnOk result (made.new.items ≡ made.old.items
        ++ all_inner_notes home (scopes kept.now) (map formula labels.now)) }
{
    for label in labels {
        push_inner(home, kept, label, made)?;
    }
    Ok(())
}

fn push_item(home: Home, kept: &Scopes, item: &CaseItem, made: &mut Vec<Note>) -> Result<(), Memory>
    ensures { OnOk result (made.new.items ≡ made.old.items
        ++ branch_notes home (scopes kept.now) (branch item.now)) }
{
    match item {
        CaseItem::Labelled(labels, _) => push_labels(home, kept, labels, made),
        CaseItem::Default(_, _) => Ok(()),
    }
}

fn push_items(
    home: Home,
    kept: &Scopes,
    items: &[CaseItem],
    made: &mut Vec<Note>,
) -> Result<(), Memory>
    ensures { OnOk result (made.new.items ≡ made.old.items
        ++ branches_notes home (scopes kept.now) (branch_row (map branch items.now))) }
{
    for item in items {
        push_item(home, kept, item, made)?;
    }
    Ok(())
}

fn any_label(labels: &[Expr], desk: Context, standard: Context, kept: &Scopes) -> bool
    requires desk_not_empty { 1 ≤ desk.width }
    requires desk_at_most { desk.width ≤ 128 }
    requires not_empty { 1 ≤ standard.width }
    requires at_most { standard.width ≤ 128 }
    ensures { result ≡ any_differs (scopes kept.now) (map formula labels.now) desk standard }
{
    for label in labels {
        if differs(label, desk, standard, kept) {
            return true;
        }
    }
    false
}

#[tactic(auto, using(crate::proofs::Lists::any_append))]
fn any_item(items: &[CaseItem], desk: Context, standard: Context, kept: &Scopes) -> bool
    requires desk_not_empty { 1 ≤ desk.width }
    requires desk_at_most { desk.width ≤ 128 }
    requires not_empty { 1 ≤ standard.width }
    requires at_most { standard.width ≤ 128 }
    ensures { result ≡ any_differs (scopes kept.now)
        (case_labels (branch_row (map branch items.now))) desk standard }
{
    for item in items {
        if let CaseItem::Labelled(labels, _) = item {
            if any_label(labels, desk, standard, kept) {
                return true;
            }
        }
    }
    false
}

/// Whether the selector or a label differs in the context that they share.
fn is_case_differing(selector: &Expr, items: &[CaseItem], kept: &Scopes) -> bool
    ensures { result ≡ is_case_differing (scopes kept.now) (formula selector.now)
        (branch_row (map branch items.now)) }
{
    if case_alike(selector, items, kept) {
        return false;
    }
    let desk = case_context(selector, items, kept, By::Desk);
    let standard = case_context(selector, items, kept, By::Standard);
    differs(selector, desk, standard, kept) || any_item(items, desk, standard, kept)
}

fn push_case(
    home: Home,
    kept: &Scopes,
    at: u32,
    selector: &Expr,
    items: &[CaseItem],
    made: &mut Vec<Note>,
) -> Result<(), Memory>
    ensures { OnOk result (made.new.items ≡ made.old.items
        ++ case_notes home (scopes kept.now) at (formula selector.now)
        (branch_row (map branch items.now))) }
{
    let broken = is_case_misread(selector, items, kept);
    push_if(broken, home, Reading::CaseSigns, at, made)?;
    let broken = is_case_differing(selector, items, kept);
    push_if(
        broken,
        home,
        Reading::ParameterFormat,
        root_place(selector),
        made,
    )?;
    push_inner(home, kept, selector, made)?;
    push_items(home, kept, items, made)
}

fn push_value(
    home: Home,
    kept: &Scopes,
    e: &Expr,
    wanted: u8,
    made: &mut Vec<Note>,
) -> Result<(), Memory>
    ensures { OnOk result (made.new.items
        ≡ made.old.items ++ value_notes home (scopes kept.now) (formula e.now) wanted) }
{
    push_format(home, kept, e, wanted, made)?;
    push_inner(home, kept, e, made)
}

/// Adds the notes of an expression as it is used.
#[tactic(auto, unfolding(crate::specs::Uses::use_notes))]
pub fn push_use(home: Home, kept: &Scopes, one: Use<'_>, made: &mut Vec<Note>) -> Result<(), Memory>
    ensures { OnOk result (made.new.items
        ≡ made.old.items ++ use_notes home (scopes kept.now) (used one.entry)) }
{
    match one {
        Use::Value { value, wanted } => push_value(home, kept, value, wanted, made),
        Use::Case {
            at,
            selector,
            items,
        } => push_case(home, kept, at, selector, items, made),
        Use::Number(value) => {
            push_number(home, kept, value, made)?;
            push_unsized(home, kept, value, made)
        }
        Use::Test(value) => {
            push_truth(home, kept, value, made)?;
            push_unsized(home, kept, value, made)
        }
        Use::Count(value) => {
            push_count(home, kept, value, made)?;
            push_unsized(home, kept, value, made)
        }
    }
}
