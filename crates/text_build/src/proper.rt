// Modules that hold nothing that the builder reads and no text may have.

ghost use Rattle.std.specs.Prelude.{◌≡◌, ◌&&◌, map, nat_le, true};
ghost use Rattle.std.specs.List.{list_all};
ghost use Rattle.text_grammar.specs.GrammarStmt.{defaults};
ghost use Rattle.text_grammar.specs.GrammarGate.{has_one_input, is_named};
ghost use Rattle.rtl_tree.specs.TreeExpr.{formula};
ghost use Rattle.rtl_tree.specs.TreeGate.{gate};
ghost use Rattle.rtl_tree.specs.TreeWritten.{written_item};
ghost use Rattle.rtl_tree.specs.TreeItem.{association, module_item, variable};
ghost use Rattle.rtl_tree.specs.TreeModule.{header_parameter, written_circuit};
ghost use Rattle.rtl_tree.specs.TreeStmt.{action, action_row, branch, branch_row};
ghost use Rattle.text_build.specs.Tests.{are_proper, are_proper_arguments, are_proper_branches, are_terminals, has_first_heading, has_item, has_no_value, is_proper, is_proper_branch, is_proper_circuit, is_proper_gate, is_proper_item, is_proper_written};

use rtl_tree::tree::expr::Expr;
use rtl_tree::tree::gate::{Gate, GateKind};
use rtl_tree::tree::item::{Arguments, Item, Reg};
use rtl_tree::tree::modules::{HeadParameter, WrittenModule};
use rtl_tree::tree::stmt::{CaseItem, Stmt};
use rtl_tree::tree::written::WrittenItem;
use text_grammar::nesting::{MAX_NESTING, depth};

/// Whether at most one of the items of a `case` is its default.
fn has_one_default(items: &[CaseItem]) -> bool
    ensures { result ≡ nat_le (defaults (branch_row (map branch items.now))) 1 }
{
    let mut found = false;
    for item in items {
        match item {
            CaseItem::Labelled(_, _) => {}
            CaseItem::Default(_, _) => {
                if found {
                    return false;
                }
                found = true;
            }
        }
    }
    true
}

/// Whether a `case` may have these items: at least one, and at most one default.
fn may_be_items(items: &[CaseItem]) -> bool
    ensures { let all = branch_row (map branch items.now) in
        result ≡ (has_item all && nat_le (defaults all) 1) }
{
    !items.is_empty() && has_one_default(items)
}

/// Whether each `case` in a statement has an item, and at most one default.
#[cycle(proper)]
#[tactic(auto, using(crate::proofs::Rows::proper_block))]
fn is_proper(stmt: &Stmt) -> bool
    ensures { result ≡ is_proper (action stmt.now) }
{
    match stmt {
        Stmt::Null(_) | Stmt::Assign(_, _, _, _) => true,
        Stmt::Delayed(_, body) | Stmt::If(_, _, body) => is_proper(body),
        Stmt::IfElse(_, _, taken, otherwise) => is_proper(taken) && is_proper(otherwise),
        Stmt::Case { items, .. } => may_be_items(items) && are_proper_branches(items),
        Stmt::For { body, .. } => is_proper(body),
        Stmt::Block(_, _, body) => are_all_proper(body),
    }
}

#[cycle(proper)]
fn are_all_proper(all: &[Stmt]) -> bool
    ensures { result ≡ are_proper (action_row (map action all.now)) }
{
    for stmt in all {
        if !is_proper(stmt) {
            return false;
        }
    }
    true
}

#[cycle(proper)]
fn is_proper_branch(item: &CaseItem) -> bool
    ensures { result ≡ is_proper_branch (branch item.now) }
{
    match item {
        CaseItem::Labelled(_, body) | CaseItem::Default(_, body) => is_proper(body),
    }
}

#[cycle(proper)]
fn are_proper_branches(items: &[CaseItem]) -> bool
    ensures { result ≡ are_proper_branches (branch_row (map branch items.now)) }
{
    for item in items {
        if !is_proper_branch(item) {
            return false;
        }
    }
    true
}

/// Whether no variable has an initial value.
fn have_no_values(regs: &[Reg]) -> bool
    ensures { result ≡ list_all has_no_value (map variable regs.now) }
{
    for reg in regs {
        if reg.initial {
            return false;
        }
    }
    true
}

/// Whether parameters that an instance sets by position are more than one that is empty.
fn are_proper_arguments(parameters: &Arguments) -> bool
    ensures { result ≡ are_proper_arguments (association parameters.now) }
{
    match parameters {
        Arguments::Ordered(all) => match all.as_slice() {
            [only] => only.value.is_some(),
            _ => true,
        },
        Arguments::Named(_) => true,
    }
}

fn is_proper_item(item: &Item) -> bool
    ensures { result ≡ is_proper_item (module_item item.now) }
{
    match item {
        Item::Regs { regs, .. } => have_no_values(regs),
        Item::Always(_, _, body) => is_proper(body),
        Item::Instances { parameters, .. } => are_proper_arguments(parameters),
        Item::Ports(_, _)
        | Item::Wires { .. }
        | Item::Integers(_, _)
        | Item::Parameters { .. }
        | Item::Assigns(_, _, _) => true,
        // What gates drive is made of them, and isn't written so.
        Item::Gates { .. } => false,
    }
}

/// Whether a gate of this kind has one input, and its other terminals are outputs.
fn has_one_input(kind: GateKind) -> bool
    ensures { result ≡ has_one_input kind }
{
    match kind {
        GateKind::And
        | GateKind::Nand
        | GateKind::Or
        | GateKind::Nor
        | GateKind::Xor
        | GateKind::Xnor => false,
        GateKind::Buf | GateKind::Not => true,
    }
}

/// Whether an expression is a name, or a select of one.
fn is_named(expr: &Expr) -> bool
    ensures { result ≡ is_named (formula expr.now) }
{
    match expr {
        Expr::Read(_) | Expr::ReadBit(_, _) | Expr::ReadPart(_, _, _, _) => true,
        _ => false,
    }
}

/// Whether all terminals but the last may be outputs.
fn may_be_outputs(terminals: &[Expr]) -> bool
    ensures { result ≡ are_terminals true (map formula terminals.now) }
{
    for index in 1..terminals.len() {
        if !is_named(&terminals[index - 1]) {
            return false;
        }
    }
    true
}

fn is_proper_gate(one: bool, written: &Gate) -> bool
    ensures { result ≡ is_proper_gate one (gate written.now) }
{
    !one || may_be_outputs(&written.terminals)
}

/// Whether gates, which have one input or several, may have these terminals.
fn are_proper_gates(one: bool, gates: &[Gate]) -> bool
    ensures { result ≡ list_all (is_proper_gate one) (map gate gates.now) }
{
    for written in gates {
        if !is_proper_gate(one, written) {
            return false;
        }
    }
    true
}

fn is_proper_written(item: &WrittenItem) -> bool
    ensures { result ≡ is_proper_written (written_item item.now) }
{
    match item {
        WrittenItem::Plain(item) => is_proper_item(item),
        WrittenItem::Gates { kind, gates, .. } => are_proper_gates(has_one_input(*kind), gates),
        WrittenItem::Genvars(_, _) => true,
        // Whether constructs are spelled so is left to the survey.
        WrittenItem::Region(_, _)
        | WrittenItem::If(_, _, _)
        | WrittenItem::IfElse(_, _, _, _)
        | WrittenItem::Case(_, _, _)
        | WrittenItem::For { .. } => false,
    }
}

fn are_proper_items(items: &[WrittenItem]) -> bool
    ensures { result ≡ list_all is_proper_written (map written_item items.now) }
{
    for item in items {
        if !is_proper_written(item) {
            return false;
        }
    }
    true
}

/// Whether the first parameter in the head of a module stands after `parameter`.
fn has_first_heading(parameters: &[HeadParameter]) -> bool
    ensures { result ≡ has_first_heading (map header_parameter parameters.now) }
{
    match parameters {
        [first, ..] => first.head.is_some(),
        [] => true,
    }
}

fn is_proper_module(written: &WrittenModule) -> bool
    ensures { result ≡ is_proper_circuit (written_circuit written.now) }
{
    depth(written) <= MAX_NESTING
        && has_first_heading(&written.parameters)
        && are_proper_items(&written.items)
}

/// Whether modules hold nothing that the builder reads and no text may have: an initial value, a `case` without items or with two
/// defaults, one empty parameter of an instance, a first parameter without `parameter`, a further output of a gate that is no
/// name, or what is nested more than 200 deep; nor a generate construct.
pub fn are_proper(modules: &[WrittenModule]) -> bool
    ensures { result ≡ list_all is_proper_circuit (map written_circuit modules.now) }
{
    for module in modules {
        if !is_proper_module(module) {
            return false;
        }
    }
    true
}
