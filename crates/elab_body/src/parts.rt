//! The parts of statements: their faults, and the contexts of a case.

ghost use Rattle.std.specs.Prelude.{◌≡◌, ◌≤◌, map};
ghost use Rattle.std.specs.Option.{option_map};
ghost use Rattle.rtl_tree.specs.TreeExpr.{formula, identifier};
ghost use Rattle.rtl_tree.specs.TreeStmt.{Assign, branch, branch_row, pause, target};
ghost use Rattle.elab_nodes.specs.elab_scope.Faults.{refusal};
ghost use Rattle.elab_nodes.specs.elab_scope.Names.{meanings};
ghost use Rattle.elab_nodes.specs.elab_scope.Rules.{fault};
ghost use Rattle.elab_nodes.specs.elab_scope.Targets.{target_faults};
ghost use Rattle.elab_nodes.specs.elab_scope.declared.rules.Writer.TheVariants as writer;
ghost use Rattle.elab_body.specs.Acts.{branches_breadth, branches_sign, case_context, is_delayed, kind_of, labels_breadth, labels_sign};
ghost use Rattle.elab_body.specs.Bodies.{all_faults, index_faults, pause_steps, stepped_faults, steps};
ghost use Rattle.elab_body.specs.Courses.{course};
ghost use Rattle.elab_body.specs.Steps.{faulty, passed};

use crate::progress::Progress;
use elab_nodes::elab_scope::context::Context;
use elab_nodes::elab_scope::fault::{Cause, Fault};
use elab_nodes::elab_scope::known::Known;
use elab_nodes::elab_scope::names::Names;
use elab_nodes::elab_scope::own::{breadth, sign};
use elab_nodes::elab_scope::rules::Writer;
use elab_nodes::elab_scope::targets::judge_parts;
use elab_nodes::elab_scope::widths::Breadth;
use rtl_flat::act::CaseKind as FlatKind;
use rtl_tree::tree::expr::Expr;
use rtl_tree::tree::names::Name;
use rtl_tree::tree::stmt::{AssignmentKind, CaseItem, CaseKind, Delay, Lvalue};

/// The faults of what a statement assigns.
#[tactic(auto, using(crate::proofs::Passing::passed_faulty, crate::proofs::Passing::passed_cut, crate::proofs::Borrowed::after_append))]
fn assigned<'a>(written: &'a Lvalue, names: &Names, so_far: Progress<'a>) -> Progress<'a>
    ensures { course result ≡ passed (course so_far.entry)
        (faulty (target_faults writer.Procedural (meanings names.now) (target written.now))) }
{
    match so_far.left {
        None => so_far,
        Some(_) => Progress {
            best: judge_parts(Writer::Procedural, written, names, so_far.best).best,
            left: so_far.left,
            filled: so_far.filled,
        },
    }
}

fn paused<'a>(delay: &Option<Delay>, so_far: Progress<'a>) -> Progress<'a>
    ensures { course result ≡ passed (course so_far.entry)
        (pause_steps (option_map pause delay.now)) }
{
    match delay {
        Some(delay) => so_far.pause(delay.at),
        None => so_far,
    }
}

/// An assignment of a body.
#[tactic(auto, using(crate::proofs::Passing::passed_append))]
pub fn assignment<'a>(
    written: &'a Lvalue,
    kind: AssignmentKind,
    delay: &Option<Delay>,
    value: &'a Expr,
    names: &Names,
    so_far: Progress<'a>,
) -> Progress<'a>
    ensures { course result ≡ passed (course so_far.entry)
        (steps (Assign (target written.now) kind (option_map pause delay.now) (formula value.now))
        (meanings names.now)) }
{
    let so_far = so_far.count(written.place());
    let so_far = so_far.spend_assignment(written, value, names);
    paused(delay, assigned(written, names, so_far)).judge(value, names)
}

/// The labels of an item of a case.
#[tactic(auto, using(crate::proofs::Passing::passed_faults))]
pub fn labels<'a>(all: &'a [Expr], names: &Names, so_far: Progress<'a>) -> Progress<'a>
    ensures { course result ≡ passed (course so_far.entry)
        (faulty (all_faults (meanings names.now) (map formula all.now))) }
{
    let mut so_far = so_far;
    for label in all {
        so_far = so_far.judge(label, names);
    }
    so_far
}

/// A loop counts by an `integer` that no loop around it counts by.
pub fn index<'a>(name: &'a Name, known: Option<Known>, so_far: Progress<'a>) -> Progress<'a>
    ensures { course result ≡ passed (course so_far.entry)
        (faulty (index_faults (identifier name.now) known)) }
{
    let cause = match known {
        Some(Known::Integer(None)) => return so_far,
        None => Cause::Undeclared(&name.text),
        Some(Known::Signal { .. })
        | Some(Known::Parameter { .. })
        | Some(Known::Integer(Some(_))) => Cause::NotAssignable(&name.text),
    };
    so_far.tell(Fault { at: name.at, cause })
}

/// The step of a loop assigns what its start assigns.
pub fn stepped<'a>(
    index: &Name,
    name: &'a Name,
    known: Option<Known>,
    so_far: Progress<'a>,
) -> Progress<'a>
    ensures { course result ≡ passed (course so_far.entry)
        (faulty (stepped_faults (identifier index.now) (identifier name.now) known)) }
{
    if known.is_none() {
        let cause = Cause::Undeclared(&name.text);
        return so_far.tell(Fault { at: name.at, cause });
    }
    if index.text.as_bytes() == name.text.as_bytes() {
        return so_far;
    }
    let cause = Cause::NotAssignable(&name.text);
    so_far.tell(Fault { at: name.at, cause })
}

/// Whether the assignment is delayed until all active events are done.
pub fn is_delayed(kind: AssignmentKind) -> bool
    ensures { result ≡ is_delayed kind }
{
    match kind {
        AssignmentKind::Blocking => false,
        AssignmentKind::Nonblocking => true,
    }
}

pub fn kind_of(kind: CaseKind) -> FlatKind
    ensures { result ≡ kind_of kind }
{
    match kind {
        CaseKind::Plain => FlatKind::Plain,
        CaseKind::Z => FlatKind::Z,
        CaseKind::X => FlatKind::X,
    }
}

fn labels_breadth(all: &[Expr], names: &Names, widest: Breadth) -> Breadth
    ensures { result ≡ labels_breadth (meanings names.now) widest (map formula all.now) }
{
    let mut widest = widest;
    for label in all {
        widest = widest.wider(breadth(label, names));
    }
    widest
}

fn labels_sign(all: &[Expr], names: &Names, signed: bool) -> bool
    ensures { result ≡ labels_sign (meanings names.now) signed (map formula all.now) }
{
    let mut signed = signed;
    for label in all {
        signed = signed && sign(label, names);
    }
    signed
}

fn items_breadth(items: &[CaseItem], names: &Names, widest: Breadth) -> Breadth
    ensures { result ≡ branches_breadth (meanings names.now) widest
        (branch_row (map branch items.now)) }
{
    let mut widest = widest;
    for item in items {
        if let CaseItem::Labelled(labels, _) = item {
            widest = labels_breadth(labels, names, widest);
        }
    }
    widest
}

fn items_sign(items: &[CaseItem], names: &Names, signed: bool) -> bool
    ensures { result ≡ branches_sign (meanings names.now) signed
        (branch_row (map branch items.now)) }
{
    let mut signed = signed;
    for item in items {
        if let CaseItem::Labelled(labels, _) = item {
            signed = labels_sign(labels, names, signed);
        }
    }
    signed
}

/// The width and the sign of the selector of a case and of its labels: those of all of them.
pub fn case_context(selector: &Expr, items: &[CaseItem], names: &Names) -> Context
    ensures exact { result ≡ case_context (meanings names.now) (formula selector.now)
        (branch_row (map branch items.now)) }
    ensures not_empty { 1 ≤ result.width }
    ensures at_most { result.width ≤ 128 }
{
    Context {
        width: items_breadth(items, names, breadth(selector, names)).bits(),
        signed: items_sign(items, names, sign(selector, names)),
    }
}
