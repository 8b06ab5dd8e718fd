//! The targets of assignments: their faults, and their parts in the design.

ghost use Rattle.std.specs.Prelude.{◌≡◌, ◌≤◌, map};
ghost use Rattle.std.specs.Option.{option_map};
ghost use Rattle.rtl_tree.specs.TreeExpr.{formula};
ghost use Rattle.rtl_tree.specs.TreeStmt.{target, target_row};
ghost use Rattle.elab_scope.specs.Faults.{after, refusal};
ghost use Rattle.elab_scope.specs.Names.{meanings};
ghost use Rattle.elab_scope.specs.Targets.{assigned_context, joined_faults, part_target_faults, target_breadth, targets_breadth};

use crate::context::Context;
use crate::fault::Fault;
use crate::judge::{Judged, judge, judge_constant, judge_part};
use crate::names::Names;
use crate::own::{breadth, name_breadth, part_breadth, sign};
use crate::rules::{self, Writer};
use crate::selects::ends_of;
use crate::widths::Breadth;
use rtl_const::evaluate::constant;
use rtl_tree::tree::expr::Expr;
use rtl_tree::tree::stmt::Lvalue;

/// The faults of a target but for bits that stand in it twice, and how many bits it has.
#[cycle(judge_target)]
#[tactic(auto, using(crate::proofs::Least::after_append))]
pub fn judge_parts<'a>(
    by: Writer,
    written: &'a Lvalue,
    names: &Names,
    best: Option<Fault<'a>>,
) -> Judged<'a>
    ensures breadth { result.breadth ≡ target_breadth (meanings names.now) (target written.now) }
    ensures best { option_map refusal result.best
        ≡ after (option_map refusal best.entry)
        (part_target_faults by (meanings names.now) (target written.now)) }
{
    match written {
        Lvalue::Whole(name) => {
            let known = names.find(&name.text);
            Judged {
                breadth: name_breadth(known),
                best: rules::write(by, name, known, best),
            }
        }
        Lvalue::Bit(name, index) => {
            let known = names.find(&name.text);
            let best = rules::write(by, name, known, best);
            let best = rules::range(name, known, best);
            let best = judge(index, names, best).best;
            Judged {
                breadth: Breadth::Bits(1),
                best: rules::index(by, name, constant(index, names), best),
            }
        }
        Lvalue::Part(name, kind, first, second) => {
            let known = names.find(&name.text);
            let best = rules::write(by, name, known, best);
            let best = rules::range(name, known, best);
            let best = judge_constant(first, names, best);
            let best = judge_constant(second, names, best);
            judge_part(name, *kind, first, second, names, best)
        }
        Lvalue::Concat(at, parts) => {
            let parts = judge_joined(by, parts, names, best);
            let breadth = parts.breadth.fit();
            Judged {
                breadth,
                best: rules::width(*at, breadth, parts.best),
            }
        }
    }
}

/// The faults of the parts of a target.
#[cycle(judge_target)]
#[tactic(auto, using(crate::proofs::Least::after_append, crate::proofs::Views::beside_beside, crate::proofs::Views::beside_none, crate::proofs::TargetViews::targets_alone))]
fn judge_joined<'a>(
    by: Writer,
    parts: &'a [Lvalue],
    names: &Names,
    best: Option<Fault<'a>>,
) -> Judged<'a>
    ensures breadth { result.breadth
        ≡ targets_breadth (meanings names.now) (target_row (map target parts.now)) }
    ensures best { option_map refusal result.best
        ≡ after (option_map refusal best.entry)
        (joined_faults by (meanings names.now) (target_row (map target parts.now))) }
{
    let mut breadth = Breadth::Bits(0);
    let mut best = best;
    for part in parts {
        let part = judge_parts(by, part, names, best);
        breadth = breadth.beside(part.breadth);
        best = part.best;
    }
    Judged { breadth, best }
}

/// How many bits a target has.
#[cycle(target_breadth)]
#[tactic(auto, using(crate::proofs::TargetViews::joined_breadth))]
pub fn breadth_of_target(written: &Lvalue, names: &Names) -> Breadth
    ensures { result ≡ target_breadth (meanings names.now) (target written.now) }
{
    match written {
        Lvalue::Whole(name) => name_breadth(names.find(&name.text)),
        Lvalue::Bit(_, _) => Breadth::Bits(1),
        Lvalue::Part(name, kind, first, second) => {
            let ends = ends_of(*kind, first, second, names);
            part_breadth(names.find(&name.text), ends.msb, ends.lsb)
        }
        Lvalue::Concat(_, parts) => breadth_of_row(parts, names).fit(),
    }
}

/// How many bits the parts of a target have.
#[cycle(target_breadth)]
#[tactic(auto, using(crate::proofs::Views::beside_beside, crate::proofs::Views::beside_none, crate::proofs::TargetViews::targets_alone))]
fn breadth_of_row(parts: &[Lvalue], names: &Names) -> Breadth
    ensures { result ≡ targets_breadth (meanings names.now) (target_row (map target parts.now)) }
{
    let mut all = Breadth::Bits(0);
    for part in parts {
        all = all.beside(breadth_of_target(part, names));
    }
    all
}

/// The context of a value that is assigned: the target counts for the width and not for the sign.
pub fn assigned_context(e: &Expr, written: &Lvalue, names: &Names) -> Context
    ensures exact { result ≡ assigned_context (meanings names.now) (formula e.now)
        (target written.now) }
    ensures not_empty { 1 ≤ result.width }
    ensures at_most { result.width ≤ 128 }
{
    Context {
        width: breadth_of_target(written, names)
            .wider(breadth(e, names))
            .bits(),
        signed: sign(e, names),
    }
}
