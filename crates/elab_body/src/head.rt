//! The heads of loops: their faults, and what their turns look at.

ghost use Rattle.std.specs.Prelude.{◌≡◌};
ghost use Rattle.rtl_tree.specs.TreeExpr.{formula, identifier};
ghost use Rattle.elab_nodes.specs.elab_scope.Names.{meanings};
ghost use Rattle.elab_body.specs.Bodies.{head_faults, in_head, loop_faults};
ghost use Rattle.elab_body.specs.Courses.{course, first_of, head_of};
ghost use Rattle.elab_body.specs.Steps.{faulty, passed};

use crate::parts::{index, stepped};
use crate::progress::Progress;
use elab_nodes::elab_scope::known::Known;
use elab_nodes::elab_scope::names::Names;
use rtl_const::evaluate::constant;
use rtl_const::params::Lookup;
use rtl_tree::tree::expr::Expr;
use rtl_tree::tree::names::Name;

/// `for (index = start; condition; stepped = step)`
#[derive(Clone, Copy)]
pub struct Head<'a> {
    /// The place of the `for`.
    pub at: u32,
    pub index: &'a Name,
    pub start: &'a Expr,
    pub condition: &'a Expr,
    pub stepped: &'a Name,
    pub step: &'a Expr,
}

impl<'a> Head<'a> {
    pub fn new(
        at: u32,
        index: &'a Name,
        start: &'a Expr,
        condition: &'a Expr,
        stepped: &'a Name,
        step: &'a Expr,
    ) -> Head<'a>
        ensures { head_of result ≡ record {
          at = at;
          index = identifier index.now;
          start = formula start.now;
          condition = formula condition.now;
          stepped = identifier stepped.now;
          step = formula step.now;
        } }
    {
        Head {
            at,
            index,
            start,
            condition,
            stepped,
            step,
        }
    }

    /// The faults of the head.
    pub fn judge(self, names: &mut Names, so_far: Progress<'a>) -> Progress<'a>
        ensures told { course result ≡ passed (course so_far.entry)
            (faulty (loop_faults (meanings names.old) (head_of self.entry))) }
        ensures same { meanings names.new ≡ meanings names.old }
    {
        let so_far = index(self.index, names.find(&self.index.text), so_far);
        let so_far = so_far.judge_constant(self.start, names);
        let so_far = self.judge_first(names, so_far);
        stepped(
            self.index,
            self.stepped,
            names.find(&self.stepped.text),
            so_far,
        )
    }

    /// The names of the condition and of the step, where the index has its first number.
    #[tactic(auto, using(crate::proofs::Passing::passed_faults))]
    fn judge_first(self, names: &mut Names, so_far: Progress<'a>) -> Progress<'a>
        ensures told { course result ≡ passed (course so_far.entry)
            (faulty (head_faults (meanings names.old) (head_of self.entry)
            (in_head (meanings names.old) (formula self.entry.start.now)))) }
        ensures same { meanings names.new ≡ meanings names.old }
    {
        let Ok(first) = constant(self.start, names) else {
            return so_far;
        };
        let before = names.get(&self.index.text);
        names.set_index(&self.index.text, Some(first));
        let so_far = so_far.judge(self.condition, names).judge(self.step, names);
        names.set_index(&self.index.text, before);
        so_far
    }

    /// The number that the loop starts with; only one that counts by an `integer` of its own has turns.
    pub fn first(self, names: &Names) -> Option<i64>
        ensures { result ≡ first_of (meanings names.now self.entry.index.now.text)
            (in_head (meanings names.now) (formula self.entry.start.now)) }
    {
        match (names.find(&self.index.text), constant(self.start, names)) {
            (Some(Known::Integer(None)), Ok(first)) => Some(first),
            _ => None,
        }
    }
}
