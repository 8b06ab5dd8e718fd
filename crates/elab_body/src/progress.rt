//! How far the unrolling of a body goes.

ghost use Rattle.std.specs.Prelude.{◌≡◌, map};
ghost use Rattle.std.specs.Option.{option_map};
ghost use Rattle.rtl_tree.specs.TreeExpr.{formula};
ghost use Rattle.rtl_tree.specs.TreeItem.{sensitivity};
ghost use Rattle.rtl_tree.specs.TreeStmt.{branch, branch_row, target, target_place};
ghost use Rattle.elab_nodes.specs.elab_scope.Expressions.{constant_faults, faults};
ghost use Rattle.elab_nodes.specs.elab_scope.Faults.{TooLarge, keep, refusal};
ghost use Rattle.elab_nodes.specs.elab_scope.Names.{meanings};
ghost use Rattle.elab_nodes.specs.elab_scope.Rules.{fault, number_faults};
ghost use Rattle.elab_nodes.specs.Nodes.{node_count};
ghost use Rattle.elab_nodes.specs.Totals.{assignment_count, case_count, listing_count};
ghost use Rattle.elab_body.specs.Steps.{Delay, Faulty, Nodes, Statement, Turn, counted_in, faulty, passed, stepped, with_nodes};
ghost use Rattle.elab_body.specs.Courses.{begun, course, ended, is_over, turned};

use elab_nodes::elab_scope::fault::{Cause, Fault};
use elab_nodes::elab_scope::judge::{judge, judge_constant};
use elab_nodes::elab_scope::names::Names;
use elab_nodes::elab_scope::rules;
use elab_nodes::items::{spend_assignment, spend_case, spend_listing};
use elab_nodes::nodes::spend;
use rtl_const::fault::ConstFault;
use rtl_tree::tree::expr::Expr;
use rtl_tree::tree::item::EventControl;
use rtl_tree::tree::stmt::{CaseItem, Lvalue};

/// How many statements, delays and nodes of expressions a design may still have.
#[derive(Clone, Copy, PartialEq, Eq, Debug)]
pub struct Left {
    pub statements: u32,
    pub delays: u32,
    pub nodes: u32,
}

/// What is found so far.
#[derive(Clone, Copy)]
pub struct Progress<'a> {
    /// The fault that is told.
    pub best: Option<Fault<'a>>,
    /// None where a limit is passed: nothing behind it counts.
    pub left: Option<Left>,
    /// Whether a statement has come, in the turn of a loop or the design that is walked.
    pub filled: bool,
}

fn too_large<'a>(at: u32, best: Option<Fault<'a>>) -> Option<Fault<'a>>
    ensures { option_map refusal result ≡ keep (option_map refusal best.entry) (fault at TooLarge) }
{
    let cause = Cause::TooLarge;
    Fault::keep(best, Fault { at, cause })
}

impl<'a> Progress<'a> {
    /// A fault more.
    pub fn tell(self, fault: Fault<'a>) -> Progress<'a>
        ensures { course result ≡ stepped (course self.entry) (Faulty (refusal fault.entry)) }
    {
        match self.left {
            None => self,
            Some(_) => Progress {
                best: Fault::keep(self.best, fault),
                left: self.left,
                filled: self.filled,
            },
        }
    }

    fn counted(self, at: u32, filled: bool) -> Progress<'a>
        ensures { course result ≡ counted_in (course self.entry).best at self.entry.filled filled
            self.entry.left }
    {
        match self.left {
            None => self,
            Some(Left { statements: 0, .. }) => Progress {
                best: too_large(at, self.best),
                left: None,
                filled,
            },
            Some(left) => Progress {
                best: self.best,
                left: Some(Left {
                    statements: left.statements - 1,
                    delays: left.delays,
                    nodes: left.nodes,
                }),
                filled,
            },
        }
    }

    /// A statement more.
    pub fn count(self, at: u32) -> Progress<'a>
        ensures { course result ≡ stepped (course self.entry) (Statement at) }
    {
        self.counted(at, true)
    }

    /// A turn more that leaves no statement.
    fn count_turn(self, at: u32) -> Progress<'a>
        ensures { course result ≡ stepped (course self.entry) (Turn at) }
    {
        self.counted(at, self.filled)
    }

    /// A turn of a loop begins.
    pub(crate) fn begin_turn(self) -> Progress<'a>
        ensures { course result ≡ begun (course self.entry) }
    {
        Progress {
            best: self.best,
            left: self.left,
            filled: false,
        }
    }

    /// A turn without a statement counts as one.
    fn turned(self, at: u32) -> Progress<'a>
        ensures { course result ≡ turned at (course self.entry) }
    {
        if self.filled {
            self
        } else {
            self.count_turn(at)
        }
    }

    /// A turn of a loop at `at` ends, where a statement has come before it or not.
    pub(crate) fn end_turn(self, before: bool, at: u32) -> Progress<'a>
        ensures { course result ≡ ended before at (course self.entry) }
    {
        let turned = self.turned(at);
        Progress {
            best: turned.best,
            left: turned.left,
            filled: before || turned.filled,
        }
    }

    /// A delay more.
    pub fn pause(self, at: u32) -> Progress<'a>
        ensures { course result ≡ stepped (course self.entry) (Delay at) }
    {
        match self.left {
            None => self,
            Some(Left { delays: 0, .. }) => Progress {
                best: too_large(at, self.best),
                left: None,
                filled: self.filled,
            },
            Some(left) => Progress {
                best: self.best,
                left: Some(Left {
                    statements: left.statements,
                    delays: left.delays - 1,
                    nodes: left.nodes,
                }),
                filled: self.filled,
            },
        }
    }

    /// Nodes of expressions more at a place, where so many are left before them and behind them; none where they are too
    /// many.
    pub fn spend(self, at: u32, left: Left, spare: Option<u32>) -> Progress<'a>
        ensures { course result ≡ with_nodes (course self.entry).best at self.entry.filled
            left.statements left.delays spare }
    {
        match spare {
            None => Progress {
                best: too_large(at, self.best),
                left: None,
                filled: self.filled,
            },
            Some(nodes) => Progress {
                best: self.best,
                left: Some(Left {
                    statements: left.statements,
                    delays: left.delays,
                    nodes,
                }),
                filled: self.filled,
            },
        }
    }

    /// The nodes of an expression more.
    pub fn spend_expression(self, at: u32, e: &Expr, names: &Names) -> Progress<'a>
        ensures { course result ≡ stepped (course self.entry)
            (Nodes at (node_count (meanings names.now) (formula e.now))) }
    {
        match self.left {
            None => self,
            Some(left) => self.spend(at, left, spend(e, names, left.nodes)),
        }
    }

    /// The nodes of an assignment more, at its target.
    pub fn spend_assignment(self, written: &Lvalue, value: &Expr, names: &Names) -> Progress<'a>
        ensures { course result ≡ stepped (course self.entry)
            (Nodes (target_place (target written.now))
            (assignment_count (meanings names.now) (target written.now) (formula value.now))) }
    {
        match self.left {
            None => self,
            Some(left) => {
                let spare = spend_assignment(written, value, names, left.nodes);
                self.spend(written.place(), left, spare)
            }
        }
    }

    /// The nodes of a case without its bodies more.
    pub fn spend_case(
        self,
        at: u32,
        selector: &Expr,
        items: &[CaseItem],
        names: &Names,
    ) -> Progress<'a>
        ensures { course result ≡ stepped (course self.entry)
            (Nodes at (case_count (meanings names.now) (formula selector.now)
            (branch_row (map branch items.now)))) }
    {
        match self.left {
            None => self,
            Some(left) => self.spend(at, left, spend_case(selector, items, names, left.nodes)),
        }
    }

    /// The nodes of a sensitivity list more, at its `always`.
    pub fn spend_listing(self, at: u32, control: &EventControl, names: &Names) -> Progress<'a>
        ensures { course result ≡ stepped (course self.entry)
            (Nodes at (listing_count (meanings names.now) (sensitivity control.now))) }
    {
        match self.left {
            None => self,
            Some(left) => self.spend(at, left, spend_listing(control, names, left.nodes)),
        }
    }

    /// The faults of an expression.
    #[tactic(auto, using(crate::proofs::Passing::passed_faulty, crate::proofs::Passing::passed_cut))]
    pub fn judge(self, e: &'a Expr, names: &Names) -> Progress<'a>
        ensures { course result ≡ passed (course self.entry)
            (faulty (faults (meanings names.now) (formula e.now))) }
    {
        match self.left {
            None => self,
            Some(_) => Progress {
                best: judge(e, names, self.best).best,
                left: self.left,
                filled: self.filled,
            },
        }
    }

    /// The faults of an expression that has to be constant.
    #[tactic(auto, using(crate::proofs::Passing::passed_faulty, crate::proofs::Passing::passed_cut))]
    pub fn judge_constant(self, e: &'a Expr, names: &Names) -> Progress<'a>
        ensures { course result ≡ passed (course self.entry)
            (faulty (constant_faults (meanings names.now) (formula e.now))) }
    {
        match self.left {
            None => self,
            Some(_) => Progress {
                best: judge_constant(e, names, self.best),
                left: self.left,
                filled: self.filled,
            },
        }
    }

    /// The fault of a number that isn't there.
    #[tactic(auto, using(crate::proofs::Passing::passed_faulty, crate::proofs::Passing::passed_cut))]
    pub fn number(self, number: Result<i64, ConstFault>) -> Progress<'a>
        ensures { course result ≡ passed (course self.entry) (faulty (number_faults number)) }
    {
        match self.left {
            None => self,
            Some(_) => Progress {
                best: rules::number(number, self.best),
                left: self.left,
                filled: self.filled,
            },
        }
    }

    /// Whether a limit is passed, so that nothing more counts.
    pub fn is_over(self) -> bool
        ensures { result ≡ is_over (course self.entry) }
    {
        self.left.is_none()
    }

    /// A loop has more turns than it may.
    pub fn too_long(self, at: u32) -> Progress<'a>
        ensures { course result ≡ stepped (course self.entry) (Faulty (fault at TooLarge)) }
    {
        let cause = Cause::TooLarge;
        self.tell(Fault { at, cause })
    }
}
