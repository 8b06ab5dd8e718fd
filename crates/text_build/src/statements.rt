// Builds statements.

ghost use Rattle.std.specs.Prelude.{◌≡◌, map};
ghost use Rattle.std.specs.Option.{option_map};
ghost use Rattle.rtl_tree.specs.Symbols.{terminal};
ghost use Rattle.rtl_tree.specs.TreeExpr.{formula, identifier};
ghost use Rattle.rtl_tree.specs.TreeStmt as tree;
ghost use Rattle.rtl_tree.specs.TreeStmt.{action, branch};
ghost use Rattle.text_build.specs.Reading as generic;
ghost use Rattle.text_build.specs.Reading.{Reads};
ghost use Rattle.text_build.specs.ReadingExpr.{expression};
ghost use Rattle.text_build.specs.ReadingStmt as reading;
ghost use Rattle.text_build.specs.References.{step};
ghost use Rattle.rtl_tree.specs.declared.symbol.Symbol.TheVariants as symbol;

use crate::attributes::Marks;
use crate::cursor::Cursor;
use crate::fault::BuildFault;
use crate::reference::Step;
use rtl_tree::symbol::Symbol;
use rtl_tree::tree::expr::Expr;
use rtl_tree::tree::names::Name;
use rtl_tree::tree::stmt::{AssignmentKind, CaseItem, CaseKind, Stmt};

impl<'a> Cursor<'a> {
    /// A statement with its attributes, nested at most `depth` deep.
    #[cycle(statement)]
    pub fn statement(&mut self, depth: u32) -> Result<Stmt, BuildFault>
        ensures { Reads action (reading.statement depth (map terminal self.old.rest.now)) result
            (map terminal self.new.rest.now) }
    {
        if depth == 0 {
            return Err(BuildFault::NotSpelled);
        }
        self.statement_within(depth - 1)
    }

    /// The same in a box: what is held by value while more is read is dear to prove.
    #[cycle(statement)]
    fn boxed_statement(&mut self, depth: u32) -> Result<Box<Stmt>, BuildFault>
        ensures { Reads (λ s. action s.value)
            (reading.statement depth (map terminal self.old.rest.now)) result
            (map terminal self.new.rest.now) }
    {
        let read = self.statement(depth)?;
        Ok(Box::new(self.alloc, read)?)
    }

    #[cycle(statement)]
    #[tactic(auto, unfolding(crate::specs::ReadingStmt::statement_within))]
    fn statement_within(&mut self, depth: u32) -> Result<Stmt, BuildFault>
        ensures { Reads action (reading.statement_within (expression depth) (reading.target depth)
            (reading.statement depth) (map terminal self.old.rest.now)) result
            (map terminal self.new.rest.now) }
    {
        let marks = self.attributes()?;
        self.action(depth, marks)
    }

    /// A statement after its attributes.
    #[cycle(statement)]
    #[tactic(auto, unfolding(crate::specs::ReadingStmt::action))]
    fn action(&mut self, depth: u32, marks: Marks) -> Result<Stmt, BuildFault>
        ensures { Reads action (reading.action marks (expression depth) (reading.target depth)
            (reading.statement depth) (map terminal self.old.rest.now)) result
            (map terminal self.new.rest.now) }
    {
        match self.peek() {
            Some(Symbol::Semicolon) => self.null(),
            Some(Symbol::Hash) => self.delayed(depth),
            Some(Symbol::If) => self.conditional(depth),
            Some(Symbol::Case) => self.case(depth, CaseKind::Plain, marks),
            Some(Symbol::Casez) => self.case(depth, CaseKind::Z, marks),
            Some(Symbol::Casex) => self.case(depth, CaseKind::X, marks),
            Some(Symbol::For) => self.loop_of(depth),
            Some(Symbol::Begin) => self.block(depth),
            _ => self.assign(depth),
        }
    }

    #[tactic(auto, unfolding(crate::specs::ReadingStmt::null))]
    fn null(&mut self) -> Result<Stmt, BuildFault>
        ensures { Reads action (reading.null (map terminal self.old.rest.now)) result
            (map terminal self.new.rest.now) }
    {
        let at = self.advance()?;
        Ok(Stmt::Null(at))
    }

    #[cycle(statement)]
    #[tactic(auto, unfolding(crate::specs::ReadingStmt::delayed))]
    fn delayed(&mut self, depth: u32) -> Result<Stmt, BuildFault>
        ensures { Reads action (reading.delayed (expression depth) (reading.statement depth)
            (map terminal self.old.rest.now)) result (map terminal self.new.rest.now) }
    {
        let delay = self.boxed_delay(depth)?;
        let body = self.boxed_statement(depth)?;
        Ok(Stmt::Delayed(Box::into_inner(delay), body))
    }

    #[tactic(auto, unfolding(crate::specs::ReadingStmt::assignment_kind))]
    fn assignment_kind(&mut self) -> Result<AssignmentKind, BuildFault>
        ensures { Reads (λ k. k) (reading.assignment_kind (map terminal self.old.rest.now)) result
            (map terminal self.new.rest.now) }
    {
        match self.peek() {
            Some(Symbol::Equals) => {
                self.advance()?;
                Ok(AssignmentKind::Blocking)
            }
            Some(Symbol::LessEquals) => {
                self.advance()?;
                Ok(AssignmentKind::Nonblocking)
            }
            _ => Err(BuildFault::NotSpelled),
        }
    }

    #[tactic(auto, unfolding(crate::specs::ReadingStmt::assign))]
    fn assign(&mut self, depth: u32) -> Result<Stmt, BuildFault>
        ensures { Reads action (reading.assign (expression depth) (reading.target depth)
            (map terminal self.old.rest.now)) result (map terminal self.new.rest.now) }
    {
        let target = self.boxed_target(depth)?;
        let kind = self.assignment_kind()?;
        let delay = self.optional_delay(depth)?;
        let value = self.boxed_expression(depth)?;
        self.mark(Symbol::Semicolon)?;
        Ok(Stmt::Assign(
            Box::into_inner(target),
            kind,
            Box::into_inner(delay),
            Box::into_inner(value),
        ))
    }

    #[cycle(statement)]
    #[tactic(auto, unfolding(crate::specs::ReadingStmt::conditional))]
    fn conditional(&mut self, depth: u32) -> Result<Stmt, BuildFault>
        ensures { Reads action (reading.conditional (expression depth) (reading.statement depth)
            (map terminal self.old.rest.now)) result (map terminal self.new.rest.now) }
    {
        let at = self.advance()?;
        self.mark(Symbol::OpenParen)?;
        let condition = self.boxed_expression(depth)?;
        self.mark(Symbol::CloseParen)?;
        let taken = self.boxed_statement(depth)?;
        self.after_taken(depth, at, condition, taken)
    }

    /// An `else` that comes next belongs to this `if`.
    #[cycle(statement)]
    #[tactic(auto, unfolding(crate::specs::Reading::either))]
    fn after_taken(
        &mut self,
        depth: u32,
        at: u32,
        condition: Box<Expr>,
        taken: Box<Stmt>,
    ) -> Result<Stmt, BuildFault>
        ensures { Reads action (generic.either (generic.starts symbol.Else)
            (reading.alternative (reading.statement depth) at (formula condition.value)
            (action taken.value)) (generic.pure
            (tree.If at (formula condition.value) (action taken.value)))
            (map terminal self.old.rest.now)) result (map terminal self.new.rest.now) }
    {
        if self.is_next(Symbol::Else) {
            self.alternative(depth, at, condition, taken)
        } else {
            Ok(Stmt::If(at, Box::into_inner(condition), taken))
        }
    }

    #[cycle(statement)]
    #[tactic(auto, unfolding(crate::specs::ReadingStmt::alternative))]
    fn alternative(
        &mut self,
        depth: u32,
        at: u32,
        condition: Box<Expr>,
        taken: Box<Stmt>,
    ) -> Result<Stmt, BuildFault>
        ensures { Reads action (reading.alternative (reading.statement depth) at
            (formula condition.value) (action taken.value) (map terminal self.old.rest.now))
            result (map terminal self.new.rest.now) }
    {
        self.advance()?;
        let otherwise = self.boxed_statement(depth)?;
        Ok(Stmt::IfElse(at, Box::into_inner(condition), taken, otherwise))
    }

    #[cycle(statement)]
    #[tactic(auto, unfolding(crate::specs::ReadingStmt::case_of))]
    fn case(&mut self, depth: u32, kind: CaseKind, marks: Marks) -> Result<Stmt, BuildFault>
        ensures { Reads action (reading.case_of kind marks (expression depth)
            (reading.statement depth) (map terminal self.old.rest.now)) result
            (map terminal self.new.rest.now) }
    {
        let at = self.advance()?;
        self.mark(Symbol::OpenParen)?;
        let selector = self.boxed_expression(depth)?;
        let close = self.token(Symbol::CloseParen)?;
        let items = self.case_items(depth)?;
        self.mark(Symbol::Endcase)?;
        let said = marks.with_pragmas(close.full, close.parallel);
        Ok(Stmt::case(
            at,
            kind,
            said.full,
            said.parallel,
            Box::into_inner(selector),
            items,
        ))
    }

    #[cycle(statement)]
    fn case_items(&mut self, depth: u32) -> Result<Vec<CaseItem>, BuildFault>
        ensures { Reads (λ all. map branch all.items)
            (generic.until symbol.Endcase (reading.branch (expression depth)
            (reading.statement depth)) (map terminal self.old.rest.now)) result
            (map terminal self.new.rest.now) }
    {
        let mut all = Vec::new(self.alloc);
        // Each turn takes a token, so these are enough.
        for _turn in 0..self.rest.len() {
            if self.is_next(Symbol::Endcase) {
                return Ok(all);
            }
            all.push(self.case_item(depth)?)?;
        }
        Ok(all)
    }

    #[cycle(statement)]
    #[tactic(auto, unfolding(crate::specs::ReadingStmt::branch, crate::specs::Reading::either))]
    fn case_item(&mut self, depth: u32) -> Result<CaseItem, BuildFault>
        ensures { Reads branch (reading.branch (expression depth) (reading.statement depth)
            (map terminal self.old.rest.now)) result (map terminal self.new.rest.now) }
    {
        if self.is_next(Symbol::Default) {
            self.default_item(depth)
        } else {
            self.labelled_item(depth)
        }
    }

    #[cycle(statement)]
    #[tactic(auto, unfolding(crate::specs::ReadingStmt::otherwise, crate::specs::ReadingStmt::no_colon))]
    fn default_item(&mut self, depth: u32) -> Result<CaseItem, BuildFault>
        ensures { Reads branch (reading.otherwise (reading.statement depth)
            (map terminal self.old.rest.now)) result (map terminal self.new.rest.now) }
    {
        let at = self.advance()?;
        self.take_if(Symbol::Colon);
        let body = self.statement(depth)?;
        Ok(CaseItem::Default(at, body))
    }

    #[cycle(statement)]
    #[tactic(auto, unfolding(crate::specs::ReadingStmt::labelled))]
    fn labelled_item(&mut self, depth: u32) -> Result<CaseItem, BuildFault>
        ensures { Reads branch (reading.labelled (expression depth) (reading.statement depth)
            (map terminal self.old.rest.now)) result (map terminal self.new.rest.now) }
    {
        let labels = self.listed_expressions(depth)?;
        self.mark(Symbol::Colon)?;
        let body = self.statement(depth)?;
        Ok(CaseItem::Labelled(labels, body))
    }

    /// `name = value` in the head of a `for`.
    #[tactic(auto, unfolding(crate::specs::ReadingStmt::step_of))]
    pub(crate) fn step(&mut self, depth: u32) -> Result<Step, BuildFault>
        ensures { Reads step (reading.step_of (expression depth) (map terminal self.old.rest.now))
            result (map terminal self.new.rest.now) }
    {
        let name = self.name()?;
        self.mark(Symbol::Equals)?;
        let value = self.boxed_expression(depth)?;
        Ok(Step { name, value })
    }

    #[cycle(statement)]
    #[tactic(auto, unfolding(crate::specs::ReadingStmt::loop_of))]
    fn loop_of(&mut self, depth: u32) -> Result<Stmt, BuildFault>
        ensures { Reads action (reading.loop_of (expression depth) (reading.statement depth)
            (map terminal self.old.rest.now)) result (map terminal self.new.rest.now) }
    {
        let at = self.advance()?;
        self.mark(Symbol::OpenParen)?;
        let first = self.step(depth)?;
        self.mark(Symbol::Semicolon)?;
        let condition = self.boxed_expression(depth)?;
        self.mark(Symbol::Semicolon)?;
        let next = self.step(depth)?;
        self.mark(Symbol::CloseParen)?;
        let body = self.boxed_statement(depth)?;
        Ok(Stmt::For {
            at,
            index: first.name,
            start: Box::into_inner(first.value),
            condition: Box::into_inner(condition),
            stepped: next.name,
            step: Box::into_inner(next.value),
            body,
        })
    }

    #[tactic(auto, unfolding(crate::specs::ReadingStmt::label))]
    fn label(&mut self) -> Result<Name, BuildFault>
        ensures { Reads identifier (reading.label (map terminal self.old.rest.now)) result
            (map terminal self.new.rest.now) }
    {
        self.advance()?;
        self.name()
    }

    #[tactic(auto, unfolding(crate::specs::Reading::optional, crate::specs::Reading::either))]
    pub(crate) fn optional_label(&mut self) -> Result<Option<Name>, BuildFault>
        ensures { Reads (λ l. option_map identifier l)
            (generic.optional symbol.Colon reading.label (map terminal self.old.rest.now)) result
            (map terminal self.new.rest.now) }
    {
        if self.is_next(Symbol::Colon) {
            let label = self.label()?;
            Ok(Some(label))
        } else {
            Ok(None)
        }
    }

    #[cycle(statement)]
    #[tactic(auto, unfolding(crate::specs::ReadingStmt::block))]
    fn block(&mut self, depth: u32) -> Result<Stmt, BuildFault>
        ensures { Reads action (reading.block (reading.statement depth)
            (map terminal self.old.rest.now)) result (map terminal self.new.rest.now) }
    {
        let at = self.advance()?;
        let label = self.optional_label()?;
        let body = self.statements(depth)?;
        self.mark(Symbol::End)?;
        Ok(Stmt::block(at, label, body))
    }

    #[cycle(statement)]
    fn statements(&mut self, depth: u32) -> Result<Vec<Stmt>, BuildFault>
        ensures { Reads (λ all. map action all.items)
            (generic.until symbol.End (reading.statement depth) (map terminal self.old.rest.now))
            result (map terminal self.new.rest.now) }
    {
        let mut all = Vec::new(self.alloc);
        // Each turn takes a token, so these are enough.
        for _turn in 0..self.rest.len() {
            if self.is_next(Symbol::End) {
                return Ok(all);
            }
            all.push(self.statement(depth)?)?;
        }
        Ok(all)
    }
}
