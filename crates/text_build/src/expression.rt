// Builds expressions, names with a selection, and ranges.

ghost use Rattle.std.specs.Prelude.{◌≡◌, ◌-◌, map};
ghost use Rattle.rtl_tree.specs.Symbols.{terminal};
ghost use Rattle.rtl_tree.specs.TreeExpr.{formula, identifier, bounds};
ghost use Rattle.text_build.specs.Reading as generic;
ghost use Rattle.text_build.specs.Reading.{Reads};
ghost use Rattle.text_build.specs.ReadingExpr as reading;
ghost use Rattle.text_build.specs.References.{reference};
ghost use Rattle.rtl_tree.specs.declared.symbol.Symbol.TheVariants as symbol;
ghost use Rattle.text_grammar.specs.GrammarExpr.{level};

use crate::cursor::Cursor;
use crate::fault::BuildFault;
use crate::operators::{binary_of, level, looseness, part_of, part_symbol, unary_of};
use crate::reference::Reference;
use rtl_tree::symbol::Symbol;
use rtl_tree::tree::expr::{Expr, Range};
use rtl_tree::tree::names::Name;
use rtl_tree::tree::operators::{BinaryOperator, PartKind, SystemFunction, UnaryOperator};

/// The level of `?:`, and so of any expression.
const LOOSEST: u32 = 12;

impl<'a> Cursor<'a> {
    /// Any expression, nested at most `depth` deep.
    pub fn expression(&mut self, depth: u32) -> Result<Expr, BuildFault>
        ensures { Reads formula (reading.expression depth (map terminal self.old.rest.now)) result
            (map terminal self.new.rest.now) }
    {
        self.climb(depth, LOOSEST)
    }

    /// The same in a box: what is held by value while more is read is dear to prove.
    pub(crate) fn boxed_expression(&mut self, depth: u32) -> Result<Box<Expr>, BuildFault>
        ensures { Reads (λ e. formula e.value)
            (reading.expression depth (map terminal self.old.rest.now)) result
            (map terminal self.new.rest.now) }
    {
        self.boxed(depth, LOOSEST)
    }

    /// An expression whose operators outside parentheses bind at most this loosely.
    #[cycle(expression)]
    fn climb(&mut self, depth: u32, loosest: u32) -> Result<Expr, BuildFault>
        ensures { Reads formula (reading.climb depth loosest (map terminal self.old.rest.now))
            result (map terminal self.new.rest.now) }
    {
        if depth == 0 {
            return Err(BuildFault::NotSpelled);
        }
        self.sequence(depth - 1, loosest)
    }

    #[cycle(expression)]
    fn boxed(&mut self, depth: u32, loosest: u32) -> Result<Box<Expr>, BuildFault>
        ensures { Reads (λ e. formula e.value)
            (reading.climb depth loosest (map terminal self.old.rest.now)) result
            (map terminal self.new.rest.now) }
    {
        let read = self.climb(depth, loosest)?;
        Ok(Box::new(self.alloc, read)?)
    }

    #[cycle(expression)]
    #[tactic(auto, unfolding(crate::specs::ReadingExpr::sequence))]
    fn sequence(&mut self, depth: u32, loosest: u32) -> Result<Expr, BuildFault>
        ensures { Reads formula (reading.sequence depth loosest (reading.climb depth)
            (map terminal self.old.rest.now)) result (map terminal self.new.rest.now) }
    {
        let first = self.operand(depth)?;
        self.chain(depth, loosest, first)
    }

    /// An operator that binds at most this loosely comes next.
    #[tactic(auto, unfolding(crate::specs::ReadingExpr::goes))]
    fn goes(&self, loosest: u32) -> bool
        ensures { result ≡ reading.goes loosest (map terminal self.now.rest.now) }
    {
        match self.peek() {
            Some(symbol) => looseness(symbol) <= loosest,
            None => false,
        }
    }

    /// What goes on after its first operand; the operators group to the left.
    #[cycle(expression)]
    fn chain(&mut self, depth: u32, loosest: u32, first: Expr) -> Result<Expr, BuildFault>
        ensures { Reads formula (reading.chain depth loosest (reading.climb depth) (formula first)
            (map terminal self.old.rest.now)) result (map terminal self.new.rest.now) }
    {
        let mut left = first;
        // Each operator makes what was read one deeper.
        for _turn in 0..depth {
            if !self.goes(loosest) {
                return Ok(left);
            }
            left = self.link(depth, left)?;
        }
        if self.goes(loosest) {
            return Err(BuildFault::NotSpelled);
        }
        Ok(left)
    }

    /// What was read so far, with the operator that comes next.
    #[cycle(expression)]
    #[tactic(auto, unfolding(crate::specs::ReadingExpr::link))]
    fn link(&mut self, depth: u32, left: Expr) -> Result<Expr, BuildFault>
        ensures { Reads formula (reading.link (reading.climb depth) (formula left)
            (map terminal self.old.rest.now)) result (map terminal self.new.rest.now) }
    {
        let left = Box::new(self.alloc, left)?;
        match self.peek() {
            Some(symbol) => self.link_of(depth, binary_of(symbol), left),
            None => Err(BuildFault::NotSpelled),
        }
    }

    #[cycle(expression)]
    fn link_of(
        &mut self,
        depth: u32,
        operator: Option<BinaryOperator>,
        left: Box<Expr>,
    ) -> Result<Expr, BuildFault>
        ensures { Reads formula (reading.link_of operator (reading.climb depth) (formula left.value)
            (map terminal self.old.rest.now)) result (map terminal self.new.rest.now) }
    {
        match operator {
            Some(operator) => self.joint(depth, operator, left),
            None => self.choice(depth, left),
        }
    }

    #[cycle(expression)]
    #[tactic(auto, unfolding(crate::specs::ReadingExpr::joint))]
    fn joint(
        &mut self,
        depth: u32,
        operator: BinaryOperator,
        left: Box<Expr>,
    ) -> Result<Expr, BuildFault>
        ensures { Reads formula (reading.joint operator (reading.climb depth (level operator - 1))
            (formula left.value) (map terminal self.old.rest.now)) result
            (map terminal self.new.rest.now) }
    {
        let at = self.advance()?;
        let right = self.boxed(depth, level(operator) - 1)?;
        Ok(Expr::Binary(operator, at, left, right))
    }

    #[cycle(expression)]
    #[tactic(auto, unfolding(crate::specs::ReadingExpr::choice))]
    fn choice(&mut self, depth: u32, condition: Box<Expr>) -> Result<Expr, BuildFault>
        ensures { Reads formula (reading.choice (reading.climb depth 12) (formula condition.value)
            (map terminal self.old.rest.now)) result (map terminal self.new.rest.now) }
    {
        let at = self.advance()?;
        let taken = self.boxed(depth, LOOSEST)?;
        self.mark(Symbol::Colon)?;
        let otherwise = self.boxed(depth, LOOSEST)?;
        Ok(Expr::Choose(at, condition, taken, otherwise))
    }

    #[cycle(expression)]
    #[tactic(auto, unfolding(crate::specs::ReadingExpr::operand))]
    fn operand(&mut self, depth: u32) -> Result<Expr, BuildFault>
        ensures { Reads formula (reading.operand (reading.climb depth)
            (map terminal self.old.rest.now)) result (map terminal self.new.rest.now) }
    {
        match self.peek() {
            Some(Symbol::Number) => self.number(),
            Some(Symbol::Name) => self.read(depth),
            Some(Symbol::OpenParen) => self.parens(depth),
            Some(Symbol::ToSigned) => self.application(depth, SystemFunction::Signed),
            Some(Symbol::ToUnsigned) => self.application(depth, SystemFunction::Unsigned),
            Some(Symbol::Clog2) => self.application(depth, SystemFunction::Clog2),
            Some(Symbol::OpenBrace) => self.braces(depth),
            Some(symbol) => self.prefixed(depth, unary_of(symbol)),
            None => Err(BuildFault::NotSpelled),
        }
    }

    #[tactic(auto, unfolding(crate::specs::ReadingExpr::number))]
    fn number(&mut self) -> Result<Expr, BuildFault>
        ensures { Reads formula (reading.number (map terminal self.old.rest.now)) result
            (map terminal self.new.rest.now) }
    {
        let at = self.place()?;
        let value = self.literal()?;
        Ok(Expr::Number(value, at))
    }

    #[cycle(expression)]
    #[tactic(auto, unfolding(crate::specs::ReadingExpr::read))]
    fn read(&mut self, depth: u32) -> Result<Expr, BuildFault>
        ensures { Reads formula (reading.read (reading.climb depth 12)
            (map terminal self.old.rest.now)) result (map terminal self.new.rest.now) }
    {
        let reference = self.reference(depth)?;
        Ok(reference.into_expr())
    }

    #[cycle(expression)]
    #[tactic(auto, unfolding(crate::specs::ReadingExpr::parens))]
    fn parens(&mut self, depth: u32) -> Result<Expr, BuildFault>
        ensures { Reads formula (reading.parens (reading.climb depth 12)
            (map terminal self.old.rest.now)) result (map terminal self.new.rest.now) }
    {
        let at = self.advance()?;
        let inner = self.boxed(depth, LOOSEST)?;
        self.mark(Symbol::CloseParen)?;
        Ok(Expr::Parens(at, inner))
    }

    #[cycle(expression)]
    #[tactic(auto, unfolding(crate::specs::ReadingExpr::application))]
    fn application(&mut self, depth: u32, function: SystemFunction) -> Result<Expr, BuildFault>
        ensures { Reads formula (reading.application function (reading.climb depth 12)
            (map terminal self.old.rest.now)) result (map terminal self.new.rest.now) }
    {
        let at = self.advance()?;
        self.mark(Symbol::OpenParen)?;
        let inner = self.boxed(depth, LOOSEST)?;
        self.mark(Symbol::CloseParen)?;
        Ok(Expr::Apply(function, at, inner))
    }

    /// A concatenation or a replication.
    #[cycle(expression)]
    #[tactic(auto, unfolding(crate::specs::ReadingExpr::braces))]
    fn braces(&mut self, depth: u32) -> Result<Expr, BuildFault>
        ensures { Reads formula (reading.braces (reading.climb depth 12)
            (map terminal self.old.rest.now)) result (map terminal self.new.rest.now) }
    {
        let at = self.advance()?;
        let first = self.climb(depth, LOOSEST)?;
        self.after_first(depth, at, first)
    }

    /// What stands in braces, after its first expression.
    #[cycle(expression)]
    #[tactic(auto, unfolding(crate::specs::Reading::either))]
    fn after_first(&mut self, depth: u32, at: u32, first: Expr) -> Result<Expr, BuildFault>
        ensures { Reads formula (generic.either (generic.starts symbol.OpenBrace)
            (reading.replication (reading.climb depth 12) at (formula first))
            (reading.concatenation (reading.climb depth 12) at (formula first))
            (map terminal self.old.rest.now)) result (map terminal self.new.rest.now) }
    {
        if self.is_next(Symbol::OpenBrace) {
            self.replication(depth, at, first)
        } else {
            self.concatenation(depth, at, first)
        }
    }

    #[cycle(expression)]
    #[tactic(auto, unfolding(crate::specs::ReadingExpr::replication))]
    fn replication(&mut self, depth: u32, at: u32, times: Expr) -> Result<Expr, BuildFault>
        ensures { Reads formula (reading.replication (reading.climb depth 12) at (formula times)
            (map terminal self.old.rest.now)) result (map terminal self.new.rest.now) }
    {
        let times = Box::new(self.alloc, times)?;
        self.advance()?;
        let parts = self.listed_expressions(depth)?;
        self.mark(Symbol::CloseBrace)?;
        self.mark(Symbol::CloseBrace)?;
        Ok(Expr::repeat(at, times, parts))
    }

    #[cycle(expression)]
    #[tactic(auto, unfolding(crate::specs::ReadingExpr::concatenation))]
    fn concatenation(&mut self, depth: u32, at: u32, first: Expr) -> Result<Expr, BuildFault>
        ensures { Reads formula (reading.concatenation (reading.climb depth 12) at (formula first)
            (map terminal self.old.rest.now)) result (map terminal self.new.rest.now) }
    {
        let parts = self.more_listed(depth, first)?;
        self.mark(Symbol::CloseBrace)?;
        Ok(Expr::concat(at, parts))
    }

    #[cycle(expression)]
    #[tactic(auto, unfolding(crate::specs::ReadingExpr::more_listed, crate::specs::Reading::either))]
    fn more_listed(&mut self, depth: u32, first: Expr) -> Result<Vec<Expr>, BuildFault>
        ensures { Reads (λ all. map formula all.items)
            (reading.more_listed (reading.climb depth 12) (formula first)
            (map terminal self.old.rest.now)) result (map terminal self.new.rest.now) }
    {
        let mut all = Vec::new(self.alloc);
        all.push(first)?;
        if self.is_next(Symbol::Comma) {
            self.advance()?;
            self.expressions_after(depth, all)
        } else {
            Ok(all)
        }
    }

    /// One or more expressions with commas between them.
    #[cycle(expression)]
    #[tactic(auto, unfolding(crate::specs::Reading::listed))]
    pub(crate) fn listed_expressions(&mut self, depth: u32) -> Result<Vec<Expr>, BuildFault>
        ensures { Reads (λ all. map formula all.items)
            (generic.listed (reading.climb depth 12) (map terminal self.old.rest.now)) result
            (map terminal self.new.rest.now) }
    {
        self.expressions_after(depth, Vec::with_capacity(self.alloc, 1)?)
    }

    #[cycle(expression)]
    fn expressions_after(&mut self, depth: u32, before: Vec<Expr>) -> Result<Vec<Expr>, BuildFault>
        ensures { Reads (λ all. map formula all.items)
            (generic.commas (generic.add (reading.climb depth 12)) (map formula before.items)
            (map terminal self.old.rest.now)) result (map terminal self.new.rest.now) }
    {
        let mut all = before;
        // Each turn takes a token, so these are enough.
        for _turn in 0..self.rest.len() {
            all.push(self.climb(depth, LOOSEST)?)?;
            if !self.take_if(Symbol::Comma) {
                return Ok(all);
            }
        }
        Err(BuildFault::NotSpelled)
    }

    #[cycle(expression)]
    fn prefixed(&mut self, depth: u32, operator: Option<UnaryOperator>) -> Result<Expr, BuildFault>
        ensures { Reads formula (reading.prefix_by operator (reading.climb depth 0)
            (map terminal self.old.rest.now)) result (map terminal self.new.rest.now) }
    {
        match operator {
            Some(operator) => self.operation(depth, operator),
            None => Err(BuildFault::NotSpelled),
        }
    }

    #[cycle(expression)]
    #[tactic(auto, unfolding(crate::specs::ReadingExpr::operation))]
    fn operation(&mut self, depth: u32, operator: UnaryOperator) -> Result<Expr, BuildFault>
        ensures { Reads formula (reading.operation operator (reading.climb depth 0)
            (map terminal self.old.rest.now)) result (map terminal self.new.rest.now) }
    {
        let at = self.advance()?;
        let operand = self.boxed(depth, 0)?;
        Ok(Expr::Unary(operator, at, operand))
    }

    /// A name, one bit of it, or a part of it.
    #[cycle(expression)]
    #[tactic(auto, unfolding(crate::specs::ReadingExpr::reference))]
    pub fn reference(&mut self, depth: u32) -> Result<Reference, BuildFault>
        ensures { Reads reference (reading.reference (reading.climb depth 12)
            (map terminal self.old.rest.now)) result (map terminal self.new.rest.now) }
    {
        let name = self.name()?;
        self.selected(depth, name)
    }

    #[cycle(expression)]
    #[tactic(auto, unfolding(crate::specs::ReadingExpr::selected, crate::specs::Reading::either))]
    fn selected(&mut self, depth: u32, name: Name) -> Result<Reference, BuildFault>
        ensures { Reads reference (reading.selected (reading.climb depth 12) (identifier name)
            (map terminal self.old.rest.now)) result (map terminal self.new.rest.now) }
    {
        if self.is_next(Symbol::OpenBracket) {
            self.selection(depth, name)
        } else {
            Ok(Reference::Whole(name))
        }
    }

    #[cycle(expression)]
    #[tactic(auto, unfolding(crate::specs::ReadingExpr::selection))]
    fn selection(&mut self, depth: u32, name: Name) -> Result<Reference, BuildFault>
        ensures { Reads reference (reading.selection (reading.climb depth 12) (identifier name)
            (map terminal self.old.rest.now)) result (map terminal self.new.rest.now) }
    {
        self.mark(Symbol::OpenBracket)?;
        let first = self.boxed(depth, LOOSEST)?;
        self.rest_of_selection(depth, name, first)
    }

    /// The kind of part whose mark comes next.
    fn part_next(&self) -> Option<PartKind>
        ensures { result ≡ reading.part_by (generic.symbol_at (map terminal self.now.rest.now)) }
    {
        match self.peek() {
            Some(symbol) => part_of(symbol),
            None => None,
        }
    }

    #[cycle(expression)]
    #[tactic(auto, unfolding(crate::specs::ReadingExpr::rest_of_selection))]
    fn rest_of_selection(
        &mut self,
        depth: u32,
        name: Name,
        first: Box<Expr>,
    ) -> Result<Reference, BuildFault>
        ensures { Reads reference (reading.rest_of_selection (reading.climb depth 12)
            (identifier name) (formula first.value) (map terminal self.old.rest.now)) result
            (map terminal self.new.rest.now) }
    {
        match self.part_next() {
            Some(kind) => self.rest_of_part(depth, kind, name, first),
            None => self.rest_of_bit(name, first),
        }
    }

    #[tactic(auto, unfolding(crate::specs::ReadingExpr::rest_of_bit))]
    fn rest_of_bit(&mut self, name: Name, index: Box<Expr>) -> Result<Reference, BuildFault>
        ensures { Reads reference (reading.rest_of_bit (identifier name) (formula index.value)
            (map terminal self.old.rest.now)) result (map terminal self.new.rest.now) }
    {
        self.mark(Symbol::CloseBracket)?;
        Ok(Reference::Bit(name, index))
    }

    #[cycle(expression)]
    #[tactic(auto, unfolding(crate::specs::ReadingExpr::rest_of_part))]
    fn rest_of_part(
        &mut self,
        depth: u32,
        kind: PartKind,
        name: Name,
        first: Box<Expr>,
    ) -> Result<Reference, BuildFault>
        ensures { Reads reference (reading.rest_of_part kind (reading.climb depth 12)
            (identifier name) (formula first.value) (map terminal self.old.rest.now)) result
            (map terminal self.new.rest.now) }
    {
        self.mark(part_symbol(kind))?;
        let second = self.boxed(depth, LOOSEST)?;
        self.mark(Symbol::CloseBracket)?;
        Ok(Reference::Part(name, kind, first, second))
    }

    /// `[msb:lsb]`
    #[tactic(auto, unfolding(crate::specs::ReadingExpr::bounds))]
    pub fn range(&mut self, depth: u32) -> Result<Range, BuildFault>
        ensures { Reads bounds (reading.bounds (reading.climb depth 12)
            (map terminal self.old.rest.now)) result (map terminal self.new.rest.now) }
    {
        let at = self.advance()?;
        let msb = self.boxed(depth, LOOSEST)?;
        self.mark(Symbol::Colon)?;
        let lsb = self.boxed(depth, LOOSEST)?;
        self.mark(Symbol::CloseBracket)?;
        Ok(Range {
            at,
            msb: Box::into_inner(msb),
            lsb: Box::into_inner(lsb),
        })
    }
}
