// Builds gates, and chooses between them and the items that stand for themselves.

ghost use Rattle.std.specs.Prelude.{◌≡◌, map};
ghost use Rattle.std.specs.Option.{option_map};
ghost use Rattle.rtl_tree.specs.Symbols.{terminal};
ghost use Rattle.rtl_tree.specs.TreeExpr.{formula, identifier};
ghost use Rattle.rtl_tree.specs.TreeGate.{gate, gate_pause, gate_span};
ghost use Rattle.rtl_tree.specs.TreeWritten.{written_item};
ghost use Rattle.text_build.specs.Reading as generic;
ghost use Rattle.text_build.specs.Reading.{Reads};
ghost use Rattle.text_build.specs.ReadingGate as reading;
ghost use Rattle.text_build.specs.ReadingItem.{any_expression};
ghost use Rattle.text_build.specs.ReadingStmt.{fixed, named};
ghost use Rattle.rtl_tree.specs.declared.symbol.Symbol.TheVariants as symbol;

use crate::cursor::Cursor;
use crate::fault::BuildFault;
use rtl_tree::symbol::Symbol;
use rtl_tree::tree::expr::Expr;
use rtl_tree::tree::gate::{Gate, GateDelay, GateKind, GateTicks};
use rtl_tree::tree::names::Name;
use rtl_tree::tree::stmt::Ticks;
use rtl_tree::tree::written::WrittenItem;
use text_grammar::nesting::MAX_NESTING;

/// The kind of gates that is written so.
#[tactic(auto, unfolding(crate::specs::ReadingGate::gate_of))]
fn gate_of(symbol: Symbol) -> Option<GateKind>
    ensures { result ≡ reading.gate_of symbol }
{
    match symbol {
        Symbol::And => Some(GateKind::And),
        Symbol::Nand => Some(GateKind::Nand),
        Symbol::Or => Some(GateKind::Or),
        Symbol::Nor => Some(GateKind::Nor),
        Symbol::Xor => Some(GateKind::Xor),
        Symbol::Xnor => Some(GateKind::Xnor),
        Symbol::Buf => Some(GateKind::Buf),
        Symbol::Not => Some(GateKind::Not),
        _ => None,
    }
}

impl<'a> Cursor<'a> {
    /// An expression in an item, in a box: what is held by value while more is read is dear to prove.
    #[tactic(auto, unfolding(crate::specs::ReadingItem::any_expression))]
    fn any_boxed(&mut self) -> Result<Box<Expr>, BuildFault>
        ensures { Reads (λ e. formula e.value)
            (any_expression MAX_NESTING (map terminal self.old.rest.now)) result
            (map terminal self.new.rest.now) }
    {
        self.boxed_expression(MAX_NESTING)
    }

    #[tactic(auto, unfolding(crate::specs::ReadingGate::rest_of_one))]
    fn rest_of_one(&mut self, value: Box<Expr>) -> Result<GateTicks, BuildFault>
        ensures { Reads gate_span (reading.rest_of_one (formula value.value)
            (map terminal self.old.rest.now)) result (map terminal self.new.rest.now) }
    {
        self.mark(Symbol::CloseParen)?;
        Ok(GateTicks::One(Ticks::Parens(Box::into_inner(value))))
    }

    #[tactic(auto, unfolding(crate::specs::ReadingGate::rest_of_two))]
    fn rest_of_two(&mut self, rise: Box<Expr>) -> Result<GateTicks, BuildFault>
        ensures { Reads gate_span (reading.rest_of_two (any_expression MAX_NESTING)
            (formula rise.value) (map terminal self.old.rest.now)) result
            (map terminal self.new.rest.now) }
    {
        self.advance()?;
        let fall = self.any_boxed()?;
        self.mark(Symbol::CloseParen)?;
        Ok(GateTicks::Two(Box::into_inner(rise), Box::into_inner(fall)))
    }

    #[tactic(auto, unfolding(crate::specs::Reading::either))]
    fn after_rise(&mut self, first: Box<Expr>) -> Result<GateTicks, BuildFault>
        ensures { Reads gate_span (generic.either (generic.starts symbol.Comma)
            (reading.rest_of_two (any_expression MAX_NESTING) (formula first.value))
            (reading.rest_of_one (formula first.value)) (map terminal self.old.rest.now)) result
            (map terminal self.new.rest.now) }
    {
        if self.is_next(Symbol::Comma) {
            self.rest_of_two(first)
        } else {
            self.rest_of_one(first)
        }
    }

    #[tactic(auto, unfolding(crate::specs::ReadingGate::in_parens))]
    fn ticks_in_parens(&mut self) -> Result<GateTicks, BuildFault>
        ensures { Reads gate_span (reading.in_parens (any_expression MAX_NESTING)
            (map terminal self.old.rest.now)) result (map terminal self.new.rest.now) }
    {
        self.mark(Symbol::OpenParen)?;
        let first = self.any_boxed()?;
        self.after_rise(first)
    }

    #[tactic(auto, unfolding(crate::specs::ReadingGate::alone))]
    fn fixed_alone(&mut self) -> Result<GateTicks, BuildFault>
        ensures { Reads gate_span (reading.alone fixed (map terminal self.old.rest.now)) result
            (map terminal self.new.rest.now) }
    {
        let ticks = self.fixed()?;
        Ok(GateTicks::One(ticks))
    }

    #[tactic(auto, unfolding(crate::specs::ReadingGate::alone))]
    fn named_alone(&mut self) -> Result<GateTicks, BuildFault>
        ensures { Reads gate_span (reading.alone named (map terminal self.old.rest.now)) result
            (map terminal self.new.rest.now) }
    {
        let ticks = self.named()?;
        Ok(GateTicks::One(ticks))
    }

    #[tactic(auto, unfolding(crate::specs::ReadingGate::gate_span))]
    fn gate_ticks(&mut self) -> Result<GateTicks, BuildFault>
        ensures { Reads gate_span (reading.gate_span (any_expression MAX_NESTING)
            (map terminal self.old.rest.now)) result (map terminal self.new.rest.now) }
    {
        match self.peek() {
            Some(Symbol::Number) => self.fixed_alone(),
            Some(Symbol::Name) => self.named_alone(),
            _ => self.ticks_in_parens(),
        }
    }

    #[tactic(auto, unfolding(crate::specs::ReadingGate::gate_pause))]
    fn gate_delay(&mut self) -> Result<GateDelay, BuildFault>
        ensures { Reads gate_pause (reading.gate_pause (any_expression MAX_NESTING)
            (map terminal self.old.rest.now)) result (map terminal self.new.rest.now) }
    {
        let at = self.advance()?;
        let ticks = self.gate_ticks()?;
        Ok(GateDelay { at, ticks })
    }

    /// A delay in a box, where one comes next.
    #[tactic(auto, unfolding(crate::specs::Reading::optional, crate::specs::Reading::either))]
    fn optional_gate_delay(&mut self) -> Result<Box<Option<GateDelay>>, BuildFault>
        ensures { Reads (λ d. option_map gate_pause d.value)
            (generic.optional symbol.Hash (reading.gate_pause (any_expression MAX_NESTING))
            (map terminal self.old.rest.now)) result (map terminal self.new.rest.now) }
    {
        if self.is_next(Symbol::Hash) {
            let delay = self.gate_delay()?;
            Ok(Box::new(self.alloc, Some(delay))?)
        } else {
            Ok(Box::new(self.alloc, None)?)
        }
    }

    #[tactic(auto, unfolding(crate::specs::Reading::optional, crate::specs::Reading::either))]
    fn optional_name(&mut self) -> Result<Option<Name>, BuildFault>
        ensures { Reads (λ n. option_map identifier n)
            (generic.optional symbol.Name generic.name (map terminal self.old.rest.now)) result
            (map terminal self.new.rest.now) }
    {
        if self.is_next(Symbol::Name) {
            let name = self.name()?;
            Ok(Some(name))
        } else {
            Ok(None)
        }
    }

    #[tactic(auto, unfolding(crate::specs::ReadingItem::any_expression))]
    fn terminals(&mut self) -> Result<Vec<Expr>, BuildFault>
        ensures { Reads (λ all. map formula all.items)
            (generic.listed (any_expression MAX_NESTING) (map terminal self.old.rest.now)) result
            (map terminal self.new.rest.now) }
    {
        self.listed_expressions(MAX_NESTING)
    }

    #[tactic(auto, unfolding(crate::specs::ReadingGate::gate))]
    fn gate(&mut self) -> Result<Gate, BuildFault>
        ensures { Reads gate (reading.gate MAX_NESTING (map terminal self.old.rest.now)) result
            (map terminal self.new.rest.now) }
    {
        let name = self.optional_name()?;
        self.mark(Symbol::OpenParen)?;
        let output = self.boxed_target(MAX_NESTING)?;
        self.mark(Symbol::Comma)?;
        let terminals = self.terminals()?;
        self.mark(Symbol::CloseParen)?;
        Ok(Gate {
            name,
            output: Box::into_inner(output),
            terminals,
        })
    }

    fn listed_gates(&mut self) -> Result<Vec<Gate>, BuildFault>
        ensures { Reads (λ all. map gate all.items)
            (generic.listed (reading.gate MAX_NESTING) (map terminal self.old.rest.now)) result
            (map terminal self.new.rest.now) }
    {
        let mut all = Vec::with_capacity(self.alloc, 1)?;
        // Each turn takes a token, so these are enough.
        for _turn in 0..self.rest.len() {
            all.push(self.gate()?)?;
            if !self.take_if(Symbol::Comma) {
                return Ok(all);
            }
        }
        Err(BuildFault::NotSpelled)
    }

    #[tactic(auto, unfolding(crate::specs::ReadingGate::gates))]
    fn gates(&mut self, kind: GateKind) -> Result<WrittenItem, BuildFault>
        ensures { Reads written_item (reading.gates MAX_NESTING kind
            (map terminal self.old.rest.now)) result (map terminal self.new.rest.now) }
    {
        let at = self.advance()?;
        let delay = self.optional_gate_delay()?;
        let gates = self.listed_gates()?;
        self.mark(Symbol::Semicolon)?;
        Ok(WrittenItem::Gates {
            at,
            kind,
            delay: Box::into_inner(delay),
            gates,
        })
    }

    /// The kind of gates whose word comes next.
    fn gate_next(&self) -> Option<GateKind>
        ensures { result ≡ reading.gate_by (generic.symbol_at (map terminal self.now.rest.now)) }
    {
        match self.peek() {
            Some(symbol) => gate_of(symbol),
            None => None,
        }
    }

    #[tactic(auto, unfolding(crate::specs::ReadingGate::plain_item))]
    fn plain_item(&mut self) -> Result<WrittenItem, BuildFault>
        ensures { Reads written_item (reading.plain_item MAX_NESTING
            (map terminal self.old.rest.now)) result (map terminal self.new.rest.now) }
    {
        let item = self.item_after()?;
        Ok(WrittenItem::Plain(item))
    }

    /// An item after its attributes that stands for itself, or gates.
    #[tactic(auto, unfolding(crate::specs::ReadingGate::written_after))]
    pub(crate) fn written_after(&mut self) -> Result<WrittenItem, BuildFault>
        ensures { Reads written_item (reading.written_after MAX_NESTING
            (map terminal self.old.rest.now)) result (map terminal self.new.rest.now) }
    {
        match self.gate_next() {
            Some(kind) => self.gates(kind),
            None => self.plain_item(),
        }
    }
}
