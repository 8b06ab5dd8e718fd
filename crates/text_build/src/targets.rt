// Builds the targets of assignments, and delays.

ghost use Rattle.std.specs.Prelude.{◌≡◌, map};
ghost use Rattle.std.specs.Option.{option_map};
ghost use Rattle.rtl_tree.specs.Symbols.{terminal};
ghost use Rattle.rtl_tree.specs.TreeStmt.{target, span, pause};
ghost use Rattle.text_build.specs.Reading as generic;
ghost use Rattle.text_build.specs.Reading.{Reads};
ghost use Rattle.text_build.specs.ReadingExpr.{expression};
ghost use Rattle.text_build.specs.ReadingStmt as reading;
ghost use Rattle.rtl_tree.specs.declared.symbol.Symbol.TheVariants as symbol;

use crate::cursor::Cursor;
use crate::fault::BuildFault;
use rtl_tree::symbol::Symbol;
use rtl_tree::tree::stmt::{Delay, Lvalue, Ticks};

impl<'a> Cursor<'a> {
    /// A target, nested at most `depth` deep.
    #[cycle(target)]
    pub fn target(&mut self, depth: u32) -> Result<Lvalue, BuildFault>
        ensures { Reads target (reading.target depth (map terminal self.old.rest.now)) result
            (map terminal self.new.rest.now) }
    {
        if depth == 0 {
            return Err(BuildFault::NotSpelled);
        }
        self.target_within(depth - 1)
    }

    /// The same in a box: what is held by value while more is read is dear to prove.
    pub(crate) fn boxed_target(&mut self, depth: u32) -> Result<Box<Lvalue>, BuildFault>
        ensures { Reads (λ t. target t.value)
            (reading.target depth (map terminal self.old.rest.now)) result
            (map terminal self.new.rest.now) }
    {
        let read = self.target(depth)?;
        Ok(Box::new(self.alloc, read)?)
    }

    #[cycle(target)]
    #[tactic(auto, unfolding(crate::specs::Reading::either))]
    fn target_within(&mut self, depth: u32) -> Result<Lvalue, BuildFault>
        ensures { Reads target (generic.either (generic.starts symbol.OpenBrace)
            (reading.joined (reading.target depth)) (reading.part_target (expression depth))
            (map terminal self.old.rest.now)) result (map terminal self.new.rest.now) }
    {
        if self.is_next(Symbol::OpenBrace) {
            self.joined(depth)
        } else {
            self.part_target(depth)
        }
    }

    #[tactic(auto, unfolding(crate::specs::ReadingStmt::part_target))]
    fn part_target(&mut self, depth: u32) -> Result<Lvalue, BuildFault>
        ensures { Reads target (reading.part_target (expression depth)
            (map terminal self.old.rest.now)) result (map terminal self.new.rest.now) }
    {
        let reference = self.reference(depth)?;
        Ok(reference.into_target())
    }

    #[cycle(target)]
    #[tactic(auto, unfolding(crate::specs::ReadingStmt::joined))]
    fn joined(&mut self, depth: u32) -> Result<Lvalue, BuildFault>
        ensures { Reads target (reading.joined (reading.target depth)
            (map terminal self.old.rest.now)) result (map terminal self.new.rest.now) }
    {
        let at = self.advance()?;
        let parts = self.listed_targets(depth)?;
        self.mark(Symbol::CloseBrace)?;
        Ok(Lvalue::concat(at, parts))
    }

    #[cycle(target)]
    fn listed_targets(&mut self, depth: u32) -> Result<Vec<Lvalue>, BuildFault>
        ensures { Reads (λ all. map target all.items)
            (generic.listed (reading.target depth) (map terminal self.old.rest.now)) result
            (map terminal self.new.rest.now) }
    {
        let mut all = Vec::new(self.alloc);
        // Each turn takes a token, so these are enough.
        for _turn in 0..self.rest.len() {
            all.push(self.target(depth)?)?;
            if !self.take_if(Symbol::Comma) {
                return Ok(all);
            }
        }
        Err(BuildFault::NotSpelled)
    }

    #[tactic(auto, unfolding(crate::specs::ReadingStmt::fixed))]
    pub(crate) fn fixed(&mut self) -> Result<Ticks, BuildFault>
        ensures { Reads span (reading.fixed (map terminal self.old.rest.now)) result
            (map terminal self.new.rest.now) }
    {
        let value = self.literal()?;
        Ok(Ticks::Number(value))
    }

    #[tactic(auto, unfolding(crate::specs::ReadingStmt::named))]
    pub(crate) fn named(&mut self) -> Result<Ticks, BuildFault>
        ensures { Reads span (reading.named (map terminal self.old.rest.now)) result
            (map terminal self.new.rest.now) }
    {
        let name = self.name()?;
        Ok(Ticks::Name(name))
    }

    #[tactic(auto, unfolding(crate::specs::ReadingStmt::valued))]
    fn valued(&mut self, depth: u32) -> Result<Ticks, BuildFault>
        ensures { Reads span (reading.valued (expression depth) (map terminal self.old.rest.now))
            result (map terminal self.new.rest.now) }
    {
        self.mark(Symbol::OpenParen)?;
        let value = self.boxed_expression(depth)?;
        self.mark(Symbol::CloseParen)?;
        Ok(Ticks::Parens(Box::into_inner(value)))
    }

    #[tactic(auto, unfolding(crate::specs::ReadingStmt::span))]
    fn ticks(&mut self, depth: u32) -> Result<Ticks, BuildFault>
        ensures { Reads span (reading.span (expression depth) (map terminal self.old.rest.now))
            result (map terminal self.new.rest.now) }
    {
        match self.peek() {
            Some(Symbol::Number) => self.fixed(),
            Some(Symbol::Name) => self.named(),
            _ => self.valued(depth),
        }
    }

    #[tactic(auto, unfolding(crate::specs::ReadingStmt::pause))]
    pub fn delay(&mut self, depth: u32) -> Result<Delay, BuildFault>
        ensures { Reads pause (reading.pause (expression depth) (map terminal self.old.rest.now))
            result (map terminal self.new.rest.now) }
    {
        let at = self.advance()?;
        let ticks = self.ticks(depth)?;
        Ok(Delay { at, ticks })
    }

    pub(crate) fn boxed_delay(&mut self, depth: u32) -> Result<Box<Delay>, BuildFault>
        ensures { Reads (λ d. pause d.value)
            (reading.pause (expression depth) (map terminal self.old.rest.now)) result
            (map terminal self.new.rest.now) }
    {
        let read = self.delay(depth)?;
        Ok(Box::new(self.alloc, read)?)
    }

    /// A delay in a box, where one comes next.
    #[tactic(auto, unfolding(crate::specs::Reading::optional, crate::specs::Reading::either))]
    pub(crate) fn optional_delay(&mut self, depth: u32) -> Result<Box<Option<Delay>>, BuildFault>
        ensures { Reads (λ d. option_map pause d.value)
            (generic.optional symbol.Hash (reading.pause (expression depth))
            (map terminal self.old.rest.now)) result (map terminal self.new.rest.now) }
    {
        if self.is_next(Symbol::Hash) {
            let delay = self.delay(depth)?;
            Ok(Box::new(self.alloc, Some(delay))?)
        } else {
            Ok(Box::new(self.alloc, None)?)
        }
    }
}
