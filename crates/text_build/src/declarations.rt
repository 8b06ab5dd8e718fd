// Builds the declarations of a module: ports, nets, variables, parameters and continuous assignments.

ghost use Rattle.std.specs.Prelude.{◌≡◌, map};
ghost use Rattle.std.specs.Option.{option_map};
ghost use Rattle.rtl_tree.specs.Symbols.{terminal};
ghost use Rattle.rtl_tree.specs.TreeExpr.{formula, identifier, bounds};
ghost use Rattle.rtl_tree.specs.TreeItem.{head, net, variable, valuation, drive, module_item};
ghost use Rattle.text_build.specs.Reading as generic;
ghost use Rattle.text_build.specs.Reading.{Reads};
ghost use Rattle.text_build.specs.ReadingItem as reading;
ghost use Rattle.rtl_tree.specs.declared.symbol.Symbol.TheVariants as symbol;

use crate::cursor::Cursor;
use crate::fault::BuildFault;
use rtl_tree::symbol::Symbol;
use rtl_tree::tree::expr::{Expr, Range};
use rtl_tree::tree::item::{
    Assignment, Direction, Item, ParameterKind, PortHead, PortKind, Reg, Setting, Wire,
};
use rtl_tree::tree::names::Name;
use text_grammar::nesting::MAX_NESTING;

impl<'a> Cursor<'a> {
    /// Any expression that stands in an item.
    #[tactic(auto, unfolding(crate::specs::ReadingItem::any_expression))]
    pub(crate) fn any_expression(&mut self) -> Result<Expr, BuildFault>
        ensures { Reads formula (reading.any_expression MAX_NESTING
            (map terminal self.old.rest.now)) result (map terminal self.new.rest.now) }
    {
        self.expression(MAX_NESTING)
    }

    /// A range, where one comes next.
    #[tactic(auto, unfolding(crate::specs::ReadingItem::range, crate::specs::ReadingItem::any_expression, crate::specs::Reading::optional, crate::specs::Reading::either))]
    pub(crate) fn optional_range(&mut self) -> Result<Option<Range>, BuildFault>
        ensures { Reads (λ r. option_map bounds r)
            (reading.range MAX_NESTING (map terminal self.old.rest.now)) result
            (map terminal self.new.rest.now) }
    {
        if self.is_next(Symbol::OpenBracket) {
            let range = self.range(MAX_NESTING)?;
            Ok(Some(range))
        } else {
            Ok(None)
        }
    }

    /// The same in a box: what is held by value while more is read is dear to prove.
    fn boxed_range(&mut self) -> Result<Box<Option<Range>>, BuildFault>
        ensures { Reads (λ r. option_map bounds r.value)
            (reading.range MAX_NESTING (map terminal self.old.rest.now)) result
            (map terminal self.new.rest.now) }
    {
        let read = self.optional_range()?;
        Ok(Box::new(self.alloc, read)?)
    }

    /// One or more names with commas between them.
    pub fn names(&mut self) -> Result<Vec<Name>, BuildFault>
        ensures { Reads (λ all. map identifier all.items)
            (generic.listed generic.name (map terminal self.old.rest.now)) result
            (map terminal self.new.rest.now) }
    {
        let mut all = Vec::with_capacity(self.alloc, 1)?;
        // Each turn takes a token, so these are enough.
        for _turn in 0..self.rest.len() {
            all.push(self.name()?)?;
            if !self.take_if(Symbol::Comma) {
                return Ok(all);
            }
        }
        Err(BuildFault::NotSpelled)
    }

    /// The direction that comes next, which isn't taken.
    #[tactic(auto, unfolding(crate::specs::ReadingItem::direction_next))]
    fn direction_next(&self) -> Result<Direction, BuildFault>
        ensures { Reads (λ d. d) (reading.direction_next (map terminal self.now.rest.now)) result
            (map terminal self.now.rest.now) }
    {
        match self.peek() {
            Some(Symbol::Input) => Ok(Direction::Input),
            Some(Symbol::Output) => Ok(Direction::Output),
            _ => Err(BuildFault::NotSpelled),
        }
    }

    /// `wire` or `reg`, where one of them comes next.
    #[tactic(auto, unfolding(crate::specs::ReadingItem::port_kind))]
    fn port_kind(&mut self) -> Result<Option<PortKind>, BuildFault>
        ensures { Reads (λ k. k) (reading.port_kind (map terminal self.old.rest.now)) result
            (map terminal self.new.rest.now) }
    {
        match self.peek() {
            Some(Symbol::Wire) => {
                self.advance()?;
                Ok(Some(PortKind::Wire))
            }
            Some(Symbol::Reg) => {
                self.advance()?;
                Ok(Some(PortKind::Reg))
            }
            _ => Ok(None),
        }
    }

    /// What stands before the names of ports.
    #[tactic(auto, unfolding(crate::specs::ReadingItem::port_head, crate::specs::ReadingItem::flag))]
    pub(crate) fn port_head(&mut self) -> Result<PortHead, BuildFault>
        ensures { Reads head (reading.port_head MAX_NESTING (map terminal self.old.rest.now)) result
            (map terminal self.new.rest.now) }
    {
        let direction = self.direction_next()?;
        let at = self.advance()?;
        let kind = self.port_kind()?;
        let signed = self.take_if(Symbol::Signed);
        let range = self.optional_range()?;
        Ok(PortHead {
            at,
            direction,
            kind,
            signed,
            range,
        })
    }

    pub(crate) fn boxed_port_head(&mut self) -> Result<Box<PortHead>, BuildFault>
        ensures { Reads (λ h. head h.value)
            (reading.port_head MAX_NESTING (map terminal self.old.rest.now)) result
            (map terminal self.new.rest.now) }
    {
        let read = self.port_head()?;
        Ok(Box::new(self.alloc, read)?)
    }

    #[tactic(auto, unfolding(crate::specs::ReadingItem::ports))]
    pub fn ports(&mut self) -> Result<Item, BuildFault>
        ensures { Reads module_item (reading.ports MAX_NESTING (map terminal self.old.rest.now))
            result (map terminal self.new.rest.now) }
    {
        let head = self.boxed_port_head()?;
        let names = self.names()?;
        self.mark(Symbol::Semicolon)?;
        Ok(Item::Ports(Box::into_inner(head), names))
    }

    /// `= value`
    #[tactic(auto, unfolding(crate::specs::ReadingItem::value))]
    pub fn value(&mut self) -> Result<Expr, BuildFault>
        ensures { Reads formula (reading.value MAX_NESTING (map terminal self.old.rest.now)) result
            (map terminal self.new.rest.now) }
    {
        self.mark(Symbol::Equals)?;
        self.any_expression()
    }

    #[tactic(auto, unfolding(crate::specs::Reading::optional, crate::specs::Reading::either))]
    fn optional_value(&mut self) -> Result<Option<Expr>, BuildFault>
        ensures { Reads (λ v. option_map formula v)
            (generic.optional symbol.Equals (reading.value MAX_NESTING)
            (map terminal self.old.rest.now)) result (map terminal self.new.rest.now) }
    {
        if self.is_next(Symbol::Equals) {
            let value = self.value()?;
            Ok(Some(value))
        } else {
            Ok(None)
        }
    }

    #[tactic(auto, unfolding(crate::specs::ReadingItem::net))]
    fn wire(&mut self) -> Result<Wire, BuildFault>
        ensures { Reads net (reading.net MAX_NESTING (map terminal self.old.rest.now)) result
            (map terminal self.new.rest.now) }
    {
        let name = self.name()?;
        let value = self.optional_value()?;
        Ok(Wire { name, value })
    }

    fn listed_wires(&mut self) -> Result<Vec<Wire>, BuildFault>
        ensures { Reads (λ all. map net all.items)
            (generic.listed (reading.net MAX_NESTING) (map terminal self.old.rest.now)) result
            (map terminal self.new.rest.now) }
    {
        let mut all = Vec::with_capacity(self.alloc, 1)?;
        // Each turn takes a token, so these are enough.
        for _turn in 0..self.rest.len() {
            all.push(self.wire()?)?;
            if !self.take_if(Symbol::Comma) {
                return Ok(all);
            }
        }
        Err(BuildFault::NotSpelled)
    }

    #[tactic(auto, unfolding(crate::specs::ReadingItem::nets, crate::specs::ReadingItem::flag))]
    pub fn wires(&mut self) -> Result<Item, BuildFault>
        ensures { Reads module_item (reading.nets MAX_NESTING (map terminal self.old.rest.now))
            result (map terminal self.new.rest.now) }
    {
        let at = self.advance()?;
        let signed = self.take_if(Symbol::Signed);
        let range = self.boxed_range()?;
        let wires = self.listed_wires()?;
        self.mark(Symbol::Semicolon)?;
        Ok(Item::Wires {
            at,
            signed,
            range: Box::into_inner(range),
            wires,
        })
    }

    /// A name after `reg`; its initial value isn't kept.
    #[tactic(auto, unfolding(crate::specs::ReadingItem::variable, crate::specs::ReadingItem::initial))]
    fn reg(&mut self) -> Result<Reg, BuildFault>
        ensures { Reads variable (reading.variable (map terminal self.old.rest.now)) result
            (map terminal self.new.rest.now) }
    {
        let name = self.name()?;
        let initial = self.pass_value();
        Ok(Reg { name, initial })
    }

    fn listed_regs(&mut self) -> Result<Vec<Reg>, BuildFault>
        ensures { Reads (λ all. map variable all.items)
            (generic.listed reading.variable (map terminal self.old.rest.now)) result
            (map terminal self.new.rest.now) }
    {
        let mut all = Vec::with_capacity(self.alloc, 1)?;
        // Each turn takes a token, so these are enough.
        for _turn in 0..self.rest.len() {
            all.push(self.reg()?)?;
            if !self.take_if(Symbol::Comma) {
                return Ok(all);
            }
        }
        Err(BuildFault::NotSpelled)
    }

    #[tactic(auto, unfolding(crate::specs::ReadingItem::variables, crate::specs::ReadingItem::flag))]
    pub fn regs(&mut self) -> Result<Item, BuildFault>
        ensures { Reads module_item (reading.variables MAX_NESTING (map terminal self.old.rest.now))
            result (map terminal self.new.rest.now) }
    {
        let at = self.advance()?;
        let signed = self.take_if(Symbol::Signed);
        let range = self.boxed_range()?;
        let regs = self.listed_regs()?;
        self.mark(Symbol::Semicolon)?;
        Ok(Item::Regs {
            at,
            signed,
            range: Box::into_inner(range),
            regs,
        })
    }

    #[tactic(auto, unfolding(crate::specs::ReadingItem::integers))]
    pub fn integers(&mut self) -> Result<Item, BuildFault>
        ensures { Reads module_item (reading.integers (map terminal self.old.rest.now)) result
            (map terminal self.new.rest.now) }
    {
        let at = self.advance()?;
        let names = self.names()?;
        self.mark(Symbol::Semicolon)?;
        Ok(Item::Integers(at, names))
    }

    #[tactic(auto, unfolding(crate::specs::ReadingItem::valuation))]
    fn setting(&mut self) -> Result<Setting, BuildFault>
        ensures { Reads valuation (reading.valuation MAX_NESTING (map terminal self.old.rest.now))
            result (map terminal self.new.rest.now) }
    {
        let name = self.name()?;
        let value = self.value()?;
        Ok(Setting { name, value })
    }

    fn listed_settings(&mut self) -> Result<Vec<Setting>, BuildFault>
        ensures { Reads (λ all. map valuation all.items)
            (generic.listed (reading.valuation MAX_NESTING) (map terminal self.old.rest.now))
            result (map terminal self.new.rest.now) }
    {
        let mut all = Vec::with_capacity(self.alloc, 1)?;
        // Each turn takes a token, so these are enough.
        for _turn in 0..self.rest.len() {
            all.push(self.setting()?)?;
            if !self.take_if(Symbol::Comma) {
                return Ok(all);
            }
        }
        Err(BuildFault::NotSpelled)
    }

    #[tactic(auto, unfolding(crate::specs::ReadingItem::parameters))]
    pub fn settings(&mut self, kind: ParameterKind) -> Result<Item, BuildFault>
        ensures { Reads module_item (reading.parameters MAX_NESTING kind
            (map terminal self.old.rest.now)) result (map terminal self.new.rest.now) }
    {
        let at = self.advance()?;
        let range = self.boxed_range()?;
        let settings = self.listed_settings()?;
        self.mark(Symbol::Semicolon)?;
        Ok(Item::Parameters {
            at,
            kind,
            range: Box::into_inner(range),
            settings,
        })
    }

    #[tactic(auto, unfolding(crate::specs::ReadingItem::drive))]
    fn assignment(&mut self) -> Result<Assignment, BuildFault>
        ensures { Reads drive (reading.drive MAX_NESTING (map terminal self.old.rest.now)) result
            (map terminal self.new.rest.now) }
    {
        let target = self.boxed_target(MAX_NESTING)?;
        let value = self.value()?;
        Ok(Assignment {
            target: Box::into_inner(target),
            value,
        })
    }

    fn listed_assignments(&mut self) -> Result<Vec<Assignment>, BuildFault>
        ensures { Reads (λ all. map drive all.items)
            (generic.listed (reading.drive MAX_NESTING) (map terminal self.old.rest.now)) result
            (map terminal self.new.rest.now) }
    {
        let mut all = Vec::with_capacity(self.alloc, 1)?;
        // Each turn takes a token, so these are enough.
        for _turn in 0..self.rest.len() {
            all.push(self.assignment()?)?;
            if !self.take_if(Symbol::Comma) {
                return Ok(all);
            }
        }
        Err(BuildFault::NotSpelled)
    }

    #[tactic(auto, unfolding(crate::specs::ReadingItem::drives, crate::specs::ReadingItem::any_expression))]
    pub fn assigns(&mut self) -> Result<Item, BuildFault>
        ensures { Reads module_item (reading.drives MAX_NESTING (map terminal self.old.rest.now))
            result (map terminal self.new.rest.now) }
    {
        let at = self.advance()?;
        let delay = self.optional_delay(MAX_NESTING)?;
        let assignments = self.listed_assignments()?;
        self.mark(Symbol::Semicolon)?;
        Ok(Item::Assigns(at, Box::into_inner(delay), assignments))
    }
}
