// Builds instances of modules, and chooses among the items of a module.

ghost use Rattle.std.specs.Prelude.{◌≡◌, ◌||◌, [], map};
ghost use Rattle.std.specs.Option.{option_map};
ghost use Rattle.rtl_tree.specs.Symbols.{terminal};
ghost use Rattle.rtl_tree.specs.TreeExpr.{formula};
ghost use Rattle.rtl_tree.specs.TreeItem.{positional, associated, association, instantiation, module_item};
ghost use Rattle.text_grammar.specs.declared.nesting.TheConstants.{MAX_NESTING};
ghost use Rattle.text_build.specs.Reading as generic;
ghost use Rattle.text_build.specs.Reading.{Reads};
ghost use Rattle.text_build.specs.ReadingItem as reading;

use crate::cursor::Cursor;
use crate::fault::BuildFault;
use rtl_tree::symbol::Symbol;
use rtl_tree::tree::expr::Expr;
use rtl_tree::tree::item::{
    Arguments, Instance, Item, NamedArgument, OrderedArgument, ParameterKind,
};

impl<'a> Cursor<'a> {
    /// Whether an argument that begins here is empty.
    fn is_empty_argument(&self) -> bool
        ensures { result ≡ reading.ends_argument (map terminal self.now.rest.now) }
    {
        self.is_next(Symbol::Comma) || self.is_next(Symbol::CloseParen)
    }

    #[tactic(auto, unfolding(crate::specs::ReadingItem::argument_value, crate::specs::Reading::either))]
    fn argument_value(&mut self) -> Result<Option<Expr>, BuildFault>
        ensures { Reads (λ v. option_map formula v)
            (reading.argument_value MAX_NESTING (map terminal self.old.rest.now)) result
            (map terminal self.new.rest.now) }
    {
        if self.is_empty_argument() {
            Ok(None)
        } else {
            let value = self.any_expression()?;
            Ok(Some(value))
        }
    }

    /// The same in a box: what is held by value while more is read is dear to prove.
    fn boxed_argument(&mut self) -> Result<Box<Option<Expr>>, BuildFault>
        ensures { Reads (λ v. option_map formula v.value)
            (reading.argument_value MAX_NESTING (map terminal self.old.rest.now)) result
            (map terminal self.new.rest.now) }
    {
        let read = self.argument_value()?;
        Ok(Box::new(self.alloc, read)?)
    }

    #[tactic(auto, unfolding(crate::specs::ReadingItem::positional))]
    fn ordered_argument(&mut self) -> Result<OrderedArgument, BuildFault>
        ensures { Reads positional (reading.positional MAX_NESTING (map terminal self.old.rest.now))
            result (map terminal self.new.rest.now) }
    {
        let at = self.place()?;
        let value = self.argument_value()?;
        Ok(OrderedArgument { at, value })
    }

    fn listed_ordered(&mut self) -> Result<Vec<OrderedArgument>, BuildFault>
        ensures { Reads (λ all. map positional all.items)
            (generic.listed (reading.positional MAX_NESTING) (map terminal self.old.rest.now))
            result (map terminal self.new.rest.now) }
    {
        let mut all = Vec::new(self.alloc);
        // Each turn takes a token, so these are enough.
        for _turn in 0..self.rest.len() {
            all.push(self.ordered_argument()?)?;
            if !self.take_if(Symbol::Comma) {
                return Ok(all);
            }
        }
        Err(BuildFault::NotSpelled)
    }

    #[tactic(auto, unfolding(crate::specs::ReadingItem::associated))]
    fn named_argument(&mut self) -> Result<NamedArgument, BuildFault>
        ensures { Reads associated (reading.associated MAX_NESTING (map terminal self.old.rest.now))
            result (map terminal self.new.rest.now) }
    {
        let at = self.mark(Symbol::Dot)?;
        let name = self.name()?;
        self.mark(Symbol::OpenParen)?;
        let value = self.boxed_argument()?;
        self.mark(Symbol::CloseParen)?;
        Ok(NamedArgument {
            at,
            name,
            value: Box::into_inner(value),
        })
    }

    fn listed_named(&mut self) -> Result<Vec<NamedArgument>, BuildFault>
        ensures { Reads (λ all. map associated all.items)
            (generic.listed (reading.associated MAX_NESTING) (map terminal self.old.rest.now))
            result (map terminal self.new.rest.now) }
    {
        let mut all = Vec::new(self.alloc);
        // Each turn takes a token, so these are enough.
        for _turn in 0..self.rest.len() {
            all.push(self.named_argument()?)?;
            if !self.take_if(Symbol::Comma) {
                return Ok(all);
            }
        }
        Err(BuildFault::NotSpelled)
    }

    #[tactic(auto, unfolding(crate::specs::ReadingItem::by_position))]
    fn by_position(&mut self) -> Result<Arguments, BuildFault>
        ensures { Reads association (reading.by_position MAX_NESTING
            (map terminal self.old.rest.now)) result (map terminal self.new.rest.now) }
    {
        let all = self.listed_ordered()?;
        Ok(Arguments::Ordered(all))
    }

    #[tactic(auto, unfolding(crate::specs::ReadingItem::by_name))]
    fn by_name(&mut self) -> Result<Arguments, BuildFault>
        ensures { Reads association (reading.by_name MAX_NESTING (map terminal self.old.rest.now))
            result (map terminal self.new.rest.now) }
    {
        let all = self.listed_named()?;
        Ok(Arguments::Named(all))
    }

    /// Arguments, all by position or all by name, as the first is.
    #[tactic(auto, unfolding(crate::specs::ReadingItem::arguments, crate::specs::Reading::either))]
    fn arguments(&mut self) -> Result<Arguments, BuildFault>
        ensures { Reads association (reading.arguments MAX_NESTING (map terminal self.old.rest.now))
            result (map terminal self.new.rest.now) }
    {
        if self.is_next(Symbol::Dot) {
            self.by_name()
        } else {
            self.by_position()
        }
    }

    #[tactic(auto, unfolding(crate::specs::ReadingItem::connections, crate::specs::Reading::either))]
    fn connections(&mut self) -> Result<Arguments, BuildFault>
        ensures { Reads association (reading.connections MAX_NESTING
            (map terminal self.old.rest.now)) result (map terminal self.new.rest.now) }
    {
        if self.is_next(Symbol::CloseParen) {
            Ok(Arguments::Ordered(Vec::new(self.alloc)))
        } else {
            self.arguments()
        }
    }

    #[tactic(auto, unfolding(crate::specs::ReadingItem::instantiation))]
    fn instance(&mut self) -> Result<Instance, BuildFault>
        ensures { Reads instantiation (reading.instantiation MAX_NESTING
            (map terminal self.old.rest.now)) result (map terminal self.new.rest.now) }
    {
        let name = self.name()?;
        self.mark(Symbol::OpenParen)?;
        let connections = self.connections()?;
        self.mark(Symbol::CloseParen)?;
        Ok(Instance { name, connections })
    }

    fn listed_instances(&mut self) -> Result<Vec<Instance>, BuildFault>
        ensures { Reads (λ all. map instantiation all.items)
            (generic.listed (reading.instantiation MAX_NESTING)
            (map terminal self.old.rest.now)) result (map terminal self.new.rest.now) }
    {
        let mut all = Vec::with_capacity(self.alloc, 1)?;
        // Each turn takes a token, so these are enough.
        for _turn in 0..self.rest.len() {
            all.push(self.instance()?)?;
            if !self.take_if(Symbol::Comma) {
                return Ok(all);
            }
        }
        Err(BuildFault::NotSpelled)
    }

    #[tactic(auto, unfolding(crate::specs::ReadingItem::overrides_of))]
    fn overrides(&mut self) -> Result<Arguments, BuildFault>
        ensures { Reads association (reading.overrides_of MAX_NESTING
            (map terminal self.old.rest.now)) result (map terminal self.new.rest.now) }
    {
        self.advance()?;
        self.mark(Symbol::OpenParen)?;
        let arguments = self.arguments()?;
        self.mark(Symbol::CloseParen)?;
        Ok(arguments)
    }

    /// The parameters that an instance sets, none where no `#` comes next.
    #[tactic(auto, unfolding(crate::specs::ReadingItem::overrides, crate::specs::Reading::either))]
    fn optional_overrides(&mut self) -> Result<Arguments, BuildFault>
        ensures { Reads association (reading.overrides MAX_NESTING (map terminal self.old.rest.now))
            result (map terminal self.new.rest.now) }
    {
        if self.is_next(Symbol::Hash) {
            self.overrides()
        } else {
            Ok(Arguments::Ordered(Vec::new(self.alloc)))
        }
    }

    #[tactic(auto, unfolding(crate::specs::ReadingItem::instances))]
    fn instances(&mut self) -> Result<Item, BuildFault>
        ensures { Reads module_item (reading.instances MAX_NESTING (map terminal self.old.rest.now))
            result (map terminal self.new.rest.now) }
    {
        let child = self.name()?;
        let parameters = self.optional_overrides()?;
        let instances = self.listed_instances()?;
        self.mark(Symbol::Semicolon)?;
        Ok(Item::Instances {
            child,
            parameters,
            instances,
        })
    }

    /// An item after its attributes.
    #[tactic(auto, unfolding(crate::specs::ReadingItem::item_after))]
    pub(crate) fn item_after(&mut self) -> Result<Item, BuildFault>
        ensures { Reads module_item (reading.item_after MAX_NESTING
            (map terminal self.old.rest.now)) result (map terminal self.new.rest.now) }
    {
        match self.peek() {
            Some(Symbol::Input) | Some(Symbol::Output) => self.ports(),
            Some(Symbol::Wire) => self.wires(),
            Some(Symbol::Reg) => self.regs(),
            Some(Symbol::Integer) => self.integers(),
            Some(Symbol::Parameter) => self.settings(ParameterKind::Parameter),
            Some(Symbol::Localparam) => self.settings(ParameterKind::Local),
            Some(Symbol::Assign) => self.assigns(),
            Some(Symbol::Always) => self.always(),
            _ => self.instances(),
        }
    }
}
