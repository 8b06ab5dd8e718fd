// Builds modules.

ghost use Rattle.std.specs.Prelude.{◌≡◌, map};
ghost use Rattle.std.specs.Option.{option_map};
ghost use Rattle.rtl_tree.specs.Symbols.{terminal};
ghost use Rattle.rtl_tree.specs.TreeItem.{head};
ghost use Rattle.rtl_tree.specs.TreeWritten.{written_item};
ghost use Rattle.rtl_tree.specs.TreeModule.{heading, header_parameter, header_port, header, written_circuit};
ghost use Rattle.text_build.specs.Reading as generic;
ghost use Rattle.text_build.specs.Reading.{Reads};
ghost use Rattle.text_build.specs.ReadingModule as reading;
ghost use Rattle.text_build.specs.Told.{told};
ghost use Rattle.rtl_tree.specs.declared.symbol.Symbol.TheVariants as symbol;
ghost use Rattle.text_grammar.specs.declared.nesting.TheConstants.{MAX_NESTING};

use crate::cursor::Cursor;
use crate::fault::BuildFault;
use crate::regions::Regions;
use rtl_tree::symbol::Symbol;
use rtl_tree::tree::item::PortHead;
use rtl_tree::tree::modules::{HeadParameter, HeadPort, ParameterHead, PortList, WrittenModule};
use rtl_tree::tree::written::WrittenItem;
use text_grammar::nesting::MAX_NESTING;

impl<'a> Cursor<'a> {
    fn items(&mut self) -> Result<Vec<WrittenItem>, BuildFault>
        ensures { Reads (λ all. map written_item all.items)
            (generic.until symbol.Endmodule (reading.item MAX_NESTING)
            (map terminal self.old.rest.now)) result (map terminal self.new.rest.now) }
    {
        self.items_before(Symbol::Endmodule, MAX_NESTING)
    }

    #[tactic(auto, unfolding(crate::specs::ReadingModule::heading))]
    fn parameter_head(&mut self) -> Result<ParameterHead, BuildFault>
        ensures { Reads heading (reading.heading MAX_NESTING (map terminal self.old.rest.now))
            result (map terminal self.new.rest.now) }
    {
        let at = self.advance()?;
        let range = self.optional_range()?;
        Ok(ParameterHead { at, range })
    }

    /// In a box: what is held by value while more is read is dear to prove.
    #[tactic(auto, unfolding(crate::specs::Reading::optional, crate::specs::Reading::either))]
    fn optional_parameter_head(&mut self) -> Result<Box<Option<ParameterHead>>, BuildFault>
        ensures { Reads (λ h. option_map heading h.value)
            (generic.optional symbol.Parameter (reading.heading MAX_NESTING)
            (map terminal self.old.rest.now)) result (map terminal self.new.rest.now) }
    {
        if self.is_next(Symbol::Parameter) {
            let head = self.parameter_head()?;
            Ok(Box::new(self.alloc, Some(head))?)
        } else {
            Ok(Box::new(self.alloc, None)?)
        }
    }

    #[tactic(auto, unfolding(crate::specs::ReadingModule::parameter))]
    fn head_parameter(&mut self) -> Result<HeadParameter, BuildFault>
        ensures { Reads header_parameter
            (reading.parameter MAX_NESTING (map terminal self.old.rest.now)) result
            (map terminal self.new.rest.now) }
    {
        let head = self.optional_parameter_head()?;
        let name = self.name()?;
        let value = self.value()?;
        Ok(HeadParameter {
            head: Box::into_inner(head),
            name,
            value,
        })
    }

    fn listed_parameters(&mut self) -> Result<Vec<HeadParameter>, BuildFault>
        ensures { Reads (λ all. map header_parameter all.items)
            (generic.listed (reading.parameter MAX_NESTING) (map terminal self.old.rest.now))
            result (map terminal self.new.rest.now) }
    {
        let mut all = Vec::new(self.alloc);
        // Each turn takes a token, so these are enough.
        for _turn in 0..self.rest.len() {
            all.push(self.head_parameter()?)?;
            if !self.take_if(Symbol::Comma) {
                return Ok(all);
            }
        }
        Err(BuildFault::NotSpelled)
    }

    #[tactic(auto, unfolding(crate::specs::ReadingModule::parameters_of))]
    fn parameters(&mut self) -> Result<Vec<HeadParameter>, BuildFault>
        ensures { Reads (λ all. map header_parameter all.items)
            (reading.parameters_of MAX_NESTING (map terminal self.old.rest.now)) result
            (map terminal self.new.rest.now) }
    {
        self.advance()?;
        self.mark(Symbol::OpenParen)?;
        let parameters = self.listed_parameters()?;
        self.mark(Symbol::CloseParen)?;
        Ok(parameters)
    }

    #[tactic(auto, unfolding(crate::specs::ReadingModule::parameters, crate::specs::Reading::either))]
    fn optional_parameters(&mut self) -> Result<Vec<HeadParameter>, BuildFault>
        ensures { Reads (λ all. map header_parameter all.items)
            (reading.parameters MAX_NESTING (map terminal self.old.rest.now)) result
            (map terminal self.new.rest.now) }
    {
        if self.is_next(Symbol::Hash) {
            self.parameters()
        } else {
            Ok(Vec::new(self.alloc))
        }
    }

    fn is_head_next(&self) -> bool
        ensures { result ≡ reading.starts_head (map terminal self.now.rest.now) }
    {
        self.is_next(Symbol::Input) || self.is_next(Symbol::Output)
    }

    #[tactic(auto, unfolding(crate::specs::ReadingModule::own_head, crate::specs::Reading::either))]
    fn own_head(&mut self) -> Result<Box<Option<PortHead>>, BuildFault>
        ensures { Reads (λ h. option_map head h.value)
            (reading.own_head MAX_NESTING (map terminal self.old.rest.now)) result
            (map terminal self.new.rest.now) }
    {
        if self.is_head_next() {
            let head = self.port_head()?;
            Ok(Box::new(self.alloc, Some(head))?)
        } else {
            Ok(Box::new(self.alloc, None)?)
        }
    }

    #[tactic(auto, unfolding(crate::specs::ReadingModule::port))]
    fn head_port(&mut self) -> Result<HeadPort, BuildFault>
        ensures { Reads header_port (reading.port MAX_NESTING (map terminal self.old.rest.now))
            result (map terminal self.new.rest.now) }
    {
        let head = self.own_head()?;
        let name = self.name()?;
        Ok(HeadPort {
            head: Box::into_inner(head),
            name,
        })
    }

    fn listed_ports(&mut self) -> Result<Vec<HeadPort>, BuildFault>
        ensures { Reads (λ all. map header_port all.items)
            (generic.listed (reading.port MAX_NESTING) (map terminal self.old.rest.now)) result
            (map terminal self.new.rest.now) }
    {
        let mut all = Vec::new(self.alloc);
        // Each turn takes a token, so these are enough.
        for _turn in 0..self.rest.len() {
            all.push(self.head_port()?)?;
            if !self.take_if(Symbol::Comma) {
                return Ok(all);
            }
        }
        Err(BuildFault::NotSpelled)
    }

    #[tactic(auto, unfolding(crate::specs::ReadingModule::declared))]
    fn declared_ports(&mut self) -> Result<PortList, BuildFault>
        ensures { Reads header (reading.declared MAX_NESTING (map terminal self.old.rest.now))
            result (map terminal self.new.rest.now) }
    {
        let ports = self.listed_ports()?;
        self.mark(Symbol::CloseParen)?;
        Ok(PortList::Declared(ports))
    }

    #[tactic(auto, unfolding(crate::specs::ReadingModule::named))]
    fn named_ports(&mut self) -> Result<PortList, BuildFault>
        ensures { Reads header (reading.named (map terminal self.old.rest.now)) result
            (map terminal self.new.rest.now) }
    {
        let names = self.names()?;
        self.mark(Symbol::CloseParen)?;
        Ok(PortList::Named(names))
    }

    #[tactic(auto, unfolding(crate::specs::ReadingModule::empty))]
    fn no_ports(&mut self) -> Result<PortList, BuildFault>
        ensures { Reads header (reading.empty (map terminal self.old.rest.now)) result
            (map terminal self.new.rest.now) }
    {
        self.advance()?;
        Ok(PortList::Empty)
    }

    #[tactic(auto, unfolding(crate::specs::Reading::either))]
    fn some_ports(&mut self) -> Result<PortList, BuildFault>
        ensures { Reads header (generic.either reading.starts_head
            (reading.declared MAX_NESTING) reading.named (map terminal self.old.rest.now))
            result (map terminal self.new.rest.now) }
    {
        if self.is_head_next() {
            self.declared_ports()
        } else {
            self.named_ports()
        }
    }

    #[tactic(auto, unfolding(crate::specs::Reading::either))]
    fn ports_in_parens(&mut self) -> Result<PortList, BuildFault>
        ensures { Reads header (generic.either (generic.starts symbol.CloseParen) reading.empty
            (generic.either reading.starts_head (reading.declared MAX_NESTING) reading.named)
            (map terminal self.old.rest.now)) result (map terminal self.new.rest.now) }
    {
        if self.is_next(Symbol::CloseParen) {
            self.no_ports()
        } else {
            self.some_ports()
        }
    }

    #[tactic(auto, unfolding(crate::specs::ReadingModule::port_list))]
    fn port_list(&mut self) -> Result<PortList, BuildFault>
        ensures { Reads header (reading.port_list MAX_NESTING (map terminal self.old.rest.now))
            result (map terminal self.new.rest.now) }
    {
        self.advance()?;
        self.ports_in_parens()
    }

    #[tactic(auto, unfolding(crate::specs::ReadingModule::header, crate::specs::Reading::either))]
    fn optional_ports(&mut self) -> Result<PortList, BuildFault>
        ensures { Reads header (reading.header MAX_NESTING (map terminal self.old.rest.now)) result
            (map terminal self.new.rest.now) }
    {
        if self.is_next(Symbol::OpenParen) {
            self.port_list()
        } else {
            Ok(PortList::Absent)
        }
    }

    /// A module after its attributes.
    #[tactic(auto, unfolding(crate::specs::ReadingModule::circuit_after))]
    fn module_after(&mut self, regions: &Regions) -> Result<WrittenModule, BuildFault>
        ensures { Reads written_circuit (reading.circuit_after MAX_NESTING (told regions.now)
            (map terminal self.old.rest.now)) result (map terminal self.new.rest.now) }
    {
        let at = self.mark(Symbol::Module)?;
        let name = self.name()?;
        let parameters = self.optional_parameters()?;
        let ports = self.optional_ports()?;
        self.mark(Symbol::Semicolon)?;
        let items = self.items()?;
        let last = self.mark(Symbol::Endmodule)?;
        let dropped = regions.between(self.alloc, at, last)?;
        Ok(WrittenModule {
            at,
            name,
            parameters,
            ports,
            items,
            dropped,
        })
    }

    #[tactic(auto, unfolding(crate::specs::ReadingModule::circuit))]
    fn module(&mut self, regions: &Regions) -> Result<WrittenModule, BuildFault>
        ensures { Reads written_circuit (reading.circuit MAX_NESTING (told regions.now)
            (map terminal self.old.rest.now)) result (map terminal self.new.rest.now) }
    {
        self.attributes()?;
        self.module_after(regions)
    }

    /// Whether a token is left.
    pub fn is_more(&self) -> bool
        ensures { result ≡ reading.is_more (map terminal self.now.rest.now) }
    {
        match self.rest {
            [_, ..] => true,
            [] => false,
        }
    }

    /// All modules, to the end of the tokens.
    pub fn modules(&mut self, regions: &Regions) -> Result<Vec<WrittenModule>, BuildFault>
        ensures { Reads (λ all. map written_circuit all.items)
            (reading.circuits MAX_NESTING (told regions.now) (map terminal self.old.rest.now))
            result (map terminal self.new.rest.now) }
    {
        let mut all = Vec::new(self.alloc);
        // Each turn takes a token, so these are enough.
        for _turn in 0..self.rest.len() {
            if !self.is_more() {
                return Ok(all);
            }
            all.push(self.module(regions)?)?;
        }
        Ok(all)
    }
}
