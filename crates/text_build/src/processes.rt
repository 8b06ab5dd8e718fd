// Builds processes: what an `always` waits for, and its body.

ghost use Rattle.std.specs.Prelude.{◌≡◌, map};
ghost use Rattle.rtl_tree.specs.Symbols.{terminal};
ghost use Rattle.rtl_tree.specs.TreeItem.{happening, sensitivity, module_item};
ghost use Rattle.text_build.specs.Reading as generic;
ghost use Rattle.text_build.specs.Reading.{Reads};
ghost use Rattle.text_build.specs.ReadingItem as reading;
ghost use Rattle.rtl_tree.specs.declared.symbol.Symbol.TheVariants as symbol;

use crate::cursor::Cursor;
use crate::fault::BuildFault;
use rtl_tree::symbol::Symbol;
use rtl_tree::tree::item::{Event, EventControl, EventEdge, Item};
use text_grammar::nesting::MAX_NESTING;

impl<'a> Cursor<'a> {
    #[tactic(auto, unfolding(crate::specs::ReadingItem::edge_of))]
    fn edge(&mut self, edge: EventEdge) -> Result<Event, BuildFault>
        ensures { Reads happening (reading.edge_of edge (map terminal self.old.rest.now)) result
            (map terminal self.new.rest.now) }
    {
        let at = self.advance()?;
        let name = self.name()?;
        Ok(Event::Edge(edge, at, name))
    }

    #[tactic(auto, unfolding(crate::specs::ReadingItem::change, crate::specs::ReadingItem::any_expression))]
    fn change(&mut self) -> Result<Event, BuildFault>
        ensures { Reads happening (reading.change MAX_NESTING (map terminal self.old.rest.now))
            result (map terminal self.new.rest.now) }
    {
        let reference = self.reference(MAX_NESTING)?;
        match reference.into_event() {
            Some(event) => Ok(event),
            None => Err(BuildFault::NotSpelled),
        }
    }

    #[tactic(auto, unfolding(crate::specs::ReadingItem::event))]
    fn event(&mut self) -> Result<Event, BuildFault>
        ensures { Reads happening (reading.event MAX_NESTING (map terminal self.old.rest.now))
            result (map terminal self.new.rest.now) }
    {
        match self.peek() {
            Some(Symbol::Posedge) => self.edge(EventEdge::Posedge),
            Some(Symbol::Negedge) => self.edge(EventEdge::Negedge),
            _ => self.change(),
        }
    }

    /// Takes `or` or a comma if one comes next, and says whether it did.
    #[tactic(auto, unfolding(crate::specs::ReadingItem::joins_events, crate::specs::ReadingItem::after_joint))]
    fn take_joint(&mut self) -> bool
        ensures answer { result ≡ reading.joins_events (map terminal self.old.rest.now) }
        ensures left { map terminal self.new.rest.now
            ≡ reading.after_joint (map terminal self.old.rest.now) }
    {
        if self.is_next(Symbol::Or) {
            self.take_if(Symbol::Or)
        } else {
            self.take_if(Symbol::Comma)
        }
    }

    fn events(&mut self) -> Result<Vec<Event>, BuildFault>
        ensures { Reads (λ all. map happening all.items)
            (reading.events MAX_NESTING (map terminal self.old.rest.now)) result
            (map terminal self.new.rest.now) }
    {
        let mut all = Vec::with_capacity(self.alloc, 1)?;
        // Each turn takes a token, so these are enough.
        for _turn in 0..self.rest.len() {
            all.push(self.event()?)?;
            if !self.take_joint() {
                return Ok(all);
            }
        }
        Err(BuildFault::NotSpelled)
    }

    #[tactic(auto, unfolding(crate::specs::ReadingItem::star))]
    fn star(&mut self) -> Result<EventControl, BuildFault>
        ensures { Reads sensitivity (reading.star (map terminal self.old.rest.now)) result
            (map terminal self.new.rest.now) }
    {
        self.advance()?;
        Ok(EventControl::Star)
    }

    #[tactic(auto, unfolding(crate::specs::ReadingItem::star_in_parens))]
    fn star_in_parens(&mut self) -> Result<EventControl, BuildFault>
        ensures { Reads sensitivity (reading.star_in_parens (map terminal self.old.rest.now)) result
            (map terminal self.new.rest.now) }
    {
        self.advance()?;
        self.mark(Symbol::CloseParen)?;
        Ok(EventControl::StarInParens)
    }

    #[tactic(auto, unfolding(crate::specs::ReadingItem::listed_events))]
    fn listed_events(&mut self) -> Result<EventControl, BuildFault>
        ensures { Reads sensitivity (reading.listed_events MAX_NESTING
            (map terminal self.old.rest.now)) result (map terminal self.new.rest.now) }
    {
        let events = self.events()?;
        self.mark(Symbol::CloseParen)?;
        Ok(EventControl::Events(events))
    }

    #[tactic(auto, unfolding(crate::specs::Reading::either))]
    fn inside_parens(&mut self) -> Result<EventControl, BuildFault>
        ensures { Reads sensitivity (generic.either
            (generic.starts symbol.Star) reading.star_in_parens
            (reading.listed_events MAX_NESTING) (map terminal self.old.rest.now)) result
            (map terminal self.new.rest.now) }
    {
        if self.is_next(Symbol::Star) {
            self.star_in_parens()
        } else {
            self.listed_events()
        }
    }

    #[tactic(auto, unfolding(crate::specs::ReadingItem::in_parens))]
    fn in_parens(&mut self) -> Result<EventControl, BuildFault>
        ensures { Reads sensitivity (reading.in_parens MAX_NESTING (map terminal self.old.rest.now))
            result (map terminal self.new.rest.now) }
    {
        self.mark(Symbol::OpenParen)?;
        self.inside_parens()
    }

    /// What an `always` waits for, after its `@`.
    #[tactic(auto, unfolding(crate::specs::ReadingItem::sensitivity, crate::specs::Reading::either))]
    fn control(&mut self) -> Result<EventControl, BuildFault>
        ensures { Reads sensitivity (reading.sensitivity MAX_NESTING
            (map terminal self.old.rest.now)) result (map terminal self.new.rest.now) }
    {
        if self.is_next(Symbol::Star) {
            self.star()
        } else {
            self.in_parens()
        }
    }

    /// The same in a box: what is held by value while more is read is dear to prove.
    fn boxed_control(&mut self) -> Result<Box<EventControl>, BuildFault>
        ensures { Reads (λ c. sensitivity c.value)
            (reading.sensitivity MAX_NESTING (map terminal self.old.rest.now)) result
            (map terminal self.new.rest.now) }
    {
        let read = self.control()?;
        Ok(Box::new(self.alloc, read)?)
    }

    #[tactic(auto, unfolding(crate::specs::ReadingItem::always))]
    pub fn always(&mut self) -> Result<Item, BuildFault>
        ensures { Reads module_item (reading.always MAX_NESTING (map terminal self.old.rest.now))
            result (map terminal self.new.rest.now) }
    {
        let at = self.advance()?;
        self.mark(Symbol::At)?;
        let control = self.boxed_control()?;
        let body = self.statement(MAX_NESTING)?;
        Ok(Item::Always(at, Box::into_inner(control), body))
    }
}
