// Builds generate constructs (IEEE 1364-2001 section 12.1.3), and the items of a module with these among them.

ghost use Rattle.std.specs.Prelude.{◌≡◌, map};
ghost use Rattle.rtl_tree.specs.Symbols.{terminal};
ghost use Rattle.rtl_tree.specs.TreeExpr.{formula};
ghost use Rattle.rtl_tree.specs.TreeWritten as tree;
ghost use Rattle.rtl_tree.specs.TreeWritten.{choice, made, written_item};
ghost use Rattle.text_build.specs.Reading as generic;
ghost use Rattle.text_build.specs.Reading.{Reads};
ghost use Rattle.text_build.specs.ReadingExpr.{expression};
ghost use Rattle.text_build.specs.ReadingGenerate as reading;
ghost use Rattle.rtl_tree.specs.declared.symbol.Symbol.TheVariants as symbol;
ghost use Rattle.text_grammar.specs.declared.nesting.TheConstants.{MAX_NESTING};

use crate::cursor::Cursor;
use crate::fault::BuildFault;
use rtl_tree::symbol::Symbol;
use rtl_tree::tree::expr::Expr;
use rtl_tree::tree::written::{GenerateBlock, GenerateChoice, WrittenItem};

impl<'a> Cursor<'a> {
    #[tactic(auto, unfolding(crate::specs::ReadingGenerate::genvars))]
    fn genvars(&mut self) -> Result<WrittenItem, BuildFault>
        ensures { Reads written_item (reading.genvars (map terminal self.old.rest.now)) result
            (map terminal self.new.rest.now) }
    {
        let at = self.advance()?;
        let names = self.names()?;
        self.mark(Symbol::Semicolon)?;
        Ok(WrittenItem::Genvars(at, names))
    }

    /// An item after its attributes in which no other stands.
    #[tactic(auto, unfolding(crate::specs::ReadingGenerate::simple, crate::specs::Reading::either))]
    fn simple_after(&mut self) -> Result<WrittenItem, BuildFault>
        ensures { Reads written_item (reading.simple MAX_NESTING (map terminal self.old.rest.now))
            result (map terminal self.new.rest.now) }
    {
        if self.is_next(Symbol::Genvar) {
            self.genvars()
        } else {
            self.written_after()
        }
    }

    #[tactic(auto, unfolding(crate::specs::ReadingGenerate::item))]
    fn simple_item(&mut self) -> Result<WrittenItem, BuildFault>
        ensures { Reads written_item (reading.item MAX_NESTING 0 (map terminal self.old.rest.now))
            result (map terminal self.new.rest.now) }
    {
        self.attributes()?;
        self.simple_after()
    }

    /// An item with its attributes, where constructs are nested at most `depth` deep.
    #[cycle(generate)]
    fn item(&mut self, depth: u32) -> Result<WrittenItem, BuildFault>
        ensures { Reads written_item (reading.item MAX_NESTING depth
            (map terminal self.old.rest.now)) result (map terminal self.new.rest.now) }
    {
        if depth == 0 {
            return self.simple_item();
        }
        self.item_within(depth - 1)
    }

    /// The items before a token of this symbol.
    #[cycle(generate)]
    pub(crate) fn items_before(
        &mut self,
        end: Symbol,
        depth: u32,
    ) -> Result<Vec<WrittenItem>, BuildFault>
        ensures { Reads (λ all. map written_item all.items)
            (generic.until end (reading.item MAX_NESTING depth) (map terminal self.old.rest.now))
            result (map terminal self.new.rest.now) }
    {
        let mut all = Vec::new(self.alloc);
        // Each turn takes a token, so these are enough.
        for _turn in 0..self.rest.len() {
            if self.is_next(end) {
                return Ok(all);
            }
            all.push(self.item(depth)?)?;
        }
        Ok(all)
    }

    /// An item with its attributes, where one comes next that may hold others.
    #[cycle(generate)]
    #[tactic(auto, unfolding(crate::specs::ReadingGenerate::within))]
    fn item_within(&mut self, depth: u32) -> Result<WrittenItem, BuildFault>
        ensures { Reads written_item (reading.within (reading.simple MAX_NESTING)
            (expression depth) (reading.item MAX_NESTING depth) (map terminal self.old.rest.now))
            result (map terminal self.new.rest.now) }
    {
        match self.peek() {
            Some(Symbol::If) => self.generate_if(depth),
            Some(Symbol::Case) => self.generate_case(depth),
            Some(Symbol::For) => self.generate_for(depth),
            _ => self.marked_item(depth),
        }
    }

    #[cycle(generate)]
    #[tactic(auto, unfolding(crate::specs::ReadingGenerate::marked))]
    fn marked_item(&mut self, depth: u32) -> Result<WrittenItem, BuildFault>
        ensures { Reads written_item (reading.marked (reading.simple MAX_NESTING)
            (reading.item MAX_NESTING depth) (map terminal self.old.rest.now)) result
            (map terminal self.new.rest.now) }
    {
        self.attributes()?;
        self.region_or_simple(depth)
    }

    #[cycle(generate)]
    #[tactic(auto, unfolding(crate::specs::Reading::either))]
    fn region_or_simple(&mut self, depth: u32) -> Result<WrittenItem, BuildFault>
        ensures { Reads written_item (generic.either (generic.starts symbol.Generate)
            (reading.region (reading.item MAX_NESTING depth)) (reading.simple MAX_NESTING)
            (map terminal self.old.rest.now)) result (map terminal self.new.rest.now) }
    {
        if self.is_next(Symbol::Generate) {
            self.region(depth)
        } else {
            self.simple_after()
        }
    }

    #[cycle(generate)]
    #[tactic(auto, unfolding(crate::specs::ReadingGenerate::region))]
    fn region(&mut self, depth: u32) -> Result<WrittenItem, BuildFault>
        ensures { Reads written_item (reading.region (reading.item MAX_NESTING depth)
            (map terminal self.old.rest.now)) result (map terminal self.new.rest.now) }
    {
        let at = self.advance()?;
        let items = self.items_before(Symbol::Endgenerate, depth)?;
        self.mark(Symbol::Endgenerate)?;
        Ok(WrittenItem::region(at, items))
    }

    /// What a construct makes.
    #[cycle(generate)]
    #[tactic(auto, unfolding(crate::specs::ReadingGenerate::made))]
    fn made(&mut self, depth: u32) -> Result<GenerateBlock, BuildFault>
        ensures { Reads made (reading.made (reading.item MAX_NESTING depth)
            (map terminal self.old.rest.now)) result (map terminal self.new.rest.now) }
    {
        match self.peek() {
            Some(Symbol::Semicolon) => self.made_null(),
            Some(Symbol::Begin) => self.made_block(depth),
            _ => self.made_single(depth),
        }
    }

    /// The same in a box: what is held by value while more is read is dear to prove.
    #[cycle(generate)]
    fn boxed_made(&mut self, depth: u32) -> Result<Box<GenerateBlock>, BuildFault>
        ensures { Reads (λ b. made b.value) (reading.made (reading.item MAX_NESTING depth)
            (map terminal self.old.rest.now)) result (map terminal self.new.rest.now) }
    {
        let read = self.made(depth)?;
        Ok(Box::new(self.alloc, read)?)
    }

    #[tactic(auto, unfolding(crate::specs::ReadingGenerate::null))]
    fn made_null(&mut self) -> Result<GenerateBlock, BuildFault>
        ensures { Reads made (reading.null (map terminal self.old.rest.now)) result
            (map terminal self.new.rest.now) }
    {
        let at = self.advance()?;
        Ok(GenerateBlock::Null(at))
    }

    #[cycle(generate)]
    #[tactic(auto, unfolding(crate::specs::ReadingGenerate::single))]
    fn made_single(&mut self, depth: u32) -> Result<GenerateBlock, BuildFault>
        ensures { Reads made (reading.single (reading.item MAX_NESTING depth)
            (map terminal self.old.rest.now)) result (map terminal self.new.rest.now) }
    {
        let item = self.item(depth)?;
        Ok(GenerateBlock::Single(Box::new(self.alloc, item)?))
    }

    #[cycle(generate)]
    #[tactic(auto, unfolding(crate::specs::ReadingGenerate::block))]
    fn made_block(&mut self, depth: u32) -> Result<GenerateBlock, BuildFault>
        ensures { Reads made (reading.block (reading.item MAX_NESTING depth)
            (map terminal self.old.rest.now)) result (map terminal self.new.rest.now) }
    {
        let at = self.advance()?;
        let label = self.optional_label()?;
        let items = self.items_before(Symbol::End, depth)?;
        self.mark(Symbol::End)?;
        Ok(GenerateBlock::block(at, label, items))
    }

    #[cycle(generate)]
    #[tactic(auto, unfolding(crate::specs::ReadingGenerate::conditional))]
    fn generate_if(&mut self, depth: u32) -> Result<WrittenItem, BuildFault>
        ensures { Reads written_item (reading.conditional (expression depth)
            (reading.made (reading.item MAX_NESTING depth)) (map terminal self.old.rest.now))
            result (map terminal self.new.rest.now) }
    {
        let at = self.advance()?;
        self.mark(Symbol::OpenParen)?;
        let condition = self.boxed_expression(depth)?;
        self.mark(Symbol::CloseParen)?;
        let taken = self.boxed_made(depth)?;
        self.after_made(depth, at, condition, taken)
    }

    /// An `else` that comes next belongs to this `if`.
    #[cycle(generate)]
    #[tactic(auto, unfolding(crate::specs::Reading::either))]
    fn after_made(
        &mut self,
        depth: u32,
        at: u32,
        condition: Box<Expr>,
        taken: Box<GenerateBlock>,
    ) -> Result<WrittenItem, BuildFault>
        ensures { Reads written_item (generic.either (generic.starts symbol.Else)
            (reading.alternative (reading.made (reading.item MAX_NESTING depth)) at
            (formula condition.value) (made taken.value)) (generic.pure
            (tree.If at (formula condition.value) (made taken.value)))
            (map terminal self.old.rest.now)) result (map terminal self.new.rest.now) }
    {
        if self.is_next(Symbol::Else) {
            self.generate_else(depth, at, condition, taken)
        } else {
            Ok(WrittenItem::If(at, Box::into_inner(condition), Box::into_inner(taken)))
        }
    }

    #[cycle(generate)]
    #[tactic(auto, unfolding(crate::specs::ReadingGenerate::alternative))]
    fn generate_else(
        &mut self,
        depth: u32,
        at: u32,
        condition: Box<Expr>,
        taken: Box<GenerateBlock>,
    ) -> Result<WrittenItem, BuildFault>
        ensures { Reads written_item (reading.alternative
            (reading.made (reading.item MAX_NESTING depth)) at (formula condition.value)
            (made taken.value) (map terminal self.old.rest.now)) result
            (map terminal self.new.rest.now) }
    {
        self.advance()?;
        let otherwise = self.boxed_made(depth)?;
        Ok(WrittenItem::IfElse(
            at,
            Box::into_inner(condition),
            Box::into_inner(taken),
            Box::into_inner(otherwise),
        ))
    }

    #[cycle(generate)]
    #[tactic(auto, unfolding(crate::specs::ReadingGenerate::case_of))]
    fn generate_case(&mut self, depth: u32) -> Result<WrittenItem, BuildFault>
        ensures { Reads written_item (reading.case_of (expression depth)
            (reading.made (reading.item MAX_NESTING depth)) (map terminal self.old.rest.now))
            result (map terminal self.new.rest.now) }
    {
        let at = self.advance()?;
        self.mark(Symbol::OpenParen)?;
        let selector = self.boxed_expression(depth)?;
        self.mark(Symbol::CloseParen)?;
        let choices = self.choices(depth)?;
        self.mark(Symbol::Endcase)?;
        Ok(WrittenItem::case(at, Box::into_inner(selector), choices))
    }

    #[cycle(generate)]
    fn choices(&mut self, depth: u32) -> Result<Vec<GenerateChoice>, BuildFault>
        ensures { Reads (λ all. map choice all.items)
            (generic.until symbol.Endcase (reading.choice (expression depth)
            (reading.made (reading.item MAX_NESTING depth))) (map terminal self.old.rest.now))
            result (map terminal self.new.rest.now) }
    {
        let mut all = Vec::new(self.alloc);
        // Each turn takes a token, so these are enough.
        for _turn in 0..self.rest.len() {
            if self.is_next(Symbol::Endcase) {
                return Ok(all);
            }
            all.push(self.generate_choice(depth)?)?;
        }
        Ok(all)
    }

    #[cycle(generate)]
    #[tactic(auto, unfolding(crate::specs::ReadingGenerate::choice, crate::specs::Reading::either))]
    fn generate_choice(&mut self, depth: u32) -> Result<GenerateChoice, BuildFault>
        ensures { Reads choice (reading.choice (expression depth)
            (reading.made (reading.item MAX_NESTING depth)) (map terminal self.old.rest.now))
            result (map terminal self.new.rest.now) }
    {
        if self.is_next(Symbol::Default) {
            self.default_choice(depth)
        } else {
            self.labelled_choice(depth)
        }
    }

    #[cycle(generate)]
    #[tactic(auto, unfolding(crate::specs::ReadingGenerate::otherwise, crate::specs::ReadingStmt::no_colon))]
    fn default_choice(&mut self, depth: u32) -> Result<GenerateChoice, BuildFault>
        ensures { Reads choice (reading.otherwise (reading.made (reading.item MAX_NESTING depth))
            (map terminal self.old.rest.now)) result (map terminal self.new.rest.now) }
    {
        let at = self.advance()?;
        self.take_if(Symbol::Colon);
        let body = self.made(depth)?;
        Ok(GenerateChoice::Default(at, body))
    }

    #[cycle(generate)]
    #[tactic(auto, unfolding(crate::specs::ReadingGenerate::labelled))]
    fn labelled_choice(&mut self, depth: u32) -> Result<GenerateChoice, BuildFault>
        ensures { Reads choice (reading.labelled (expression depth)
            (reading.made (reading.item MAX_NESTING depth)) (map terminal self.old.rest.now))
            result (map terminal self.new.rest.now) }
    {
        let labels = self.listed_expressions(depth)?;
        self.mark(Symbol::Colon)?;
        let body = self.made(depth)?;
        Ok(GenerateChoice::Labelled(labels, body))
    }

    #[cycle(generate)]
    #[tactic(auto, unfolding(crate::specs::ReadingGenerate::loop_of))]
    fn generate_for(&mut self, depth: u32) -> Result<WrittenItem, BuildFault>
        ensures { Reads written_item (reading.loop_of (expression depth)
            (reading.made (reading.item MAX_NESTING depth)) (map terminal self.old.rest.now))
            result (map terminal self.new.rest.now) }
    {
        let at = self.advance()?;
        self.mark(Symbol::OpenParen)?;
        let first = self.step(depth)?;
        self.mark(Symbol::Semicolon)?;
        let condition = self.boxed_expression(depth)?;
        self.mark(Symbol::Semicolon)?;
        let next = self.step(depth)?;
        self.mark(Symbol::CloseParen)?;
        let body = self.boxed_made(depth)?;
        Ok(WrittenItem::For {
            at,
            index: first.name,
            start: Box::into_inner(first.value),
            condition: Box::into_inner(condition),
            stepped: next.name,
            step: Box::into_inner(next.value),
            body: Box::into_inner(body),
        })
    }
}
