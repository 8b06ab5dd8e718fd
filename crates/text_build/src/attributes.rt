// Passes over attributes (IEEE 1364-2001 section 2.8) and the values that aren't kept.

ghost use Rattle.std.specs.Prelude.{◌≡◌, ◌+◌, ◌<◌, ◌^◌, map};
ghost use Rattle.rtl_tree.specs.Symbols.{terminal};
ghost use Rattle.text_build.specs.Reading as generic;
ghost use Rattle.text_build.specs.Reading.{Reads};
ghost use Rattle.text_build.specs.ReadingStmt as reading;
ghost use Rattle.rtl_tree.specs.declared.symbol.Symbol.TheVariants as symbol;

use crate::cursor::Cursor;
use crate::fault::BuildFault;
use rtl_tree::symbol::Symbol;

/// What is said of a case by the attributes directly before it.
#[derive(Clone, Copy, Debug)]
pub struct Marks {
    /// `full_case`
    pub full: bool,
    /// `parallel_case`
    pub parallel: bool,
}

/// What a token is to a value that is passed over.
#[derive(Clone, Copy, Debug)]
enum Role {
    /// It opens a bracket.
    Opens,
    /// It closes a bracket.
    Closes,
    /// Outside brackets the value ends before it.
    Ends,
    Inside,
}

fn role_of(symbol: Symbol) -> Role
    ensures { result ≡ reading.role_of symbol }
{
    match symbol {
        Symbol::OpenParen | Symbol::OpenBracket | Symbol::OpenBrace => Role::Opens,
        Symbol::CloseParen | Symbol::CloseBracket | Symbol::CloseBrace => Role::Closes,
        Symbol::Comma | Symbol::Semicolon | Symbol::CloseAttribute => Role::Ends,
        _ => Role::Inside,
    }
}

/// How many brackets are open after a token; `None` where the value ends before it.
fn open_after(role: Role, count: usize) -> Option<usize>
    requires { count + 1 < 2 ^ 64 }
    ensures { result ≡ reading.open_after role count }
{
    match role {
        Role::Opens => Some(count + 1),
        Role::Closes => Some(count.saturating_sub(1)),
        Role::Inside => Some(count),
        Role::Ends => { if count == 0 { None } else { Some(count) } }
    }
}

impl Marks {
    /// With what an attribute of this name says.
    fn with_name(self, name: &[u8]) -> Marks
        ensures { result ≡ reading.with_name name.now self }
    {
        Marks {
            full: self.full || name == b"full_case".as_slice(),
            parallel: self.parallel || name == b"parallel_case".as_slice(),
        }
    }

    /// With what pragmas say.
    pub(crate) fn with_pragmas(self, full: bool, parallel: bool) -> Marks
        ensures { result ≡ reading.with_pragmas self full parallel }
    {
        Marks {
            full: self.full || full,
            parallel: self.parallel || parallel,
        }
    }
}

impl<'a> Cursor<'a> {
    /// Passes over a value, however deep it is nested.
    fn pass(&mut self)
        ensures { map terminal self.new.rest.now ≡ reading.past 0 (map terminal self.old.rest.now) }
    {
        let mut count: usize = 0;
        // Each turn takes a token, so these are enough.
        for _turn in 0..self.rest.len() {
            let [token, rest @ ..] = self.rest else {
                return;
            };
            let Some(after) = open_after(role_of(token.symbol), count) else {
                return;
            };
            count = after;
            self.rest = rest;
        }
    }

    /// Passes over `=` and a value where they come next, and says whether they did.
    #[tactic(auto, unfolding(crate::specs::ReadingStmt::after_value))]
    pub(crate) fn pass_value(&mut self) -> bool
        ensures answer { result ≡ generic.starts symbol.Equals (map terminal self.old.rest.now) }
        ensures left { map terminal self.new.rest.now
            ≡ reading.after_value (map terminal self.old.rest.now) }
    {
        if self.take_if(Symbol::Equals) {
            self.pass();
            true
        } else {
            false
        }
    }

    /// One attribute after others.
    #[tactic(auto, unfolding(crate::specs::ReadingStmt::attribute))]
    fn attribute(&mut self, marks: Marks) -> Result<Marks, BuildFault>
        ensures { Reads (λ m. m) (reading.attribute marks (map terminal self.old.rest.now)) result
            (map terminal self.new.rest.now) }
    {
        let word = self.token(Symbol::Name)?;
        self.pass_value();
        Ok(marks.with_name(word.text))
    }

    fn attributes_in(&mut self, before: Marks) -> Result<Marks, BuildFault>
        ensures { Reads (λ m. m) (generic.commas reading.attribute before
            (map terminal self.old.rest.now)) result (map terminal self.new.rest.now) }
    {
        let mut marks = before;
        // Each turn takes a token, so these are enough.
        for _turn in 0..self.rest.len() {
            marks = self.attribute(marks)?;
            if !self.take_if(Symbol::Comma) {
                return Ok(marks);
            }
        }
        Err(BuildFault::NotSpelled)
    }

    /// The attributes in one pair of marks, after others.
    #[tactic(auto, unfolding(crate::specs::ReadingStmt::marked))]
    fn marked(&mut self, before: Marks) -> Result<Marks, BuildFault>
        ensures { Reads (λ m. m) (reading.marked before (map terminal self.old.rest.now)) result
            (map terminal self.new.rest.now) }
    {
        self.advance()?;
        let marks = self.attributes_in(before)?;
        self.mark(Symbol::CloseAttribute)?;
        Ok(marks)
    }

    /// All attributes before an item or a statement.
    pub fn attributes(&mut self) -> Result<Marks, BuildFault>
        ensures { Reads (λ m. m) (reading.attributes (map terminal self.old.rest.now)) result
            (map terminal self.new.rest.now) }
    {
        let mut marks = Marks {
            full: false,
            parallel: false,
        };
        // Each turn takes a token, so these are enough.
        for _turn in 0..self.rest.len() {
            if !self.is_next(Symbol::OpenAttribute) {
                return Ok(marks);
            }
            marks = self.marked(marks)?;
        }
        Ok(marks)
    }
}
