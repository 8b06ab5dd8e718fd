// Directives and conditional text, read from left to right.

ghost use Rattle.std.specs.Prelude.{◌≡◌, ◌≤◌, length, take, drop};
ghost use Rattle.rtl_prep.specs.Stops.{Tells};
ghost use Rattle.rtl_prep.specs.Reading as spec;
ghost use Rattle.rtl_prep.specs.Tables.{seen, table};

use crate::directive::{
    Chain, Group, Known, directive_of, free, line_len, name_of, named, refused,
};
use crate::fault::PrepFault;
use crate::replace::{Replacer, is_directive};
use crate::word::{is_mark, slice};
use rtl_tree::token::Token;
use std::alloc::Global;
use std::collections::LinkedList;

/// A place in a text, and what was read before it. After an `Err` it is of no use.
#[derive(Drop)]
pub struct Reader<'a> {
    pub alloc: Global,
    pub text: &'a [u8],
    /// How many of the next tokens were read with a directive.
    pub passed: usize,
    /// The innermost first.
    pub chains: LinkedList<Chain>,
    pub replacer: Replacer<'a>,
}

impl<'a> Reader<'a> {
    #[tactic(auto, unfolding(crate::specs::Reading::endif))]
    fn endif(&mut self, token: Token) -> Result<(), PrepFault>
        ensures text { self.new.text.now ≡ self.old.text.now }
        ensures same { self.new.replacer.text.now ≡ self.old.replacer.text.now }
        ensures step { Tells (λ _. seen self.new) (spec.endif (seen self.old) token) result }
    {
        match self.chains.pop_front() {
            Some(_) => {
                self.passed = 0;
                Ok(())
            }
            None => Err(PrepFault::Unbalanced(token.at)),
        }
    }

    #[tactic(auto, unfolding(crate::specs::Reading::undef))]
    fn undef(&mut self, token: Token, rest: &'a [Token]) -> Result<(), PrepFault>
        ensures text { self.new.text.now ≡ self.old.text.now }
        ensures same { self.new.replacer.text.now ≡ self.old.replacer.text.now }
        ensures step { Tells (λ _. seen self.new)
            (spec.undef self.old.text.now rest.now (seen self.old) token) result }
    {
        let name = named(self.alloc, self.text, token, rest)?;
        free(self.alloc, self.text, token, name)?;
        self.replacer.macros.undefine(slice(self.text, name));
        self.passed = 1;
        Ok(())
    }

    /// `ifdef`, or `ifndef` where the name is to be undefined.
    #[tactic(auto, unfolding(crate::specs::Reading::opens))]
    fn open(&mut self, token: Token, rest: &'a [Token], wanted: bool) -> Result<(), PrepFault>
        ensures text { self.new.text.now ≡ self.old.text.now }
        ensures same { self.new.replacer.text.now ≡ self.old.replacer.text.now }
        ensures step { Tells (λ _. seen self.new)
            (spec.opens self.old.text.now rest.now (seen self.old) token wanted) result }
    {
        let name = named(self.alloc, self.text, token, rest)?;
        let group = self.first_group(token, name, wanted)?;
        self.chains.push_front(Chain {
            at: token.at,
            group,
            last: false,
        })?;
        self.passed = 1;
        Ok(())
    }

    #[tactic(auto, unfolding(crate::specs::Reading::elsif))]
    fn elsif(&mut self, token: Token, rest: &'a [Token]) -> Result<(), PrepFault>
        ensures text { self.new.text.now ≡ self.old.text.now }
        ensures same { self.new.replacer.text.now ≡ self.old.replacer.text.now }
        ensures step { Tells (λ _. seen self.new)
            (spec.elsif self.old.text.now rest.now (seen self.old) token) result }
    {
        let Some(chain) = self.chains.pop_front() else {
            return Err(PrepFault::Unbalanced(token.at));
        };
        if chain.last {
            return Err(PrepFault::Unbalanced(token.at));
        }
        let name = named(self.alloc, self.text, token, rest)?;
        let group = self.next_group(chain.group, token, name)?;
        self.chains.push_front(Chain {
            at: chain.at,
            group,
            last: false,
        })?;
        self.passed = 1;
        Ok(())
    }

    #[tactic(auto, unfolding(crate::specs::Reading::otherwise))]
    fn otherwise(&mut self, token: Token) -> Result<(), PrepFault>
        ensures text { self.new.text.now ≡ self.old.text.now }
        ensures same { self.new.replacer.text.now ≡ self.old.replacer.text.now }
        ensures step { Tells (λ _. seen self.new) (spec.otherwise (seen self.old) token) result }
    {
        let Some(chain) = self.chains.pop_front() else {
            return Err(PrepFault::Unbalanced(token.at));
        };
        if chain.last {
            return Err(PrepFault::Unbalanced(token.at));
        }
        self.chains.push_front(Chain {
            at: chain.at,
            group: last_group(chain.group),
            last: true,
        })?;
        self.passed = 0;
        Ok(())
    }

    #[tactic(auto, unfolding(crate::specs::Reading::define))]
    fn define(&mut self, token: Token, rest: &'a [Token]) -> Result<(), PrepFault>
        ensures text { self.new.text.now ≡ self.old.text.now }
        ensures same { self.new.replacer.text.now ≡ self.old.replacer.text.now }
        ensures step { Tells (λ _. seen self.new)
            (spec.define self.old.text.now rest.now (seen self.old) token) result }
    {
        let name = named(self.alloc, self.text, token, rest)?;
        let line = after(rest, 1);
        if has_arguments(self.text, name, line) {
            return Err(refused(self.alloc, name_of(self.text, token), token.at));
        }
        free(self.alloc, self.text, token, name)?;
        let count = line_len(self.text, name, line);
        self.replacer
            .macros
            .define(slice(self.text, name), &line[..count])?;
        self.passed = 1 + count;
        Ok(())
    }

    #[tactic(auto, unfolding(crate::specs::Reading::ignored))]
    fn ignore(&mut self, token: Token, rest: &'a [Token]) -> Result<(), PrepFault>
        ensures text { self.new.text.now ≡ self.old.text.now }
        ensures same { self.new.replacer.text.now ≡ self.old.replacer.text.now }
        ensures step { Tells (λ _. seen self.new)
            (spec.ignored self.old.text.now rest.now (seen self.old) token) result }
    {
        self.passed = line_len(self.text, token, rest);
        Ok(())
    }

    #[tactic(auto, unfolding(crate::specs::Reading::replaces))]
    fn replace(&mut self, token: Token) -> Result<(), PrepFault>
        requires { self.old.replacer.text.now ≡ self.old.text.now }
        ensures text { self.new.text.now ≡ self.old.text.now }
        ensures same { self.new.replacer.text.now ≡ self.old.replacer.text.now }
        ensures step { Tells (λ _. seen self.new)
            (spec.replaces self.old.text.now (seen self.old) token) result }
    {
        self.replacer.replace(name_of(self.text, token), token.at)?;
        Ok(())
    }

    fn act(
        &mut self,
        known: Option<Known>,
        token: Token,
        rest: &'a [Token],
    ) -> Result<(), PrepFault>
        requires { self.old.replacer.text.now ≡ self.old.text.now }
        ensures text { self.new.text.now ≡ self.old.text.now }
        ensures same { self.new.replacer.text.now ≡ self.old.replacer.text.now }
        ensures step { Tells (λ _. seen self.new)
            (spec.acts known self.old.text.now rest.now (seen self.old) token) result }
    {
        match known {
            Some(Known::Define) => self.define(token, rest),
            Some(Known::Undef) => self.undef(token, rest),
            Some(Known::Ignored) => self.ignore(token, rest),
            _ => self.replace(token),
        }
    }

    fn act_where_kept(
        &mut self,
        known: Option<Known>,
        token: Token,
        rest: &'a [Token],
    ) -> Result<(), PrepFault>
        requires { self.old.replacer.text.now ≡ self.old.text.now }
        ensures text { self.new.text.now ≡ self.old.text.now }
        ensures same { self.new.replacer.text.now ≡ self.old.replacer.text.now }
        ensures step { Tells (λ _. seen self.new)
            (spec.acts_where_kept known self.old.text.now rest.now (seen self.old) token) result }
    {
        if keeps(&self.chains) {
            self.act(known, token, rest)
        } else {
            Ok(())
        }
    }

    /// In skipped text only the directives of chains are seen.
    #[tactic(auto, unfolding(crate::specs::Reading::directive))]
    fn directive(&mut self, token: Token, rest: &'a [Token]) -> Result<(), PrepFault>
        requires { self.old.replacer.text.now ≡ self.old.text.now }
        ensures text { self.new.text.now ≡ self.old.text.now }
        ensures same { self.new.replacer.text.now ≡ self.old.replacer.text.now }
        ensures step { Tells (λ _. seen self.new)
            (spec.directive self.old.text.now rest.now (seen self.old) token) result }
    {
        let known = directive_of(name_of(self.text, token));
        match known {
            Some(Known::Ifdef) => self.open(token, rest, true),
            Some(Known::Ifndef) => self.open(token, rest, false),
            Some(Known::Elsif) => self.elsif(token, rest),
            Some(Known::Else) => self.otherwise(token),
            Some(Known::Endif) => self.endif(token),
            _ => self.act_where_kept(known, token, rest),
        }
    }

    #[tactic(auto, unfolding(crate::specs::Reading::kept))]
    fn keep(&mut self, token: Token) -> Result<(), PrepFault>
        ensures text { self.new.text.now ≡ self.old.text.now }
        ensures same { self.new.replacer.text.now ≡ self.old.replacer.text.now }
        ensures step { Tells (λ _. seen self.new) (spec.kept (seen self.old) token) result }
    {
        self.replacer.keep(token)?;
        Ok(())
    }

    /// A token that wasn't read with a directive before it.
    fn meet(&mut self, token: Token, rest: &'a [Token]) -> Result<(), PrepFault>
        requires { self.old.replacer.text.now ≡ self.old.text.now }
        ensures text { self.new.text.now ≡ self.old.text.now }
        ensures same { self.new.replacer.text.now ≡ self.old.replacer.text.now }
        ensures step { Tells (λ _. seen self.new)
            (spec.met self.old.text.now rest.now (seen self.old) token) result }
    {
        if is_directive(token.kind) {
            self.directive(token, rest)
        } else if keeps(&self.chains) {
            self.keep(token)
        } else {
            Ok(())
        }
    }

    /// The next token, before those that are left.
    #[tactic(auto, unfolding(crate::specs::Reading::taken))]
    pub fn take(&mut self, token: Token, rest: &'a [Token]) -> Result<(), PrepFault>
        requires { self.old.replacer.text.now ≡ self.old.text.now }
        ensures text { self.new.text.now ≡ self.old.text.now }
        ensures same { self.new.replacer.text.now ≡ self.old.replacer.text.now }
        ensures step { Tells (λ _. seen self.new)
            (spec.taken self.old.text.now rest.now (seen self.old) token) result }
    {
        if self.passed == 0 {
            return self.meet(token, rest);
        }
        self.passed -= 1;
        Ok(())
    }

    /// The group that the first directive of a chain begins.
    fn first_group(&self, token: Token, name: Token, wanted: bool) -> Result<Group, PrepFault>
        ensures { Tells (λ g. g) (spec.first_group (spec.keeps self.now.chains) self.now.text.now
            (table self.now.replacer.macros) token name wanted) result }
    {
        if keeps(&self.chains) {
            self.tested(token, name, wanted)
        } else {
            Ok(Group::After)
        }
    }

    /// The group that an `elsif` begins.
    fn next_group(&self, group: Group, token: Token, name: Token) -> Result<Group, PrepFault>
        ensures { Tells (λ g. g) (spec.next_group group self.now.text.now
            (table self.now.replacer.macros) token name) result }
    {
        match group {
            Group::Before => self.tested(token, name, true),
            _ => Ok(Group::After),
        }
    }

    #[tactic(auto, unfolding(crate::specs::Reading::tested))]
    fn tested(&self, token: Token, name: Token, wanted: bool) -> Result<Group, PrepFault>
        ensures { Tells (λ g. g) (spec.tested self.now.text.now
            (table self.now.replacer.macros) token name wanted) result }
    {
        free(self.alloc, self.text, token, name)?;
        match self.replacer.macros.get(slice(self.text, name)) {
            Some(_) => Ok(if wanted { Group::Kept } else { Group::Before }),
            None => Ok(if wanted { Group::Before } else { Group::Kept }),
        }
    }
}

/// The tokens after the first ones.
pub fn after(tokens: &[Token], count: usize) -> &[Token]
    ensures { result.now ≡ drop count tokens.now }
{
    if count <= tokens.len() {
        &tokens[count..]
    } else {
        &[]
    }
}

pub(crate) fn keeps(chains: &LinkedList<Chain>) -> bool
    ensures { result ≡ spec.keeps chains.now }
{
    match chains.front() {
        Some(chain) => match chain.group {
            Group::Kept => true,
            _ => false,
        },
        None => true,
    }
}

fn last_group(group: Group) -> Group
    ensures { result ≡ spec.last_group group }
{
    match group {
        Group::Before => Group::Kept,
        _ => Group::After,
    }
}

/// Whether a `(` stands directly after a macro's name.
fn has_arguments(text: &[u8], name: Token, line: &[Token]) -> bool
    ensures { result ≡ spec.has_arguments text.now name line.now }
{
    match line {
        [next, ..] => is_mark(b"(", text, *next) && next.from == name.to,
        [] => false,
    }
}
