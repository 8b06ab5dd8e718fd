//! What the declarations of a name make together.

ghost use Rattle.std.specs.Prelude.{◌≡◌, OnOk, true};
ghost use Rattle.std.specs.Option.{option_map};
ghost use Rattle.rtl_tree.specs.TreeExpr.{identifier};
ghost use Rattle.elab_scope.specs.Faults.{after, refusal};
ghost use Rattle.elab_items.specs.Claims.{claims_in, direction_of, is_directed, is_header, joined, joins, kind_of, line_of, listed_claim, listed_faults, met, no_claims, outside_faults, pair_faults, plain_claim, plain_faults, reg_faults, signal_claim, signal_faults, signal_sense, with_claim};

use crate::entries::Form;
use crate::reach::Reach;
use elab_scope::fault::{Cause, Fault};
use name_map::NameMap;
use rtl_tree::tree::item::{Direction, PortKind};
use rtl_tree::tree::names::Name;
use std::alloc::Global;
use text_ground::memory::Memory;
use text_ground::text::Text;

/// A signal as its declarations have it.
#[derive(Clone, Copy, PartialEq, Eq, Debug)]
pub struct Line {
    /// The place of the name in the first declaration.
    pub at: u32,
    pub direction: Option<Direction>,
    /// `wire` or `reg`, where it is said.
    pub kind: Option<PortKind>,
    pub signed: bool,
    pub reach: Reach,
}

/// What the first declaration of a name makes of it.
#[derive(Clone, Copy, PartialEq, Eq, Debug)]
pub enum Sense {
    Signal(Line),
    /// A parameter or an `integer`.
    Number,
    Instance,
}

/// What the declarations of a name make together.
#[derive(Clone, Copy, PartialEq, Eq, Debug)]
pub struct Claim {
    /// It stands in the head, among the ports.
    pub listed: bool,
    /// A direction declares it.
    pub directed: bool,
    pub sense: Option<Sense>,
}

/// Of a name that no declaration has.
const UNCLAIMED: Claim = Claim {
    listed: false,
    directed: false,
    sense: None,
};

/// What is claimed of the names of a module.
#[derive(Drop)]
pub struct Claims {
    known: NameMap<Claim>,
}

impl Claims {
    /// Nothing is declared yet.
    pub fn new(alloc: Global) -> Claims
        ensures { claims_in result ≡ no_claims }
    {
        Claims {
            known: NameMap::new(alloc),
        }
    }

    pub fn find(&self, name: &Text) -> Claim
        ensures { result ≡ claims_in self.now name.now }
    {
        self.known.find(name).unwrap_or(UNCLAIMED)
    }

    /// Puts a claim in the place of that which is there.
    pub fn put(&mut self, name: &Text, claim: Claim) -> Result<(), Memory>
        ensures { OnOk result (claims_in self.new
            ≡ with_claim (claims_in self.old) name.now claim) }
    {
        self.known.put(name, claim)?;
        Ok(())
    }
}

impl Form {
    /// The direction that it gives a port.
    pub fn direction(self) -> Option<Direction>
        ensures { result ≡ direction_of self }
    {
        match self {
            Form::Header(direction, _) | Form::Item(direction, _) => Some(direction),
            Form::Wire | Form::Reg => None,
        }
    }

    fn kind(self) -> Option<PortKind>
        ensures { result ≡ kind_of self }
    {
        match self {
            Form::Header(_, kind) | Form::Item(_, kind) => kind,
            Form::Wire => Some(PortKind::Wire),
            Form::Reg => Some(PortKind::Reg),
        }
    }

    fn is_header(self) -> bool
        ensures { result ≡ is_header self }
    {
        matches!(self, Form::Header(_, _))
    }

    fn is_directed(self) -> bool
        ensures { result ≡ is_directed self }
    {
        matches!(self, Form::Header(_, _) | Form::Item(_, _))
    }
}

impl Line {
    /// A signal as one declaration has it.
    pub fn new(form: Form, signed: bool, at: u32, reach: Reach) -> Line
        ensures { result ≡ line_of form signed at reach }
    {
        Line {
            at,
            direction: form.direction(),
            kind: form.kind(),
            signed,
            reach,
        }
    }

    /// A direction alone and `wire` or `reg` alone make one declaration.
    pub fn joins(self, line: Line) -> bool
        ensures { result ≡ joins self line }
    {
        match (self.direction, self.kind, line.direction, line.kind) {
            (Some(_), None, None, Some(_)) | (None, Some(_), Some(_), None) => true,
            _ => false,
        }
    }

    /// The signal of two declarations.
    pub fn joined(self, line: Line) -> Line
        ensures { result ≡ joined self line }
    {
        Line {
            at: self.at,
            direction: self.direction.or(line.direction),
            kind: self.kind.or(line.kind),
            signed: self.signed || line.signed,
            reach: self.reach,
        }
    }

    fn met(self, line: Line) -> Line
        ensures { result ≡ met self line }
    {
        if self.joins(line) {
            self.joined(line)
        } else {
            self
        }
    }
}

fn signal_sense(sense: Option<Sense>, line: Line) -> Sense
    ensures { result ≡ signal_sense sense line }
{
    match sense {
        None => Sense::Signal(line),
        Some(Sense::Signal(old)) => Sense::Signal(old.met(line)),
        Some(other) => other,
    }
}

impl Claim {
    /// A declaration of a signal more.
    pub fn with_signal(self, form: Form, line: Line) -> Claim
        ensures { result ≡ signal_claim self form line }
    {
        Claim {
            listed: self.listed || form.is_header(),
            directed: self.directed || form.is_directed(),
            sense: Some(signal_sense(self.sense, line)),
        }
    }

    /// The name stands in the head.
    pub fn listed(self) -> Claim
        ensures { result ≡ listed_claim self }
    {
        Claim {
            listed: true,
            ..self
        }
    }

    /// A declaration of what is no signal more.
    pub(crate) fn with_plain(self, own: Sense) -> Claim
        ensures { result ≡ plain_claim own self }
    {
        Claim {
            sense: Some(self.sense.unwrap_or(own)),
            ..self
        }
    }
}

fn declared_twice<'a>(name: &'a Name, best: Option<Fault<'a>>) -> Option<Fault<'a>>
    ensures { option_map refusal result
        ≡ after (option_map refusal best.entry) (listed_faults (identifier name.now) true) }
{
    let cause = Cause::DeclaredTwice(&name.text);
    Fault::keep(best, Fault { at: name.at, cause })
}

/// A port that is declared `reg` at this place is an output.
fn judge_reg<'a>(name: &'a Name, at: u32, line: Line, best: Option<Fault<'a>>) -> Option<Fault<'a>>
    ensures { option_map refusal result
        ≡ after (option_map refusal best.entry)
        (reg_faults (record { text = name.now.text; at = at }) line.direction line.kind) }
{
    match (line.direction, line.kind) {
        (Some(Direction::Input), Some(PortKind::Reg)) => {
            let cause = Cause::Port(&name.text);
            Fault::keep(best, Fault { at, cause })
        }
        _ => best,
    }
}

/// The two declarations of a port have equal ranges.
#[tactic(auto, using(elab_scope::proofs::Least::after_append))]
fn judge_pair<'a>(
    name: &'a Name,
    old: Line,
    line: Line,
    best: Option<Fault<'a>>,
) -> Option<Fault<'a>>
    ensures { option_map refusal result
        ≡ after (option_map refusal best.entry) (pair_faults (identifier name.now) old line) }
{
    let best = if old.reach.agrees(line.reach) {
        best
    } else {
        declared_twice(name, best)
    };
    let at = if old.kind.is_some() { old.at } else { name.at };
    judge_reg(name, at, old.joined(line), best)
}

/// The declaration of a signal, where the name has a sense already or not.
pub(crate) fn judge_signal<'a>(
    name: &'a Name,
    sense: Option<Sense>,
    line: Line,
    best: Option<Fault<'a>>,
) -> Option<Fault<'a>>
    ensures { option_map refusal result
        ≡ after (option_map refusal best.entry) (signal_faults (identifier name.now) sense line) }
{
    match sense {
        None => judge_reg(name, name.at, line, best),
        Some(Sense::Signal(old)) if old.joins(line) => judge_pair(name, old, line, best),
        Some(_) => declared_twice(name, best),
    }
}

/// What an item gives a direction stands in the head.
pub(crate) fn judge_outside<'a>(
    name: &'a Name,
    form: Form,
    listed: bool,
    best: Option<Fault<'a>>,
) -> Option<Fault<'a>>
    ensures { option_map refusal result
        ≡ after (option_map refusal best.entry) (outside_faults (identifier name.now) form listed) }
{
    match form {
        Form::Item(_, _) if !listed => {
            let cause = Cause::Port(&name.text);
            Fault::keep(best, Fault { at: name.at, cause })
        }
        _ => best,
    }
}

/// The declaration of what is no signal.
pub(crate) fn judge_plain<'a>(
    name: &'a Name,
    sense: Option<Sense>,
    best: Option<Fault<'a>>,
) -> Option<Fault<'a>>
    ensures { option_map refusal result
        ≡ after (option_map refusal best.entry) (plain_faults (identifier name.now) sense) }
{
    match sense {
        None => best,
        Some(_) => declared_twice(name, best),
    }
}

/// A name in the head that leaves its direction to an item.
pub(crate) fn judge_listed<'a>(
    name: &'a Name,
    listed: bool,
    best: Option<Fault<'a>>,
) -> Option<Fault<'a>>
    ensures { option_map refusal result
        ≡ after (option_map refusal best.entry) (listed_faults (identifier name.now) listed) }
{
    if listed {
        declared_twice(name, best)
    } else {
        best
    }
}
