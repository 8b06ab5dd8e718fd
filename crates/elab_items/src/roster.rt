//! The signals of a module, and what its names stand for.

ghost use Rattle.std.specs.Prelude.{◌≡◌, IfOk, OnOk, map};
ghost use Rattle.std.specs.Option.{option_map};
ghost use Rattle.elab_scope.specs.Faults.{after, refusal};
ghost use Rattle.elab_scope.specs.Names.{meanings};
ghost use Rattle.elab_items.specs.Claims.{claims_in};
ghost use Rattle.elab_items.specs.Declarations.{declaration};
ghost use Rattle.elab_items.specs.Rosters.{all_enrolled, enrolled, limit_faults, listing, no_roster, role_of, roster, signal_known, with_known, with_name, with_sense, with_signal};
ghost use Rattle.rtl_tree.specs.TreeExpr.{identifier};

use crate::claims::{Claims, Line, Sense};
use crate::entries::Entry;
use elab_scope::fault::{Cause, Fault};
use elab_scope::known::{Known, Role};
use elab_scope::names::Names;
use rtl_tree::tree::item::{Direction, PortKind};
use rtl_tree::tree::names::Name;
use std::alloc::Global;
use text_ground::memory::Memory;
use text_ground::text::Text;

/// A signal of a module with its name.
#[derive(Clone, Copy)]
pub struct Listing<'a> {
    pub name: &'a Name,
    pub line: Line,
}

/// What the names of a module stand for, and the signals among them in the order of their numbers.
#[derive(Drop)]
pub struct Roster<'a> {
    pub names: Names,
    pub signals: Vec<Listing<'a>>,
}

/// The most signals of a design.
const MOST: u16 = 20_000;

impl Line {
    /// What the signal is in its module.
    pub fn role(self) -> Role
        ensures { result ≡ role_of self.direction self.kind }
    {
        match (self.direction, self.kind) {
            (Some(Direction::Input), _) => Role::Input,
            (_, Some(PortKind::Reg)) => Role::Variable,
            _ => Role::Net,
        }
    }

    /// The meaning of the signal with this number.
    fn known(self, number: usize) -> Known
        ensures { result ≡ signal_known number self }
    {
        Known::Signal {
            number: number.min(usize::from(MOST)) as u16,
            role: self.role(),
            shape: self.reach.shape(self.signed),
        }
    }
}

impl<'a> Roster<'a> {
    fn enter_signal(&mut self, name: &'a Name, line: Line) -> Result<(), Memory>
        ensures { OnOk result (roster self.new
            ≡ with_signal (roster self.old) name.entry.now.text line) }
    {
        self.names
            .declare(&name.text, line.known(self.signals.len()))?;
        self.signals.push(Listing { name, line })?;
        Ok(())
    }

    /// A parameter or an `integer` enters.
    fn enter_known(&mut self, name: &Name, known: Option<Known>) -> Result<(), Memory>
        ensures { OnOk result (roster self.new ≡ with_known (roster self.old) name.now.text known) }
    {
        match known {
            None | Some(Known::Signal { .. }) => {}
            Some(known) => self.names.declare(&name.text, known)?,
        }
        Ok(())
    }

    /// A name enters with what its declarations make together.
    fn enter_sense(
        &mut self,
        name: &'a Name,
        draft: &Names,
        sense: Option<Sense>,
    ) -> Result<(), Memory>
        ensures { OnOk result (roster self.new
            ≡ with_sense (meanings draft.now) (roster self.old) name.entry.now.text sense) }
    {
        match sense {
            None | Some(Sense::Instance) => {}
            Some(Sense::Signal(line)) => self.enter_signal(name, line)?,
            Some(Sense::Number) => self.enter_known(name, draft.find(&name.text))?,
        }
        Ok(())
    }

    /// A name enters once.
    fn enter(&mut self, name: &'a Name, draft: &Names, claims: &Claims) -> Result<(), Memory>
        ensures { OnOk result (roster self.new
            ≡ with_name (meanings draft.now) (claims_in claims.now) (roster self.old)
            (identifier name.entry.now)) }
    {
        if self.names.find(&name.text).is_none() {
            self.enter_sense(name, draft, claims.find(&name.text).sense)?;
        }
        Ok(())
    }

    fn enroll(&mut self, entry: Entry<'a>, draft: &Names, claims: &Claims) -> Result<(), Memory>
        ensures { OnOk result (roster self.new
            ≡ enrolled (meanings draft.now) (claims_in claims.now) (roster self.old)
            (declaration entry.entry)) }
    {
        match entry {
            Entry::ParameterRange(_) | Entry::SignalRange(_) => {}
            Entry::Parameter(_, name, _) => self.enter(name, draft, claims)?,
            Entry::Listed(name) => self.enter(name, draft, claims)?,
            Entry::Signal { name, .. } => self.enter(name, draft, claims)?,
            Entry::Integer(name) => self.enter(name, draft, claims)?,
            Entry::Instance(name) => self.enter(name, draft, claims)?,
        }
        Ok(())
    }
}

/// All names of a module, with the numbers of a draft and what their declarations make together.
pub(crate) fn enroll_all<'a>(
    alloc: Global,
    entries: &[Entry<'a>],
    draft: &Names,
    claims: &Claims,
) -> Result<Roster<'a>, Memory>
    ensures { IfOk result (λ made. roster made
        ≡ all_enrolled (meanings draft.now) (claims_in claims.now) no_roster
        (map declaration entries.now)) }
{
    let mut made = Roster {
        names: Names::new(alloc),
        signals: Vec::new(alloc),
    };
    for entry in entries {
        made.enroll(*entry, draft, claims)?;
    }
    Ok(made)
}

/// The signal that is one too many, where so many come before those of the module.
#[tactic(auto, using(std::proofs::lemmas::Grind::common_steps, crate::proofs::Views::listed_at))]
pub(crate) fn judge_limit<'a>(
    base: u32,
    signals: &[Listing<'_>],
    best: Option<Fault<'a>>,
) -> Option<Fault<'a>>
    ensures { option_map refusal result
        ≡ after (option_map refusal best.entry) (limit_faults base (map listing signals.now)) }
{
    let left = u32::from(MOST).saturating_sub(base);
    match signals.get(left as usize) {
        None => best,
        Some(signal) => {
            let cause = Cause::TooLarge;
            Fault::keep(
                best,
                Fault {
                    at: signal.line.at,
                    cause,
                },
            )
        }
    }
}
