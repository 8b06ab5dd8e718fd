//! What is told of generate constructs, and how much they make.

ghost use Rattle.std.specs.Prelude.{◌≡◌, ◌+◌, ◌∷◌, [], min, IfOk, OnOk};
ghost use Rattle.std.specs.Option.{option_map};
ghost use Rattle.rtl_const.specs.Constant.{constant};
ghost use Rattle.rtl_tree.specs.TreeExpr.{formula};
ghost use Rattle.elab_scope.specs.Rules.{const_place, fault};
ghost use Rattle.elab_genvars.specs.Genvars.{told_of};
ghost use Rattle.elab_expand.specs.Openings.{tally};
ghost use Rattle.elab_expand.specs.Scoping.{numbers_at, scopes};
ghost use Rattle.elab_expand.specs.Tallies.{most_made, counted_turn, counting, is_full, judged, no_tally, telling, telling_least};
ghost use Rattle.elab_expand.specs.Told.{breach_of};

use crate::scopes::Scopes;
use crate::told::{Reason, Told};
use elab_genvars::exprs::judge_expr_genvars;
use elab_sizes::exprs::expr_size;
use rtl_const::evaluate::constant;
use rtl_const::fault::ConstFault;
use rtl_tree::tree::expr::Expr;
use rtl_tree::tree::names::Name;
use std::alloc::Global;
use text_ground::memory::Memory;
use text_ground::text::Text;

/// The most turns of a design.
pub const MOST_TURNS: usize = 100_000;

/// The most that the constructs of a design make.
pub const MOST_MADE: u32 = 8_000_000;

/// What is told, and how much is made.
#[derive(Drop)]
pub struct Tally {
    pub told: Option<Told>,
    /// The place of each turn's `for`.
    pub turns: Vec<u32>,
    /// How much was made, of which no more counts than what is one too much.
    pub size: u32,
}

fn const_place(cause: ConstFault) -> u32
    ensures { result ≡ const_place cause }
{
    match cause {
        ConstFault::NotConstant(at) | ConstFault::Overflow(at) | ConstFault::DivideByZero(at) => at,
        ConstFault::Memory => 0,
    }
}

/// What was made, with so much more.
fn size_behind(size: u32, more: u64) -> u32
    ensures { result ≡ min (size + more) (most_made + 1) }
{
    u64::from(size)
        .saturating_add(more)
        .min(u64::from(MOST_MADE) + 1) as u32
}

impl Tally {
    pub fn new(alloc: Global) -> Tally
        ensures { tally result ≡ no_tally }
    {
        Tally {
            told: None,
            turns: Vec::new(alloc),
            size: 0,
        }
    }

    /// Whether a limit is passed: nothing more is made.
    pub fn is_full(&self) -> bool
        ensures { result ≡ is_full (tally self.now) }
    {
        self.size > MOST_MADE || self.turns.len() > MOST_TURNS
    }

    /// One fault more.
    pub fn tell(&mut self, at: u32, reason: Reason)
        ensures { tally self.new ≡ telling (fault at (breach_of reason) ∷ []) (tally self.old) }
    {
        let best = self.told.take();
        self.told = Told::keep(best, Told { at, reason });
    }

    /// So much more is made at a place.
    pub fn count(&mut self, at: u32, more: u64)
        ensures { tally self.new ≡ counting at more (tally self.old) }
    {
        self.size = size_behind(self.size, more);
        if self.size > MOST_MADE {
            self.tell(at, Reason::TooLarge);
        }
    }

    /// A turn more.
    pub fn count_turn(&mut self, at: u32) -> Result<(), Memory>
        ensures { OnOk result (tally self.new ≡ counted_turn at (tally self.old)) }
    {
        self.turns.push(at)?;
        Ok(())
    }

    /// A genvar is used where it may not be.
    pub fn tell_genvar(&mut self, alloc: Global, found: Option<&Name>) -> Result<(), Memory>
        ensures { OnOk result (tally self.new
            ≡ telling_least (option_map told_of found.entry)
            (tally self.old)) }
    {
        if let Some(name) = found {
            let text = Text::from_bytes(alloc, name.text.as_bytes())?;
            self.tell(name.at, Reason::Genvar(text));
        }
        Ok(())
    }

    /// An expression that has to be constant is worked out at a place, and what is wrong with it is told.
    pub fn judge(
        &mut self,
        alloc: Global,
        within: Scopes<'_>,
        at: u32,
        e: &Expr,
    ) -> Result<Result<i64, ConstFault>, Memory>
        ensures number { IfOk result (λ number.
            number ≡ constant (numbers_at (scopes within.entry)) (formula e.now)) }
        ensures judged { IfOk result (λ _. tally self.new
            ≡ judged (scopes within.entry) at (formula e.now) (tally self.old)) }
    {
        self.count(at, u64::from(expr_size(e)) + 1);
        self.tell_genvar(alloc, judge_expr_genvars(e, &within, None))?;
        let number = constant(e, &within);
        if let Err(cause) = number {
            self.tell(const_place(cause), Reason::Const(cause));
        }
        Ok(number)
    }
}
