//! The faults of `**` outside of constant expressions.

ghost use Rattle.std.specs.Prelude.{◌≡◌, ◌<◌, ◌^◌, int_lt, pos};
ghost use Rattle.std.specs.Option.{option_map};
ghost use Rattle.rtl_tree.specs.TreeExpr.{formula};
ghost use Rattle.elab_scope.specs.Faults.{after, refusal};
ghost use Rattle.elab_scope.specs.Names.{meanings};
ghost use Rattle.elab_scope.specs.Powers.{is_base, is_natural, is_number, places_of, power_faults, raised_faults};

use crate::fault::{Cause, Fault};
use crate::known::Known;
use crate::names::Names;
use crate::own::{breadth, sign};
use crate::rules;
use crate::widths::Breadth;
use rtl_const::evaluate::constant;
use rtl_const::fault::ConstFault;
use rtl_tree::tree::expr::Expr;

pub fn is_number(known: Option<Known>) -> bool
    ensures { result ≡ is_number known }
{
    matches!(
        known,
        Some(Known::Parameter { .. }) | Some(Known::Integer(_))
    )
}

/// Whether it may stand before `**`: a literal or what stands for a number, in parentheses or without.
pub fn is_base(e: &Expr, names: &Names) -> bool
    ensures { result ≡ is_base (meanings names.now) (formula e.now) }
{
    match e {
        Expr::Number(_, _) => true,
        Expr::Read(name) => is_number(names.find(&name.text)),
        Expr::Parens(_, inner) => is_base(inner, names),
        _ => false,
    }
}

/// In how many of so many bits a number lies that isn't negative.
fn places_of(width: u8, signed: bool) -> u8
    ensures { result ≡ places_of width signed }
{
    if signed {
        width.saturating_sub(1)
    } else {
        width
    }
}

/// What the bit above so many counts.
fn weight(places: u8) -> i64
    requires { places < 63 }
    ensures { result ≡ pos (2 ^ places) }
{
    1 << places
}

/// Whether a number isn't above all those in so many bits.
#[tactic(auto, using(crate::proofs::Fitting::below_places))]
fn is_within(n: i64, places: u8) -> bool
    ensures { result ≡ int_lt n (pos (2 ^ places)) }
{
    if places >= 63 {
        return true;
    }
    n < weight(places)
}

fn is_natural(number: Result<i64, ConstFault>) -> bool
    ensures { result ≡ is_natural number }
{
    match number {
        Ok(n) => n >= 0,
        Err(_) => false,
    }
}

/// A base and its power, which is to have so many bits.
fn raised<'a>(
    at: u32,
    width: Breadth,
    signed: bool,
    base: Result<i64, ConstFault>,
    power: Result<i64, ConstFault>,
    best: Option<Fault<'a>>,
) -> Option<Fault<'a>>
    ensures { option_map refusal result
        ≡ after (option_map refusal best.entry) (raised_faults at width signed base power) }
{
    match power {
        Err(_) => rules::number(power, best),
        Ok(power) => {
            if is_natural(base) && is_within(power, places_of(width.bits(), signed)) {
                best
            } else {
                let cause = Cause::Const(ConstFault::Overflow(at));
                Fault::keep(best, Fault { at, cause })
            }
        }
    }
}

/// The faults of a power beside those of its operands, where `power` is the whole.
pub fn power<'a>(
    at: u32,
    base: &Expr,
    power: &Expr,
    names: &Names,
    best: Option<Fault<'a>>,
) -> Option<Fault<'a>>
    ensures { option_map refusal result ≡ after (option_map refusal best.entry)
        (power_faults (meanings names.now) at (formula base.now) (formula power.now)) }
{
    if !is_base(base, names) {
        return rules::number(Err(ConstFault::NotConstant(base.place())), best);
    }
    let power = constant(power, names);
    let number = constant(base, names);
    raised(
        at,
        breadth(base, names),
        sign(base, names),
        number,
        power,
        best,
    )
}
