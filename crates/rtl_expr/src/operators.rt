//! The operators, by the calls of vectors; on digits, which are known bits, they are those of hardware too.

ghost use Rattle.std.specs.Prelude.{◌≡◌, [], ◌∷◌, length};
ghost use Rattle.rtl_bits.specs.Bits.{truth_bit};
ghost use Rattle.rtl_flat.specs.Value.{turned, joined, compared, linked, folded, shifted, chosen};

use rtl_bits::{Bit, Vec4};
use rtl_flat::expr::{Compare, Fold, Join, Link, Shift, Turn};

/// A unary operator that gives as many bits.
pub fn turn(operator: Turn, a: Vec4) -> Vec4
    ensures bits { result ≡ turned operator a }
    ensures width { length result ≡ length a }
{
    match operator {
        Turn::Plus => {
            if a.is_known() {
                a
            } else {
                Vec4::filled(a.width(), Bit::X)
            }
        }
        Turn::Minus => a.neg(),
        Turn::Complement => a.not(),
    }
}

/// An arithmetic or a bitwise operator.
pub fn join(operator: Join, signed: bool, a: Vec4, b: Vec4) -> Vec4
    requires { length a ≡ length b }
    ensures bits { result ≡ joined operator signed a b }
    ensures width { length result ≡ length a }
{
    match operator {
        Join::Add => a.add(b),
        Join::Subtract => a.sub(b),
        Join::Multiply => a.mul(b),
        Join::Divide => { if signed { a.div_signed(b) } else { a.div(b) } }
        Join::Remainder => { if signed { a.rem_signed(b) } else { a.rem(b) } }
        Join::And => a.and(b),
        Join::Or => a.or(b),
        Join::Xor => a.xor(b),
        Join::Xnor => a.xor(b).not(),
    }
}

/// A relation or an equality.
pub fn compare(operator: Compare, signed: bool, a: Vec4, b: Vec4) -> Vec4
    requires { length a ≡ length b }
    ensures { result ≡ compared operator signed a b ∷ [] }
{
    match operator {
        Compare::Equal => a.eq(b),
        Compare::NotEqual => a.eq(b).not(),
        Compare::CaseEqual => a.case_eq(b),
        Compare::CaseNotEqual => a.case_eq(b).not(),
        Compare::Less => a.lt(b, signed),
        Compare::LessOrEqual => b.lt(a, signed).not(),
        Compare::Greater => b.lt(a, signed),
        Compare::GreaterOrEqual => a.lt(b, signed).not(),
    }
}

/// A logical operator.
pub fn link(operator: Link, a: Vec4, b: Vec4) -> Vec4
    ensures { result ≡ linked operator a b ∷ [] }
{
    match operator {
        Link::And => a.truth().and(b.truth()),
        Link::Or => a.truth().or(b.truth()),
    }
}

/// Logical negation or a reduction.
pub fn fold(operator: Fold, a: Vec4) -> Vec4
    ensures { result ≡ folded operator a ∷ [] }
{
    match operator {
        Fold::Negation => a.truth().not(),
        Fold::And => a.reduce_and(),
        Fold::Nand => a.reduce_and().not(),
        Fold::Or => a.reduce_or(),
        Fold::Nor => a.reduce_or().not(),
        Fold::Xor => a.reduce_xor(),
        Fold::Xnor => a.reduce_xor().not(),
    }
}

/// A shift.
pub fn shift(operator: Shift, signed: bool, a: Vec4, amount: Vec4) -> Vec4
    ensures bits { result ≡ shifted operator signed a amount }
    ensures width { length result ≡ length a }
{
    match operator {
        Shift::Left => a.shl(amount),
        Shift::Right => a.shr(amount),
        Shift::ArithmeticRight => { if signed { a.sar(amount) } else { a.shr(amount) } }
    }
}

/// One of two arms, or where the condition is unknown what they have in common.
pub fn choose(condition: Vec4, taken: Vec4, otherwise: Vec4) -> Vec4
    requires { length taken ≡ length otherwise }
    ensures bits { result ≡ chosen (truth_bit condition) taken otherwise }
    ensures width { length result ≡ length taken }
{
    match condition.truth().bit(0) {
        Bit::One => taken,
        Bit::Zero => otherwise,
        Bit::X | Bit::Z => taken.merge(otherwise),
    }
}
