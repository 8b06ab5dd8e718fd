// The arithmetic of constant expressions.

ghost use Rattle.std.specs.Prelude.{◌≡◌, ℤ, pos, neg_ℤ, ◌+ℤ◌, ◌-ℤ◌, ◌*ℤ◌, int_div, int_rem, ◌-◌, ◌≤◌, ◌<◌, ◌^◌, ◌≤ℤ◌, unsigned_abs};
ghost use Rattle.std.specs.Int.{int_div_euclid, int_pow};
ghost use Rattle.rtl_const.specs.Constant.{applied, combined, divided, is_constant_operator, is_constant_prefix, is_true, literal, logarithm, named, raised, ranged, shifted_left, shifted_right, truth};

use crate::fault::ConstFault;
use crate::logarithm::clog2;
use rtl_tree::literal::Literal;
use rtl_tree::tree::operators::{BinaryOperator, UnaryOperator};

const LEAST: i64 = -2_147_483_648;

const GREATEST: i64 = 4_294_967_295;

fn ranged(at: u32, n: i64) -> Result<i64, ConstFault>
    ensures { result ≡ ranged at n }
{
    if LEAST <= n && n <= GREATEST {
        Ok(n)
    } else {
        Err(ConstFault::Overflow(at))
    }
}

/// The number of a name, where it has one.
pub(crate) fn named(at: u32, n: Option<i64>) -> Result<i64, ConstFault>
    ensures { result ≡ named at n }
{
    match n {
        Some(n) => ranged(at, n),
        None => Err(ConstFault::NotConstant(at)),
    }
}

fn truth(holds: bool) -> i64
    ensures { result ≡ truth holds }
{
    if holds { 1 } else { 0 }
}

pub(crate) fn is_true(n: i64) -> bool
    ensures { result ≡ is_true n }
{
    n != 0
}

fn sum(at: u32, left: i64, right: i64) -> Result<i64, ConstFault>
    ensures { result ≡ ranged at (left +ℤ right) }
{
    match left.checked_add(right) {
        Some(n) => ranged(at, n),
        None => Err(ConstFault::Overflow(at)),
    }
}

fn difference(at: u32, left: i64, right: i64) -> Result<i64, ConstFault>
    ensures { result ≡ ranged at (left -ℤ right) }
{
    match left.checked_sub(right) {
        Some(n) => ranged(at, n),
        None => Err(ConstFault::Overflow(at)),
    }
}

fn product(at: u32, left: i64, right: i64) -> Result<i64, ConstFault>
    ensures { result ≡ ranged at (left *ℤ right) }
{
    match left.checked_mul(right) {
        Some(n) => ranged(at, n),
        None => Err(ConstFault::Overflow(at)),
    }
}

fn negative(at: u32, n: i64) -> Result<i64, ConstFault>
    ensures { result ≡ ranged at (neg_ℤ n) }
{
    match n.checked_neg() {
        Some(n) => ranged(at, n),
        None => Err(ConstFault::Overflow(at)),
    }
}

fn quotient(at: u32, left: i64, right: i64) -> Result<i64, ConstFault>
    ensures { result ≡ divided at int_div left right }
{
    if right == 0 {
        return Err(ConstFault::DivideByZero(at));
    }
    match left.checked_div(right) {
        Some(n) => ranged(at, n),
        None => Err(ConstFault::Overflow(at)),
    }
}

fn remainder(at: u32, left: i64, right: i64) -> Result<i64, ConstFault>
    ensures { result ≡ divided at int_rem left right }
{
    if right == 0 {
        return Err(ConstFault::DivideByZero(at));
    }
    // The least i64 leaves nothing over at -1.
    ranged(at, left.checked_rem(right).unwrap_or(0))
}

fn shifted_left(at: u32, left: i64, right: i64) -> Result<i64, ConstFault>
    ensures { result ≡ shifted_left at left right }
{
    if right < 0 {
        return Err(ConstFault::Overflow(at));
    }
    if left == 0 {
        return Ok(0);
    }
    // Any other number leaves the range.
    if right > 32 {
        return Err(ConstFault::Overflow(at));
    }
    product(at, left, power(right))
}

/// 2 to the n.
fn power(n: i64) -> i64
    requires low { pos 0 ≤ℤ n }
    requires high { n ≤ℤ pos 32 }
    ensures { result ≡ pos (2 ^ unsigned_abs n) }
{
    1 << n
}

fn shifted_right(at: u32, left: i64, right: i64) -> Result<i64, ConstFault>
    ensures { result ≡ shifted_right at left right }
{
    if right < 0 {
        return Err(ConstFault::Overflow(at));
    }
    ranged(at, without_places(left, right))
}

/// Without its n lowest places.
fn without_places(left: i64, n: i64) -> i64
    requires { pos 0 ≤ℤ n }
    ensures { result ≡ int_div_euclid left (pos (2 ^ unsigned_abs n)) }
{
    if n < 63 {
        return left >> n;
    }
    // What is left are copies of the sign.
    if left < 0 { -1 } else { 0 }
}

/// The left number to the power of the right one.
fn raised(at: u32, left: i64, right: i64) -> Result<i64, ConstFault>
    ensures { result ≡ raised at left right }
{
    if right < 0 {
        return Err(ConstFault::Overflow(at));
    }
    raised_natural(at, left, right.unsigned_abs())
}

fn raised_natural(at: u32, left: i64, right: u64) -> Result<i64, ConstFault>
    ensures { result ≡ ranged at (int_pow left right) }
{
    if right < 64 {
        return raised_short(at, left, right as u32);
    }
    // All but 0, 1 and -1 leave the range, and of those it counts whether the exponent is even.
    raised_short(at, left, 64 + (right % 2) as u32)
}

fn raised_short(at: u32, left: i64, right: u32) -> Result<i64, ConstFault>
    ensures { result ≡ ranged at (int_pow left right) }
{
    match left.checked_pow(right) {
        Some(n) => ranged(at, n),
        None => Err(ConstFault::Overflow(at)),
    }
}

/// The logarithm to the base 2, rounded up.
pub(crate) fn logarithm(at: u32, n: i64) -> Result<i64, ConstFault>
    ensures { result ≡ logarithm at n }
{
    if n < 0 {
        return Err(ConstFault::Overflow(at));
    }
    Ok(i64::from(clog2(u128::from(n.unsigned_abs()))))
}

/// The number of a literal without x and z bits.
pub(crate) fn literal(at: u32, l: &Literal) -> Result<i64, ConstFault>
    ensures { result ≡ literal at l.now }
{
    if l.unk != 0 {
        return Err(ConstFault::NotConstant(at));
    }
    let place = l.width.saturating_sub(1);
    if !l.signed {
        return natural(at, l.val);
    }
    if place >= 128 {
        return natural(at, l.val);
    }
    let weight = weight(place);
    if l.val < weight {
        return natural(at, l.val);
    }
    signed_literal(at, l.val, weight)
}

/// What the bit at this place counts.
fn weight(place: u8) -> u128
    requires { place < 128 }
    ensures { result ≡ 2 ^ place }
{
    1 << place
}

fn natural(at: u32, n: u128) -> Result<i64, ConstFault>
    ensures { result ≡ ranged at (pos n) }
{
    if n <= 4_294_967_295 {
        Ok(n as i64)
    } else {
        Err(ConstFault::Overflow(at))
    }
}

fn signed_literal(at: u32, val: u128, weight: u128) -> Result<i64, ConstFault>
    requires { weight ≤ val }
    ensures { result ≡ ranged at (pos (val - weight) -ℤ pos weight) }
{
    let rest = val - weight;
    if rest >= weight {
        natural(at, rest - weight)
    } else {
        negative_natural(at, weight - rest)
    }
}

fn negative_natural(at: u32, n: u128) -> Result<i64, ConstFault>
    ensures { result ≡ ranged at (neg_ℤ (pos n)) }
{
    if n <= 2_147_483_648 {
        Ok(-(n as i64))
    } else {
        Err(ConstFault::Overflow(at))
    }
}

pub(crate) fn is_constant_prefix(operator: UnaryOperator) -> bool
    ensures { result ≡ is_constant_prefix operator }
{
    matches!(
        operator,
        UnaryOperator::Plus | UnaryOperator::Minus | UnaryOperator::LogicalNot
    )
}

/// What the operator gives of its operand's number.
pub(crate) fn applied(operator: UnaryOperator, at: u32, a: i64) -> Result<i64, ConstFault>
    ensures { result ≡ applied operator at a }
{
    match operator {
        UnaryOperator::Plus => Ok(a),
        UnaryOperator::Minus => negative(at, a),
        UnaryOperator::LogicalNot => Ok(truth(!is_true(a))),
        _ => Err(ConstFault::NotConstant(at)),
    }
}

pub(crate) fn is_constant_operator(operator: BinaryOperator) -> bool
    ensures { result ≡ is_constant_operator operator }
{
    !matches!(
        operator,
        BinaryOperator::CaseEqual
            | BinaryOperator::CaseNotEqual
            | BinaryOperator::BitwiseAnd
            | BinaryOperator::BitwiseXor
            | BinaryOperator::BitwiseXnor
            | BinaryOperator::BitwiseOr
    )
}

/// What the operator gives of its operands' numbers.
pub(crate) fn combined(operator: BinaryOperator, at: u32, a: i64, b: i64) -> Result<i64, ConstFault>
    ensures { result ≡ combined operator at a b }
{
    match operator {
        BinaryOperator::Power => raised(at, a, b),
        BinaryOperator::Multiply => product(at, a, b),
        BinaryOperator::Divide => quotient(at, a, b),
        BinaryOperator::Modulus => remainder(at, a, b),
        BinaryOperator::Add => sum(at, a, b),
        BinaryOperator::Subtract => difference(at, a, b),
        BinaryOperator::ShiftLeft | BinaryOperator::ArithmeticShiftLeft => shifted_left(at, a, b),
        BinaryOperator::ShiftRight | BinaryOperator::ArithmeticShiftRight => shifted_right(
            at, a, b,
        ),
        BinaryOperator::Less => Ok(truth(a < b)),
        BinaryOperator::LessOrEqual => Ok(truth(a <= b)),
        BinaryOperator::Greater => Ok(truth(a > b)),
        BinaryOperator::GreaterOrEqual => Ok(truth(a >= b)),
        BinaryOperator::Equal => Ok(truth(a == b)),
        BinaryOperator::NotEqual => Ok(truth(a != b)),
        BinaryOperator::LogicalAnd => Ok(truth(is_true(a) && is_true(b))),
        BinaryOperator::LogicalOr => Ok(truth(is_true(a) || is_true(b))),
        _ => Err(ConstFault::NotConstant(at)),
    }
}
