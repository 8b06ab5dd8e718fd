//! Constant expressions that are worth another number by the standard than by the desk.

ghost use Rattle.std.specs.Prelude.{◌≡◌, ◌≤◌, ◌++◌, ◌*◌, ◌^◌, ◌-ℤ◌, pos, false, not, length, nat_lt, OnOk};
ghost use Rattle.std.specs.Ordering.{int_eq};
ghost use Rattle.rtl_bits.specs.Bits.{has_unknown, number};
ghost use Rattle.rtl_tree.specs.TreeExpr.{formula};
ghost use Rattle.elab_standard.specs.Numbers.{bits_differ, count_notes, desk_number, given_value_notes, is_other, is_other_count, is_other_cut, is_other_in, is_other_number, is_other_truth, number_differs, number_notes, own_value_notes, truth_differs, truth_notes};
ghost use Rattle.elab_standard.specs.Scopes.{scopes};
ghost use Rattle.elab_standard.specs.Worth.{whole_number};

use crate::contexts::sign;
use crate::literals::{number_bits, range_bits};
use crate::notes::{push_if, root_place};
use crate::scopes::{By, Scopes};
use crate::uses::Home;
use crate::worth::{own_worth, taken_worth};
use rtl_bits::{Bit, Vec4};
use rtl_const::evaluate::constant;
use rtl_const::fault::ConstFault;
use rtl_flat::note::{Note, Reading};
use rtl_tree::tree::expr::Expr;
use text_ground::memory::Memory;

/// Whether known bits, read in two's complement, are below 0.
pub(crate) fn is_negative(bits: Vec4) -> bool
    requires { has_unknown bits ≡ false }
    ensures { result ≡ not (nat_lt (2 * number bits) (2 ^ length bits)) }
{
    bits.number() >> (bits.width() - 1) == 1
}

/// What the highest bit counts.
fn highest(bits: Vec4) -> u128
    ensures { 2 * result ≡ 2 ^ length bits }
{
    1 << (bits.width() - 1)
}

/// Whether a number is that of known bits, less by 2 to the width.
fn is_lowered(bits: Vec4, n: i64) -> bool
    requires known { has_unknown bits ≡ false }
    requires negative { nat_lt (2 * number bits) (2 ^ length bits) ≡ false }
    ensures { result ≡ int_eq n (pos (number bits) -ℤ pos (2 ^ length bits)) }
{
    let highest = highest(bits);
    let rest = bits.number() - highest;
    if n >= 0 {
        return false;
    }
    rest + u128::from(n.unsigned_abs()) == highest
}

/// Whether a number of the desk isn't that of the bits.
fn is_other(n: i64, signed: bool, bits: Vec4) -> bool
    ensures { result ≡ is_other n (whole_number signed bits) }
{
    if !bits.is_known() {
        return true;
    }
    if signed && is_negative(bits) {
        return !is_lowered(bits, n);
    }
    n < 0 || n as u128 != bits.number()
}

fn number_differs(n: Result<i64, ConstFault>, signed: bool, bits: Vec4) -> bool
    ensures { result ≡ number_differs n (whole_number signed bits) }
{
    match n {
        Ok(n) => is_other(n, signed, bits),
        Err(_) => false,
    }
}

fn truth_differs(n: Result<i64, ConstFault>, bits: Vec4) -> bool
    ensures { result ≡ truth_differs n bits }
{
    match n {
        Ok(n) => match bits.truth().bit(0) {
            Bit::One => n == 0,
            Bit::Zero => n != 0,
            Bit::X | Bit::Z => true,
        },
        Err(_) => false,
    }
}

fn bits_differ(n: Result<i64, ConstFault>, bits: Vec4) -> bool
    ensures { result ≡ bits_differ n (length bits) bits }
{
    match n {
        Ok(n) => !bits.matches(number_bits(bits.width(), n)),
        Err(_) => false,
    }
}

fn desk_number(e: &Expr, kept: &Scopes) -> Result<i64, ConstFault>
    ensures { result ≡ desk_number (scopes kept.now) (formula e.now) }
{
    constant(e, &kept.names)
}

fn is_other_number(e: &Expr, kept: &Scopes) -> bool
    ensures { result ≡ is_other_number (scopes kept.now) (formula e.now) }
{
    number_differs(
        desk_number(e, kept),
        sign(e, kept, By::Standard),
        own_worth(e, kept),
    )
}

fn is_other_truth(e: &Expr, kept: &Scopes) -> bool
    ensures { result ≡ is_other_truth (scopes kept.now) (formula e.now) }
{
    truth_differs(desk_number(e, kept), own_worth(e, kept))
}

fn is_other_count(e: &Expr, kept: &Scopes) -> bool
    ensures { result ≡ is_other_count (scopes kept.now) (formula e.now) }
{
    number_differs(desk_number(e, kept), true, taken_worth(32, e, kept))
}

fn is_other_in(width: u8, e: &Expr, kept: &Scopes) -> bool
    requires not_empty { 1 ≤ width }
    requires at_most { width ≤ 128 }
    ensures { result ≡ is_other_in (scopes kept.now) width (formula e.now) }
{
    bits_differ(desk_number(e, kept), taken_worth(width, e, kept))
}

fn is_other_cut(width: u8, e: &Expr, kept: &Scopes) -> bool
    requires not_empty { 1 ≤ width }
    requires at_most { width ≤ 128 }
    ensures { result ≡ is_other_cut (scopes kept.now) width (formula e.now) }
{
    let signed = sign(e, kept, By::Standard);
    let bits = own_worth(e, kept).extend(width, signed);
    bits_differ(desk_number(e, kept), bits)
}

/// Adds what is told of a constant whose number counts.
pub(crate) fn push_number(
    home: Home,
    kept: &Scopes,
    e: &Expr,
    made: &mut Vec<Note>,
) -> Result<(), Memory>
    ensures { OnOk result (made.new.items
        ≡ made.old.items ++ number_notes home (scopes kept.now) (formula e.now)) }
{
    let broken = is_other_number(e, kept);
    push_if(broken, home, Reading::ConstantValue, root_place(e), made)
}

/// Adds what is told of a constant whose truth counts.
pub(crate) fn push_truth(
    home: Home,
    kept: &Scopes,
    e: &Expr,
    made: &mut Vec<Note>,
) -> Result<(), Memory>
    ensures { OnOk result (made.new.items
        ≡ made.old.items ++ truth_notes home (scopes kept.now) (formula e.now)) }
{
    let broken = is_other_truth(e, kept);
    push_if(broken, home, Reading::ConstantValue, root_place(e), made)
}

/// Adds what is told of the start or the step of a loop.
pub(crate) fn push_count(
    home: Home,
    kept: &Scopes,
    e: &Expr,
    made: &mut Vec<Note>,
) -> Result<(), Memory>
    ensures { OnOk result (made.new.items
        ≡ made.old.items ++ count_notes home (scopes kept.now) (formula e.now)) }
{
    let at = root_place(e);
    let broken = is_other_count(e, kept);
    push_if(broken, home, Reading::ConstantValue, at, made)?;
    let broken = !sign(e, kept, By::Standard);
    push_if(broken, home, Reading::LoopSign, at, made)
}

/// Adds what is told of a parameter's own value, with the width of its range.
pub(crate) fn push_own_value(
    home: Home,
    kept: &Scopes,
    width: Option<u8>,
    e: &Expr,
    made: &mut Vec<Note>,
) -> Result<(), Memory>
    ensures { OnOk result (made.new.items
        ≡ made.old.items ++ own_value_notes home (scopes kept.now) width (formula e.now)) }
{
    match width {
        None => push_number(home, kept, e, made),
        Some(width) => {
            let broken = is_other_in(range_bits(width), e, kept);
            push_if(broken, home, Reading::ConstantValue, root_place(e), made)
        }
    }
}

/// Adds what is told of the value that an instance gives a parameter, with the width of its range.
pub(crate) fn push_given_value(
    home: Home,
    kept: &Scopes,
    width: Option<u8>,
    e: &Expr,
    made: &mut Vec<Note>,
) -> Result<(), Memory>
    ensures { OnOk result (made.new.items
        ≡ made.old.items ++ given_value_notes home (scopes kept.now) width (formula e.now)) }
{
    match width {
        None => push_number(home, kept, e, made),
        Some(width) => {
            let width = range_bits(width);
            let broken = is_other_in(width, e, kept) || is_other_cut(width, e, kept);
            push_if(broken, home, Reading::ConstantValue, root_place(e), made)
        }
    }
}
