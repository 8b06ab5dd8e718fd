//! Four-valued vectors of 1 to 128 bits, with the operators of IEEE 1364-2001.
//!
//! Contracts see a vector as the list of its bits, the least significant first.
#![tactic(auto)]

ghost use Rattle.std.specs.Prelude.{◌≡◌};
ghost use Rattle.rtl_bits.specs.Bit.{edge};

use std::marker::Model;

mod arithmetic;
mod compare;
mod making;
mod parts;
mod planes;
mod reduce;
mod shift;
mod signed;

/// A value of one bit (IEEE 1364-2001 section 3.1).
#[derive(Clone, Copy, Debug, PartialEq, Eq)]
pub enum Bit {
    Zero,
    One,
    X,
    Z,
}

/// What a change of one bit is to an event control (IEEE 1364-2001 section 9.7.2).
#[derive(Clone, Copy, Debug, PartialEq, Eq)]
pub enum Edge {
    No,
    Pos,
    Neg,
}

/// The edge of a change from `old` to `new`.
pub fn edge_of(old: Bit, new: Bit) -> Edge
    ensures { result ≡ edge old new }
{
    match (old, new) {
        (Bit::Zero, Bit::Zero) | (Bit::One, Bit::One) => Edge::No,
        (Bit::Zero, _) | (_, Bit::One) => Edge::Pos,
        (Bit::One, _) | (_, Bit::Zero) => Edge::Neg,
        _ => Edge::No,
    }
}

/// A vector of 1 to 128 bits, each 0, 1, x or z.
///
/// Where a digit of `unk` is 0 the bit is the digit of `val`; where it is 1 the bit is x for `val`
/// 0 and z for `val` 1.
#[derive(Clone, Copy, Debug)]
pub struct Vec4 {
    width: u8,
    val: u128,
    unk: u128,
}

impl Model for Vec4 {
    ghost use Rattle.std.specs.Prelude.{List, length};
    ghost use Rattle.rtl_bits.specs.declared.Bit.{Bit};

    ghost Value = { List Bit };

    ghost use Rattle.rtl_bits.specs.Bit.{is_unknown};
    ghost use Rattle.rtl_bits.specs.Bits.{number_where};
    ghost use Rattle.rtl_bits.specs.Planes.{IsVector, bits_of_planes, in_val};
    ghost use Rattle.rtl_bits.specs.Inside.{width_back, val_back, unk_back};

    ghost view = { λ a. bits_of_planes a.width a.val a.unk };

    ghost invariant = { λ a. IsVector a.width a.val a.unk };

    ghost inverse = { λ bits. record { width = length bits; val = number_where in_val bits; unk = number_where is_unknown bits } };

    ghost inverse_ok = { λ a h i. record { width = width_back a.width a.val a.unk i; val = val_back a.width a.val a.unk h.val_fits i; unk = unk_back a.width a.val a.unk h.unk_fits i } };
}
