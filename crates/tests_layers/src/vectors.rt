//! What the calls on vectors of four-valued bits give: at one bit for 0, 1, x and z on the left and for each of them the same on the
//! right, at 128 bits, and where parts, signs and widths end.

ghost use Rattle.std.specs.Prelude.{◌≡◌, ◌≤◌, length};

use crate::stop::Stop;
use rtl_bits::{Bit, Edge, Vec4, edge_of};
use std::alloc::Global;

#[derive(Clone, Copy, Debug)]
enum Call {
    And,
    Or,
    Xor,
    Not,
    Resolve,
    Merge,
    Add,
    Sub,
    Mul,
    Neg,
    Div,
    Rem,
    DivSigned,
    RemSigned,
    Eq,
    CaseEq,
    Less,
    LessSigned,
    Matches,
    MatchesZ,
    MatchesX,
    ReduceAnd,
    ReduceOr,
    ReduceXor,
    Truth,
    Shl,
    Shr,
    Sar,
}

const CALLS: [Call; 28] = [
    Call::And,
    Call::Or,
    Call::Xor,
    Call::Not,
    Call::Resolve,
    Call::Merge,
    Call::Add,
    Call::Sub,
    Call::Mul,
    Call::Neg,
    Call::Div,
    Call::Rem,
    Call::DivSigned,
    Call::RemSigned,
    Call::Eq,
    Call::CaseEq,
    Call::Less,
    Call::LessSigned,
    Call::Matches,
    Call::MatchesZ,
    Call::MatchesX,
    Call::ReduceAnd,
    Call::ReduceOr,
    Call::ReduceXor,
    Call::Truth,
    Call::Shl,
    Call::Shr,
    Call::Sar,
];

fn answer(call: Call, a: Vec4, b: Vec4) -> Vec4
    requires { length a ≡ length b }
    ensures { 1 ≤ length result }
{
    let _ = a.width();
    match call {
        Call::And => a.and(b),
        Call::Or => a.or(b),
        Call::Xor => a.xor(b),
        Call::Not => a.not(),
        Call::Resolve => a.resolve(b),
        Call::Merge => a.merge(b),
        Call::Add => a.add(b),
        Call::Sub => a.sub(b),
        Call::Mul => a.mul(b),
        Call::Neg => a.neg(),
        Call::Div => a.div(b),
        Call::Rem => a.rem(b),
        Call::DivSigned => a.div_signed(b),
        Call::RemSigned => a.rem_signed(b),
        Call::Eq => a.eq(b),
        Call::CaseEq => a.case_eq(b),
        Call::Less => a.lt(b, false),
        Call::LessSigned => a.lt(b, true),
        Call::Matches => Vec4::of_bool(a.matches(b)),
        Call::MatchesZ => Vec4::of_bool(a.matches_z(b)),
        Call::MatchesX => Vec4::of_bool(a.matches_x(b)),
        Call::ReduceAnd => a.reduce_and(),
        Call::ReduceOr => a.reduce_or(),
        Call::ReduceXor => a.reduce_xor(),
        Call::Truth => a.truth(),
        Call::Shl => a.shl(b),
        Call::Shr => a.shr(b),
        Call::Sar => a.sar(b),
    }
}

fn letter(bit: Bit) -> u8 {
    match bit {
        Bit::Zero => b'0',
        Bit::One => b'1',
        Bit::X => b'x',
        Bit::Z => b'z',
    }
}

const BITS: [Bit; 4] = [Bit::Zero, Bit::One, Bit::X, Bit::Z];

/// A name, and a letter for each pair of bits.
fn put_call(alloc: Global, call: Call, out: &mut Vec<u8>) -> Result<(), Stop> {
    out.extend_from_slice(format!(in alloc; "{call:?} ")?.as_bytes())?;
    for i in 0..4 {
        for j in 0..4 {
            let got = answer(call, Vec4::of_bit(BITS[i]), Vec4::of_bit(BITS[j]));
            out.push(letter(got.bit(0)))?;
        }
    }
    out.push(b'\n')?;
    Ok(())
}

/// The edge from each bit to each.
fn put_edges(out: &mut Vec<u8>) -> Result<(), Stop> {
    out.extend_from_slice(b"edges ")?;
    for i in 0..4 {
        for j in 0..4 {
            out.push(match edge_of(BITS[i], BITS[j]) {
                Edge::No => b'-',
                Edge::Pos => b'p',
                Edge::Neg => b'n',
            })?;
        }
    }
    out.push(b'\n')?;
    Ok(())
}

/// A vector of 128 bits by its digits of 1 and z, and its digits of x and z.
type Digits = (u128, u128);

const MIXED: Digits = (
    0xf0f0f0f0f0f0f0f0f0f0f0f0f0f0f0f,
    0xff00ff00ff00ff00ff00ff00ff00ff,
);

const NEGATIVE: Digits = (0xb2899387269e0d37f2a74de452e6b438, 0);

const POSITIVE: Digits = (0x523f0824128b2f330c5c7fd0a6a3a450, 0);

const SMALL: Digits = (0x18892f902b, 0);

const MINUS_SMALL: Digits = (0xffffffffffffffffffffffe776d06fd5, 0);

const TOP_X: Digits = (0x523f0824128b2f330c5c7fd0a6a3a450, 1 << 127);

const ONES: Digits = (u128::MAX, 0);

const AT_WIDTH_128: [(Call, Digits, Digits); 15] = [
    (Call::Add, NEGATIVE, POSITIVE),
    (Call::Add, NEGATIVE, TOP_X),
    (Call::Sub, POSITIVE, NEGATIVE),
    (Call::Mul, NEGATIVE, POSITIVE),
    (Call::Neg, NEGATIVE, (0, 0)),
    (Call::Div, NEGATIVE, SMALL),
    (Call::Rem, NEGATIVE, SMALL),
    (Call::DivSigned, NEGATIVE, SMALL),
    (Call::DivSigned, (1 << 127, 0), ONES),
    (Call::RemSigned, POSITIVE, MINUS_SMALL),
    (Call::RemSigned, NEGATIVE, (0, 0)),
    (Call::Shl, NEGATIVE, (128, 0)),
    (Call::Shr, MIXED, (100, 0)),
    (Call::Sar, NEGATIVE, (1 << 100, 0)),
    (Call::Sar, TOP_X, (5, 0)),
];

/// A name, two vectors of 128 bits, and the digits of what the call gives.
fn put_wide(
    alloc: Global,
    call: Call,
    a: Digits,
    b: Digits,
    out: &mut Vec<u8>,
) -> Result<(), Stop> {
    let got = answer(
        call,
        Vec4::of_digits(128, a.0, a.1),
        Vec4::of_digits(128, b.0, b.1),
    );
    let told = format!(in alloc;
        "{call:?} {:x} {:x} and {:x} {:x} give width {} {:x} {:x}\n",
        a.0,
        a.1,
        b.0,
        b.1,
        got.width(),
        got.val_digits(),
        got.unk_digits()
    )?;
    out.extend_from_slice(told.as_bytes())?;
    Ok(())
}

/// The vector that is written so, the highest bit first.
fn spelled(text: &[u8]) -> Vec4
    requires not_empty { 1 ≤ length text.now }
    requires at_most { length text.now ≤ 128 }
    ensures { length result ≡ length text.now }
{
    let mut val = 0u128;
    let mut unk = 0u128;
    for c in text {
        val = val << 1 | (*c == b'1' || *c == b'z') as u128;
        unk = unk << 1 | (*c == b'x' || *c == b'z') as u128;
    }
    Vec4::of_digits(text.len() as u8, val, unk)
}

/// The letters of a vector, the highest bit first.
fn put_letters(vector: Vec4, out: &mut Vec<u8>) -> Result<(), Stop> {
    for at in 0..vector.width() {
        out.push(letter(vector.bit(vector.width() - 1 - at)))?;
    }
    out.push(b'\n')?;
    Ok(())
}

/// Parts, signs and what is known.
fn put_parts(alloc: Global, out: &mut Vec<u8>) -> Result<(), Stop> {
    let ff = spelled(b"11111111");
    let mixed = spelled(b"zx10");
    for got in [
        ff.extend(9, false).add(ff.extend(9, false)),
        ff.add(ff).extend(9, false),
        spelled(b"1000").extend(8, true),
        mixed.extend(6, true),
        mixed.extend(6, false),
        mixed.select(1, 2),
        mixed.replace(1, spelled(b"0z")),
        spelled(b"1001").div_signed(spelled(b"0010")),
        spelled(b"1001").rem_signed(spelled(b"0010")),
        Vec4::of_number(4, 21),
    ] {
        put_letters(got, out)?;
    }
    let known = (mixed.is_known(), ff.is_known());
    let wide = ff.extend(12, false);
    let number = if wide.is_known() { wide.number() } else { 0 };
    let told = format!(in alloc; "known {} {} number {number}\n", known.0, known.1)?;
    out.extend_from_slice(told.as_bytes())?;
    Ok(())
}

/// Which widths there are: 0 for none.
fn put_widths(alloc: Global, out: &mut Vec<u8>) -> Result<(), Stop> {
    let one = Vec4::of_bit(Bit::One);
    let x = Vec4::filled(43, Bit::X);
    let all = Vec4::filled(128, Bit::Z);
    out.extend_from_slice(b"widths")?;
    for got in [
        Vec4::known(0, 0),
        Vec4::known(1, 2),
        Vec4::known(128, u128::MAX),
        Vec4::known(129, 0),
        one.concat(all.select(0, 64)),
        one.concat(all),
        one.repeat(0),
        one.repeat(128),
        x.repeat(2),
        x.repeat(3),
        one.repeat(u32::MAX),
    ] {
        let width = got.map_or(0, |v| v.width());
        out.extend_from_slice(format!(in alloc; " {width}")?.as_bytes())?;
    }
    Ok(())
}

/// What the calls on vectors give.
pub fn told(alloc: Global) -> Result<Vec<u8>, Stop> {
    let mut out = Vec::new(alloc);
    for call in CALLS {
        put_call(alloc, call, &mut out)?;
    }
    put_edges(&mut out)?;
    for (call, a, b) in AT_WIDTH_128 {
        put_wide(alloc, call, a, b, &mut out)?;
    }
    put_parts(alloc, &mut out)?;
    put_widths(alloc, &mut out)?;
    Ok(out)
}
