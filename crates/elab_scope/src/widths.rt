//! How many bits expressions and targets have.

ghost use Rattle.std.specs.Prelude.{◌≡◌, ◌≤◌};
ghost use Rattle.elab_scope.specs.Widths.{beside, bits, field, fit, fitted, repeated, wider};

use crate::known::Shape;
use rtl_const::fault::ConstFault;

/// How many bits an expression or a target has by itself.
#[derive(Clone, Copy, PartialEq, Eq, Debug)]
pub enum Breadth {
    /// 1 to 128; none in an empty row of parts.
    Bits(u8),
    /// Not 1 to 128.
    Unfit,
    /// A fault of a declaration or of a constant hides it.
    Hidden,
}

/// The breadth of so many bits.
pub fn breadth_of(count: u32) -> Breadth
    ensures { result ≡ fitted count }
{
    if 1 <= count && count <= 128 {
        Breadth::Bits(count as u8)
    } else {
        Breadth::Unfit
    }
}

impl Breadth {
    /// Of operands that are sized with each other.
    pub fn wider(self, other: Breadth) -> Breadth
        ensures { result ≡ wider self other }
    {
        match (self, other) {
            (Breadth::Hidden, _) | (_, Breadth::Hidden) => Breadth::Hidden,
            (Breadth::Unfit, _) | (_, Breadth::Unfit) => Breadth::Unfit,
            (Breadth::Bits(m), Breadth::Bits(n)) => Breadth::Bits(m.max(n)),
        }
    }

    /// Of parts that stand beside one another.
    pub fn beside(self, other: Breadth) -> Breadth
        ensures { result ≡ beside self other }
    {
        match (self, other) {
            (Breadth::Hidden, _) | (_, Breadth::Hidden) => Breadth::Hidden,
            (Breadth::Unfit, _) | (_, Breadth::Unfit) => Breadth::Unfit,
            (Breadth::Bits(m), Breadth::Bits(n)) => {
                let sum = u32::from(m) + u32::from(n);
                if sum <= 128 {
                    Breadth::Bits(sum as u8)
                } else {
                    Breadth::Unfit
                }
            }
        }
    }

    /// Of all the parts of a concatenation.
    pub fn fit(self) -> Breadth
        ensures { result ≡ fit self }
    {
        match self {
            Breadth::Bits(n) => breadth_of(u32::from(n)),
            Breadth::Unfit | Breadth::Hidden => self,
        }
    }

    /// Of so many copies.
    pub fn repeated(self, times: Result<i64, ConstFault>) -> Breadth
        ensures { result ≡ repeated times self }
    {
        match times {
            Err(_) => Breadth::Hidden,
            Ok(times) => {
                if times < 1 {
                    return Breadth::Hidden;
                }
                if times > 128 {
                    return Breadth::Unfit;
                }
                match self {
                    Breadth::Bits(n) => breadth_of(times as u32 * u32::from(n)),
                    Breadth::Unfit | Breadth::Hidden => self,
                }
            }
        }
    }

    /// A width to go on with: where there is none that fits, the nearest or 1.
    pub fn bits(self) -> u8
        ensures exact { result ≡ bits self }
        ensures not_empty { 1 ≤ result }
        ensures at_most { result ≤ 128 }
    {
        match self {
            Breadth::Bits(n) => n.max(1).min(128),
            Breadth::Unfit | Breadth::Hidden => 1,
        }
    }
}

/// The bits of a signal that a part-select takes, counted from its least significant.
#[derive(Clone, Copy, PartialEq, Eq, Debug)]
pub struct Field {
    pub low: u8,
    pub width: u8,
}

/// The bits from `msb` to `lsb` of a signal, where it has them.
pub(crate) fn field_of(shape: Shape, msb: i64, lsb: i64) -> Option<Field>
    ensures { result ≡ field shape msb lsb }
{
    let low = i64::from(shape.low);
    if low <= lsb && lsb <= msb && msb < low + i64::from(shape.width) {
        Some(Field {
            low: (lsb - low) as u8,
            width: (msb - lsb + 1) as u8,
        })
    } else {
        None
    }
}
