//! The ranges of declarations.

ghost use Rattle.std.specs.Prelude.{◌≡◌, ◌≤◌, ◌+◌, ◌-ℤ◌, min, unsigned_abs, IsTrue, if◌then◌else◌, [], ◌∷◌};
ghost use Rattle.std.specs.Option.{option_map};
ghost use Rattle.rtl_tree.specs.TreeExpr.{bounds};
ghost use Rattle.elab_scope.specs.Faults.{after, breach, refusal};
ghost use Rattle.elab_scope.specs.Names.{meanings, numbers_in};
ghost use Rattle.elab_scope.specs.Rules.{fault};
ghost use Rattle.elab_items.specs.Reaches.{agree, descends, fits, range_faults, reach_of, shape_of, span_faults, spanned};
ghost use Rattle.elab_items.specs.Scopes.{bounds_name_faults};

use elab_scope::fault::{Cause, Fault};
use elab_scope::judge::judge;
use elab_scope::known::Shape;
use elab_scope::names::Names;
use elab_scope::rules;
use rtl_const::evaluate::constant;
use rtl_const::fault::ConstFault;
use rtl_const::params::Lookup;
use rtl_tree::tree::expr::Range;

/// The bits that a declaration has.
#[derive(Clone, Copy, PartialEq, Eq, Debug)]
pub enum Reach {
    /// One bit, without a range.
    Scalar,
    Bits {
        width: u8,
        /// The number of the least significant bit.
        low: u32,
    },
    /// A fault of the range hides them.
    Hidden,
}

/// Whether a range runs from its high end down to its low one, and no bit has a negative number.
fn descends(msb: i64, lsb: i64) -> bool
    ensures { result ≡ descends msb lsb }
{
    0 <= lsb && lsb <= msb
}

/// Whether there are at most so many bits from one end of a range to the other.
fn fits(most: u8, msb: i64, lsb: i64) -> bool
    ensures { result ≡ fits most msb lsb }
{
    msb.abs_diff(lsb) < u64::from(most)
}

/// How many bits a range has, where they are at most so many.
fn width_between(most: u8, msb: i64, lsb: i64) -> u8
    requires fits { IsTrue (fits most msb lsb) }
    requires most { most ≤ 128 }
    ensures { result ≡ unsigned_abs (msb -ℤ lsb) + 1 }
{
    (msb.abs_diff(lsb) + 1) as u8
}

/// The number of the least significant bit; no constant is above the greatest `u32`.
fn lowest(lsb: i64) -> u32
    ensures { result ≡ min (unsigned_abs lsb) 4294967295 }
{
    lsb.unsigned_abs().min(u64::from(u32::MAX)) as u32
}

fn spanned(most: u8, msb: Result<i64, ConstFault>, lsb: Result<i64, ConstFault>) -> Reach
    requires { most ≤ 128 }
    ensures { result ≡ spanned most msb lsb }
{
    match (msb, lsb) {
        (Ok(msb), Ok(lsb)) => {
            if descends(msb, lsb) && fits(most, msb, lsb) {
                Reach::Bits {
                    width: width_between(most, msb, lsb),
                    low: lowest(lsb),
                }
            } else {
                Reach::Hidden
            }
        }
        _ => Reach::Hidden,
    }
}

/// The bits of a range, with the numbers that hold for it.
pub fn reach_of<L: Lookup>(most: u8, range: Option<&Range>, names: &L) -> Reach
    requires { most ≤ 128 }
    ensures { result ≡ reach_of most (L.numbers names.now)
        (option_map (λ range. bounds range.now) range.entry) }
{
    match range {
        None => Reach::Scalar,
        Some(range) => spanned(
            most,
            constant(&range.msb, names),
            constant(&range.lsb, names),
        ),
    }
}

/// What is told where a rule doesn't hold.
fn judge_unless<'a>(
    holds: bool,
    at: u32,
    cause: Cause<'a>,
    best: Option<Fault<'a>>,
) -> Option<Fault<'a>>
    ensures { option_map refusal result
        ≡ after (option_map refusal best.entry)
        (if holds then [] else fault at (breach cause.entry) ∷ []) }
{
    if holds {
        best
    } else {
        Fault::keep(best, Fault { at, cause })
    }
}

/// A range of too many bits, and one that doesn't descend.
#[tactic(auto, using(elab_scope::proofs::Least::after_append))]
fn judge_span<'a>(
    most: u8,
    at: u32,
    msb: Result<i64, ConstFault>,
    lsb: Result<i64, ConstFault>,
    best: Option<Fault<'a>>,
) -> Option<Fault<'a>>
    ensures { option_map refusal result
        ≡ after (option_map refusal best.entry) (span_faults most at msb lsb) }
{
    let (Ok(msb), Ok(lsb)) = (msb, lsb) else {
        return best;
    };
    let best = judge_unless(fits(most, msb, lsb), at, Cause::Width, best);
    judge_unless(descends(msb, lsb), at, Cause::Range, best)
}

/// The faults of a range with the numbers that hold for it.
#[tactic(auto, using(elab_scope::proofs::Least::after_append))]
pub(crate) fn judge_range<'a>(
    most: u8,
    range: Option<&'a Range>,
    names: &Names,
    best: Option<Fault<'a>>,
) -> Option<Fault<'a>>
    ensures { option_map refusal result
        ≡ after (option_map refusal best.entry)
        (range_faults most (numbers_in (meanings names.now))
        (option_map (λ range. bounds range.now) range.entry)) }
{
    let Some(range) = range else {
        return best;
    };
    let msb = constant(&range.msb, names);
    let lsb = constant(&range.lsb, names);
    let best = rules::number(msb, best);
    let best = rules::number(lsb, best);
    judge_span(most, range.at, msb, lsb, best)
}

/// The faults of the names in a range.
#[tactic(auto, using(elab_scope::proofs::Least::after_append))]
pub(crate) fn judge_bounds<'a>(
    range: Option<&'a Range>,
    names: &Names,
    best: Option<Fault<'a>>,
) -> Option<Fault<'a>>
    ensures { option_map refusal result
        ≡ after (option_map refusal best.entry)
        (bounds_name_faults (meanings names.now)
        (option_map (λ range. bounds range.now) range.entry)) }
{
    match range {
        None => best,
        Some(range) => {
            let best = judge(&range.msb, names, best).best;
            judge(&range.lsb, names, best).best
        }
    }
}

impl Reach {
    /// Whether two declarations of one signal have equal ranges.
    pub fn agrees(self, other: Reach) -> bool
        ensures { result ≡ agree self other }
    {
        match (self, other) {
            (Reach::Scalar, Reach::Scalar) => true,
            (Reach::Scalar, _) | (_, Reach::Scalar) => false,
            (Reach::Hidden, _) | (_, Reach::Hidden) => true,
            (
                Reach::Bits { width, low },
                Reach::Bits {
                    width: other_width,
                    low: other_low,
                },
            ) => width == other_width && low == other_low,
        }
    }

    /// The bits of a signal; none where its range is at fault.
    pub fn shape(self, signed: bool) -> Option<Shape>
        ensures { result ≡ shape_of signed self }
    {
        match self {
            Reach::Scalar => Some(Shape {
                width: 1,
                signed,
                low: 0,
            }),
            Reach::Bits { width, low } => Some(Shape { width, signed, low }),
            Reach::Hidden => None,
        }
    }
}
