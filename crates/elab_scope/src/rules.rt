//! The rules on single parts of expressions. Each gives the fault that is told after its own, where `best` was told
//! before.

ghost use Rattle.std.specs.Prelude.{◌≡◌};
ghost use Rattle.std.specs.Option.{option_map};
ghost use Rattle.rtl_tree.specs.TreeExpr.{identifier};
ghost use Rattle.elab_scope.specs.Faults.{after, keep, refusal};
ghost use Rattle.elab_scope.specs.Rules.{const_place, count_faults, function_faults, index_faults, may_write, number_faults, part_faults, range_faults, read_faults, run_faults, select_faults, times_faults, width_faults, write_faults};

use crate::fault::{Cause, Fault};
use crate::known::{Known, Role};
use crate::widths::{Breadth, field_of};
use rtl_const::fault::ConstFault;
use rtl_tree::tree::names::Name;
use rtl_tree::tree::operators::{PartKind, SystemFunction};

/// The kind of an assignment.
#[derive(Clone, Copy, PartialEq, Eq, Debug)]
pub enum Writer {
    /// An `assign`, a net's value or a connection of a port.
    Continuous,
    /// A statement of an `always`.
    Procedural,
}

fn at<'a>(best: Option<Fault<'a>>, at: u32, cause: Cause<'a>) -> Option<Fault<'a>>
    ensures { option_map refusal result
        ≡ keep (option_map refusal best.entry) (refusal (record { at = at; cause = cause.entry })) }
{
    Fault::keep(best, Fault { at, cause })
}

/// What is read is declared, and an `integer` is read in its own loop alone.
pub fn read<'a>(name: &'a Name, known: Option<Known>, best: Option<Fault<'a>>) -> Option<Fault<'a>>
    ensures { option_map refusal result
        ≡ after (option_map refusal best.entry) (read_faults (identifier name.now) known) }
{
    match known {
        None => at(best, name.at, Cause::Undeclared(&name.text)),
        Some(Known::Integer(None)) => at(best, name.at, Cause::NotAssignable(&name.text)),
        Some(_) => best,
    }
}

/// Only signals have bits to select.
pub fn range<'a>(name: &'a Name, known: Option<Known>, best: Option<Fault<'a>>) -> Option<Fault<'a>>
    ensures { option_map refusal result
        ≡ after (option_map refusal best.entry) (range_faults (identifier name.now) known) }
{
    match known {
        Some(Known::Parameter { .. }) | Some(Known::Integer(_)) => at(best, name.at, Cause::Range),
        None | Some(Known::Signal { .. }) => best,
    }
}

/// What bits are read of is declared, and has bits.
#[tactic(auto, using(crate::proofs::Least::after_append))]
pub fn select<'a>(
    name: &'a Name,
    known: Option<Known>,
    best: Option<Fault<'a>>,
) -> Option<Fault<'a>>
    ensures { option_map refusal result
        ≡ after (option_map refusal best.entry) (select_faults (identifier name.now) known) }
{
    range(name, known, read(name, known, best))
}

fn const_place(cause: ConstFault) -> u32
    ensures { result ≡ const_place cause }
{
    match cause {
        ConstFault::NotConstant(at) | ConstFault::Overflow(at) | ConstFault::DivideByZero(at) => at,
        ConstFault::Memory => 0,
    }
}

/// What has to be constant has a number.
pub fn number<'a>(number: Result<i64, ConstFault>, best: Option<Fault<'a>>) -> Option<Fault<'a>>
    ensures { option_map refusal result
        ≡ after (option_map refusal best.entry) (number_faults number) }
{
    match number {
        Ok(_) => best,
        Err(cause) => at(best, const_place(cause), Cause::Const(cause)),
    }
}

/// `$clog2` has a number.
pub fn function<'a>(
    function: SystemFunction,
    number: Result<i64, ConstFault>,
    best: Option<Fault<'a>>,
) -> Option<Fault<'a>>
    ensures { option_map refusal result
        ≡ after (option_map refusal best.entry) (function_faults function number) }
{
    match function {
        SystemFunction::Signed | SystemFunction::Unsigned => best,
        SystemFunction::Clog2 => self::number(number, best),
    }
}

/// A repetition at a place is made a constant number of times, and at least once.
pub fn times<'a>(
    place: u32,
    times: Result<i64, ConstFault>,
    best: Option<Fault<'a>>,
) -> Option<Fault<'a>>
    ensures { option_map refusal result
        ≡ after (option_map refusal best.entry) (times_faults place times) }
{
    match times {
        Ok(times) if times < 1 => at(best, place, Cause::Width),
        Ok(_) => best,
        Err(cause) => at(best, const_place(cause), Cause::Const(cause)),
    }
}

/// A run has from 1 to 128 bits.
pub fn run<'a>(
    place: u32,
    kind: PartKind,
    width: Result<i64, ConstFault>,
    best: Option<Fault<'a>>,
) -> Option<Fault<'a>>
    ensures { option_map refusal result
        ≡ after (option_map refusal best.entry) (run_faults place kind width) }
{
    match kind {
        PartKind::Between => best,
        PartKind::Up | PartKind::Down => count(place, width, best),
    }
}

/// A number of bits is from 1 to 128.
fn count<'a>(
    place: u32,
    count: Result<i64, ConstFault>,
    best: Option<Fault<'a>>,
) -> Option<Fault<'a>>
    ensures { option_map refusal result
        ≡ after (option_map refusal best.entry) (count_faults place count) }
{
    match count {
        Ok(count) if count < 1 || count > 128 => at(best, place, Cause::Width),
        _ => best,
    }
}

/// A part-select lies inside its signal, from its high end down to its low one.
pub fn part<'a>(
    place: u32,
    known: Option<Known>,
    msb: Result<i64, ConstFault>,
    lsb: Result<i64, ConstFault>,
    best: Option<Fault<'a>>,
) -> Option<Fault<'a>>
    ensures { option_map refusal result
        ≡ after (option_map refusal best.entry) (part_faults place known msb lsb) }
{
    match (known, msb, lsb) {
        (
            Some(
                Known::Signal {
                    shape: Some(shape),
                    ..
                },
            ),
            Ok(msb),
            Ok(lsb),
        ) => {
            match field_of(shape, msb, lsb) {
                Some(_) => best,
                None => at(best, place, Cause::Range),
            }
        }
        (Some(Known::Signal { shape: None, .. }), Ok(msb), Ok(lsb)) => {
            if 0 <= lsb && lsb <= msb {
                best
            } else {
                at(best, place, Cause::Range)
            }
        }
        _ => best,
    }
}

/// An expression has from 1 to 128 bits.
pub fn width<'a>(place: u32, breadth: Breadth, best: Option<Fault<'a>>) -> Option<Fault<'a>>
    ensures { option_map refusal result
        ≡ after (option_map refusal best.entry) (width_faults place breadth) }
{
    match breadth {
        Breadth::Unfit => at(best, place, Cause::Width),
        Breadth::Bits(_) | Breadth::Hidden => best,
    }
}

fn may_write(by: Writer, known: Known) -> bool
    ensures { result ≡ may_write by known }
{
    match (by, known) {
        (Writer::Continuous, Known::Signal { role, .. }) => role == Role::Net,
        (Writer::Procedural, Known::Signal { role, .. }) => role == Role::Variable,
        (_, Known::Parameter { .. }) | (_, Known::Integer(_)) => false,
    }
}

/// What is written is declared, and may be written.
pub fn write<'a>(
    by: Writer,
    name: &'a Name,
    known: Option<Known>,
    best: Option<Fault<'a>>,
) -> Option<Fault<'a>>
    ensures { option_map refusal result
        ≡ after (option_map refusal best.entry) (write_faults by (identifier name.now) known) }
{
    let Some(known) = known else {
        return at(best, name.at, Cause::Undeclared(&name.text));
    };
    if may_write(by, known) {
        best
    } else {
        at(best, name.at, Cause::NotAssignable(&name.text))
    }
}

/// A continuous assignment writes the same bit at all times.
pub fn index<'a>(
    by: Writer,
    name: &'a Name,
    index: Result<i64, ConstFault>,
    best: Option<Fault<'a>>,
) -> Option<Fault<'a>>
    ensures { option_map refusal result
        ≡ after (option_map refusal best.entry) (index_faults by (identifier name.now) index) }
{
    match (by, index) {
        (Writer::Continuous, Err(_)) => at(best, name.at, Cause::NotAssignable(&name.text)),
        _ => best,
    }
}
