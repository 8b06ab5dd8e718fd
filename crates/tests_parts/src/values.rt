//! Days as dates, and values as a report writes them.

use crate::stop::Stop;
use desk_dates::date_digits;
use desk_report::{push_value, value_text};
use desk_tables::Day;
use rtl_bits::{Bit, Vec4};
use std::alloc::Global;

/// The day of a number, as a date.
pub fn date(alloc: Global, text: &[u8]) -> Result<Vec<u8>, Stop> {
    match day_of(text) {
        Some(day) => Ok(Vec::from_slice(alloc, date_digits(day).as_slice())?),
        None => Err(Stop::NoCall),
    }
}

fn day_of(text: &[u8]) -> Option<Day> {
    let number = str::from_utf8(text).ok()?.parse::<i32>().ok()?;
    Day::new(number)
}

fn bit(letter: &str) -> Bit {
    match letter {
        "0" => Bit::Zero,
        "1" => Bit::One,
        "z" => Bit::Z,
        _ => Bit::X,
    }
}

fn filled(width: u8, letter: &str) -> Option<Vec4> {
    match width {
        1..=128 => Some(Vec4::filled(width, bit(letter))),
        _ => None,
    }
}

/// The value that is `WIDTH number HEX` or `WIDTH all BIT`.
fn value(text: &[u8]) -> Option<Vec4> {
    let (width, rest) = str::from_utf8(text).ok()?.split_once(" ")?;
    let (kind, digits) = rest.split_once(" ")?;
    let width = width.parse::<u8>().ok()?;
    match kind {
        "number" => Vec4::known(width, u128::from_str_radix(digits, 16).ok()?),
        "all" => filled(width, digits),
        _ => None,
    }
}

/// A value as a text of its own, and behind another.
pub fn told(alloc: Global, text: &[u8]) -> Result<Vec<u8>, Stop> {
    let Some(value) = value(text) else {
        return Err(Stop::NoCall);
    };
    let own = value_text(alloc, value)?;
    let mut out = Vec::from_slice(alloc, own.as_bytes())?;
    out.extend_from_slice(b" y=")?;
    push_value(alloc, value, &mut out)?;
    Ok(out)
}
