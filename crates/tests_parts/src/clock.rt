//! The day by the system's clock.

use crate::calls::say;
use crate::stop::Stop;
use desk_dates::date_digits;
use desk_links::{Clock as Days, SystemClock};
use desk_tables::Day;
use std::alloc::Global;
use std::time::Clock;

const SECONDS_A_DAY: u64 = 86_400;

/// 2026-01-01, as a number of days since 1970-01-01.
const FIRST_PLAUSIBLE: i32 = 20_454;

/// How many days the system counts since 1970-01-01.
fn counted(rt: &HostRuntime) -> Result<i64, Stop> {
    let seconds = rt.since_1970()?.as_secs();
    match i64::try_from(seconds / SECONDS_A_DAY) {
        Ok(days) => Ok(days),
        Err(_) => Err(Stop::System),
    }
}

fn today(rt: &HostRuntime) -> Result<Day, Stop> {
    let mut clock = SystemClock::new(rt);
    match clock.today() {
        Ok(day) => Ok(day),
        Err(_) => Err(Stop::System),
    }
}

/// A date with a letter for each digit.
fn put_form(day: Day, out: &mut Vec<u8>) -> Result<(), Stop> {
    for byte in date_digits(day) {
        out.push(if byte.is_ascii_digit() { b'd' } else { byte })?;
    }
    Ok(())
}

/// The form of the day's date, and whether the day is one of this year or later and the one that
/// the system counts.
pub fn told(rt: &HostRuntime) -> Result<Vec<u8>, Stop> {
    let alloc: Global = rt.alloc();
    let before = counted(rt)?;
    let day = today(rt)?;
    let after = counted(rt)?;
    let number = i64::from(day.number());
    let is_plausible = day.number() >= FIRST_PLAUSIBLE;
    let is_counted = before <= number && number <= after;
    let mut out = Vec::new(alloc);
    put_form(day, &mut out)?;
    let told = format!(in alloc; "\nfrom 2026 on {is_plausible}\nas counted {is_counted}\n")?;
    say(&mut out, &told)?;
    Ok(out)
}
