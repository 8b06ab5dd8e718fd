// Dates from texts.

ghost use Rattle.std.specs.Prelude.{◌≡◌, ◌<◌, ◌≤◌, ◌+◌, ◌-◌, ◌^◌, true, length};
ghost use Rattle.desk_dates.specs.Made.{seen};
ghost use Rattle.desk_dates.specs.Reading.{date_in, day_of_text, days_before, days_before_year, days_in_months, digit_at, is_date, is_date_text, pair_at};

use crate::calendar::{Date, month_days};
use desk_numbers::are_digits;
use desk_tables::{Day, FIRST_DAY};

// What a digit counts.
fn digit_at(place: usize, text: &[u8]) -> u32
    requires { place < length text.now }
    ensures digit { result ≡ digit_at place text.now }
    ensures small { result < 256 }
{
    u32::from(text[place].saturating_sub(b'0'))
}

// The number that two digits write.
fn pair_at(place: usize, text: &[u8]) -> u32
    requires { place + 1 < length text.now }
    ensures number { result ≡ pair_at place text.now }
    ensures small { result < 2816 }
{
    10 * digit_at(place, text) + digit_at(place + 1, text)
}

// Whether a text is written as `YYYY-MM-DD`.
fn is_date_text(text: &[u8]) -> bool
    ensures { result ≡ is_date_text text.now }
{
    text.len() == 10
        && are_digits(&text[..4])
        && text[4] == b'-'
        && are_digits(&text[5..7])
        && text[7] == b'-'
        && are_digits(&text[8..])
}

fn date_in(text: &[u8]) -> Date
    requires { length text.now ≡ 10 }
    ensures date { seen result ≡ date_in text.now }
    ensures small { result.year < 300000 }
{
    Date {
        year: 100 * pair_at(0, text) + pair_at(2, text),
        month: pair_at(5, text),
        day: pair_at(8, text),
    }
}

// Whether the calendar has the date.
fn is_date(date: Date) -> bool
    ensures { result ≡ is_date (seen date) }
{
    1 <= date.month
        && date.month <= 12
        && 1 <= date.day
        && date.day <= month_days(date.year, date.month)
}

// How many days come before a year, from 0000-01-01.
fn days_before_year(year: u32) -> u32
    requires { year < 300000 }
    ensures days { result ≡ days_before_year year }
    ensures small { result < 2 ^ 28 }
{
    365 * year + (year + 3) / 4 - (year + 99) / 100 + (year + 399) / 400
}

// How many days of its year come before a month.
fn days_before_month(year: u32, month: u32) -> u32
    requires some { 1 ≤ month }
    requires most { month ≤ 12 }
    ensures days { result ≡ days_in_months year (month - 1) }
    ensures small { result < 4096 }
{
    let mut days = 0;
    for passed in 1..month {
        days += month_days(year, passed);
    }
    days
}

// How many days come before a date, from 0000-01-01.
fn days_before(date: Date) -> u32
    requires year { date.year < 300000 }
    requires date { is_date (seen date) ≡ true }
    ensures days { result ≡ days_before (seen date) }
    ensures small { result < 2 ^ 29 }
{
    days_before_year(date.year) + days_before_month(date.year, date.month) + (date.day - 1)
}

/// The day whose date a text is, as `YYYY-MM-DD`; None where it isn't written so, or where the calendar has no such date.
pub fn day_of_text(text: &[u8]) -> Option<Day>
    ensures { result ≡ day_of_text text.now }
{
    if !is_date_text(text) {
        return None;
    }
    let date = date_in(text);
    if !is_date(date) {
        return None;
    }
    Day::new(days_before(date) as i32 + FIRST_DAY)
}
