// The calendar of Gregory.
ghost use Rattle.std.specs.Prelude.{◌≡◌, ◌≤◌, ◌<◌, ◌^◌};
ghost use Rattle.desk_dates.specs.Dates.{date_after, date_of, in_months, in_years, is_leap, month_days, year_days};
ghost use Rattle.desk_dates.specs.Made.{seen};

use desk_tables::{Day, FIRST_DAY};

// A day of a month of a year, each of these two from 1.
#[derive(Clone, Copy)]
pub(crate) struct Date {
    pub(crate) year: u32,
    pub(crate) month: u32,
    pub(crate) day: u32,
}

fn is_leap(year: u32) -> bool
    ensures { result ≡ is_leap year }
{
    year % 4 == 0 && (year % 100 != 0 || year % 400 == 0)
}

fn year_days(year: u32) -> u32
    ensures days { result ≡ year_days year }
{
    if is_leap(year) { 366 } else { 365 }
}

pub(crate) fn month_days(year: u32, month: u32) -> u32
    ensures { result ≡ month_days year month }
{
    match month {
        2 => { if is_leap(year) { 29 } else { 28 } }
        4 | 6 | 9 | 11 => 30,
        _ => 31,
    }
}

// The date of a day of a year, both from 0.
#[tactic(auto, using(crate::proofs::Turns::in_months_turn, crate::proofs::Turns::in_months_end))]
fn date_in_year(year: u32, day: u32) -> Date
    requires { day < 2 ^ 20 }
    ensures { seen result ≡ in_months 11 year 1 day }
{
    let mut month = 1;
    let mut days = day;
    for _turn in 0..11_u32 {
        let length = month_days(year, month);
        if days < length {
            return Date {
                year,
                month,
                day: days + 1,
            };
        }
        days -= length;
        month += 1;
    }
    Date {
        year,
        month,
        day: days + 1,
    }
}

// The date of so many days after the first of a year.
#[tactic(auto, using(crate::proofs::Turns::in_years_turn, crate::proofs::Turns::in_years_end))]
fn date_in_years(from: u32, whole: u32) -> Date
    requires year { from ≤ 10000 }
    requires days { whole < 2 ^ 20 }
    ensures { seen result ≡ in_years 399 from whole }
{
    let mut year = from;
    let mut days = whole;
    for _turn in 0..399_u32 {
        let length = year_days(year);
        if days < length {
            return date_in_year(year, days);
        }
        days -= length;
        year += 1;
    }
    date_in_year(year, days)
}

// The date of a day.
#[tactic(auto, unfolding(crate::specs::Dates::date_after))]
pub(crate) fn date_of(day: Day) -> Date
    ensures { seen result ≡ date_of day }
{
    let days = (day.number() - FIRST_DAY) as u32;
    date_in_years(400 * (days / 146_097), days % 146_097)
}
