// Dates as texts.
ghost use Rattle.std.specs.Prelude.{◌≡◌};
ghost use Rattle.desk_dates.specs.Dates.{date_text, digit, written};
ghost use Rattle.desk_dates.specs.Made.{seen};

use crate::calendar::{Date, date_of};
use desk_tables::Day;

// The last digit of a number.
fn digit(number: u32) -> u8
    ensures { result ≡ digit number }
{
    b'0' + (number % 10) as u8
}

fn written(date: Date) -> [u8; 10]
    ensures { result ≡ written (seen date) }
{
    [
        digit(date.year / 100 / 10),
        digit(date.year / 100),
        digit(date.year / 10),
        digit(date.year),
        b'-',
        digit(date.month / 10),
        digit(date.month),
        b'-',
        digit(date.day / 10),
        digit(date.day),
    ]
}

/// The date of a day as `YYYY-MM-DD`. It takes no memory.
#[tactic(auto, unfolding(crate::specs::Dates::date_text))]
pub fn date_digits(day: Day) -> [u8; 10]
    ensures { result ≡ date_text day }
{
    written(date_of(day))
}
