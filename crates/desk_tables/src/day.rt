// Days of the calendar.
ghost use Rattle.std.specs.Prelude.{◌≡◌};
ghost use Rattle.desk_tables.specs.Days.{IsDay, day_of};

use std::marker::Model;

/// 0000-01-01, as a number of days since 1970-01-01.
pub const FIRST_DAY: i32 = -719_528;

/// 9999-12-31, as a number of days since 1970-01-01.
const LAST_DAY: i32 = 2_932_896;

/// A day of the years 0000 to 9999, which contracts see as the number of days since 1970-01-01.
#[derive(Clone, Copy, Debug)]
pub struct Day {
    number: i32,
}

impl Model for Day {
    ghost use Rattle.std.specs.Prelude.{ℤ};
    ghost use Rattle.desk_tables.specs.Days.{IsDay};

    ghost Value = { ℤ };

    ghost view = { λ day. day.number };

    ghost invariant = { λ day. IsDay day.number };

    ghost inverse = { λ days. record { number = days } };
}

impl Day {
    /// The day that is so many days after 1970-01-01; None before 0000-01-01 and after 9999-12-31.
    pub fn new(number: i32) -> Option<Day>
        ensures { result ≡ day_of number }
    {
        if number < FIRST_DAY || number > LAST_DAY {
            return None;
        }
        Some(Day { number })
    }

    /// How many days after 1970-01-01 it is.
    pub fn number(self) -> i32
        ensures same { result ≡ self }
        ensures in_range { IsDay result }
    {
        self.number
    }
}
