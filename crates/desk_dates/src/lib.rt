//! Days of the desk as dates of the calendar.
#![tactic(auto)]

mod calendar;
mod reading;
mod text;

pub use reading::day_of_text;
pub use text::date_digits;
