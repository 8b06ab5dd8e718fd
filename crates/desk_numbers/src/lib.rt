//! Numbers as they are written, in decimal digits.
#![tactic(auto)]

mod number;

pub use number::{are_digits, is_number, is_plain, is_positive, number_up_to, significant};
