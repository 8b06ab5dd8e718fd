// Why an expression has no constant number.

use thiserror::Error;

/// Why an expression has no constant number, with the place of the operand or operator.
#[derive(Clone, Copy, PartialEq, Eq, Debug, Error)]
pub enum ConstFault {
    /// A name without a number, a literal with an x or z bit, or a form that isn't constant.
    #[error("not constant")]
    NotConstant(u32),
    /// A number outside -2147483648 to 4294967295, or a shift by a negative amount.
    #[error("overflow")]
    Overflow(u32),
    #[error("division by zero")]
    DivideByZero(u32),
    #[error("out of memory")]
    Memory,
}
