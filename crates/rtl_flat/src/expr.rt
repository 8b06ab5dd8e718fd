//! Sized expressions.

use rtl_bits::Vec4;
use text_ground::text::Spot;

/// The number of a signal in its design, from 0.
#[derive(Clone, Copy, PartialEq, Eq, PartialOrd, Ord, Debug)]
pub struct SigId(pub u32);

/// Unary operators whose operand takes the width and sign of the expression.
#[derive(Clone, Copy, PartialEq, Eq, Debug)]
pub enum Turn {
    Plus,
    Minus,
    /// `~`
    Complement,
}

/// Binary operators whose operands both take the width and sign of the expression.
#[derive(Clone, Copy, PartialEq, Eq, Debug)]
pub enum Join {
    Add,
    Subtract,
    Multiply,
    Divide,
    Remainder,
    And,
    Or,
    Xor,
    Xnor,
}

/// Operators with an answer of one bit, whose operands are sized with each other.
#[derive(Clone, Copy, PartialEq, Eq, Debug)]
pub enum Compare {
    Equal,
    NotEqual,
    /// `===`
    CaseEqual,
    /// `!==`
    CaseNotEqual,
    Less,
    LessOrEqual,
    Greater,
    GreaterOrEqual,
}

/// Logical operators, each operand sized by itself.
#[derive(Clone, Copy, PartialEq, Eq, Debug)]
pub enum Link {
    And,
    Or,
}

/// Operators from all bits of one operand, which is sized by itself, to one bit.
#[derive(Clone, Copy, PartialEq, Eq, Debug)]
pub enum Fold {
    /// `!`
    Negation,
    And,
    Nand,
    Or,
    Nor,
    Xor,
    Xnor,
}

/// Shifts: the left operand takes the width and sign of the expression, the amount is sized by
/// itself.
#[derive(Clone, Copy, PartialEq, Eq, Debug)]
pub enum Shift {
    /// `<<` and `<<<`
    Left,
    /// `>>`
    Right,
    /// `>>>`
    ArithmeticRight,
}

/// Which bit of a signal, in the numbering of its declaration.
#[derive(Drop)]
#[cycle(expr)]
pub enum Index {
    Fixed(i64),
    Computed(Box<SizedExpr>),
}

/// What of a signal is meant.
#[derive(Drop)]
#[cycle(expr)]
pub enum Select {
    Whole,
    /// A bit. `low` is the number that the declaration gives to bit 0 of the value.
    Bit { low: u32, index: Index },
    /// A part: `width` bits from the place `low` on, counted from bit 0 of the value.
    Part { low: u8, width: u8 },
}

/// A form of expression with its operands.
#[derive(Drop)]
#[cycle(expr)]
pub enum Node {
    /// A literal at the width of its expression.
    Literal(Vec4),
    Read(SigId, Select),
    Turned(Turn, Box<SizedExpr>),
    Joined(Join, Box<SizedExpr>, Box<SizedExpr>),
    Compared(Compare, Box<SizedExpr>, Box<SizedExpr>),
    Linked(Link, Box<SizedExpr>, Box<SizedExpr>),
    Folded(Fold, Box<SizedExpr>),
    Shifted(Shift, Box<SizedExpr>, Box<SizedExpr>),
    /// `?:`: the condition and the two arms.
    Chosen(Box<SizedExpr>, Box<SizedExpr>, Box<SizedExpr>),
    /// A concatenation, from left to right.
    Concat(Vec<SizedExpr>),
    Repeated(u32, Box<SizedExpr>),
    /// `$signed` or `$unsigned`: the bits of the operand, sized by itself.
    Recast(Box<SizedExpr>),
}

/// An expression with its width and its sign, those of its context where the form takes them from
/// there.
#[derive(Drop)]
#[cycle(expr)]
pub struct SizedExpr {
    /// In bits, from 1 to 128.
    pub width: u8,
    pub signed: bool,
    pub node: Node,
    pub spot: Spot,
}
