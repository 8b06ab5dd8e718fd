//! The operators of sized expressions that those of the text are.

ghost use Rattle.std.specs.Prelude.{◌≡◌};
ghost use Rattle.elab_scope.specs.Operators.{operation, prefix};

use rtl_flat::expr::{Compare, Fold, Join, Link, Shift, Turn};
use rtl_tree::tree::operators::{BinaryOperator, UnaryOperator};

/// An operator before an operand, by how it sizes it.
#[derive(Clone, Copy, PartialEq, Eq, Debug)]
pub enum Prefix {
    Turn(Turn),
    Fold(Fold),
}

/// An operator between operands, by how it sizes them.
#[derive(Clone, Copy, PartialEq, Eq, Debug)]
pub enum Operation {
    Join(Join),
    Compare(Compare),
    Link(Link),
    Shift(Shift),
    /// What it makes is a literal.
    Power,
}

pub fn unary(operator: UnaryOperator) -> Prefix
    ensures { result ≡ prefix operator }
{
    match operator {
        UnaryOperator::Plus => Prefix::Turn(Turn::Plus),
        UnaryOperator::Minus => Prefix::Turn(Turn::Minus),
        UnaryOperator::BitwiseNot => Prefix::Turn(Turn::Complement),
        UnaryOperator::LogicalNot => Prefix::Fold(Fold::Negation),
        UnaryOperator::ReduceAnd => Prefix::Fold(Fold::And),
        UnaryOperator::ReduceNand => Prefix::Fold(Fold::Nand),
        UnaryOperator::ReduceOr => Prefix::Fold(Fold::Or),
        UnaryOperator::ReduceNor => Prefix::Fold(Fold::Nor),
        UnaryOperator::ReduceXor => Prefix::Fold(Fold::Xor),
        UnaryOperator::ReduceXnor => Prefix::Fold(Fold::Xnor),
    }
}

pub fn binary(operator: BinaryOperator) -> Operation
    ensures { result ≡ operation operator }
{
    match operator {
        BinaryOperator::Power => Operation::Power,
        BinaryOperator::Multiply => Operation::Join(Join::Multiply),
        BinaryOperator::Divide => Operation::Join(Join::Divide),
        BinaryOperator::Modulus => Operation::Join(Join::Remainder),
        BinaryOperator::Add => Operation::Join(Join::Add),
        BinaryOperator::Subtract => Operation::Join(Join::Subtract),
        BinaryOperator::ShiftLeft | BinaryOperator::ArithmeticShiftLeft => {
            Operation::Shift(Shift::Left)
        }
        BinaryOperator::ShiftRight => Operation::Shift(Shift::Right),
        BinaryOperator::ArithmeticShiftRight => Operation::Shift(Shift::ArithmeticRight),
        BinaryOperator::Less => Operation::Compare(Compare::Less),
        BinaryOperator::LessOrEqual => Operation::Compare(Compare::LessOrEqual),
        BinaryOperator::Greater => Operation::Compare(Compare::Greater),
        BinaryOperator::GreaterOrEqual => Operation::Compare(Compare::GreaterOrEqual),
        BinaryOperator::Equal => Operation::Compare(Compare::Equal),
        BinaryOperator::NotEqual => Operation::Compare(Compare::NotEqual),
        BinaryOperator::CaseEqual => Operation::Compare(Compare::CaseEqual),
        BinaryOperator::CaseNotEqual => Operation::Compare(Compare::CaseNotEqual),
        BinaryOperator::BitwiseAnd => Operation::Join(Join::And),
        BinaryOperator::BitwiseXor => Operation::Join(Join::Xor),
        BinaryOperator::BitwiseXnor => Operation::Join(Join::Xnor),
        BinaryOperator::BitwiseOr => Operation::Join(Join::Or),
        BinaryOperator::LogicalAnd => Operation::Link(Link::And),
        BinaryOperator::LogicalOr => Operation::Link(Link::Or),
    }
}
