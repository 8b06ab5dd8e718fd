// The operators that tokens write, and how loosely they bind (IEEE 1364-2001 section 4.1.2).

ghost use Rattle.std.specs.Prelude.{◌≡◌};
ghost use Rattle.text_grammar.specs.GrammarExpr as grammar;
ghost use Rattle.text_build.specs.ReadingExpr as reading;

use rtl_tree::symbol::Symbol;
use rtl_tree::tree::operators::{BinaryOperator, PartKind, UnaryOperator};

/// The operator between operands that is written so.
#[tactic(auto, unfolding(crate::specs::ReadingExpr::binary_of))]
pub(crate) fn binary_of(symbol: Symbol) -> Option<BinaryOperator>
    ensures { result ≡ reading.binary_of symbol }
{
    match symbol {
        Symbol::StarStar => Some(BinaryOperator::Power),
        Symbol::Star => Some(BinaryOperator::Multiply),
        Symbol::Slash => Some(BinaryOperator::Divide),
        Symbol::Percent => Some(BinaryOperator::Modulus),
        Symbol::Plus => Some(BinaryOperator::Add),
        Symbol::Minus => Some(BinaryOperator::Subtract),
        Symbol::ShiftLeft => Some(BinaryOperator::ShiftLeft),
        Symbol::ShiftRight => Some(BinaryOperator::ShiftRight),
        Symbol::ArithmeticShiftLeft => Some(BinaryOperator::ArithmeticShiftLeft),
        Symbol::ArithmeticShiftRight => Some(BinaryOperator::ArithmeticShiftRight),
        Symbol::Less => Some(BinaryOperator::Less),
        Symbol::LessEquals => Some(BinaryOperator::LessOrEqual),
        Symbol::Greater => Some(BinaryOperator::Greater),
        Symbol::GreaterEquals => Some(BinaryOperator::GreaterOrEqual),
        Symbol::EqualEquals => Some(BinaryOperator::Equal),
        Symbol::BangEquals => Some(BinaryOperator::NotEqual),
        Symbol::CaseEquals => Some(BinaryOperator::CaseEqual),
        Symbol::CaseBangEquals => Some(BinaryOperator::CaseNotEqual),
        Symbol::Ampersand => Some(BinaryOperator::BitwiseAnd),
        Symbol::Caret => Some(BinaryOperator::BitwiseXor),
        Symbol::TildeCaret => Some(BinaryOperator::BitwiseXnor),
        Symbol::Bar => Some(BinaryOperator::BitwiseOr),
        Symbol::AndAnd => Some(BinaryOperator::LogicalAnd),
        Symbol::OrOr => Some(BinaryOperator::LogicalOr),
        _ => None,
    }
}

/// The operator before an operand that is written so.
#[tactic(auto, unfolding(crate::specs::ReadingExpr::unary_of))]
pub(crate) fn unary_of(symbol: Symbol) -> Option<UnaryOperator>
    ensures { result ≡ reading.unary_of symbol }
{
    match symbol {
        Symbol::Plus => Some(UnaryOperator::Plus),
        Symbol::Minus => Some(UnaryOperator::Minus),
        Symbol::Bang => Some(UnaryOperator::LogicalNot),
        Symbol::Tilde => Some(UnaryOperator::BitwiseNot),
        Symbol::Ampersand => Some(UnaryOperator::ReduceAnd),
        Symbol::TildeAmpersand => Some(UnaryOperator::ReduceNand),
        Symbol::Bar => Some(UnaryOperator::ReduceOr),
        Symbol::TildeBar => Some(UnaryOperator::ReduceNor),
        Symbol::Caret => Some(UnaryOperator::ReduceXor),
        Symbol::TildeCaret => Some(UnaryOperator::ReduceXnor),
        _ => None,
    }
}

/// How loosely an operator binds, from 1 to 11.
pub fn level(operator: BinaryOperator) -> u32
    ensures { result ≡ grammar.level operator }
{
    match operator {
        BinaryOperator::Power => 1,
        BinaryOperator::Multiply | BinaryOperator::Divide | BinaryOperator::Modulus => 2,
        BinaryOperator::Add | BinaryOperator::Subtract => 3,
        BinaryOperator::ShiftLeft
        | BinaryOperator::ShiftRight
        | BinaryOperator::ArithmeticShiftLeft
        | BinaryOperator::ArithmeticShiftRight => 4,
        BinaryOperator::Less
        | BinaryOperator::LessOrEqual
        | BinaryOperator::Greater
        | BinaryOperator::GreaterOrEqual => 5,
        BinaryOperator::Equal
        | BinaryOperator::NotEqual
        | BinaryOperator::CaseEqual
        | BinaryOperator::CaseNotEqual => 6,
        BinaryOperator::BitwiseAnd => 7,
        BinaryOperator::BitwiseXor | BinaryOperator::BitwiseXnor => 8,
        BinaryOperator::BitwiseOr => 9,
        BinaryOperator::LogicalAnd => 10,
        BinaryOperator::LogicalOr => 11,
    }
}

fn level_or(level_without: u32, operator: Option<BinaryOperator>) -> u32
    ensures { result ≡ reading.level_or level_without operator }
{
    match operator {
        Some(operator) => level(operator),
        None => level_without,
    }
}

/// How loosely what goes on with an expression binds: `?` as level 12, and above it what doesn't go on.
#[tactic(auto, unfolding(crate::specs::ReadingExpr::looseness))]
pub fn looseness(symbol: Symbol) -> u32
    ensures { result ≡ reading.looseness symbol }
{
    match symbol {
        Symbol::Question => 12,
        _ => level_or(13, binary_of(symbol)),
    }
}

/// The kind of part of a name that is written so between two expressions.
#[tactic(auto, unfolding(crate::specs::ReadingExpr::part_of))]
pub(crate) fn part_of(symbol: Symbol) -> Option<PartKind>
    ensures { result ≡ reading.part_of symbol }
{
    match symbol {
        Symbol::Colon => Some(PartKind::Between),
        Symbol::PlusColon => Some(PartKind::Up),
        Symbol::MinusColon => Some(PartKind::Down),
        _ => None,
    }
}

/// What stands between the two expressions of a part.
pub(crate) fn part_symbol(kind: PartKind) -> Symbol
    ensures { result ≡ grammar.part_symbol kind }
{
    match kind {
        PartKind::Between => Symbol::Colon,
        PartKind::Up => Symbol::PlusColon,
        PartKind::Down => Symbol::MinusColon,
    }
}
