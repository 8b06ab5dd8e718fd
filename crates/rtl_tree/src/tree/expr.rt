// Expressions.

ghost use Rattle.std.specs.Prelude.{◌≡◌, map};
ghost use Rattle.rtl_tree.specs.TreeExpr.{Concat, Repeat, formula, formula_place, formula_row};

use crate::literal::Literal;
use crate::tree::names::Name;
use crate::tree::operators::{BinaryOperator, PartKind, SystemFunction, UnaryOperator};

/// An expression as it is written, each node with its place.
#[derive(Drop)]
pub enum Expr {
    /// A number.
    Number(Literal, u32),
    /// `name`
    Read(Name),
    /// `name[index]`
    ReadBit(Name, Box<Expr>),
    /// `name[msb:lsb]`, `name[base +: width]` or `name[base -: width]`
    ReadPart(Name, PartKind, Box<Expr>, Box<Expr>),
    /// `(inner)`
    Parens(u32, Box<Expr>),
    /// `$signed(inner)`, `$unsigned(inner)` or `$clog2(inner)`
    Apply(SystemFunction, u32, Box<Expr>),
    /// `{part, part}`, at least one part
    Concat(u32, Vec<Expr>),
    /// `{times{part, part}}`, at least one part
    Repeat(u32, Box<Expr>, Vec<Expr>),
    /// `operator operand`
    Unary(UnaryOperator, u32, Box<Expr>),
    /// `left operator right`
    Binary(BinaryOperator, u32, Box<Expr>, Box<Expr>),
    /// `condition ? taken : otherwise`
    Choose(u32, Box<Expr>, Box<Expr>, Box<Expr>),
}

impl Expr {
    /// `{part, part}`
    pub fn concat(at: u32, parts: Vec<Expr>) -> Expr
        ensures { formula result ≡ Concat at (formula_row (map formula parts.items)) }
    {
        Expr::Concat(at, parts)
    }

    /// `{times{part, part}}`
    pub fn repeat(at: u32, times: Box<Expr>, parts: Vec<Expr>) -> Expr
        ensures { formula result ≡ Repeat at (formula times.value)
            (formula_row (map formula parts.items)) }
    {
        Expr::Repeat(at, times, parts)
    }

    /// The place of the expression.
    pub fn place(&self) -> u32
        ensures { result ≡ formula_place (formula self.now) }
    {
        match self {
            Expr::Read(name) | Expr::ReadBit(name, _) | Expr::ReadPart(name, _, _, _) => name.at,
            Expr::Number(_, at)
            | Expr::Parens(at, _)
            | Expr::Apply(_, at, _)
            | Expr::Concat(at, _)
            | Expr::Repeat(at, _, _)
            | Expr::Unary(_, at, _)
            | Expr::Binary(_, at, _, _)
            | Expr::Choose(at, _, _, _) => *at,
        }
    }
}

/// `[msb:lsb]` in a declaration.
#[derive(Drop)]
pub struct Range {
    /// The place of its `[`.
    pub at: u32,
    pub msb: Expr,
    pub lsb: Expr,
}
