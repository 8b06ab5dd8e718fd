// Gates as they are written, among the items of a module.

use crate::tree::expr::Expr;
use crate::tree::names::Name;
use crate::tree::stmt::{Lvalue, Ticks};

/// What a gate gives of its inputs (IEEE 1364-2001 sections 7.2 and 7.3).
#[derive(Clone, Copy, PartialEq, Eq, Debug)]
pub enum GateKind {
    And,
    Nand,
    Or,
    Nor,
    Xor,
    Xnor,
    Buf,
    Not,
}

/// How long gates are delayed.
#[derive(Drop)]
pub enum GateTicks {
    /// As an assignment is.
    One(Ticks),
    /// `#(rise, fall)`
    Two(Expr, Expr),
}

/// The delay of gates.
#[derive(Drop)]
pub struct GateDelay {
    /// The place of its `#`.
    pub at: u32,
    pub ticks: GateTicks,
}

/// `name(output, terminal, terminal)` after the kind of a gate.
#[derive(Drop)]
pub struct Gate {
    pub name: Option<Name>,
    pub output: Lvalue,
    /// At least one. Each is an input, but for `buf` and `not`, where all but the last are further outputs: a name, which
    /// may have a select.
    pub terminals: Vec<Expr>,
}
