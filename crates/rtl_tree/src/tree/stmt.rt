// Statements, with the targets and delays of assignments.

ghost use Rattle.std.specs.Prelude.{◌≡◌, map};
ghost use Rattle.std.specs.Option.{option_map};
ghost use Rattle.rtl_tree.specs.TreeExpr.{formula, identifier};
ghost use Rattle.rtl_tree.specs.TreeStmt.{Block, Case, Joined, action, action_place, action_row, branch, branch_row, target, target_place, target_row};

use crate::literal::Literal;
use crate::tree::expr::Expr;
use crate::tree::names::Name;
use crate::tree::operators::PartKind;

/// The left side of an assignment (IEEE 1364-2001 annex A.8.5).
#[derive(Drop)]
pub enum Lvalue {
    /// `name`
    Whole(Name),
    /// `name[index]`
    Bit(Name, Expr),
    /// `name[msb:lsb]`, `name[base +: width]` or `name[base -: width]`
    Part(Name, PartKind, Expr, Expr),
    /// `{part, part}` and its place, at least one part
    Concat(u32, Vec<Lvalue>),
}

impl Lvalue {
    /// The place of the target.
    pub fn place(&self) -> u32
        ensures { result ≡ target_place (target self.now) }
    {
        match self {
            Lvalue::Whole(name) | Lvalue::Bit(name, _) | Lvalue::Part(name, _, _, _) => name.at,
            Lvalue::Concat(at, _) => *at,
        }
    }

    /// `{part, part}`
    pub fn concat(at: u32, parts: Vec<Lvalue>) -> Lvalue
        ensures { target result ≡ Joined at (target_row (map target parts.items)) }
    {
        Lvalue::Concat(at, parts)
    }
}

/// How long an assignment or a statement is delayed.
#[derive(Drop)]
pub enum Ticks {
    /// `#5`
    Number(Literal),
    /// `#name`
    Name(Name),
    /// `#(value)`
    Parens(Expr),
}

/// A delay.
#[derive(Drop)]
pub struct Delay {
    /// The place of its `#`.
    pub at: u32,
    pub ticks: Ticks,
}

/// When an assignment statement writes its target.
#[derive(Clone, Copy, PartialEq, Eq, Debug)]
pub enum AssignmentKind {
    /// `=`, at once
    Blocking,
    /// `<=`, when all active events are done
    Nonblocking,
}

/// Which bits of a `case` match anything.
#[derive(Clone, Copy, PartialEq, Eq, Debug)]
pub enum CaseKind {
    /// `case`: none
    Plain,
    /// `casez`: z
    Z,
    /// `casex`: x and z
    X,
}

/// A statement.
#[derive(Drop)]
#[cycle(stmt)]
pub enum Stmt {
    /// `;`
    Null(u32),
    /// `delay body`
    Delayed(Delay, Box<Stmt>),
    /// `target = delay value;` or `target <= delay value;`
    Assign(Lvalue, AssignmentKind, Option<Delay>, Expr),
    /// `if (condition) taken` without `else`
    If(u32, Expr, Box<Stmt>),
    /// `if (condition) taken else otherwise`
    IfElse(u32, Expr, Box<Stmt>, Box<Stmt>),
    Case {
        /// The place of its `case`, `casez` or `casex`.
        at: u32,
        kind: CaseKind,
        /// An attribute or a pragma says `full_case`.
        full: bool,
        /// An attribute or a pragma says `parallel_case`.
        parallel: bool,
        selector: Expr,
        /// At least one.
        items: Vec<CaseItem>,
    },
    /// `for (index = start; condition; stepped = step) body`
    For {
        at: u32,
        index: Name,
        start: Expr,
        condition: Expr,
        stepped: Name,
        step: Expr,
        body: Box<Stmt>,
    },
    /// `begin : label statements end`
    Block(u32, Option<Name>, Vec<Stmt>),
}

impl Stmt {
    /// The place of the statement.
    pub fn place(&self) -> u32
        ensures { result ≡ action_place (action self.now) }
    {
        match self {
            Stmt::Delayed(delay, _) => delay.at,
            Stmt::Assign(target, _, _, _) => target.place(),
            Stmt::Null(at)
            | Stmt::If(at, _, _)
            | Stmt::IfElse(at, _, _, _)
            | Stmt::Case { at, .. }
            | Stmt::For { at, .. }
            | Stmt::Block(at, _, _) => *at,
        }
    }

    /// A `case` of this kind.
    pub fn case(
        at: u32,
        kind: CaseKind,
        full: bool,
        parallel: bool,
        selector: Expr,
        items: Vec<CaseItem>,
    ) -> Stmt
        ensures { action result ≡ Case at kind full parallel (formula selector)
            (branch_row (map branch items.items)) }
    {
        Stmt::Case {
            at,
            kind,
            full,
            parallel,
            selector,
            items,
        }
    }

    /// `begin : label statements end`
    pub fn block(at: u32, label: Option<Name>, body: Vec<Stmt>) -> Stmt
        ensures { action result ≡ Block at (option_map identifier label)
            (action_row (map action body.items)) }
    {
        Stmt::Block(at, label, body)
    }
}

/// An item of a `case`.
#[derive(Drop)]
#[cycle(stmt)]
pub enum CaseItem {
    /// `label, label : body`, at least one label
    Labelled(Vec<Expr>, Stmt),
    /// `default : body`
    Default(u32, Stmt),
}
