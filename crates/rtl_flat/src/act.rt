//! Processes: continuous assignments and the bodies of `always`.

use crate::expr::{Select, SigId, SizedExpr};
use rtl_bits::Edge;
use text_ground::text::Spot;

/// The number of a process in its design, from 0.
#[derive(Clone, Copy, PartialEq, Eq, PartialOrd, Ord, Debug)]
pub struct ProcId(pub u32);

/// A signal, or a part of one, that is assigned.
#[derive(Drop)]
pub struct TargetPart {
    pub signal: SigId,
    pub select: Select,
    pub spot: Spot,
}

/// What is assigned: its parts from left to right.
#[derive(Drop)]
pub struct Target {
    pub parts: Vec<TargetPart>,
}

/// An item of a sensitivity list; `Edge::No` for one without an edge.
#[derive(Drop)]
pub struct EventItem {
    pub signal: SigId,
    pub select: Select,
    pub edge: Edge,
    pub spot: Spot,
}

/// The sensitivity list of a body without edges.
#[derive(Drop)]
pub enum Listed {
    /// `@*`
    Star,
    Items(Vec<EventItem>),
}

/// Which labels of a case match.
#[derive(Clone, Copy, PartialEq, Eq, Debug)]
pub enum CaseKind {
    /// `case`
    Plain,
    /// `casez`
    Z,
    /// `casex`
    X,
}

/// An item of a case.
#[derive(Drop)]
#[cycle(act)]
pub struct CaseItem {
    pub labels: Vec<SizedExpr>,
    pub body: Vec<Act>,
}

/// A statement.
#[derive(Drop)]
#[cycle(act)]
pub enum Act {
    /// An assignment; `delayed` where it is nonblocking.
    Set {
        target: Target,
        value: SizedExpr,
        delayed: bool,
        spot: Spot,
    },
    If {
        test: SizedExpr,
        yes: Vec<Act>,
        no: Option<Vec<Act>>,
        spot: Spot,
    },
    /// A case; `fallback` is the body of `default`.
    Case {
        kind: CaseKind,
        /// It carries `full_case`.
        full: bool,
        /// It carries `parallel_case`.
        parallel: bool,
        selector: SizedExpr,
        items: Vec<CaseItem>,
        fallback: Option<Vec<Act>>,
        spot: Spot,
    },
    Block(Vec<Act>),
}

/// What a process does.
#[derive(Drop)]
pub enum Does {
    /// A continuous assignment, a net's `= value` or a connection of a port.
    Assign {
        target: Target,
        value: SizedExpr,
    },
    /// An `always` without edges.
    Comb {
        list: Listed,
        body: Vec<Act>,
    },
    /// An `always` with an edge.
    Edge {
        events: Vec<EventItem>,
        body: Vec<Act>,
    },
}

/// A process with the instance that it stands in.
#[derive(Drop)]
pub struct Process {
    pub does: Does,
    /// The number of its instance, from 0.
    pub instance: u32,
    pub spot: Spot,
}
