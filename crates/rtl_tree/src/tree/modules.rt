// Modules.

use crate::tree::expr::{Expr, Range};
use crate::tree::item::{Item, PortHead};
use crate::tree::names::Name;
use crate::tree::written::WrittenItem;
use text_ground::dropped::Dropped;

/// `parameter range` before a parameter of a module's head.
#[derive(Drop)]
pub struct ParameterHead {
    pub at: u32,
    pub range: Option<Range>,
}

/// A parameter of a module's head.
#[derive(Drop)]
pub struct HeadParameter {
    /// Without one it has the head of the parameter before it.
    pub head: Option<ParameterHead>,
    pub name: Name,
    pub value: Expr,
}

/// A port that a module's head declares.
#[derive(Drop)]
pub struct HeadPort {
    /// Without one it has the head of the port before it.
    pub head: Option<PortHead>,
    pub name: Name,
}

/// The list of ports in a module's head.
#[derive(Drop)]
pub enum PortList {
    /// None is written.
    Absent,
    /// `()`
    Empty,
    /// `(head name, name)`
    Declared(Vec<HeadPort>),
    /// `(name, name)`, declared by items
    Named(Vec<Name>),
}

/// A generate construct of a module, and which names are genvars.
#[derive(Drop)]
pub struct Construct {
    /// How many of the module's items stand before it.
    pub position: usize,
    pub written: WrittenItem,
}

/// A module whose gates are assignments.
#[derive(Drop)]
pub struct Module {
    /// The place of its `module`.
    pub at: u32,
    pub name: Name,
    pub parameters: Vec<HeadParameter>,
    pub ports: PortList,
    /// All that stand in no generate construct.
    pub items: Vec<Item>,
    /// What makes further items, by the parameters of an instance, in the order of the text.
    pub constructs: Vec<Construct>,
    /// The regions that were dropped between its first token and its last; the initial values of `reg` are in its items.
    pub dropped: Vec<Dropped>,
}

/// A module as it is written.
#[derive(Drop)]
pub struct WrittenModule {
    /// The place of its `module`.
    pub at: u32,
    pub name: Name,
    pub parameters: Vec<HeadParameter>,
    pub ports: PortList,
    pub items: Vec<WrittenItem>,
    /// The regions that were dropped between its first token and its last; the initial values of `reg` are in its items.
    pub dropped: Vec<Dropped>,
}
