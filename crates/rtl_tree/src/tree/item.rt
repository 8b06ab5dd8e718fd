// The items of a module.

ghost use Rattle.std.specs.Prelude.{◌≡◌};
ghost use Rattle.rtl_tree.specs.TreeItem.{happening, happening_place};

use crate::tree::expr::{Expr, Range};
use crate::tree::names::Name;
use crate::tree::stmt::{Delay, Lvalue, Stmt};

/// The direction of a port.
#[derive(Clone, Copy, PartialEq, Eq, Debug)]
pub enum Direction {
    Input,
    Output,
}

/// The word `wire` or `reg` in the declaration of a port.
#[derive(Clone, Copy, PartialEq, Eq, Debug)]
pub enum PortKind {
    Wire,
    Reg,
}

/// What stands before the names of declared ports.
#[derive(Drop)]
pub struct PortHead {
    pub at: u32,
    pub direction: Direction,
    pub kind: Option<PortKind>,
    pub signed: bool,
    pub range: Option<Range>,
}

/// A name after `wire`.
#[derive(Drop)]
pub struct Wire {
    pub name: Name,
    /// What drives it where `= value` follows the name.
    pub value: Option<Expr>,
}

/// A name after `reg`.
#[derive(Drop)]
pub struct Reg {
    pub name: Name,
    /// `= value` follows the name: an initial value, which is dropped at the place of the name.
    pub initial: bool,
}

/// Whether an instance may set a parameter.
#[derive(Clone, Copy, PartialEq, Eq, Debug)]
pub enum ParameterKind {
    /// `parameter`: it may
    Parameter,
    /// `localparam`: it may not
    Local,
}

/// `name = value` after `parameter` or `localparam`.
#[derive(Drop)]
pub struct Setting {
    pub name: Name,
    pub value: Expr,
}

/// `target = value` after `assign`.
#[derive(Drop)]
pub struct Assignment {
    pub target: Lvalue,
    pub value: Expr,
}

/// What a gate drives: outputs of one bit, each with the same value.
#[derive(Drop)]
pub struct GateDrive {
    /// At least one.
    pub outputs: Vec<Lvalue>,
    /// Made of the gate's inputs, each in parentheses.
    pub value: Expr,
}

/// The edge of an event.
#[derive(Clone, Copy, PartialEq, Eq, Debug)]
pub enum EventEdge {
    Posedge,
    Negedge,
}

/// One event of an event list.
#[derive(Drop)]
pub enum Event {
    /// `posedge name` or `negedge name`, and its place
    Edge(EventEdge, u32, Name),
    /// `name`
    Whole(Name),
    /// `name[index]`
    Bit(Name, Expr),
    /// `name[msb:lsb]`
    Part(Name, Expr, Expr),
}

impl Event {
    /// The place of the event.
    pub fn place(&self) -> u32
        ensures { result ≡ happening_place (happening self.now) }
    {
        match self {
            Event::Edge(_, at, _) => *at,
            Event::Whole(name) | Event::Bit(name, _) | Event::Part(name, _, _) => name.at,
        }
    }
}

/// What an `always` waits for.
#[derive(Drop)]
pub enum EventControl {
    /// `@*`
    Star,
    /// `@(*)`
    StarInParens,
    /// `@(event or event)`, at least one
    Events(Vec<Event>),
}

/// An argument by position.
#[derive(Drop)]
pub struct OrderedArgument {
    /// The place of its first token; of the token after it where it is empty.
    pub at: u32,
    pub value: Option<Expr>,
}

/// An argument by name, `.name(value)`.
#[derive(Drop)]
pub struct NamedArgument {
    /// The place of its `.`.
    pub at: u32,
    pub name: Name,
    pub value: Option<Expr>,
}

/// The connections of an instance, or the parameters that it sets.
#[derive(Drop)]
pub enum Arguments {
    /// By position; empty where none are written.
    Ordered(Vec<OrderedArgument>),
    /// By name, at least one.
    Named(Vec<NamedArgument>),
}

/// `name(connections)` after the name of its module.
#[derive(Drop)]
pub struct Instance {
    pub name: Name,
    pub connections: Arguments,
}

/// An item of a module.
#[derive(Drop)]
pub enum Item {
    /// `head name, name;`
    Ports(PortHead, Vec<Name>),
    /// `wire signed range name = value, name;`
    Wires {
        at: u32,
        signed: bool,
        range: Option<Range>,
        wires: Vec<Wire>,
    },
    /// `reg signed range name = value, name;`
    Regs {
        at: u32,
        signed: bool,
        range: Option<Range>,
        regs: Vec<Reg>,
    },
    /// `integer name, name;`
    Integers(u32, Vec<Name>),
    /// `parameter range name = value, name = value;`
    Parameters {
        at: u32,
        kind: ParameterKind,
        range: Option<Range>,
        settings: Vec<Setting>,
    },
    /// `assign delay target = value, target = value;`
    Assigns(u32, Option<Delay>, Vec<Assignment>),
    /// What gates drive, and the names that they have.
    Gates {
        at: u32,
        names: Vec<Name>,
        delay: Option<Delay>,
        drives: Vec<GateDrive>,
    },
    /// `always @ control body`
    Always(u32, EventControl, Stmt),
    /// `child #(parameters) instance, instance;`
    Instances {
        child: Name,
        parameters: Arguments,
        instances: Vec<Instance>,
    },
}
