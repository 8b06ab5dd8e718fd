// What the survey still has to do.

use rtl_tree::symbol::Symbol;

/// How loosely an operator between two operands binds, from the tightest (IEEE 1364-2001, 4.1.2).
#[derive(Clone, Copy, PartialEq, Eq, Debug)]
pub enum Level {
    /// An operand, with the operators before it.
    Operand,
    Power,
    Product,
    Sum,
    Shift,
    Comparison,
    Equality,
    And,
    Xor,
    Or,
    LogicalAnd,
    LogicalOr,
}

/// A piece of work, mostly to read one construct.
#[derive(Clone, Copy, PartialEq, Eq, Debug)]
pub enum Task {
    /// This token comes.
    Expect(Symbol),
    // How deep what was read is nested
    /// What was read last stands in a node whose place was kept.
    Wrap,
    /// What was read last stands beside what was read before it.
    Join,
    /// What was read last doesn't count.
    Forget,
    // Expressions
    Expression,
    /// An expression whose operators bind at least as tightly as this.
    Level(Level),
    /// Further operators of a level, each with its right operand.
    Chain(Level),
    /// `?` with what follows it.
    Choice,
    /// The bit or the part of a name.
    Select,
    /// What follows the first expression of one.
    SelectEnd,
    /// What follows the first expression after `{`.
    Parts,
    /// Further expressions, each after a comma.
    Expressions,
    // Statements
    Attribute,
    Attributes,
    AttributeValue,
    AttributeConstant,
    Target,
    Targets,
    /// A delay that may be left out.
    Delay,
    /// What follows `#`.
    Ticks,
    /// `=` or `<=`.
    Assigner,
    Statement,
    /// The rest of an `if`.
    Else,
    Label,
    Statements,
    /// The first item of a case.
    FirstBranch,
    /// Further items, before the default.
    Branches,
    /// Further items, after the default.
    Labelled,
    /// The colon after `default`.
    DefaultColon,
    // Items
    Item,
    /// One that attributes may stand before.
    MarkedItem,
    Items,
    Name,
    Names,
    PortKind,
    Sign,
    Range,
    Value,
    /// An initial value, which isn't kept.
    Initial,
    Net,
    Nets,
    Variable,
    Variables,
    Setting,
    Settings,
    Drive,
    Drives,
    Sensitivity,
    /// What follows the parenthesis of an event list.
    EventList,
    Event,
    Events,
    /// The bit or the part of a name in an event list.
    EventSelect,
    EventSelectEnd,
    // Generate constructs
    /// Items up to `endgenerate`.
    RegionItems,
    /// Items up to `end`.
    BlockItems,
    /// What a construct makes.
    Made,
    /// The rest of an `if` of these.
    MadeElse,
    /// The first choice of a case.
    FirstChoice,
    /// Further choices, before the default.
    Choices,
    /// Further choices, after the default.
    LabelledChoices,
    // Gates
    /// The delay of gates, which may be left out.
    GateDelay,
    /// What follows its `#`.
    GateTicks,
    /// The delay of a fall, after that of a rise.
    Fall,
    /// The name of a gate, which may be left out.
    GateName,
    /// A gate with any number of inputs.
    Gate,
    Gates,
    /// A gate with one input, which may have further outputs.
    Buffer,
    Buffers,
    /// A further output of such a gate with what comes after it, or the input.
    OutputOrInput,
    /// What follows a name with its select there.
    AfterName,
    // Instances
    Overrides,
    Instance,
    Instances,
    Connections,
    Arguments,
    /// An argument by position, or the value of one by name, which may be empty.
    Argument,
    /// Further arguments by position.
    Positional,
    NamedArgument,
    /// Further arguments by name.
    Associated,
    // Modules
    Source,
    Module,
    Parameters,
    FirstParameter,
    HeadParameter,
    HeadParameters,
    Ports,
    PortList,
    Port,
    HeadPorts,
}

/// What happens to the next token.
#[derive(Clone, Copy, PartialEq, Eq, Debug)]
pub enum Taking {
    /// It stays.
    Nothing,
    /// It is taken.
    Token,
    /// It is taken, and a node begins at its place.
    Node,
    /// A node begins at its place, and it stays.
    Ahead,
    /// It is taken, and what was read last belongs to a node at its place.
    Operator,
}

/// What becomes of a task.
#[derive(Clone, Copy)]
pub struct Move {
    pub taking: Taking,
    /// What is to be done in its stead.
    pub tasks: &'static [Task],
}
