//! What a name stands for in a module.

/// What a signal is in the module that declares it.
#[derive(Clone, Copy, PartialEq, Eq, Debug)]
pub enum Role {
    /// An input port, which the module may only read.
    Input,
    /// A net, which continuous assignments and outputs of instances drive.
    Net,
    /// A variable, which statements assign.
    Variable,
}

/// The range of a signal and its sign.
#[derive(Clone, Copy, PartialEq, Eq, Debug)]
pub struct Shape {
    /// In bits.
    pub width: u8,
    pub signed: bool,
    /// The number that the declaration gives to the least significant bit.
    pub low: u32,
}

/// What a name stands for in a module.
#[derive(Clone, Copy, PartialEq, Eq, Debug)]
pub enum Known {
    /// A signal with its number in the module; without a shape where its range is at fault.
    Signal {
        number: u16,
        role: Role,
        shape: Option<Shape>,
    },
    /// A parameter; without a number where its value is at fault.
    Parameter {
        number: Option<i64>,
        width: u8,
        signed: bool,
    },
    /// An `integer`, with its number in a turn of its loop.
    Integer(Option<i64>),
}
