//! Places of a text that other tools read otherwise than the design has them.

use crate::expr::SigId;
use text_ground::text::Spot;

/// What is read otherwise.
#[derive(Clone, Copy, PartialEq, Eq, Debug)]
pub enum Reading {
    /// An expression whose parameters have another width, sign or value by the standard.
    ParameterFormat,
    /// A constant expression that has another number by the standard.
    ConstantValue,
    /// An argument of an input that is narrower than the port, and whose bits beyond its own hang on the port's width.
    PortContext,
    /// A case whose selector and labels are extended by one sign or another.
    CaseSigns,
    /// A condition on a name that a tool defines, or another file.
    ToolMacro,
    /// A number without a width where its width counts.
    UnsizedNumber,
    /// A port that is signed in one of its two declarations.
    PortSign,
    /// An argument that names a parameter which is declared behind it.
    LateParameter,
    /// The start or the step of a loop without a sign.
    LoopSign,
}

/// A place that is read otherwise.
#[derive(Clone, Copy, PartialEq, Eq, Debug)]
pub struct Note {
    pub reading: Reading,
    /// The port that it is about, where it is about one.
    pub signal: Option<SigId>,
    pub instance: u32,
    pub spot: Spot,
}
