//! Why modules make no design.

ghost use Rattle.std.specs.Prelude.{◌≡◌, IfOk};
ghost use Rattle.std.specs.Option.{option_map};
ghost use Rattle.elab_scope.specs.Faults.{answer, breach, comes_before, keep, located, rank, refusal};

use rtl_const::fault::ConstFault;
use std::alloc::{AllocError, Global};
use text_ground::memory::Memory;
use text_ground::text::{Spot, Text};
use thiserror::Error;

/// Why modules make no design. A name is given by its bytes.
#[derive(Debug, Drop, Error)]
pub enum ElabFault {
    /// No module has the name.
    #[error("no such module")]
    NoSuchModule(Vec<u8>),
    /// A module that is reached is defined twice.
    #[error("module twice")]
    ModuleTwice(Vec<u8>),
    /// The module declares no such name.
    #[error("undeclared")]
    Undeclared(Vec<u8>, Spot),
    #[error("declared twice")]
    DeclaredTwice(Vec<u8>, Spot),
    /// More than 128 bits, no bit, more than 32 for a parameter, or more than one for an edge event.
    #[error("width")]
    Width(Spot),
    /// No such port, one connected twice, one too many, an output that drives what can't be driven, or a `reg` that is
    /// no output.
    #[error("port")]
    Port(Vec<u8>, Spot),
    /// No such parameter, one set twice, or one too many.
    #[error("parameter")]
    Parameter(Vec<u8>, Spot),
    /// What may not be assigned there, or an `integer` outside its loop.
    #[error("not assignable")]
    NotAssignable(Vec<u8>, Spot),
    /// An ascending or a negative range, a part outside its signal, or a select of what has no bits.
    #[error("range")]
    Range(Spot),
    /// An expression that has to be constant has no number.
    #[error("not constant")]
    Const(ConstFault, Spot),
    /// A genvar where none may stand, or another name where a genvar must.
    #[error("genvar")]
    Genvar(Vec<u8>, Spot),
    /// A generate loop has more than 4,096 turns.
    #[error("too many turns")]
    TooManyTurns(Spot),
    /// A module holds itself.
    #[error("instance loop")]
    InstanceLoop(Vec<u8>, Spot),
    /// A limit on the size of designs is passed.
    #[error("too large")]
    TooLarge(Spot),
    #[error("out of memory")]
    Memory,
}

impl From<Memory> for ElabFault {
    ghost use Rattle.std.specs.Prelude.{◌≡◌};
    ghost use Rattle.elab_scope.specs.declared.fault.ElabFault.TheVariants as told;

    ghost from_gives = { λ _ e. e ≡ told.Memory };

    fn from(_error: Memory) -> ElabFault {
        ElabFault::Memory
    }
}

/// The rule that a module breaks, with the name that is told.
#[derive(Clone, Copy)]
pub enum Cause<'a> {
    NoSuchModule(&'a Text),
    ModuleTwice(&'a Text),
    Undeclared(&'a Text),
    DeclaredTwice(&'a Text),
    Width,
    Port(&'a Text),
    Parameter(&'a Text),
    NotAssignable(&'a Text),
    Range,
    Const(ConstFault),
    Genvar(&'a Text),
    TooManyTurns,
    InstanceLoop(&'a Text),
    TooLarge,
}

impl Cause<'_> {
    /// Its place in the order of causes, which decides where places are equal.
    fn rank(self) -> u8
        ensures { result ≡ rank (breach self.entry) }
    {
        match self {
            Cause::NoSuchModule(_) => 1,
            Cause::ModuleTwice(_) => 2,
            Cause::Undeclared(_) => 3,
            Cause::DeclaredTwice(_) => 4,
            Cause::Width => 5,
            Cause::Port(_) => 6,
            Cause::Parameter(_) => 7,
            Cause::NotAssignable(_) => 8,
            Cause::Range => 9,
            Cause::Genvar(_) => 10,
            Cause::TooManyTurns => 11,
            Cause::Const(_) => 12,
            Cause::InstanceLoop(_) => 13,
            Cause::TooLarge => 14,
        }
    }
}

/// A fault of a module, with its place in the module's file.
#[derive(Clone, Copy)]
pub struct Fault<'a> {
    pub at: u32,
    pub cause: Cause<'a>,
}

impl<'a> Fault<'a> {
    /// Whether this one is told where both are there: the lesser place decides, and then the order of causes.
    fn comes_before(self, other: Fault<'a>) -> bool
        ensures { result ≡ comes_before (refusal self.entry) (refusal other.entry) }
    {
        self.at < other.at || (self.at == other.at && self.cause.rank() < other.cause.rank())
    }

    /// The one of two that is told; where neither comes before the other, the one that was there.
    pub fn keep(best: Option<Fault<'a>>, fault: Fault<'a>) -> Option<Fault<'a>>
        ensures { option_map refusal result
            ≡ keep (option_map refusal best.entry) (refusal fault.entry) }
    {
        match best {
            Some(best) if !fault.comes_before(best) => Some(best),
            _ => Some(fault),
        }
    }

    /// The fault with a copy of its name, and its file.
    pub fn locate(self, alloc: Global, file: u32) -> Result<ElabFault, AllocError>
        ensures { IfOk result (λ told. answer told ≡ located file (refusal self.entry)) }
    {
        let spot = Spot { file, at: self.at };
        Ok(match self.cause {
            Cause::NoSuchModule(name) => ElabFault::NoSuchModule(bytes(alloc, name)?),
            Cause::ModuleTwice(name) => ElabFault::ModuleTwice(bytes(alloc, name)?),
            Cause::Undeclared(name) => ElabFault::Undeclared(bytes(alloc, name)?, spot),
            Cause::DeclaredTwice(name) => ElabFault::DeclaredTwice(bytes(alloc, name)?, spot),
            Cause::Width => ElabFault::Width(spot),
            Cause::Port(name) => ElabFault::Port(bytes(alloc, name)?, spot),
            Cause::Parameter(name) => ElabFault::Parameter(bytes(alloc, name)?, spot),
            Cause::NotAssignable(name) => ElabFault::NotAssignable(bytes(alloc, name)?, spot),
            Cause::Range => ElabFault::Range(spot),
            Cause::Const(fault) => ElabFault::Const(fault, spot),
            Cause::Genvar(name) => ElabFault::Genvar(bytes(alloc, name)?, spot),
            Cause::TooManyTurns => ElabFault::TooManyTurns(spot),
            Cause::InstanceLoop(name) => ElabFault::InstanceLoop(bytes(alloc, name)?, spot),
            Cause::TooLarge => ElabFault::TooLarge(spot),
        })
    }
}

fn bytes(alloc: Global, name: &Text) -> Result<Vec<u8>, AllocError>
    ensures { IfOk result (λ bytes. bytes.items ≡ name.now) }
{
    Vec::from_slice(alloc, name.as_bytes())
}
