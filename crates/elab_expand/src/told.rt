//! What is told of generate constructs.

ghost use Rattle.std.specs.Prelude.{◌≡◌, IfOk};
ghost use Rattle.std.specs.Option.{option_map};
ghost use Rattle.elab_scope.specs.Faults.{answer, comes_before, keep, located, rank};
ghost use Rattle.elab_expand.specs.Told.{breach_of, refusal_of};

use elab_scope::fault::ElabFault;
use rtl_const::fault::ConstFault;
use std::alloc::Global;
use text_ground::memory::Memory;
use text_ground::text::{Spot, Text};

/// The rule that a construct breaks.
#[derive(Drop)]
pub enum Reason {
    /// A genvar where none may stand, or another name where a genvar must.
    Genvar(Text),
    /// A loop has more than 4,096 turns.
    TooManyTurns,
    /// An expression that has to be constant has no number.
    Const(ConstFault),
    /// A limit on the size of designs is passed.
    TooLarge,
}

/// A fault of a construct, with its place in the module's file.
#[derive(Drop)]
pub struct Told {
    pub at: u32,
    pub reason: Reason,
}

impl Reason {
    /// Its place in the order of causes, which decides where places are equal.
    fn rank(&self) -> u8
        ensures { result ≡ rank (breach_of self.now) }
    {
        match self {
            Reason::Genvar(_) => 10,
            Reason::TooManyTurns => 11,
            Reason::Const(_) => 12,
            Reason::TooLarge => 14,
        }
    }
}

impl Told {
    /// Whether this one is told where both are there.
    fn comes_before(&self, other: &Told) -> bool
        ensures { result ≡ comes_before (refusal_of self.now) (refusal_of other.now) }
    {
        self.at < other.at || (self.at == other.at && self.reason.rank() < other.reason.rank())
    }

    /// The one of two that is told; where neither comes before the other, the one that was there.
    pub fn keep(best: Option<Told>, told: Told) -> Option<Told>
        ensures { option_map refusal_of result
            ≡ keep (option_map refusal_of best) (refusal_of told) }
    {
        match best {
            Some(best) => {
                if told.comes_before(&best) {
                    Some(told)
                } else {
                    Some(best)
                }
            }
            None => Some(told),
        }
    }

    /// The fault as it is told, with its file.
    pub fn locate(self, alloc: Global, file: u32) -> Result<ElabFault, Memory>
        ensures { IfOk result (λ fault. answer fault ≡ located file (refusal_of self)) }
    {
        let spot = Spot { file, at: self.at };
        Ok(match self.reason {
            Reason::Genvar(name) => {
                ElabFault::Genvar(Vec::from_slice(alloc, name.as_bytes())?, spot)
            }
            Reason::TooManyTurns => ElabFault::TooManyTurns(spot),
            Reason::Const(cause) => ElabFault::Const(cause, spot),
            Reason::TooLarge => ElabFault::TooLarge(spot),
        })
    }
}
