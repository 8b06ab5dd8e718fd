//! Processes that wait for edges.

ghost use Rattle.std.specs.Prelude.{◌≡◌};
ghost use Rattle.rtl_flat.specs.Process.{doing};
ghost use Rattle.rtl_rule.specs.Parts.{is_clocked};

use chain_laws::check_chains::chain::Chain;
use rtl_flat::act::{Does, ProcId};
use rtl_flat::expr::SigId;

/// A process that waits for edges, with its clock and its resets.
#[derive(Drop)]
pub struct Clocked<'d> {
    pub process: ProcId,
    pub chain: Chain<'d>,
    /// The top input that the clock comes from.
    pub clock: SigId,
    /// The top inputs that the resets come from, in the order of the chain.
    pub resets: Vec<SigId>,
}

/// Whether a process waits for edges.
pub fn waits(does: &Does) -> bool
    ensures { result ≡ is_clocked (doing does.now) }
{
    match does {
        Does::Assign {
            target: _,
            value: _,
        } => false,
        Does::Comb { list: _, body: _ } => false,
        Does::Edge { events: _, body: _ } => true,
    }
}
