//! The blocks of a design, where each is the only one that may write its bits.

ghost use Rattle.std.specs.Prelude.{◌≡◌, IfErr, IfOk};
ghost use Rattle.rtl_flat.specs.Flats.{flat};
ghost use Rattle.net_list.specs.Failing.{IsFirst};
ghost use Rattle.net_list.specs.Faults.{IsContended};

use crate::blocks::Blocks;
use crate::clocked::waits;
use crate::drivers::drives_again;
use crate::fault::InferFault;
use check_assign::rtl_scan::bits::BitSet;
use net_model::fill::Fill;
use rtl_flat::act::ProcId;
use rtl_flat::design::Design;
use std::alloc::Global;

/// The blocks of a design, with a fill for bits that have no number.
///
/// Fails with `Shape` of the least assignment or body with a level list that may write a bit which
/// a process of a lower number may write, too; and where memory runs out.
pub fn blocks<'d>(alloc: Global, design: &'d Design, fill: Fill) -> Result<Blocks<'d>, InferFault>
    ensures design { IfOk result (λ blocks. blocks.design.now ≡ design.now) }
    ensures fill { IfOk result (λ blocks. blocks.fill ≡ fill) }
    ensures least { IfErr result (λ fault. IsFirst (IsContended (flat design.now)) fault) }
{
    let mut lower = BitSet::new(alloc);
    for number in 0..design.processes.len() {
        let p = ProcId(number as u32);
        let again = drives_again(alloc, design, p, &mut lower)?;
        if again && !waits(&design.processes[number].does) {
            return Err(InferFault::Shape(p));
        }
    }
    Ok(Blocks { design, fill })
}
