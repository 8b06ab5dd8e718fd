// The registers of a design.

ghost use Rattle.std.specs.Prelude.{◌≡◌, ◌<◌, length, IfErr, IfOk, MatchOption};
ghost use Rattle.rtl_flat.specs.Flats.{flat};
ghost use Rattle.net_list.specs.Failing.{IsFirst};
ghost use Rattle.net_list.specs.Faults.{IsShapeless, Waits};
ghost use Rattle.net_list.specs.check_chains.check_parts.Reads.{AreUnknowns};
ghost use Rattle.infer_regs.specs.Facts.{AreFacts};
ghost use Rattle.infer_regs.specs.Taken.{IsBroken, IsOne, Takes};

use crate::broken::first_broken;
use crate::facts::Facts;
use crate::tops::{reset_tops, top_of};
use net_list::check_chains::chain::chain_of;
use net_list::clocked::{Clocked, waits};
use net_list::drivers::drives_again;
use net_list::fault::InferFault;
use net_list::registers::Registers;
use net_list::rtl_scan::bits::BitSet;
use rtl_flat::act::ProcId;
use rtl_flat::design::Design;
use std::alloc::Global;
use text_ground::memory::Memory;

/// A process that waits for edges with its clock and its resets; none where it breaks a rule about
/// its list, its clock or its resets.
fn clocked_of<'d>(
    alloc: Global,
    design: &'d Design,
    facts: &Facts,
    p: ProcId,
) -> Result<Option<Clocked<'d>>, Memory>
    requires there { p.0 < length design.now.processes.items }
    requires waits { Waits (flat design.now) p.0 }
    requires unknown { AreUnknowns (flat design.now) facts.now.unknowns.items }
    requires facts { AreFacts (flat design.now) facts.now.tops.items facts.now.roles.clocks.items
        facts.now.roles.resets.items facts.now.temporaries.items }
    ensures { let d = flat design.now in
        IfOk result (λ found. MatchOption found (IsBroken d p.0) (IsOne d p.0)) }
{
    if first_broken(alloc, design, facts, p)?.is_some() {
        return Ok(None);
    }
    let Some(chain) = chain_of(alloc, design, &design.processes[p.0 as usize].does)? else {
        return Ok(None);
    };
    let clock = top_of(&facts.tops, chain.clock.signal);
    let resets = reset_tops(alloc, &facts.tops, &chain.resets)?;
    Ok(Some(Clocked {
        process: p,
        chain,
        clock,
        resets,
    }))
}

/// Adds a process that waits for edges; tells whether it has no fault.
fn take<'d>(
    alloc: Global,
    design: &'d Design,
    facts: &Facts,
    p: ProcId,
    clocked: &mut Vec<Clocked<'d>>,
) -> Result<bool, Memory>
    requires there { p.0 < length design.now.processes.items }
    requires waits { Waits (flat design.now) p.0 }
    requires unknown { AreUnknowns (flat design.now) facts.now.unknowns.items }
    requires facts { AreFacts (flat design.now) facts.now.tops.items facts.now.roles.clocks.items
        facts.now.roles.resets.items facts.now.temporaries.items }
    ensures { IfOk result (λ good.
        Takes (flat design.now) p.0 good clocked.old.items clocked.new.items) }
{
    match clocked_of(alloc, design, facts, p)? {
        Some(one) => {
            clocked.push(one)?;
            Ok(true)
        }
        None => Ok(false),
    }
}

/// The registers of a design.
///
/// Fails with `Shape` of the least process that waits for edges and breaks a rule about its list,
/// its drivers, its clock or its resets; and where memory runs out.
pub fn registers<'d>(alloc: Global, design: &'d Design) -> Result<Registers<'d>, InferFault>
    ensures design { IfOk result (λ found. found.design.now ≡ design.now) }
    ensures least { IfErr result (λ fault. IsFirst (IsShapeless (flat design.now)) fault) }
{
    let facts = Facts::of(alloc, design)?;
    let mut lower = BitSet::new(alloc);
    let mut clocked = Vec::new(alloc);
    for number in 0..design.processes.len() {
        let p = ProcId(number as u32);
        let again = drives_again(alloc, design, p, &mut lower)?;
        if waits(&design.processes[number].does) {
            if again || !take(alloc, design, &facts, p, &mut clocked)? {
                return Err(InferFault::Shape(p));
            }
        }
    }
    Ok(Registers { design, clocked })
}
