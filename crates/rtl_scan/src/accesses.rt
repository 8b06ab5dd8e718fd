//! What the processes of a design read, write and list, and its temporaries, in one go.

ghost use Rattle.std.specs.Prelude.{map, IfOk};
ghost use Rattle.rtl_flat.specs.Process.{task};
ghost use Rattle.rtl_scan.specs.Accesses.{AreAccesses};

use crate::bits::Bits;
use crate::sets::widths_of;
use crate::spans::Widths;
use crate::usages::{Usage, answers, note};
use rtl_flat::act::Process;
use rtl_flat::design::Design;
use std::alloc::Global;
use text_ground::memory::Memory;

/// What each process accesses, in order of the processes, and which signals are temporaries.
#[derive(Drop)]
pub struct Accesses {
    /// The bits that each process externally reads.
    pub reads: Vec<Bits>,
    /// The bits that some path of each process writes.
    pub writes: Vec<Bits>,
    /// The bits that each process lists.
    pub lists: Vec<Bits>,
    /// Whether each signal is a temporary.
    pub temporaries: Vec<bool>,
}

impl Accesses {
    /// Those of a design, as `reads`, `writes`, `lists` and `temporaries` give them, from one scan of each process. Fails where
    /// memory runs out.
    pub fn of(alloc: Global, d: &Design) -> Result<Accesses, Memory>
        ensures { IfOk result (AreAccesses d.now.signals.items (map task d.now.processes.items)) }
    {
        accesses_of(alloc, widths_of(d), &d.processes)
    }
}

fn accesses_of(alloc: Global, widths: Widths, processes: &[Process]) -> Result<Accesses, Memory>
    ensures { IfOk result (AreAccesses widths.entry.signals.now (map task processes.now)) }
{
    let mut reads = Vec::with_capacity(alloc, processes.len())?;
    let mut writes = Vec::with_capacity(alloc, processes.len())?;
    let mut lists = Vec::with_capacity(alloc, processes.len())?;
    let mut usages = vec![in alloc; Usage::Unused; widths.signals.len()]?;
    for number in 0..processes.len() {
        let access = note(alloc, widths, &processes[number], number, &mut usages)?;
        reads.push(access.reads)?;
        writes.push(access.writes)?;
        lists.push(access.lists)?;
    }
    let temporaries = answers(alloc, widths.signals, &usages)?;
    Ok(Accesses {
        reads,
        writes,
        lists,
        temporaries,
    })
}
