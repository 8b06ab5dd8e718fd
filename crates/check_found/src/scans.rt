//! The sets of bits of all processes, and which signals are temporaries.

ghost use Rattle.std.specs.Prelude.{ℕ, ◌≡◌, ◌<◌, ◌↔◌, true, Some, length, IfOk};
ghost use Rattle.std.specs.List.{slice_get};
ghost use Rattle.rtl_flat.specs.Flows.{flow_of};
ghost use Rattle.rtl_flat.specs.PathSets.{IsTemporary, listed};
ghost use Rattle.rtl_flat.specs.Paths.{reads_outside};
ghost use Rattle.rtl_flat.specs.Process.{Task};
ghost use Rattle.rtl_rule.specs.Parts.{first_of, written};
ghost use Rattle.rtl_flat.specs.Flats.{flat, widths};
ghost use Rattle.rtl_scan.specs.Arrows.{AreAccessed};
ghost use Rattle.rtl_scan.specs.Sets.{IsInOrder, has_rows};
ghost use Rattle.check_found.specs.Scanned.{AreScans};

use crate::sets::first_signal;
use rtl_flat::act::ProcId;
use rtl_flat::design::Design;
use rtl_flat::expr::SigId;
use rtl_scan::accesses::Accesses;
use rtl_scan::bits::Bits;
use rtl_scan::feeds::Accessed;
use std::alloc::Global;
use text_ground::memory::Memory;

/// What rules ask of the processes of a design.
#[derive(Drop)]
pub struct Scans<'d> {
    pub design: &'d Design,
    written: Vec<Bits>,
    outside: Vec<Bits>,
    listed: Vec<Bits>,
    temporaries: Vec<bool>,
}

impl<'d> Scans<'d> {
    /// Scans the processes of a design. Fails where memory runs out.
    pub fn of(alloc: Global, design: &'d Design) -> Result<Scans<'d>, Memory>
        ensures design { IfOk result (λ scans. scans.design.now ≡ design.now) }
        ensures scans { IfOk result AreScans }
    {
        let found = Accesses::of(alloc, design)?;
        Ok(Scans {
            design,
            written: found.writes,
            outside: found.reads,
            listed: found.lists,
            temporaries: found.temporaries,
        })
    }

    /// The bits that a process may write.
    pub fn written(&self, p: ProcId) -> &Bits
        requires scans { AreScans self.now }
        requires there { p.0 < length self.now.design.now.processes.items }
        ensures bits { let d = flat self.now.design.now in
            (task : Task) → slice_get d.tasks p.0 ≡ Some task → (s k : ℕ) →
            has_rows result.now.rows.items s k ≡ written d task.does s k }
        ensures order { IsInOrder result.now.rows.items }
    {
        &self.written[p.0 as usize]
    }

    /// The least signal that a process may write.
    pub fn first_written(&self, p: ProcId) -> Option<SigId>
        requires scans { AreScans self.now }
        requires there { p.0 < length self.now.design.now.processes.items }
        ensures { let d = flat self.now.design.now in
            (task : Task) → slice_get d.tasks p.0 ≡ Some task
            → result ≡ first_of d (written d task.does) }
    {
        first_signal(self.written(p))
    }

    /// The bits that a process reads before it has written them.
    pub fn read_outside(&self, p: ProcId) -> &Bits
        requires scans { AreScans self.now }
        requires there { p.0 < length self.now.design.now.processes.items }
        ensures bits { let d = flat self.now.design.now in
            (task : Task) → slice_get d.tasks p.0 ≡ Some task → (s k : ℕ) →
            has_rows result.now.rows.items s k ≡ reads_outside (flow_of (widths d) task.does) s k }
        ensures order { IsInOrder result.now.rows.items }
    {
        &self.outside[p.0 as usize]
    }

    /// The bits that a process lists.
    pub fn listed(&self, p: ProcId) -> &Bits
        requires scans { AreScans self.now }
        requires there { p.0 < length self.now.design.now.processes.items }
        ensures bits { let d = flat self.now.design.now in
            (task : Task) → slice_get d.tasks p.0 ≡ Some task → (s k : ℕ) →
            has_rows result.now.rows.items s k ≡ listed (widths d) task.does s k }
        ensures order { IsInOrder result.now.rows.items }
    {
        &self.listed[p.0 as usize]
    }

    /// What the processes access, as the graph of who feeds whom takes it.
    pub fn accessed(&self) -> Accessed<'_>
        requires { AreScans self.now }
        ensures design { result.design.now ≡ self.now.design.now }
        ensures accessed { AreAccessed result }
    {
        Accessed {
            design: self.design,
            writes: &self.written,
            reads: &self.outside,
            lists: &self.listed,
        }
    }

    /// Whether each signal is a temporary.
    pub fn temporaries(&self) -> &[bool]
        requires { AreScans self.now }
        ensures { let d = flat self.now.design.now in
            (s : ℕ) → slice_get result.now s ≡ Some true ↔ IsTemporary d.signals d.tasks s }
    {
        &self.temporaries
    }
}
