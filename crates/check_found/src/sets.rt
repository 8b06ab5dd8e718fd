//! The bits that a process may write, reads outside, lists and surely writes.

ghost use Rattle.std.specs.Prelude.{◌≡◌, ◌<◌, ℕ, Some, length, IfOk};
ghost use Rattle.std.specs.List.{slice_get};
ghost use Rattle.rtl_flat.specs.Flows.{flow_of};
ghost use Rattle.rtl_flat.specs.PathSets.{listed};
ghost use Rattle.rtl_flat.specs.Paths.{is_sure, reads_outside};
ghost use Rattle.rtl_flat.specs.Process.{Task};
ghost use Rattle.rtl_rule.specs.Parts.{first_of, written};
ghost use Rattle.rtl_flat.specs.Flats.{flat, widths};
ghost use Rattle.rtl_scan.specs.Sets.{IsInOrder, has_rows};
ghost use Rattle.check_found.specs.Gathered.{first_signal};

use rtl_flat::act::ProcId;
use rtl_flat::design::Design;
use rtl_flat::expr::SigId;
use rtl_scan::bits::Bits;
use std::alloc::Global;
use text_ground::memory::Memory;

/// The bits that a process may write.
pub fn written(alloc: Global, design: &Design, p: ProcId) -> Result<Bits, Memory>
    requires { p.0 < length design.now.processes.items }
    ensures bits { let d = flat design.now in
        IfOk result (λ bits. (task : Task) → slice_get d.tasks p.0 ≡ Some task → (s k : ℕ) →
        has_rows bits.rows.items s k ≡ written d task.does s k) }
    ensures order { IfOk result (λ bits. IsInOrder bits.rows.items) }
{
    rtl_scan::writes(alloc, design, p)
}

/// The bits that a process reads before it has written them.
pub fn read_outside(alloc: Global, design: &Design, p: ProcId) -> Result<Bits, Memory>
    requires { p.0 < length design.now.processes.items }
    ensures bits { let d = flat design.now in
        IfOk result (λ bits. (task : Task) → slice_get d.tasks p.0 ≡ Some task → (s k : ℕ) →
        has_rows bits.rows.items s k ≡ reads_outside (flow_of (widths d) task.does) s k) }
    ensures order { IfOk result (λ bits. IsInOrder bits.rows.items) }
{
    rtl_scan::reads(alloc, design, p)
}

/// The bits that a process lists.
pub fn listed(alloc: Global, design: &Design, p: ProcId) -> Result<Bits, Memory>
    requires { p.0 < length design.now.processes.items }
    ensures bits { let d = flat design.now in
        IfOk result (λ bits. (task : Task) → slice_get d.tasks p.0 ≡ Some task → (s k : ℕ) →
        has_rows bits.rows.items s k ≡ listed (widths d) task.does s k) }
    ensures order { IfOk result (λ bits. IsInOrder bits.rows.items) }
{
    rtl_scan::lists(alloc, design, p)
}

/// The bits that a process writes on every path.
pub fn sure(alloc: Global, design: &Design, p: ProcId) -> Result<Bits, Memory>
    requires { p.0 < length design.now.processes.items }
    ensures bits { let d = flat design.now in
        IfOk result (λ bits. (task : Task) → slice_get d.tasks p.0 ≡ Some task → (s k : ℕ) →
        has_rows bits.rows.items s k ≡ is_sure (flow_of (widths d) task.does) s k) }
    ensures order { IfOk result (λ bits. IsInOrder bits.rows.items) }
{
    rtl_scan::sure(alloc, design, p)
}

/// The least signal that a process may write.
pub fn first_written(alloc: Global, design: &Design, p: ProcId) -> Result<Option<SigId>, Memory>
    requires { p.0 < length design.now.processes.items }
    ensures { let d = flat design.now in
        IfOk result (λ first. (task : Task) → slice_get d.tasks p.0 ≡ Some task →
        first ≡ first_of d (written d task.does)) }
{
    let bits = written(alloc, design, p)?;
    Ok(first_signal(&bits))
}

/// The signal of the first row, which is the least.
pub(crate) fn first_signal(bits: &Bits) -> Option<SigId>
    ensures { result ≡ first_signal bits.now.rows.items }
{
    match bits.rows.as_slice() {
        [first, ..] => Some(first.signal),
        [] => None,
    }
}
