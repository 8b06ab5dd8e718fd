//! The lines that show a demonstration.

ghost use Rattle.std.specs.Prelude.{◌≡◌, ◌++◌, OnOk};
ghost use Rattle.desk_report.specs.Demos.{demo_line, replay_line, values_text};

use crate::value::push_value;
use demo_told::{Demo, Shown};
use itoa::Buffer;
use std::alloc::Global;
use text_ground::memory::Memory;

/// Writes behind other text what stands below a finding in a report:
/// `  trial T step K signal PATH simulated V synthesised W`.
pub(crate) fn push_demo(
    alloc: Global,
    demo: &Demo,
    path: &[u8],
    shown: &Shown,
    out: &mut Vec<u8>,
) -> Result<(), Memory>
    ensures { OnOk result (out.new.items
        ≡ out.old.items ++ demo_line demo.now path.now shown.now) }
{
    let mut digits = Buffer::new();
    out.extend_from_slice(b"  trial ")?;
    out.extend_from_slice(digits.format(demo.trial).as_bytes())?;
    out.push(b' ')?;
    push_replay(alloc, demo, path, shown, out)
}

/// Writes behind other text what a demonstration shows that is run again:
/// `step K signal PATH simulated V synthesised W`.
pub fn push_replay(
    alloc: Global,
    demo: &Demo,
    path: &[u8],
    shown: &Shown,
    out: &mut Vec<u8>,
) -> Result<(), Memory>
    ensures { OnOk result (out.new.items
        ≡ out.old.items ++ replay_line demo.now path.now shown.now) }
{
    let mut digits = Buffer::new();
    out.extend_from_slice(b"step ")?;
    out.extend_from_slice(digits.format(demo.step).as_bytes())?;
    out.extend_from_slice(b" signal ")?;
    out.extend_from_slice(path)?;
    push_values(alloc, shown, out)
}

/// The two values, up to the end of the line.
fn push_values(alloc: Global, shown: &Shown, out: &mut Vec<u8>) -> Result<(), Memory>
    ensures { OnOk result (out.new.items ≡ out.old.items ++ values_text shown.now) }
{
    out.extend_from_slice(b" simulated ")?;
    push_value(alloc, shown.simulated, out)?;
    out.extend_from_slice(b" synthesised ")?;
    push_value(alloc, shown.synthesised, out)?;
    out.push(b'\n')?;
    Ok(())
}
