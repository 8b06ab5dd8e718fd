//! The lines that tell of a dump.

ghost use Rattle.std.specs.Prelude.{◌≡◌, ◌++◌, IfOk, OnOk, Some, slice_get};
ghost use Rattle.desk_report.specs.Tellings.{signal_path};
ghost use Rattle.desk_dumps.specs.Lines.{compare_line, departed_line, missing_line, number_line, read_line, values_text, verdict_line};

use desk_report::push_value;
use itoa::Buffer;
use rtl_bits::Vec4;
use rtl_flat::design::Design;
use rtl_flat::expr::SigId;
use std::alloc::Global;
use text_ground::memory::Memory;
use vcd_check::vcd_read::VcdFault;
use vcd_check::{CompareFault, Verdict};

/// The path of a signal; empty where the design has none with its number.
fn path_of(design: &Design, signal: SigId) -> &[u8]
    ensures { result.now ≡ signal_path (slice_get design.now.signals.items signal.0) }
{
    match design.signals.get(signal.0 as usize) {
        Some(signal) => signal.path.as_bytes(),
        None => b"",
    }
}

/// Words, and a number.
fn number_line(alloc: Global, words: &[u8], number: u64) -> Result<Vec<u8>, Memory>
    ensures { IfOk result (λ line. line.items ≡ number_line words.now number) }
{
    let mut digits = Buffer::new();
    let mut line = Vec::from_slice(alloc, words)?;
    line.extend_from_slice(digits.format(number).as_bytes())?;
    line.push(b'\n')?;
    Ok(line)
}

/// A signal that isn't recorded.
fn missing_line(alloc: Global, path: &[u8]) -> Result<Vec<u8>, Memory>
    ensures { IfOk result (λ line. line.items ≡ missing_line path.now) }
{
    let mut line = Vec::from_slice(alloc, b"missing ")?;
    line.extend_from_slice(path)?;
    line.push(b'\n')?;
    Ok(line)
}

/// The two values, up to the end of the line.
fn push_values(
    alloc: Global,
    recorded: Vec4,
    synthesised: Vec4,
    out: &mut Vec<u8>,
) -> Result<(), Memory>
    ensures { OnOk result (out.new.items ≡ out.old.items ++ values_text recorded synthesised) }
{
    out.extend_from_slice(b" recorded ")?;
    push_value(alloc, recorded, out)?;
    out.extend_from_slice(b" synthesised ")?;
    push_value(alloc, synthesised, out)?;
    out.push(b'\n')?;
    Ok(())
}

/// A departure.
fn departed_line(
    alloc: Global,
    time: u64,
    path: &[u8],
    recorded: Vec4,
    synthesised: Vec4,
) -> Result<Vec<u8>, Memory>
    ensures { IfOk result (λ line. line.items ≡ departed_line time path.now recorded synthesised) }
{
    let mut digits = Buffer::new();
    let mut line = Vec::from_slice(alloc, b"departs time ")?;
    line.extend_from_slice(digits.format(time).as_bytes())?;
    line.extend_from_slice(b" signal ")?;
    line.extend_from_slice(path)?;
    push_values(alloc, recorded, synthesised, &mut line)?;
    Ok(line)
}

/// The line of a verdict: `agrees frames N`, or `departs time T signal PATH recorded V synthesised W`.
pub fn verdict_line(alloc: Global, design: &Design, verdict: Verdict) -> Result<Vec<u8>, Memory>
    ensures { IfOk result (λ line. line.items ≡ verdict_line design.now.signals.items verdict) }
{
    match verdict {
        Verdict::Agrees { frames } => number_line(alloc, b"agrees frames ", frames as u64),
        Verdict::Departs {
            time,
            signal,
            recorded,
            synthesised,
        } => departed_line(alloc, time, path_of(design, signal), recorded, synthesised),
    }
}

/// The line of a text that is none that can be read: `malformed byte N` or `too large byte N`. Fails where memory ran
/// out, or runs out here.
pub fn read_line(alloc: Global, fault: VcdFault) -> Result<Vec<u8>, Memory>
    ensures { IfOk result (λ line. read_line fault ≡ Some line.items) }
{
    match fault {
        VcdFault::Malformed(at) => number_line(alloc, b"malformed byte ", u64::from(at)),
        VcdFault::TooLarge(at) => number_line(alloc, b"too large byte ", u64::from(at)),
        VcdFault::Memory => Err(Memory),
    }
}

/// The line of a dump of which nothing is told: `missing PATH`, `no netlist`, `never known` or `unlawful time T`. Fails
/// where memory ran out, or runs out here.
pub fn compare_line(alloc: Global, design: &Design, fault: CompareFault) -> Result<Vec<u8>, Memory>
    ensures { IfOk result (λ line. compare_line design.now.signals.items fault ≡ Some line.items) }
{
    match fault {
        CompareFault::MissingInput(signal) => missing_line(alloc, path_of(design, signal)),
        CompareFault::MissingRegister(signal) => missing_line(alloc, path_of(design, signal)),
        CompareFault::NoNetlist => Ok(Vec::from_slice(alloc, b"no netlist\n")?),
        CompareFault::NeverKnown => Ok(Vec::from_slice(alloc, b"never known\n")?),
        CompareFault::Unlawful(time) => number_line(alloc, b"unlawful time ", time),
        CompareFault::Memory => Err(Memory),
    }
}
