//! What is told of a dump.

use rtl_bits::{Bit, Vec4};
use rtl_flat::design::Design;
use rtl_flat::expr::SigId;
use std::alloc::{AllocError, Global};
use tests_designs::designed;
use text_ground::text::MAX_BYTES;
use vcd_check::vcd_read::read;
use vcd_check::{CompareFault, Verdict, compare};

/// The letter of a bit.
fn letter(bit: Bit) -> u8 {
    match bit {
        Bit::Zero => b'0',
        Bit::One => b'1',
        Bit::X => b'x',
        Bit::Z => b'z',
    }
}

/// Adds the bits of a value, from the most significant on.
fn put_value(value: Vec4, out: &mut Vec<u8>) -> Result<(), AllocError> {
    for at in (0..value.width()).rev() {
        out.push(letter(value.bit(at)))?;
    }
    Ok(())
}

/// Adds the path of a signal.
fn put_path(design: &Design, signal: SigId, out: &mut Vec<u8>) -> Result<(), AllocError> {
    if let Some(signal) = design.signals.get(signal.0 as usize) {
        out.extend_from_slice(signal.path.as_bytes())?;
    }
    Ok(())
}

/// A line of a verdict.
fn verdict_line(
    alloc: Global,
    design: &Design,
    verdict: Verdict,
    out: &mut Vec<u8>,
) -> Result<(), AllocError> {
    match verdict {
        Verdict::Agrees { frames } => {
            out.extend_from_slice(format!(in alloc; "agrees {frames}")?.as_bytes())
        }
        Verdict::Departs {
            time,
            signal,
            recorded,
            synthesised,
        } => {
            out.extend_from_slice(format!(in alloc; "departs {time} ")?.as_bytes())?;
            put_path(design, signal, out)?;
            out.push(b' ')?;
            put_value(recorded, out)?;
            out.push(b' ')?;
            put_value(synthesised, out)
        }
    }
}

/// A line of a refusal.
fn fault_line(
    alloc: Global,
    design: &Design,
    fault: CompareFault,
    out: &mut Vec<u8>,
) -> Result<(), AllocError> {
    match fault {
        CompareFault::MissingInput(signal) => {
            out.extend_from_slice(b"missing input ")?;
            put_path(design, signal, out)
        }
        CompareFault::MissingRegister(signal) => {
            out.extend_from_slice(b"missing register ")?;
            put_path(design, signal, out)
        }
        CompareFault::NoNetlist => out.extend_from_slice(b"no netlist"),
        CompareFault::NeverKnown => out.extend_from_slice(b"never known"),
        CompareFault::Unlawful(time) => {
            out.extend_from_slice(format!(in alloc; "unlawful {time}")?.as_bytes())
        }
        CompareFault::Memory => Err(AllocError),
    }
}

/// What is told of a dump for a module of a text.
pub fn told(
    alloc: Global,
    top: &[u8],
    scope: &str,
    dump: &[u8],
    modules: &[u8],
) -> Result<Vec<u8>, AllocError> {
    let mut out = Vec::new(alloc);
    if dump.len() > MAX_BYTES {
        return Ok(out);
    }
    let Ok(dump) = read(alloc, dump) else {
        out.extend_from_slice(b"no dump\n")?;
        return Ok(out);
    };
    let Ok(design) = designed(alloc, top, modules) else {
        out.extend_from_slice(b"no design\n")?;
        return Ok(out);
    };
    match compare(alloc, &design, scope, &dump) {
        Ok(verdict) => verdict_line(alloc, &design, verdict, &mut out)?,
        Err(fault) => fault_line(alloc, &design, fault, &mut out)?,
    }
    out.push(b'\n')?;
    Ok(out)
}
