//! What is read of a dump.

use rtl_bits::{Bit, Vec4};
use std::alloc::{AllocError, Global};
use text_ground::text::MAX_BYTES;
use vcd_read::{Change, Dump, Entry, VcdFault, filled, read};

/// The letter of a bit.
fn letter(bit: Bit) -> u8 {
    match bit {
        Bit::Zero => b'0',
        Bit::One => b'1',
        Bit::X => b'x',
        Bit::Z => b'z',
    }
}

/// Adds what a dump declares, and gives the width of each variable: a code is numbered by its first, from 1 on.
fn put_entries(alloc: Global, dump: &Dump, out: &mut Vec<u8>) -> Result<Vec<u8>, AllocError> {
    let mut widths = Vec::new(alloc);
    for entry in &dump.entries {
        match entry {
            Entry::Scope(name) => {
                out.extend_from_slice(b"scope ")?;
                out.extend_from_slice(name.as_bytes())?;
            }
            Entry::Upscope => out.extend_from_slice(b"end of scope")?,
            Entry::Variable(variable) => {
                out.extend_from_slice(b"variable ")?;
                out.extend_from_slice(variable.name.as_bytes())?;
                let (width, code) = (variable.width, variable.code);
                let text = format!(in alloc; " {width} {code}")?;
                out.extend_from_slice(text.as_bytes())?;
                widths.push(width)?;
            }
        }
        out.push(b'\n')?;
    }
    Ok(widths)
}

/// Adds the bits of a value, from the most significant on.
fn put_value(value: Vec4, out: &mut Vec<u8>) -> Result<(), AllocError> {
    for at in (0..value.width()).rev() {
        out.push(letter(value.bit(at)))?;
    }
    Ok(())
}

/// Adds a change, whose bits these are.
fn put_change(
    alloc: Global,
    change: &Change,
    widths: &[u8],
    bits: &[Bit],
    out: &mut Vec<u8>,
) -> Result<(), AllocError> {
    let code = change.code;
    out.extend_from_slice(format!(in alloc; "{code} ")?.as_bytes())?;
    let place = code.saturating_sub(1) as usize;
    let width = widths.get(place).copied().unwrap_or(0);
    if width <= 128 {
        if let Some(value) = filled(width, bits) {
            put_value(value, out)?;
        }
    }
    out.push(b'\n')?;
    Ok(())
}

/// Adds the times before which so many changes stand.
fn put_times(
    alloc: Global,
    dump: &Dump,
    before: usize,
    out: &mut Vec<u8>,
) -> Result<(), AllocError> {
    for frame in &dump.frames {
        if frame.before == before {
            let time = frame.time;
            out.extend_from_slice(format!(in alloc; "at {time}\n")?.as_bytes())?;
        }
    }
    Ok(())
}

/// Adds the times of a dump with the changes at each.
fn put_frames(
    alloc: Global,
    dump: &Dump,
    widths: &[u8],
    out: &mut Vec<u8>,
) -> Result<(), AllocError> {
    let mut bits = dump.bits.as_slice();
    for (at, change) in dump.changes.iter().enumerate() {
        put_times(alloc, dump, at, out)?;
        let Some((own, rest)) = bits.split_at_checked(change.bits as usize) else {
            return Ok(());
        };
        put_change(alloc, change, widths, own, out)?;
        bits = rest;
    }
    put_times(alloc, dump, dump.changes.len(), out)
}

/// What is read of a text, a line for each part, or why it is no dump.
pub fn told(alloc: Global, text: &[u8]) -> Result<Vec<u8>, AllocError> {
    let mut out = Vec::new(alloc);
    if text.len() > MAX_BYTES {
        return Ok(out);
    }
    match read(alloc, text) {
        Ok(dump) => {
            let widths = put_entries(alloc, &dump, &mut out)?;
            put_frames(alloc, &dump, &widths, &mut out)?;
        }
        Err(fault) => out.extend_from_slice(format!(in alloc; "{fault}\n")?.as_bytes())?,
    }
    Ok(out)
}
