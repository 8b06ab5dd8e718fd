//! The steps of a demonstration, for a look at it in a wave viewer: what the top inputs have after each, and for each output
//! of the top, each register and latch and the demonstration's own signal the simulated and the synthesised value.

use crate::look::Stop;
use demo_replay::net_start::stored::{stored, top_inputs};
use demo_replay::{ReplayFault, replay};
use demo_told::{Demo, Shown};
use desk_demo::read_file;
use desk_report::push_value;
use itoa::Buffer;
use rtl_bits::Vec4;
use rtl_flat::design::Design;
use rtl_flat::expr::SigId;
use std::alloc::Global;

/// What is there of a signal after a step; nothing of a temporary.
fn shown(alloc: Global, design: &Design, demo: Demo) -> Result<Option<Shown>, Stop> {
    match replay(alloc, design, &demo) {
        Ok(shown) => Ok(Some(shown)),
        Err(fault) => same(fault),
    }
}

/// What is there where both have one value.
fn same(fault: ReplayFault) -> Result<Option<Shown>, Stop> {
    match fault {
        ReplayFault::Same(value) => Ok(Some(both(value))),
        ReplayFault::Illegal(_) => Ok(None),
        _ => Err(Stop::NotShown),
    }
}

fn both(value: Vec4) -> Shown {
    Shown {
        simulated: value,
        synthesised: value,
    }
}

/// The signals that are compared: outputs of the top, registers and latches, and the demonstration's
/// own, in the order of their numbers.
fn compared(alloc: Global, design: &Design, own: SigId) -> Result<Vec<SigId>, Stop> {
    let mut is_stored = vec![in alloc; false; design.signals.len()]?;
    for signal in &stored(alloc, design)? {
        if let Some(mark) = is_stored.get_mut(signal.0 as usize) {
            *mark = true;
        }
    }
    let mut signals = Vec::new(alloc);
    for (number, signal) in design.signals.iter().enumerate() {
        let one = SigId(number as u32);
        if signal.top_output || one == own || is_stored.get(number) == Some(&true) {
            signals.push(one)?;
        }
    }
    Ok(signals)
}

/// Writes ` PATH` behind other text.
fn push_path(design: &Design, signal: SigId, out: &mut Vec<u8>) -> Result<(), Stop> {
    out.push(b' ')?;
    if let Some(signal) = design.signals.get(signal.0 as usize) {
        out.extend_from_slice(signal.path.as_bytes())?;
    }
    Ok(())
}

/// What an input has after a step.
fn push_input(alloc: Global, design: &Design, demo: Demo, out: &mut Vec<u8>) -> Result<(), Stop> {
    if let Some(shown) = shown(alloc, design, demo)? {
        push_path(design, demo.signal, out)?;
        out.push(b'=')?;
        push_value(alloc, shown.simulated, out)?;
    }
    Ok(())
}

/// Both values of a signal after a step.
fn push_both(alloc: Global, design: &Design, demo: Demo, out: &mut Vec<u8>) -> Result<(), Stop> {
    if let Some(shown) = shown(alloc, design, demo)? {
        push_path(design, demo.signal, out)?;
        out.extend_from_slice(b".simulated=")?;
        push_value(alloc, shown.simulated, out)?;
        push_path(design, demo.signal, out)?;
        out.extend_from_slice(b".synthesised=")?;
        push_value(alloc, shown.synthesised, out)?;
    }
    Ok(())
}

/// The lines of the steps up to a demonstration's.
fn steps(alloc: Global, design: &Design, demo: Demo) -> Result<Vec<u8>, Stop> {
    let inputs = top_inputs(alloc, design)?;
    let signals = compared(alloc, design, demo.signal)?;
    let mut out = Vec::new(alloc);
    for before in 0..demo.step {
        let step = before + 1;
        let mut digits = Buffer::new();
        out.extend_from_slice(b"step ")?;
        out.extend_from_slice(digits.format(step).as_bytes())?;
        for signal in &inputs {
            let one = Demo {
                trial: demo.trial,
                step,
                signal: *signal,
            };
            push_input(alloc, design, one, &mut out)?;
        }
        for signal in &signals {
            let one = Demo {
                trial: demo.trial,
                step,
                signal: *signal,
            };
            push_both(alloc, design, one, &mut out)?;
        }
        out.push(b'\n')?;
    }
    Ok(out)
}

/// The lines that show a demonstration, one for each step, in the form of `desk simulate`.
pub fn lines(alloc: Global, design: &Design, line: &[u8]) -> Result<Vec<u8>, Stop> {
    match read_file(design, line) {
        Ok(demo) => steps(alloc, design, demo),
        Err(_) => Err(Stop::NoDemonstration),
    }
}
