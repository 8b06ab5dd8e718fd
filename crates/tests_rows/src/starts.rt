//! How a netlist begins: its registers and latches, and why it has none or isn't simulated.

ghost use Rattle.std.specs.Prelude.{◌≡◌, length, map, IfOk};
ghost use Rattle.rtl_flat.specs.Flats.{flat, widths};
ghost use Rattle.tests_netlists.specs.net_start.Stored.{places};

use crate::look::Stop;
use net_model::fill::Fill;
use rtl_bits::{Bit, Vec4};
use rtl_flat::design::Design;
use rtl_flat::expr::SigId;
use std::alloc::Global;
use tests_netlists::infer_regs::registers;
use tests_netlists::net_list::netlist::Netlist;
use tests_netlists::net_start::stored::{stored, top_inputs};
use tests_netlists::netlist_eval::sim::NetSim;
use tests_netlists::{netlist, width};

/// A bit in every place of the value of each of some signals.
fn filled(alloc: Global, design: &Design, signals: &[SigId], bit: Bit) -> Result<Vec<Vec4>, Stop>
    ensures { IfOk result (λ values. map length values.items
        ≡ map (widths (flat design.now)) (places signals.now)) }
{
    let mut values = Vec::new(alloc);
    for place in 0..signals.len() {
        values.push(Vec4::filled(width(design, signals[place])?, bit))?;
    }
    Ok(values)
}

/// Whether a netlist is simulated, where all registers and latches begin with one bit in every place, and all inputs with
/// another, or why not.
fn begun(alloc: Global, netlist: &Netlist<'_>, held: Bit, given: Bit) -> Result<Vec<u8>, Stop> {
    let design = netlist.design;
    let holders = stored(alloc, design)?;
    let tops = top_inputs(alloc, design)?;
    let registers = filled(alloc, design, &holders, held)?;
    let inputs = filled(alloc, design, &tops, given)?;
    match NetSim::new(alloc, netlist, &registers, &inputs) {
        Ok(_) => Ok(Vec::from_slice(alloc, b"simulated\n")?),
        Err(fault) => Ok(format!(in alloc; "{fault:?}\n")?.into_bytes()),
    }
}

fn bit(word: &str) -> Bit {
    match word {
        "0" => Bit::Zero,
        "1" => Bit::One,
        "z" => Bit::Z,
        _ => Bit::X,
    }
}

/// The same of the netlist of a design, where words tell both bits.
pub fn started(alloc: Global, design: &Design, words: &[String]) -> Result<Vec<u8>, Stop> {
    let [held, given] = words else {
        return Err(Stop::NoLook);
    };
    let netlist = netlist(alloc, design, Fill::Zero)?;
    begun(alloc, &netlist, bit(held), bit(given))
}

/// Whether registers are inferred of a design, or why not.
pub fn inferred(alloc: Global, design: &Design) -> Result<Vec<u8>, Stop> {
    match registers(alloc, design) {
        Ok(_) => Ok(Vec::from_slice(alloc, b"inferred\n")?),
        Err(fault) => Ok(format!(in alloc; "{fault:?}\n")?.into_bytes()),
    }
}

/// Writes the path of each signal behind a blank.
fn put_paths(design: &Design, signals: &[SigId], out: &mut Vec<u8>) -> Result<(), Stop> {
    for signal in signals {
        if let Some(signal) = design.signals.get(signal.0 as usize) {
            out.push(b' ')?;
            out.extend_from_slice(signal.path.as_bytes())?;
        }
    }
    out.push(b'\n')?;
    Ok(())
}

/// Which signals are registers and latches, and which are inputs of the top.
pub fn listed(alloc: Global, design: &Design) -> Result<Vec<u8>, Stop> {
    let mut out = Vec::from_slice(alloc, b"stored")?;
    put_paths(design, &stored(alloc, design)?, &mut out)?;
    out.extend_from_slice(b"inputs")?;
    put_paths(design, &top_inputs(alloc, design)?, &mut out)?;
    Ok(out)
}
