//! The signals that a simulation of a netlist begins with.

ghost use Rattle.std.specs.Prelude.{ℕ, ◌≡◌, ◌≤◌, ◌<◌, ◌++◌, ◌∷◌, ◌&&◌, ◌==◌, [], cond, length, not, IfOk, OnOk};
ghost use Rattle.std.specs.List.{slice_get};
ghost use Rattle.event_model.specs.Queue.{is_input};
ghost use Rattle.rtl_flat.specs.Flats.{flat};
ghost use Rattle.net_start.specs.Listing.{is_var};
ghost use Rattle.net_start.specs.Stored.{AreInputs, AreStored, places};

use crate::kept::kept_bits;
use check_found::rtl_scan::temporaries;
use rtl_flat::design::Design;
use rtl_flat::expr::SigId;
use rtl_flat::signal::Kind;
use std::alloc::Global;
use text_ground::memory::Memory;

/// Puts a signal behind others, where it is one of them.
fn push_if(found: &mut Vec<SigId>, holds: bool, signal: SigId) -> Result<(), Memory>
    ensures { OnOk result (found.new.items ≡ found.old.items ++ cond holds (signal ∷ []) []) }
{
    if holds {
        found.push(signal)?;
    }
    Ok(())
}

/// Whether a signal is a variable.
fn is_variable(design: &Design, signal: SigId) -> bool
    requires { signal.0 < length design.now.signals.items }
    ensures { result ≡ is_var (slice_get design.now.signals.items signal.0) }
{
    match design.signals[signal.0 as usize].kind {
        Kind::TopInput => false,
        Kind::Net => false,
        Kind::Var => true,
    }
}

/// Whether a variable with a bit that is kept is no temporary.
fn is_stored(variable: bool, mask: u128, temporary: bool) -> bool
    ensures { result ≡ (variable && (not (mask == 0) && not temporary)) }
{
    variable && (mask != 0 && !temporary)
}

/// The registers and the latches of a design, in order of number.
///
/// Fails where memory runs out.
pub fn stored(alloc: Global, design: &Design) -> Result<Vec<SigId>, Memory>
    ensures all { IfOk result (λ found. AreStored (flat design.now) (places found.items)) }
    ensures few { IfOk result (λ found. length found.items ≤ length design.now.signals.items) }
{
    let temporaries = temporaries(alloc, design)?;
    let kept = kept_bits(alloc, design)?;
    let mut found = Vec::new(alloc);
    for number in 0..design.signals.len() {
        let signal = SigId(number as u32);
        let variable = is_variable(design, signal);
        let holds = is_stored(variable, kept.mask(signal), temporaries[number]);
        push_if(&mut found, holds, signal)?;
    }
    Ok(found)
}

/// Whether a signal is a top input.
fn is_top(design: &Design, signal: SigId) -> bool
    requires { signal.0 < length design.now.signals.items }
    ensures { result ≡ is_input (flat design.now) signal.0 }
{
    match design.signals[signal.0 as usize].kind {
        Kind::TopInput => true,
        Kind::Net => false,
        Kind::Var => false,
    }
}

/// The top inputs of a design, in order of number.
///
/// Fails where memory runs out.
pub fn top_inputs(alloc: Global, design: &Design) -> Result<Vec<SigId>, Memory>
    ensures all { IfOk result (λ found. AreInputs (flat design.now) (places found.items)) }
    ensures few { IfOk result (λ found. length found.items ≤ length design.now.signals.items) }
{
    let mut found = Vec::new(alloc);
    for number in 0..design.signals.len() {
        let signal = SigId(number as u32);
        push_if(&mut found, is_top(design, signal), signal)?;
    }
    Ok(found)
}
