// Statements that give a signal a constant.

ghost use Rattle.std.specs.Prelude.{ℕ, ◌≡◌, map, IfOk, MatchOption};
ghost use Rattle.rtl_flat.specs.Flats.{flat};
ghost use Rattle.rtl_flat.specs.Process.{action, piece};
ghost use Rattle.rtl_flat.specs.WellFormed.{IsAction};
ghost use Rattle.check_parts.specs.Reads.{AreUnknowns};
ghost use Rattle.check_chains.specs.Chains as spec;
ghost use Rattle.check_chains.specs.Inner.{targets_whole};

use crate::choice::only;
use check_parts::reads::constant_of;
use rtl_bits::Vec4;
use rtl_flat::act::{Act, TargetPart};
use rtl_flat::design::Design;
use rtl_flat::expr::{Select, SigId};
use std::alloc::Global;
use text_ground::memory::Memory;

fn is_known(value: Option<Vec4>) -> bool
    ensures { result ≡ spec.is_known value }
{
    match value {
        None => false,
        Some(bits) => bits.is_known(),
    }
}

/// The signal all of which a target is.
fn whole_target(target: &[TargetPart]) -> Option<SigId>
    ensures { MatchOption result ((s : ℕ) → targets_whole s (map piece target.now) → ⊥)
        (λ signal. targets_whole signal.0 (map piece target.now)) }
{
    let part = only(target)?;
    match part.select {
        Select::Whole => Some(part.signal),
        Select::Bit { .. } => None,
        Select::Part { .. } => None,
    }
}

/// The signal to all of which a nonblocking assignment gives a constant.
pub fn reset_of(
    alloc: Global,
    design: &Design,
    unknowns: &[Vec4],
    one: &Act,
) -> Result<Option<SigId>, Memory>
    requires unknown { AreUnknowns (flat design.now) unknowns.now }
    requires lawful { IsAction design.now.signals.items (action one.now) }
    ensures { let d = flat design.now in
        IfOk result (λ found. MatchOption found ((s : ℕ) → spec.resets_to d s (action one.now) → ⊥)
        (λ signal. spec.resets_to d signal.0 (action one.now))) }
{
    match one {
        Act::Set {
            target,
            value,
            delayed,
            spot: _,
        } => {
            let Some(signal) = whole_target(&target.parts) else {
                return Ok(None);
            };
            if !*delayed || !is_known(constant_of(alloc, design, unknowns, value)?) {
                return Ok(None);
            }
            Ok(Some(signal))
        }
        Act::If { .. } => Ok(None),
        Act::Case { .. } => Ok(None),
        Act::Block(_) => Ok(None),
    }
}
