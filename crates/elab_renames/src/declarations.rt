// Copies of what declarations and continuous assignments list.

ghost use Rattle.std.specs.Prelude.{◌≡◌, IfOk, map};
ghost use Rattle.rtl_tree.specs.TreeItem.{drive, gate_drive, head, net, valuation, variable};
ghost use Rattle.elab_renames.specs.Renames.{renamed_drive, renamed_gate_drive, renamed_head, renamed_net, renamed_valuation, renamed_variable, renaming};

use crate::expressions::{boxed_expr, optional_range, renamed_expr, renamed_value};
use crate::naming::{Naming, renamed_name};
use crate::targets::{boxed_target, renamed_targets};
use rtl_tree::tree::item::{Assignment, GateDrive, PortHead, Reg, Setting, Wire};
use std::alloc::Global;
use text_ground::memory::Memory;

fn renamed_head(alloc: Global, naming: &Naming<'_>, written: &PortHead) -> Result<PortHead, Memory>
    ensures { IfOk result (λ made. head made ≡ renamed_head (renaming naming.now) (head written.now)) }
{
    let range = optional_range(alloc, naming, &written.range)?;
    Ok(PortHead {
        at: written.at,
        direction: written.direction,
        kind: written.kind,
        signed: written.signed,
        range,
    })
}

/// The same in a box: what is held by value while more is copied is dear to prove.
pub(crate) fn boxed_head(
    alloc: Global,
    naming: &Naming<'_>,
    written: &PortHead,
) -> Result<Box<PortHead>, Memory>
    ensures { IfOk result (λ made. head made.value
        ≡ renamed_head (renaming naming.now) (head written.now)) }
{
    let made = renamed_head(alloc, naming, written)?;
    Ok(Box::new(alloc, made)?)
}

fn renamed_wire(alloc: Global, naming: &Naming<'_>, wire: &Wire) -> Result<Wire, Memory>
    ensures { IfOk result (λ made. net made ≡ renamed_net (renaming naming.now) (net wire.now)) }
{
    let name = renamed_name(alloc, naming, &wire.name)?;
    let value = renamed_value(alloc, naming, &wire.value)?;
    Ok(Wire { name, value })
}

pub(crate) fn renamed_wires(
    alloc: Global,
    naming: &Naming<'_>,
    wires: &[Wire],
) -> Result<Vec<Wire>, Memory>
    ensures { IfOk result (λ made. map net made.items
        ≡ map (renamed_net (renaming naming.now)) (map net wires.now)) }
{
    let mut made = Vec::with_capacity(alloc, wires.len())?;
    for wire in wires {
        made.push(renamed_wire(alloc, naming, wire)?)?;
    }
    Ok(made)
}

fn renamed_reg(alloc: Global, naming: &Naming<'_>, reg: &Reg) -> Result<Reg, Memory>
    ensures { IfOk result (λ made. variable made
        ≡ renamed_variable (renaming naming.now) (variable reg.now)) }
{
    let name = renamed_name(alloc, naming, &reg.name)?;
    Ok(Reg {
        name,
        initial: reg.initial,
    })
}

pub(crate) fn renamed_regs(
    alloc: Global,
    naming: &Naming<'_>,
    regs: &[Reg],
) -> Result<Vec<Reg>, Memory>
    ensures { IfOk result (λ made. map variable made.items
        ≡ map (renamed_variable (renaming naming.now)) (map variable regs.now)) }
{
    let mut made = Vec::with_capacity(alloc, regs.len())?;
    for reg in regs {
        made.push(renamed_reg(alloc, naming, reg)?)?;
    }
    Ok(made)
}

fn renamed_setting(alloc: Global, naming: &Naming<'_>, setting: &Setting) -> Result<Setting, Memory>
    ensures { IfOk result (λ made. valuation made
        ≡ renamed_valuation (renaming naming.now) (valuation setting.now)) }
{
    let name = renamed_name(alloc, naming, &setting.name)?;
    let value = renamed_expr(alloc, naming, &setting.value)?;
    Ok(Setting { name, value })
}

pub(crate) fn renamed_settings(
    alloc: Global,
    naming: &Naming<'_>,
    settings: &[Setting],
) -> Result<Vec<Setting>, Memory>
    ensures { IfOk result (λ made. map valuation made.items
        ≡ map (renamed_valuation (renaming naming.now)) (map valuation settings.now)) }
{
    let mut made = Vec::with_capacity(alloc, settings.len())?;
    for setting in settings {
        made.push(renamed_setting(alloc, naming, setting)?)?;
    }
    Ok(made)
}

fn renamed_assignment(
    alloc: Global,
    naming: &Naming<'_>,
    assignment: &Assignment,
) -> Result<Assignment, Memory>
    ensures { IfOk result (λ made. drive made
        ≡ renamed_drive (renaming naming.now) (drive assignment.now)) }
{
    let target = boxed_target(alloc, naming, &assignment.target)?;
    let value = boxed_expr(alloc, naming, &assignment.value)?;
    Ok(Assignment {
        target: Box::into_inner(target),
        value: Box::into_inner(value),
    })
}

pub(crate) fn renamed_assignments(
    alloc: Global,
    naming: &Naming<'_>,
    assignments: &[Assignment],
) -> Result<Vec<Assignment>, Memory>
    ensures { IfOk result (λ made. map drive made.items
        ≡ map (renamed_drive (renaming naming.now)) (map drive assignments.now)) }
{
    let mut made = Vec::with_capacity(alloc, assignments.len())?;
    for assignment in assignments {
        made.push(renamed_assignment(alloc, naming, assignment)?)?;
    }
    Ok(made)
}

fn renamed_gate(alloc: Global, naming: &Naming<'_>, drive: &GateDrive) -> Result<GateDrive, Memory>
    ensures { IfOk result (λ made. gate_drive made
        ≡ renamed_gate_drive (renaming naming.now) (gate_drive drive.now)) }
{
    let outputs = renamed_targets(alloc, naming, &drive.outputs)?;
    let value = renamed_expr(alloc, naming, &drive.value)?;
    Ok(GateDrive { outputs, value })
}

pub(crate) fn renamed_gates(
    alloc: Global,
    naming: &Naming<'_>,
    drives: &[GateDrive],
) -> Result<Vec<GateDrive>, Memory>
    ensures { IfOk result (λ made. map gate_drive made.items
        ≡ map (renamed_gate_drive (renaming naming.now)) (map gate_drive drives.now)) }
{
    let mut made = Vec::with_capacity(alloc, drives.len())?;
    for drive in drives {
        made.push(renamed_gate(alloc, naming, drive)?)?;
    }
    Ok(made)
}
