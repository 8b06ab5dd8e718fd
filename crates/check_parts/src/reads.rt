//! Which signals expressions read a bit of, and what those are worth that read none.

ghost use Rattle.std.specs.Prelude.{ℕ, ◌≡◌, length, IfOk};
ghost use Rattle.rtl_flat.specs.Expression.{tree};
ghost use Rattle.rtl_flat.specs.Flats.{flat, widths};
ghost use Rattle.rtl_flat.specs.Flows.{may_select};
ghost use Rattle.rtl_flat.specs.Process.{selection};
ghost use Rattle.rtl_flat.specs.Sizes.{IsSized};
ghost use Rattle.rtl_rule.specs.Parts.{constant_of, has_some, own_reads, reads_signal};
ghost use Rattle.check_parts.specs.Reads.{AreUnknowns, is_signal};

use crate::expressions::nodes;
use rtl_bits::{Bit, Vec4};
use rtl_flat::design::Design;
use rtl_flat::expr::{Node, Select, SigId, SizedExpr};
use rtl_scan::rtl_expr::eval;
use rtl_scan::selected;
use std::alloc::Global;
use text_ground::memory::Memory;

/// The signal of a select, where it may mean a bit of it.
pub fn selected_signal(design: &Design, signal: SigId, select: &Select) -> Option<SigId>
    ensures { let ws = widths (flat design.now) in
        (s : ℕ) →
        has_some ws (may_select ws signal.0 (selection select.now)) s ≡ is_signal result s }
{
    if selected(design, signal, select).mask == 0 {
        return None;
    }
    Some(signal)
}

/// The signal of which an expression itself, without its operands, reads a bit.
pub fn own_signal(design: &Design, e: &SizedExpr) -> Option<SigId>
    ensures { let ws = widths (flat design.now) in
        (s : ℕ) → has_some ws (own_reads ws (tree e.now)) s ≡ is_signal result s }
{
    match &e.node {
        Node::Read(signal, select) => selected_signal(design, *signal, select),
        _ => None,
    }
}

/// Whether an expression reads a bit of some signal.
fn reads_signal(alloc: Global, design: &Design, e: &SizedExpr) -> Result<bool, Memory>
    ensures { IfOk result (λ reads. reads ≡ reads_signal (flat design.now) (tree e.now)) }
{
    for one in &nodes(alloc, &[e])? {
        match own_signal(design, one) {
            Some(_) => return Ok(true),
            None => {}
        }
    }
    Ok(false)
}

/// The values of all signals where every bit is x.
pub fn unknowns(alloc: Global, design: &Design) -> Result<Vec<Vec4>, Memory>
    ensures { IfOk result (λ values. AreUnknowns (flat design.now) values.items) }
{
    let mut values = Vec::new(alloc);
    for signal in &design.signals {
        values.push(Vec4::filled(signal.width, Bit::X))?;
    }
    Ok(values)
}

/// The value of an expression that reads no signal, given all signals with every bit x.
pub fn constant_of(
    alloc: Global,
    design: &Design,
    unknowns: &[Vec4],
    e: &SizedExpr,
) -> Result<Option<Vec4>, Memory>
    requires unknown { AreUnknowns (flat design.now) unknowns.now }
    requires sized { let d = flat design.now in
        IsSized (length d.signals) (widths d) (tree e.now) }
    ensures { IfOk result (λ found. found ≡ constant_of (flat design.now) (tree e.now)) }
{
    if reads_signal(alloc, design, e)? {
        return Ok(None);
    }
    Ok(Some(eval(e, unknowns)))
}
