// Where a process uses signals as data.

ghost use Rattle.std.specs.Prelude.{ℕ, ◌≡◌, ◌++◌, ◌∷◌, [], map, IfOk, OnOk};
ghost use Rattle.std.specs.Ordering.{nat_cmp};
ghost use Rattle.std.specs.BTreeMap.{get};
ghost use Rattle.text_ground.specs.declared.text.Spot.{Spot};
ghost use Rattle.rtl_flat.specs.Expression.{tree};
ghost use Rattle.rtl_flat.specs.Flats.{Flat, flat, widths};
ghost use Rattle.rtl_flat.specs.Process.{watched};
ghost use Rattle.check_gates.specs.check_chains.check_found.Marked.{least_of};
ghost use Rattle.check_gates.specs.check_chains.check_parts.Kept.{expressions};
ghost use Rattle.check_gates.specs.Admitted.{AreGates, gates_of};
ghost use Rattle.check_clocks.specs.Uses.{level_places, place_if, places_of, read_places, ungated};

use check_gates::check_chains::check_found::marks::Marks;
use check_gates::check_chains::check_parts::reads::{own_signal, selected_signal};
use check_gates::{Gate, is_gate_of};
use rtl_bits::Edge;
use rtl_flat::act::{EventItem, ProcId};
use rtl_flat::design::Design;
use rtl_flat::expr::{SigId, SizedExpr};
use std::alloc::Global;
use text_ground::memory::Memory;
use text_ground::text::Spot;

/// A use of a signal, and its place.
#[derive(Clone, Copy)]
pub(crate) struct Use {
    pub(crate) signal: SigId,
    pub(crate) spot: Spot,
}

/// Adds a use of a signal, if there is one.
fn push_use(used: Option<SigId>, spot: Spot, found: &mut Vec<Use>) -> Result<(), Memory>
    ensures { OnOk result ((s : ℕ) →
        places_of s found.new.items ≡ places_of s found.old.items ++ place_if used spot s) }
{
    if let Some(signal) = used {
        found.push(Use { signal, spot })?;
    }
    Ok(())
}

/// Adds an item of a list that has no edge, where it may mean a bit.
fn push_level(design: &Design, item: &EventItem, found: &mut Vec<Use>) -> Result<(), Memory>
    ensures { let ws = widths (flat design.now) in
        OnOk result ((s : ℕ) → places_of s found.new.items
        ≡ places_of s found.old.items ++ level_places ws s (watched item.now ∷ [])) }
{
    match item.edge {
        Edge::No => {
            let used = selected_signal(design, item.signal, &item.select);
            push_use(used, item.spot, found)
        }
        Edge::Pos => Ok(()),
        Edge::Neg => Ok(()),
    }
}

/// Adds the items of a list that have no edge, and may mean a bit.
pub(crate) fn push_levels(
    design: &Design,
    items: &[EventItem],
    found: &mut Vec<Use>,
) -> Result<(), Memory>
    ensures { let ws = widths (flat design.now) in
        OnOk result ((s : ℕ) → places_of s found.new.items
        ≡ places_of s found.old.items ++ level_places ws s (map watched items.now)) }
{
    for item in items {
        push_level(design, item, found)?;
    }
    Ok(())
}

/// Adds an expression that reads a bit of a signal.
fn push_read(design: &Design, e: &SizedExpr, found: &mut Vec<Use>) -> Result<(), Memory>
    ensures { let ws = widths (flat design.now) in
        OnOk result ((otherwise : Spot) (s : ℕ) → places_of s found.new.items
        ≡ places_of s found.old.items ++ read_places ws otherwise s (tree e.now ∷ [])) }
{
    push_use(own_signal(design, e), e.spot, found)
}

/// Adds those of some expressions that read a bit of a signal.
pub(crate) fn push_reads(
    design: &Design,
    all: &[&SizedExpr],
    found: &mut Vec<Use>,
) -> Result<(), Memory>
    ensures { let ws = widths (flat design.now) in
        OnOk result ((otherwise : Spot) (s : ℕ) → places_of s found.new.items
        ≡ places_of s found.old.items ++ read_places ws otherwise s (expressions all.now)) }
{
    for e in all {
        push_read(design, e, found)?;
    }
    Ok(())
}

/// The uses of signals that aren't the gate of a process.
pub(crate) fn ungated(
    alloc: Global,
    uses: &[Use],
    gates: &[Gate],
    p: ProcId,
) -> Result<Vec<Use>, Memory>
    requires { (d : Flat) × AreGates d (gates_of gates.now) }
    ensures { IfOk result (λ others. (s : ℕ) →
        places_of s others.items ≡ ungated (gates_of gates.now) p.0 s uses.now) }
{
    let mut others = Vec::new(alloc);
    for one in uses {
        if !is_gate_of(gates, p, one.signal) {
            others.push(*one)?;
        }
    }
    Ok(others)
}

/// The signals of some uses, each at its first.
pub(crate) fn firsts_of(alloc: Global, uses: &[Use]) -> Result<Marks, Memory>
    ensures { IfOk result (λ firsts. (s : ℕ) → get nat_cmp firsts.spots s
        ≡ least_of (places_of s uses.now)) }
{
    let mut firsts = Marks::new(alloc);
    for one in uses {
        firsts.note(one.signal, one.spot)?;
    }
    Ok(firsts)
}
