//! The numbers with which a simulation of a netlist begins.

ghost use Rattle.std.specs.Prelude.{ℕ, ◌≡◌, ◌<◌, ◌^◌, false, cond, length, map, slice_index, slice_index_or, IfOk};
ghost use Rattle.std.specs.List.{All};
ghost use Rattle.rtl_bits.specs.declared.Bit.TheVariants.{X};
ghost use Rattle.rtl_bits.specs.Bit.{is_one};
ghost use Rattle.rtl_bits.specs.Bits.{has_unknown, is_one_at};
ghost use Rattle.rtl_flat.specs.Value.{store};
ghost use Rattle.rtl_flat.specs.Flats.{flat, widths};
ghost use Rattle.check_found.specs.rtl_scan.Arrows.{AreRising};
ghost use Rattle.check_found.specs.rtl_scan.Sets.{has};
ghost use Rattle.net_model.specs.Numbers.{fill_bit};
ghost use Rattle.net_start.specs.Listing.{AreGiven, AreMasked, fills_of};
ghost use Rattle.net_start.specs.Start.{AreKnown, IsStart};
ghost use Rattle.net_start.specs.Stored.{AreInputs, AreStored, is_kept, places};

use check_found::rtl_scan::bits::BitSet;
use net_model::fill::Fill;
use rtl_bits::{Bit, Vec4};
use rtl_flat::design::Design;
use rtl_flat::expr::SigId;
use std::alloc::Global;
use text_ground::memory::Memory;

/// The fill as a bit.
fn fill_bit(fill: Fill) -> Bit
    ensures { result ≡ fill_bit fill }
{
    match fill {
        Fill::Zero => Bit::Zero,
        Fill::One => Bit::One,
    }
}

/// The fill in each of 128 digits.
fn fill_digits(fill: Fill) -> u128
    ensures { (k : ℕ) → k < 128 → is_one_at result k ≡ is_one (fill_bit fill) }
{
    match fill {
        Fill::Zero => 0,
        Fill::One => u128::MAX,
    }
}

/// A value in the bits of a mask, and the fill in all others.
fn masked(value: Vec4, mask: u128, fill: Fill) -> Vec4
    requires { has_unknown value ≡ false }
    ensures bits { (k : ℕ) → k < length value → slice_index_or result k X
        ≡ cond (is_one_at mask k) (slice_index_or value k X) (fill_bit fill) }
    ensures width { length result ≡ length value }
    ensures known { has_unknown result ≡ false }
{
    let others = fill_digits(fill) & (u128::MAX ^ mask);
    Vec4::of_number(value.width(), (value.number() & mask) | others)
}

/// The values of registers and latches in the bits that are kept, and the fill in all others.
fn begun(
    alloc: Global,
    stored: &[SigId],
    registers: &[Vec4],
    kept: &BitSet,
    fill: Fill,
) -> Result<Vec<Vec4>, Memory>
    requires many { length registers.now ≡ length stored.now }
    requires known { AreKnown registers.now }
    ensures { IfOk result (λ made. AreMasked kept.now.masks fill (places stored.now) registers.now
        (length registers.now) made.items) }
{
    let mut made = Vec::new(alloc);
    for place in 0..registers.len() {
        made.push(masked(registers[place], kept.mask(stored[place]), fill))?;
    }
    Ok(made)
}

/// The fill for each bit of each signal.
fn filled(alloc: Global, design: &Design, fill: Fill) -> Result<Vec<Vec4>, Memory>
    ensures { IfOk result (λ numbers. numbers.items ≡ fills_of fill design.now.signals.items) }
{
    let bit = fill_bit(fill);
    let mut numbers = Vec::new(alloc);
    for signal in &design.signals {
        numbers.push(Vec4::filled(signal.width, bit))?;
    }
    Ok(numbers)
}

/// Gives each of some signals its value.
fn give(numbers: &mut [Vec4], signals: &[SigId], values: &[Vec4])
    requires many { length values.now ≡ length signals.now }
    requires inside { All (λ signal. signal.0 < length numbers.old) signals.now }
    requires once { AreRising (places signals.now) }
    ensures { AreGiven (places signals.now) values.now (length signals.now) (store numbers.old)
        (store numbers.new) }
{
    for place in 0..signals.len() {
        numbers[signals[place].0 as usize] = values[place];
    }
}

/// The numbers with which a simulation begins: inputs, registers and latches as they are given, all else with the fill. Of
/// registers and latches only the bits that are kept count.
///
/// Fails where memory runs out.
pub fn start(
    alloc: Global,
    design: &Design,
    kept: &BitSet,
    stored: &[SigId],
    registers: &[Vec4],
    tops: &[SigId],
    inputs: &[Vec4],
    fill: Fill,
) -> Result<Vec<Vec4>, Memory>
    requires kept { (s k : ℕ) → has kept.now.masks s k ≡ is_kept (flat design.now) s k }
    requires stored { AreStored (flat design.now) (places stored.now) }
    requires tops { AreInputs (flat design.now) (places tops.now) }
    requires registers { map length registers.now
        ≡ map (widths (flat design.now)) (places stored.now) }
    requires inputs { map length inputs.now ≡ map (widths (flat design.now)) (places tops.now) }
    requires registers_known { AreKnown registers.now }
    requires inputs_known { AreKnown inputs.now }
    ensures many { IfOk result (λ numbers. length numbers.items ≡ length design.now.signals.items) }
    ensures start { IfOk result (λ numbers. IsStart (flat design.now) fill
        (places stored.now) registers.now (places tops.now) inputs.now (store numbers.items)) }
{
    let begun = begun(alloc, stored, registers, kept, fill)?;
    let mut numbers = filled(alloc, design, fill)?;
    give(&mut numbers, stored, &begun);
    give(&mut numbers, tops, inputs);
    Ok(numbers)
}
