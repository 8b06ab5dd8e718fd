//! Bits of all signals of a design, a mask by the number of each.

ghost use Rattle.std.specs.Prelude.{ℕ, ◌≡◌, ◌||◌, ◌&&◌, ◌<◌, false, length, slice_index_or, OnOk};
ghost use Rattle.rtl_scan.specs.Sets.{has_row, has_rows};
ghost use Rattle.check_found.specs.Masks.{has_in, mask_in};

use rtl_flat::expr::SigId;
use rtl_scan::bits::Row;
use std::alloc::Global;
use text_ground::memory::Memory;

/// A set of bits of a design's signals that grows. The mask of a signal is found without a search; room is taken up to the
/// last signal that has a bit.
#[derive(Drop)]
pub struct SignalMasks {
    masks: Vec<u128>,
}

/// Makes room for the mask of a signal.
fn reach(masks: &mut Vec<u128>, place: usize) -> Result<(), Memory>
    ensures same { OnOk result ((s : ℕ) → slice_index_or masks.new.items s 0
        ≡ slice_index_or masks.old.items s 0) }
    ensures there { OnOk result (place < length masks.new.items) }
{
    while masks.len() <= place {
        masks.push(0)?;
    }
    Ok(())
}

impl SignalMasks {
    /// No bits.
    pub fn new(alloc: Global) -> SignalMasks
        ensures { (s k : ℕ) → has_in result s k ≡ false }
    {
        SignalMasks {
            masks: Vec::new(alloc),
        }
    }

    /// The bits of a signal.
    pub fn mask(&self, signal: SigId) -> u128
        ensures { result ≡ mask_in self.now signal.0 }
    {
        self.masks.get(signal.0 as usize).copied().unwrap_or(0)
    }

    fn insert(&mut self, row: Row) -> Result<(), Memory>
        ensures { OnOk result ((s k : ℕ)
            → has_in self.new s k ≡ (has_in self.old s k || has_row row s k)) }
    {
        // A signal with no bit takes no room.
        if row.mask == 0 {
            return Ok(());
        }
        let place = row.signal.0 as usize;
        reach(&mut self.masks, place)?;
        self.masks[place] |= row.mask;
        Ok(())
    }

    /// Adds the bits of rows. Fails where memory runs out.
    pub fn insert_all(&mut self, rows: &[Row]) -> Result<(), Memory>
        ensures { OnOk result ((s k : ℕ)
            → has_in self.new s k ≡ (has_in self.old s k || has_rows rows.now s k)) }
    {
        for row in rows {
            self.insert(*row)?;
        }
        Ok(())
    }

    /// Adds the bits of rows that another set has. Fails where memory runs out.
    pub fn insert_shared(&mut self, rows: &[Row], other: &SignalMasks) -> Result<(), Memory>
        ensures { OnOk result ((s k : ℕ) → has_in self.new s k
            ≡ (has_in self.old s k || (has_rows rows.now s k && has_in other.now s k))) }
    {
        for row in rows {
            self.insert(other.shared(*row))?;
        }
        Ok(())
    }

    /// The bits of a row that the set has.
    fn shared(&self, row: Row) -> Row
        ensures { (s k : ℕ) → has_row result s k ≡ (has_row row s k && has_in self.now s k) }
    {
        Row {
            signal: row.signal,
            mask: row.mask & self.mask(row.signal),
        }
    }
}
