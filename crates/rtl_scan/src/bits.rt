//! Sets of bits of signals.

ghost use Rattle.std.specs.Prelude.{ℕ, ◌++◌, ◌≡◌, ◌||◌, ◌&&◌, not, [], OnOk, IfOk};
ghost use Rattle.rtl_scan.specs.Sets.{has, has_rows, has_row, mask_of, put, row_of, IsInOrder};

use rtl_flat::expr::SigId;
use std::alloc::Global;
use std::collections::BTreeMap;
use text_ground::memory::Memory;

/// Bits of one signal: those whose digits in `mask` are 1.
#[derive(Clone, Copy, PartialEq, Eq, Debug)]
pub struct Row {
    pub signal: SigId,
    pub mask: u128,
}

/// A set of bits: rows in order of signal, each with a bit.
#[derive(Drop)]
pub struct Bits {
    pub rows: Vec<Row>,
}

/// A set of bits that grows and shrinks.
#[derive(Drop)]
pub struct BitSet {
    masks: BTreeMap<u32, u128>,
}

impl BitSet {
    /// No bits.
    pub fn new(alloc: Global) -> BitSet
        ensures { (s k : ℕ) → has result.masks s k ≡ has_rows [] s k }
    {
        BitSet {
            masks: BTreeMap::new(alloc),
        }
    }

    /// The same bits as in rows.
    pub fn of(alloc: Global, rows: &[Row]) -> Result<BitSet, Memory>
        ensures { IfOk result (λ bits. (s k : ℕ) → has bits.masks s k ≡ has_rows rows.now s k) }
    {
        let mut bits = BitSet::new(alloc);
        bits.insert_all(rows)?;
        Ok(bits)
    }

    /// The bits of a signal.
    pub fn mask(&self, signal: SigId) -> u128
        ensures { result ≡ mask_of self.now.masks signal.0 }
    {
        self.masks.get(&signal.0).copied().unwrap_or(0)
    }

    fn put(&mut self, signal: SigId, mask: u128) -> Result<(), Memory>
        ensures { OnOk result ((s : ℕ)
            → mask_of self.new.masks s ≡ put (mask_of self.old.masks) signal.0 mask s) }
    {
        self.masks.insert(signal.0, mask)?;
        Ok(())
    }

    /// Adds the bits of a row.
    pub fn insert(&mut self, row: Row) -> Result<(), Memory>
        ensures { OnOk result ((s k : ℕ)
            → has self.new.masks s k ≡ (has self.old.masks s k || has_row row s k)) }
    {
        let mask = self.mask(row.signal);
        let more = mask | row.mask;
        // Bits that are there already take no second search.
        if more == mask {
            return Ok(());
        }
        self.put(row.signal, more)
    }

    /// Adds the bits of rows.
    fn insert_all(&mut self, rows: &[Row]) -> Result<(), Memory>
        ensures { OnOk result ((s k : ℕ)
            → has self.new.masks s k ≡ (has self.old.masks s k || has_rows rows.now s k)) }
    {
        for row in rows {
            self.insert(*row)?;
        }
        Ok(())
    }

    /// Takes the bits of a row out.
    pub fn remove(&mut self, row: Row) -> Result<(), Memory>
        ensures { OnOk result ((s k : ℕ)
            → has self.new.masks s k ≡ (has self.old.masks s k && not (has_row row s k))) }
    {
        let mask = self.mask(row.signal);
        self.put(row.signal, mask & (mask ^ row.mask))
    }

    /// The bits of a row that the set lacks.
    pub fn lacks(&self, row: Row) -> Row
        ensures { (s k : ℕ) → has_row result s k
            ≡ (has_row row s k && not (has self.now.masks s k)) }
    {
        Row {
            signal: row.signal,
            mask: row.mask & (row.mask ^ self.mask(row.signal)),
        }
    }

    /// The bits of a row that the set has.
    pub fn shared(&self, row: Row) -> Row
        ensures { (s k : ℕ) → has_row result s k ≡ (has_row row s k && has self.now.masks s k) }
    {
        Row {
            signal: row.signal,
            mask: row.mask & self.mask(row.signal),
        }
    }

    /// The same bits in rows.
    pub fn to_bits(&self, alloc: Global) -> Result<Bits, Memory>
        ensures bits { IfOk result (λ bits. (s k : ℕ)
            → has_rows bits.rows.items s k ≡ has self.now.masks s k) }
        ensures order { IfOk result (λ bits. IsInOrder bits.rows.items) }
    {
        let mut rows = Vec::with_capacity(alloc, self.masks.len())?;
        for (signal, mask) in &self.masks {
            push_mask(&mut rows, *signal, *mask)?;
        }
        Ok(Bits { rows })
    }
}

/// Adds the row of a mask that isn't 0.
fn push_mask(rows: &mut Vec<Row>, signal: u32, mask: u128) -> Result<(), Memory>
    ensures { OnOk result (rows.new.items ≡ rows.old.items ++ row_of signal mask) }
{
    if mask == 0 {
        return Ok(());
    }
    rows.push(Row {
        signal: SigId(signal),
        mask,
    })?;
    Ok(())
}
