// The arrows of the level graph: who writes bits of each signal, and who thereby feeds a process.

ghost use Rattle.std.specs.Prelude.{ℕ, ◌≡◌, ◌+◌, ◌&&◌, ◌==◌, not, ◌∷◌, [], max, length, bit_and, slice_set, slice_index_or, OnOk};
ghost use Rattle.rtl_scan.specs.Sets.{has_row, has_rows};
ghost use Rattle.rtl_scan.specs.Arrows.{bucket, comes, Grows, IsPut, IsNotedAt, Gathers, MeetsIn, FedBy};

use crate::bits::Row;
use std::alloc::Global;
use text_ground::memory::Memory;

/// A process that writes bits of a signal: those whose digits in `mask` are 1.
#[derive(Clone, Copy)]
pub(crate) struct Writer {
    pub(crate) process: u32,
    pub(crate) mask: u128,
}

/// Gives a table a row at a place.
fn grow(alloc: Global, table: &mut Vec<Vec<Writer>>, place: usize) -> Result<(), Memory>
    ensures { OnOk result ((length table.new.items ≡ max (length table.old.items) (place + 1))
        × ((s : ℕ) → bucket table.new.items s ≡ bucket table.old.items s)) }
{
    while table.len() <= place {
        table.push(Vec::new(alloc))?;
    }
    Ok(())
}

/// Puts a process into the row of a signal.
fn push_at(
    alloc: Global,
    table: &mut Vec<Vec<Writer>>,
    place: usize,
    writer: Writer,
) -> Result<(), Memory>
    ensures { OnOk result (Grows (IsPut place writer) table.old.items table.new.items) }
{
    grow(alloc, table, place)?;
    table[place].push(writer)?;
    Ok(())
}

/// Puts a process into the rows of the signals that it writes.
pub(crate) fn note_rows(
    alloc: Global,
    table: &mut Vec<Vec<Writer>>,
    rows: &[Row],
    process: u32,
) -> Result<(), Memory>
    ensures { OnOk result (Grows (IsNotedAt rows.now process) table.old.items table.new.items) }
{
    for row in rows {
        let writer = Writer {
            process,
            mask: row.mask,
        };
        push_at(alloc, table, row.signal.0 as usize, writer)?;
    }
    Ok(())
}

/// Whether a process that writes bits of a signal feeds one that waits for bits of it.
fn comes(writer: Writer, mask: u128, itself: bool, process: u32) -> bool
    ensures { result ≡ comes writer mask itself process }
{
    (writer.mask & mask) != 0 && (itself || writer.process != process)
}

/// The processes that feed one process, each once.
#[derive(Drop)]
pub(crate) struct Feeders {
    /// The process that is fed.
    pub(crate) process: u32,
    pub(crate) row: Vec<u32>,
    /// One more than the last process of which each process is known to feed it.
    pub(crate) seen: Vec<u64>,
}

impl Feeders {
    /// Whether a process is among them.
    fn has(&self, p: u32) -> bool
        ensures { result ≡ (slice_index_or self.now.seen.items p 0 == self.now.process + 1) }
    {
        match self.seen.get(p as usize) {
            Some(last) => *last == u64::from(self.process) + 1,
            None => false,
        }
    }

    /// Notes that a process is among them.
    fn see(&mut self, p: u32)
        ensures process { self.new.process ≡ self.old.process }
        ensures row { self.new.row.items ≡ self.old.row.items }
        ensures seen { self.new.seen.items
            ≡ slice_set self.old.seen.items p (self.old.process + 1) }
    {
        if (p as usize) < self.seen.len() {
            self.seen[p as usize] = u64::from(self.process) + 1;
        }
    }

    fn add(&mut self, p: u32) -> Result<(), Memory>
        ensures { OnOk result (Gathers (λ x. x ≡ p) self.old self.new) }
    {
        if self.has(p) {
            return Ok(());
        }
        self.see(p);
        self.row.push(p)?;
        Ok(())
    }

    fn add_one(&mut self, writer: Writer, mask: u128, itself: bool) -> Result<(), Memory>
        ensures { OnOk result (Gathers (MeetsIn (writer ∷ []) mask itself self.old.process) self.old
            self.new) }
    {
        if !comes(writer, mask, itself, self.process) {
            return Ok(());
        }
        self.add(writer.process)
    }

    /// Adds those of some processes that write bits of a mask.
    fn add_all(&mut self, writers: &[Writer], mask: u128, itself: bool) -> Result<(), Memory>
        ensures { OnOk result (Gathers (MeetsIn writers.now mask itself self.old.process) self.old
            self.new) }
    {
        for writer in writers {
            self.add_one(*writer, mask, itself)?;
        }
        Ok(())
    }

    /// Adds the processes that write bits of a row.
    fn add_row(&mut self, table: &[Vec<Writer>], row: &Row, itself: bool) -> Result<(), Memory>
        ensures { OnOk result (Gathers (FedBy table.now (has_row row.now) itself self.old.process)
            self.old self.new) }
    {
        let place = row.signal.0 as usize;
        if place >= table.len() {
            return Ok(());
        }
        self.add_all(&table[place], row.mask, itself)
    }

    /// Adds the processes that write bits of rows, or itself where that counts.
    pub(crate) fn add_rows(
        &mut self,
        table: &[Vec<Writer>],
        rows: &[Row],
        itself: bool,
    ) -> Result<(), Memory>
        ensures { OnOk result (Gathers
            (FedBy table.now (has_rows rows.now) itself self.old.process) self.old self.new) }
    {
        for row in rows {
            self.add_row(table, row, itself)?;
        }
        Ok(())
    }
}
