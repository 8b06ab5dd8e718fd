//! Who feeds whom, and the levels of processes.

ghost use Rattle.std.specs.Prelude.{ℕ, ◌≡◌, ◌<◌, ◌≤◌, map, length, None, Some, IfOk, OnOk};
ghost use Rattle.std.specs.Prelude.{slice_index_or};
ghost use Rattle.std.specs.List.{slice_get};
ghost use Rattle.rtl_flat.specs.Flats.{flat, widths};
ghost use Rattle.rtl_flat.specs.Process.{Task, task, doing};
ghost use Rattle.rtl_flat.specs.Levels.{IsLevel};
ghost use Rattle.rtl_scan.specs.Arrows as spec;

use crate::accesses::Accesses;
use crate::arrows::{Feeders, Writer, note_rows};
use crate::bits::Bits;
use crate::graph::depths;
use rtl_flat::act::{Does, Process};
use rtl_flat::design::Design;
use std::alloc::Global;
use text_ground::memory::Memory;

/// For which bits a process waits.
#[derive(Clone, Copy)]
pub enum Waits {
    /// Those that it externally reads.
    Reads,
    /// Those too that it lists, where another process writes them.
    ReadsAndLists,
}

/// The processes of a design, and the bits that each of them accesses.
#[derive(Clone, Copy)]
pub struct Accessed<'a> {
    pub design: &'a Design,
    /// The bits that each process may write.
    pub writes: &'a [Bits],
    /// The bits that each process externally reads.
    pub reads: &'a [Bits],
    /// The bits that each process lists.
    pub lists: &'a [Bits],
}

/// Whether a process has a place in the graph: one with an edge has none.
pub fn is_node(does: &Does) -> bool
    ensures { result ≡ spec.is_node (doing does.now) }
{
    match does {
        Does::Assign {
            target: _,
            value: _,
        } => true,
        Does::Comb { list: _, body: _ } => true,
        Does::Edge { events: _, body: _ } => false,
    }
}

impl<'a> Accessed<'a> {
    /// Puts a process without an edge into the rows of the signals that it writes.
    fn note_writes(
        &self,
        alloc: Global,
        number: u32,
        table: &mut Vec<Vec<Writer>>,
    ) -> Result<(), Memory>
        requires accessed { spec.AreAccessed self.now }
        requires inside { number < length self.now.design.now.processes.items }
        ensures { let d = flat self.now.design.now in
            OnOk result ((one : Task) → slice_get d.tasks number ≡ Some one →
            spec.Grows (spec.IsNoted (widths d) one number) table.old.items table.new.items) }
    {
        if !is_node(&self.design.processes[number as usize].does) {
            return Ok(());
        }
        let written = &self.writes[number as usize];
        note_rows(alloc, table, &written.rows, number)
    }

    /// The processes that write bits of each signal.
    fn writers(&self, alloc: Global) -> Result<Vec<Vec<Writer>>, Memory>
        requires { spec.AreAccessed self.now }
        ensures { let d = flat self.now.design.now in
            IfOk result (λ table. spec.AreWriters (widths d) d.tasks (length d.tasks) table.items) }
    {
        let mut table = Vec::new(alloc);
        for number in 0..self.design.processes.len() {
            self.note_writes(alloc, number as u32, &mut table)?;
        }
        Ok(table)
    }

    /// Adds the processes that feed one by a bit that it reads, and where lists count, those others that do by one that it
    /// lists.
    fn note_feeds(
        &self,
        waits: Waits,
        table: &[Vec<Writer>],
        found: &mut Feeders,
    ) -> Result<(), Memory>
        requires accessed { spec.AreAccessed self.now }
        requires inside { found.old.process < length self.now.design.now.processes.items }
        ensures { let d = flat self.now.design.now in
            OnOk result ((one : Task) → slice_get d.tasks found.old.process ≡ Some one →
            spec.Gathers (λ p. spec.IsFed waits (widths d) table.now p found.old.process one)
            found.old found.new) }
    {
        let number = found.process as usize;
        if !is_node(&self.design.processes[number].does) {
            return Ok(());
        }
        let read = &self.reads[number];
        let listed = &self.lists[number];
        found.add_rows(table, &read.rows, true)?;
        match waits {
            Waits::Reads => Ok(()),
            Waits::ReadsAndLists => found.add_rows(table, &listed.rows, false),
        }
    }

    /// The processes that feed one.
    fn feeders(
        &self,
        alloc: Global,
        waits: Waits,
        number: u32,
        table: &[Vec<Writer>],
        seen: Vec<u64>,
    ) -> Result<Feeders, Memory>
        requires accessed { spec.AreAccessed self.now }
        requires inside { number < length self.now.design.now.processes.items }
        ensures { let d = flat self.now.design.now in
            IfOk result (λ found. (one : Task) → slice_get d.tasks number ≡ Some one →
            spec.AreFeeders waits (widths d) table.now one number seen.items found) }
    {
        let mut found = Feeders {
            process: number,
            row: Vec::new(alloc),
            seen,
        };
        self.note_feeds(waits, table, &mut found)?;
        Ok(found)
    }

    /// The processes that feed each process.
    fn feeds(
        &self,
        alloc: Global,
        waits: Waits,
        table: &[Vec<Writer>],
    ) -> Result<Vec<Vec<u32>>, Memory>
        requires { spec.AreAccessed self.now }
        ensures { let d = flat self.now.design.now in IfOk result (λ rows.
            spec.AreFed waits (widths d) d.tasks table.now (length d.tasks) rows.items) }
    {
        let mut rows = Vec::new(alloc);
        let mut seen = vec![in alloc; 0u64; self.design.processes.len()]?;
        for number in 0..self.design.processes.len() {
            let found = self.feeders(alloc, waits, number as u32, table, seen)?;
            rows.push(found.row)?;
            seen = found.seen;
        }
        Ok(rows)
    }

    /// The graph: a row has the processes that feed its process, each once. Fails where memory runs out.
    pub fn arrows(&self, alloc: Global, waits: Waits) -> Result<Vec<Vec<u32>>, Memory>
        requires { spec.AreAccessed self.now }
        ensures { let d = flat self.now.design.now in
            IfOk result (λ rows. spec.AreArrows waits d.signals d.tasks rows.items) }
    {
        let table = self.writers(alloc)?;
        self.feeds(alloc, waits, &table)
    }
}

/// The graph of a design, from one scan of each process. Fails where memory runs out.
pub fn arrows(alloc: Global, design: &Design, waits: Waits) -> Result<Vec<Vec<u32>>, Memory>
    ensures { let d = flat design.now in
        IfOk result (λ rows. spec.AreArrows waits d.signals d.tasks rows.items) }
{
    let found = Accesses::of(alloc, design)?;
    let accessed = Accessed {
        design,
        writes: &found.writes,
        reads: &found.reads,
        lists: &found.lists,
    };
    accessed.arrows(alloc, waits)
}

/// The level of a process, from its depth.
fn level_of(does: &Does, depth: Option<u32>) -> Option<u32>
    ensures { result ≡ spec.level_of (spec.is_node (doing does.now)) depth }
{
    if is_node(does) { depth } else { None }
}

fn keep_nodes(
    alloc: Global,
    processes: &[Process],
    depths: &[Option<u32>],
) -> Result<Vec<Option<u32>>, Memory>
    requires { length depths.now ≡ length processes.now }
    ensures { IfOk result (λ levels.
        spec.AreKept processes.now depths.now (length processes.now) levels.items) }
{
    let mut levels = Vec::new(alloc);
    for number in 0..processes.len() {
        levels.push(level_of(&processes[number].does, depths[number]))?;
    }
    Ok(levels)
}

/// The level of each process.
fn levels_of(alloc: Global, design: &Design) -> Result<Vec<Option<u32>>, Memory>
    ensures { let d = flat design.now in
        IfOk result (λ levels. spec.AreLevels d.signals d.tasks levels.items) }
{
    let rows = arrows(alloc, design, Waits::ReadsAndLists)?;
    let depths = depths(alloc, &rows)?;
    keep_nodes(alloc, &design.processes, &depths)
}

/// The level of each process: the greatest number of processes without an edge that feed one
/// another before it. A process with an edge has none, nor has one on or behind a cycle.
pub fn levels(alloc: Global, d: &Design) -> Result<Vec<Option<u32>>, Memory>
    ensures length { IfOk result (λ levels. length levels.items ≡ length d.now.processes.items) }
    ensures each { IfOk result (λ levels. (p : ℕ) → p < length d.now.processes.items
        → IsLevel d.now.signals.items (map task d.now.processes.items) p
        (slice_index_or levels.items p None)) }
{
    levels_of(alloc, d)
}
