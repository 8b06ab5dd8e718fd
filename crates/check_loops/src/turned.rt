// The arrows of a graph in the other direction.

ghost use Rattle.std.specs.Prelude.{ℕ, ◌≡◌, ◌<◌, ◌^◌, [], length, IfOk, OnOk};
ghost use Rattle.check_found.specs.rtl_scan.Graph.{row};
ghost use Rattle.check_loops.specs.Rounds.{Puts, PutsAll, TurnsBack};

use std::alloc::Global;
use text_ground::memory::Memory;

/// An arrow more comes to a node.
fn put(table: &mut Vec<Vec<u32>>, node: u32, from: u32) -> Result<(), Memory>
    ensures { OnOk result (Puts node from table.old.items table.new.items) }
{
    let place = node as usize;
    if place >= table.len() {
        return Ok(());
    }
    table[place].push(from)?;
    Ok(())
}

/// An arrow from a node comes to each of some nodes.
fn put_all(table: &mut Vec<Vec<u32>>, nodes: &[u32], from: u32) -> Result<(), Memory>
    ensures { OnOk result (PutsAll nodes.now (length nodes.now) from table.old.items
        table.new.items) }
{
    for node in nodes {
        put(table, *node, from)?;
    }
    Ok(())
}

fn empty_rows(alloc: Global, size: usize) -> Result<Vec<Vec<u32>>, Memory>
    ensures { IfOk result (λ table. (q : ℕ) → row table.items q ≡ []) }
{
    let mut table = Vec::new(alloc);
    for _ in 0..size {
        table.push(Vec::new(alloc))?;
    }
    Ok(table)
}

/// Rows of the nodes to which arrows go.
pub(crate) fn turned(alloc: Global, rows: &[Vec<u32>]) -> Result<Vec<Vec<u32>>, Memory>
    requires { length rows.now < 2 ^ 32 }
    ensures { IfOk result (λ table. TurnsBack rows.now table.items) }
{
    let mut table = empty_rows(alloc, rows.len())?;
    for from in 0..rows.len() {
        put_all(&mut table, &rows[from], from as u32)?;
    }
    Ok(table)
}
