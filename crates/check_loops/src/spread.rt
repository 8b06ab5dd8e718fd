// A search from each node by itself.

ghost use Rattle.std.specs.Prelude.{◌≡◌, ◌<◌, ◌^◌, length, false, IfOk};
ghost use Rattle.std.specs.Prelude.{slice_index_or};
ghost use Rattle.check_found.specs.rtl_scan.Graph.{AreRows};
ghost use Rattle.check_loops.specs.Rounds.{AreOnCycles, AreReached, AreSpread, Marks, is_fed};

use std::alloc::Global;
use text_ground::memory::Memory;

/// Whether an arrow to a node comes from a start or from a node that is marked.
fn is_fed(marks: &[bool], row: &[u32], start: u32) -> bool
    ensures { result ≡ is_fed start marks.now row.now }
{
    for from in row {
        if *from == start || is_marked(marks, *from) {
            return true;
        }
    }
    false
}

fn is_marked(marks: &[bool], node: u32) -> bool
    ensures { result ≡ slice_index_or marks.now node false }
{
    match marks.get(node as usize) {
        Some(mark) => *mark,
        None => false,
    }
}

/// Marks a node if it is fed and wasn't marked, and tells whether it did.
fn mark(marks: &mut Vec<bool>, node: usize, fed: bool) -> bool
    requires { node < length marks.old.items }
    ensures { Marks fed node marks.old.items marks.new.items result }
{
    if !fed || marks[node] {
        return false;
    }
    marks[node] = true;
    true
}

/// Marks nodes that are fed, and tells whether there were any.
fn spread(rows: &[Vec<u32>], start: u32, marks: &mut Vec<bool>) -> bool
    requires { length marks.old.items ≡ length rows.now }
    ensures { AreSpread rows.now start marks.old.items marks.new.items result }
{
    let mut grown = false;
    for node in 0..rows.len() {
        let fed = is_fed(marks, &rows[node], start);
        let marked = mark(marks, node, fed);
        grown = grown || marked;
    }
    grown
}

/// The nodes to which one or more arrows lead from a start.
fn reached(alloc: Global, rows: &[Vec<u32>], start: u32) -> Result<Vec<bool>, Memory>
    ensures { IfOk result (λ marks. AreReached rows.now start marks.items) }
{
    let mut marks = vec![in alloc; false; rows.len()]?;
    while spread(rows, start, &mut marks) {}
    Ok(marks)
}

/// Whether each node is on a cycle.
pub(crate) fn searched(alloc: Global, rows: &[Vec<u32>]) -> Result<Vec<bool>, Memory>
    requires { AreRows rows.now }
    ensures { IfOk result (λ answers. AreOnCycles rows.now answers.items) }
{
    let mut answers = Vec::new(alloc);
    for node in 0..rows.len() {
        let marks = reached(alloc, rows, node as u32)?;
        answers.push(is_marked(&marks, node as u32))?;
    }
    Ok(answers)
}
