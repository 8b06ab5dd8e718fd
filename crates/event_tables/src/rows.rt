//! Tables with a row for each signal.

ghost use Rattle.std.specs.Prelude.{ℕ, ◌≡◌, [], length, IfOk};
ghost use Rattle.event_write.specs.QueueState.{row};

use std::alloc::Global;
use text_ground::memory::Memory;

/// So many rows with nothing in them.
pub(crate) fn empty_rows<T: Drop>(alloc: Global, count: usize) -> Result<Vec<Vec<T>>, Memory>
    ensures length { IfOk result (λ rows. length rows.items ≡ count) }
    ensures empty { IfOk result (λ rows. (i : ℕ) → row rows.items i ≡ []) }
{
    let mut rows = Vec::new(alloc);
    for _ in 0..count {
        rows.push(Vec::new(alloc))?;
    }
    Ok(rows)
}
