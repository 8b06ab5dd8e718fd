//! Numbers in the order of their levels.

ghost use Rattle.std.specs.Prelude.{◌≡◌, ◌≢◌, ℕ, ◌<◌, ◌≤◌, ◌^◌, length, slice_index, IfOk};
ghost use Rattle.std.specs.List.{range_with_len};
ghost use Rattle.agenda.specs.Agendas.{level_at};
ghost use Rattle.agenda.specs.Rankings.{key_of, AreRanks, IsRanking};

use std::alloc::{AllocError, Global};

/// The numbers from 0 on, one for each of `levels`, in the order of level and number.
/// It fails only for want of memory.
pub(crate) fn numbers_by_level(
    alloc: Global,
    levels: &[Option<u32>],
) -> Result<Vec<u32>, AllocError>
    requires { length levels.now ≤ 2 ^ 32 }
    ensures { IfOk result (λ numbers. IsRanking levels.now numbers.items) }
{
    let mut numbers = numbers_below(alloc, levels.len())?;
    numbers.sort_by_key(
        |number|
            ensures { result ≡ key_of (level_at levels.entry.now number.now) number.now }
        { key_of(level_at(levels, *number), *number) },
    )?;
    Ok(numbers)
}

/// The rank of each number, where each rank has a number of its own.
/// It fails only for want of memory.
pub(crate) fn ranks_of(alloc: Global, numbers: &[u32]) -> Result<Vec<u32>, AllocError>
    requires fits { length numbers.now ≤ 2 ^ 32 }
    requires within { (r : ℕ) → r < length numbers.now
        → slice_index numbers.now r < length numbers.now }
    requires distinct { (i j : ℕ) → i < j → j < length numbers.now
        → slice_index numbers.now i ≢ slice_index numbers.now j }
    ensures { IfOk result (λ ranks. AreRanks numbers.now ranks.items) }
{
    let mut ranks = vec![in alloc; 0; numbers.len()]?;
    for (rank, number) in numbers.iter().enumerate() {
        ranks[*number as usize] = rank as u32;
    }
    Ok(ranks)
}

// The numbers from 0 on.
fn numbers_below(alloc: Global, end: usize) -> Result<Vec<u32>, AllocError>
    requires { end ≤ 2 ^ 32 }
    ensures { IfOk result (λ numbers. numbers.items ≡ range_with_len 0 end) }
{
    let mut numbers = Vec::with_capacity(alloc, end)?;
    for number in 0..end {
        numbers.push(number as u32)?;
    }
    Ok(numbers)
}

// The level of a number; a number past the end has none.
fn level_at(levels: &[Option<u32>], number: u32) -> Option<u32>
    ensures { result ≡ level_at levels.now number }
{
    levels.get(number as usize).copied().flatten()
}

// What numbers are sorted by: the level, where none comes last, and then the number.
fn key_of(level: Option<u32>, number: u32) -> [u32; 3]
    ensures { result ≡ key_of level number }
{
    match level {
        Some(level) => [0, level, number],
        None => [1, 0, number],
    }
}
