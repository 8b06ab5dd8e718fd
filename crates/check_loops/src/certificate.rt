// Groups that show which nodes are on a cycle.

ghost use Rattle.std.specs.Prelude.{ℕ, ◌≡◌, length, None, IfOk, IfSome};
ghost use Rattle.std.specs.Bool.{Decides};
ghost use Rattle.check_loops.specs.Rounds.{AreAgreed, AreAnswered, AreLed, AreOnCycles, IsAgreed, IsLooked, IsSame, TurnsBack};

use crate::groups::Group;
use std::alloc::Global;
use text_ground::memory::Memory;

/// The group of a node, if two searches found it from the same one.
fn agreed(one: Option<Group>, other: Option<Group>) -> Option<Group>
    ensures { IfSome result (IsAgreed one other) }
{
    match (one, other) {
        (Some(one), Some(other)) => {
            if one.root == other.root {
                return Some(one);
            }
            None
        }
        _ => None,
    }
}

fn all_agreed(
    alloc: Global,
    one: &[Option<Group>],
    other: &[Option<Group>],
) -> Result<Option<Vec<Group>>, Memory>
    ensures { IfOk result (λ all. IfSome all
        (λ groups. AreAgreed one.now other.now (length one.now) groups.items)) }
{
    let mut groups = Vec::new(alloc);
    for node in 0..one.len() {
        if node >= other.len() {
            return Ok(None);
        }
        match agreed(one[node], other[node]) {
            Some(group) => groups.push(group)?,
            None => return Ok(None),
        }
    }
    Ok(Some(groups))
}

fn is_same(one: Group, other: Group) -> bool
    ensures { Decides result (IsSame one other) }
{
    one.rank == other.rank && one.root == other.root
}

/// Whether an arrow to a node of a group comes from within, if each other one comes from a later group.
fn inside(groups: &[Group], row: &[u32], own: Group) -> Option<bool>
    ensures { IfSome result (IsLooked groups.now row.now own (length row.now)) }
{
    let mut inside = false;
    for at in 0..row.len() {
        let from = row[at] as usize;
        if from >= groups.len() {
            return None;
        }
        if is_same(groups[from], own) {
            inside = true;
        } else if groups[from].rank <= own.rank {
            return None;
        }
    }
    Some(inside)
}

fn answers(alloc: Global, rows: &[Vec<u32>], groups: &[Group]) -> Result<Option<Vec<bool>>, Memory>
    ensures { IfOk result (λ all. IfSome all
        (λ answers. AreAnswered rows.now groups.now (length rows.now) answers.items)) }
{
    let mut answers = Vec::new(alloc);
    for node in 0..rows.len() {
        if node >= groups.len() {
            return Ok(None);
        }
        match inside(groups, &rows[node], groups[node]) {
            Some(inside) => answers.push(inside)?,
            None => return Ok(None),
        }
    }
    Ok(Some(answers))
}

/// Whether each node is on a cycle, if the groups of two searches show it.
pub(crate) fn certified(
    alloc: Global,
    rows: &[Vec<u32>],
    turned: &[Vec<u32>],
    forth: &[Option<Group>],
    back: &[Option<Group>],
) -> Result<Option<Vec<bool>>, Memory>
    requires turned { TurnsBack rows.now turned.now }
    requires forth { AreLed turned.now forth.now }
    requires back { AreLed rows.now back.now }
    ensures { IfOk result (λ all. IfSome all (λ answers. AreOnCycles rows.now answers.items)) }
{
    match all_agreed(alloc, forth, back)? {
        Some(groups) => answers(alloc, rows, &groups),
        None => Ok(None),
    }
}
