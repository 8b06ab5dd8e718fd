//! How many processes items have, and where they stand.

ghost use Rattle.std.specs.Prelude.{◌≡◌, ◌-◌, ◌^◌, length, map, min};
ghost use Rattle.std.specs.List.{slice_get};
ghost use Rattle.rtl_tree.specs.TreeItem.{drive, gate_drive, module_item, net};
ghost use Rattle.elab_parts.specs.Gates.{assignments_of};
ghost use Rattle.elab_parts.specs.Items.{drive_places, item_places, net_places};

use rtl_tree::tree::item::{Assignment, GateDrive, Item, Wire};

fn nets(wires: &[Wire]) -> usize
    ensures { result ≡ length (net_places (map net wires.now)) }
{
    let mut count = 0;
    for wire in wires {
        if wire.value.is_some() {
            count += 1;
        }
    }
    count
}

/// How many outputs gates have, but no more than a number can say.
fn outputs(drives: &[GateDrive]) -> usize
    ensures { result
        ≡ min (length (drive_places (assignments_of (map gate_drive drives.now)))) (2 ^ 64 - 1) }
{
    let mut count = 0usize;
    for drive in drives {
        count = count.saturating_add(drive.outputs.len());
    }
    count
}

/// How many processes the item has, but no more than a number can say.
pub fn count_of(item: &Item) -> usize
    ensures { result ≡ min (length (item_places (module_item item.now))) (2 ^ 64 - 1) }
{
    match item {
        Item::Wires { wires, .. } => nets(wires),
        Item::Assigns(_, _, assignments) => assignments.len(),
        Item::Gates { drives, .. } => outputs(drives),
        Item::Always(_, _, _) => 1,
        Item::Ports(_, _)
        | Item::Regs { .. }
        | Item::Integers(_, _)
        | Item::Parameters { .. }
        | Item::Instances { .. } => 0,
    }
}

fn net_at(wires: &[Wire], number: usize) -> Option<u32>
    ensures { result ≡ slice_get (net_places (map net wires.now)) number }
{
    let mut left = number;
    for wire in wires {
        if wire.value.is_some() {
            if left == 0 {
                return Some(wire.name.at);
            }
            left -= 1;
        }
    }
    None
}

fn drive_at(assignments: &[Assignment], number: usize) -> Option<u32>
    ensures { result ≡ slice_get (drive_places (map drive assignments.now)) number }
{
    let assignment = assignments.get(number)?;
    Some(assignment.target.place())
}

fn output_at(drives: &[GateDrive], number: usize) -> Option<u32>
    ensures { result
        ≡ slice_get (drive_places (assignments_of (map gate_drive drives.now))) number }
{
    let mut left = number;
    for drive in drives {
        if let Some(output) = drive.outputs.get(left) {
            return Some(output.place());
        }
        left -= drive.outputs.len();
    }
    None
}

/// The place of a process of the item, by its number in the item from 0.
pub fn place_at(item: &Item, number: usize) -> Option<u32>
    ensures { result ≡ slice_get (item_places (module_item item.now)) number }
{
    match item {
        Item::Wires { wires, .. } => net_at(wires, number),
        Item::Assigns(_, _, assignments) => drive_at(assignments, number),
        Item::Gates { drives, .. } => output_at(drives, number),
        Item::Always(at, _, _) if number == 0 => Some(*at),
        Item::Always(_, _, _)
        | Item::Ports(_, _)
        | Item::Regs { .. }
        | Item::Integers(_, _)
        | Item::Parameters { .. }
        | Item::Instances { .. } => None,
    }
}
