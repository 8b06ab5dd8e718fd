// Nodes in groups by the node from which a search found them.

ghost use Rattle.std.specs.Prelude.{IfOk, OnOk};
ghost use Rattle.check_loops.specs.Rounds.{AreLed, IsSound, Leads, Takes};

use std::alloc::Global;
use text_ground::memory::Memory;

/// A group of nodes: the node from which they were found, and the place of that in the order.
#[derive(Clone, Copy)]
pub(crate) struct Group {
    pub(crate) rank: usize,
    pub(crate) root: u32,
}

#[derive(Drop)]
pub(crate) struct Search {
    pub(crate) groups: Vec<Option<Group>>,
    /// Nodes whose arrows are still to be followed.
    pub(crate) open: Vec<u32>,
}

/// Whether a node may be in a group, by the groups of an earlier search, if there are any.
fn may_join(within: &[Option<Group>], node: u32, group: Group) -> bool {
    match within.get(node as usize) {
        Some(Some(earlier)) => earlier.root == group.root,
        Some(None) => false,
        None => true,
    }
}

impl Search {
    /// A node joins a group, if it may and is in none.
    fn take(&mut self, node: u32, group: Group, within: &[Option<Group>]) -> Result<(), Memory>
        ensures { OnOk result (Takes node group self.old self.new) }
    {
        let place = node as usize;
        if place >= self.groups.len() {
            return Ok(());
        }
        if self.groups[place].is_some() || !may_join(within, node, group) {
            return Ok(());
        }
        self.groups[place] = Some(group);
        self.open.push(node)?;
        Ok(())
    }

    /// The nodes with arrows to one of a group join it.
    fn follow(
        &mut self,
        rows: &[Vec<u32>],
        node: u32,
        group: Group,
        within: &[Option<Group>],
    ) -> Result<(), Memory>
        requires sound { IsSound rows.now group.root self.old }
        requires leads { Leads rows.now node group.root }
        ensures { OnOk result (IsSound rows.now group.root self.new) }
    {
        let place = node as usize;
        if place >= rows.len() {
            return Ok(());
        }
        for from in &rows[place] {
            self.take(*from, group, within)?;
        }
        Ok(())
    }

    fn run(
        &mut self,
        rows: &[Vec<u32>],
        group: Group,
        within: &[Option<Group>],
    ) -> Result<(), Memory>
        requires { IsSound rows.now group.root self.old }
        ensures { OnOk result (IsSound rows.now group.root self.new) }
    {
        for _ in 0..u64::MAX {
            match self.open.pop() {
                Some(node) => self.follow(rows, node, group, within)?,
                None => return Ok(()),
            }
        }
        Ok(())
    }

    /// A node that is in no group makes one.
    fn begin(
        &mut self,
        rows: &[Vec<u32>],
        group: Group,
        within: &[Option<Group>],
    ) -> Result<(), Memory>
        requires { AreLed rows.now self.old.groups.items }
        ensures { OnOk result (AreLed rows.now self.new.groups.items) }
    {
        self.open.clear();
        self.take(group.root, group, within)?;
        self.run(rows, group, within)
    }
}

/// The groups that a search from some nodes finds, one after the other, against the arrows.
pub(crate) fn groups_of(
    alloc: Global,
    rows: &[Vec<u32>],
    order: &[u32],
    within: &[Option<Group>],
) -> Result<Vec<Option<Group>>, Memory>
    ensures { IfOk result (λ groups. AreLed rows.now groups.items) }
{
    let mut search = Search {
        groups: vec![in alloc; None; rows.len()]?,
        open: Vec::new(alloc),
    };
    for rank in 0..order.len() {
        let group = Group {
            rank,
            root: order[rank],
        };
        search.begin(rows, group, within)?;
    }
    Ok(search.groups)
}
