// The order in which a search by depth leaves the nodes.

ghost use Rattle.std.specs.Prelude.{◌<◌, ◌^◌, length};

use std::alloc::Global;
use text_ground::memory::Memory;

/// A node on the way of a search, with the place of the next arrow to it.
#[derive(Clone, Copy)]
struct Visit {
    node: u32,
    next: usize,
}

#[derive(Drop)]
struct Search {
    seen: Vec<bool>,
    way: Vec<Visit>,
    left: Vec<u32>,
}

impl Search {
    /// A node that wasn't seen is entered.
    fn enter(&mut self, node: u32) -> Result<(), Memory> {
        let place = node as usize;
        if place >= self.seen.len() || self.seen[place] {
            return Ok(());
        }
        self.seen[place] = true;
        self.way.push(Visit { node, next: 0 })?;
        Ok(())
    }

    /// The last node on the way follows its next arrow, or is left.
    fn step(&mut self, rows: &[Vec<u32>], visit: Visit) -> Result<(), Memory> {
        let place = visit.node as usize;
        if place >= rows.len() || visit.next >= rows[place].len() {
            self.left.push(visit.node)?;
            return Ok(());
        }
        let node = rows[place][visit.next];
        self.way.push(Visit {
            node: visit.node,
            next: visit.next + 1,
        })?;
        self.enter(node)
    }

    fn run(&mut self, rows: &[Vec<u32>]) -> Result<(), Memory> {
        for _ in 0..u64::MAX {
            match self.way.pop() {
                Some(visit) => self.step(rows, visit)?,
                None => return Ok(()),
            }
        }
        Ok(())
    }
}

/// The nodes in the order in which a search against the arrows leaves them, the last one first.
pub(crate) fn finishing_order(alloc: Global, rows: &[Vec<u32>]) -> Result<Vec<u32>, Memory>
    requires { length rows.now < 2 ^ 32 }
{
    let mut search = Search {
        seen: vec![in alloc; false; rows.len()]?,
        way: Vec::new(alloc),
        left: Vec::new(alloc),
    };
    for start in 0..rows.len() {
        search.enter(start as u32)?;
        search.run(rows)?;
    }
    search.left.reverse();
    Ok(search.left)
}
