// Links between numbers, and what they lead to.

ghost use Rattle.std.specs.Prelude.{ℕ, ◌≡◌, ◌<◌, ◌↔◌, ◌∷◌, [], length, IfOk, OnOk};
ghost use Rattle.check_chains.specs.rtl_scan.Arrows.{Among};
ghost use Rattle.check_chains.specs.rtl_scan.Graph.{row};
ghost use Rattle.check_gates.specs.Reach.{Finds, HasLink, Reaches};

use std::alloc::Global;
use text_ground::memory::Memory;

/// A signal that goes on to another.
#[derive(Clone, Copy)]
pub struct Link {
    pub source: u32,
    pub target: u32,
}

/// The numbers found so far, each once and marked.
#[derive(Drop)]
pub struct Reach {
    seen: Vec<bool>,
    found: Vec<u32>,
}

impl Reach {
    fn add(&mut self, node: u32) -> Result<(), Memory>
        ensures { OnOk result (Finds (node ∷ []) self.old self.new) }
    {
        let place = node as usize;
        if place >= self.seen.len() || self.seen[place] {
            return Ok(());
        }
        self.seen[place] = true;
        self.found.push(node)?;
        Ok(())
    }

    fn add_all(&mut self, nodes: &[u32]) -> Result<(), Memory>
        ensures { OnOk result (Finds nodes.now self.old self.new) }
    {
        for node in nodes {
            self.add(*node)?;
        }
        Ok(())
    }
}

/// What is reached from a number, itself among it, each once.
pub fn reached(alloc: Global, rows: &[Vec<u32>], start: u32) -> Result<Vec<u32>, Memory>
    requires { start < length rows.now }
    ensures { IfOk result (λ found. (k : ℕ) → Among found.items k ↔ Reaches rows.now start k) }
{
    let mut reach = Reach {
        seen: vec![in alloc; false; rows.len()]?,
        found: Vec::new(alloc),
    };
    reach.add(start)?;
    let mut next = 0;
    while next < reach.found.len() {
        let node = reach.found[next];
        reach.add_all(&rows[node as usize])?;
        next += 1;
    }
    Ok(reach.found)
}
