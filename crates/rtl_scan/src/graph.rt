// How far the nodes of a graph are from those without arrows into them.

ghost use Rattle.std.specs.Prelude.{ℕ, ◌≡◌, ◌<◌, ◌≤◌, ◌+◌, ◌-◌, ◌^◌, ◌++◌, [], ◌∷◌, length, take, max, map, slice_set, slice_index_or, None, IfOk, OnOk};
ghost use Rattle.rtl_flat.specs.Levels.{IsLevelIn};
ghost use Rattle.rtl_scan.specs.Graph.{at, row, fresh, answer, ArrowIn, AreRows, IsSearching, IsStep, IsVisit, IsVisited, HasSearched, AreDepths, answer_of};

use std::alloc::Global;
use text_ground::memory::Memory;

/// How far a node is searched.
#[derive(Clone, Copy)]
pub(crate) enum Mark {
    New,
    /// It is on the stack.
    Open,
    /// Its depth is known.
    Done,
    /// It is on a cycle or behind one.
    Cyclic,
}

/// A node of a search.
#[derive(Clone, Copy)]
pub(crate) struct Vertex {
    pub(crate) mark: Mark,
    /// How many of the arrows into it are still to be followed.
    pub(crate) left: usize,
    /// The greatest number of arrows in a chain to it over those that were.
    pub(crate) depth: u32,
}

impl Vertex {
    fn answer(&self) -> Option<u32>
        ensures { result ≡ answer_of self.now }
    {
        match self.mark {
            Mark::New => None,
            Mark::Open => None,
            Mark::Done => Some(self.depth),
            Mark::Cyclic => None,
        }
    }
}

/// A search against the arrows, depth first. A row has the nodes from which arrows come to its node.
#[derive(Drop)]
pub(crate) struct Search {
    pub(crate) nodes: Vec<Vertex>,
    /// Each node on it has an arrow to the one below.
    pub(crate) stack: Vec<u32>,
    pub(crate) finished: u32,
}

impl Search {
    fn new(alloc: Global, rows: &[Vec<u32>]) -> Result<Search, Memory>
        ensures { IfOk result (λ search. (search.nodes.items ≡ fresh rows.now)
            × (search.stack.items ≡ []) × (search.finished ≡ 0)) }
    {
        let mut nodes = Vec::new(alloc);
        for row in rows {
            nodes.push(Vertex {
                mark: Mark::New,
                left: row.len(),
                depth: 0,
            })?;
        }
        Ok(Search {
            nodes,
            stack: Vec::new(alloc),
            finished: 0,
        })
    }

    /// The top of the stack leaves it with an answer.
    #[tactic(auto, using(crate::proofs::Advances::at_get))]
    fn leave(&mut self, top: u32, mark: Mark)
        requires { top < length self.old.nodes.items }
        ensures nodes { self.new.nodes.items
            ≡ slice_set self.old.nodes.items top
            (record {
              mark = mark;
              left = (at self.old.nodes.items top).left;
              depth = (at self.old.nodes.items top).depth;
            }) }
        ensures stack { self.new.stack.items
            ≡ take (length self.old.stack.items - 1) self.old.stack.items }
        ensures finished { self.new.finished ≡ self.old.finished }
    {
        let node = self.nodes[top as usize];
        self.nodes[top as usize] = Vertex {
            mark,
            left: node.left,
            depth: node.depth,
        };
        let _ = self.stack.pop();
    }

    /// All arrows to the top of the stack are followed.
    fn finish(&mut self, top: u32)
        requires inside { top < length self.old.nodes.items }
        requires fits { self.old.finished + 1 < 2 ^ 32 }
        ensures nodes { self.new.nodes.items
            ≡ slice_set self.old.nodes.items top
            (record {
              mark = Mark.Done;
              left = (at self.old.nodes.items top).left;
              depth = (at self.old.nodes.items top).depth;
            }) }
        ensures stack { self.new.stack.items
            ≡ take (length self.old.stack.items - 1) self.old.stack.items }
        ensures finished { self.new.finished ≡ self.old.finished + 1 }
    {
        self.leave(top, Mark::Done);
        self.finished += 1;
    }

    /// An arrow to the top comes from a node of a depth.
    #[tactic(auto, using(crate::proofs::Advances::at_get))]
    fn follow(&mut self, top: u32, depth: u32)
        requires inside { top < length self.old.nodes.items }
        requires some { 1 ≤ (at self.old.nodes.items top).left }
        requires fits { depth + 1 < 2 ^ 32 }
        ensures nodes { self.new.nodes.items
            ≡ slice_set self.old.nodes.items top
            (record {
              mark = Mark.Open;
              left = (at self.old.nodes.items top).left - 1;
              depth = max
                  (at self.old.nodes.items top).depth (depth + 1);
            }) }
        ensures stack { self.new.stack.items ≡ self.old.stack.items }
        ensures finished { self.new.finished ≡ self.old.finished }
    {
        let node = self.nodes[top as usize];
        self.nodes[top as usize] = Vertex {
            mark: Mark::Open,
            left: node.left - 1,
            depth: node.depth.max(depth + 1),
        };
    }

    /// A new node goes on the stack.
    #[tactic(auto, using(crate::proofs::Advances::at_get))]
    fn enter(&mut self, p: u32) -> Result<(), Memory>
        requires { p < length self.old.nodes.items }
        ensures { OnOk result ((self.new.nodes.items
            ≡ slice_set self.old.nodes.items p
            (record {
              mark = Mark.Open;
              left = (at self.old.nodes.items p).left;
              depth = (at self.old.nodes.items p).depth;
            }))
            × (self.new.stack.items ≡ self.old.stack.items ++ p ∷ [])
            × (self.new.finished ≡ self.old.finished)) }
    {
        let node = self.nodes[p as usize];
        self.nodes[p as usize] = Vertex {
            mark: Mark::Open,
            left: node.left,
            depth: node.depth,
        };
        self.stack.push(p)?;
        Ok(())
    }

    /// The top of the stack follows one arrow back, or leaves the stack.
    fn step(&mut self, rows: &[Vec<u32>]) -> Result<(), Memory>
        requires rows { AreRows rows.now }
        requires some { 1 ≤ length self.old.stack.items }
        requires search { IsSearching rows.now self.old }
        ensures { OnOk result (IsStep rows.now self.old self.new) }
    {
        let top = self.stack[self.stack.len() - 1];
        let left = self.nodes[top as usize].left;
        if left == 0 {
            self.finish(top);
            return Ok(());
        }
        self.follow_back(rows, top, rows[top as usize][left - 1])
    }

    /// An arrow comes to the top of the stack from a node.
    fn follow_back(&mut self, rows: &[Vec<u32>], top: u32, p: u32) -> Result<(), Memory>
        requires rows { AreRows rows.now }
        requires some { 1 ≤ length self.old.stack.items }
        requires search { IsSearching rows.now self.old }
        requires top { top ≡ slice_index_or self.old.stack.items (length self.old.stack.items - 1)
            0 }
        requires left { 1 ≤ (at self.old.nodes.items top).left }
        requires p { p ≡ slice_index_or (row rows.now top) ((at self.old.nodes.items top).left - 1)
            0 }
        ensures { OnOk result (IsStep rows.now self.old self.new) }
    {
        let node = self.nodes[p as usize];
        match node.mark {
            Mark::New => self.enter(p),
            Mark::Done => {
                self.follow(top, node.depth);
                Ok(())
            }
            Mark::Open => {
                self.leave(top, Mark::Cyclic);
                Ok(())
            }
            Mark::Cyclic => {
                self.leave(top, Mark::Cyclic);
                Ok(())
            }
        }
    }

    /// Steps until the stack is empty.
    fn run(&mut self, rows: &[Vec<u32>]) -> Result<(), Memory>
        requires rows { AreRows rows.now }
        requires search { IsSearching rows.now self.old }
        ensures { OnOk result (IsVisit rows.now self.old self.new) }
    {
        while !self.stack.is_empty() {
            self.step(rows)?;
        }
        Ok(())
    }

    /// A new node gets its answer.
    fn begin(&mut self, rows: &[Vec<u32>], start: u32) -> Result<(), Memory>
        requires rows { AreRows rows.now }
        requires inside { start < length rows.now }
        requires search { IsSearching rows.now self.old }
        requires empty { self.old.stack.items ≡ [] }
        requires fresh { (at self.old.nodes.items start).mark ≡ Mark.New }
        ensures { OnOk result (IsVisited rows.now start self.old self.new) }
    {
        self.enter(start)?;
        self.run(rows)
    }

    /// A node gets its answer, if it has none.
    fn visit(&mut self, rows: &[Vec<u32>], start: u32) -> Result<(), Memory>
        requires rows { AreRows rows.now }
        requires inside { start < length rows.now }
        requires search { IsSearching rows.now self.old }
        requires empty { self.old.stack.items ≡ [] }
        ensures { OnOk result (IsVisited rows.now start self.old self.new) }
    {
        let node = self.nodes[start as usize];
        match node.mark {
            Mark::New => self.begin(rows, start),
            Mark::Open => Ok(()),
            Mark::Done => Ok(()),
            Mark::Cyclic => Ok(()),
        }
    }

    /// A search that is at its end.
    fn all(alloc: Global, rows: &[Vec<u32>]) -> Result<Search, Memory>
        requires { AreRows rows.now }
        ensures { IfOk result (λ search. HasSearched rows.now (length rows.now) search) }
    {
        let mut search = Search::new(alloc, rows)?;
        for start in 0..rows.len() {
            search.visit(rows, start as u32)?;
        }
        Ok(search)
    }

    fn answers(&self, alloc: Global) -> Result<Vec<Option<u32>>, Memory>
        ensures { IfOk result (λ answers. answers.items ≡ map answer_of self.now.nodes.items) }
    {
        let mut answers = Vec::new(alloc);
        for node in &self.nodes {
            answers.push(node.answer())?;
        }
        Ok(answers)
    }
}

/// The greatest number of arrows in a chain to each node, and none for a node on or behind a cycle.
/// A row has the nodes from which arrows come to its node.
pub fn depths(alloc: Global, rows: &[Vec<u32>]) -> Result<Vec<Option<u32>>, Memory>
    requires { AreRows rows.now }
    ensures { IfOk result (λ answers. AreDepths rows.now answers.items) }
{
    let search = Search::all(alloc, rows)?;
    search.answers(alloc)
}
