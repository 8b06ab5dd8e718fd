// A link whose input is at hand, and that keeps what is written to it.
ghost use Rattle.std.specs.Prelude.{◌≡◌, ◌<◌, ◌≤◌, [], Some, drop, length, take, IfOk, OnOk};
ghost use Rattle.std.specs.Io.{ReadsAtMost, WritesAtMost};
ghost use Rattle.desk_io.specs.Causes.{HasCause, Rose};
ghost use Rattle.desk_links.specs.Links.{GoesOn, IsAtEnd, moved};
ghost use Rattle.desk_links.specs.Held.{link_faults, link_talk, talk_of};

use super::Link;
use crate::door::Chain;
use desk_io::{Calls, Failed};
use std::alloc::Global;
use text_ground::memory::Memory;

// What a link has heard and said.
#[derive(Drop)]
pub(crate) struct Past {
    pub(crate) input: Vec<u8>,
    // How many bytes of the input were read.
    pub(crate) at: usize,
    pub(crate) written: Vec<u8>,
    pub(crate) faults: u64,
}

/// A link whose input is at hand, and that keeps what is written to it, with the numbers of the
/// reads and of the writes that fail, each from 1, and the most bytes that one call moves.
#[derive(Drop)]
pub struct MemoryLink {
    pub(crate) past: Past,
    pub(crate) most: usize,
    pub(crate) reads: Calls,
    pub(crate) writes: Calls,
    // Its place in the list of links that were given back.
    pub(crate) place: Box<Chain>,
}

// Copies a front, of at least a byte where both have one, and of no more than so many.
fn copy_front(from: &[u8], to: &mut [u8], most: usize) -> usize
    ensures from { result ≤ length from.now }
    ensures to { result ≤ length to.new }
    ensures length { length to.new ≡ length to.old }
    ensures copied { take result to.new ≡ take result from.now }
    ensures some { 0 < length from.now → 0 < length to.new → 0 < result }
{
    let count = from.len().min(to.len()).min(most.max(1));
    to[..count].copy_from_slice(&from[..count]);
    count
}

impl Past {
    // What is left of the input.
    fn left(&self) -> &[u8]
        ensures { result.now ≡ drop self.now.at self.now.input.items }
    {
        match self.input.get(self.at..) {
            Some(left) => left,
            None => &[],
        }
    }

    fn count_fault(&mut self)
        ensures rose { Rose self.old.faults self.new.faults }
        ensures later { self.old.faults ≤ self.new.faults }
        ensures talk { talk_of self.new ≡ talk_of self.old }
    {
        self.faults = self.faults.saturating_add(1);
    }
}

impl MemoryLink {
    ghost use Rattle.std.specs.Prelude.{◌≡◌, Some, IfOk};
    ghost use Rattle.desk_links.specs.Links.{fresh_talk};
    ghost use Rattle.desk_links.specs.Held.{link_faults, link_talk};

    /// A link with this input, of which nothing was read.
    pub fn new(alloc: Global, input: Vec<u8>) -> Result<MemoryLink, Memory>
        ensures talk { IfOk result (λ link. link_talk link ≡ fresh_talk input.items) }
        ensures faults { IfOk result (λ link. link_faults link ≡ 0) }
    {
        let place = Box::new(alloc, Chain::End)?;
        Ok(MemoryLink {
            past: Past {
                input,
                at: 0,
                written: Vec::new(alloc),
                faults: 0,
            },
            most: usize::MAX,
            reads: Calls::new(alloc),
            writes: Calls::new(alloc),
            place,
        })
    }

    /// Has each later call move at most so many bytes, and at least one.
    pub fn move_at_most(&mut self, most: usize)
        ensures talk { link_talk self.new ≡ link_talk self.old }
        ensures faults { link_faults self.new ≡ link_faults self.old }
    {
        self.most = most;
    }

    /// Has the read with this number fail.
    pub fn fail_read(&mut self, call: u64) -> Result<(), Memory>
        ensures talk { link_talk self.new ≡ link_talk self.old }
        ensures faults { link_faults self.new ≡ link_faults self.old }
    {
        Ok(self.reads.fail_at(call)?)
    }

    /// Has the write with this number fail.
    pub fn fail_write(&mut self, call: u64) -> Result<(), Memory>
        ensures talk { link_talk self.new ≡ link_talk self.old }
        ensures faults { link_faults self.new ≡ link_faults self.old }
    {
        Ok(self.writes.fail_at(call)?)
    }

    /// What was written to it.
    pub fn written(&self) -> &[u8]
        ensures { result.now ≡ (link_talk self.now).written }
    {
        &self.past.written
    }

    /// How many calls have failed.
    pub fn faults(&self) -> u64
        ensures { result ≡ link_faults self.now }
    {
        self.past.faults
    }
}

impl Link for MemoryLink {
    ghost talk = { λ link. Some (link_talk link) };

    ghost faults = { λ link. link_faults link };

    fn read(&mut self, buf: &mut [u8]) -> Result<usize, Failed>
        ensures bound { ReadsAtMost result buf.new }
        ensures told { GoesOn (Some (link_talk self.old)) (Some (link_talk self.new))
            (moved result buf.new) [] }
        ensures end { IfOk result
            (λ count. count ≡ 0 → 0 < length buf.new → IsAtEnd (Some (link_talk self.new))) }
        ensures cause { HasCause (link_faults self.old) (link_faults self.new) result }
        ensures calm { OnOk result (link_faults self.new ≡ link_faults self.old) }
    {
        if self.reads.next_fails() {
            self.past.count_fault();
            return Err(Failed);
        }
        let count = copy_front(self.past.left(), buf, self.most);
        self.past.at += count;
        Ok(count)
    }

    fn write(&mut self, bytes: &[u8]) -> Result<usize, Failed>
        ensures bound { WritesAtMost result bytes.now }
        ensures some { IfOk result (λ count. 0 < length bytes.now → 0 < count) }
        ensures told { GoesOn (Some (link_talk self.old)) (Some (link_talk self.new)) []
            (moved result bytes.now) }
        ensures cause { HasCause (link_faults self.old) (link_faults self.new) result }
        ensures calm { OnOk result (link_faults self.new ≡ link_faults self.old) }
    {
        let count = bytes.len().min(self.most.max(1));
        if self.writes.next_fails()
            || self
                .past
                .written
                .extend_from_slice(&bytes[..count])
                .is_err()
        {
            self.past.count_fault();
            return Err(Failed);
        }
        Ok(count)
    }
}
