// A door that clients of a list come through.
ghost use Rattle.std.specs.Prelude.{◌≡◌, Some, IfOk, OnErr, OnOk};
ghost use Rattle.desk_io.specs.Causes.{HasCause};
ghost use Rattle.desk_links.specs.Doors.{GivesLink, IsSameVisits, Opens, TakesLink, Tells, with_given};
ghost use Rattle.desk_links.specs.Links.{fresh_talk};
ghost use Rattle.desk_links.specs.Held.{door_faults, door_visits, link_faults, link_talk};

use super::Door;
use crate::link::{MemoryLink, Past};
use desk_io::{Calls, Failed};
use std::alloc::Global;
use std::collections::VecDeque;
use std::mem;
use text_ground::memory::Memory;

// The links that were given back, the last of them first. Each brings the place of the next with it,
// so taking one back takes no memory.
#[derive(Drop)]
pub(crate) enum Chain {
    End,
    More(Past, Box<Chain>),
}

/// A door that clients of a list come through, with the numbers of the calls of `listen` and `next`
/// that fail, from 1. Where no client is left, `next` fails.
#[derive(Drop)]
pub struct MemoryDoor {
    alloc: Global,
    waiting: VecDeque<MemoryLink>,
    ports: Vec<u16>,
    given: Vec<Vec<u8>>,
    ended: Chain,
    calls: Calls,
    faults: u64,
}

impl MemoryDoor {
    ghost use Rattle.std.specs.Prelude.{◌≡◌, ◌≤◌, OnErr, OnOk};
    ghost use Rattle.desk_io.specs.Causes.{Rose};
    ghost use Rattle.desk_links.specs.Doors.{no_visits, with_given};
    ghost use Rattle.desk_links.specs.Held.{door_faults, door_visits};

    /// A door that no client waits at.
    pub fn new(alloc: Global) -> MemoryDoor
        ensures visits { door_visits result ≡ no_visits }
        ensures faults { door_faults result ≡ 0 }
    {
        MemoryDoor {
            alloc,
            waiting: VecDeque::new(alloc),
            ports: Vec::new(alloc),
            given: Vec::new(alloc),
            ended: Chain::End,
            calls: Calls::new(alloc),
            faults: 0,
        }
    }

    /// Has one client more wait, behind all others.
    pub fn add(&mut self, link: MemoryLink) -> Result<(), Memory>
        ensures visits { door_visits self.new ≡ door_visits self.old }
        ensures faults { door_faults self.new ≡ door_faults self.old }
    {
        match self.waiting.push_back(link) {
            Ok(()) => Ok(()),
            Err(_) => Err(Memory),
        }
    }

    /// Has the call of `listen` or `next` with this number fail.
    pub fn fail_at(&mut self, call: u64) -> Result<(), Memory>
        ensures visits { door_visits self.new ≡ door_visits self.old }
        ensures faults { door_faults self.new ≡ door_faults self.old }
    {
        Ok(self.calls.fail_at(call)?)
    }

    /// The ports at which it was opened, in their order.
    pub fn ports(&self) -> &[u16]
        ensures { result.now ≡ (door_visits self.now).ports }
    {
        &self.ports
    }

    /// What was written to the link that was given back as the last but so many; None where there
    /// are no more.
    pub fn written(&self, before: usize) -> Option<&[u8]> {
        let mut chain = &self.ended;
        for _ in 0..before {
            let Chain::More(_, older) = chain else {
                return None;
            };
            chain = older;
        }
        match chain {
            Chain::End => None,
            Chain::More(past, _) => Some(&past.written),
        }
    }

    /// How many calls have failed.
    pub fn faults(&self) -> u64
        ensures { result ≡ door_faults self.now }
    {
        self.faults
    }

    // The next client, where one waits and the call's turn hasn't come to fail.
    fn next_link(&mut self) -> Option<MemoryLink>
        ensures visits { door_visits self.new ≡ door_visits self.old }
        ensures faults { door_faults self.new ≡ door_faults self.old }
    {
        if self.calls.next_fails() {
            return None;
        }
        self.waiting.pop_front()
    }

    // Notes the input of a link that is given.
    fn note(&mut self, link: &MemoryLink) -> Result<(), Memory>
        ensures given { OnOk result (door_visits self.new
            ≡ with_given link.now.past.input.items (door_visits self.old)) }
        ensures same { OnErr result (door_visits self.new ≡ door_visits self.old) }
        ensures faults { door_faults self.new ≡ door_faults self.old }
    {
        let input = Vec::from_slice(self.alloc, &link.past.input)?;
        Ok(self.given.push(input)?)
    }

    fn count_fault(&mut self) -> Failed
        ensures rose { Rose (door_faults self.old) (door_faults self.new) }
        ensures later { door_faults self.old ≤ door_faults self.new }
        ensures visits { door_visits self.new ≡ door_visits self.old }
    {
        self.faults = self.faults.saturating_add(1);
        Failed
    }
}

// The link as it is given: nothing was read or written yet.
fn renewed(alloc: Global, link: MemoryLink) -> MemoryLink
    ensures talk { link_talk result ≡ fresh_talk link.past.input.items }
    ensures faults { link_faults result ≡ 0 }
{
    let MemoryLink {
        past,
        most,
        reads,
        writes,
        place,
    } = link;
    MemoryLink {
        past: Past {
            input: past.input,
            at: 0,
            written: Vec::new(alloc),
            faults: 0,
        },
        most,
        reads,
        writes,
        place,
    }
}

impl Door for MemoryDoor {
    type L = MemoryLink;

    ghost visits = { λ door. Some (door_visits door) };

    ghost faults = { λ door. door_faults door };

    fn listen(&mut self, port: u16) -> Result<(), Failed>
        ensures opens { Tells (Some (door_visits self.old)) (Some (door_visits self.new))
            (Opens port result) }
        ensures cause { HasCause (door_faults self.old) (door_faults self.new) result }
        ensures calm { OnOk result (door_faults self.new ≡ door_faults self.old) }
    {
        if self.calls.next_fails() || self.ports.push(port).is_err() {
            return Err(self.count_fault());
        }
        Ok(())
    }

    fn next(&mut self) -> Result<MemoryLink, Failed>
        ensures gives { IfOk result
            (λ link. Tells (Some (door_visits self.old)) (Some (door_visits self.new))
            (GivesLink (Some (link_talk link)) (link_faults link))) }
        ensures unharmed { IfOk result (λ link. link_faults link ≡ 0) }
        ensures same { OnErr result
            (Tells (Some (door_visits self.old)) (Some (door_visits self.new)) IsSameVisits) }
        ensures cause { HasCause (door_faults self.old) (door_faults self.new) result }
        ensures calm { OnOk result (door_faults self.new ≡ door_faults self.old) }
    {
        let Some(link) = self.next_link() else {
            return Err(self.count_fault());
        };
        match self.note(&link) {
            Ok(()) => Ok(renewed(self.alloc, link)),
            Err(_) => Err(self.count_fault()),
        }
    }

    fn ended(&mut self, link: MemoryLink)
        ensures takes { Tells (Some (door_visits self.old)) (Some (door_visits self.new))
            (TakesLink (Some (link_talk link)) (link_faults link)) }
        ensures count { door_faults self.new ≡ door_faults self.old }
    {
        let MemoryLink {
            past,
            most: _,
            reads: _,
            writes: _,
            mut place,
        } = link;
        *place = mem::replace(&mut self.ended, Chain::End);
        self.ended = Chain::More(past, place);
    }
}
