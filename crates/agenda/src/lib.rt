//! A set of numbers below a size, of which each may have a level, kept in two orders: by number, and by level
//! and then number. So the least, the greatest, the n-th and the lowest member are found fast.
//! Only `Agenda::new` takes memory.
//!
//! Contracts see an agenda as the list of its flags, one for each number, beside the list of the levels.
#![tactic(auto)]

ghost use Rattle.std.specs.Prelude.{◌≡◌, ◌<◌, ◌≤◌, ◌==◌, ◌^◌, false, true, length, replicate, slice_set, IfOk, IfSome, MatchOption};
ghost use Rattle.rank_set.specs.Ranks.{flag, members, IsEmpty, IsGreatest, IsLeast, IsNth};
ghost use Rattle.agenda.specs.Agendas.{IsLowest};

use rank_set::RankSet;
use ranking::{numbers_by_level, ranks_of};
use std::alloc::{AllocError, Global};
use std::marker::Model;

mod ranking;

/// A set of numbers below a size; the size and the levels of the numbers are fixed when the set is made.
#[derive(Drop)]
pub struct Agenda {
    members: RankSet,
    /// The members by their ranks: the rank of a number is its place in the order of the levels.
    ranked: RankSet,
    levels: Vec<Option<u32>>,
    /// The number of each rank.
    number_at: Vec<u32>,
    /// The rank of each number.
    rank_of: Vec<u32>,
}

impl Model for Agenda {
    ghost use Rattle.agenda.specs.Agendas.{Numbered};
    ghost use Rattle.agenda.specs.Rankings.{IsKept};

    ghost Value = { Numbered };

    ghost view = { λ a. record { flags = a.members; levels = a.levels.items } };

    ghost invariant = { λ a. IsKept a.levels.items a.members a.ranked a.number_at.items a.rank_of.items };
}

impl Agenda {
    /// The empty set of the numbers below the length of `levels`, where number k has the k-th level.
    /// It fails only for want of memory.
    pub fn new(alloc: Global, levels: Vec<Option<u32>>) -> Result<Self, AllocError>
        requires { length levels.items ≤ 2 ^ 32 }
        ensures { IfOk result (λ a. a ≡ record
            { flags = replicate (length levels.items) false; levels = levels.items }) }
    {
        let members = RankSet::new(alloc, levels.len())?;
        let ranked = RankSet::new(alloc, levels.len())?;
        let number_at = numbers_by_level(alloc, &levels)?;
        let rank_of = ranks_of(alloc, &number_at)?;
        Ok(Agenda {
            members,
            ranked,
            levels,
            number_at,
            rank_of,
        })
    }

    /// The number below which all numbers are.
    pub fn size(&self) -> usize
        ensures { result ≡ length self.now.flags }
    {
        self.members.size()
    }

    /// How many members there are.
    pub fn count(&self) -> usize
        ensures { result ≡ members self.now.flags }
    {
        self.members.count()
    }

    /// Whether there is no member.
    pub fn is_empty(&self) -> bool
        ensures { result ≡ (members self.now.flags == 0) }
    {
        self.members.is_empty()
    }

    /// Whether `number` is a member; a number that isn't below the size is none.
    pub fn contains(&self, number: usize) -> bool
        ensures { result ≡ flag self.now.flags number }
    {
        self.members.contains(number)
    }

    /// Makes `number` a member, if it isn't one yet.
    pub fn insert(&mut self, number: usize)
        requires { number < length self.old.flags }
        ensures { self.new ≡ record self.old { flags = slice_set self.old.flags number true } }
    {
        self.members.insert(number);
        self.ranked.insert(self.rank_of[number] as usize);
    }

    /// Makes `number` no member, if it is one.
    pub fn remove(&mut self, number: usize)
        requires { number < length self.old.flags }
        ensures { self.new ≡ record self.old { flags = slice_set self.old.flags number false } }
    {
        self.members.remove(number);
        self.ranked.remove(self.rank_of[number] as usize);
    }

    /// The least member, or `None` where there is none.
    pub fn least(&self) -> Option<usize>
        ensures least { MatchOption result (IsEmpty self.now.flags)
            (λ number. IsLeast self.now.flags number) }
        ensures within { IfSome result (λ number. number < length self.now.flags) }
    {
        self.members.least()
    }

    /// The greatest member, or `None` where there is none.
    pub fn greatest(&self) -> Option<usize>
        ensures greatest { MatchOption result (IsEmpty self.now.flags)
            (λ number. IsGreatest self.now.flags number) }
        ensures within { IfSome result (λ number. number < length self.now.flags) }
    {
        self.members.greatest()
    }

    /// The member below which `n` members are.
    pub fn nth(&self, n: usize) -> usize
        requires { n < members self.now.flags }
        ensures nth { IsNth self.now.flags n result }
        ensures within { result < length self.now.flags }
    {
        self.members.nth(n)
    }

    /// The member of the lowest level, the least where several have it, or `None` where there is no member.
    /// A number that has no level comes after all that have one.
    pub fn lowest(&self) -> Option<usize>
        ensures lowest { MatchOption result (IsEmpty self.now.flags)
            (λ number. IsLowest self.now.levels self.now.flags number) }
        ensures within { IfSome result (λ number. number < length self.now.flags) }
    {
        let rank = self.ranked.least()?;
        Some(self.number_at[rank] as usize)
    }
}
