//! Sets of ranks, which are numbers below a size: bitmaps with a summary bit for each word, so that the
//! least, the greatest and the n-th member are found fast. Only `RankSet::new` takes memory.
//!
//! Contracts see a set as the list of its flags, one for each rank.
#![tactic(auto)]

ghost use Rattle.std.specs.Prelude.{◌≡◌, ◌<◌, ◌==◌, Bool, List, false, true, length, replicate, slice_set, IfOk, IfSome, MatchOption};
ghost use Rattle.rank_set.specs.Ranks.{flag, members, IsEmpty, IsGreatest, IsLeast, IsNth};

use std::alloc::{AllocError, Global};
use std::marker::Model;
use words::{
    clear_with_summary, first_bit, first_bit_in, has_bit, last_bit, last_bit_in, nth_bit,
    set_with_summary,
};

mod words;

/// A set of ranks below a size that is fixed when the set is made.
#[derive(Debug, Drop)]
pub struct RankSet {
    size: usize,
    count: usize,
    words: Vec<u64>,
    /// One bit for each word: whether the word has a bit.
    summary: Vec<u64>,
}

impl Model for RankSet {
    ghost use Rattle.std.specs.Prelude.{Bool, List};
    ghost use Rattle.rank_set.specs.Words.{flags_of, IsIndexed};

    ghost Value = { List Bool };

    ghost view = { λ s. flags_of s.words.items s.size };

    ghost invariant = { λ s. IsIndexed s.size s.count s.words.items s.summary.items };
}

impl RankSet {
    /// The empty set of ranks below `size`.
    pub fn new(alloc: Global, size: usize) -> Result<Self, AllocError>
        ensures { IfOk result (λ s. s ≡ replicate size false) }
    {
        let words = vec![in alloc; 0; size.div_ceil(64)]?;
        let summary = vec![in alloc; 0; words.len().div_ceil(64)]?;
        Ok(RankSet {
            size,
            count: 0,
            words,
            summary,
        })
    }

    /// The number below which all ranks are.
    pub fn size(&self) -> usize
        ensures { result ≡ length self.now }
    {
        self.size
    }

    /// How many members there are.
    pub fn count(&self) -> usize
        ensures { result ≡ members self.now }
    {
        self.count
    }

    /// Whether there is no member.
    pub fn is_empty(&self) -> bool
        ensures { result ≡ (members self.now == 0) }
    {
        self.count == 0
    }

    /// Whether `rank` is a member; a rank that isn't below the size is none.
    pub fn contains(&self, rank: usize) -> bool
        ensures { result ≡ flag self.now rank }
    {
        rank < self.size && has_bit(&self.words, rank)
    }

    /// Makes `rank` a member, if it isn't one yet.
    pub fn insert(&mut self, rank: usize)
        requires { rank < length self.old }
        ensures { self.new ≡ slice_set self.old rank true }
    {
        if !has_bit(&self.words, rank) {
            set_with_summary(&mut self.words, &mut self.summary, rank);
            self.count += 1;
        }
    }

    /// Makes `rank` no member, if it is one.
    pub fn remove(&mut self, rank: usize)
        requires { rank < length self.old }
        ensures { self.new ≡ slice_set self.old rank false }
    {
        if has_bit(&self.words, rank) {
            clear_with_summary(&mut self.words, &mut self.summary, rank);
            self.count -= 1;
        }
    }

    /// The least member, or `None` where there is none.
    pub fn least(&self) -> Option<usize>
        ensures least { MatchOption result (IsEmpty self.now) (λ rank. IsLeast self.now rank) }
        ensures within { IfSome result (λ rank. rank < length self.now) }
    {
        let number = first_bit(&self.summary)?;
        Some(first_bit_in(&self.words, number))
    }

    /// The greatest member, or `None` where there is none.
    pub fn greatest(&self) -> Option<usize>
        ensures greatest { MatchOption result (IsEmpty self.now)
            (λ rank. IsGreatest self.now rank) }
        ensures within { IfSome result (λ rank. rank < length self.now) }
    {
        let number = last_bit(&self.summary)?;
        Some(last_bit_in(&self.words, number))
    }

    /// The member below which `n` members are.
    pub fn nth(&self, n: usize) -> usize
        requires { n < members self.now }
        ensures nth { IsNth self.now n result }
        ensures within { result < length self.now }
    {
        nth_bit(&self.words, n)
    }
}
