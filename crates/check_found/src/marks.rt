//! Signals with places in the text, and their findings.

ghost use Rattle.std.specs.Prelude.{ℕ, ◌≡◌, ◌==◌, None, Some, cond, false, slice_index_or, true, OnOk};
ghost use Rattle.std.specs.Ordering.{nat_cmp};
ghost use Rattle.std.specs.BTreeMap.{get};
ghost use Rattle.check_found.specs.Marked.{Shows, is_some_spot, joined, wants};

use rtl_flat::act::Process;
use rtl_flat::expr::SigId;
use rtl_rule::finding::Finding;
use rtl_rule::rule::Rule;
use rtl_rule::spots::is_earlier;
use std::alloc::Global;
use std::collections::BTreeMap;
use text_ground::memory::Memory;
use text_ground::text::Spot;

/// Signals, each with a place.
#[derive(Drop)]
pub struct Marks {
    pub spots: BTreeMap<u32, Spot>,
}

/// Which of some signals have a finding.
#[derive(Clone, Copy)]
pub enum Among<'a> {
    All,
    /// Those that aren't temporaries.
    Kept(&'a [bool]),
    /// Those that have a mark, too.
    Marked(&'a Marks),
    /// Those that are listed.
    Listed(&'a [bool]),
}

impl Marks {
    /// None.
    pub fn new(alloc: Global) -> Marks
        ensures { (s : ℕ) → get nat_cmp result.spots s ≡ None }
    {
        Marks {
            spots: BTreeMap::new(alloc),
        }
    }

    /// Whether there are none.
    pub fn is_empty(&self) -> bool
        ensures { result ≡ true → (s : ℕ) → get nat_cmp self.now.spots s ≡ None }
    {
        self.spots.is_empty()
    }

    /// Marks a signal at a place.
    pub fn put(&mut self, signal: SigId, spot: Spot) -> Result<(), Memory>
        ensures { OnOk result ((s : ℕ) → get nat_cmp self.new.spots s
            ≡ cond (s == signal.0) (Some spot) (get nat_cmp self.old.spots s)) }
    {
        self.spots.insert(signal.0, spot)?;
        Ok(())
    }

    /// The lesser of a place and the one that a signal has.
    fn least(&self, signal: SigId, spot: Spot) -> Spot
        ensures { Some result ≡ joined (get nat_cmp self.now.spots signal.0) (Some spot) }
    {
        match self.spots.get(&signal.0) {
            Some(first) => {
                if is_earlier(spot, *first) {
                    spot
                } else {
                    *first
                }
            }
            None => spot,
        }
    }

    /// Marks a signal at a place unless it has one that isn't later.
    pub fn note(&mut self, signal: SigId, spot: Spot) -> Result<(), Memory>
        ensures { OnOk result ((s : ℕ) → get nat_cmp self.new.spots s
            ≡ cond (s == signal.0) (joined (get nat_cmp self.old.spots s) (Some spot))
            (get nat_cmp self.old.spots s)) }
    {
        let least = self.least(signal, spot);
        self.put(signal, least)
    }

    fn has(&self, signal: u32) -> bool
        ensures { result ≡ is_some_spot (get nat_cmp self.now.spots signal) }
    {
        self.spots.get(&signal).is_some()
    }

    /// Adds a finding of each marked signal among some, in order.
    pub fn push(
        &self,
        rule: Rule,
        process: &Process,
        among: Among,
        found: &mut Vec<Finding>,
    ) -> Result<(), Memory>
        ensures { OnOk result (Shows rule process.now.instance
            (λ s. cond (wants among.entry s) (get nat_cmp self.now.spots s) None)
            found.old.items found.new.items) }
    {
        for (signal, spot) in &self.spots {
            if among.wants(*signal) {
                found.push(Finding {
                    rule,
                    signal: Some(SigId(*signal)),
                    instance: process.instance,
                    spot: *spot,
                })?;
            }
        }
        Ok(())
    }
}

impl<'a> Among<'a> {
    fn wants(self, signal: u32) -> bool
        ensures { result ≡ wants self.entry signal }
    {
        match self {
            Among::All => true,
            Among::Kept(temporaries) => !is_listed(temporaries, signal),
            Among::Marked(marks) => marks.has(signal),
            Among::Listed(listed) => is_listed(listed, signal),
        }
    }
}

fn is_listed(listed: &[bool], signal: u32) -> bool
    ensures { result ≡ slice_index_or listed.now signal false }
{
    listed.get(signal as usize).copied().unwrap_or(false)
}
