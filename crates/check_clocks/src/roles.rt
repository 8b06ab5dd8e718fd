// Which top inputs are clocks and resets.

ghost use Rattle.std.specs.Prelude.{◌≡◌, length, IfOk, OnOk};
ghost use Rattle.std.specs.List.{flat_map};
ghost use Rattle.rtl_flat.specs.Process.{doing};
ghost use Rattle.rtl_flat.specs.Flats.{flat};
ghost use Rattle.check_gates.specs.check_chains.rtl_scan.Graph.{row};
ghost use Rattle.check_gates.specs.check_chains.Chains.{chain_of};
ghost use Rattle.check_gates.specs.Tops.{AreMarkedAlso, AreTops};
ghost use Rattle.check_clocks.specs.Roles.{AreRoles, NotesChain, has_both};

use check_gates::check_chains::chain::{Guard, chain_of};
use check_gates::tops::{is_marked, mark_all, row_at};
use rtl_flat::act::Does;
use rtl_flat::design::Design;
use rtl_flat::expr::SigId;
use std::alloc::Global;
use text_ground::memory::Memory;

/// The top inputs that are clocks, and those that are resets.
#[derive(Drop)]
pub struct Roles {
    clocks: Vec<bool>,
    resets: Vec<bool>,
}

impl Roles {
    /// Whether a top input is a clock and a reset.
    pub(crate) fn has_both(&self, top: u32) -> bool
        ensures { result ≡ has_both self.now.clocks.items self.now.resets.items top }
    {
        is_marked(&self.clocks, top) && is_marked(&self.resets, top)
    }

    /// Notes from which top inputs a clock comes.
    fn note_clock(&mut self, tops: &[Vec<u32>], clock: SigId)
        ensures clocks { AreMarkedAlso (row tops.now clock.0) self.old.clocks.items
            self.new.clocks.items }
        ensures resets { self.new.resets.items ≡ self.old.resets.items }
    {
        mark_all(&mut self.clocks, row_at(tops, clock));
    }

    /// Notes from which top inputs resets come.
    fn note_resets(&mut self, tops: &[Vec<u32>], resets: &[Guard<'_>])
        ensures clocks { self.new.clocks.items ≡ self.old.clocks.items }
        ensures resets { let all = flat_map
            (λ guard. row tops.now guard.item.now.signal.0) resets.now in
            AreMarkedAlso all self.old.resets.items self.new.resets.items }
    {
        mark_resets(&mut self.resets, tops, resets);
    }

    /// Notes from which top inputs the clock and the resets of a process come, if it has a chain.
    fn note(
        &mut self,
        alloc: Global,
        design: &Design,
        tops: &[Vec<u32>],
        does: &Does,
    ) -> Result<(), Memory>
        ensures { let chain = chain_of (flat design.now) (doing does.now) in
            OnOk result (NotesChain tops.now chain self.old self.new) }
    {
        match chain_of(alloc, design, does)? {
            Some(chain) => {
                self.note_clock(tops, chain.clock.signal);
                self.note_resets(tops, &chain.resets);
                Ok(())
            }
            None => Ok(()),
        }
    }
}

/// Marks the top inputs from which resets come.
fn mark_resets(marks: &mut [bool], tops: &[Vec<u32>], resets: &[Guard<'_>])
    ensures { let all = flat_map (λ guard. row tops.now guard.item.now.signal.0) resets.now in
        AreMarkedAlso all marks.old marks.new }
{
    for guard in resets {
        mark_all(marks, row_at(tops, guard.item.signal));
    }
}

/// The roles of all top inputs.
pub fn roles_of(alloc: Global, design: &Design, tops: &[Vec<u32>]) -> Result<Roles, Memory>
    ensures { let d = flat design.now in
        let count = length design.now.processes.items in
        IfOk result (λ roles. AreTops d (length d.signals) tops.now →
        AreRoles d count roles.clocks.items roles.resets.items) }
{
    let count = design.signals.len();
    let mut roles = Roles {
        clocks: vec![in alloc; false; count]?,
        resets: vec![in alloc; false; count]?,
    };
    for process in &design.processes {
        roles.note(alloc, design, tops, &process.does)?;
    }
    Ok(roles)
}
