// Signals that differ, and which of them count for a finding.

ghost use Rattle.std.specs.Prelude.{ℕ, ◌≡◌, ◌↔◌, ◌<◌, true, length, IfOk, OnOk};
ghost use Rattle.rtl_flat.specs.Flats.{flat};
ghost use Rattle.demo_replay.specs.Compared.{is_unwoken};
ghost use Rattle.demo_replay.specs.Tables.{AreClocked, AreClockedBelow, MarksWritten, compared, first_among, is_compared_for_some, is_marked, is_own, is_watched, skips};

use crate::setup::{Setup, is_marked};
use demo_told::Shown;
use netlist_eval::check_gates::tops::mark_all;
use netlist_eval::net_list::check_found::sets::written;
use netlist_eval::net_list::clocked::waits;
use rtl_flat::act::ProcId;
use rtl_flat::design::Design;
use rtl_flat::expr::SigId;
use rtl_flat::signal::Signal;
use rtl_rule::finding::Finding;
use rtl_rule::rule::Rule;
use std::alloc::Global;
use text_ground::memory::Memory;

/// A signal that shows another value than its number.
#[derive(Clone, Copy)]
pub(crate) struct Difference {
    pub signal: SigId,
    pub shown: Shown,
}

/// Marks what a process may write.
fn mark_written(alloc: Global, design: &Design, p: ProcId, marks: &mut [bool]) -> Result<(), Memory>
    requires there { p.0 < length design.now.processes.items }
    requires count { length marks.old ≡ length design.now.signals.items }
    ensures { OnOk result (MarksWritten (flat design.now) p.0 marks.old marks.new) }
{
    let bits = written(alloc, design, p)?;
    let signals: Vec<u32> = bits.rows.iter().map(|row| row.signal.0).collect(alloc)?;
    mark_all(marks, &signals);
    Ok(())
}

/// Of each signal whether a process that waits for edges may write it.
pub(crate) fn clocked_signals(alloc: Global, design: &Design) -> Result<Vec<bool>, Memory>
    ensures { IfOk result (λ marks. AreClocked (flat design.now) marks.items) }
{
    let mut marks = vec![in alloc; false; design.signals.len()]?;
    for number in 0..design.processes.len() {
        if waits(&design.processes[number].does) {
            mark_written(alloc, design, ProcId(number as u32), &mut marks)?;
        }
    }
    Ok(marks)
}

/// Whether nothing but power-up shows a finding: one on a list that never wakes its process.
pub(crate) fn is_unwoken(rule: Rule) -> bool
    ensures { result ≡ is_unwoken rule }
{
    rule == Rule::NeverWakes
}

/// Whether a signal is that of a finding.
fn is_own(finding: &Finding, signal: SigId) -> bool
    ensures { result ≡ is_own finding.now.signal signal.0 }
{
    match finding.signal {
        Some(own) => own.0 == signal.0,
        None => false,
    }
}

/// Whether an output of the top, or another signal, is looked at for a finding, where some are
/// marked that processes with edges may write.
fn is_watched(clocked: &[bool], finding: &Finding, number: SigId, signal: &Signal) -> bool
    ensures { result ≡ is_watched clocked.now finding.now number.0 signal.now }
{
    if is_unwoken(finding.rule) {
        return is_own(finding, number);
    }
    signal.top_output || is_marked(clocked, number) || is_own(finding, number)
}

/// Whether a signal is compared for a finding: one that is looked at, and no temporary.
pub(crate) fn is_compared(setup: &Setup, clocked: &[bool], finding: &Finding, number: SigId) -> bool
    ensures { result ≡ compared setup.now clocked.now finding.now number.0 }
{
    match setup.design.signals.get(number.0 as usize) {
        Some(signal) => {
            !setup.is_temporary(number) && is_watched(clocked, finding, number, signal)
        }
        None => false,
    }
}

/// Whether a signal is compared for some finding.
fn is_compared_for_some(
    setup: &Setup,
    clocked: &[bool],
    findings: &[Finding],
    number: SigId,
) -> bool
    ensures { result ≡ is_compared_for_some setup.now clocked.now findings.now number.0 }
{
    for finding in findings {
        if is_compared(setup, clocked, finding, number) {
            return true;
        }
    }
    false
}

/// Of each signal whether it is compared for no finding.
pub(crate) fn skipped_signals(
    alloc: Global,
    setup: &Setup<'_>,
    clocked: &[bool],
    findings: &[Finding],
) -> Result<Vec<bool>, Memory>
    ensures { IfOk result (λ skipped. skipped.items ≡ skips setup.now clocked.now findings.now
        (length setup.now.design.now.signals.items)) }
{
    let mut skipped = Vec::new(alloc);
    for number in 0..setup.design.signals.len() {
        let some = is_compared_for_some(setup, clocked, findings, SigId(number as u32));
        skipped.push(!some)?;
    }
    Ok(skipped)
}

/// The first of some signals that differ and are compared for a finding.
pub(crate) fn first_among(
    setup: &Setup,
    clocked: &[bool],
    finding: &Finding,
    differences: &[Difference],
) -> Option<Difference>
    ensures { result ≡ first_among (compared setup.now clocked.now finding.now) differences.now }
{
    for difference in differences {
        if is_compared(setup, clocked, finding, difference.signal) {
            return Some(*difference);
        }
    }
    None
}
