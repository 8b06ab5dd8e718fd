//! The verdict on a design.

ghost use Rattle.std.specs.Prelude.{◌≡◌, ◌≤◌, IfOk, None, length, map, replicate, take};
ghost use Rattle.rtl_flat.specs.Flats.{flat, flat_in, parts};
ghost use Rattle.sign_off.specs.check_all.Findings.{AreAllFindings};
ghost use Rattle.demo_clean.specs.demo_replay.Firsts.{AreFirsts, told};
ghost use Rattle.desk_verdict.specs.Verdicts.{IsVerdict};

use demo_clean::demo_replay::attach_all;
use demo_clean::law::none_shown;
use demo_told::{Demo, Shown};
use desk_report::tell;
use desk_rows::Row;
use rtl_flat::design::Design;
use rtl_rule::finding::{Finding, has_needed};
use sign_off::rule::rule;
use std::alloc::Global;
use text_ground::memory::Memory;

/// How many findings of a design are shown.
const MAX_SHOWN: usize = 64;

/// What is said of a design.
#[derive(Drop)]
pub struct Verdict {
    /// No rule of the first grade has a finding.
    pub clean: bool,
    /// No rule has a finding.
    pub firm: bool,
    /// All findings in their order, each with what is told of it.
    pub rows: Vec<Row>,
}

impl Verdict {
    /// What is said of a design: all its findings in their order, what each is about, and for the
    /// first 64 of them where it shows, if a trial shows it.
    ///
    /// Fails where memory runs out.
    pub fn of(alloc: Global, design: &Design) -> Result<Verdict, Memory>
        ensures { IfOk result (IsVerdict (flat_in design.now)) }
    {
        let ruling = rule(alloc, design)?;
        let count = MAX_SHOWN.min(ruling.findings.len());
        let shown = shown_of(alloc, design, &ruling.findings, count)?;
        let rows = tell(alloc, design, &ruling.findings, &shown)?;
        Ok(Verdict {
            clean: ruling.clean,
            firm: ruling.firm,
            rows,
        })
    }
}

/// Where the first of all findings of a design show. Where simulation agrees with synthesis no trial
/// can show one, and none is run.
fn shown_of(
    alloc: Global,
    design: &Design,
    findings: &[Finding],
    count: usize,
) -> Result<Vec<Option<(Demo, Shown)>>, Memory>
    requires all { AreAllFindings (parts design.now) findings.now }
    requires within { count ≤ length findings.now }
    ensures { IfOk result (λ shown.
        AreFirsts (flat design.now) (take count findings.now) (map told shown.items)) }
{
    if has_needed(findings) {
        return attach_all(alloc, design, &findings[..count]);
    }
    none_shown();
    nothing(alloc, count)
}

/// Nothing for each of so many findings.
fn nothing(alloc: Global, count: usize) -> Result<Vec<Option<(Demo, Shown)>>, Memory>
    ensures { IfOk result (λ shown. shown.items ≡ replicate count None) }
{
    let shown = vec![in alloc; None; count]?;
    Ok(shown)
}
