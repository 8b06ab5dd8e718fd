//! Findings and their keys.

ghost use Rattle.std.specs.Prelude.{◌≡◌};
ghost use Rattle.rtl_rule.specs.Rows.{has_first_grade, has_needed, is_needed, row_of};

use crate::rule::{Rule, first_grade, needed};
use rtl_flat::expr::SigId;
use text_ground::text::{Spot, Text};

/// A rule that a design breaks, with the signal, the instance and the place in the text.
#[derive(Clone, Copy, PartialEq, Eq, Debug)]
pub struct Finding {
    pub rule: Rule,
    /// None where the rule speaks of no signal, or what it speaks of writes none.
    pub signal: Option<SigId>,
    /// The instance of the process, the signal or the region that breaks the rule.
    pub instance: u32,
    pub spot: Spot,
}

impl Finding {
    ghost use Rattle.rtl_rule.specs.Order.{comes_before, rank_of};

    /// The numbers by which findings are ranked, the weightiest first.
    pub fn rank(&self) -> [u64; 5]
        ensures { result ≡ rank_of self.now }
    {
        let signal = match self.signal {
            None => 0,
            Some(signal) => signal.0 as u64 + 1,
        };
        [
            self.instance as u64,
            self.spot.file as u64,
            self.spot.at as u64,
            self.rule.number() as u64,
            signal,
        ]
    }

    /// Whether it stands before another in the order of instance, place, rule and signal.
    pub fn is_before(&self, other: &Finding) -> bool
        ensures { result ≡ comes_before self.now other.now }
    {
        self.rank() < other.rank()
    }
}

/// The judgement of a design.
#[derive(Drop)]
pub struct Ruling {
    /// All findings, in the order of instance, place, rule and signal.
    pub findings: Vec<Finding>,
    /// No rule of the first grade has a finding.
    pub clean: bool,
    /// No rule has a finding.
    pub firm: bool,
}

/// What names a finding across edits.
#[derive(Drop)]
pub struct Key {
    pub rule: Rule,
    /// The path of the signal, or of the instance.
    pub target: Text,
    /// The name of the file.
    pub file: Text,
    /// The place in the file, in bytes from 0.
    pub at: u32,
}

/// Whether one of some findings is of the first grade.
pub fn has_first_grade(findings: &[Finding]) -> bool
    ensures { result ≡ has_first_grade findings.now }
{
    findings.iter().any(
        |finding|
            ensures { result ≡ (row_of finding.now.rule).first_grade }
        { first_grade(finding.rule) },
    )
}

/// Whether one of some findings is of a rule on which agreement stands.
pub fn has_needed(findings: &[Finding]) -> bool
    ensures { result ≡ has_needed findings.now }
{
    findings.iter().any(
        |finding|
            ensures { result ≡ is_needed finding.now.rule }
        { needed(finding.rule) },
    )
}
