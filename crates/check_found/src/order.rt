//! The order of findings.

ghost use Rattle.std.specs.Prelude.{◌≡◌, ◌++◌, List, IfOk};
ghost use Rattle.rtl_rule.specs.Order.{rank_of, ranked};
ghost use Rattle.rtl_rule.specs.declared.finding.Finding.{Finding};

use rtl_rule::finding::Finding;
use std::alloc::Global;
use text_ground::memory::Memory;

/// Findings in the order of instance, place, rule and signal.
pub fn ranked(findings: Vec<Finding>) -> Result<Vec<Finding>, Memory>
    ensures { IfOk result (λ sorted. sorted.items ≡ ranked findings.items) }
{
    let mut sorted = findings;
    sorted.sort_by_key(
        |finding|
            ensures { result ≡ rank_of finding.now }
        { finding.rank() },
    )?;
    Ok(sorted)
}

/// Two lists of findings as one, each of them in that order already.
pub fn merged(alloc: Global, one: &[Finding], other: &[Finding]) -> Result<Vec<Finding>, Memory>
    ensures { (a b : List Finding) → one.now ≡ ranked a → other.now ≡ ranked b →
        IfOk result (λ all. all.items ≡ ranked (a ++ b)) }
{
    let mut all = Vec::with_capacity(alloc, one.len() + other.len())?;
    let (mut i, mut j) = (0, 0);
    while i < one.len() && j < other.len() {
        if other[j].is_before(&one[i]) {
            all.push(other[j])?;
            j += 1;
        } else {
            all.push(one[i])?;
            i += 1;
        }
    }
    all.extend_from_slice(&one[i..])?;
    all.extend_from_slice(&other[j..])?;
    Ok(all)
}
