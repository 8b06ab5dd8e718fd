// The order of findings, and equal ones.

ghost use Rattle.std.specs.Prelude.{◌≡◌, IfOk};
ghost use Rattle.check_readings.specs.Readings.{is_same, once};

use check_found::order::ranked;
use rtl_rule::finding::Finding;
use text_ground::memory::Memory;

/// Findings in their order, equal ones once.
pub(crate) fn once(findings: Vec<Finding>) -> Result<Vec<Finding>, Memory>
    ensures { IfOk result (λ told. told.items ≡ once findings.items) }
{
    let mut told = ranked(findings)?;
    told.dedup_by(
        |finding, last|
            ensures same { result ≡ is_same finding.old last.old }
            ensures finding { finding.new ≡ finding.old }
            ensures last { last.new ≡ last.old }
        { finding.rank() == last.rank() },
    );
    Ok(told)
}
