//! What is told of findings.

ghost use Rattle.std.specs.Prelude.{◌≡◌, IfOk, drop};
ghost use Rattle.desk_report.specs.Tellings.{demo_in, first_shown, row_in, target_in, tellings};

use demo_told::{Demo, Shown, Told};
use desk_rows::Row;
use rtl_flat::design::Design;
use rtl_rule::finding::Finding;
use std::alloc::Global;
use text_ground::memory::Memory;
use text_ground::text::Text;

/// Findings of a design, of which the first ones show where this says so, each with what is told of
/// it.
pub fn tell(
    alloc: Global,
    design: &Design,
    findings: &[Finding],
    shown: &[Option<(Demo, Shown)>],
) -> Result<Vec<Row>, Memory>
    ensures { IfOk result (λ rows. rows.items ≡ tellings design.now.signals.items
        design.now.instances.items findings.now shown.now) }
{
    let mut rows = Vec::new(alloc);
    for (place, finding) in findings.iter().enumerate() {
        let one = shown_at(shown, place);
        rows.push(row_in(alloc, design, finding, one)?)?;
    }
    Ok(rows)
}

/// Where the finding at a place shows.
fn shown_at(shown: &[Option<(Demo, Shown)>], place: usize) -> Option<(Demo, Shown)>
    ensures { result ≡ first_shown (drop place shown.now) }
{
    match shown.get(place) {
        Some(one) => *one,
        None => None,
    }
}

fn row_in(
    alloc: Global,
    design: &Design,
    finding: &Finding,
    shown: Option<(Demo, Shown)>,
) -> Result<Row, Memory>
    ensures { IfOk result (λ row. row ≡ row_in design.now.signals.items
        design.now.instances.items finding.now shown) }
{
    let target = Text::from_bytes(alloc, target_in(design, finding))?;
    let demo = demo_in(alloc, design, shown)?;
    Ok(Row {
        finding: *finding,
        told: Told { target, demo },
    })
}

/// Where a finding shows, with the path of the signal there.
fn demo_in(
    alloc: Global,
    design: &Design,
    shown: Option<(Demo, Shown)>,
) -> Result<Option<(Demo, Text, Shown)>, Memory>
    ensures { IfOk result (λ demo. demo ≡ demo_in design.now.signals.items shown) }
{
    let Some((demo, shown)) = shown else {
        return Ok(None);
    };
    let path = match design.signals.get(demo.signal.0 as usize) {
        Some(signal) => signal.path.as_bytes(),
        None => b"",
    };
    Ok(Some((demo, Text::from_bytes(alloc, path)?, shown)))
}

/// The path of a finding's signal, or of its instance where it names none; empty where there is none.
fn target_in<'d>(design: &'d Design, finding: &Finding) -> &'d [u8]
    ensures { result.now ≡ target_in
        design.now.signals.items design.now.instances.items finding.now }
{
    match finding.signal {
        Some(number) => match design.signals.get(number.0 as usize) {
            Some(signal) => signal.path.as_bytes(),
            None => b"",
        },
        None => match design.instances.get(finding.instance as usize) {
            Some(instance) => instance.path.as_bytes(),
            None => b"",
        },
    }
}
