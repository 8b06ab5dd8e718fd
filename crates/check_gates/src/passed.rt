// The connections by which a signal alone goes on.

ghost use Rattle.std.specs.Prelude.{◌≡◌, ◌<◌, Some, length, map, IfOk, OnOk};
ghost use Rattle.std.specs.List.{slice_get};
ghost use Rattle.std.specs.Option.{option_map};
ghost use Rattle.rtl_flat.specs.Process.{Task, piece};
ghost use Rattle.rtl_flat.specs.Flats.{flat};
ghost use Rattle.check_chains.specs.check_found.Scanned.{AreScans};
ghost use Rattle.check_gates.specs.Passed.{ArePassing, GetsPassing};
ghost use Rattle.check_gates.specs.Links.{linked, whole_target};
ghost use Rattle.check_gates.specs.Passed.{IsPassingLink, only_signal};

use crate::links::{link_if, whole_target};
use crate::reach::Link;
use check_chains::check_found::scans::Scans;
use check_chains::rtl_scan::bits::Row;
use rtl_flat::act::{Does, ProcId, Target};
use rtl_flat::design::Design;
use rtl_flat::expr::SigId;
use std::alloc::Global;
use text_ground::memory::Memory;

/// The signal of a single row.
fn only_signal(rows: &[Row]) -> Option<SigId>
    ensures { result ≡ only_signal rows.now }
{
    match rows {
        [row] => Some(row.signal),
        _ => None,
    }
}

/// The link of a connection whose expression reads these bits.
fn connection(design: &Design, instance: u32, reads: &[Row], target: &Target) -> Option<Link>
    ensures { let source = option_map (λ signal. signal.0) (only_signal reads.now) in
        let target = whole_target (map piece target.now.parts.items) in
        result ≡ linked (flat design.now) instance source target }
{
    let source = only_signal(reads)?;
    let target = whole_target(target)?;
    link_if(design, instance, source, target)
}

/// The link of a process, if it is the connection of a port that reads one signal alone.
pub(crate) fn passing_link(scans: &Scans, p: ProcId) -> Option<Link>
    requires scans { AreScans scans.now }
    requires there { p.0 < length scans.now.design.now.processes.items }
    ensures { let d = flat scans.now.design.now in
        (task : Task) → slice_get d.tasks p.0 ≡ Some task → IsPassingLink d task result }
{
    let process = &scans.design.processes[p.0 as usize];
    let bits = scans.read_outside(p);
    match &process.does {
        Does::Assign { target, value: _ } => {
            connection(scans.design, process.instance, &bits.rows, target)
        }
        Does::Comb { list: _, body: _ } => None,
        Does::Edge { events: _, body: _ } => None,
    }
}

fn push_passing(scans: &Scans, p: ProcId, links: &mut Vec<Link>) -> Result<(), Memory>
    requires scans { AreScans scans.now }
    requires there { p.0 < length scans.now.design.now.processes.items }
    ensures { let d = flat scans.now.design.now in
        OnOk result ((task : Task) → slice_get d.tasks p.0 ≡ Some task →
        GetsPassing d task links.old.items links.new.items) }
{
    if let Some(link) = passing_link(scans, p) {
        links.push(link)?;
    }
    Ok(())
}

/// All such links.
pub fn passing_links(alloc: Global, scans: &Scans) -> Result<Vec<Link>, Memory>
    requires { AreScans scans.now }
    ensures { let d = flat scans.now.design.now in
        IfOk result (λ links. ArePassing d (length d.tasks) links.items) }
{
    let mut links = Vec::new(alloc);
    for number in 0..scans.design.processes.len() {
        push_passing(scans, ProcId(number as u32), &mut links)?;
    }
    Ok(links)
}
