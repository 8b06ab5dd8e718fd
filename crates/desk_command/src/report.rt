// The command `report TOP`.
ghost use Rattle.std.specs.Prelude.{◌≡◌, ◌≢◌, ◌<◌, ◌≤◌, ℕ, IfOk};
ghost use Rattle.desk_io.specs.Causes.{Rose};
ghost use Rattle.desk_core.specs.Reports.{IsTold, told_in};
ghost use Rattle.desk_server.specs.Exchanges.{around};
ghost use Rattle.desk_command.specs.Statuses.{NO_DAY, UNKEPT, UNREAD, UNWRITTEN};
ghost use Rattle.desk_command.specs.Commands.{IsReport, IsReportOn, IsReported, report_outcome, taken_between};

use crate::ending::{NO_DAY, deliver};
use crate::starting::refuse;
use desk_core::{Desk, TopReport};
use desk_io::{Failed, Sink};
use desk_links::Clock;
use desk_tables::{Day, Keeper};
use desk_top::deliver::{DONE, NO_MEMORY, OPEN, REFUSED};
use std::alloc::Global;
use text_ground::memory::Memory;
use text_ground::text::Text;

// The exit status of a report.
fn status_of(report: &TopReport) -> u8
    ensures outcome { result ≡ (report_outcome (told_in report.now)).status }
    ensures below { result < UNREAD }
{
    if report.refused {
        REFUSED
    } else if report.left == 0 {
        DONE
    } else {
        OPEN
    }
}

// The report of a module of this name on a day.
fn told(alloc: Global, desk: &mut Desk, top: &str, today: Day) -> Result<TopReport, Memory>
    ensures { IfOk result (λ report. IsTold top.now today desk.old.kept (told_in report)) }
{
    let name = Text::from_bytes(alloc, top.as_bytes())?;
    desk.report(&name, today)
}

// The report on a day, written to the sink.
fn report_on<S: Sink>(alloc: Global, desk: &mut Desk, top: &str, today: Day, out: &mut S) -> u8
    ensures reported { IsReportOn top.now desk.old.kept today result
        (taken_between (S.taken out.old) (S.taken out.new)) }
    ensures unwritten { result ≡ UNWRITTEN → Rose (S.faults out.old) (S.faults out.new) }
    ensures read { result ≢ UNREAD }
    ensures failed { S.faults out.old < S.faults out.new → result ≡ UNWRITTEN }
    ensures later { S.faults out.old ≤ S.faults out.new }
{
    match told(alloc, desk, top, today) {
        Ok(report) => deliver(status_of(&report), &report.bytes, out),
        Err(Memory) => NO_MEMORY,
    }
}

// The report on the clock's day.
fn report_over<C: Clock, S: Sink>(
    alloc: Global,
    desk: &mut Desk,
    top: &str,
    clock: &mut C,
    out: &mut S,
) -> u8
    ensures reported { (keeper keeper' : ℕ) → keeper' ≡ keeper → IsReport top.now desk.old.kept
        (around (C.days clock.old) (C.faults clock.old) keeper)
        (around (C.days clock.new) (C.faults clock.new) keeper')
        result (taken_between (S.taken out.old) (S.taken out.new)) }
    ensures unwritten { result ≡ UNWRITTEN → Rose (S.faults out.old) (S.faults out.new) }
    ensures read { result ≢ UNREAD }
    ensures failed { S.faults out.old < S.faults out.new → result ≡ UNWRITTEN }
    ensures later { S.faults out.old ≤ S.faults out.new }
    ensures day_failed { C.faults clock.old < C.faults clock.new → result ≡ NO_DAY }
    ensures later_clock { C.faults clock.old ≤ C.faults clock.new }
{
    match clock.today() {
        Ok(today) => report_on(alloc, desk, top, today, out),
        Err(Failed) => NO_DAY,
    }
}

/// Tells what the rules say of a module of the keeper's files, with the waivers that stand on the
/// clock's day. Tables of version 1 are migrated before the clock is asked.
pub(crate) fn report<K: Keeper, C: Clock, S: Sink>(
    alloc: Global,
    top: &str,
    keeper: &mut K,
    clock: &mut C,
    out: &mut S,
) -> u8
    ensures reported { IsReported top.now (K.tables keeper.old) (K.tables keeper.new)
        (around (C.days clock.old) (C.faults clock.old) (K.count keeper.old))
        (around (C.days clock.new) (C.faults clock.new) (K.count keeper.new))
        result (taken_between (S.taken out.old) (S.taken out.new)) }
    ensures load_failed { K.count keeper.old < K.count keeper.new → result ≡ UNKEPT }
    ensures day_failed { C.faults clock.old < C.faults clock.new → result ≡ NO_DAY }
    ensures later_keeper { K.count keeper.old ≤ K.count keeper.new }
    ensures later_clock { C.faults clock.old ≤ C.faults clock.new }
    ensures unwritten { result ≡ UNWRITTEN → Rose (S.faults out.old) (S.faults out.new) }
    ensures read { result ≢ UNREAD }
    ensures failed { S.faults out.old < S.faults out.new → result ≡ UNWRITTEN }
    ensures later { S.faults out.old ≤ S.faults out.new }
{
    match Desk::start(alloc, keeper) {
        Ok(mut desk) => report_over(alloc, &mut desk, top, clock, out),
        Err(fault) => refuse(alloc, fault, out),
    }
}
