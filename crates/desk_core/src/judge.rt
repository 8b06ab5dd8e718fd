// What a request comes to, with what the files say of its module where the tables don't settle it.
ghost use Rattle.std.specs.Prelude.{◌≡◌, ◌<◌, length, option_copied, None, IfOk, IsSome, OnErr, OnOk};
ghost use Rattle.desk_tables.specs.Tables.{kept_of};
ghost use Rattle.desk_records.specs.Machine.{request_outcome};
ghost use Rattle.desk_records.specs.Outcomes.{Open, outcome};
ghost use Rattle.desk_rulings.specs.Rulings.{verdict_of};
ghost use Rattle.source_file.specs.SourceFiles.{AreShort};
ghost use Rattle.design_db.specs.desk_memo.Rulings.{others_of};
ghost use Rattle.design_db.specs.Stores.{answer_of};
ghost use Rattle.desk_core.specs.Files.{AreFilesOf};
ghost use Rattle.desk_core.specs.Machine.{IsKnown, KeepsAnswers, KeepsOthers};
ghost use Rattle.desk_core.specs.Outcomes.{IsJudgedFor, IsOutcome, judged_with, refusal, ruling_outcome, top_of, with_answer, with_ruling};
ghost use Rattle.desk_core.specs.Reaches.{IsReachOf, OnlyLooks, reach_asked};
ghost use Rattle.desk_core.specs.Reports.{told_in};

use crate::reach::{reach, reach_asked};
use crate::replies::plainly;
use crate::report::{TopReport, files_named, report_of, ruled_of};
use design_db::{Answer, Db};
use desk_records::{Decision, Records};
use desk_requests::{Ask, Request};
use desk_rulings::{Ruled, sign_off, waive};
use desk_tables::{Day, Tables};
use source_file::SourceFile;
use std::alloc::Global;
use std::marker::Brand;
use std::sync::ledger::{Blank, Ledger};
use steps::Steps;
use text_ground::memory::Memory;
use text_ground::text::Text;

// The module whose ruling a request looks at.
fn top_of(ask: &Ask) -> Option<&Text>
    ensures { option_copied result ≡ top_of ask.now }
{
    match ask {
        Ask::Ruling(top) | Ask::SignOff(top) => Some(top),
        Ask::Waive(ask) => Some(&ask.top),
        _ => None,
    }
}

fn count_ruling<L: Ledger>(db: &mut Db, top: &Text, blank: Blank) -> Result<(), Memory>
    requires name { blank.name ≡ L.name }
    requires parts { blank.parts ≡ L.parts }
    requires some { 0 < L.parts }
    ensures files { db.new.files ≡ db.old.files }
    ensures answered { OnOk result (IsSome (answer_of db.new top.now)) }
    ensures kept { IsSome (answer_of db.old top.now) → db.new ≡ db.old }
    ensures lasting { KeepsAnswers db.old db.new }
    ensures others { others_of top.now db.new.rulings ≡ others_of top.now db.old.rulings }
    ensures same { OnErr result (db.new ≡ db.old) }
{
    let mut steps = Steps::<L>::new(blank);
    db.ruling(top, &mut steps)
}

// Sees to it that what the files say of a module is known.
pub(crate) fn rule(db: &mut Db, top: &Text) -> Result<(), Memory>
    ensures files { db.new.files ≡ db.old.files }
    ensures answered { OnOk result (IsSome (answer_of db.new top.now)) }
    ensures kept { IsSome (answer_of db.old top.now) → db.new ≡ db.old }
    ensures lasting { KeepsAnswers db.old db.new }
    ensures others { others_of top.now db.new.rulings ≡ others_of top.now db.old.rulings }
    ensures same { OnErr result (db.new ≡ db.old) }
{
    count_ruling::<Brand>(db, top, Blank::new(1))
}

fn reply_of(report: TopReport) -> Decision
    ensures { outcome result ≡ ruling_outcome (told_in report) }
{
    let status = if report.refused { 422 } else { 200 };
    Decision::Tells(plainly(status, report.bytes))
}

fn refusal(alloc: Global, line: &[u8]) -> Result<Decision, Memory>
    ensures { IfOk result (λ made. outcome made ≡ refusal line.now) }
{
    Ok(Decision::Tells(plainly(422, Vec::from_slice(alloc, line)?)))
}

// What a request comes to with a ruling.
fn with_ruling(
    alloc: Global,
    tables: &Tables,
    ruled: &Ruled<'_>,
    request: &Request,
    today: Day,
) -> Result<Decision, Memory>
    requires open { request_outcome request.now today (kept_of tables.now) ≡ Open }
    requires short { AreShort (verdict_of ruled.now).files }
    ensures { IfOk result (λ made. outcome made ≡ with_ruling request.now.ask request.now today
        (kept_of tables.now) (verdict_of ruled.now)) }
{
    match &request.ask {
        Ask::SignOff(top) => sign_off(alloc, ruled, tables, request, top, today),
        Ask::Waive(ask) => waive(alloc, ruled, tables, request, ask, today),
        _ => Ok(Decision::Open),
    }
}

// What a request that waives or signs off comes to with an answer for its module.
fn judged_with(
    alloc: Global,
    tables: &Tables,
    files: &[SourceFile],
    answer: &Answer,
    request: &Request,
    today: Day,
) -> Result<Decision, Memory>
    requires open { request_outcome request.now today (kept_of tables.now) ≡ Open }
    requires short { AreShort files.now }
    ensures { IfOk result (λ made. outcome made ≡ judged_with request.now.ask request.now today
        (kept_of tables.now) files.now answer.now) }
{
    match answer {
        Answer::Ruled(verdict, reached) => {
            let used = files_named(alloc, files, reached)?;
            let ruled = ruled_of(&used, verdict, reached);
            with_ruling(alloc, tables, &ruled, request, today)
        }
        Answer::Refused(line) => refusal(alloc, line),
    }
}

// What a request comes to with an answer for its module.
fn with_answer(
    alloc: Global,
    tables: &Tables,
    files: &[SourceFile],
    answer: &Answer,
    request: &Request,
    today: Day,
) -> Result<Decision, Memory>
    requires open { request_outcome request.now today (kept_of tables.now) ≡ Open }
    requires short { AreShort files.now }
    ensures { IfOk result (λ made. outcome made ≡ with_answer request.now.ask request.now today
        (kept_of tables.now) files.now answer.now) }
{
    match &request.ask {
        Ask::Ruling(top) => {
            let report = report_of(alloc, tables, files, answer, top, today)?;
            Ok(reply_of(report))
        }
        _ => judged_with(alloc, tables, files, answer, request, today),
    }
}

// What a request comes to that the tables alone don't settle, and that looks at a ruling.
fn judge(
    alloc: Global,
    records: &Records,
    db: &mut Db,
    request: &Request,
    today: Day,
) -> Result<Decision, Memory>
    requires open { request_outcome request.now today records.now ≡ Open }
    requires ruled { reach_asked request.now.ask ≡ None }
    requires files { AreFilesOf records.now.files db.old.files }
    ensures is { IfOk result (λ made.
        IsJudgedFor request.now today records.now (top_of request.now.ask) (outcome made)) }
    ensures known { OnOk result (IsKnown request.now.ask db.new) }
    ensures files { db.new.files ≡ db.old.files }
    ensures lasting { KeepsAnswers db.old db.new }
    ensures others { KeepsOthers (top_of request.now.ask) db.old db.new }
{
    // Only these requests look at a module.
    let Some(top) = top_of(&request.ask) else {
        unreachable!()
    };
    rule(db, top)?;
    match db.answer(top) {
        Some(answer) => {
            let tables = records.tables();
            with_answer(alloc, tables, db.files(), answer, request, today)
        }
        None => unreachable!(),
    }
}

// What a request comes to on a day that asks for no reach.
fn settle(
    alloc: Global,
    records: &Records,
    db: &mut Db,
    request: &Request,
    today: Day,
) -> Result<Decision, Memory>
    requires ruled { reach_asked request.now.ask ≡ None }
    requires files { AreFilesOf records.now.files db.old.files }
    ensures is { IfOk result (λ made. IsOutcome request.now today records.now (outcome made)) }
    ensures known { OnOk result (IsKnown request.now.ask db.new) }
    ensures files { db.new.files ≡ db.old.files }
    ensures lasting { KeepsAnswers db.old db.new }
    ensures others { KeepsOthers (top_of request.now.ask) db.old db.new }
{
    match records.decide(request, today) {
        Ok(Decision::Open) => judge(alloc, records, db, request, today),
        Ok(Decision::Tells(reply)) => Ok(Decision::Tells(reply)),
        Ok(Decision::Makes(change)) => Ok(Decision::Makes(change)),
        Err(Memory) => Err(Memory),
    }
}

// What a request comes to on a day.
pub(crate) fn decide(
    alloc: Global,
    records: &Records,
    db: &mut Db,
    request: &Request,
    today: Day,
) -> Result<Decision, Memory>
    requires { AreFilesOf records.now.files db.old.files }
    ensures is { IfOk result (λ made. IsOutcome request.now today records.now (outcome made)) }
    ensures known { OnOk result (IsKnown request.now.ask db.new) }
    ensures files { db.new.files ≡ db.old.files }
    ensures lasting { KeepsAnswers db.old db.new }
    ensures others { KeepsOthers (top_of request.now.ask) db.old db.new }
    ensures reach { IfOk result (λ made.
        IsReachOf (reach_asked request.now.ask) records.now db.old (outcome made)) }
    ensures looks { OnlyLooks (reach_asked request.now.ask) db.old db.new }
{
    match reach_asked(&request.ask) {
        Some(top) => reach(alloc, records, db, top),
        None => settle(alloc, records, db, request, today),
    }
}
