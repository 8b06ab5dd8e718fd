// What a request is answered.
ghost use Rattle.std.specs.Prelude.{◌≡◌, ◌≢◌, ◌≤◌, ◌⊎◌, ℕ, true, List, IfOk, IfSome, IsSome, OnOk};
ghost use Rattle.source_file.specs.declared.SourceFile.{SourceFile};
ghost use Rattle.desk_tables.specs.Changes.{reply_of};
ghost use Rattle.desk_requests.specs.Replies.{said};
ghost use Rattle.desk_service.specs.Service.{is_accepted, is_answered, IsShort, unavailable};
ghost use Rattle.design_db.specs.Stores.{answer_of};
ghost use Rattle.desk_core.specs.Files.{AreFilesOf, files_changed};
ghost use Rattle.desk_core.specs.Headline.{IsNewSignOff, IsSignedClean, SaysClean};
ghost use Rattle.desk_core.specs.Machine.{AreAccepted, IsKnown, KeepsAnswers, KeepsOthers};
ghost use Rattle.desk_core.specs.Outcomes.{top_of};
ghost use Rattle.desk_core.specs.Reaches.{OnlyLooks, SaysReach, reach_asked};
ghost use Rattle.desk_core.specs.Reports.{IsTold, told_in};
ghost use Rattle.desk_core.specs.Serving.{Leaves, Serves};
ghost use Rattle.desk_core.specs.Steps.{CanFollow, IsMade, IsSameStore, IsShortChange, files_next};

use crate::Desk;
use crate::judge::{decide, rule};
use crate::next::{Next, follow, next_of};
use crate::replies::{no_memory, unavailable};
use crate::report::{TopReport, report_of};
use design_db::Db;
use desk_records::{Decision, Records, Stop};
use desk_requests::{Reply, Request};
use desk_tables::{Change, Day, Keeper};
use std::alloc::Global;
use text_ground::memory::Memory;
use text_ground::text::Text;

// What is ready before a change is made, so that nothing takes memory after it: what follows for
// the files, and the reply where the keeper fails.
#[derive(Drop)]
struct Plan {
    next: Next,
    unkept: Reply,
}

fn plan_of(alloc: Global, db: &mut Db, change: &Change) -> Result<Plan, Memory>
    requires { IsShortChange change.now }
    ensures next { IfOk result (λ plan.
        (files : List SourceFile) → files_next plan.next files ≡ files_changed change.now files) }
    ensures room { IfOk result (λ plan. CanFollow plan.next db.new.room) }
    ensures unkept { IfOk result (λ plan. said plan.unkept ≡ unavailable) }
    ensures same { IsSameStore db.old db.new }
{
    let unkept = unavailable(alloc)?;
    let next = next_of(alloc, db, change)?;
    Ok(Plan { next, unkept })
}

// Makes a change in the keeper's tables and the records, and then in the files.
fn commit<K: Keeper>(
    alloc: Global,
    records: &mut Records,
    db: &mut Db,
    keeper: &mut K,
    change: Change,
    plan: Plan,
) -> Reply
    requires held { IfSome (K.tables keeper.old) (λ held. held ≡ records.old) }
    requires files { AreFilesOf records.old.files db.old.files }
    requires replies { AreAccepted records.old.replies }
    requires short { IsShortChange change }
    requires accepted { is_accepted (reply_of change).status ≡ true }
    requires next { (files : List SourceFile)
        → files_next plan.next files ≡ files_changed change files }
    requires room { CanFollow plan.next db.old.room }
    requires unkept { said plan.unkept ≡ unavailable }
    ensures made { IsMade change (K.count keeper.old) (K.count keeper.new) records.old records.new
        (said result) }
    ensures held { IfSome (K.tables keeper.new) (λ held. held ≡ records.new) }
    ensures later { K.count keeper.old ≤ K.count keeper.new }
    ensures files { AreFilesOf records.new.files db.new.files }
    ensures replies { AreAccepted records.new.replies }
    ensures left { Leaves (said result) → IsSameStore db.old db.new }
    ensures rulings { db.new.rulings ≡ db.old.rulings }
    ensures absent { db.new.absent ≡ db.old.absent }
{
    let Plan { next, unkept } = plan;
    match records.make(keeper, change) {
        Ok(reply) => {
            follow(db, next);
            reply
        }
        Err(Stop::Unkept) => unkept,
        Err(Stop::Memory) => no_memory(alloc),
    }
}

impl Desk {
    // Makes a change.
    fn make<K: Keeper>(&mut self, keeper: &mut K, change: Change) -> Reply
        requires held { IfSome (K.tables keeper.old) (λ held. held ≡ self.old.kept) }
        requires short { IsShortChange change }
        requires accepted { is_accepted (reply_of change).status ≡ true }
        ensures made { IsMade change (K.count keeper.old) (K.count keeper.new) self.old.kept
            self.new.kept (said result) }
        ensures held { IfSome (K.tables keeper.new) (λ held. held ≡ self.new.kept) }
        ensures later { K.count keeper.old ≤ K.count keeper.new }
        ensures left { Leaves (said result) → IsSameStore self.old.store self.new.store }
        ensures rulings { self.new.store.rulings ≡ self.old.store.rulings }
        ensures absent { self.new.store.absent ≡ self.old.store.absent }
    {
        match plan_of(self.alloc, &mut self.db, &change) {
            Ok(plan) => commit(
                self.alloc,
                &mut self.records,
                &mut self.db,
                keeper,
                change,
                plan,
            ),
            Err(Memory) => no_memory(self.alloc),
        }
    }

    /// The reply to a request on a day: what the tables, and the files of their rows, make of it.
    /// What is accepted is made in the keeper's tables first. Where the keeper fails the reply has
    /// the status 503, and where there is no memory 507 and no body; the tables stay then.
    pub fn serve<K: Keeper>(&mut self, keeper: &mut K, request: &Request, today: Day) -> Reply
        requires held { IfSome (K.tables keeper.old) (λ held. held ≡ self.old.kept) }
        requires short { IsShort request.now.ask }
        ensures served { Serves request.now today (K.count keeper.old) (K.count keeper.new)
            self.old.kept self.new.kept (said result) }
        ensures held { IfSome (K.tables keeper.new) (λ held. held ≡ self.new.kept) }
        ensures later { K.count keeper.old ≤ K.count keeper.new }
        ensures status { is_answered (said result).status ≡ true }
        ensures calm { (said result).status ≢ 503 → K.count keeper.new ≡ K.count keeper.old }

        // Where nothing was accepted, as where the keeper failed or memory ran out, the files stay,
        // and so do the answers that were there.
        ensures lasting { Leaves (said result) → KeepsAnswers self.old.store self.new.store }
        ensures left { Leaves (said result) → self.new.store.files ≡ self.old.store.files }

        // What is kept of other modules than that which is looked at stays, whatever is answered, and
        // where a ruling was answered, the answer of its module is known from then on.
        ensures others { KeepsOthers (top_of request.now.ask) self.old.store self.new.store }
        ensures known { ((said result).status ≡ 200) ⊎ ((said result).status ≡ 422)
            → IsKnown request.now.ask self.new.store }

        // Of a module's reach just that is told which was known before, and nothing changes.
        ensures reach { SaysReach (reach_asked request.now.ask) self.old.kept self.old.store
            (said result) }
        ensures looks { OnlyLooks (reach_asked request.now.ask) self.old.store self.new.store }

        // What is signed clean shows in every simulation what its hardware shows.
        ensures headline { (top : List ℕ) → IsNewSignOff request.now self.old.kept top
            → SaysClean (said result) → IsSignedClean self.old.kept top }
    {
        match decide(self.alloc, &self.records, &mut self.db, request, today) {
            Ok(Decision::Tells(reply)) => reply,
            Ok(Decision::Makes(change)) => self.make(keeper, change),
            // What the tables don't settle, the files do.
            Ok(Decision::Open) => unreachable!(),
            Err(Memory) => no_memory(self.alloc),
        }
    }

    /// What is told of a module on a day: its report, with the waivers that stand, or why it has no
    /// design. It is worked out where its answer isn't known. Fails where memory runs out.
    pub fn report(&mut self, top: &Text, today: Day) -> Result<TopReport, Memory>
        ensures told { IfOk result (λ report.
            IsTold top.now today self.old.kept (told_in report)) }
        ensures kept { self.new.kept ≡ self.old.kept }
        ensures files { self.new.store.files ≡ self.old.store.files }
        ensures answered { OnOk result (IsSome (answer_of self.new.store top.now)) }
        ensures again { IsSome (answer_of self.old.store top.now)
            → self.new.store ≡ self.old.store }

        // The answers of other modules stay, at an error too.
        ensures lasting { KeepsAnswers self.old.store self.new.store }
    {
        rule(&mut self.db, top)?;
        match self.db.answer(top) {
            Some(answer) => {
                let tables = self.records.tables();
                report_of(self.alloc, tables, self.db.files(), answer, top, today)
            }
            None => unreachable!(),
        }
    }
}
