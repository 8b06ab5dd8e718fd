// What the desk keeps, held in memory.
ghost use Rattle.std.specs.Prelude.{◌≡◌, ◌≤◌, IfOk, IfSome, OnErr, OnOk, IsErrOf};
ghost use Rattle.desk_io.specs.Causes.{Rose};
ghost use Rattle.desk_tables.specs.Changes.{changed, reply_of};
ghost use Rattle.desk_tables.specs.Tables.{kept_of};
ghost use Rattle.desk_requests.specs.Replies.{said};
ghost use Rattle.desk_records.specs.Machine.{by_tables, change_outcome, full_table, request_outcome, unless_full};
ghost use Rattle.desk_records.specs.Outcomes.{kept_said, outcome};

use crate::Decision;
use crate::files::{by_tables, kept_reply, repeat_outcome};
use crate::limits::{full_refusal, full_table};
use crate::settle::{ready, settle};
use desk_requests::{Reply, Request};
use desk_tables::{Change, Day, Keeper, KeeperFault, Tables};
use std::alloc::Global;
use std::marker::Model;
use text_ground::memory::Memory;
use thiserror::Error;

/// Why a change isn't made.
#[derive(Clone, Copy, Debug, PartialEq, Eq, Error)]
pub enum Stop {
    /// The keeper failed, and has counted it.
    #[error("the tables can't be changed")]
    Unkept,
    /// There is no memory.
    #[error("out of memory")]
    Memory,
}

impl From<Memory> for Stop {
    ghost use Rattle.std.specs.Prelude.{◌≡◌};
    ghost use Rattle.desk_records.specs.declared.records.Stop.TheVariants as stop;

    ghost from_gives = { λ _ made. made ≡ stop.Memory };

    fn from(_: Memory) -> Stop {
        Stop::Memory
    }
}

fn stop_of(fault: KeeperFault) -> Stop
    ensures unkept { result ≡ Stop.Unkept → fault ≡ KeeperFault.Failed }
    ensures memory { result ≡ Stop.Memory → fault ≡ KeeperFault.Memory }
{
    match fault {
        KeeperFault::Failed => Stop::Unkept,
        KeeperFault::Memory => Stop::Memory,
    }
}

/// The tables of the desk, which contracts see as the rows that they hold.
#[derive(Drop)]
pub struct Records {
    alloc: Global,
    tables: Tables,
}

impl Model for Records {
    ghost use Rattle.desk_tables.specs.Tables.{Kept, kept_of};

    ghost Value = { Kept };

    ghost view = { λ records. kept_of records.tables };
}

impl Records {
    /// The records of these tables.
    pub fn new(alloc: Global, tables: Tables) -> Records
        ensures { result ≡ kept_of tables }
    {
        Records { alloc, tables }
    }

    /// The tables.
    pub fn tables(&self) -> &Tables
        ensures { kept_of result.now ≡ self.now }
    {
        &self.tables
    }

    // A full table, or what a request comes to by itself.
    fn unless_full(&self, request: &Request, today: Day) -> Result<Decision, Memory>
        ensures { IfOk result (λ made. outcome made
            ≡ unless_full (full_table request.now.ask self.now)
            (by_tables request.now.ask request.now today self.now)) }
    {
        match full_table(&request.ask, &self.tables) {
            Some(table) => full_refusal(self.alloc, table),
            None => by_tables(self.alloc, request, today, &self.tables),
        }
    }

    // A request that changes the tables: its kept reply, a full table, or what it comes to by
    // itself.
    fn change_outcome(&self, request: &Request, today: Day) -> Result<Decision, Memory>
        ensures { IfOk result (λ made.
            outcome made ≡ change_outcome request.now today self.now) }
    {
        let user = request.user.as_bytes();
        match kept_reply(&self.tables.replies, user, request.label()) {
            Some(row) => repeat_outcome(self.alloc, row, &request.digest),
            None => self.unless_full(request, today),
        }
    }

    /// What a request comes to by what is kept, on a day.
    pub fn decide(&self, request: &Request, today: Day) -> Result<Decision, Memory>
        ensures { IfOk result (λ made.
            outcome made ≡ request_outcome request.now today self.now) }
    {
        if request.ask.changes() {
            self.change_outcome(request, today)
        } else {
            by_tables(self.alloc, request, today, &self.tables)
        }
    }

    /// Makes a change, in the keeper's tables first, and gives the reply that it keeps. At an error
    /// nothing changes. Nothing takes memory after the keeper's commit.
    #[tactic(auto, using(crate::proofs::Holding::told_after, crate::proofs::Holding::told_same))]
    pub fn make<K: Keeper>(&mut self, keeper: &mut K, change: Change) -> Result<Reply, Stop>
        requires { IfSome (K.tables keeper.old) (λ held. held ≡ self.old) }
        ensures ok { IfOk result (λ reply. said reply ≡ kept_said (reply_of change)) }
        ensures done { OnOk result (self.new ≡ changed change self.old) }
        ensures same { OnErr result (self.new ≡ self.old) }
        ensures held { IfSome (K.tables keeper.new) (λ held. held ≡ self.new) }
        ensures unkept { IsErrOf result Stop.Unkept
            → Rose (K.count keeper.old) (K.count keeper.new) }
        ensures later { K.count keeper.old ≤ K.count keeper.new }
        ensures no_memory { IsErrOf result Stop.Memory → K.count keeper.new ≡ K.count keeper.old }
        ensures calm { OnOk result (K.count keeper.new ≡ K.count keeper.old) }
    {
        match ready(self.alloc, &mut self.tables, &change) {
            Err(Memory) => Err(Stop::Memory),
            Ok(reply) => match keeper.commit(&change) {
                Ok(()) => {
                    settle(&mut self.tables, change);
                    Ok(reply)
                }
                Err(fault) => Err(stop_of(fault)),
            },
        }
    }
}
