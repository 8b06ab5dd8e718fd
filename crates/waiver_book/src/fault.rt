// Why a waiver is refused.
use desk_tables::{Day, Name, WaiverId};
use rtl_rule::rule::Rule;

/// How many days after the day of its grant a waiver may stand.
pub const MAX_TERM: i32 = 90;

/// Why a waiver isn't granted. The first that holds is told.
#[derive(Clone, Copy, Debug)]
pub enum WaiveFault {
    /// The table of rules lets no waiver set a finding of this rule aside.
    NotWaivable(Rule),
    /// There is no such finding.
    NoSuchFinding,
    /// The last day is past.
    TermPast(Day),
    /// The last day is so many days away, more than 90.
    TermTooLong(u32),
    /// Who asks would answer for it.
    OwnerIsAsker,
    /// This waiver of the same finding stands.
    Already(WaiverId),
    /// There is no memory.
    Memory,
}

/// Why a waiver isn't revoked. The first that holds is told.
#[derive(Drop)]
pub enum RevokeFault {
    /// No waiver has the number.
    NoSuchWaiver,
    /// This other user answers for it.
    NotOwner(Name),
    /// It stands no more: it was revoked on that day, or that was its last day.
    Ended(Day),
}
