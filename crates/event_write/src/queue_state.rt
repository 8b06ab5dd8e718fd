//! All that changes while a simulator runs.

use crate::entries::Entry;
use agenda::Agenda;
use event_tally::tally::Tally;
use rank_set::RankSet;
use rtl_bits::Vec4;

/// The values of signals and the events that are waiting to be taken.
#[derive(Drop)]
pub struct QueueState {
    /// The value of each signal.
    pub values: Vec<Vec4>,
    /// The woken processes.
    pub woken: Agenda,
    /// What each continuous assignment drives; none for a body.
    pub drivers: Vec<Option<Vec4>>,
    /// For each signal with several drivers what they are at, counted for each bit; none for any other.
    pub tallies: Vec<Vec<Tally>>,
    /// The continuous assignments with an update of their driver, and the value that it takes.
    pub pending: RankSet,
    pub pending_values: Vec<Vec4>,
    /// The top inputs with an update, and the value that it takes.
    pub offered: RankSet,
    pub offered_values: Vec<Vec4>,
    /// Nonblocking updates that are active, those from `next` on.
    pub active: Vec<Entry>,
    pub next: usize,
    /// Nonblocking updates that aren't active yet.
    pub waiting: Vec<Entry>,
    /// The writes of a blocking assignment while they are made.
    pub scratch: Vec<Entry>,
}
