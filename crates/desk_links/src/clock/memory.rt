// A clock that gives days of a list.
ghost use Rattle.std.specs.Prelude.{◌≡◌, Some, OnOk};
ghost use Rattle.desk_io.specs.Causes.{HasCause};
ghost use Rattle.desk_links.specs.Clocks.{GivesFirst};
ghost use Rattle.desk_links.specs.Held.{clock_days, clock_faults};

use super::Clock;
use desk_io::{Calls, Failed};
use desk_tables::Day;
use std::alloc::Global;
use text_ground::memory::Memory;

/// A clock that gives the days of a list, with the numbers of the calls that fail. The first call
/// has the number 1. Where no day is left it fails.
#[derive(Drop)]
pub struct MemoryClock {
    days: Vec<Day>,
    at: usize,
    calls: Calls,
    faults: u64,
}

impl MemoryClock {
    ghost use Rattle.std.specs.Prelude.{◌≡◌, ◌∷◌, IfNone, IfSome};
    ghost use Rattle.desk_links.specs.Held.{clock_days, clock_faults};

    /// A clock that gives these days, and where no call fails but for want of a day.
    pub fn new(alloc: Global, days: Vec<Day>) -> MemoryClock
        ensures days { clock_days result ≡ days.items }
        ensures faults { clock_faults result ≡ 0 }
    {
        MemoryClock {
            days,
            at: 0,
            calls: Calls::new(alloc),
            faults: 0,
        }
    }

    /// Has the call with this number fail.
    pub fn fail_at(&mut self, call: u64) -> Result<(), Memory>
        ensures days { clock_days self.new ≡ clock_days self.old }
        ensures faults { clock_faults self.new ≡ clock_faults self.old }
    {
        Ok(self.calls.fail_at(call)?)
    }

    /// How many calls have failed.
    pub fn faults(&self) -> u64
        ensures { result ≡ clock_faults self.now }
    {
        self.faults
    }

    // The next day, where one is left and the call's turn hasn't come to fail.
    fn next_day(&mut self) -> Option<Day>
        ensures given { IfSome result (λ day. clock_days self.old ≡ day ∷ clock_days self.new) }
        ensures none { IfNone result (clock_days self.new ≡ clock_days self.old) }
        ensures faults { clock_faults self.new ≡ clock_faults self.old }
    {
        if self.calls.next_fails() {
            return None;
        }
        match self.days.get(self.at) {
            Some(day) => {
                self.at += 1;
                Some(*day)
            }
            None => None,
        }
    }
}

impl Clock for MemoryClock {
    ghost days = { λ clock. Some (clock_days clock) };

    ghost faults = { λ clock. clock_faults clock };

    fn today(&mut self) -> Result<Day, Failed>
        ensures told { GivesFirst (Some (clock_days self.old)) (Some (clock_days self.new)) result }
        ensures cause { HasCause (clock_faults self.old) (clock_faults self.new) result }
        ensures calm { OnOk result (clock_faults self.new ≡ clock_faults self.old) }
    {
        match self.next_day() {
            Some(day) => Ok(day),
            None => {
                self.faults = self.faults.saturating_add(1);
                Err(Failed)
            }
        }
    }
}
