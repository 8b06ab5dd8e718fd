// The day of the system's clock.
ghost use Rattle.std.specs.Prelude.{◌≡◌, None, OnOk};
ghost use Rattle.desk_io.specs.Causes.{HasCause};
ghost use Rattle.desk_links.specs.Held.{system_faults};

use super::Clock;
use desk_io::Failed;
use desk_tables::Day;
use jiff::Timestamp;
use std::rt;

const SECONDS_A_DAY: i64 = 86_400;

/// The system's clock, by the calendar of UTC. It tells nothing of its days. It fails where the
/// system gives no time, and outside the years 0000 to 9999.
#[derive(Drop)]
pub struct SystemClock<R: Drop> {
    runtime: R,
    faults: u64,
}

// The day of an instant.
fn day_of(timestamp: Timestamp) -> Option<Day> {
    let days = i32::try_from(timestamp.as_second() / SECONDS_A_DAY).ok()?;
    Day::new(days)
}

impl<R: rt::Clock + Drop> SystemClock<R> {
    ghost use Rattle.std.specs.Prelude.{◌≡◌};
    ghost use Rattle.desk_links.specs.Held.{system_faults};

    /// The clock of this runtime, with no fault yet.
    pub fn new(runtime: R) -> SystemClock<R>
        ensures { system_faults result ≡ 0 }
    {
        SystemClock { runtime, faults: 0 }
    }

    // The day, where the system tells one.
    fn day(&self) -> Option<Day> {
        let timestamp = Timestamp::now(&self.runtime).ok()?;
        day_of(timestamp)
    }
}

impl<R: rt::Clock + Drop> Clock for SystemClock<R> {
    ghost days = { λ _. None };

    ghost faults = { λ clock. system_faults clock };

    fn today(&mut self) -> Result<Day, Failed>
        ensures cause { HasCause (system_faults self.old) (system_faults self.new) result }
        ensures calm { OnOk result (system_faults self.new ≡ system_faults self.old) }
    {
        match self.day() {
            Some(day) => Ok(day),
            None => {
                self.faults = self.faults.saturating_add(1);
                Err(Failed)
            }
        }
    }
}
