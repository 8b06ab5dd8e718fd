// A clock of days, as the desk sees it.
ghost use Rattle.std.specs.Prelude.{◌≡◌, ℕ, ℤ, List, Option, OnOk};
ghost use Rattle.desk_io.specs.Causes.{HasCause};
ghost use Rattle.desk_links.specs.Clocks.{GivesFirst};

mod memory;
mod system;

use desk_io::Failed;
use desk_tables::Day;
pub use memory::MemoryClock;
pub use system::SystemClock;

/// What tells the day, and a count of the faults that asking met.
pub trait Clock {
    /// The days that it will give, where the clock tells them.
    ghost days: { Self → Option (List ℤ) };

    /// How many calls have failed. It stops at the last value of a `u64`.
    ghost faults: { Self → ℕ };

    /// The day of today: the next of its days. At an error it gives none.
    fn today(&mut self) -> Result<Day, Failed>
        ensures told { GivesFirst (days self.old) (days self.new) result }
        ensures cause { HasCause (faults self.old) (faults self.new) result }
        ensures calm { OnOk result (faults self.new ≡ faults self.old) };
}
