// Which calls of an object in memory fail.
ghost use Rattle.std.specs.Prelude.{◌≡◌, OnOk, OnErr};
ghost use Rattle.desk_io.specs.Calls.{schedule_of, no_failures, with_failure, after_call, next_fails};

use std::alloc::{AllocError, Global};

/// The calls so far, and the numbers of those that fail: the first call has the number 1.
#[derive(Drop)]
pub struct Calls {
    made: u64,
    failing: Vec<u64>,
}

impl Calls {
    /// No call was made, and none fails.
    pub fn new(alloc: Global) -> Self
        ensures { schedule_of result ≡ no_failures }
    {
        Calls {
            made: 0,
            failing: Vec::new(alloc),
        }
    }

    /// Lets the call with this number fail.
    ///
    /// # Errors
    ///
    /// Memory ran out; the calls are as before.
    pub fn fail_at(&mut self, call: u64) -> Result<(), AllocError>
        ensures ok { OnOk result (schedule_of self.new ≡ with_failure (schedule_of self.old) call) }
        ensures err { OnErr result (schedule_of self.new ≡ schedule_of self.old) }
    {
        Ok(self.failing.push(call)?)
    }

    /// Counts one more call, and says whether it fails.
    pub fn next_fails(&mut self) -> bool
        ensures fails { result ≡ next_fails (schedule_of self.old) }
        ensures made { schedule_of self.new ≡ after_call (schedule_of self.old) }
    {
        self.made = self.made.saturating_add(1);
        self.failing.contains(&self.made)
    }
}
