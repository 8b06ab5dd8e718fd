// A link over the network.
ghost use Rattle.std.specs.Prelude.{◌≡◌, ◌<◌, ◌≤◌, None, length, IfOk, IfSome, OnOk};
ghost use Rattle.std.specs.Io.{ReadsAtMost, WritesAtMost};
ghost use Rattle.desk_io.specs.Causes.{HasCause};
ghost use Rattle.desk_links.specs.Held.{tcp_link_faults};

use super::Link;
use desk_io::Failed;
use std::io::{Read, Write};
use std::net::OpenStream;
use std::time::{Clock, Duration, Instant};

// How long one read or write waits for a client.
const SILENCE_SECONDS: u64 = 10;

// How long a client is waited for in all.
const PATIENCE_SECONDS: u64 = 60;

/// A link over a stream of the network. It tells nothing of what was said. A read or a write waits
/// at most ten seconds for the client, and all of them together at most a minute; then it fails.
#[derive(Drop)]
pub struct TcpLink<C: Drop, S: Drop> {
    clock: C,
    pub(crate) stream: S,
    /// How long the client may still be waited for.
    left: Duration,
    faults: u64,
}

impl<C: Clock + Drop, S: OpenStream + Read + Write + Drop> TcpLink<C, S> {
    ghost use Rattle.std.specs.Prelude.{◌≡◌, ◌<◌, ◌≤◌, ◌-◌, length, min, IfSome};
    ghost use Rattle.std.specs.Time.{instant_nanos};
    ghost use Rattle.std.specs.Duration.{as_nanos};
    ghost use Rattle.desk_io.specs.Causes.{Rose};
    ghost use Rattle.desk_links.specs.Held.{tcp_link_faults};

    /// A link over this stream, with no fault yet, whose time is told by a clock.
    pub fn new(clock: C, stream: S) -> TcpLink<C, S>
        ensures faults { tcp_link_faults result ≡ 0 }
        ensures left { as_nanos result.left ≡ 60_000_000_000 }
    {
        TcpLink {
            clock,
            stream,
            left: Duration::from_secs(PATIENCE_SECONDS),
            faults: 0,
        }
    }

    // How long the next call waits for the client: as long as the client has left, but for what is
    // over a silence of ten seconds.
    fn wait(&self) -> Duration
        ensures { as_nanos result ≡ min (as_nanos self.now.left) 10_000_000_000 }
    {
        let over = self
            .left
            .saturating_sub(Duration::from_secs(SILENCE_SECONDS));
        self.left.saturating_sub(over)
    }

    // Takes the time between two instants from what the client has left.
    fn spend(&mut self, begun: Instant, ended: Instant)
        ensures left { as_nanos self.new.left
            ≡ as_nanos self.old.left - (instant_nanos ended - instant_nanos begun) }
        ensures faults { tcp_link_faults self.new ≡ tcp_link_faults self.old }
    {
        self.left = self.left.saturating_sub(ended.duration_since(begun));
    }

    // Reads, where the client sends in time.
    fn read_in_time(&mut self, buf: &mut [u8]) -> Option<usize>
        ensures count { IfSome result (λ count. count ≤ length buf.new) }
        ensures length { length buf.new ≡ length buf.old }
        ensures left { as_nanos self.new.left ≤ as_nanos self.old.left }
        ensures faults { tcp_link_faults self.new ≡ tcp_link_faults self.old }
    {
        let begun = Instant::now(&self.clock).ok()?;
        self.stream.set_read_timeout(Some(self.wait())).ok()?;
        let count = self.stream.read(buf).ok()?;
        let ended = Instant::now(&self.clock).ok()?;
        self.spend(begun, ended);
        Some(count)
    }

    // Writes, where the client takes some in time.
    fn write_in_time(&mut self, bytes: &[u8]) -> Option<usize>
        ensures bound { IfSome result (λ count. count ≤ length bytes.now) }
        ensures some { IfSome result (λ count. 0 < length bytes.now → 0 < count) }
        ensures left { as_nanos self.new.left ≤ as_nanos self.old.left }
        ensures faults { tcp_link_faults self.new ≡ tcp_link_faults self.old }
    {
        let begun = Instant::now(&self.clock).ok()?;
        self.stream.set_write_timeout(Some(self.wait())).ok()?;
        let count = self.stream.write(bytes).ok()?;
        let ended = Instant::now(&self.clock).ok()?;
        self.spend(begun, ended);
        if count > 0 || bytes.is_empty() {
            Some(count)
        } else {
            None
        }
    }

    fn count_fault(&mut self) -> Failed
        ensures rose { Rose (tcp_link_faults self.old) (tcp_link_faults self.new) }
        ensures later { tcp_link_faults self.old ≤ tcp_link_faults self.new }
    {
        self.faults = self.faults.saturating_add(1);
        Failed
    }
}

impl<C: Clock + Drop, S: OpenStream + Read + Write + Drop> Link for TcpLink<C, S> {
    ghost talk = { λ _. None };

    ghost faults = { λ link. tcp_link_faults link };

    fn read(&mut self, buf: &mut [u8]) -> Result<usize, Failed>
        ensures bound { ReadsAtMost result buf.new }
        ensures cause { HasCause (tcp_link_faults self.old) (tcp_link_faults self.new) result }
        ensures calm { OnOk result (tcp_link_faults self.new ≡ tcp_link_faults self.old) }
    {
        match self.read_in_time(buf) {
            Some(count) => Ok(count),
            None => Err(self.count_fault()),
        }
    }

    fn write(&mut self, bytes: &[u8]) -> Result<usize, Failed>
        ensures bound { WritesAtMost result bytes.now }
        ensures some { IfOk result (λ count. 0 < length bytes.now → 0 < count) }
        ensures cause { HasCause (tcp_link_faults self.old) (tcp_link_faults self.new) result }
        ensures calm { OnOk result (tcp_link_faults self.new ≡ tcp_link_faults self.old) }
    {
        match self.write_in_time(bytes) {
            Some(count) => Ok(count),
            None => Err(self.count_fault()),
        }
    }
}
