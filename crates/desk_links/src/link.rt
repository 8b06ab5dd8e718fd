// A link to a client, as the desk sees it.
ghost use Rattle.std.specs.Prelude.{◌≡◌, ◌<◌, [], ℕ, Option, length, IfOk, OnOk};
ghost use Rattle.std.specs.Io.{ReadsAtMost, WritesAtMost};
ghost use Rattle.desk_io.specs.Causes.{HasCause};
ghost use Rattle.desk_links.specs.Links.{GoesOn, IsAtEnd, Talk, moved};

mod memory;
mod tcp;

use desk_io::Failed;
pub use memory::MemoryLink;
pub(crate) use memory::Past;
pub use tcp::TcpLink;

/// A link to a client: what it sends is read, and what is written goes to it. It counts the faults
/// that both met.
pub trait Link {
    /// What was read, what is left to be read, and what was written, where the link tells them.
    ghost talk: { Self → Option Talk };

    /// How many calls have failed. It stops at the last value of a `u64`.
    ghost faults: { Self → ℕ };

    /// Reads a front of what is left into a front of the buffer, and says how many bytes. None into
    /// a buffer that isn't empty says that the input has ended.
    fn read(&mut self, buf: &mut [u8]) -> Result<usize, Failed>
        ensures bound { ReadsAtMost result buf.new }
        ensures told { GoesOn (talk self.old) (talk self.new) (moved result buf.new) [] }
        ensures end { IfOk result
            (λ count. count ≡ 0 → 0 < length buf.new → IsAtEnd (talk self.new)) }
        ensures cause { HasCause (faults self.old) (faults self.new) result }
        ensures calm { OnOk result (faults self.new ≡ faults self.old) };

    /// Takes a front of the bytes, and says how many. At an error it takes none.
    fn write(&mut self, bytes: &[u8]) -> Result<usize, Failed>
        ensures bound { WritesAtMost result bytes.now }
        ensures some { IfOk result (λ count. 0 < length bytes.now → 0 < count) }
        ensures told { GoesOn (talk self.old) (talk self.new) [] (moved result bytes.now) }
        ensures cause { HasCause (faults self.old) (faults self.new) result }
        ensures calm { OnOk result (faults self.new ≡ faults self.old) };
}
