// A sink over a writer of std.
ghost use Rattle.std.specs.Prelude.{◌≡◌, ◌<◌, length, IfOk, OnOk};
ghost use Rattle.std.specs.Io.{WritesAtMost};
ghost use Rattle.std.specs.Io.KnownBytes.{WriteAppends};
ghost use Rattle.desk_io.specs.Causes.{HasCause};
ghost use Rattle.desk_io.specs.WriterSink.{writer_of, fault_count};

use super::Sink;
use crate::Failed;
use std::io::Write;

/// A sink over any writer. It tells what its writer tells: over a `Vec` its bytes, over standard output nothing.
#[derive(Drop)]
pub struct WriterSink<W: Drop> {
    writer: W,
    faults: u64,
}

impl<W: Write + Drop> WriterSink<W> {
    ghost use Rattle.std.specs.Prelude.{◌≡◌};
    ghost use Rattle.desk_io.specs.WriterSink.{writer_of, fault_count};

    /// A sink over this writer, with no fault yet.
    pub fn new(writer: W) -> Self
        ensures writer { writer_of result ≡ writer }
        ensures faults { fault_count result ≡ 0 }
    {
        WriterSink { writer, faults: 0 }
    }

    /// How many writes have failed.
    pub fn faults(&self) -> u64
        ensures { result ≡ fault_count self.now }
    {
        self.faults
    }

    /// The writer, with all that was written to it.
    pub fn into_inner(self) -> W
        ensures { result ≡ writer_of self }
    {
        self.writer
    }
}

impl<W: Write + Drop> Sink for WriterSink<W> {
    ghost taken = { λ sink. W.contents (writer_of sink) };

    ghost faults = { λ sink. fault_count sink };

    /// One write of the writer. It fails where that fails, and where that takes none of a piece that isn't empty.
    /// Nothing else is counted.
    fn write(&mut self, bytes: &[u8]) -> Result<usize, Failed>
        ensures bound { WritesAtMost result bytes.now }
        ensures some { IfOk result (λ count. 0 < length bytes.now → 0 < count) }
        ensures told { WriteAppends (W.contents (writer_of self.old))
            (W.contents (writer_of self.new)) result bytes.now }
        ensures cause { HasCause (fault_count self.old) (fault_count self.new) result }
        ensures calm { OnOk result (fault_count self.new ≡ fault_count self.old) }
    {
        match self.writer.write(bytes) {
            Ok(count) if count > 0 || bytes.is_empty() => Ok(count),
            _ => {
                self.faults = self.faults.saturating_add(1);
                Err(Failed)
            }
        }
    }
}
