// Whole files, up to the length that a file may have.
ghost use Rattle.std.specs.Prelude.{◌≡◌, ◌≢◌, ◌≤◌, Some, Err, vec_len, IfSome, IfOk, IfErr};
ghost use Rattle.desk_io.specs.Limits.{MAX_FILE_BYTES};
ghost use Rattle.desk_io.specs.Shelf.{IsFreeFault, IsReading, reading};

use super::{MAX_FILE_BYTES, ShelfFault};
use std::alloc::Global;
use std::io;
use std::io::{ErrorKind, Read};

// The bytes of a whole file, unless they are too many.
pub(super) fn at_most(bytes: Vec<u8>) -> Result<Vec<u8>, ShelfFault>
    ensures reading { IsReading (reading (Some bytes.items)) result }
    ensures only { IfErr result (λ fault. fault ≡ ShelfFault.TooLong) }
    ensures short { IfOk result (λ kept. vec_len kept ≤ MAX_FILE_BYTES) }
{
    if bytes.len() <= MAX_FILE_BYTES {
        Ok(bytes)
    } else {
        Err(ShelfFault::TooLong)
    }
}

// All that the reader has left. It takes no more than one byte above the longest file.
pub(super) fn read_whole<R: Read + Drop>(alloc: Global, reader: R) -> Result<Vec<u8>, ShelfFault>
    ensures reading { IfSome (R.remaining reader) (λ left. IsReading (reading (Some left)) result) }
    ensures short { IfOk result (λ bytes. vec_len bytes ≤ MAX_FILE_BYTES) }
    ensures opened { result ≢ Err ShelfFault.NoSuchFile }
{
    let mut bytes = Vec::new(alloc);
    let mut front = reader.take(MAX_FILE_BYTES as u64 + 1);
    match front.read_to_end(&mut bytes) {
        Ok(_) => at_most(bytes),
        Err(error) => Err(read_fault(&error)),
    }
}

// Why a file that was opened isn't read.
fn read_fault(error: &io::Error) -> ShelfFault
    ensures { IsFreeFault result }
{
    if error.kind() == ErrorKind::OutOfMemory {
        ShelfFault::Memory
    } else {
        ShelfFault::Failed
    }
}
