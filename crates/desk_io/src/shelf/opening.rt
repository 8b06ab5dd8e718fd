// How files are opened by their names.
ghost use Rattle.std.specs.Prelude.{◌≡◌, ◌≢◌, ◌↔◌, None, Err, Option, IfOk, IfSome, IsSome};
ghost use Rattle.std.specs.IoError.{error_kind};
ghost use Rattle.desk_io.specs.Shelf.{Files as HeldFiles};

use super::ShelfFault;
use std::io::{ErrorKind, Read};
use std::rt::Files;
use std::{fs, io};

/// What opens files by their names, each as a reader of its bytes.
pub trait Opener {
    /// An open file.
    type File: Read + Drop;

    /// The files by name, where the opener tells them.
    ghost files: { Self → Option HeldFiles };

    /// Opens the file that has the name. No length is too long for that.
    fn open(&self, name: &str) -> Result<Self::File, ShelfFault>
        // The reader has the bytes of the named file, all of them.
        ensures opened { IfSome (files self.now)
            (λ held. IfOk result (λ file. (Self.File.remaining file ≡ held name.now)
            × IsSome (held name.now))) }
        ensures missing { IfSome (files self.now) (λ held. result ≡ Err ShelfFault.NoSuchFile
            → held name.now ≡ None) }
        ensures unread { result ≢ Err ShelfFault.TooLong };
}

/// Opens the files of the system, by their paths. It tells nothing of them.
#[derive(Drop)]
pub struct SystemFiles<R: Drop> {
    runtime: R,
}

impl<R: Files + Drop> SystemFiles<R> {
    ghost use Rattle.std.specs.Prelude.{◌≡◌};
    ghost use Rattle.desk_io.specs.FileShelf.{runtime_of};

    /// The files that this runtime opens.
    pub fn new(runtime: R) -> Self
        ensures { runtime_of result ≡ runtime }
    {
        SystemFiles { runtime }
    }
}

// Why a file isn't opened.
fn open_fault(error: &io::Error) -> ShelfFault
    ensures missing { (result ≡ ShelfFault.NoSuchFile)
        ↔ (error_kind error.now ≡ ErrorKind.NotFound) }
    ensures unread { result ≢ ShelfFault.TooLong }
{
    match error.kind() {
        ErrorKind::NotFound => ShelfFault::NoSuchFile,
        ErrorKind::OutOfMemory => ShelfFault::Memory,
        _ => ShelfFault::Failed,
    }
}

impl<R: Files + Drop> Opener for SystemFiles<R> {
    type File = R::File;

    ghost files = { λ _. None };

    /// The file at this path, which is opened as it is given. What the system finds there no contract can say.
    fn open(&self, name: &str) -> Result<R::File, ShelfFault>
        ensures unread { result ≢ Err ShelfFault.TooLong }
    {
        match fs::open(&self.runtime, name) {
            Ok(file) => Ok(file),
            Err(error) => Err(open_fault(&error)),
        }
    }
}
