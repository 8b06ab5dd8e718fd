// Reading files.

ghost use Rattle.std.specs.Prelude.{◌≡◌, ◌≤◌, IfOk, IfSome, None, Some, length};
ghost use Rattle.source_file.specs.SourceFiles.{AreShort, names_in, texts_in};
ghost use Rattle.desk_io.specs.Causes.{Rose};
ghost use Rattle.desk_top.specs.Delivery.{IsCalmWork, stop_of};
ghost use Rattle.desk_top.specs.Texts.{texts_of};
ghost use Rattle.desk_top.specs.Words.{texts};

use crate::deliver::Stop;
use desk_io::{Shelf, ShelfFault};
use source_file::SourceFile;
use std::alloc::Global;

/// The files of these names, read one after the other up to the first that isn't had.
pub(crate) fn read_sources<F: Shelf>(
    alloc: Global,
    names: &[String],
    shelf: &mut F,
) -> Result<Vec<SourceFile>, Stop>
    ensures told { IfSome (F.files shelf.old) (λ held. IfOk result (λ made.
        texts_of held (texts names.now) ≡ Some (texts_in made.items))) }
    ensures missing { IfSome (F.files shelf.old) (λ held.
        result ≡ Err Stop.NoFile → texts_of held (texts names.now) ≡ None) }
    ensures names { IfOk result (λ made. names_in made.items ≡ texts names.now) }
    ensures short { IfOk result (λ made. AreShort made.items) }
    ensures unread { result ≡ Err Stop.Unread → Rose (F.faults shelf.old) (F.faults shelf.new) }
    ensures later { F.faults shelf.old ≤ F.faults shelf.new }
    ensures calm { IsCalmWork (F.files shelf.old) result (F.faults shelf.old) (F.faults shelf.new) }
{
    let mut made = Vec::new(alloc);
    for name in names {
        match shelf.read(name.as_str()) {
            Ok(text) => made.push(SourceFile::new(alloc, name.as_bytes(), text)?)?,
            Err(fault) => return Err(stop_of(fault)),
        }
    }
    Ok(made)
}

/// How a file that wasn't read stops the work.
pub fn stop_of(fault: ShelfFault) -> Stop
    ensures { result ≡ stop_of fault }
{
    match fault {
        ShelfFault::Failed => Stop::Unread,
        ShelfFault::NoSuchFile | ShelfFault::TooLong => Stop::NoFile,
        ShelfFault::Memory => Stop::Memory,
    }
}
