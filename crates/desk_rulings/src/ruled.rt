// What the rules say of a module.

use desk_rows::Row;
use source_file::SourceFile;
use text_ground::text::Text;

/// What the rules say of a module, with the files that it uses.
#[derive(Clone, Copy)]
pub struct Ruled<'r> {
    /// Its findings in their order, each with what is told of it.
    pub rows: &'r [Row],
    /// The files that it uses, in the order of the bytes of their names: a spot names its file by
    /// its place here.
    pub files: &'r [&'r SourceFile],
    /// Their names.
    pub reached: &'r [Text],
}
