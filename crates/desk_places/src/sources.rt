//! The files that were read.

ghost use Rattle.std.specs.Prelude.{◌≡◌, ◌≤◌, ◌∷◌, ◌++◌, [], IfOk, length, OnErr, OnOk};
ghost use Rattle.source_file.specs.SourceFiles.{AreShort};
ghost use Rattle.desk_places.specs.Places.{place_in, sources_of};

use crate::placed_file::PlacedFile;
use source_file::SourceFile;
use std::alloc::Global;
use text_ground::memory::Memory;
use text_ground::text::Spot;

/// The files that were read, in their order: a spot names its file by the position there.
#[derive(Drop)]
pub struct Sources<'a> {
    alloc: Global,
    files: Vec<PlacedFile<'a>>,
}

impl<'a> Sources<'a> {
    /// These files, each text of at most 1 MiB.
    pub fn new(alloc: Global, files: &'a [SourceFile]) -> Result<Sources<'a>, Memory>
        requires { AreShort files.now }
        ensures { IfOk result (λ made. sources_of made ≡ files.now) }
    {
        let mut sources = Sources::empty(alloc);
        for file in files {
            sources.push(file)?;
        }
        Ok(sources)
    }

    /// The same files where few places of them are written: the lines are gone through anew for each, and not before.
    pub fn seldom(alloc: Global, files: &'a [SourceFile]) -> Result<Sources<'a>, Memory>
        requires { AreShort files.now }
        ensures { IfOk result (λ made. sources_of made ≡ files.now) }
    {
        let mut sources = Sources::empty(alloc);
        for file in files {
            sources.push_seldom(file)?;
        }
        Ok(sources)
    }

    /// No file yet.
    pub fn empty(alloc: Global) -> Sources<'a>
        ensures { sources_of result ≡ [] }
    {
        Sources {
            alloc,
            files: Vec::new(alloc),
        }
    }

    /// Puts a file behind the others, its text of at most 1 MiB. At an error the files stay.
    pub fn push(&mut self, file: &'a SourceFile) -> Result<(), Memory>
        requires { length file.now.text ≤ 1048576 }
        ensures ok { OnOk result (sources_of self.new ≡ sources_of self.old ++ file.now ∷ []) }
        ensures err { OnErr result (sources_of self.new ≡ sources_of self.old) }
    {
        let file = PlacedFile::new(self.alloc, file)?;
        self.files.push(file)?;
        Ok(())
    }

    /// Puts a file behind the others of which few places are written: its lines are gone through anew for each, and not
    /// before. At an error the files stay.
    pub fn push_seldom(&mut self, file: &'a SourceFile) -> Result<(), Memory>
        requires { length file.now.text ≤ 1048576 }
        ensures ok { OnOk result (sources_of self.new ≡ sources_of self.old ++ file.now ∷ []) }
        ensures err { OnErr result (sources_of self.new ≡ sources_of self.old) }
    {
        self.files.push(PlacedFile::seldom(file))?;
        Ok(())
    }

    /// Writes a place as `file:line:column` behind other text, and nothing where there is no such file.
    pub fn push_place(&self, out: &mut Vec<u8>, spot: Spot) -> Result<(), Memory>
        ensures { OnOk result (out.new.items
            ≡ out.old.items ++ place_in (sources_of self.now) spot) }
    {
        match self.files.get(spot.file as usize) {
            Some(file) => file.push_place(self.alloc, out, spot.at),
            None => Ok(()),
        }
    }
}
