// Files in the order of their names.
ghost use Rattle.std.specs.Prelude.{◌≡◌, ◌≤◌, ◌<◌, ◌+◌, [], find, option_copied, vec_len, vec_capacity, IfOk, OnOk, OnErr};
ghost use Rattle.desk_files.specs.Shown.{list_of, room};
ghost use Rattle.desk_files.specs.Sources.{has_file, is_before, is_named, place_of, with_file, without_file};

use source_file::SourceFile;
use std::alloc::Global;
use text_ground::memory::Memory;
use text_ground::text::Text;

/// Files in the order of the bytes of their names, each name once.
#[derive(Drop)]
pub struct Files {
    alloc: Global,
    files: Vec<SourceFile>,
}

/// A file that is ready to be put.
#[derive(Drop)]
pub struct Ready {
    pub file: SourceFile,
}

/// Whether a file has a name.
pub fn is_named(file: &SourceFile, name: &[u8]) -> bool
    ensures { result ≡ is_named name.now file.now }
{
    file.name.as_bytes() == name
}

/// The file of a name.
pub fn file_named<'f>(files: &'f [SourceFile], name: &[u8]) -> Option<&'f SourceFile>
    ensures { option_copied result ≡ find (is_named name.now) files.now }
{
    files.iter().find(|file| is_named(file, name))
}

fn is_before(file: &SourceFile, name: &[u8]) -> bool
    ensures { result ≡ is_before name.now file.now }
{
    file.name.as_bytes().cmp(name).is_lt()
}

/// The first place of a file whose name isn't less.
pub fn place_of(files: &[SourceFile], name: &[u8]) -> Option<usize>
    ensures { result ≡ place_of name.now files.now }
{
    files.iter().position(|file| !is_before(file, name))
}

fn has_file(files: &[SourceFile], name: &[u8]) -> bool
    ensures { result ≡ has_file name.now files.now }
{
    files.iter().any(|file| is_named(file, name))
}

// Puts a file in its place, where there is room for it.
fn put_in_place(files: &mut Vec<SourceFile>, file: SourceFile)
    requires { vec_len files.old < vec_capacity files.old }
    ensures { files.new.items ≡ with_file file files.old.items }
{
    match place_of(files, file.name.as_bytes()) {
        None => {
            if let Err(failed) = files.push(file) {
                drop(failed);
            }
        }
        Some(place) => {
            if is_named(&files[place], file.name.as_bytes()) {
                files[place] = file;
            } else if let Err(failed) = files.insert(place, file) {
                drop(failed);
            }
        }
    }
}

impl Files {
    /// No files.
    pub fn new(alloc: Global) -> Files
        ensures { list_of result ≡ [] }
    {
        Files {
            alloc,
            files: Vec::new(alloc),
        }
    }

    /// The files, in their order.
    pub fn as_slice(&self) -> &[SourceFile]
        ensures { result.now ≡ list_of self.now }
    {
        &self.files
    }

    /// A copy of a name and a text, and room for one file more. The files stay.
    pub fn ready(&mut self, name: &[u8], text: &[u8]) -> Result<Ready, Memory>
        ensures file { IfOk result (λ ready. (ready.file.name ≡ name.now)
            × (ready.file.text ≡ text.now)) }
        ensures room { OnOk result (1 ≤ room self.new) }
        ensures same { list_of self.new ≡ list_of self.old }
    {
        let name = Text::from_bytes(self.alloc, name)?;
        let text = Text::from_bytes(self.alloc, text)?;
        self.files.reserve(1)?;
        Ok(Ready {
            file: SourceFile { name, text },
        })
    }

    /// Puts a file that is ready in place of the one that has its name, or before all whose names are greater. It takes no
    /// memory.
    pub fn put_ready(&mut self, ready: Ready)
        requires { 1 ≤ room self.old }
        ensures files { list_of self.new ≡ with_file ready.file (list_of self.old) }
    {
        put_in_place(&mut self.files, ready.file);
    }

    /// Puts a file. At an error the files stay.
    pub fn put(&mut self, name: &[u8], text: &[u8]) -> Result<(), Memory>
        ensures ok { OnOk result (list_of self.new
            ≡ with_file (record { name = name.now; text = text.now }) (list_of self.old)) }
        ensures err { OnErr result (list_of self.new ≡ list_of self.old) }
    {
        let ready = self.ready(name, text)?;
        self.put_ready(ready);
        Ok(())
    }

    /// Drops the file of a name, and says whether there was one. It takes no memory.
    pub fn drop_file(&mut self, name: &[u8]) -> bool
        ensures found { result ≡ has_file name.now (list_of self.old) }
        ensures files { list_of self.new ≡ without_file name.now (list_of self.old) }
        ensures room { room self.old ≤ room self.new }
    {
        let found = has_file(&self.files, name);
        self.files.retain(|file| file.name.as_bytes() != name);
        found
    }
}
