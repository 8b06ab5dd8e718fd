//! A file by its name and its text: what all that reads files goes by.
#![tactic(auto)]

use std::alloc::Global;
use text_ground::memory::Memory;
use text_ground::text::Text;

/// A file by its name and its text.
#[derive(Drop)]
pub struct SourceFile {
    pub name: Text,
    /// Its bytes.
    pub text: Text,
}

impl SourceFile {
    ghost use Rattle.std.specs.Prelude.{◌≡◌, IfOk};

    /// A file by a copy of its name, which takes over its bytes.
    pub fn new(alloc: Global, name: &[u8], text: Vec<u8>) -> Result<SourceFile, Memory>
        ensures { IfOk result (λ file. file ≡ record { name = name.now; text = text.items }) }
    {
        Ok(SourceFile {
            name: Text::from_bytes(alloc, name)?,
            text: Text::from_vec(text),
        })
    }
}
