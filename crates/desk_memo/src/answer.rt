// What is answered of a top.
ghost use Rattle.std.specs.Prelude.{◌≡◌, IfOk};

use std::alloc::Global;
use text_ground::memory::Memory;
use text_ground::text::Text;

/// What files say of a top, where `V` is what is said of a design.
#[derive(Drop)]
pub enum Answer<V> {
    /// What is said of its design, with the names of the files that it uses, ascending: a spot's
    /// number counts these.
    Ruled(V, Vec<Text>),
    /// The line that says why it has no design.
    Refused(Vec<u8>),
}

impl<V: Drop> Answer<V> {
    /// The same in a box.
    ///
    /// # Errors
    ///
    /// Memory ran out.
    pub fn boxed(self, alloc: Global) -> Result<Box<Answer<V>>, Memory>
        ensures { IfOk result (λ made. made.value ≡ self) }
    {
        match Box::new(alloc, self) {
            Ok(made) => Ok(made),
            Err(_) => Err(Memory),
        }
    }
}
