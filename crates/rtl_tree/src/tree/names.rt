// Names as they are written.

use text_ground::text::Text;

/// A name as it is written.
#[derive(Drop)]
pub struct Name {
    pub text: Text,
    /// The place of its first byte.
    pub at: u32,
}
