//! What is told of a finding.

use crate::demo::{Demo, Shown};
use text_ground::text::Text;

/// What is told of a finding beside its rule and its place.
#[derive(Drop)]
pub struct Told {
    /// The path of the finding's signal, or of its instance.
    pub target: Text,
    /// Where it shows first, the path of the signal there, and what is there of it. None where no
    /// trial shows it, and for all but the first 64 findings of a design.
    pub demo: Option<(Demo, Text, Shown)>,
}
