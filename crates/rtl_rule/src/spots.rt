//! Places in the text.

ghost use Rattle.std.specs.Prelude.{◌≡◌};
ghost use Rattle.rtl_rule.specs.Parts.{is_earlier};

use text_ground::text::Spot;

/// Whether a place comes before another.
pub fn is_earlier(one: Spot, other: Spot) -> bool
    ensures { result ≡ is_earlier one other }
{
    one.file < other.file || (one.file == other.file && one.at < other.at)
}
