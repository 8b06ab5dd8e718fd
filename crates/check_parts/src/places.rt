//! Places in the text, and the first of several.

ghost use Rattle.std.specs.Prelude.{◌≡◌, if◌then◌else◌};
ghost use Rattle.rtl_rule.specs.Parts.{is_earlier, least_place};

use rtl_rule::spots::is_earlier;
use text_ground::text::Spot;

/// The earlier of two places.
fn earlier(one: Spot, other: Spot) -> Spot
    ensures { result ≡ (if is_earlier other one then other else one) }
{
    if is_earlier(other, one) {
        return other;
    }
    one
}

/// The first of some places; of none a place that is given.
pub fn least_place(otherwise: Spot, places: &[Spot]) -> Spot
    ensures { result ≡ least_place otherwise places.now }
{
    let Some((first, others)) = places.split_first() else {
        return otherwise;
    };
    let mut least = *first;
    for place in others {
        least = earlier(least, *place);
    }
    least
}
