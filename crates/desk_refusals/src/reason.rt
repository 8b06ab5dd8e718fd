//! What is told of a fault.

ghost use Rattle.std.specs.Prelude.{◌≡◌, None, Some};
ghost use Rattle.std.specs.Option.{option_map};
ghost use Rattle.desk_refusals.specs.Notices.{told};
ghost use Rattle.desk_refusals.specs.Refusals.{notice};

use text_ground::text::Spot;

/// A fault by its name, with the text that it carries and its place, where it has them.
#[derive(Clone, Copy)]
pub struct Reason<'a> {
    pub name: &'a [u8],
    pub word: Option<&'a [u8]>,
    pub spot: Option<Spot>,
}

/// A fault that carries no text.
pub fn alone<'a>(name: &'a [u8], spot: Option<Spot>) -> Option<Reason<'a>>
    ensures { option_map notice result ≡ told name.now None spot }
{
    Some(Reason {
        name,
        word: None,
        spot,
    })
}

/// A fault that carries a text.
pub fn worded<'a>(name: &'a [u8], word: &'a [u8], spot: Option<Spot>) -> Option<Reason<'a>>
    ensures { option_map notice result ≡ told name.now (Some word.now) spot }
{
    Some(Reason {
        name,
        word: Some(word),
        spot,
    })
}
