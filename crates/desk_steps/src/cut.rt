//! Texts, cut at a byte.

ghost use Rattle.std.specs.Prelude.{◌≡◌, ◌≢◌, ◌<◌, ◌≤◌, ◌∷◌, [], IfSome, drop, length};
ghost use Rattle.std.specs.Option.{option_map};
ghost use Rattle.desk_steps.specs.Cuts.{cut, parts_behind, place_of};
ghost use Rattle.desk_steps.specs.Lines.{cut_at, lines, parts};

/// The first place at which a byte stands, or the length of the text.
fn place_of(mark: u8, text: &[u8]) -> usize
    ensures exact { result ≡ place_of mark text.now }
    ensures within { result ≤ length text.now }
{
    let mut at = 0;
    while at < text.len() && text[at] != mark {
        at += 1;
    }
    at
}

/// What is behind so many bytes.
pub(crate) fn behind(text: &[u8], skipped: usize) -> &[u8]
    ensures { result.now ≡ drop skipped text.now }
{
    text.get(skipped..).unwrap_or(b"")
}

/// A text up to the first place at which a byte stands, and what is behind it.
#[tactic(auto, using(crate::proofs::Cutting::cut_found, crate::proofs::Cutting::cut_missing))]
pub(crate) fn cut_at(mark: u8, text: &[u8]) -> Option<(&[u8], &[u8])>
    ensures { option_map cut result ≡ cut_at mark text.now }
{
    let at = place_of(mark, text);
    if at < text.len() {
        Some((&text[..at], behind(text, at + 1)))
    } else {
        None
    }
}

/// The first line of a text that isn't empty, and what is behind it.

pub(crate) fn next_line(text: &[u8]) -> (&[u8], &[u8])
    requires { text.now ≢ [] }
    ensures line { lines text.now ≡ result.0.now ∷ lines result.1.now }
    ensures shorter { length result.1.now < length text.now }
{
    match cut_at(b'\n', text) {
        Some((line, behind)) => (line, behind),
        None => (text, &text[text.len()..]),
    }
}

/// The text up to the first space, and what is behind it, if there is one.

pub(crate) fn next_part(text: &[u8]) -> (&[u8], Option<&[u8]>)
    ensures part { parts 32 text.now
        ≡ result.0.now ∷ parts_behind (option_map (λ rest. rest.now) result.1) }
    ensures shorter { IfSome result.1 (λ rest. length rest.now < length text.now) }
{
    match cut_at(b' ', text) {
        Some((part, behind)) => (part, Some(behind)),
        None => (text, None),
    }
}
