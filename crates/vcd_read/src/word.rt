//! The words of a text, and their places.

ghost use Rattle.std.specs.Prelude.{◌≡◌, ◌+◌, ◌<◌, ◌≤◌, IfSome, length, drop};
ghost use Rattle.vcd_read.specs.Cuts.{blanks, found_word, solid};
ghost use Rattle.vcd_read.specs.Words.{is_blank, words};

/// A word, and what is behind it.
#[derive(Clone, Copy)]
pub(crate) struct Found<'t> {
    pub(crate) at: u32,
    pub(crate) word: &'t [u8],
    pub(crate) end: u32,
    pub(crate) rest: &'t [u8],
}

fn is_blank(byte: u8) -> bool
    ensures { result ≡ is_blank byte }
{
    byte == b' ' || (byte >= 9 && byte <= 13 && byte != 11)
}

/// How many blanks a text begins with.
fn blanks(text: &[u8]) -> usize
    ensures exact { result ≡ blanks text.now }
    ensures within { result ≤ length text.now }
{
    let mut at = 0;
    while at < text.len() && is_blank(text[at]) {
        at += 1;
    }
    at
}

/// How many other bytes a text begins with.
fn solid(text: &[u8]) -> usize
    ensures exact { result ≡ solid text.now }
    ensures within { result ≤ length text.now }
{
    let mut at = 0;
    while at < text.len() && !is_blank(text[at]) {
        at += 1;
    }
    at
}

/// What is behind so many bytes.
fn behind(text: &[u8], skipped: usize) -> &[u8]
    ensures { result.now ≡ drop skipped text.now }
{
    text.get(skipped..).unwrap_or(b"")
}

/// The first word of what is left of a text, which stands at this place.
#[tactic(auto, using(crate::proofs::Splitting::no_word, crate::proofs::Splitting::one_word))]
pub(crate) fn next_word(at: u32, text: &[u8]) -> Option<Found>
    requires { at + length text.now ≤ 1048576 }
    ensures exact { words at text.now ≡ found_word result }
    ensures shorter { IfSome result (λ found. length found.rest.now < length text.now) }
    ensures inside { IfSome result
        (λ found. found.end + length found.rest.now ≡ at + length text.now) }
    ensures few { IfSome result (λ found. length found.word.now ≤ 1048576) }
    ensures fit { IfSome result (λ found. found.at ≤ 1048576) }
{
    let before = blanks(text);
    let text = behind(text, before);
    let count = solid(text);
    if count == 0 {
        return None;
    }
    let at = at + before as u32;
    Some(Found {
        at,
        word: &text[..count],
        end: at + count as u32,
        rest: behind(text, count),
    })
}
