// Places in files, as they are written.
ghost use Rattle.std.specs.Prelude.{◌≡◌, ◌<◌, IfSome, length, option_map};
ghost use Rattle.desk_http.specs.Places.{is_column, is_line, is_place, last_colon, parted, plain_parts};

use desk_numbers::is_positive;

// The place of the last colon.
fn last_colon(text: &[u8]) -> Option<usize>
    ensures place { result ≡ last_colon 0 text.now }
    ensures inside { IfSome result (λ at. at < length text.now) }
{
    let mut found = None;
    for (at, letter) in text.iter().enumerate() {
        if *letter == b':' {
            found = Some(at);
        }
    }
    found
}

// What is before the last colon, and what is behind it.
pub(crate) fn parted(text: &[u8]) -> Option<(&[u8], &[u8])>
    ensures { plain_parts result ≡ parted text.now }
{
    match last_colon(text) {
        Some(at) => Some((&text[..at], &text[at + 1..])),
        None => None,
    }
}

// Whether a text is a file's name and a line.
fn is_line(text: &[u8]) -> bool
    ensures { result ≡ is_line (parted text.now) }
{
    match parted(text) {
        Some((file, line)) => !file.is_empty() && is_positive(line),
        None => false,
    }
}

// Whether a text is a file's name, a line and a column.
pub(crate) fn is_place(text: &[u8]) -> bool
    ensures { result ≡ is_place text.now }
{
    match parted(text) {
        Some((before, column)) => is_positive(column) && is_line(before),
        None => false,
    }
}
