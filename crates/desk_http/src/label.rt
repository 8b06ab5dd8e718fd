// Short texts of printable characters, and words.
ghost use Rattle.std.specs.Prelude.{◌≡◌};
ghost use Rattle.std.specs.List.{list_all};
ghost use Rattle.rtl_tree.specs.Lexemes.{is_in_word, opens_word};
ghost use Rattle.desk_http.specs.Labels.{is_label, is_printable, is_word};

fn is_printable(letter: u8) -> bool
    ensures { result ≡ is_printable letter }
{
    b' ' <= letter && letter <= b'~'
}

fn are_printable(text: &[u8]) -> bool
    ensures { result ≡ list_all is_printable text.now }
{
    text.iter().all(|letter| is_printable(*letter))
}

// Whether a text is 1 to so many printable characters.
pub(crate) fn is_label(most: usize, text: &[u8]) -> bool
    ensures { result ≡ is_label most text.now }
{
    !text.is_empty() && text.len() <= most && are_printable(text)
}

fn opens_word(letter: u8) -> bool
    ensures { result ≡ opens_word letter }
{
    letter.is_ascii_alphabetic() || letter == b'_'
}

fn is_in_word(letter: u8) -> bool
    ensures { result ≡ is_in_word letter }
{
    letter.is_ascii_alphanumeric() || letter == b'_' || letter == b'$'
}

fn are_in_word(letters: &[u8]) -> bool
    ensures { result ≡ list_all is_in_word letters.now }
{
    letters.iter().all(|letter| is_in_word(*letter))
}

// Whether a text can name a module.
pub(crate) fn is_word(text: &[u8]) -> bool
    ensures { result ≡ is_word text.now }
{
    match text.first() {
        Some(first) => opens_word(*first) && are_in_word(text),
        None => false,
    }
}
