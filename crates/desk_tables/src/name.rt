// Names of users.
ghost use Rattle.std.specs.Prelude.{◌≡◌, IsTrue};
ghost use Rattle.std.specs.List.{list_all};
ghost use Rattle.desk_tables.specs.Names.{is_name, is_name_letter, name_of};

use std::marker::Model;

/// How many bytes a name may have.
pub(crate) const MAX_NAME_BYTES: usize = 32;

/// The name of a user, 1 to 32 characters of `a-z 0-9 _ -`, which contracts see as the list of them.
#[derive(Drop)]
pub struct Name {
    letters: [u8; MAX_NAME_BYTES],
    count: usize,
}

impl Model for Name {
    ghost use Rattle.std.specs.Prelude.{ℕ, ◌≤◌, List, take, IsTrue};
    ghost use Rattle.desk_tables.specs.Names.{is_name};

    ghost Value = { List ℕ };

    ghost view = { λ name. take name.count name.letters };

    ghost invariant = { λ name. (name.count ≤ 32) × IsTrue (is_name (take name.count name.letters)) };
}

// Whether a character may stand in a name.
fn is_name_letter(letter: u8) -> bool
    ensures { result ≡ is_name_letter letter }
{
    letter.is_ascii_lowercase() || letter.is_ascii_digit() || letter == b'_' || letter == b'-'
}

fn are_name_letters(text: &[u8]) -> bool
    ensures { result ≡ list_all is_name_letter text.now }
{
    text.iter().all(|letter| is_name_letter(*letter))
}

// Whether a text is a name.
fn is_name(text: &[u8]) -> bool
    ensures { result ≡ is_name text.now }
{
    !text.is_empty() && text.len() <= MAX_NAME_BYTES && are_name_letters(text)
}

impl Name {
    /// The name that is this text; None where it isn't one.
    pub fn new(text: &[u8]) -> Option<Name>
        ensures { result ≡ name_of text.now }
    {
        if !is_name(text) {
            return None;
        }
        let mut letters = [0; MAX_NAME_BYTES];
        letters[..text.len()].copy_from_slice(text);
        Some(Name {
            letters,
            count: text.len(),
        })
    }

    pub fn as_bytes(&self) -> &[u8]
        ensures same { result.now ≡ self.now }
        ensures a_name { IsTrue (is_name result.now) }
    {
        &self.letters[..self.count]
    }

    /// The same name. It takes no memory.
    pub fn copied(&self) -> Name
        ensures { result ≡ self.now }
    {
        Name {
            letters: self.letters,
            count: self.count,
        }
    }
}
