// Texts that were met.
ghost use Rattle.std.specs.Prelude.{◌≡◌, ◌||◌, false, bytes_eq, IfOk, OnOk};
ghost use Rattle.desk_tables.specs.Seen.{key_of, seen};

use crate::ReplyRow;
use name_map::NameMap;
use std::alloc::Global;
use text_ground::memory::Memory;
use text_ground::text::Text;

// The texts that were met so far.
#[derive(Drop)]
pub(crate) struct Seen {
    texts: NameMap<()>,
}

impl Seen {
    pub(crate) fn new(alloc: Global) -> Seen
        ensures { seen result ≡ (λ _. false) }
    {
        Seen {
            texts: NameMap::new(alloc),
        }
    }

    pub(crate) fn has(&self, text: &Text) -> bool
        ensures { result ≡ seen self.now text.now }
    {
        self.texts.find(text).is_some()
    }

    pub(crate) fn add(&mut self, text: &Text) -> Result<(), Memory>
        ensures { OnOk result (seen self.new
            ≡ (λ other. bytes_eq text.now other || seen self.old other)) }
    {
        self.texts.put(text, ())?;
        Ok(())
    }
}

// What tells a request of a user from all others: the length of the user's name, the name, and the request's name.
pub(crate) fn reply_key(alloc: Global, row: &ReplyRow) -> Result<Text, Memory>
    ensures { IfOk result (λ key. key ≡ key_of row.now.user row.now.request) }
{
    let user = row.user.as_bytes();
    let mut key = Vec::new(alloc);
    key.push(user.len() as u8)?;
    key.extend_from_slice(user)?;
    key.extend_from_slice(row.request.as_bytes())?;
    Ok(Text::from_vec(key))
}
