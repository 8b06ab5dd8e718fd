//! The text that a fault carries, on one line.

ghost use Rattle.std.specs.Prelude.{◌≡◌, ◌++◌, OnOk, false};
ghost use Rattle.std.specs.Option.{option_map};
ghost use Rattle.desk_refusals.specs.Words.{on_one_line, shown, word_part};

use rtl_text::is_blank;
use text_ground::memory::Memory;

/// A byte as it is written: a printable one as it is.
fn shown(byte: u8) -> u8
    ensures { result ≡ shown byte }
{
    if b' ' < byte && byte < 127 {
        byte
    } else {
        b'?'
    }
}

/// Each run of blanks is one space, and each other byte that isn't printable a question mark.
fn push_text(text: &[u8], out: &mut Vec<u8>) -> Result<(), Memory>
    ensures { OnOk result (out.new.items ≡ out.old.items ++ on_one_line false text.now) }
{
    let mut behind = false;
    for byte in text {
        let blank = is_blank(*byte);
        if !blank {
            out.push(shown(*byte))?;
        } else if !behind {
            out.push(b' ')?;
        }
        behind = blank;
    }
    Ok(())
}

/// The text of a fault that carries one, behind a space.
pub fn push_word(word: Option<&[u8]>, out: &mut Vec<u8>) -> Result<(), Memory>
    ensures { OnOk result (out.new.items
        ≡ out.old.items ++ word_part (option_map (λ text. text.now) word.entry)) }
{
    let Some(text) = word else {
        return Ok(());
    };
    out.push(b' ')?;
    push_text(text, out)
}
