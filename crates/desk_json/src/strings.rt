// JSON strings (RFC 8259, section 7).
ghost use Rattle.std.specs.Prelude.{◌≡◌, ◌<◌, ◌++◌, OnOk};
ghost use Rattle.std.specs.Char.{digit_char};
ghost use Rattle.json.specs.Print.{escape_byte, escape_letter, quoted};

use crate::values::push_bytes;
use text_ground::memory::Memory;

// The letter of a byte's short escape, and 0 where it has none.
fn escape_letter(byte: u8) -> u8
    ensures { result ≡ escape_letter byte }
{
    match byte {
        b'"' | b'\\' => byte,
        8 => b'b',
        12 => b'f',
        b'\n' => b'n',
        b'\r' => b'r',
        b'\t' => b't',
        _ => 0,
    }
}

fn digit_char(value: u8) -> u8
    requires { value < 16 }
    ensures { result ≡ digit_char value }
{
    if value < 10 {
        b'0' + value
    } else {
        b'a' + (value - 10)
    }
}

// Writes what stands for a byte in a string.
#[tactic(auto, unfolding(json::specs::Print::escape_byte))]
fn push_escaped(out: &mut Vec<u8>, byte: u8) -> Result<(), Memory>
    ensures { OnOk result (out.new.items ≡ out.old.items ++ escape_byte byte) }
{
    let letter = escape_letter(byte);
    if letter > 0 {
        return push_bytes(out, &[b'\\', letter]);
    }
    if byte < 32 {
        let digits = [digit_char(byte / 16), digit_char(byte % 16)];
        return push_bytes(out, &[b'\\', b'u', b'0', b'0', digits[0], digits[1]]);
    }
    push_bytes(out, &[byte])
}

/// Writes a text as a string, behind other text: in quotes, each `"`, `\` and control character by its shortest escape.
pub fn push_quoted(out: &mut Vec<u8>, text: &[u8]) -> Result<(), Memory>
    ensures { OnOk result (out.new.items ≡ out.old.items ++ quoted text.now) }
{
    push_bytes(out, b"\"")?;
    for byte in text {
        push_escaped(out, *byte)?;
    }
    push_bytes(out, b"\"")
}
