//! Numbers that a trial draws.

ghost use Rattle.std.specs.Prelude.{◌≡◌, ◌++◌, codes, decimal, length, take};
ghost use Rattle.std.specs.Int.{from_be_bytes, w128};
ghost use Rattle.sha2.specs.Sha256.{sha256};
ghost use Rattle.demo_trials.specs.Draws.{draw_text, drawn, leading_number};

use itoa::Buffer;
use sha2::{Digest, Sha256};

/// The number that a trial draws in a step for a path, or for a word.
pub(crate) fn drawn(trial: u8, step: u8, name: &[u8]) -> u128
    ensures { result ≡ drawn trial step name.now }
{
    leading_number(&digest_of(trial, step, name))
}

/// The digest of the trial, the step and the name, with slashes between them.
fn digest_of(trial: u8, step: u8, name: &[u8]) -> [u8; 32]
    ensures { result ≡ sha256 (draw_text trial step name.now) }
{
    let mut digits = Buffer::new();
    let mut hasher = Sha256::new();
    hasher.update(digits.format(trial).as_bytes());
    hasher.update(b"/".as_slice());
    hasher.update(digits.format(step).as_bytes());
    hasher.update(b"/".as_slice());
    hasher.update(name);
    hasher.finalize()
}

/// The number of the first 16 bytes, the most significant first.
fn leading_number(digest: &[u8; 32]) -> u128
    ensures { result ≡ leading_number digest.now }
{
    let mut leading = [0; 16];
    leading.copy_from_slice(&digest[..16]);
    u128::from_be_bytes(leading)
}
