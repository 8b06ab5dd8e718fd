//! Demonstrations: the trial, the step and the signal at which a finding shows.

ghost use Rattle.std.specs.Prelude.{◌≡◌, ◌≢◌, ◌<◌, ◌≤◌, ◌++◌, ◌∷◌, [], true, ℕ, List, IfNone, IfSome, MatchOption, OnOk, codes, decimal};
ghost use Rattle.demo_trials.specs.Demos.{IsDemo, IsShown, demo_text, is_path, signal_text, step_text};

use crate::trial::{POWER_UP, STEPS, Trial};
use itoa::Buffer;
use text_ground::memory::Memory;

/// Where a finding shows.
#[derive(Clone, Copy)]
pub struct Demo<'t> {
    pub trial: Trial,
    /// From 1 to 16.
    pub step: u8,
    /// The path of the signal.
    pub path: &'t [u8],
}

impl<'t> Demo<'t> {
    /// Writes the one line of a demonstration behind other text: `trial T step K signal PATH`.
    pub fn write(&self, out: &mut Vec<u8>) -> Result<(), Memory>
        ensures { OnOk result (out.new.items
            ≡ out.old.items ++ demo_text self.now.trial.number self.now.step self.now.path.now) }
    {
        let mut digits = Buffer::new();
        out.extend_from_slice(b"trial ")?;
        out.extend_from_slice(digits.format(self.trial.number()).as_bytes())?;
        out.extend_from_slice(b" step ")?;
        out.extend_from_slice(digits.format(self.step).as_bytes())?;
        out.extend_from_slice(b" signal ")?;
        out.extend_from_slice(self.path)?;
        out.push(b'\n')?;
        Ok(())
    }
}

/// The demonstration that a text tells, in one line that a line feed ends. None where it tells none: numbers have no
/// leading zeros, there is one space between two words, and all behind the last one is the path.
pub fn read_demo(text: &[u8]) -> Option<Demo<'_>>
    ensures read { IfSome result (λ demo. text.now
        ≡ demo_text demo.trial.number demo.step demo.path.now) }
    ensures within { IfSome result (λ demo. IsDemo demo.trial.number demo.step demo.path.now) }
    ensures malformed { IfNone result ((trial step : ℕ) (path : List ℕ) → IsDemo trial step path
        → text.now ≢ demo_text trial step path) }
{
    let rest = behind(b"trial ", text)?;
    let (number, rest) = read_number(POWER_UP + 1, rest)?;
    let trial = Trial::new(number)?;
    let (step, path) = read_step(rest)?;
    Some(Demo { trial, step, path })
}

/// A step, and the path of a signal.
fn read_step(text: &[u8]) -> Option<(u8, &[u8])>
    ensures read { IfSome result (λ shown. text.now ≡ step_text shown.0 shown.1.now) }
    ensures within { IfSome result (λ shown. IsShown shown.0 shown.1.now) }
    ensures malformed { IfNone result ((step : ℕ) (path : List ℕ) → IsShown step path
        → text.now ≢ step_text step path) }
{
    let rest = behind(b"step ", text)?;
    let (step, rest) = read_number(STEPS + 1, rest)?;
    if step == 0 {
        return None;
    }
    let path = read_signal(rest)?;
    Some((step, path))
}

/// The path of a signal.
fn read_signal(text: &[u8]) -> Option<&[u8]>
    ensures read { IfSome result (λ path. text.now ≡ signal_text path.now) }
    ensures within { IfSome result (λ path. is_path path.now ≡ true) }
    ensures malformed { IfNone result ((path : List ℕ) → is_path path ≡ true
        → text.now ≢ signal_text path) }
{
    let rest = behind(b"signal ", text)?;
    read_path(rest)
}

/// A path that a line feed ends.
fn read_path(text: &[u8]) -> Option<&[u8]>
    ensures read { IfSome result (λ path. text.now ≡ path.now ++ codes "\n") }
    ensures within { IfSome result (λ path. is_path path.now ≡ true) }
    ensures malformed { IfNone result ((path : List ℕ) → is_path path ≡ true
        → text.now ≢ path ++ codes "\n") }
{
    let (last, path) = text.split_last()?;
    if *last == b'\n' && is_path(path) {
        Some(path)
    } else {
        None
    }
}

/// Whether a text is a path.
fn is_path(text: &[u8]) -> bool
    ensures { result ≡ is_path text.now }
{
    !text.is_empty() && !text.contains(&b'\n')
}

/// A number below a limit that a space ends, and what is behind it.
fn read_number(limit: u8, text: &[u8]) -> Option<(u8, &[u8])>
    ensures read { IfSome result (λ found. text.now
        ≡ decimal found.0 ++ (codes " " ++ found.1.now)) }
    ensures below { IfSome result (λ found. found.0 < limit) }
    ensures malformed { IfNone result ((number : ℕ) → number < limit → (rest : List ℕ)
        → text.now ≢ decimal number ++ (codes " " ++ rest)) }
{
    for number in 0..limit {
        if let Some(rest) = behind_number(number, text) {
            return Some((number, rest));
        }
    }
    None
}

/// What is behind a number and a space.
fn behind_number(number: u8, text: &[u8]) -> Option<&[u8]>
    ensures read { IfSome result (λ rest. text.now ≡ decimal number ++ (codes " " ++ rest.now)) }
    ensures malformed { IfNone result ((rest : List ℕ)
        → text.now ≢ decimal number ++ (codes " " ++ rest)) }
{
    let mut digits = Buffer::new();
    let rest = behind(digits.format(number).as_bytes(), text)?;
    behind(b" ", rest)
}

/// What is behind a text at the begin of another.
fn behind<'t>(head: &[u8], text: &'t [u8]) -> Option<&'t [u8]>
    ensures { MatchOption result ((rest : List ℕ) → text.now ≢ head.now ++ rest) (λ rest. text.now
        ≡ head.now ++ rest.now) }
{
    text.strip_prefix(head)
}
