//! A demonstration file.

ghost use Rattle.std.specs.Prelude.{◌≡◌, ◌++◌, position, IfErr, IfOk};
ghost use Rattle.std.specs.Option.{option_map};
ghost use Rattle.std.specs.Str.{bytes_eq};
ghost use Rattle.desk_demo.specs.Files.{IsFirstLine, IsMalformed, IsTold};

use demo_told::Demo;
use demo_trials::read_demo;
use rtl_flat::design::Design;
use rtl_flat::expr::SigId;
use rtl_flat::signal::Signal;

/// A file that is no demonstration of a design.
#[derive(Clone, Copy)]
pub enum Malformed {
    /// Its first line is none, or names no signal of the design.
    First,
    /// Its first line is the one of this demonstration, and something stands behind it.
    More(Demo),
}

/// The demonstration that a file tells of a design: one line, `trial T step K signal PATH`, that a
/// line feed ends.
pub fn read_file(design: &Design, text: &[u8]) -> Result<Demo, Malformed>
    ensures told { IfOk result (IsTold design.now.signals.items text.now) }
    ensures malformed { IfErr result (IsMalformed design.now.signals.items text.now) }
{
    let (line, rest) = split_line(text);
    let Some(told) = read_demo(line) else {
        return Err(Malformed::First);
    };
    let Some(signal) = signal_of(design, told.path) else {
        return Err(Malformed::First);
    };
    let demo = Demo {
        trial: told.trial.number(),
        step: told.step,
        signal,
    };
    if !rest.is_empty() {
        return Err(Malformed::More(demo));
    }
    Ok(demo)
}

/// The first line with the line feed that ends it, and what is behind it.
#[tactic(auto, using(crate::proofs::Feeds::more_free))]
fn split_line(text: &[u8]) -> (&[u8], &[u8])
    ensures whole { text.now ≡ result.0.now ++ result.1.now }
    ensures first { IsFirstLine text.now result.0.now result.1.now }
{
    for (at, byte) in text.iter().enumerate() {
        if *byte == b'\n' {
            return text.split_at(at + 1);
        }
    }
    (text, b"")
}

/// The place of the first signal with a path.
fn place_of(signals: &[Signal], path: &[u8]) -> Option<usize>
    ensures { result ≡ position (λ signal. bytes_eq signal.path path.now) signals.now }
{
    signals
        .iter()
        .position(|signal| signal.path.as_bytes() == path)
}

/// The first signal with a path.
fn signal_of(design: &Design, path: &[u8]) -> Option<SigId>
    ensures { result ≡ option_map (λ at. record { 0 = at })
        (position (λ signal. bytes_eq signal.path path.now) design.now.signals.items) }
{
    let at = place_of(&design.signals, path)?;
    Some(SigId(at as u32))
}
