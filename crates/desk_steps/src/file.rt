//! A file of steps.

ghost use Rattle.std.specs.Prelude.{◌≡◌, ◌≤◌, ◌+◌, IfOk, IfErr, Ok, map};
ghost use Rattle.std.specs.List.{All};
ghost use Rattle.desk_steps.specs.Files.{IsTold};
ghost use Rattle.desk_steps.specs.Fitting.{AreFitting};
ghost use Rattle.desk_steps.specs.Lines.{lines};
ghost use Rattle.desk_steps.specs.Names.{inputs_of, names_of};
ghost use Rattle.desk_steps.specs.Steps.{file_of, policy_of, step, steps, steps_from, under};
ghost use Rattle.desk_steps.specs.declared.file.StepsFault.TheVariants.{Memory as NoMemory};

use crate::cut::next_line;
use crate::line::read_line;
use crate::names::Names;
use event_model::policy::Policy;
use event_model::setting::Setting;
use rtl_flat::design::Design;
use std::alloc::{AllocFailed, Global};
use text_ground::memory::Memory;
use thiserror::Error;

/// The most lines of a file.
const MOST: u32 = 10_000;

/// What a file asks for.
#[derive(Drop)]
pub struct Steps {
    pub policy: Policy,
    /// The inputs that each step sets, in the order of the line.
    pub steps: Vec<Vec<Setting>>,
}

/// Why a file is none of steps.
#[derive(Clone, Copy, PartialEq, Eq, Debug, Error)]
pub enum StepsFault {
    /// The first line that is no step, from 1.
    #[error("malformed line {0}")]
    Malformed(u32),
    #[error("out of memory")]
    Memory,
}

impl From<Memory> for StepsFault {
    ghost from_gives = { λ _ fault. fault ≡ NoMemory };

    fn from(_error: Memory) -> StepsFault {
        StepsFault::Memory
    }
}

impl<T: Drop> From<AllocFailed<T>> for StepsFault {
    ghost from_gives = { λ _ fault. fault ≡ NoMemory };

    fn from(_error: AllocFailed<T>) -> StepsFault {
        StepsFault::Memory
    }
}

/// The order that a line asks for.
fn policy_of(line: &[u8]) -> Option<Policy>
    ensures { result ≡ policy_of line.now }
{
    if line == b"policy level".as_slice() {
        Some(Policy::Level)
    } else if line == b"policy ascending".as_slice() {
        Some(Policy::Ascending)
    } else if line == b"policy descending".as_slice() {
        Some(Policy::Descending)
    } else {
        None
    }
}

/// The steps of the lines of a text, behind so many others.
fn read_lines(
    alloc: Global,
    names: &Names,
    text: &[u8],
    before: u32,
) -> Result<Vec<Vec<Setting>>, StepsFault>
    requires { before ≤ 1 }
    ensures read { IfOk result (λ made. steps_from (names_of names.now) before (lines text.now)
        ≡ Ok (map step made.items)) }
    ensures malformed { IfErr result
        (λ fault. IsTold fault (steps_from (names_of names.now) before (lines text.now))) }
{
    let mut steps = Vec::new(alloc);
    let mut number = before;
    let mut rest = text;
    while !rest.is_empty() {
        let (line, behind) = next_line(rest);
        if number >= MOST {
            return Err(StepsFault::Malformed(number + 1));
        }
        number += 1;
        match read_line(alloc, names, line)? {
            None => return Err(StepsFault::Malformed(number)),
            Some(step) => steps.push(step)?,
        }
        rest = behind;
    }
    Ok(steps)
}

fn read_from(
    alloc: Global,
    names: &Names,
    policy: Policy,
    text: &[u8],
    before: u32,
) -> Result<Steps, StepsFault>
    requires { before ≤ 1 }
    ensures read { IfOk result (λ made.
        under policy (steps_from (names_of names.now) before (lines text.now)) ≡ Ok (steps made)) }
    ensures malformed { IfErr result
        (λ fault. IsTold fault (under policy
        (steps_from (names_of names.now) before (lines text.now)))) }
{
    let steps = read_lines(alloc, names, text, before)?;
    Ok(Steps { policy, steps })
}

/// The steps of a file for inputs with these names.
fn read_with(alloc: Global, names: &Names, text: &[u8]) -> Result<Steps, StepsFault>
    ensures read { IfOk result (λ made. file_of (names_of names.now) text.now ≡ Ok (steps made)) }
    ensures malformed { IfErr result
        (λ fault. IsTold fault (file_of (names_of names.now) text.now)) }
{
    if text.is_empty() {
        return Ok(Steps {
            policy: Policy::Level,
            steps: Vec::new(alloc),
        });
    }
    let (first, behind) = next_line(text);
    match policy_of(first) {
        None => read_from(alloc, names, Policy::Level, text, 0),
        Some(policy) => read_from(alloc, names, policy, behind, 1),
    }
}

/// The steps of a file for a design: an optional first line that asks for an order, and then one step a line. Each value
/// is that of a top input, and has its width.
///
/// Malformed comes exactly where some line is none of these, with the number of the first, or where there are more than
/// 10,000 lines.
pub fn read_steps(alloc: Global, design: &Design, text: &[u8]) -> Result<Steps, StepsFault>
    ensures read { IfOk result (λ made. file_of (inputs_of design.now) text.now ≡ Ok (steps made)) }
    ensures fitting { IfOk result (λ made.
        All (λ step. AreFitting design.now.signals.items step.items) made.steps.items) }
    ensures malformed { IfErr result
        (λ fault. IsTold fault (file_of (inputs_of design.now) text.now)) }
{
    let names = Names::of(alloc, design)?;
    read_with(alloc, &names, text)
}
