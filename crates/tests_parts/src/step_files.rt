//! Files of steps for a design.

use crate::stop::Stop;
use desk_steps::{Steps, StepsFault, read_steps};
use event_model::policy::Policy;
use event_model::setting::Setting;
use std::alloc::Global;
use tests_designs::designed;

fn policy(policy: Policy) -> u8 {
    match policy {
        Policy::Level => b'l',
        Policy::Ascending => b'a',
        Policy::Descending => b'd',
    }
}

/// A digit for the bit.
fn digit(known: bool, one: bool) -> u8 {
    if !known {
        b'x'
    } else if one {
        b'1'
    } else {
        b'0'
    }
}

/// A signal's number and its bits, the least significant first.
fn put_setting(alloc: Global, setting: &Setting, out: &mut Vec<u8>) -> Result<(), Stop> {
    let signal = format!(in alloc; " {}=", setting.signal.0)?;
    out.extend_from_slice(signal.as_bytes())?;
    let value = setting.value;
    for at in 0..value.width() {
        let bit = value.select(at, 1);
        let known = bit.is_known();
        out.push(digit(known, known && bit.number() == 1))?;
    }
    Ok(())
}

/// The order's letter, and for each step its settings.
fn shown(alloc: Global, read: &Steps) -> Result<Vec<u8>, Stop> {
    let mut out = Vec::new(alloc);
    out.push(policy(read.policy))?;
    for step in &read.steps {
        out.push(b'/')?;
        for setting in step {
            put_setting(alloc, setting, &mut out)?;
        }
    }
    Ok(out)
}

fn unread(alloc: Global, fault: StepsFault) -> Result<Vec<u8>, Stop> {
    match fault {
        StepsFault::Malformed(line) => Ok(format!(in alloc; "line {line}")?.into_bytes()),
        StepsFault::Memory => Err(Stop::Memory),
    }
}

/// What a file of steps asks for, or its first line that is none.
pub fn told(alloc: Global, top: &str, source: &[u8], text: &[u8]) -> Result<Vec<u8>, Stop> {
    let design = designed(alloc, top.as_bytes(), source)?;
    match read_steps(alloc, &design, text) {
        Ok(read) => shown(alloc, &read),
        Err(fault) => unread(alloc, fault),
    }
}

/// How many steps a file has, or its first line that is none.
pub fn count(alloc: Global, top: &str, source: &[u8], text: &[u8]) -> Result<Vec<u8>, Stop> {
    let design = designed(alloc, top.as_bytes(), source)?;
    match read_steps(alloc, &design, text) {
        Ok(read) => Ok(format!(in alloc; "{} steps\n", read.steps.len())?.into_bytes()),
        Err(fault) => unread(alloc, fault),
    }
}
