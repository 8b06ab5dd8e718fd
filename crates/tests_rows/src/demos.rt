//! What is shown for findings, and why a demonstration shows nothing.

use crate::look::Stop;
use demo_replay::{Demo, ReplayFault, Shown, attach, attach_all, replay};
use desk_report::push_replay;
use rtl_flat::design::Design;
use rtl_flat::expr::SigId;
use rtl_rule::finding::Finding;
use rtl_rule::rule::rule_of;
use std::alloc::Global;
use text_ground::text::Spot;

/// A finding of the rule with a code on a signal.
fn finding(design: &Design, code: &str, path: &str) -> Result<Finding, Stop> {
    match rule_of(code.as_bytes()) {
        None => Err(Stop::NoRule),
        Some(rule) => Ok(Finding {
            rule,
            signal: design.signal(path),
            instance: 0,
            spot: Spot { file: 0, at: 0 },
        }),
    }
}

/// The findings of a list of codes and paths.
fn findings(alloc: Global, design: &Design, words: &[String]) -> Result<Vec<Finding>, Stop> {
    let mut findings = Vec::new(alloc);
    for pair in words.chunks(2) {
        let [code, path] = pair else {
            return Err(Stop::NoLook);
        };
        findings.push(finding(design, code, path)?)?;
    }
    Ok(findings)
}

/// Whether a demonstration that is run again shows the same.
fn is_shown_again(alloc: Global, design: &Design, demo: &Demo, shown: &Shown) -> bool {
    match replay(alloc, design, demo) {
        Ok(again) => {
            again.simulated.is_same(shown.simulated) && again.synthesised.is_same(shown.synthesised)
        }
        Err(_) => false,
    }
}

/// `trial T step K signal PATH simulated V synthesised W`, or `none`. It is shown again where its demonstration is run again.
fn put_line(
    alloc: Global,
    design: &Design,
    found: &Option<(Demo, Shown)>,
    out: &mut Vec<u8>,
) -> Result<(), Stop> {
    let Some((demo, shown)) = found else {
        out.extend_from_slice(b"none\n")?;
        return Ok(());
    };
    if !is_shown_again(alloc, design, demo, shown) {
        return Err(Stop::NotShown);
    }
    let Some(signal) = design.signals.get(demo.signal.0 as usize) else {
        return Err(Stop::NoSignal);
    };
    out.extend_from_slice(format!(in alloc; "trial {} ", demo.trial)?.as_bytes())?;
    push_replay(alloc, demo, signal.path.as_bytes(), shown, out)?;
    Ok(())
}

/// What is shown for a finding, or for several, for which each trial runs once.
pub fn shown(alloc: Global, design: &Design, words: &[String]) -> Result<Vec<u8>, Stop> {
    let findings = findings(alloc, design, words)?;
    let mut out = Vec::new(alloc);
    if let [one] = findings.as_slice() {
        put_line(alloc, design, &attach(alloc, design, one)?, &mut out)?;
        return Ok(out);
    }
    for found in &attach_all(alloc, design, &findings)? {
        put_line(alloc, design, found, &mut out)?;
    }
    Ok(out)
}

fn why(alloc: Global, fault: ReplayFault) -> Result<Vec<u8>, Stop> {
    let told = match fault {
        ReplayFault::Illegal(part) => format!(in alloc; "no such {part:?}\n")?,
        _ => format!(in alloc; "{fault}\n")?,
    };
    Ok(told.into_bytes())
}

/// Why the demonstration by the numbers of its trial, its step and its signal shows nothing.
pub fn replayed(alloc: Global, design: &Design, words: &[String]) -> Result<Vec<u8>, Stop> {
    let [trial, step, signal] = words else {
        return Err(Stop::NoLook);
    };
    let (Ok(trial), Ok(step), Ok(signal)) = (
        trial.parse::<u8>(),
        step.parse::<u8>(),
        signal.parse::<u32>(),
    ) else {
        return Err(Stop::NoLook);
    };
    let demo = Demo {
        trial,
        step,
        signal: SigId(signal),
    };
    match replay(alloc, design, &demo) {
        Ok(_) => Ok(Vec::from_slice(alloc, b"shown\n")?),
        Err(fault) => why(alloc, fault),
    }
}
