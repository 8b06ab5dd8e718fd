//! What the declarations of a module make together, name by name.

ghost use Rattle.std.specs.Prelude.{◌≡◌, ◌++◌, IfOk, OnOk, map};
ghost use Rattle.std.specs.Option.{option_map};
ghost use Rattle.rtl_tree.specs.TreeExpr.{identifier};
ghost use Rattle.elab_scope.specs.Faults.{after, refusal};
ghost use Rattle.elab_scope.specs.Names.{meanings, numbers_in};
ghost use Rattle.elab_items.specs.Claims.{all_claim_faults, all_claimed, all_direction_faults, claim_faults, claims_after, claims_in, direction_faults, directed_faults, listed_claim, listed_faults, no_course, outside_faults, plain_claim, plain_faults, reach_after, signal_claim, signal_faults, with_claim};
ghost use Rattle.elab_items.specs.Declarations.{declaration};

use crate::claims::{Claims, Line, Sense, judge_listed, judge_outside, judge_plain, judge_signal};
use crate::entries::{Entry, Form};
use crate::reach::{Reach, judge_range, reach_of};
use elab_scope::fault::{Cause, Fault};
use elab_scope::names::Names;
use rtl_tree::tree::names::Name;
use std::alloc::Global;
use text_ground::memory::Memory;

/// What is claimed of a module's names, and the fault that is told after those of the claims.
#[derive(Drop)]
pub struct Joined<'a> {
    pub claims: Claims,
    pub best: Option<Fault<'a>>,
}

/// The most bits of a signal.
const MOST: u8 = 128;

/// The range of the signals behind a declaration.
fn reach_after(entry: Entry<'_>, names: &Names, reach: Reach) -> Reach
    ensures { result ≡ reach_after (numbers_in (meanings names.now)) reach
        (declaration entry.entry) }
{
    match entry {
        Entry::SignalRange(range) => reach_of(MOST, range, names),
        Entry::ParameterRange(_)
        | Entry::Parameter(_, _, _)
        | Entry::Listed(_)
        | Entry::Signal { .. }
        | Entry::Integer(_)
        | Entry::Instance(_) => reach,
    }
}

/// A name in the head.
fn take_listed<'a>(
    name: &'a Name,
    claims: &mut Claims,
    best: Option<Fault<'a>>,
) -> Result<Option<Fault<'a>>, Memory>
    ensures claims { OnOk result (claims_in claims.new
        ≡ with_claim (claims_in claims.old) name.now.text
        (listed_claim (claims_in claims.old name.now.text))) }
    ensures told { IfOk result (λ told. option_map refusal told
        ≡ after (option_map refusal best.entry)
        (listed_faults (identifier name.now) (claims_in claims.old name.now.text).listed)) }
{
    let old = claims.find(&name.text);
    claims.put(&name.text, old.listed())?;
    Ok(judge_listed(name, old.listed, best))
}

/// A declaration of a signal.
#[tactic(auto, using(elab_scope::proofs::Least::after_append))]
fn take_signal<'a>(
    name: &'a Name,
    form: Form,
    line: Line,
    claims: &mut Claims,
    best: Option<Fault<'a>>,
) -> Result<Option<Fault<'a>>, Memory>
    ensures claims { OnOk result (claims_in claims.new
        ≡ with_claim (claims_in claims.old) name.now.text
        (signal_claim (claims_in claims.old name.now.text) form line)) }
    ensures told { IfOk result (λ told. option_map refusal told
        ≡ after (option_map refusal best.entry)
        (outside_faults (identifier name.now) form (claims_in claims.old name.now.text).listed
        ++ signal_faults (identifier name.now) (claims_in claims.old name.now.text).sense line)) }
{
    let old = claims.find(&name.text);
    claims.put(&name.text, old.with_signal(form, line))?;
    let best = judge_outside(name, form, old.listed, best);
    Ok(judge_signal(name, old.sense, line, best))
}

/// A declaration of what is no signal.
fn take_plain<'a>(
    name: &'a Name,
    own: Sense,
    claims: &mut Claims,
    best: Option<Fault<'a>>,
) -> Result<Option<Fault<'a>>, Memory>
    ensures claims { OnOk result (claims_in claims.new
        ≡ with_claim (claims_in claims.old) name.now.text
        (plain_claim own (claims_in claims.old name.now.text))) }
    ensures told { IfOk result (λ told. option_map refusal told
        ≡ after (option_map refusal best.entry)
        (plain_faults (identifier name.now) (claims_in claims.old name.now.text).sense)) }
{
    let old = claims.find(&name.text);
    claims.put(&name.text, old.with_plain(own))?;
    Ok(judge_plain(name, old.sense, best))
}

/// A declaration behind others: what is claimed after it, and its faults.
fn take_entry<'a>(
    entry: Entry<'a>,
    names: &Names,
    reach: Reach,
    claims: &mut Claims,
    best: Option<Fault<'a>>,
) -> Result<Option<Fault<'a>>, Memory>
    ensures claims { OnOk result (claims_in claims.new
        ≡ claims_after (claims_in claims.old) reach (declaration entry.entry)) }
    ensures told { IfOk result (λ told. option_map refusal told
        ≡ after (option_map refusal best.entry)
        (claim_faults (numbers_in (meanings names.now)) (claims_in claims.old) reach
        (declaration entry.entry))) }
{
    match entry {
        Entry::ParameterRange(_) => Ok(best),
        Entry::SignalRange(range) => Ok(judge_range(MOST, range, names, best)),
        Entry::Listed(name) => take_listed(name, claims, best),
        Entry::Signal { form, signed, name } => {
            let line = Line::new(form, signed, name.at, reach);
            take_signal(name, form, line, claims, best)
        }
        Entry::Parameter(_, name, _) => take_plain(name, Sense::Number, claims, best),
        Entry::Integer(name) => take_plain(name, Sense::Number, claims, best),
        Entry::Instance(name) => take_plain(name, Sense::Instance, claims, best),
    }
}

/// What all declarations make together, with the numbers of the whole module.
pub fn join<'a>(
    alloc: Global,
    entries: &[Entry<'a>],
    names: &Names,
    best: Option<Fault<'a>>,
) -> Result<Joined<'a>, Memory>
    ensures claims { IfOk result (λ made. claims_in made.claims
        ≡ (all_claimed (numbers_in (meanings names.now)) no_course
        (map declaration entries.now)).claims) }
    ensures best { IfOk result (λ made. option_map refusal made.best
        ≡ after (option_map refusal best.entry)
        (all_claim_faults (numbers_in (meanings names.now)) no_course
        (map declaration entries.now))) }
{
    let mut claims = Claims::new(alloc);
    let mut reach = Reach::Scalar;
    let mut best = best;
    for entry in entries {
        best = take_entry(*entry, names, reach, &mut claims, best)?;
        reach = reach_after(*entry, names, reach);
    }
    Ok(Joined { claims, best })
}

/// A name that the head leaves to the items has a direction there.
fn judge_direction<'a>(
    entry: Entry<'a>,
    claims: &Claims,
    best: Option<Fault<'a>>,
) -> Option<Fault<'a>>
    ensures { option_map refusal result
        ≡ after (option_map refusal best.entry)
        (direction_faults (claims_in claims.now) (declaration entry.entry)) }
{
    match entry {
        Entry::Listed(name) => judge_directed(name, claims.find(&name.text).directed, best),
        Entry::ParameterRange(_)
        | Entry::Parameter(_, _, _)
        | Entry::SignalRange(_)
        | Entry::Signal { .. }
        | Entry::Integer(_)
        | Entry::Instance(_) => best,
    }
}

fn judge_directed<'a>(name: &'a Name, directed: bool, best: Option<Fault<'a>>) -> Option<Fault<'a>>
    ensures { option_map refusal result
        ≡ after (option_map refusal best.entry) (directed_faults (identifier name.now) directed) }
{
    if directed {
        return best;
    }
    let cause = Cause::Undeclared(&name.text);
    Fault::keep(best, Fault { at: name.at, cause })
}

/// The names of the head that no item gives a direction.
#[tactic(auto, using(elab_scope::proofs::Least::after_append))]
pub(crate) fn judge_directions<'a>(
    entries: &[Entry<'a>],
    claims: &Claims,
    best: Option<Fault<'a>>,
) -> Option<Fault<'a>>
    ensures { option_map refusal result
        ≡ after (option_map refusal best.entry)
        (all_direction_faults (claims_in claims.now) (map declaration entries.now)) }
{
    let mut best = best;
    for entry in entries {
        best = judge_direction(*entry, claims, best);
    }
    best
}
