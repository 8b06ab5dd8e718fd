// Requests for a module's reach.
ghost use Rattle.std.specs.Prelude.{◌≡◌, IfOk};
ghost use Rattle.desk_tables.specs.Tables.{kept_of};
ghost use Rattle.desk_records.specs.Outcomes.{outcome};
ghost use Rattle.desk_rulings.specs.Reaches.{is_signed, last_signed, no_reach, reach_outcome};

use crate::signing::reach_of;
use desk_bodies::reach_body;
use desk_records::{Decision, json_answer};
use desk_tables::{Digest, SignOffRow, Tables};
use std::alloc::Global;
use text_ground::memory::Memory;
use text_ground::text::Text;

// Whether a sign-off is of a module whose files had this digest.
fn is_signed(row: &SignOffRow, top: &Text, reach: &Digest) -> bool
    ensures { result ≡ is_signed top.now reach.now row.now }
{
    row.top.as_bytes() == top.as_bytes() && row.reach.as_slice() == reach.as_slice()
}

// The number of the last such sign-off.
fn last_signed(rows: &[SignOffRow], top: &Text, reach: &Digest) -> Option<u32>
    ensures { result ≡ last_signed top.now reach.now rows.now }
{
    let mut found = None;
    for row in rows {
        if is_signed(row, top, reach) {
            found = Some(row.id);
        }
    }
    found
}

/// What is told of a module of which it is known what the rules say: the digest of the files of these
/// names, which it uses, and the number of the last sign-off of just these.
pub fn reach_outcome(
    alloc: Global,
    tables: &Tables,
    top: &Text,
    reached: &[Text],
) -> Result<Decision, Memory>
    ensures { IfOk result (λ made.
        outcome made ≡ reach_outcome top.now (kept_of tables.now) reached.now) }
{
    let reach = reach_of(alloc, &tables.files, reached)?;
    let signoff = last_signed(&tables.signoffs, top, &reach);
    let body = reach_body(alloc, true, Some(&reach), signoff)?;
    Ok(json_answer(body))
}

/// What is told of a module that has no design, or of which nothing is known.
pub fn no_reach(alloc: Global, current: bool) -> Result<Decision, Memory>
    ensures { IfOk result (λ made. outcome made ≡ no_reach current) }
{
    Ok(json_answer(reach_body(alloc, current, None, None)?))
}
