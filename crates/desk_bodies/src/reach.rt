// The body of the reply on a module's reach.
ghost use Rattle.std.specs.Prelude.{◌≡◌, ◌++◌, option_map, IfOk, OnOk};
ghost use Rattle.desk_bodies.specs.Bodies.{reach_text, truth_text, with_digest_or_null};

use crate::files::{push_count_or_null, push_digest};
use desk_json::push_bytes;
use desk_tables::Digest;
use std::alloc::Global;
use text_ground::memory::Memory;

#[tactic(auto, unfolding(crate::specs::Bodies::truth_text))]
fn truth_text(truth: bool) -> &'static [u8]
    ensures { result.now ≡ truth_text truth }
{
    if truth { b"true" } else { b"false" }
}

// Writes what leads to a digest, and the digest or `null`.
#[tactic(auto, unfolding(crate::specs::Bodies::with_digest_or_null))]
fn push_digest_or_null(
    out: &mut Vec<u8>,
    lead: &[u8],
    digest: Option<&Digest>,
) -> Result<(), Memory>
    ensures { OnOk result (out.new.items ≡ out.old.items
        ++ with_digest_or_null lead.now (option_map (λ it. it.now) digest.entry)) }
{
    match digest {
        Some(digest) => push_digest(out, lead, digest),
        None => {
            push_bytes(out, lead)?;
            push_bytes(out, b"null")
        }
    }
}

/// What is told of a module's reach: whether it is known what the rules say of it, the digest of its
/// files, and the number of the last sign-off of these.
#[tactic(auto, unfolding(crate::specs::Bodies::reach_text))]
pub fn reach_body(
    alloc: Global,
    current: bool,
    reach: Option<&Digest>,
    signoff: Option<u32>,
) -> Result<Vec<u8>, Memory>
    ensures { IfOk result (λ body.
        body.items ≡ reach_text current (option_map (λ it. it.now) reach.entry) signoff) }
{
    let mut out = Vec::new(alloc);
    push_bytes(&mut out, b"{\"current\":")?;
    push_bytes(&mut out, truth_text(current))?;
    push_digest_or_null(&mut out, b",\"reach\":", reach)?;
    push_count_or_null(&mut out, b",\"signoff\":", signoff)?;
    push_bytes(&mut out, b"}")?;
    Ok(out)
}
