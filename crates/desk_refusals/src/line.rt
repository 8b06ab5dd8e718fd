//! The line of a refusal.

ghost use Rattle.std.specs.Prelude.{◌≡◌, ◌++◌, IfOk, IsSome, OnOk};
ghost use Rattle.std.specs.Option.{option_map};
ghost use Rattle.desk_places.specs.Places.{sources_of};
ghost use Rattle.desk_refusals.specs.Refusals.{line, notice, notice_line, place_part};

use crate::reason::Reason;
use crate::word::push_word;
use desk_places::sources::Sources;
use std::alloc::Global;
use text_ground::memory::Memory;
use text_ground::text::Spot;

fn push_spot(sources: &Sources<'_>, spot: Option<Spot>, out: &mut Vec<u8>) -> Result<(), Memory>
    ensures { OnOk result (out.new.items
        ≡ out.old.items ++ place_part (sources_of sources.now) spot) }
{
    let Some(spot) = spot else {
        return Ok(());
    };
    out.extend_from_slice(b" at ")?;
    sources.push_place(out, spot)
}

fn push_line(sources: &Sources<'_>, reason: Reason<'_>, out: &mut Vec<u8>) -> Result<(), Memory>
    ensures { OnOk result (out.new.items
        ≡ out.old.items ++ notice_line (sources_of sources.now) (notice reason.entry)) }
{
    out.extend_from_slice(b"refused ")?;
    out.extend_from_slice(reason.name)?;
    push_word(reason.word, out)?;
    push_spot(sources, reason.spot, out)?;
    out.push(b'\n')?;
    Ok(())
}

/// The line that tells a fault; `Err` where nothing is told, since memory ran out.
pub fn line(
    alloc: Global,
    sources: &Sources<'_>,
    reason: Option<Reason<'_>>,
) -> Result<Vec<u8>, Memory>
    ensures told { IfOk result (λ _. IsSome reason.entry) }
    ensures line { IfOk result (λ bytes. bytes.items
        ≡ line (sources_of sources.now) (option_map notice reason.entry)) }
{
    let Some(reason) = reason else {
        return Err(Memory);
    };
    let mut out = Vec::new(alloc);
    push_line(sources, reason, &mut out)?;
    Ok(out)
}
