// What elaboration noted of the text.

ghost use Rattle.std.specs.Prelude.{◌≡◌, ◌++◌, OnOk, map};
ghost use Rattle.check_readings.specs.Readings.{comments, is_comment, note_at, rule_of};

use rtl_flat::instance::DroppedRegion;
use rtl_flat::note::{Note, Reading};
use rtl_rule::finding::Finding;
use rtl_rule::rule::Rule;
use text_ground::dropped::DropKind;
use text_ground::memory::Memory;

fn is_comment(kind: DropKind) -> bool
    ensures { result ≡ is_comment kind }
{
    match kind {
        DropKind::Comment => true,
        DropKind::Initial | DropKind::TranslateOff => false,
    }
}

/// Adds the findings of comments that are worded like pragmas and tell the desk nothing.
pub(crate) fn push_comments(
    dropped: &[DroppedRegion],
    found: &mut Vec<Finding>,
) -> Result<(), Memory>
    ensures { OnOk result (found.new.items ≡ found.old.items ++ comments dropped.now) }
{
    for region in dropped {
        if is_comment(region.kind) {
            found.push(Finding {
                rule: Rule::PragmaWords,
                signal: None,
                instance: region.instance,
                spot: region.spot,
            })?;
        }
    }
    Ok(())
}

/// The rule that a note is about.
fn rule_of(reading: Reading) -> Rule
    ensures { result ≡ rule_of reading }
{
    match reading {
        Reading::ParameterFormat => Rule::ParameterFormat,
        Reading::ConstantValue => Rule::ConstantValue,
        Reading::PortContext => Rule::PortContext,
        Reading::CaseSigns => Rule::CaseSigns,
        Reading::ToolMacro => Rule::ToolMacro,
        Reading::UnsizedNumber => Rule::UnsizedNumber,
        Reading::PortSign => Rule::PortSign,
        Reading::LateParameter => Rule::LateParameter,
        Reading::LoopSign => Rule::LoopSign,
    }
}

/// Adds the findings of notes.
pub(crate) fn push_notes(notes: &[Note], found: &mut Vec<Finding>) -> Result<(), Memory>
    ensures { OnOk result (found.new.items ≡ found.old.items ++ map note_at notes.now) }
{
    for note in notes {
        found.push(Finding {
            rule: rule_of(note.reading),
            signal: note.signal,
            instance: note.instance,
            spot: note.spot,
        })?;
    }
    Ok(())
}
