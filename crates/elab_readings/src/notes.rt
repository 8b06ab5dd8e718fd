//! Notes of places that other tools read otherwise.

ghost use Rattle.std.specs.Prelude.{◌≡◌};
ghost use Rattle.elab_readings.specs.Notes.{note_at};

use elab_uses::elab_standard::uses::Home;
use rtl_flat::expr::SigId;
use rtl_flat::note::{Note, Reading};
use text_ground::text::Spot;

/// One at a place of the text where an instance is at home.
pub(crate) fn note_at(reading: Reading, signal: Option<SigId>, home: Home, at: u32) -> Note
    ensures { result ≡ note_at reading signal home at }
{
    Note {
        reading,
        signal,
        instance: home.instance,
        spot: Spot {
            file: home.file,
            at,
        },
    }
}
