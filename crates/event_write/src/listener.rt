//! Who hears a change of a signal.

ghost use Rattle.std.specs.Prelude.{◌≡◌, List, length};
ghost use Rattle.rtl_bits.specs.declared.Bit.{Bit};
ghost use Rattle.event_write.specs.Changes.{AreChanges};
ghost use Rattle.event_write.specs.Listeners.{hears_from};

use crate::changes::Changes;
use rtl_bits::Edge;
use rtl_flat::act::ProcId;

/// Processes that are sensitive to the same bits of a signal.
#[derive(Drop)]
pub struct Listener {
    pub processes: Vec<ProcId>,
    pub edge: Edge,
    /// The bits, each a digit.
    pub mask: u128,
}

impl Listener {
    /// Whether its processes hear changes of their signal.
    pub fn hears(&self, changes: Changes) -> bool
        ensures { (old new : List Bit) → length old ≡ length new → AreChanges old new changes
            → result ≡ hears_from self.now.edge self.now.mask 0 old new }
    {
        self.mask & changes.places(self.edge) != 0
    }
}
