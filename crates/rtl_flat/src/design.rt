//! The flat design.

ghost use Rattle.std.specs.Prelude.{map};
ghost use Rattle.rtl_flat.specs.Process.{task};
ghost use Rattle.rtl_flat.specs.WellFormed.{IsDesign};
ghost use Rattle.rtl_flat.specs.Propositions.{design_one};

use crate::act::Process;
use crate::expr::SigId;
use crate::instance::{Delay, DroppedRegion, Instance};
use crate::note::Note;
use crate::signal::{Signal, place};

/// All instances of a top module: what elaboration makes and everything behind it works on.
///
/// Signals and processes are numbered by instance in preorder; in a module its ports come first in
/// the order of its header, and the rest by place.
#[derive(Drop)]
pub struct Design {
    pub signals: Vec<Signal>,
    pub processes: Vec<Process>,
    pub instances: Vec<Instance>,
    pub dropped: Vec<DroppedRegion>,
    pub delays: Vec<Delay>,
    /// What other tools read otherwise; it has no part in what the design means.
    pub notes: Vec<Note>,
    pub ghost is_design: { IsDesign signals.items (map task processes.items) instances.items dropped.items delays.items } by { design_one signals.items (map task processes.items) instances.items dropped.items delays.items },
}

impl Design {
    ghost use Rattle.std.specs.Prelude.{◌≡◌, position};
    ghost use Rattle.std.specs.Option.{option_map};
    ghost use Rattle.std.specs.Str.{bytes_eq};

    /// The first signal with a path.
    ///
    /// It takes no memory and looks at the signals one after the other: who looks up many paths
    /// makes a map of them first.
    pub fn signal(&self, path: &str) -> Option<SigId>
        ensures { result ≡ option_map (λ at. record { 0 = at })
            (position (λ signal. bytes_eq signal.path path.now) self.now.signals.items) }
    {
        let at = place(&self.signals, path)?;
        Some(SigId(at as u32))
    }
}
