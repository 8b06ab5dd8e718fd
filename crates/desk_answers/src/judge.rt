// What is said of a design.
ghost use Rattle.std.specs.Prelude.{IfOk};
ghost use Rattle.rtl_flat.specs.Flats.{DesignParts};
ghost use Rattle.rtl_flat.specs.Flats.{flat_in};

use rtl_flat::design::Design;
use std::alloc::Global;
use text_ground::memory::Memory;

/// What says something of each design.
pub trait Judge {
    /// What it says.
    type Said: Drop;

    /// What it may say of a design.
    ghost says: { DesignParts → Self.Said → Type 0 };

    /// What it says of a design.
    ///
    /// # Errors
    ///
    /// Memory ran out.
    fn judge(alloc: Global, design: &Design) -> Result<Self::Said, Memory>
        ensures { IfOk result (says (flat_in design.now)) };
}
