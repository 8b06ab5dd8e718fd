//! What synthesis makes of a design without findings of the first grade.

ghost use Rattle.rtl_flat.specs.Flats.{Parts};
ghost use Rattle.net_clean.specs.Netlist.{HardwareByRules};

/// Each process of it that waits for edges makes registers, no process without edges may write what a lower one may write,
/// and none of these feeds itself, be it over others. So `registers` and `blocks` tell no process of it, and `order` no
/// signal: where they fail, memory was wanting. And a simulator of its netlist is made of whatever known values.
pub fn hardware()
    ensures { (d : Parts) → HardwareByRules d }
{}
