// What is known of a design before its processes are looked at.

ghost use Rattle.std.specs.Prelude.{IfOk};
ghost use Rattle.rtl_flat.specs.Flats.{flat};
ghost use Rattle.net_list.specs.check_chains.check_parts.Reads.{AreUnknowns};
ghost use Rattle.infer_regs.specs.Facts.{AreFacts};

use net_list::check_chains::check_parts::reads::unknowns;
use net_list::check_clocks::roles::{Roles, roles_of};
use net_list::check_gates::tops::tops_of;
use net_list::rtl_scan::temporaries;
use rtl_bits::Vec4;
use rtl_flat::design::Design;
use std::alloc::Global;
use text_ground::memory::Memory;

/// What rules about one process ask of all of them.
#[derive(Drop)]
pub(crate) struct Facts {
    /// The top inputs that each signal comes from.
    pub(crate) tops: Vec<Vec<u32>>,
    /// Which top inputs are clocks and resets.
    pub(crate) roles: Roles,
    /// Whether each signal is a temporary.
    pub(crate) temporaries: Vec<bool>,
    /// The values of all signals where every bit is x.
    pub(crate) unknowns: Vec<Vec4>,
}

impl Facts {
    pub(crate) fn of(alloc: Global, design: &Design) -> Result<Facts, Memory>
        ensures unknowns { IfOk result (λ facts.
            AreUnknowns (flat design.now) facts.unknowns.items) }
        ensures facts { IfOk result (λ facts.
            AreFacts (flat design.now) facts.tops.items facts.roles.clocks.items
            facts.roles.resets.items facts.temporaries.items) }
    {
        let tops = tops_of(alloc, design)?;
        let roles = roles_of(alloc, design, &tops)?;
        let temporaries = temporaries(alloc, design)?;
        let unknowns = unknowns(alloc, design)?;
        Ok(Facts {
            tops,
            roles,
            temporaries,
            unknowns,
        })
    }
}
