//! Why modules make no design.

ghost use Rattle.std.specs.Prelude.{◌≡◌, IfOk, IsSome};
ghost use Rattle.std.specs.Option.{option_map};
ghost use Rattle.elab_scope.specs.Faults.{answer};
ghost use Rattle.desk_places.specs.Places.{sources_of};
ghost use Rattle.desk_refusals.specs.Notices.{const_notice, design_notice};
ghost use Rattle.desk_refusals.specs.Refusals.{design_line, notice};

use crate::line::line;
use crate::reason::{Reason, alone, worded};
use desk_places::sources::Sources;
use elab_scope::fault::ElabFault;
use rtl_const::fault::ConstFault;
use std::alloc::Global;
use text_ground::memory::Memory;
use text_ground::text::Spot;

fn const_reason(fault: ConstFault, spot: Option<Spot>) -> Option<Reason<'static>>
    ensures { option_map notice result ≡ const_notice spot fault }
{
    match fault {
        ConstFault::NotConstant(_) => alone(b"NotConstant", spot),
        ConstFault::Overflow(_) => alone(b"Overflow", spot),
        ConstFault::DivideByZero(_) => alone(b"DivideByZero", spot),
        ConstFault::Memory => None,
    }
}

fn design_reason(fault: &ElabFault) -> Option<Reason<'_>>
    ensures { option_map notice result ≡ design_notice (answer fault.now) }
{
    match fault {
        ElabFault::NoSuchModule(name) => worded(b"NoSuchModule", name.as_slice(), None),
        ElabFault::ModuleTwice(name) => worded(b"ModuleTwice", name.as_slice(), None),
        ElabFault::Undeclared(name, spot) => worded(b"Undeclared", name.as_slice(), Some(*spot)),
        ElabFault::DeclaredTwice(name, spot) => {
            worded(b"DeclaredTwice", name.as_slice(), Some(*spot))
        }
        ElabFault::Width(spot) => alone(b"Width", Some(*spot)),
        ElabFault::Port(name, spot) => worded(b"Port", name.as_slice(), Some(*spot)),
        ElabFault::Parameter(name, spot) => worded(b"Parameter", name.as_slice(), Some(*spot)),
        ElabFault::NotAssignable(name, spot) => {
            worded(b"NotAssignable", name.as_slice(), Some(*spot))
        }
        ElabFault::Range(spot) => alone(b"Range", Some(*spot)),
        ElabFault::Const(fault, spot) => const_reason(*fault, Some(*spot)),
        ElabFault::Genvar(name, spot) => worded(b"Genvar", name.as_slice(), Some(*spot)),
        ElabFault::TooManyTurns(spot) => alone(b"TooManyTurns", Some(*spot)),
        ElabFault::InstanceLoop(name, spot) => {
            worded(b"InstanceLoop", name.as_slice(), Some(*spot))
        }
        ElabFault::TooLarge(spot) => alone(b"TooLarge", Some(*spot)),
        ElabFault::Memory => None,
    }
}

/// The line that says why modules make no design. An expression that has to be constant is told by its own fault's name.
///
/// # Errors
///
/// Memory ran out, here or in elaboration.
pub fn design_refusal(
    alloc: Global,
    sources: &Sources<'_>,
    fault: &ElabFault,
) -> Result<Vec<u8>, Memory>
    ensures told { IfOk result (λ _. IsSome (design_notice (answer fault.now))) }
    ensures line { IfOk result (λ line. line.items
        ≡ design_line (sources_of sources.now) (answer fault.now)) }
{
    line(alloc, sources, design_reason(fault))
}
