// What the rules say of a design.
ghost use Rattle.desk_verdict.specs.Verdicts.{IsVerdict};

use desk_answers::Judge;
use desk_verdict::Verdict;
use rtl_flat::design::Design;
use std::alloc::Global;
use text_ground::memory::Memory;

/// The rules, as a judge of designs.
pub(crate) enum Rules {}

impl Judge for Rules {
    type Said = Verdict;

    ghost says = { IsVerdict };

    fn judge(alloc: Global, design: &Design) -> Result<Verdict, Memory> {
        match Verdict::of(alloc, design) {
            Ok(verdict) => Ok(verdict),
            Err(error) => Err(error),
        }
    }
}
