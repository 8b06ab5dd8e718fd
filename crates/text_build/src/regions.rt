// The regions that were dropped from a text, so that those of a module are found without going through all.

ghost use Rattle.std.specs.Prelude.{◌≡◌, []};
ghost use Rattle.std.specs.List.{filter};
ghost use Rattle.text_grammar.specs.GrammarModule.{is_between};
ghost use Rattle.text_build.specs.Reading as generic;
ghost use Rattle.text_build.specs.Reading.{Reads};
ghost use Rattle.text_build.specs.Told.{told};

use crate::fault::BuildFault;
use crate::run::{Run, first_run, is_between};
use std::alloc::Global;
use text_ground::dropped::Dropped;

/// All regions of a text. Preparation tells first those between pragmas, then the `initial` constructs, then the comments that
/// tell nothing, each by place.
#[derive(Clone, Copy)]
pub struct Regions<'a> {
    pub front: Run<'a>,
    pub middle: Run<'a>,
    pub back: Run<'a>,
    /// In any order: none, where preparation told them.
    pub rest: &'a [Dropped],
}

impl<'a> Regions<'a> {
    /// The regions of a list.
    pub fn new(regions: &'a [Dropped]) -> Regions<'a>
        ensures { told result ≡ regions.now }
    {
        let (front, others) = first_run(regions);
        let (middle, others) = first_run(others);
        let (back, rest) = first_run(others);
        Regions {
            front,
            middle,
            back,
            rest,
        }
    }

    /// The regions that begin neither before one place nor after another.
    pub fn between(&self, alloc: Global, first: u32, last: u32) -> Result<Vec<Dropped>, BuildFault>
        ensures { Reads (λ all. all.items)
            (generic.pure (filter (is_between first last) (told self.now)) []) result [] }
    {
        let mut all = Vec::new(alloc);
        self.front.add_between(&mut all, first, last)?;
        self.middle.add_between(&mut all, first, last)?;
        self.back.add_between(&mut all, first, last)?;
        for region in self.rest {
            if is_between(first, last, *region) {
                all.push(*region)?;
            }
        }
        Ok(all)
    }
}
