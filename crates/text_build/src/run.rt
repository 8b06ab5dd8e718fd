// Dropped regions that stand by place.

ghost use Rattle.std.specs.Prelude.{◌≡◌, ◌≤◌, ◌<◌, ◌++◌, length, get_or, take, ℕ};
ghost use Rattle.std.specs.List.{filter};
ghost use Rattle.std.specs.List.Sorted.{IsNonDecreasingBy};
ghost use Rattle.std.specs.Result.{OnOk, IsOkUnless};
ghost use Rattle.text_ground.specs.declared.dropped.Dropped.{Dropped};
ghost use Rattle.text_grammar.specs.GrammarModule.{is_between};
ghost use Rattle.text_build.specs.declared.fault.BuildFault.TheVariants.{Memory};

use crate::fault::BuildFault;
use text_ground::dropped::Dropped;

/// Whether a region begins neither before one place nor after another.
pub fn is_between(first: u32, last: u32, region: Dropped) -> bool
    ensures { result ≡ is_between first last region }
{
    first <= region.at && region.at <= last
}

/// Regions that stand by place.
#[derive(Clone, Copy)]
pub struct Run<'a> {
    pub regions: &'a [Dropped],
    ghost by_place: { IsNonDecreasingBy (λ region. region.at) regions.now },
}

impl<'a> Run<'a> {
    /// How many of the regions begin before a place.
    fn before(&self, place: u32) -> usize
        ensures bound { result ≤ length self.now.regions.now }
        ensures all { (k : ℕ) (d : Dropped) → k < result
            → (get_or self.now.regions.now k d).at < place }
    {
        let mut low = 0;
        let mut high = self.regions.len();
        while low < high {
            let middle = low + (high - low) / 2;
            if self.regions[middle].at < place {
                low = middle + 1;
            } else {
                high = middle;
            }
        }
        low
    }

    /// Adds the regions that begin neither before one place nor after another.
    pub(crate) fn add_between(
        &self,
        all: &mut Vec<Dropped>,
        first: u32,
        last: u32,
    ) -> Result<(), BuildFault>
        ensures added { OnOk result (all.new.items ≡ all.old.items
            ++ filter (is_between first last) self.now.regions.now) }
        ensures fault { IsOkUnless result Memory }
    {
        for region in &self.regions[self.before(first)..] {
            // So do those that follow it.
            if last < region.at {
                return Ok(());
            }
            if is_between(first, last, *region) {
                all.push(*region)?;
            }
        }
        Ok(())
    }
}

/// How many of the first regions stand by place.
fn run_len(regions: &[Dropped]) -> usize
    ensures bound { result ≤ length regions.now }
    ensures by_place { IsNonDecreasingBy (λ region. region.at) (take result regions.now) }
{
    for index in 1..regions.len() {
        if regions[index].at < regions[index - 1].at {
            return index;
        }
    }
    regions.len()
}

/// The longest run that begins a list of regions, and what follows it.
pub(crate) fn first_run(regions: &[Dropped]) -> (Run, &[Dropped])
    ensures { result.0.regions.now ++ result.1.now ≡ regions.now }
{
    let count = run_len(regions);
    let run = Run {
        regions: &regions[..count],
    };
    (run, &regions[count..])
}
