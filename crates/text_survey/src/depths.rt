// How deep what was read is nested, and at which places.

ghost use Rattle.std.specs.Prelude.{◌≡◌, reverse, IfOk};
ghost use Rattle.text_survey.specs.Depths as spec;

use crate::task::{Taking, Task};
use std::alloc::Global;
use text_ground::memory::Memory;

/// The least places of the nodes of some trees, by depth: that of the roots is the last.
type Profile = Vec<u32>;

/// The depths of what was read and isn't yet part of something greater.
#[derive(Drop)]
pub struct Depths {
    alloc: Global,
    /// The places of the nodes that have begun.
    places: Vec<u32>,
    profiles: Vec<Profile>,
    /// Room of profiles that are done with: most last for a few tokens only.
    spare: Vec<Profile>,
}

/// The least places of the trees of two profiles, and room that serves again.
#[derive(Drop)]
struct Merged {
    profile: Profile,
    room: Profile,
    other_room: Profile,
}

/// The least places of the trees of both, in the time of the shallower one.
fn merge(room: Profile, a: Profile, b: Profile) -> Result<Merged, Memory>
    ensures { IfOk result (λ p. reverse p.profile.items
        ≡ spec.merged (reverse a.items) (reverse b.items)) }
{
    let (mut deeper, mut other) = if a.len() < b.len() { (b, a) } else { (a, b) };
    let mut both = room;
    both.clear();
    while let Some(place) = other.pop() {
        if let Some(at) = deeper.pop() {
            both.push(at.min(place))?;
        }
    }
    while let Some(place) = both.pop() {
        deeper.push(place)?;
    }
    Ok(Merged {
        profile: deeper,
        room: both,
        other_room: other,
    })
}

fn least(places: &[u32]) -> Option<u32>
    ensures { result ≡ spec.least_of places.now }
{
    let mut least: Option<u32> = None;
    for place in places {
        least = Some(match least {
            Some(other) => other.min(*place),
            None => *place,
        });
    }
    least
}

impl Depths {
    pub fn new(alloc: Global) -> Result<Depths, Memory>
        ensures { IfOk result (λ d. spec.IsKept d spec.none_read) }
    {
        let mut profiles = Vec::new(alloc);
        profiles.push(Vec::new(alloc))?;
        Ok(Depths {
            alloc,
            places: Vec::new(alloc),
            profiles,
            spare: Vec::new(alloc),
        })
    }

    /// Room for a profile.
    fn room(&mut self) -> Profile
        ensures places { self.new.places ≡ self.old.places }
        ensures profiles { self.new.profiles ≡ self.old.profiles }
    {
        match self.spare.pop() {
            Some(room) => room,
            None => Vec::new(self.alloc),
        }
    }

    /// Begins a node where one begins.
    pub fn begin(&mut self, taking: Taking, at: u32) -> Result<(), Memory>
        ensures { IfOk result (λ _. (s : spec.Depths) → spec.IsKept self.old s
            → spec.IsKept self.new (spec.begun taking at s)) }
    {
        match taking {
            Taking::Nothing | Taking::Token => {}
            Taking::Node | Taking::Ahead => {
                self.places.push(at)?;
                let mut profile = self.room();
                profile.clear();
                self.profiles.push(profile)?;
            }
            Taking::Operator => self.places.push(at)?,
        }
        Ok(())
    }

    fn wrap(&mut self) -> Result<(), Memory>
        ensures { IfOk result (λ _. (s : spec.Depths) → spec.IsKept self.old s
            → spec.IsKept self.new (spec.wrapped s.places s.top s.under)) }
    {
        if let Some(at) = self.places.pop() {
            if let Some(mut last) = self.profiles.pop() {
                last.push(at)?;
                self.profiles.push(last)?;
            }
        }
        Ok(())
    }

    /// Two profiles as one; their room serves again.
    fn merged(&mut self, one: Profile, other: Profile) -> Result<Profile, Memory>
        ensures merged { IfOk result (λ p. reverse p.items
            ≡ spec.merged (reverse one.items) (reverse other.items)) }
        ensures places { self.new.places ≡ self.old.places }
        ensures profiles { self.new.profiles ≡ self.old.profiles }
    {
        let room = self.room();
        let merged = merge(room, one, other)?;
        self.spare.push(merged.room)?;
        self.spare.push(merged.other_room)?;
        Ok(merged.profile)
    }

    fn join(&mut self) -> Result<(), Memory>
        ensures { IfOk result (λ _. (s : spec.Depths) → spec.IsKept self.old s
            → spec.IsKept self.new (spec.joined s.places s.top s.under)) }
    {
        let Some(last) = self.profiles.pop() else {
            return Ok(());
        };
        let Some(other) = self.profiles.pop() else {
            self.profiles.push(last)?;
            return Ok(());
        };
        let joined = self.merged(other, last)?;
        self.profiles.push(joined)?;
        Ok(())
    }

    fn forget(&mut self)
        ensures { (s : spec.Depths) → spec.IsKept self.old s
            → spec.IsKept self.new (spec.forgotten (spec.behind_place s.places) s.top s.under) }
    {
        let _place = self.places.pop();
        if self.profiles.len() > 1 {
            let _profile = self.profiles.pop();
        }
    }

    /// Does what a task says of depths.
    pub fn count(&mut self, task: Task) -> Result<(), Memory>
        ensures { IfOk result (λ _. (s : spec.Depths) → spec.IsKept self.old s
            → spec.IsKept self.new (spec.counted task s)) }
    {
        match task {
            Task::Wrap => self.wrap(),
            Task::Join => self.join(),
            Task::Forget => {
                self.forget();
                Ok(())
            }
            _ => Ok(()),
        }
    }

    /// The least place of what is nested deeper than this, in what was read last, which is taken away.
    pub fn deeper(&mut self, limit: usize) -> Option<u32>
        ensures { (s : spec.Depths) → spec.IsKept self.old s
            → result ≡ spec.least_of (spec.nest_deeper limit s.top) }
    {
        let profile = self.profiles.pop()?;
        let levels = profile.len().saturating_sub(limit);
        least(&profile[..levels])
    }
}
