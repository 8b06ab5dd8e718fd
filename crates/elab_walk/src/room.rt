//! How far instances go towards the limits on the size of a design.

ghost use Rattle.std.specs.Prelude.{◌≡◌, ◌<◌};
ghost use Rattle.elab_walk.specs.Leavings.{behind, left_or, most_of};

use crate::places::Seek;
use elab_parts::elab_body::progress::Left;

/// The most signals of a design.
const SIGNALS: usize = 20_000;

/// What a design has before an instance, and what it may still have.
#[derive(Clone, Copy, PartialEq, Eq, Debug)]
pub struct Room {
    /// How many signals come before those of the instance.
    pub base: u16,
    /// How many instances come before it.
    pub number: u16,
    /// How many processes may still come.
    pub processes: u16,
    pub left: Left,
    /// How many parameters, `integer`s and dropped regions may still come.
    pub extras: u32,
}

/// How many processes may still come; none where one is found that is one too many.
fn most_of(seek: Seek) -> u16
    ensures { result ≡ most_of seek }
{
    match seek {
        Seek::Found(_) => 0,
        Seek::Left(most) => most,
    }
}

impl Room {
    /// The room behind an instance with so many signals, where so much is left of statements, delays, processes and
    /// extras.
    pub fn behind(self, signals: usize, left: Option<Left>, seek: Seek, spare: Option<u32>) -> Room
        requires { self.number < 20000 }
        ensures { result ≡ behind self signals left seek spare }
    {
        Room {
            base: self.base.saturating_add(signals.min(SIGNALS) as u16),
            number: self.number + 1,
            processes: most_of(seek),
            left: left.unwrap_or(self.left),
            extras: spare.unwrap_or(0),
        }
    }
}
