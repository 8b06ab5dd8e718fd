//! The signals of an instance in the design.

ghost use Rattle.std.specs.Prelude.{◌≡◌, ◌++◌, IfOk, OnOk, map};
ghost use Rattle.elab_items.specs.Rosters.{listing};
ghost use Rattle.elab_items.specs.Signals.{home, is_output, kind_in, low_of, path_in, signal_in, signals_in, width_of};

use crate::claims::Line;
use crate::reach::Reach;
use crate::roster::Listing;
use elab_scope::known::Role;
use rtl_flat::signal::{Kind, Signal};
use rtl_tree::tree::item::Direction;
use std::alloc::Global;
use text_ground::memory::Memory;
use text_ground::text::{Spot, Text};

/// The instance that signals belong to.
#[derive(Clone, Copy)]
pub struct Home<'a> {
    pub alloc: Global,
    /// The names of the instances on the way to it, with dots between them.
    pub path: &'a [u8],
    /// Its number, from 0.
    pub instance: u32,
    /// The file of its module.
    pub file: u32,
    pub is_top: bool,
}

impl Line {
    fn kind_in(self, is_top: bool) -> Kind
        ensures { result ≡ kind_in is_top self }
    {
        match (is_top, self.role()) {
            (true, Role::Input) => Kind::TopInput,
            (false, Role::Input) | (_, Role::Net) => Kind::Net,
            (_, Role::Variable) => Kind::Var,
        }
    }

    fn is_output(self, is_top: bool) -> bool
        ensures { result ≡ is_output is_top self.direction }
    {
        match (is_top, self.direction) {
            (true, Some(Direction::Output)) => true,
            _ => false,
        }
    }
}

impl Reach {
    /// The bits of a signal; one where its range is at fault.
    fn width(self) -> u8
        ensures { result ≡ width_of self }
    {
        match self {
            Reach::Scalar | Reach::Hidden => 1,
            Reach::Bits { width, .. } => width,
        }
    }

    /// The number of its least significant bit.
    fn low(self) -> u32
        ensures { result ≡ low_of self }
    {
        match self {
            Reach::Scalar | Reach::Hidden => 0,
            Reach::Bits { low, .. } => low,
        }
    }
}

/// The path of a signal: that of its instance, a dot and its name.
fn path_in(alloc: Global, instance: &[u8], name: &Text) -> Result<Text, Memory>
    ensures { IfOk result (λ path. path ≡ path_in instance.now name.now) }
{
    let mut path = Vec::from_slice(alloc, instance)?;
    path.push(b'.')?;
    path.extend_from_slice(name.as_bytes())?;
    Ok(Text::from_vec(path))
}

fn signal_in(at: Home<'_>, one: Listing<'_>) -> Result<Signal, Memory>
    ensures { IfOk result (λ signal. signal ≡ signal_in (home at.entry) (listing one.entry)) }
{
    let line = one.line;
    Ok(Signal {
        path: path_in(at.alloc, at.path, &one.name.text)?,
        width: line.reach.width(),
        signed: line.signed,
        low: line.reach.low(),
        kind: line.kind_in(at.is_top),
        top_output: line.is_output(at.is_top),
        instance: at.instance,
        spot: Spot {
            file: at.file,
            at: line.at,
        },
    })
}

/// The signals of an instance, behind those that are there.
pub fn push_signals(
    at: Home<'_>,
    listings: &[Listing<'_>],
    signals: &mut Vec<Signal>,
) -> Result<(), Memory>
    ensures { OnOk result (signals.new.items
        ≡ signals.old.items ++ signals_in (home at.entry) (map listing listings.now)) }
{
    for one in listings {
        let signal = signal_in(at, *one)?;
        signals.push(signal)?;
    }
    Ok(())
}
