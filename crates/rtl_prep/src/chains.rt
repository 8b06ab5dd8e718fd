// The chains of conditional text, by their ends.

ghost use Rattle.std.specs.Prelude.{◌≡◌, ◌++◌, ◌∷◌, [], IfOk, OnOk};
ghost use Rattle.rtl_prep.specs.Conditions as chain;
ghost use Rattle.rtl_prep.specs.Passes as spec;
ghost use Rattle.rtl_prep.specs.Passes.{all_seen, closing, seen};

use crate::conditions::Span;
use crate::notices::Notice;
use std::alloc::Global;
use std::collections::LinkedList;
use text_ground::memory::Memory;

/// The end of a chain.
#[derive(Clone, Copy, PartialEq, Eq, Debug)]
pub struct Close {
    pub to: u32,
    /// A `define` or `undef` stands before it.
    pub defines: bool,
}

/// What is known before some directives: they are passed from the last to the first, so that each chain's end is there when
/// its beginning comes.
#[derive(Drop)]
pub struct Closing {
    /// The ends of the chains that are open, the innermost first. A `define` is told to the innermost alone, which hands
    /// it on when its beginning comes.
    pub ends: LinkedList<Close>,
    /// The last first.
    pub chains: Vec<Span>,
}

/// From the first directive of a chain to its end.
fn span_to(from: u32, end: Option<Close>) -> Span
    ensures { result ≡ chain.span from end }
{
    match end {
        Some(close) => Span {
            from,
            to: close.to,
            defines: close.defines,
        },
        None => Span {
            from,
            to: from,
            defines: false,
        },
    }
}

/// Tells the innermost chain whether a `define` stands in it.
fn mark(ends: &mut LinkedList<Close>, defines: bool) -> Result<(), Memory>
    ensures { OnOk result (ends.new ≡ spec.marked defines ends.old) }
{
    if let Some(close) = ends.pop_front() {
        ends.push_front(Close {
            to: close.to,
            defines: defines || close.defines,
        })?;
    }
    Ok(())
}

impl Closing {
    /// Goes before the first directive of a chain.
    fn open(&mut self, at: u32) -> Result<(), Memory>
        ensures ends { OnOk result (self.new.ends ≡ spec.outer self.old.ends) }
        ensures chains { OnOk result (self.new.chains.items
            ≡ self.old.chains.items ++ chain.span at (spec.first_end self.old.ends) ∷ []) }
    {
        let end = self.ends.pop_front();
        self.chains.push(span_to(at, end))?;
        if let Some(close) = end {
            mark(&mut self.ends, close.defines)?;
        }
        Ok(())
    }

    #[tactic(auto, unfolding(crate::specs::Passes::closes_on))]
    fn take<'a>(&mut self, notice: Notice<'a>) -> Result<(), Memory>
        ensures { OnOk result (closing self.new ≡ spec.closes_on (closing self.old) (seen notice.entry)) }
    {
        if notice.known.is_opening() {
            self.open(notice.at)?;
        } else if notice.known.is_ending() {
            self.ends.push_front(Close {
                to: notice.at,
                defines: false,
            })?;
        } else {
            mark(&mut self.ends, notice.known.is_naming())?;
        }
        Ok(())
    }
}

/// The chains of a text, by their places.
pub fn chains<'a>(alloc: Global, notices: &[Notice<'a>]) -> Result<Vec<Span>, Memory>
    ensures { IfOk result (λ made. made.items ≡ chain.chains (all_seen notices.now)) }
{
    let mut closing = Closing {
        ends: LinkedList::new(alloc),
        chains: Vec::new(alloc),
    };
    let mut place = notices.len();
    while place > 0 {
        place -= 1;
        closing.take(notices[place])?;
    }
    closing.chains.reverse();
    Ok(closing.chains)
}
