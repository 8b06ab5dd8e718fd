// The conditions that ask for names which nothing before them settles.

ghost use Rattle.std.specs.Prelude.{◌≡◌, ◌<◌, ◌≤◌, ◌+◌, ◌++◌, [], IfOk, OnOk};
ghost use Rattle.rtl_prep.specs.Conditions.{asks_from};
ghost use Rattle.rtl_prep.specs.Passes as spec;
ghost use Rattle.rtl_prep.specs.Passes.{all_seen, asking, seen};

use crate::conditions::Ask;
use crate::directive::Known;
use crate::names::Names;
use crate::notices::Notice;
use std::alloc::Global;
use std::collections::LinkedList;
use text_ground::memory::Memory;
use text_ground::text::Text;

/// What is known behind some directives.
#[derive(Drop)]
pub struct Asking<'a> {
    pub settled: Names<'a>,
    /// The numbers of the chains that are open, the innermost first.
    pub opened: LinkedList<usize>,
    /// How many chains began.
    pub begun: usize,
    pub asks: Vec<Ask>,
}

fn innermost(opened: &LinkedList<usize>) -> usize
    ensures { result ≡ spec.first opened.now }
{
    match opened.front() {
        Some(number) => *number,
        None => 0,
    }
}

impl<'a> Asking<'a> {
    fn chain_number(&self, known: Known) -> usize
        ensures { result ≡ spec.chain_number (asking self.now) known }
    {
        if known.is_opening() {
            self.begun
        } else {
            innermost(&self.opened)
        }
    }

    /// Asks, where a directive is a condition whose name isn't settled.
    fn ask(&mut self, alloc: Global, notice: Notice<'a>) -> Result<(), Memory>
        ensures asks { OnOk result (self.new.asks.items
            ≡ (asking self.old).asks ++ spec.asked_now (asking self.old) (seen notice.entry)) }
        ensures settled { self.new.settled ≡ self.old.settled }
        ensures opened { self.new.opened ≡ self.old.opened }
        ensures begun { self.new.begun ≡ self.old.begun }
    {
        if notice.known.is_condition() && notice.acts && !self.settled.contains(notice.name) {
            let chain = self.chain_number(notice.known);
            self.asks.push(Ask {
                at: notice.at,
                name: Text::from_bytes(alloc, notice.name)?,
                chain,
            })?;
        }
        Ok(())
    }

    /// Settles the name of a directive that gives or takes a macro.
    fn settle(&mut self, notice: Notice<'a>) -> Result<(), Memory>
        ensures settled { OnOk result (self.new.settled
            ≡ spec.settled_now self.old.settled (seen notice.entry)) }
        ensures asks { self.new.asks ≡ self.old.asks }
        ensures opened { self.new.opened ≡ self.old.opened }
        ensures begun { self.new.begun ≡ self.old.begun }
    {
        if notice.known.is_naming() && notice.acts {
            self.settled.insert(notice.name)?;
        }
        Ok(())
    }

    /// Opens or closes a chain.
    fn pass(&mut self, known: Known) -> Result<(), Memory>
        requires { self.old.begun < usize.MAX }
        ensures opened { OnOk result (self.new.opened
            ≡ spec.opened_now self.old.opened self.old.begun known) }
        ensures begun { OnOk result (self.new.begun ≡ spec.begun_now self.old.begun known) }
        ensures few { self.new.begun ≤ self.old.begun + 1 }
        ensures asks { self.new.asks ≡ self.old.asks }
        ensures settled { self.new.settled ≡ self.old.settled }
    {
        if known.is_opening() {
            self.opened.push_front(self.begun)?;
            self.begun += 1;
        } else if known.is_ending() {
            self.opened.pop_front();
        }
        Ok(())
    }

    #[tactic(auto, unfolding(crate::specs::Passes::asks_on))]
    fn take(&mut self, alloc: Global, notice: Notice<'a>) -> Result<(), Memory>
        requires { self.old.begun < usize.MAX }
        ensures step { OnOk result (asking self.new
            ≡ spec.asks_on (asking self.old) (seen notice.entry)) }
        ensures few { OnOk result (self.new.begun ≤ self.old.begun + 1) }
    {
        self.ask(alloc, notice)?;
        self.settle(notice)?;
        self.pass(notice.known)
    }
}

/// The conditions that ask, by their places.
pub fn asks<'a>(alloc: Global, notices: &[Notice<'a>]) -> Result<Vec<Ask>, Memory>
    ensures { IfOk result (λ made. made.items ≡ asks_from [] (all_seen notices.now)) }
{
    let mut asking = Asking {
        settled: Names::new(alloc),
        opened: LinkedList::new(alloc),
        begun: 0,
        asks: Vec::new(alloc),
    };
    for notice in notices {
        asking.take(alloc, *notice)?;
    }
    Ok(asking.asks)
}
