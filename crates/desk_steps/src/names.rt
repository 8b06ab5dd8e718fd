//! The top inputs of a design by their names.

ghost use Rattle.std.specs.Prelude.{◌≡◌, IfOk, OnOk};
ghost use Rattle.desk_steps.specs.Names.{ahead, input_of, inputs_of, named, names_from, names_of, no_names, top_name, with_signal};

use crate::cut::behind;
use rtl_flat::design::Design;
use rtl_flat::expr::SigId;
use rtl_flat::instance::Instance;
use rtl_flat::signal::{Kind, Signal};
use std::alloc::Global;
use std::collections::BTreeMap;
use text_ground::memory::Memory;

/// An input of the top.
#[derive(Clone, Copy)]
pub(crate) struct Input {
    pub(crate) signal: SigId,
    pub(crate) width: u8,
}

/// The inputs of a design's top by their names.
#[derive(Drop)]
pub(crate) struct Names {
    alloc: Global,
    inputs: BTreeMap<Vec<u8>, Input>,
}

/// How many bytes of a path come before the name of a signal of the top.
fn ahead(instances: &[Instance]) -> usize
    ensures { result ≡ ahead instances.now }
{
    match instances.split_first() {
        None => 0,
        Some((top, _)) => top.path.as_bytes().len() + 1,
    }
}

/// The name of a signal of the top: its path behind that of its instance and a dot.
pub fn top_name<'a>(instances: &[Instance], signal: &'a Signal) -> &'a [u8]
    ensures { result.now ≡ top_name instances.now signal.now }
{
    behind(signal.path.as_bytes(), ahead(instances))
}

impl Names {
    fn new(alloc: Global) -> Names
        ensures { names_of result ≡ no_names }
    {
        Names {
            alloc,
            inputs: BTreeMap::new(alloc),
        }
    }

    fn put(&mut self, name: &[u8], input: Input) -> Result<(), Memory>
        ensures { OnOk result (names_of self.new ≡ named (names_of self.old) name.now input) }
    {
        let key = Vec::from_slice(self.alloc, name)?;
        self.inputs.insert(key, input)?;
        Ok(())
    }

    /// Adds a signal with this number, if it is an input.
    fn add(&mut self, skipped: usize, number: u32, signal: &Signal) -> Result<(), Memory>
        ensures { OnOk result (names_of self.new
            ≡ with_signal skipped number signal.now (names_of self.old)) }
    {
        match signal.kind {
            Kind::TopInput => {
                let input = Input {
                    signal: SigId(number),
                    width: signal.width,
                };
                self.put(behind(signal.path.as_bytes(), skipped), input)
            }
            Kind::Net | Kind::Var => Ok(()),
        }
    }

    /// The inputs of a design's top.
    pub(crate) fn of(alloc: Global, design: &Design) -> Result<Names, Memory>
        ensures { IfOk result (λ made. names_of made ≡ inputs_of design.now) }
    {
        let skipped = ahead(&design.instances);
        let mut made = Names::new(alloc);
        for number in (0..design.signals.len()).rev() {
            made.add(skipped, number as u32, &design.signals[number])?;
        }
        Ok(made)
    }

    /// The input with a name.
    pub(crate) fn find(&self, name: &[u8]) -> Option<Input>
        ensures { result ≡ names_of self.now name.now }
    {
        self.inputs.get(name).copied()
    }
}
