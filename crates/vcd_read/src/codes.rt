//! The codes of variables.

ghost use Rattle.std.specs.Prelude.{◌≡◌, IfOk, OnOk};
ghost use Rattle.vcd_read.specs.Codes.{codes_of, named, no_codes, noted, shared};

use std::alloc::Global;
use std::collections::BTreeMap;
use text_ground::memory::Memory;

/// What is known of a code.
#[derive(Clone, Copy)]
pub(crate) struct Code {
    /// How many variables are declared up to the first that has the code.
    pub(crate) number: u32,
    /// The least width of its variables that are kept, or 0.
    pub(crate) width: u8,
}

/// The codes that are declared.
#[derive(Drop)]
pub(crate) struct Codes {
    alloc: Global,
    known: BTreeMap<Vec<u8>, Code>,
}

/// The least of two widths, where 0 is none.
fn shared(first: u8, second: u8) -> u8
    ensures { result ≡ shared first second }
{
    if first == 0 {
        second
    } else if second == 0 || first < second {
        first
    } else {
        second
    }
}

/// What is known of a code, with one more variable.
fn noted(known: Option<Code>, number: u32, width: u8) -> Code
    ensures { result ≡ noted known number width }
{
    match known {
        None => Code { number, width },
        Some(code) => Code {
            number: code.number,
            width: shared(code.width, width),
        },
    }
}

impl Codes {
    pub(crate) fn new(alloc: Global) -> Codes
        ensures { codes_of result ≡ no_codes }
    {
        Codes {
            alloc,
            known: BTreeMap::new(alloc),
        }
    }

    pub(crate) fn find(&self, text: &[u8]) -> Option<Code>
        ensures { result ≡ codes_of self.now text.now }
    {
        self.known.get(text).copied()
    }

    fn put(&mut self, text: &[u8], code: Code) -> Result<(), Memory>
        ensures { OnOk result (codes_of self.new ≡ named (codes_of self.old) text.now code) }
    {
        let key = Vec::from_slice(self.alloc, text)?;
        self.known.insert(key, code)?;
        Ok(())
    }

    /// Declares a variable with this code; the number is that of variables so far.
    pub(crate) fn note(&mut self, text: &[u8], number: u32, width: u8) -> Result<u32, Memory>
        ensures number { IfOk result (λ made. made ≡ (noted (codes_of self.old text.now) number width).number) }
        ensures known { OnOk result (codes_of self.new ≡ named (codes_of self.old) text.now
            (noted (codes_of self.old text.now) number width)) }
    {
        let code = noted(self.find(text), number, width);
        self.put(text, code)?;
        Ok(code.number)
    }
}
