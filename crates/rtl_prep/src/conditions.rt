// What the conditions of a file ask of others.

ghost use Rattle.std.specs.Prelude.{◌≡◌, []};

use std::alloc::Global;
use std::marker::Model;
use text_ground::text::Text;

/// A tested condition that asks for a name which no directive before it in its file settles.
#[derive(Drop)]
pub struct Ask {
    /// The place of its directive.
    pub at: u32,
    pub name: Text,
    /// The number of its chain, from 0.
    pub chain: usize,
}

/// From an `ifdef` or `ifndef` to its `endif`.
#[derive(Clone, Copy, PartialEq, Eq, Debug)]
pub struct Span {
    pub from: u32,
    pub to: u32,
    /// A `define` or `undef` stands in it, kept or not.
    pub defines: bool,
}

/// From a module's first token to its last.
#[derive(Clone, Copy, PartialEq, Eq, Debug)]
pub struct Extent {
    pub from: u32,
    pub to: u32,
}

/// What a file's conditions ask, and the macros that it has at its end.
#[derive(Drop)]
pub struct Conditions {
    asks: Vec<Ask>,
    chains: Vec<Span>,
    modules: Vec<Extent>,
    macros: Vec<Text>,
}

impl Model for Conditions {
    ghost use Rattle.rtl_prep.specs.Conditions.{FileConditions};

    ghost Value = { FileConditions };

    ghost view = { λ c. record { asks = c.asks.items; chains = c.chains.items; modules = c.modules.items; macros = c.macros.items } };
}

impl Conditions {
    /// Those of a file that asks nothing and has no macros, without memory.
    pub fn new(alloc: Global) -> Conditions
        ensures { result ≡ record { asks = []; chains = []; modules = []; macros = [] } }
    {
        Conditions {
            asks: Vec::new(alloc),
            chains: Vec::new(alloc),
            modules: Vec::new(alloc),
            macros: Vec::new(alloc),
        }
    }

    /// Puts the parts together, without memory.
    pub fn from_parts(
        asks: Vec<Ask>,
        chains: Vec<Span>,
        modules: Vec<Extent>,
        macros: Vec<Text>,
    ) -> Conditions
        ensures { result ≡ record {
          asks = asks.items;
          chains = chains.items;
          modules = modules.items;
          macros = macros.items;
        } }
    {
        Conditions {
            asks,
            chains,
            modules,
            macros,
        }
    }

    /// By their places.
    pub fn asks(&self) -> &[Ask]
        ensures { result.now ≡ self.now.asks }
    {
        self.asks.as_slice()
    }

    /// All chains of the file, by their places.
    pub fn chains(&self) -> &[Span]
        ensures { result.now ≡ self.now.chains }
    {
        self.chains.as_slice()
    }

    /// The modules of the file, in order, where a condition asks; else none.
    pub fn modules(&self) -> &[Extent]
        ensures { result.now ≡ self.now.modules }
    {
        self.modules.as_slice()
    }

    /// The names of the macros at the file's end, ascending, each once.
    pub fn macros(&self) -> &[Text]
        ensures { result.now ≡ self.now.macros }
    {
        self.macros.as_slice()
    }
}
