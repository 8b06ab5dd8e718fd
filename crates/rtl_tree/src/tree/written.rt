// The items of a module as they are written, with gates and generate constructs among them.

ghost use Rattle.std.specs.Prelude.{◌≡◌, map};
ghost use Rattle.std.specs.Option.{option_map};
ghost use Rattle.rtl_tree.specs.TreeExpr.{formula, identifier};
ghost use Rattle.rtl_tree.specs.TreeWritten.{Block, Case, Region, choice, choice_row, item_row, made, written_item};

use crate::tree::expr::Expr;
use crate::tree::gate::{Gate, GateDelay, GateKind};
use crate::tree::item::Item;
use crate::tree::names::Name;

/// An item of a module as it is written.
#[derive(Drop)]
#[cycle(written)]
pub enum WrittenItem {
    /// An item that stands for itself.
    Plain(Item),
    /// `kind delay gate, gate;`
    Gates {
        at: u32,
        kind: GateKind,
        delay: Option<GateDelay>,
        gates: Vec<Gate>,
    },
    /// `genvar name, name;`
    Genvars(u32, Vec<Name>),
    /// `generate items endgenerate`
    Region(u32, Vec<WrittenItem>),
    /// `if (condition) taken` without `else`
    If(u32, Expr, GenerateBlock),
    /// `if (condition) taken else otherwise`
    IfElse(u32, Expr, GenerateBlock, GenerateBlock),
    /// `case (selector) choices endcase`, at least one choice
    Case(u32, Expr, Vec<GenerateChoice>),
    /// `for (index = start; condition; stepped = step) body`
    For {
        at: u32,
        index: Name,
        start: Expr,
        condition: Expr,
        stepped: Name,
        step: Expr,
        body: GenerateBlock,
    },
}

impl WrittenItem {
    /// `generate items endgenerate`
    pub fn region(at: u32, items: Vec<WrittenItem>) -> WrittenItem
        ensures { written_item result ≡ Region at (item_row (map written_item items.items)) }
    {
        WrittenItem::Region(at, items)
    }

    /// `case (selector) choices endcase`
    pub fn case(at: u32, selector: Expr, choices: Vec<GenerateChoice>) -> WrittenItem
        ensures { written_item result ≡ Case at (formula selector)
            (choice_row (map choice choices.items)) }
    {
        WrittenItem::Case(at, selector, choices)
    }
}

/// What a generate construct makes (IEEE 1364-2001 section 12.1.3).
#[derive(Drop)]
#[cycle(written)]
pub enum GenerateBlock {
    /// `;`
    Null(u32),
    /// An item alone.
    Single(Box<WrittenItem>),
    /// `begin : label items end`
    Block(u32, Option<Name>, Vec<WrittenItem>),
}

impl GenerateBlock {
    /// `begin : label items end`
    pub fn block(at: u32, label: Option<Name>, items: Vec<WrittenItem>) -> GenerateBlock
        ensures { made result ≡ Block at (option_map identifier label)
            (item_row (map written_item items.items)) }
    {
        GenerateBlock::Block(at, label, items)
    }
}

/// A choice of a generate `case`.
#[derive(Drop)]
#[cycle(written)]
pub enum GenerateChoice {
    /// `label, label : body`, at least one label
    Labelled(Vec<Expr>, GenerateBlock),
    /// `default : body`
    Default(u32, GenerateBlock),
}
