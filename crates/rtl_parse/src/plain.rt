// The modules of a text as elaboration reads them.

ghost use Rattle.std.specs.Prelude.{◌≡◌, None, map, IfErr, IfOk};
ghost use Rattle.std.specs.Option.{option_map};
ghost use Rattle.rtl_tree.specs.TreeModule.{circuit, construct, written_circuit};
ghost use Rattle.rtl_tree.specs.TreeWritten.{written_item};
ghost use Rattle.rtl_unroll.specs.Plain.{plain_circuit};
ghost use Rattle.rtl_parse.specs.Parses.{IsHeld, construct_place, construct_word, first_construct};

use crate::fault::ParseFault;
use rtl_tree::tree::modules::{Construct, Module, WrittenModule};
use rtl_tree::tree::written::WrittenItem;
use rtl_unroll::plain;
use std::alloc::Global;
use text_ground::memory::Memory;

/// Modules with assignments in place of their gates.
fn all_plain(alloc: Global, written: Vec<WrittenModule>) -> Result<Vec<Module>, Memory>
    ensures { IfOk result (λ made. map circuit made.items
        ≡ map plain_circuit (map written_circuit written.items)) }
{
    let mut made = Vec::new(alloc);
    for module in written {
        made.push(plain(alloc, module)?)?;
    }
    Ok(made)
}

/// The first construct of the first module that has one.
fn first_construct(modules: &[Module]) -> Option<&Construct>
    ensures { option_map (λ first. construct first.now) result
        ≡ first_construct (map circuit modules.now) }
{
    for module in modules {
        if let Some(first) = module.constructs.first() {
            return Some(first);
        }
    }
    None
}

/// The word that a construct begins with.
fn construct_word(written: &WrittenItem) -> &'static [u8]
    ensures { result.now ≡ construct_word (written_item written.now) }
{
    match written {
        WrittenItem::Genvars(_, _) => b"genvar",
        WrittenItem::If(_, _, _) | WrittenItem::IfElse(_, _, _, _) => b"if",
        WrittenItem::Case(_, _, _) => b"case",
        WrittenItem::For { .. } => b"for",
        WrittenItem::Plain(_) | WrittenItem::Gates { .. } | WrittenItem::Region(_, _) => b"",
    }
}

/// The place of that word.
fn construct_place(written: &WrittenItem) -> u32
    ensures { result ≡ construct_place (written_item written.now) }
{
    match written {
        WrittenItem::Genvars(at, _)
        | WrittenItem::If(at, _, _)
        | WrittenItem::IfElse(at, _, _, _)
        | WrittenItem::Case(at, _, _)
        | WrittenItem::For { at, .. } => *at,
        WrittenItem::Plain(_) | WrittenItem::Gates { .. } | WrittenItem::Region(_, _) => 0,
    }
}

/// Modules with assignments in place of their gates, where none has a construct.
///
/// # Errors
///
/// `Refused` with the word and the place of the first construct; `Memory` where memory runs out.
pub fn followed(alloc: Global, written: Vec<WrittenModule>) -> Result<Vec<Module>, ParseFault>
    ensures plain { IfOk result (λ made. map circuit made.items
        ≡ map plain_circuit (map written_circuit written.items)) }
    ensures followed { IfOk result (λ made. first_construct (map circuit made.items) ≡ None) }
    ensures held { IfErr result (λ fault.
        IsHeld (map plain_circuit (map written_circuit written.items)) fault) }
{
    let modules = all_plain(alloc, written)?;
    if let Some(first) = first_construct(&modules) {
        let word = Vec::from_slice(alloc, construct_word(&first.written))?;
        return Err(ParseFault::Refused(word, construct_place(&first.written)));
    }
    Ok(modules)
}
