// Builds the modules of a whole text.

ghost use Rattle.std.specs.Prelude.{◌≡◌, ◌≤◌, [], All, List, Some, map, IfOk};
ghost use Rattle.text_grammar.specs.Depth.{depth};
ghost use Rattle.text_grammar.specs.GrammarModule.{AreSpelled};
ghost use Rattle.rtl_tree.specs.Symbols.{terminal};
ghost use Rattle.rtl_tree.specs.TreeModule.{WrittenCircuit, written_circuit};
ghost use Rattle.text_grammar.specs.declared.nesting.TheConstants.{MAX_NESTING};
ghost use Rattle.text_build.specs.Built.{IsBuilt, SpelledOnce};
ghost use Rattle.text_build.specs.ReadingModule.{circuits};

use crate::cursor::Cursor;
use crate::fault::BuildFault;
use crate::regions::Regions;
use rtl_tree::symbol::Terminal;
use rtl_tree::tree::modules::WrittenModule;
use std::alloc::Global;
use text_ground::dropped::Dropped;

/// The modules that the tokens of a text spell, with the regions that were dropped from it.
///
/// # Errors
///
/// `Memory` where memory runs out. Where the tokens spell modules and nothing in them is nested more than 200 deep,
/// there is no other error. Of other tokens no more is said than that all of them were read.
pub fn build(
    alloc: Global,
    tokens: &[Terminal],
    regions: &[Dropped],
) -> Result<Vec<WrittenModule>, BuildFault>
    ensures built { (cs : List WrittenCircuit) → AreSpelled regions.now (map terminal tokens.now) cs
        → All (λ c. depth c ≤ MAX_NESTING) cs → IsBuilt cs result }
    ensures read { IfOk result (λ modules.
        circuits MAX_NESTING regions.now (map terminal tokens.now)
        ≡ Some (map written_circuit modules.items, [])) }
{
    let mut cursor = Cursor {
        rest: tokens,
        alloc,
    };
    match cursor.modules(&Regions::new(regions)) {
        Ok(modules) => {
            if cursor.is_more() {
                return Err(BuildFault::NotSpelled);
            }
            Ok(modules)
        }
        Err(fault) => Err(fault),
    }
}

/// A law: no tokens spell two lists of modules.
pub fn spelled_once()
    ensures { SpelledOnce }
{}
