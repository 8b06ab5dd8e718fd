//! Notes of expressions.

ghost use Rattle.std.specs.Prelude.{◌≡◌, ◌++◌, OnOk};
ghost use Rattle.rtl_tree.specs.TreeExpr.{formula};
ghost use Rattle.elab_standard.specs.Notes.{bare, note_at, note_if, root_place};

use crate::uses::Home;
use rtl_flat::note::{Note, Reading};
use rtl_tree::tree::expr::Expr;
use text_ground::memory::Memory;
use text_ground::text::Spot;

/// The expression without its parentheses.
pub(crate) fn bare(e: &Expr) -> &Expr
    ensures { formula result.now ≡ bare (formula e.now) }
{
    match e {
        Expr::Parens(_, inner) => bare(inner),
        _ => e,
    }
}

/// The place of an expression without its parentheses.
pub(crate) fn root_place(e: &Expr) -> u32
    ensures { result ≡ root_place (formula e.now) }
{
    bare(e).place()
}

fn note_at(home: Home, reading: Reading, at: u32) -> Note
    ensures { result ≡ note_at home reading at }
{
    Note {
        reading,
        signal: None,
        instance: home.instance,
        spot: Spot {
            file: home.file,
            at,
        },
    }
}

/// Adds a note where a rule is broken.
pub(crate) fn push_if(
    broken: bool,
    home: Home,
    reading: Reading,
    at: u32,
    made: &mut Vec<Note>,
) -> Result<(), Memory>
    ensures { OnOk result (made.new.items ≡ made.old.items ++ note_if broken home reading at) }
{
    if broken {
        made.push(note_at(home, reading, at))?;
    }
    Ok(())
}
