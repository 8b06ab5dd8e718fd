//! What the names of a module stand for in an instance, by the desk and by the standard.

ghost use Rattle.std.specs.Prelude.{◌≡◌};
ghost use Rattle.name_map.specs.Values.{values_of};
ghost use Rattle.rtl_const.specs.Constant.{constant};
ghost use Rattle.rtl_tree.specs.TreeExpr.{formula};
ghost use Rattle.elab_walk.specs.elab_scope.Names.{numbers_in};
ghost use Rattle.elab_walk.specs.elab_scope.Selects.{lsb_in, msb_in};
ghost use Rattle.elab_standard.specs.Reads.{read_by};
ghost use Rattle.elab_standard.specs.Scopes.{restated_name, scopes, turned};

use crate::standard::Standard;
use elab_walk::elab_scope::known::Known;
use elab_walk::elab_scope::names::Names;
use elab_walk::elab_scope::selects::{Ends, ends_of};
use name_map::NameMap;
use rtl_const::evaluate::constant;
use rtl_const::fault::ConstFault;
use rtl_tree::tree::expr::Expr;
use rtl_tree::tree::operators::PartKind;
use text_ground::text::Text;

/// What the names of a module stand for in an instance, and what its parameters are by the standard.
#[derive(Drop)]
pub struct Scopes {
    pub names: Names,
    pub standards: NameMap<Standard>,
}

/// By whom names are read.
#[derive(Clone, Copy, PartialEq, Eq, Debug)]
pub enum By {
    Desk,
    /// Parameters have their standard formats.
    Standard,
}

/// A parameter has the width and the sign that it has by the standard.
fn restated_name(known: Option<Known>, standard: Option<Standard>) -> Option<Known>
    ensures { result ≡ restated_name known standard }
{
    match (known, standard) {
        (Some(Known::Parameter { number, .. }), Some(standard)) => {
            Some(Known::Parameter {
                number,
                width: standard.width,
                signed: standard.signed,
            })
        }
        _ => known,
    }
}

impl Scopes {
    /// Gives an `integer` its number in a turn of its loop, or takes it away again. It takes no memory.
    pub fn set_index(&mut self, name: &Text, number: Option<i64>)
        ensures { scopes self.new ≡ turned (scopes self.old) name.now number }
    {
        self.names.set_index(name, number);
    }

    /// What the name stands for.
    pub(crate) fn find(&self, by: By, name: &Text) -> Option<Known>
        ensures { result ≡ read_by by (scopes self.now) name.now }
    {
        let known = self.names.find(name);
        match by {
            By::Desk => known,
            By::Standard => restated_name(known, self.standards.find(name)),
        }
    }

    /// The number that a constant expression has by the desk, whoever reads its names.
    pub(crate) fn number(&self, _by: By, e: &Expr) -> Result<i64, ConstFault>
        ensures { result ≡ constant (numbers_in (read_by _by (scopes self.now))) (formula e.now) }
    {
        constant(e, &self.names)
    }

    /// The ends of a select by the desk, whoever reads its names.
    pub(crate) fn ends(&self, _by: By, kind: PartKind, first: &Expr, second: &Expr) -> Ends
        ensures msb { result.msb ≡ msb_in (read_by _by (scopes self.now)) kind
            (formula first.now) (formula second.now) }
        ensures lsb { result.lsb ≡ lsb_in (read_by _by (scopes self.now)) kind
            (formula first.now) (formula second.now) }
    {
        ends_of(kind, first, second, &self.names)
    }
}
