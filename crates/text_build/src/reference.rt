// Names with what is selected of them, before they stand in an expression, a target or an event.

ghost use Rattle.std.specs.Prelude.{◌≡◌};
ghost use Rattle.std.specs.Option.{option_map};
ghost use Rattle.rtl_tree.specs.TreeExpr.{formula};
ghost use Rattle.rtl_tree.specs.TreeStmt.{target};
ghost use Rattle.rtl_tree.specs.TreeItem.{happening};
ghost use Rattle.text_build.specs.ReadingExpr.{read_of};
ghost use Rattle.text_build.specs.ReadingStmt.{target_of};
ghost use Rattle.text_build.specs.ReadingItem.{change_of};
ghost use Rattle.text_build.specs.References.{reference};

use rtl_tree::tree::expr::Expr;
use rtl_tree::tree::item::Event;
use rtl_tree::tree::names::Name;
use rtl_tree::tree::operators::PartKind;
use rtl_tree::tree::stmt::Lvalue;

/// A name, one bit of it, or a part of it.
#[derive(Drop)]
pub enum Reference {
    /// `name`
    Whole(Name),
    /// `name[index]`
    Bit(Name, Box<Expr>),
    /// `name[msb:lsb]`, `name[base +: width]` or `name[base -: width]`
    Part(Name, PartKind, Box<Expr>, Box<Expr>),
}

impl Reference {
    /// As an expression.
    pub(crate) fn into_expr(self) -> Expr
        ensures { formula result ≡ read_of (reference self) }
    {
        match self {
            Reference::Whole(name) => Expr::Read(name),
            Reference::Bit(name, index) => Expr::ReadBit(name, index),
            Reference::Part(name, kind, first, second) => {
                Expr::ReadPart(name, kind, first, second)
            }
        }
    }

    /// As the target of an assignment.
    pub(crate) fn into_target(self) -> Lvalue
        ensures { target result ≡ target_of (reference self) }
    {
        match self {
            Reference::Whole(name) => Lvalue::Whole(name),
            Reference::Bit(name, index) => Lvalue::Bit(name, Box::into_inner(index)),
            Reference::Part(name, kind, first, second) => {
                Lvalue::Part(name, kind, Box::into_inner(first), Box::into_inner(second))
            }
        }
    }

    /// As an event, in which a part stands with a colon alone.
    pub(crate) fn into_event(self) -> Option<Event>
        ensures { option_map happening result ≡ change_of (reference self) }
    {
        match self {
            Reference::Whole(name) => Some(Event::Whole(name)),
            Reference::Bit(name, index) => Some(Event::Bit(name, Box::into_inner(index))),
            Reference::Part(name, PartKind::Between, msb, lsb) => {
                Some(Event::Part(name, Box::into_inner(msb), Box::into_inner(lsb)))
            }
            Reference::Part(_, PartKind::Up | PartKind::Down, _, _) => None,
        }
    }
}

/// `name = value` in the head of a `for`.
#[derive(Drop)]
pub struct Step {
    pub name: Name,
    pub value: Box<Expr>,
}
