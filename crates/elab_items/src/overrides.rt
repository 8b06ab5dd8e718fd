//! What instances set parameters to, and what parameters are.

ghost use Rattle.std.specs.Prelude.{◌≡◌, ◌≤◌, OnErr, OnOk};
ghost use Rattle.rtl_tree.specs.TreeExpr.{formula};
ghost use Rattle.elab_items.specs.Settings.{format_of, given_to, literal_format, no_settings, parameter_of, settings_of, signed_in_32, unranged, unsigned_in, value_of, with_setting};

use crate::reach::Reach;
use elab_scope::known::Known;
use elab_scope::widths::breadth_of;
use name_map::NameMap;
use rtl_const::evaluate::constant;
use rtl_const::params::Lookup;
use rtl_tree::literal::Literal;
use rtl_tree::tree::expr::Expr;
use rtl_tree::tree::item::ParameterKind;
use std::alloc::Global;
use text_ground::memory::Memory;
use text_ground::text::Text;

/// The width and the sign of a sized literal.
#[derive(Clone, Copy, PartialEq, Eq, Debug)]
pub struct Format {
    pub width: u8,
    pub signed: bool,
}

/// What a parameter is set to.
#[derive(Clone, Copy, PartialEq, Eq, Debug)]
pub struct Override {
    /// None where a fault hides it.
    pub number: Option<i64>,
    /// Where the value is one sized literal alone.
    pub literal: Option<Format>,
}

/// What an instance sets parameters to.
#[derive(Drop)]
pub struct Overrides {
    given: NameMap<Override>,
}

impl Overrides {
    /// No parameter is set.
    pub fn new(alloc: Global) -> Overrides
        ensures { settings_of result ≡ no_settings }
    {
        Overrides {
            given: NameMap::new(alloc),
        }
    }

    /// What the parameter is set to, where it is set.
    pub fn get(&self, name: &Text) -> Option<Override>
        ensures { result ≡ settings_of self.now name.now }
    {
        self.given.find(name)
    }

    /// Sets the parameter, or sets it again. Where memory runs out, nothing has changed.
    pub fn set(&mut self, name: &Text, given: Override) -> Result<(), Memory>
        ensures ok { OnOk result (settings_of self.new
            ≡ with_setting (settings_of self.old) name.now given) }
        ensures err { OnErr result (settings_of self.new ≡ settings_of self.old) }
    {
        self.given.put(name, given)
    }

    /// What a parameter of this kind is set to; a `localparam` keeps its value.
    pub fn given_to(&self, kind: ParameterKind, name: &Text) -> Option<Override>
        ensures { result ≡ given_to (settings_of self.now) kind name.now }
    {
        match kind {
            ParameterKind::Parameter => self.get(name),
            ParameterKind::Local => None,
        }
    }
}

fn literal_format(value: &Literal) -> Option<Format>
    ensures { result ≡ literal_format value.now }
{
    if value.sized {
        Some(Format {
            width: value.width,
            signed: value.signed,
        })
    } else {
        None
    }
}

fn format_of(value: &Expr) -> Option<Format>
    ensures { result ≡ format_of (formula value.now) }
{
    match value {
        Expr::Number(literal, _) => literal_format(literal),
        _ => None,
    }
}

/// What a parameter is set to by an expression, with the names that hold for it.
pub fn value_of<L: Lookup>(value: &Expr, names: &L) -> Override
    ensures { result ≡ value_of (L.numbers names.now) (formula value.now) }
{
    Override {
        number: constant(value, names).ok(),
        literal: format_of(value),
    }
}

/// A number in at most 32 bits, unsigned.
fn unsigned_in(width: u8, number: i64) -> i64
    requires { width ≤ 32 }
    ensures { result ≡ unsigned_in width number }
{
    number.rem_euclid(1 << width)
}

/// A number in 32 bits, signed.
fn signed_in_32(number: i64) -> i64
    ensures { result ≡ signed_in_32 number }
{
    let low = unsigned_in(32, number);
    if low < 1 << 31 { low } else { low - (1 << 32) }
}

fn unranged(format: Option<Format>, number: Option<i64>) -> Known
    ensures { result ≡ unranged format number }
{
    match format {
        Some(format) => Known::Parameter {
            number,
            width: breadth_of(u32::from(format.width)).bits(),
            signed: format.signed,
        },
        None => Known::Parameter {
            number: number.map(signed_in_32),
            width: 32,
            signed: true,
        },
    }
}

/// The parameter with a value: a range gives it its width, else a sized literal does.
pub fn parameter_of(reach: Reach, value: Override) -> Known
    ensures { result ≡ parameter_of reach value }
{
    match reach {
        Reach::Bits { width, .. } => {
            let width = width.min(32);
            Known::Parameter {
                number: value.number.map(|number| unsigned_in(width, number)),
                width,
                signed: false,
            }
        }
        Reach::Scalar | Reach::Hidden => unranged(value.literal, value.number),
    }
}
