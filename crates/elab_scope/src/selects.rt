//! The bits between which selects of several lie.

ghost use Rattle.std.specs.Prelude.{◌≡◌, ◌≤ℤ◌, IfOk, pos, negsuc};
ghost use Rattle.rtl_const.specs.Constant.{constant};
ghost use Rattle.rtl_tree.specs.TreeExpr.{formula};
ghost use Rattle.elab_scope.specs.Names.{meanings, numbers_in};
ghost use Rattle.elab_scope.specs.Selects.{lsb_in, lsb_of, msb_in, msb_of};
ghost use Rattle.rtl_tree.specs.declared.tree.operators.PartKind.TheVariants.{Down, Up};

use crate::names::Names;
use rtl_const::evaluate::constant;
use rtl_const::fault::ConstFault;
use rtl_tree::tree::expr::Expr;
use rtl_tree::tree::operators::PartKind;

/// The numbers of the highest and the lowest bit of a select.
#[derive(Clone, Copy)]
pub struct Ends {
    pub msb: Result<i64, ConstFault>,
    pub lsb: Result<i64, ConstFault>,
}

/// The ends of a select, from what stands in its brackets.
pub fn ends_of(kind: PartKind, first: &Expr, second: &Expr, names: &Names) -> Ends
    ensures msb { result.msb
        ≡ msb_in (meanings names.now) kind (formula first.now) (formula second.now) }
    ensures lsb { result.lsb
        ≡ lsb_in (meanings names.now) kind (formula first.now) (formula second.now) }
{
    let first = constant(first, names);
    let second = constant(second, names);
    match kind {
        PartKind::Between => Ends {
            msb: first,
            lsb: second,
        },
        PartKind::Up => Ends {
            msb: end_above(first, second),
            lsb: first,
        },
        PartKind::Down => Ends {
            msb: first,
            lsb: end_below(first, second),
        },
    }
}

/// The number of the last bit of a run upwards.
fn end_above(
    base: Result<i64, ConstFault>,
    width: Result<i64, ConstFault>,
) -> Result<i64, ConstFault>
    requires base { IfOk base (λ n. (negsuc 2147483647 ≤ℤ n) × (n ≤ℤ pos 4294967295)) }
    requires width { IfOk width (λ n. (negsuc 2147483647 ≤ℤ n) × (n ≤ℤ pos 4294967295)) }
    ensures { result ≡ msb_of Up base width }
{
    let base = base?;
    Ok(base + width? - 1)
}

/// The number of the last bit of a run downwards.
fn end_below(
    base: Result<i64, ConstFault>,
    width: Result<i64, ConstFault>,
) -> Result<i64, ConstFault>
    requires base { IfOk base (λ n. (negsuc 2147483647 ≤ℤ n) × (n ≤ℤ pos 4294967295)) }
    requires width { IfOk width (λ n. (negsuc 2147483647 ≤ℤ n) × (n ≤ℤ pos 4294967295)) }
    ensures { result ≡ lsb_of Down base width }
{
    let base = base?;
    Ok(base - width? + 1)
}
