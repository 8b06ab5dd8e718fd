// The number of an expression.

ghost use Rattle.std.specs.Prelude.{◌≡◌};
ghost use Rattle.rtl_tree.specs.TreeExpr.{formula};
ghost use Rattle.rtl_const.specs.Constant.{constant, named};

use crate::fault::ConstFault;
use crate::number::{
    applied, combined, is_constant_operator, is_constant_prefix, is_true, literal, logarithm, named,
};
use crate::params::Lookup;
use rtl_tree::tree::expr::Expr;
use rtl_tree::tree::operators::SystemFunction;

/// The number of a constant expression; the first operand or operator, left to right, that isn't constant, leaves the
/// range or divides by 0 refuses it at its place. It takes no memory.
pub fn constant<L: Lookup>(e: &Expr, params: &L) -> Result<i64, ConstFault>
    ensures { result ≡ constant (L.numbers params.now) (formula e.now) }
{
    match e {
        Expr::Number(value, at) => literal(*at, value),
        Expr::Read(name) => named(name.at, params.get(&name.text)),
        Expr::Parens(_, inner) => constant(inner, params),
        Expr::Apply(SystemFunction::Clog2, at, inner) => logarithm(*at, constant(inner, params)?),
        Expr::Unary(operator, at, operand) => {
            if !is_constant_prefix(*operator) {
                return Err(ConstFault::NotConstant(*at));
            }
            applied(*operator, *at, constant(operand, params)?)
        }
        Expr::Binary(operator, at, left, right) => {
            if !is_constant_operator(*operator) {
                return Err(ConstFault::NotConstant(*at));
            }
            let left = constant(left, params)?;
            combined(*operator, *at, left, constant(right, params)?)
        }
        Expr::Choose(_, condition, taken, otherwise) => {
            if is_true(constant(condition, params)?) {
                constant(taken, params)
            } else {
                constant(otherwise, params)
            }
        }
        _ => Err(ConstFault::NotConstant(e.place())),
    }
}
