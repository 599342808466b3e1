//! Values of expressions.

ghost use Rattle.std.specs.Prelude.{◌≡◌, length};
ghost use Rattle.zbx_types.specs.Trees.{CallsBelow, tree_of};
ghost use Rattle.expr_eval.specs.Values.{value_of};

use crate::operations::{negation, operation};
use zbx_types::{Expr, Fix};

/// The value of an expression, or None where it is unknown, by the rules that the crate's comment tells (the Zabbix 6.0
/// manual, "Trigger expression"; that numbers have six decimals is this project's own). Comparisons, `and`, `or` and `not`
/// give 1 or 0.
///
/// `results` holds the values of the calls by their places, None where a value is unknown. Each call of the expression names
/// a place in it.
pub fn eval(expr: &Expr, results: &[Option<Fix>]) -> Option<Fix>
    requires { CallsBelow (length results.now) (tree_of expr.now) }
    ensures { result ≡ value_of (tree_of expr.now) results.now }
{
    match expr {
        Expr::Const(number) => Some(*number),
        Expr::Call(place) => results[*place as usize],
        Expr::Neg(operand) => eval(operand.expr(), results).map(|number| number.neg()),
        Expr::Not(operand) => negation(eval(operand.expr(), results)),
        Expr::Bin(op, left, right) => operation(
            *op,
            eval(left.expr(), results),
            eval(right.expr(), results),
        ),
    }
}
