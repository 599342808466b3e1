//! Writing of expressions.

ghost use Rattle.std.specs.Prelude.{◌≡◌, ◌++◌, ◌≤◌, ℕ, List, [], OnOk, IfOk, codes, if◌then◌else◌};
ghost use Rattle.zbx_types.specs.Tree.{Tree};
ghost use Rattle.zbx_types.specs.Trees.{tree_of};
ghost use Rattle.zbx_types.specs.declared.calls.Call.{Call};
ghost use Rattle.expr_parser.specs.Grammar.{IsExpr, op_text};
ghost use Rattle.expr_text.specs.Written.{is_simple, nesting, written_of};

use crate::call_text::put_place;
use expr_parser::Parsed;
use std::alloc::Global;
use zbx_types::{Call, Expr, Op, OutOfMemory, Text};

fn sign(op: Op) -> &'static str
    ensures { result.now ≡ op_text op }
{
    match op {
        Op::Or => "or",
        Op::And => "and",
        Op::Eq => "=",
        Op::Ne => "<>",
        Op::Lt => "<",
        Op::Le => "<=",
        Op::Gt => ">",
        Op::Ge => ">=",
        Op::Add => "+",
        Op::Sub => "-",
        Op::Mul => "*",
        Op::Div => "/",
    }
}

/// Stands without parentheses.
fn simple(expr: &Expr) -> bool
    ensures { result ≡ is_simple (tree_of expr.now) }
{
    match expr {
        Expr::Const(_) | Expr::Call(_) => true,
        _ => false,
    }
}

fn open(expr: &Expr, out: &mut Text) -> Result<(), OutOfMemory>
    ensures { OnOk result (out.new ≡ out.old ++ (if is_simple (tree_of expr.now) then [] else codes "(")) }
{
    if simple(expr) {
        Ok(())
    } else {
        out.push_str("(")
    }
}

fn close(expr: &Expr, out: &mut Text) -> Result<(), OutOfMemory>
    ensures { OnOk result (out.new ≡ out.old ++ (if is_simple (tree_of expr.now) then [] else codes ")")) }
{
    if simple(expr) {
        Ok(())
    } else {
        out.push_str(")")
    }
}

fn put_op(op: Op, out: &mut Text) -> Result<(), OutOfMemory>
    ensures { OnOk result (out.new ≡ out.old ++ codes " " ++ op_text op ++ codes " ") }
{
    out.push_str(" ")?;
    out.push_str(sign(op))?;
    out.push_str(" ")
}

/// Adds an expression; the depth of the recursion is that of the expression.
fn put_expr(expr: &Expr, calls: &[Call], out: &mut Text) -> Result<(), OutOfMemory>
    ensures { OnOk result (out.new ≡ out.old ++ written_of (tree_of expr.now) calls.now) }
{
    match expr {
        Expr::Const(number) => number.write(out),
        Expr::Call(place) => put_place(calls, *place, out),
        Expr::Neg(operand) => {
            out.push_str("-")?;
            open(operand.expr(), out)?;
            put_expr(operand.expr(), calls, out)?;
            close(operand.expr(), out)
        }
        Expr::Not(operand) => {
            out.push_str("not ")?;
            open(operand.expr(), out)?;
            put_expr(operand.expr(), calls, out)?;
            close(operand.expr(), out)
        }
        Expr::Bin(op, left, right) => {
            open(left.expr(), out)?;
            put_expr(left.expr(), calls, out)?;
            close(left.expr(), out)?;
            put_op(*op, out)?;
            open(right.expr(), out)?;
            put_expr(right.expr(), calls, out)?;
            close(right.expr(), out)
        }
    }
}

/// The one written form of an expression (this project's own, in the words of the Zabbix 6.0 manual, "Trigger
/// expression").
///
/// A binary operator stands between blanks, `-` right before its operand, and `not` with a blank behind it; an operand
/// that is itself one of these stands in parentheses. A constant is a written number, without a suffix. A call has its
/// range wherever its function takes one, also the default; a period and a shift other than 0 are in seconds. Its
/// arguments behind the range are texts in quotes, each `"` in them as `\"`, up to the last one that isn't empty. Its
/// commas have no blanks.
///
/// The written form of what [`read`](expr_parser::read) gave is again a text of that expression, and of no other, where at
/// most 32 parentheses are open at one place; it may be longer than `read` takes,
/// [`LONGEST_EXPRESSION`](zbx_types::LONGEST_EXPRESSION). A call whose place isn't in the list, which `read` never gives,
/// is written as nothing.
///
/// The one error is want of memory. The recursion is as deep as the expression, at most 2,048 levels for what `read`
/// gives.
pub fn write(alloc: Global, parsed: &Parsed) -> Result<Text, OutOfMemory>
    ensures text { IfOk result (λ t. t ≡ written_of (tree_of parsed.now.expr) parsed.now.calls) }
    ensures reads_back { IfOk result (λ t. (from : List ℕ) → IsExpr from (tree_of parsed.now.expr) parsed.now.calls → nesting (tree_of parsed.now.expr) ≤ 32 → IsExpr t (tree_of parsed.now.expr) parsed.now.calls) }
    ensures no_other { IfOk result (λ t. (from : List ℕ) → IsExpr from (tree_of parsed.now.expr) parsed.now.calls → nesting (tree_of parsed.now.expr) ≤ 32 → (e : Tree) (ks : List Call) → IsExpr t e ks → (e ≡ tree_of parsed.now.expr) × (ks ≡ parsed.now.calls)) }
{
    let mut out = Text::new(alloc);
    put_expr(&parsed.expr, parsed.calls.as_slice(), &mut out)?;
    Ok(out)
}
