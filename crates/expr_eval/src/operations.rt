//! Operators over values, of which each may be unknown.

ghost use Rattle.std.specs.Prelude.{◌≡◌, Some};
ghost use Rattle.expr_eval.specs.Operations.{negation_of, or_of, and_of, holds, operation};

use zbx_types::{Fix, Op};

/// `not`: 1 for 0, and 0 for any other number. None stands for an unknown value, here and in the result (the Zabbix 6.0
/// manual, "Trigger expression", "Unknown operands in expressions").
#[tactic(auto, unfolding(crate::specs::Operations::negation_of))]
pub fn negation(operand: Option<Fix>) -> Option<Fix>
    ensures { result ≡ negation_of operand }
{
    Some(Fix::truth(!operand?.is_true()))
}

#[tactic(auto, unfolding(crate::specs::Operations::or_of))]
fn or(left: Option<Fix>, right: Option<Fix>) -> Option<Fix>
    ensures { result ≡ or_of left right }
{
    match (left, right) {
        (Some(a), Some(b)) => Some(Fix::truth(a.is_true() || b.is_true())),
        (Some(a), None) => if a.is_true() {
            Some(Fix::truth(true))
        } else {
            None
        },
        (None, Some(b)) => if b.is_true() {
            Some(Fix::truth(true))
        } else {
            None
        },
        (None, None) => None,
    }
}

#[tactic(auto, unfolding(crate::specs::Operations::and_of))]
fn and(left: Option<Fix>, right: Option<Fix>) -> Option<Fix>
    ensures { result ≡ and_of left right }
{
    match (left, right) {
        (Some(a), Some(b)) => Some(Fix::truth(a.is_true() && b.is_true())),
        (Some(a), None) => if a.is_true() {
            None
        } else {
            Some(Fix::truth(false))
        },
        (None, Some(b)) => if b.is_true() {
            None
        } else {
            Some(Fix::truth(false))
        },
        (None, None) => None,
    }
}

/// Whether a comparison of two numbers holds, both in millionths. No other operator is one.
fn holds(op: Op, left: i128, right: i128) -> bool
    ensures { result ≡ holds op left right }
{
    match op {
        Op::Eq => left == right,
        Op::Ne => left != right,
        Op::Lt => left < right,
        Op::Le => left <= right,
        Op::Gt => left > right,
        Op::Ge => left >= right,
        _ => false,
    }
}

/// A binary operator over known operands.
#[tactic(auto, unfolding(crate::specs::Operations::operation, crate::specs::Operations::or_of, crate::specs::Operations::and_of))]
fn of_known(op: Op, left: Fix, right: Fix) -> Option<Fix>
    ensures { result ≡ operation op (Some left) (Some right) }
{
    match op {
        Op::Or => or(Some(left), Some(right)),
        Op::And => and(Some(left), Some(right)),
        Op::Add => left.add(right),
        Op::Sub => left.sub(right),
        Op::Mul => left.mul(right),
        Op::Div => left.div(right),
        _ => Some(Fix::truth(holds(op, left.raw(), right.raw()))),
    }
}

/// A binary operator over the values of its operands, by the rules that the crate's comment tells (the Zabbix 6.0 manual,
/// "Trigger expression"). None stands for an unknown value, here and in the result.
#[tactic(auto, unfolding(crate::specs::Operations::operation))]
pub fn operation(op: Op, left: Option<Fix>, right: Option<Fix>) -> Option<Fix>
    ensures { result ≡ operation op left right }
{
    match op {
        Op::Or => or(left, right),
        Op::And => and(left, right),
        _ => of_known(op, left?, right?),
    }
}
