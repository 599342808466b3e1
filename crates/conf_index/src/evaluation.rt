//! The values of expressions that lie flat.

ghost use Rattle.std.specs.Prelude.{◌≡◌, ◌≤◌, List, length, neg_ℤ, option_map};
ghost use Rattle.zbx_types.specs.Tree.{Tree};
ghost use Rattle.conf_index.specs.Evaluation.{value_in, Evaluates, expression_value, recovery_value};
ghost use Rattle.conf_index.specs.Plans.{flat, plan_of, recovery_plan_of};
ghost use Rattle.conf_index.specs.declared.plans.Node.{Node};

use crate::plans::Node;
use expr_eval::{negation, operation};
use zbx_types::{Fix, Trigger};

/// The number with the other sign.
fn negative(operand: Option<Fix>) -> Option<Fix>
    ensures { result ≡ option_map neg_ℤ operand }
{
    operand.map(|number| number.neg())
}

/// The value of a call by its place.
fn value_in(values: &[Option<Fix>], place: u32) -> Option<Fix>
    ensures { result ≡ value_in values.now place }
{
    match values.get(place as usize) {
        None => None,
        Some(value) => *value,
    }
}

/// A value, and the nodes behind those that it is of.
#[derive(Clone, Copy)]
struct Found<'a> {
    value: Option<Fix>,
    rest: &'a [Node],
}

/// A value with the nodes behind.
fn with_rest<'a>(value: Option<Fix>, rest: &'a [Node]) -> Found<'a>
    ensures value { result.value ≡ value }
    ensures rest { result.rest.now ≡ rest.now }
{
    Found { value, rest }
}

/// The value of the first of the expressions that the nodes are of.
fn value_at<'a>(values: &[Option<Fix>], nodes: &'a [Node]) -> Found<'a>
    ensures value { (t : Tree) (rest : List Node) → nodes.now ≡ flat t rest
        → Evaluates (value_in values.now) t rest result }
    ensures shorter { length result.rest.now ≤ length nodes.now }
{
    let Some((node, rest)) = nodes.split_first() else {
        return with_rest(None, nodes);
    };
    match node {
        Node::Const(number) => with_rest(Some(*number), rest),
        Node::Called(place) => with_rest(value_in(values, *place), rest),
        Node::Neg => {
            let operand = value_at(values, rest);
            with_rest(negative(operand.value), operand.rest)
        }
        Node::Not => {
            let operand = value_at(values, rest);
            with_rest(negation(operand.value), operand.rest)
        }
        Node::Bin(op) => {
            let left = value_at(values, rest);
            let right = value_at(values, left.rest);
            with_rest(operation(*op, left.value, right.value), right.rest)
        }
    }
}

/// The value of a trigger's expression, whose nodes these are, over the values of its calls.
pub fn plan_value(values: &[Option<Fix>], trigger: &Trigger, plan: &[Node]) -> Option<Fix>
    requires { plan.now ≡ plan_of trigger.now }
    ensures { result ≡ expression_value (value_in values.now) trigger.now.expr }
{
    value_at(values, plan).value
}

/// The value of a trigger's recovery expression, whose nodes these are. None where it has none.
pub fn recovery_value(values: &[Option<Fix>], trigger: &Trigger, plan: &[Node]) -> Option<Fix>
    requires { plan.now ≡ recovery_plan_of trigger.now }
    ensures { result ≡ recovery_value (value_in values.now) trigger.now.recovery_expr }
{
    match &trigger.recovery_expr {
        None => None,
        Some(_) => value_at(values, plan).value,
    }
}
