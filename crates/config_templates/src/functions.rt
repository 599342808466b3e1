//! Which items the functions of expressions take.

ghost use Rattle.std.specs.Prelude.{◌≡◌};
ghost use Rattle.config_templates.specs.Functions.{takes_text, operator_in, is_order, is_comparison, takes, lacks_number};

use zbx_types::{Call, Fix, Fun, Operator, ValueType, operator_of};

fn takes_text(fun: Fun) -> bool
    ensures { result ≡ takes_text fun }
{
    match fun {
        Fun::Change | Fun::Count | Fun::Find | Fun::NoData | Fun::ChangeCount => true,
        _ => false,
    }
}

fn operator_in(call: &Call) -> Operator
    ensures { result ≡ operator_in call.now.fun call.now }
{
    match call.fun {
        Fun::Count | Fun::Find => operator_of(call.op.as_bytes(), call.arg.as_bytes()),
        _ => Operator::Any,
    }
}

fn is_order(operator: Operator) -> bool
    ensures { result ≡ is_order operator }
{
    match operator {
        Operator::Gt | Operator::Ge | Operator::Lt | Operator::Le => true,
        _ => false,
    }
}

fn is_comparison(operator: Operator) -> bool
    ensures { result ≡ is_comparison operator }
{
    match operator {
        Operator::Unwritten | Operator::Eq | Operator::Ne => true,
        _ => is_order(operator),
    }
}

/// Whether a call takes an item of this type.
pub(crate) fn takes(call: &Call, value_type: ValueType) -> bool
    ensures { result ≡ takes call.now value_type }
{
    let operator = operator_in(call);
    match value_type {
        ValueType::Number => operator != Operator::Like,
        ValueType::Words => takes_text(call.fun) && !is_order(operator),
    }
}

/// Whether a call of an item of this type compares numbers with an argument that is none.
pub(crate) fn lacks_number(call: &Call, value_type: ValueType) -> bool
    ensures { result ≡ lacks_number call.now value_type }
{
    match value_type {
        ValueType::Number => {
            is_comparison(operator_in(call)) && Fix::read_suffixed(call.arg.as_bytes()).is_none()
        }
        ValueType::Words => false,
    }
}
