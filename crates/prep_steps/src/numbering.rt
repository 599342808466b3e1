//! Steps on numbers: the custom multiplier and the range (the Zabbix 6.0 manual, "Preprocessing details").

ghost use Rattle.std.specs.Prelude.{◌≡◌, IfOk, int_le};
ghost use Rattle.prep_steps.specs.Numbering.{number_of, no_number, result_of, multiplied, times_factor, passes_bound, within, ranged};

use crate::outcome::{Outcome, fail, pass};
use std::alloc::Global;
use zbx_types::{Fix, OutOfMemory, Text, unpadded};

/// The text of the failure of a value that is no number.
pub const NOT_A_NUMBER: &str = "not a number";

/// The number that a value writes between blanks, with six decimals; None where it writes none, or one above 10^24 without
/// its sign (the Zabbix 6.0 manual, "Preprocessing details"). A number step reads its value so. Takes no memory.
#[tactic(auto, unfolding(crate::specs::Numbering::number_of))]
pub fn number_of(value: &Text) -> Option<Fix>
    ensures { result ≡ number_of value.now }
{
    Fix::read(unpadded(value.as_bytes()))
}

/// The outcome of a value that is no number.
pub(crate) fn no_number(alloc: Global) -> Result<Outcome, OutOfMemory>
    ensures { IfOk result (λ outcome. outcome ≡ no_number) }
{
    fail(alloc, NOT_A_NUMBER)
}

/// The written result of a number step, which fails where the result is unknown.
pub(crate) fn result_of(alloc: Global, number: Option<Fix>) -> Result<Outcome, OutOfMemory>
    ensures { IfOk result (λ outcome. outcome ≡ result_of number) }
{
    let Some(number) = number else {
        return fail(alloc, "number range");
    };
    let mut text = Text::new(alloc);
    number.write(&mut text)?;
    pass(alloc, text)
}

fn times(alloc: Global, factor: &str, number: Fix) -> Result<Outcome, OutOfMemory>
    ensures { IfOk result (λ outcome. outcome ≡ times_factor factor.now number) }
{
    let product = Fix::read(factor.as_bytes()).and_then(|factor| number.mul(factor));
    result_of(alloc, product)
}

/// The product of a value with a factor.
#[tactic(auto, unfolding(crate::specs::Numbering::multiplied))]
pub(crate) fn multiply(alloc: Global, factor: &str, value: &Text) -> Result<Outcome, OutOfMemory>
    ensures { IfOk result (λ outcome. outcome ≡ multiplied factor.now value.now) }
{
    match number_of(value) {
        Some(number) => times(alloc, factor, number),
        None => no_number(alloc),
    }
}

#[tactic(auto, unfolding(crate::specs::Numbering::passes_bound))]
fn at_least(low: &str, number: Fix) -> Option<bool>
    ensures { result ≡ passes_bound (λ b. int_le b number) low.now }
{
    if low.is_empty() {
        return Some(true);
    }
    Some(Fix::read(low.as_bytes())? <= number)
}

#[tactic(auto, unfolding(crate::specs::Numbering::passes_bound))]
fn at_most(high: &str, number: Fix) -> Option<bool>
    ensures { result ≡ passes_bound (λ b. int_le number b) high.now }
{
    if high.is_empty() {
        return Some(true);
    }
    Some(number <= Fix::read(high.as_bytes())?)
}

fn within(alloc: Global, low: &str, high: &str, number: Fix) -> Result<Outcome, OutOfMemory>
    ensures { IfOk result (λ outcome. outcome ≡ within low.now high.now number) }
{
    let Some(above) = at_least(low, number) else {
        return result_of(alloc, None);
    };
    let Some(below) = at_most(high, number) else {
        return result_of(alloc, None);
    };
    if above && below {
        result_of(alloc, Some(number))
    } else {
        fail(alloc, "out of range")
    }
}

/// A value that lies between two bounds, each of which is given where it isn't empty.
#[tactic(auto, unfolding(crate::specs::Numbering::ranged))]
pub(crate) fn range(
    alloc: Global,
    low: &str,
    high: &str,
    value: &Text,
) -> Result<Outcome, OutOfMemory>
    ensures { IfOk result (λ outcome. outcome ≡ ranged low.now high.now value.now) }
{
    match number_of(value) {
        Some(number) => within(alloc, low, high, number),
        None => no_number(alloc),
    }
}
