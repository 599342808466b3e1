//! Which values match an operator with its argument.

ghost use Rattle.std.specs.Prelude.{◌≡◌, IfOk};
ghost use Rattle.zbx_types.specs.Ids.{at_id};
ghost use Rattle.zbx_types.specs.Operators.{operator_of, pattern_of};
ghost use Rattle.zbx_types.specs.Suffixes.{read_suffixed};
ghost use Rattle.zbx_types.specs.Written.{written};
ghost use Rattle.history_functions.specs.Matching.{is_found, comparison, compares, number_matches, text_matches, matches, count_matching, any_matches, count_of, find_of};

use crate::values::{one_if, stored_at, whole};
use pattern_set::{Matcher, Patterns};
use std::alloc::Global;
use std::convert::AsStr;
use value_cache::Values;
use zbx_types::{Fix, Held, Operator, OutOfMemory, Text, operator_of, same_text};

/// What values are tested for.
#[derive(Clone, Copy)]
struct Test<'a> {
    operator: Operator,
    arg: &'a Text,
    /// The number that the argument is, if it is one.
    operand: Option<Fix>,
    ghost operand_read: { operand ≡ read_suffixed arg.now },
}

/// What an operator and its argument test for.
fn prepared<'a>(op: &Text, arg: &'a Text) -> Test<'a>
    ensures operator { result.operator ≡ operator_of op.now arg.now }
    ensures argument { result.arg.now ≡ arg.now }
{
    Test {
        operator: operator_of(op.as_bytes(), arg.as_bytes()),
        arg,
        operand: Fix::read_suffixed(arg.as_bytes()),
    }
}

/// Whether a pattern is found in a text.
fn found(matcher: &mut Option<Matcher<'_>>, text: &str) -> bool
    ensures found { result ≡ is_found matcher.old text.now }
    ensures same { matcher.new ≡ matcher.old }
{
    match matcher {
        Some(matcher) => matcher.matches(text),
        None => false,
    }
}

/// Whether it is found in a written number.
fn found_written(
    alloc: Global,
    matcher: &mut Option<Matcher<'_>>,
    number: Fix,
) -> Result<bool, OutOfMemory>
    ensures found { IfOk result (λ found. found ≡ is_found matcher.old (written number)) }
    ensures same { matcher.new ≡ matcher.old }
{
    let mut text = Text::new(alloc);
    number.write(&mut text)?;
    Ok(found(matcher, text.as_str()))
}

fn comparison(operator: Operator, number: Fix, operand: Fix) -> bool
    ensures { result ≡ comparison operator number operand }
{
    match operator {
        Operator::Unwritten => number == operand,
        Operator::Eq => number == operand,
        Operator::Ne => number != operand,
        Operator::Gt => operand < number,
        Operator::Ge => operand <= number,
        Operator::Lt => number < operand,
        Operator::Le => number <= operand,
        Operator::Any | Operator::Like | Operator::Regexp | Operator::Iregexp | Operator::Other =>
            false,
    }
}

fn compares(operator: Operator, operand: Option<Fix>, number: Fix) -> bool
    ensures { result ≡ compares operator operand number }
{
    match operand {
        None => false,
        Some(operand) => comparison(operator, number, operand),
    }
}

/// Whether a number matches.
fn number_matches(
    alloc: Global,
    test: &Test,
    matcher: &mut Option<Matcher<'_>>,
    number: Fix,
) -> Result<bool, OutOfMemory>
    requires { matcher.old ≡ pattern_of test.now.operator test.now.arg.now }
    ensures matching { IfOk result (λ matching. matching ≡ number_matches test.now.operator test.now.arg.now number) }
    ensures same { matcher.new ≡ matcher.old }
{
    match test.operator {
        Operator::Any => Ok(true),
        Operator::Like | Operator::Other => Ok(false),
        Operator::Regexp | Operator::Iregexp => found_written(alloc, matcher, number),
        Operator::Unwritten
        | Operator::Eq
        | Operator::Ne
        | Operator::Gt
        | Operator::Ge
        | Operator::Lt
        | Operator::Le => Ok(compares(test.operator, test.operand, number)),
    }
}

/// Whether a text matches.
fn text_matches(test: &Test, matcher: &mut Option<Matcher<'_>>, text: &Text) -> bool
    requires { matcher.old ≡ pattern_of test.now.operator test.now.arg.now }
    ensures matching { result ≡ text_matches test.now.operator test.now.arg.now text.now }
    ensures same { matcher.new ≡ matcher.old }
{
    match test.operator {
        Operator::Any => true,
        Operator::Eq => same_text(text.as_bytes(), test.arg.as_bytes()),
        Operator::Ne => !same_text(text.as_bytes(), test.arg.as_bytes()),
        Operator::Unwritten | Operator::Like => text.contains(test.arg),
        Operator::Regexp | Operator::Iregexp => found(matcher, text.as_str()),
        Operator::Gt | Operator::Ge | Operator::Lt | Operator::Le | Operator::Other => false,
    }
}

/// Whether a value matches.
fn matches(
    alloc: Global,
    test: &Test,
    matcher: &mut Option<Matcher<'_>>,
    value: &Held,
) -> Result<bool, OutOfMemory>
    requires { matcher.old ≡ pattern_of test.now.operator test.now.arg.now }
    ensures matching { IfOk result (λ matching. matching ≡ matches test.now.operator test.now.arg.now value.now) }
    ensures same { matcher.new ≡ matcher.old }
{
    match value {
        Held::Number(number) => number_matches(alloc, test, matcher, *number),
        Held::Words(text) => Ok(text_matches(test, matcher, text)),
    }
}

/// How many values match.
fn count_matching(
    alloc: Global,
    test: &Test,
    matcher: &mut Option<Matcher<'_>>,
    window: &Values,
) -> Result<u64, OutOfMemory>
    requires { matcher.old ≡ pattern_of test.now.operator test.now.arg.now }
    ensures { IfOk result (λ count. count ≡ count_matching test.now.operator test.now.arg.now window.now) }
{
    let mut count = 0;
    for place in 0..window.len() {
        let stored = stored_at(window, place);
        count += one_if(matches(alloc, test, matcher, &stored.value)?);
    }
    Ok(count as u64)
}

/// Whether a value matches.
#[tactic(auto, using(crate::proofs::Looking::any_found, crate::proofs::Looking::any_more, crate::proofs::Looking::any_none))]
fn any_matches(
    alloc: Global,
    test: &Test,
    matcher: &mut Option<Matcher<'_>>,
    window: &Values,
) -> Result<bool, OutOfMemory>
    requires { matcher.old ≡ pattern_of test.now.operator test.now.arg.now }
    ensures { IfOk result (λ any. any ≡ any_matches test.now.operator test.now.arg.now window.now) }
{
    for place in 0..window.len() {
        if matches(alloc, test, matcher, &stored_at(window, place).value)? {
            return Ok(true);
        }
    }
    Ok(false)
}

/// `count`: how many values match. One matcher serves for all.
pub(crate) fn count(
    alloc: Global,
    op: &Text,
    arg: &Text,
    place: u32,
    window: &Values,
    patterns: &Patterns,
) -> Result<Option<Fix>, OutOfMemory>
    requires { at_id patterns.now place ≡ pattern_of (operator_of op.now arg.now) arg.now }
    ensures { IfOk result (λ count. count ≡ count_of op.now arg.now window.now) }
{
    let test = prepared(op, arg);
    let mut matcher = patterns.matcher(alloc, place)?;
    Ok(whole(count_matching(alloc, &test, &mut matcher, window)?))
}

/// `find`: whether a value matches. One matcher serves for all.
pub(crate) fn find(
    alloc: Global,
    op: &Text,
    arg: &Text,
    place: u32,
    window: &Values,
    patterns: &Patterns,
) -> Result<Option<Fix>, OutOfMemory>
    requires { at_id patterns.now place ≡ pattern_of (operator_of op.now arg.now) arg.now }
    ensures { IfOk result (λ any. any ≡ find_of op.now arg.now window.now) }
{
    if window.is_empty() {
        return Ok(None);
    }
    let test = prepared(op, arg);
    let mut matcher = patterns.matcher(alloc, place)?;
    let any = any_matches(alloc, &test, &mut matcher, window)?;
    Ok(Some(Fix::truth(any)))
}
