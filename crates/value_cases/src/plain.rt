//! Tags, calls, operands and other plain values.

use std::alloc::Global;
use std::convert::AsStr;
use zbx_types::{
    Call, Expr, Fun, Held, Many, Matching, Moment, Operand, OutOfMemory, Range, StepKind, Stored,
    Tag, TagOp, TagTest, Text, by_id, tests_pass,
};

/// The two parts of an input between which a character stands, the second empty where none does.
fn both(input: &str, between: char) -> (&str, &str) {
    input.split_once(between).unwrap_or((input, ""))
}

/// The tags of a text, as `svc=web team=a`.
fn tags_of(alloc: Global, text: &str) -> Result<Many<Tag>, OutOfMemory> {
    let mut made = Many::new(alloc);
    for part in text.split(' ') {
        let (name, value) = both(part, '=');
        let name = Text::of(alloc, name)?;
        let value = Text::of(alloc, value)?;
        made.push(Tag { tag: name, value })?;
    }
    Ok(made)
}

fn op_of(name: &str) -> TagOp {
    match name {
        "equals" => TagOp::Equals,
        "contains" => TagOp::Contains,
        "not_equals" => TagOp::NotEquals,
        _ => TagOp::NotContains,
    }
}

/// Tests of tags with one operator, as `svc=web none=web`.
fn tests_of(alloc: Global, op: TagOp, text: &str) -> Result<Many<TagTest>, OutOfMemory> {
    let mut made = Many::new(alloc);
    for part in text.split(' ') {
        let (name, value) = both(part, '=');
        let tag = Text::of(alloc, name)?;
        let value = Text::of(alloc, value)?;
        made.push(TagTest { tag, op, value })?;
    }
    Ok(made)
}

fn bit(holds: bool) -> &'static str {
    if holds { "1" } else { "0" }
}

/// Which tests hold of tags, 1 or 0 for each, and whether all of them do, and one of them: an operator, then tests, then tags.
fn passed(alloc: Global, input: &str) -> Result<String, OutOfMemory> {
    let (op, rest) = both(input, ';');
    let (tests, tags) = both(rest, ';');
    let tests = tests_of(alloc, op_of(op), tests)?;
    let tags = tags_of(alloc, tags)?;
    let mut out = String::new(alloc);
    for test in tests.as_slice() {
        out.push_str(bit(test.passes(tags.as_slice())))?;
    }
    let all = tests_pass(Matching::And, tests.as_slice(), tags.as_slice());
    let some = tests_pass(Matching::Or, tests.as_slice(), tags.as_slice());
    Ok(format!(in alloc; "{} {all} {some}", out.as_str())?)
}

/// A call of `count` with an operator and an argument.
fn call_of(alloc: Global, op: &str, arg: &str) -> Result<Call, OutOfMemory> {
    let op = Text::of(alloc, op)?;
    let arg = Text::of(alloc, arg)?;
    Ok(Call {
        fun: Fun::Count,
        host: Text::new(alloc),
        key: Text::new(alloc),
        range: Range::Count(1),
        shift: 0,
        op,
        arg,
    })
}

/// A copy of such a call.
fn call_copy(alloc: Global, op: &str, arg: &str) -> Result<Call, OutOfMemory> {
    let call = call_of(alloc, op, arg)?;
    let copy = call.copy(alloc);
    drop(call);
    copy
}

/// A pattern, and whether it stands in the text `a(?i)x7`.
fn pattern_line(alloc: Global, pattern: &Text) -> Result<String, OutOfMemory> {
    let mut text = Text::of(alloc, "a(?i)x")?;
    text.push_decimal(7)?;
    Ok(format!(in alloc; "{} {}", pattern.as_str(), text.contains(pattern))?)
}

/// The same of the pattern of a copy of such a call, or `none`.
fn pattern(alloc: Global, input: &str) -> Result<String, OutOfMemory> {
    let (op, arg) = both(input, ' ');
    let call = call_copy(alloc, op, arg)?;
    let pattern = call.pattern(alloc);
    drop(call);
    match pattern? {
        Some(pattern) => pattern_line(alloc, &pattern),
        None => Ok(String::from_str(alloc, "none")?),
    }
}

/// The number of an expression that an operand holds: of a call its place.
fn operand(alloc: Global, input: &str) -> Result<String, OutOfMemory> {
    let operand = Operand::new(alloc, Expr::Call(input.parse().unwrap_or(0)))?;
    let place = match operand.expr() {
        Expr::Call(place) => Some(*place),
        _ => None,
    };
    drop(operand);
    Ok(match place {
        Some(place) => format!(in alloc; "call {place}")?,
        None => String::from_str(alloc, "another")?,
    })
}

/// The item with an id of a list of one, which is 5.
fn item(alloc: Global, input: &str) -> Result<String, OutOfMemory> {
    Ok(match by_id(&[5], input.parse().unwrap_or(0)) {
        Some(item) => format!(in alloc; "{item}")?,
        None => String::from_str(alloc, "none")?,
    })
}

/// A copy of an item's text.
fn value_copy(alloc: Global, input: &str) -> Result<Stored, OutOfMemory> {
    let words = Text::of(alloc, input)?;
    let stored = Stored {
        time: Moment::zero(),
        number: 7,
        value: Held::Words(words),
    };
    let copy = stored.copy(alloc);
    drop(stored);
    copy
}

/// A value's number and its text.
fn value_line(alloc: Global, stored: &Stored) -> Result<String, OutOfMemory> {
    Ok(match &stored.value {
        Held::Words(words) => format!(in alloc; "{} {}", stored.number, words.as_str())?,
        Held::Number(_) => String::from_str(alloc, "a number")?,
    })
}

/// The same of a copy of an item's text.
fn value(alloc: Global, input: &str) -> Result<String, OutOfMemory> {
    let copy = value_copy(alloc, input)?;
    let made = value_line(alloc, &copy);
    drop(copy);
    made
}

/// Whether a function is one of date or time, or the first parameter of a step a pattern.
fn is_so(input: &str) -> bool {
    match input {
        "date" => Fun::Date.is_dated(),
        "nodata" => Fun::NoData.is_dated(),
        "regex_error" => StepKind::RegexError.has_pattern(),
        _ => StepKind::JsonPath.has_pattern(),
    }
}

/// What a case of plain values comes to.
pub(crate) fn answer(
    alloc: Global,
    kind: &str,
    input: &str,
) -> Result<Option<String>, OutOfMemory> {
    match kind {
        "tag_tests" => Ok(Some(passed(alloc, input)?)),
        "call_pattern" => Ok(Some(pattern(alloc, input)?)),
        "operand" => Ok(Some(operand(alloc, input)?)),
        "by_id" => Ok(Some(item(alloc, input)?)),
        "stored_copy" => Ok(Some(value(alloc, input)?)),
        "is_dated" | "has_pattern" => Ok(Some(format!(in alloc; "{}", is_so(input))?)),
        _ => Ok(None),
    }
}
