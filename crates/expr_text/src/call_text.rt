//! Writing of calls.

ghost use Rattle.std.specs.Prelude.{◌≡◌, ◌++◌, ◌<◌, length, OnOk, MatchOption, IfSome, codes, slice_get};
ghost use Rattle.expr_parser.specs.Functions as functions;
ghost use Rattle.expr_text.specs.Written as written;

use std::convert::AsStr;
use zbx_types::{Call, Fun, OutOfMemory, Range, Text};

/// The name of a function.
fn name(fun: Fun) -> &'static str
    ensures { result.now ≡ functions.name_of fun }
{
    match fun {
        Fun::Last => "last",
        Fun::First => "first",
        Fun::Min => "min",
        Fun::Max => "max",
        Fun::Avg => "avg",
        Fun::Sum => "sum",
        Fun::Change => "change",
        Fun::Count => "count",
        Fun::Find => "find",
        Fun::NoData => "nodata",
        Fun::Percentile => "percentile",
        Fun::ChangeCount => "changecount",
        Fun::MonoInc => "monoinc",
        Fun::MonoDec => "monodec",
        Fun::Now => "now",
        Fun::Time => "time",
        Fun::Date => "date",
        Fun::DayOfWeek => "dayofweek",
        Fun::DayOfMonth => "dayofmonth",
    }
}

/// What stands before and behind the first quote.
fn split_at_quote(text: &str) -> Option<(&str, &str)>
    ensures parts { MatchOption result (written.escaped text.now ≡ text.now) (λ x. written.escaped text.now ≡ x.0.now ++ codes "\\\"" ++ written.escaped x.1.now) }
    ensures shorter { IfSome result (λ x. length x.1.now < length text.now) }
{
    text.split_once('"')
}

/// Adds a text with each quote as `\"`.
fn put_escaped(text: &str, out: &mut Text) -> Result<(), OutOfMemory>
    ensures { OnOk result (out.new ≡ out.old ++ written.escaped text.now) }
{
    let mut rest = text;
    while let Some((front, behind)) = split_at_quote(rest) {
        out.push_str(front)?;
        out.push_str("\\\"")?;
        rest = behind;
    }
    out.push_str(rest)
}

/// Adds a text in quotes, and nothing for an empty one.
fn put_quoted(text: &Text, out: &mut Text) -> Result<(), OutOfMemory>
    ensures { OnOk result (out.new ≡ out.old ++ written.quoted_text text.now) }
{
    if text.len() == 0 {
        return Ok(());
    }
    out.push_str("\"")?;
    put_escaped(text.as_str(), out)?;
    out.push_str("\"")
}

fn put_range(range: Range, out: &mut Text) -> Result<(), OutOfMemory>
    ensures { OnOk result (out.new ≡ out.old ++ written.written_range range) }
{
    match range {
        Range::Count(n) => {
            out.push_str("#")?;
            out.push_decimal(u64::from(n))
        }
        Range::Period(n) => out.push_decimal(u64::from(n)),
    }
}

fn put_shift(shift: u32, out: &mut Text) -> Result<(), OutOfMemory>
    ensures { OnOk result (out.new ≡ out.old ++ written.written_shift shift) }
{
    if shift == 0 {
        return Ok(());
    }
    out.push_str(":now-")?;
    out.push_decimal(u64::from(shift))
}

/// A function takes a range.
fn ranged(fun: Fun) -> bool
    ensures { result ≡ written.is_ranged (functions.slots fun) }
{
    match fun {
        Fun::Change => false,
        _ => !fun.is_dated(),
    }
}

/// Adds the range of a call with its shift, where its function takes one.
fn put_range_argument(call: &Call, out: &mut Text) -> Result<(), OutOfMemory>
    ensures { OnOk result (out.new ≡ out.old ++ written.range_argument call.now) }
{
    if !ranged(call.fun) {
        return Ok(());
    }
    out.push_str(",")?;
    put_range(call.range, out)?;
    put_shift(call.shift, out)
}

/// Adds the arguments behind the range up to the last one that isn't empty.
fn put_last_arguments(op: &Text, arg: &Text, out: &mut Text) -> Result<(), OutOfMemory>
    ensures { OnOk result (out.new ≡ out.old ++ written.last_arguments op.now arg.now) }
{
    if op.len() == 0 && arg.len() == 0 {
        return Ok(());
    }
    out.push_str(",")?;
    put_quoted(op, out)?;
    if arg.len() == 0 {
        return Ok(());
    }
    out.push_str(",")?;
    put_quoted(arg, out)
}

/// Adds the item of a call.
fn put_item(call: &Call, out: &mut Text) -> Result<(), OutOfMemory>
    ensures { OnOk result (out.new ≡ out.old ++ codes "(/" ++ call.now.host ++ codes "/" ++ call.now.key) }
{
    out.push_str("(/")?;
    out.push_str(call.host.as_str())?;
    out.push_str("/")?;
    out.push_str(call.key.as_str())
}

/// Adds a call.
fn put_call(call: &Call, out: &mut Text) -> Result<(), OutOfMemory>
    ensures { OnOk result (out.new ≡ out.old ++ written.written_call call.now) }
{
    out.push_str(name(call.fun))?;
    if call.fun.is_dated() {
        return out.push_str("()");
    }
    put_item(call, out)?;
    put_range_argument(call, out)?;
    put_last_arguments(&call.op, &call.arg, out)?;
    out.push_str(")")
}

/// Adds the call at a place.
pub(crate) fn put_place(calls: &[Call], place: u32, out: &mut Text) -> Result<(), OutOfMemory>
    ensures { OnOk result (out.new ≡ out.old ++ written.written_place (slice_get calls.now place)) }
{
    match calls.get(place as usize) {
        Some(call) => put_call(call, out),
        None => Ok(()),
    }
}
