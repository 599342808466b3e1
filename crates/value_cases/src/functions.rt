//! Functions over values and steps that no configuration can have.

ghost use Rattle.std.specs.Prelude.{◌≡◌, ◌++◌, ◌∷◌, [], IfOk, codes, false};
ghost use Rattle.prep_steps.specs.Steps.{looks_into_json};
ghost use Rattle.zbx_types.specs.Steps.{has_pattern};

use history_functions::value;
use pattern_set::{BuildError, Patterns};
use prep_steps::{Outcome, StepDone, StepMemory, apply};
use std::alloc::Global;
use std::convert::AsStr;
use zbx_types::{
    Call, Fix, Fun, Held, Many, Moment, OnFail, OutOfMemory, Range, StepKind, StepSpec, Stored,
    Text,
};

/// The two parts of an input between which a semicolon stands, the second empty where none does.
fn both(input: &str) -> (&str, &str) {
    input.split_once(';').unwrap_or((input, ""))
}

/// A value: a text behind an apostrophe, else a number.
fn held(alloc: Global, value: &str) -> Result<Held, OutOfMemory> {
    match value.strip_prefix('\'') {
        Some(text) => Ok(Held::Words(Text::of(alloc, text)?)),
        None => Ok(Held::Number(Fix::read(value.as_bytes()).unwrap_or(Fix::truth(false)))),
    }
}

/// The numbers from 1 up to a number, each in its own second.
fn counted(alloc: Global, last: u32) -> Result<Many<Stored>, OutOfMemory> {
    let mut made = Many::new(alloc);
    for sec in 1..last.saturating_add(1) {
        let number = Fix::of_raw(i128::from(sec) * 1_000_000);
        made.push(Stored {
            time: Moment { sec, ns: 0 },
            number: u64::from(sec),
            value: Held::Number(number.unwrap_or(Fix::truth(false))),
        })?;
    }
    Ok(made)
}

/// The values between bars, the oldest first; none where the text is empty, and of `1..9` the numbers from 1 to 9.
fn window(alloc: Global, values: &str) -> Result<Many<Stored>, OutOfMemory> {
    if let Some(last) = values.strip_prefix("1..") {
        return counted(alloc, last.parse().unwrap_or(0));
    }
    let mut made = Many::new(alloc);
    if values.is_empty() {
        return Ok(made);
    }
    for value in values.split('|') {
        let value = held(alloc, value)?;
        made.push(Stored {
            time: Moment { sec: 100, ns: 0 },
            number: 1,
            value,
        })?;
    }
    Ok(made)
}

fn fun_of(name: &str) -> Fun {
    match name {
        "last" => Fun::Last,
        "first" => Fun::First,
        "min" => Fun::Min,
        "max" => Fun::Max,
        "sum" => Fun::Sum,
        "avg" => Fun::Avg,
        "percentile" => Fun::Percentile,
        "change" => Fun::Change,
        "changecount" => Fun::ChangeCount,
        "monoinc" => Fun::MonoInc,
        "monodec" => Fun::MonoDec,
        "count" => Fun::Count,
        "find" => Fun::Find,
        _ => Fun::NoData,
    }
}

fn range_of(text: &str) -> Range {
    match text.strip_prefix('#') {
        Some(count) => Range::Count(count.parse().unwrap_or(0)),
        None => Range::Period(text.parse().unwrap_or(0)),
    }
}

/// A call of a function, with its range, its operator and its argument.
fn call(alloc: Global, text: &str) -> Result<Call, OutOfMemory> {
    let (fun, rest) = both(text);
    let (range, rest) = both(rest);
    let (op, arg) = both(rest);
    let op = Text::of(alloc, op)?;
    let arg = Text::of(alloc, arg)?;
    Ok(Call {
        fun: fun_of(fun),
        host: Text::new(alloc),
        key: Text::new(alloc),
        range: range_of(range),
        shift: 0,
        op,
        arg,
    })
}

/// A text, and the same in any case of its letters.
fn texts(alloc: Global, arg: &Text) -> Result<Many<Text>, OutOfMemory>
    ensures { IfOk result (λ made. made ≡ arg.now ∷ (codes "(?i)" ++ arg.now) ∷ []) }
{
    let mut pattern = Text::of(alloc, "(?i)")?;
    pattern.push_str(arg.as_str())?;
    let mut made = Many::new(alloc);
    made.push(arg.copy(alloc)?)?;
    made.push(pattern)?;
    Ok(made)
}

/// The argument of a call as a pattern, in both ways.
fn patterns(alloc: Global, arg: &Text) -> Result<Patterns, BuildError>
    ensures { IfOk result (λ made. made ≡ arg.now ∷ (codes "(?i)" ++ arg.now) ∷ []) }
{
    match texts(alloc, arg) {
        Ok(texts) => Patterns::build(alloc, &texts),
        Err(_) => Err(BuildError::OutOfMemory),
    }
}

/// The value of a call at second 4,000, before the first Tick.
#[tactic(auto, using(history_functions::proofs::CallPatterns::either_way))]
fn valued(alloc: Global, call: &Call, window: &[Stored]) -> Result<Option<Fix>, OutOfMemory> {
    let Ok(patterns) = patterns(alloc, &call.arg) else {
        return Err(OutOfMemory);
    };
    let now = Moment { sec: 4_000, ns: 0 };
    let made = value(alloc, call, window, now, None, 0, &patterns);
    drop(patterns);
    made
}

/// The same over the values of a text.
fn over(alloc: Global, call: &Call, values: &str) -> Result<Option<Fix>, OutOfMemory> {
    let window = window(alloc, values)?;
    let made = valued(alloc, call, window.as_slice());
    drop(window);
    made
}

/// The value of a function: its name, its range, its operator and its argument, and behind `:` the values.
fn function(alloc: Global, input: &str) -> Result<String, OutOfMemory> {
    let (text, values) = input.split_once(':').unwrap_or((input, ""));
    let call = call(alloc, text)?;
    let made = over(alloc, &call, values);
    drop(call);
    match made? {
        Some(number) => {
            let mut out = Text::new(alloc);
            number.write(&mut out)?;
            Ok(out.into_string())
        }
        None => Ok(String::from_str(alloc, "?")?),
    }
}

/// A step with two parameters.
fn step_of(
    alloc: Global,
    kind: StepKind,
    first: &str,
    second: &str,
) -> Result<StepSpec, OutOfMemory>
    ensures { IfOk result (λ step. step.kind ≡ kind) }
{
    let mut params = Many::new(alloc);
    params.push(Text::of(alloc, first)?)?;
    params.push(Text::of(alloc, second)?)?;
    Ok(StepSpec {
        kind,
        params,
        on_fail: OnFail::Empty,
        text: Text::new(alloc),
    })
}

/// An outcome in short: `=` and the value, `-` where it is dropped, `!` and the text of a failure.
fn shown(alloc: Global, outcome: &Outcome) -> Result<String, OutOfMemory> {
    Ok(match outcome {
        Outcome::Value(value) => format!(in alloc; "={}", value.as_str())?,
        Outcome::Discard => String::from_str(alloc, "-")?,
        Outcome::Fail(text) => format!(in alloc; "!{}", text.as_str())?,
    })
}

/// What a step without a pattern makes of a text.
fn done_by(alloc: Global, step: &StepSpec, value: &Text) -> Result<StepDone, OutOfMemory>
    requires json { looks_into_json step.now.kind ≡ false }
    requires pattern { has_pattern step.now.kind ≡ false }
{
    let Ok(patterns) = Patterns::build(alloc, &Many::new(alloc)) else {
        return Err(OutOfMemory);
    };
    let memory = StepMemory::new(alloc);
    let done = apply(alloc, step, &memory, value, Moment::zero(), &patterns);
    drop(memory);
    drop(patterns);
    done
}

/// The same of a step with two parameters, and of its value.
fn step(alloc: Global, kind: StepKind, input: &str) -> Result<String, OutOfMemory>
    requires json { looks_into_json kind ≡ false }
    requires pattern { has_pattern kind ≡ false }
{
    let (first, rest) = both(input);
    let (second, value) = both(rest);
    let value = Text::of(alloc, value)?;
    let step = step_of(alloc, kind, first, second)?;
    let done = done_by(alloc, &step, &value);
    drop(step);
    let done = done?;
    let made = shown(alloc, &done.outcome);
    drop(done);
    made
}

/// What a case of functions and steps comes to.
pub(crate) fn answer(
    alloc: Global,
    kind: &str,
    input: &str,
) -> Result<Option<String>, OutOfMemory> {
    match kind {
        "function" => Ok(Some(function(alloc, input)?)),
        "multiplier" => Ok(Some(step(alloc, StepKind::Multiplier, input)?)),
        "replace" => Ok(Some(step(alloc, StepKind::Replace, input)?)),
        _ => Ok(None),
    }
}
