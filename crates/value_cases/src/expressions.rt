//! Expressions of triggers as texts, and what items keep for their calls.

use case_rows::bytes_of;
use expr_parser::{ParseError, Parsed, read};
use expr_text::write;
use std::alloc::Global;
use std::convert::AsStr;
use value_cache::{Keep, keeps};
use zbx_types::{
    Bytes, Call, Conf, Item, ItemKind, Many, OutOfMemory, Range, RecoveryMode, Text, Trigger,
    ValueType,
};

/// What a text is read as, or the place at which no expression goes on.
fn read_as(alloc: Global, text: &[u8]) -> Result<Result<Parsed, u32>, OutOfMemory> {
    match read(alloc, text) {
        Ok(parsed) => Ok(Ok(parsed)),
        Err(ParseError::At(at)) => Ok(Err(at)),
        Err(ParseError::OutOfMemory) => Err(OutOfMemory),
    }
}

/// The place at which a text of bytes is refused, or `read`.
fn place(alloc: Global, text: &Bytes) -> Result<String, OutOfMemory> {
    Ok(match read_as(alloc, text.as_slice())? {
        Ok(parsed) => {
            drop(parsed);
            String::from_str(alloc, "read")?
        }
        Err(at) => format!(in alloc; "{at}")?,
    })
}

/// The written form of what a text is read as; empty where it isn't read.
fn form(alloc: Global, text: &str) -> Result<Text, OutOfMemory> {
    match read_as(alloc, text.as_bytes())? {
        Ok(parsed) => {
            let made = write(alloc, &parsed);
            drop(parsed);
            made
        }
        Err(_) => Ok(Text::new(alloc)),
    }
}

/// The written form of what a text is read as, where that is its own written form.
fn written(alloc: Global, text: &str) -> Result<String, OutOfMemory> {
    let first = form(alloc, text)?;
    let second = form(alloc, first.as_str())?;
    if first == second {
        Ok(first.into_string())
    } else {
        Ok(String::from_str(alloc, "two forms")?)
    }
}

/// A range as `#1`, or as seconds.
fn range(alloc: Global, range: Range) -> Result<String, OutOfMemory> {
    Ok(match range {
        Range::Count(count) => format!(in alloc; "#{count}")?,
        Range::Period(seconds) => format!(in alloc; "{seconds}")?,
    })
}

/// The parts of a call: host, key, range, shift, operator and argument, with bars between.
fn parts(alloc: Global, call: &Call) -> Result<String, OutOfMemory> {
    let range = range(alloc, call.range)?;
    Ok(format!(in alloc;
        "{:?}|{}|{}|{}|{}|{}|{}",
        call.fun,
        call.host.as_str(),
        call.key.as_str(),
        range.as_str(),
        call.shift,
        call.op.as_str(),
        call.arg.as_str()
    )?)
}

/// The parts of each call, one after another.
fn all_parts(alloc: Global, calls: &[Call]) -> Result<String, OutOfMemory> {
    let mut out = String::new(alloc);
    for call in calls {
        out.push_str(parts(alloc, call)?.as_str())?;
        out.push(';')?;
    }
    Ok(out)
}

/// The calls of a text that is an expression.
fn calls(alloc: Global, text: &str) -> Result<String, OutOfMemory> {
    match read_as(alloc, text.as_bytes())? {
        Ok(parsed) => {
            let made = all_parts(alloc, parsed.calls.as_slice());
            drop(parsed);
            made
        }
        Err(at) => Ok(format!(in alloc; "refused at {at}")?),
    }
}

/// The items of calls, whose keys are their ids; 0 for a call that is over none.
fn items_of(alloc: Global, calls: &[Call]) -> Result<Many<u32>, OutOfMemory> {
    let mut made = Many::new(alloc);
    for call in calls {
        made.push(call.key.as_str().parse().unwrap_or(0))?;
    }
    Ok(made)
}

/// A trigger with what an expression is read as, over these items.
fn trigger(alloc: Global, parsed: Parsed, call_items: Many<u32>) -> Trigger {
    Trigger {
        host: 1,
        name: Text::new(alloc),
        title: Text::new(alloc),
        expr: parsed.expr,
        recovery: RecoveryMode::Nothing,
        recovery_expr: None,
        calls: parsed.calls,
        call_items,
        multiple: false,
        close_tag: Text::new(alloc),
        severity: 0,
        tags: Many::new(alloc),
        depends: Many::new(alloc),
        enabled: true,
        depth: 0,
    }
}

/// The trigger of what an expression is read as.
fn trigger_of(alloc: Global, parsed: Parsed) -> Result<Trigger, OutOfMemory> {
    match items_of(alloc, parsed.calls.as_slice()) {
        Ok(items) => Ok(trigger(alloc, parsed, items)),
        Err(OutOfMemory) => {
            drop(parsed);
            Err(OutOfMemory)
        }
    }
}

/// The triggers of the expressions between bars.
fn triggers(alloc: Global, input: &str) -> Result<Many<Trigger>, OutOfMemory> {
    let mut made = Many::new(alloc);
    for text in input.split('|') {
        if let Ok(parsed) = read_as(alloc, text.as_bytes())? {
            made.push(trigger_of(alloc, parsed)?)?;
        }
    }
    Ok(made)
}

fn items(alloc: Global, count: u32) -> Result<Many<Item>, OutOfMemory> {
    let mut made = Many::new(alloc);
    for _ in 0..count {
        made.push(Item {
            host: 1,
            key: Text::new(alloc),
            kind: ItemKind::Trapper,
            master: 0,
            value_type: ValueType::Number,
            enabled: true,
            steps: Many::new(alloc),
            delay: 0,
        })?;
    }
    Ok(made)
}

/// Four items, and the triggers of these expressions.
fn conf(alloc: Global, input: &str) -> Result<Conf, OutOfMemory> {
    let items = items(alloc, 4)?;
    let triggers = triggers(alloc, input)?;
    Ok(Conf {
        text: Text::new(alloc),
        utc_offset: 0,
        hosts: Many::new(alloc),
        items,
        triggers,
        correlations: Many::new(alloc),
        maintenances: Many::new(alloc),
        actions: Many::new(alloc),
        patterns: Many::new(alloc),
        pattern_paths: Many::new(alloc),
    })
}

/// What items keep, each as its count and its period.
fn shown(alloc: Global, keeps: &[Keep]) -> Result<String, OutOfMemory> {
    let mut out = String::new(alloc);
    for keep in keeps {
        let told = format!(in alloc; "{},{};", keep.count, keep.period)?;
        out.push_str(told.as_str())?;
    }
    Ok(out)
}

/// What the four items keep.
fn kept(alloc: Global, input: &str) -> Result<String, OutOfMemory> {
    let conf = conf(alloc, input)?;
    let made = keeps(alloc, &conf);
    drop(conf);
    shown(alloc, made?.as_slice())
}

/// What a case of expressions comes to.
pub(crate) fn answer(
    alloc: Global,
    kind: &str,
    input: &str,
) -> Result<Option<String>, OutOfMemory> {
    match kind {
        "expression_place" => Ok(Some(place(alloc, &bytes_of(alloc, input)?)?)),
        "expression_written" => Ok(Some(written(alloc, input)?)),
        "calls" => Ok(Some(calls(alloc, input)?)),
        "keeps" => Ok(Some(kept(alloc, input)?)),
        _ => Ok(None),
    }
}
