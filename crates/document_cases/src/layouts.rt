//! The flat configurations of documents, part by part.

use crate::documents::{put_length, put_number, put_state, put_text, put_word};
use case_rows::long_text;
use config_templates::{FlatError, flat};
use std::alloc::Global;
use std::convert::AsStr;
use zbx_types::{
    Call, Conf, Expr, Fun, Host, Item, Op, Operand, OutOfMemory, Range, Text, Trigger, ValueType,
};

/// Adds a host: name, how many groups, and state.
fn put_host(out: &mut Text, host: &Host) -> Result<(), OutOfMemory> {
    put_text(out, &host.name)?;
    put_length(out, host.groups.len())?;
    put_state(out, host.enabled)
}

fn put_hosts(out: &mut Text, hosts: &[Host]) -> Result<(), OutOfMemory> {
    for host in hosts {
        put_host(out, host)?;
    }
    Ok(())
}

/// Adds the keys of items, each behind its host's id and a colon.
fn put_keys(out: &mut Text, items: &[Item]) -> Result<(), OutOfMemory> {
    for item in items {
        put_number(out, item.host)?;
        out.push_str(":")?;
        out.push_str(item.key.as_str())?;
    }
    Ok(())
}

fn put_item(out: &mut Text, item: &Item) -> Result<(), OutOfMemory> {
    let is_text = item.value_type == ValueType::Words;
    put_word(out, if is_text { "text" } else { "number" })?;
    put_number(out, item.master)?;
    put_length(out, item.steps.len())?;
    put_state(out, item.enabled)
}

/// Adds items: value type, master's id, how many steps, and state.
fn put_items(out: &mut Text, items: &[Item]) -> Result<(), OutOfMemory> {
    for item in items {
        put_item(out, item)?;
    }
    Ok(())
}

/// The millionths of a constant.
fn millionths(operand: &Operand) -> Option<i128> {
    match operand.expr() {
        Expr::Const(limit) => Some(limit.raw()),
        _ => None,
    }
}

/// The limit, in millionths, that a trigger's value is above.
fn limit(trigger: &Trigger) -> Option<i128> {
    match &trigger.expr {
        Expr::Bin(Op::Gt, _, limit) => millionths(limit),
        _ => None,
    }
}

/// Whether a call is of the latest value.
fn is_last(call: &Call) -> bool {
    call.fun == Fun::Last && call.range == Range::Count(1) && call.shift == 0
}

fn put_calls(out: &mut Text, calls: &[Call]) -> Result<(), OutOfMemory> {
    for call in calls {
        put_word(out, if is_last(call) { "last" } else { "another" })?;
        put_text(out, &call.host)?;
        put_text(out, &call.key)?;
    }
    Ok(())
}

fn put_numbers(out: &mut Text, numbers: &[u32]) -> Result<(), OutOfMemory> {
    for number in numbers {
        put_number(out, *number)?;
    }
    Ok(())
}

/// Adds a limit in millionths.
fn put_limit(alloc: Global, out: &mut Text, trigger: &Trigger) -> Result<(), OutOfMemory> {
    let limit = limit(trigger).unwrap_or(0);
    let shown = format!(in alloc; "{limit}")?;
    put_word(out, shown.as_str())
}

fn put_trigger(alloc: Global, out: &mut Text, trigger: &Trigger) -> Result<(), OutOfMemory> {
    put_number(out, trigger.host)?;
    put_text(out, &trigger.name)?;
    put_text(out, &trigger.title)?;
    put_limit(alloc, out, trigger)?;
    put_calls(out, trigger.calls.as_slice())?;
    put_numbers(out, trigger.call_items.as_slice())?;
    put_word(out, "severity")?;
    put_number(out, u32::from(trigger.severity))
}

/// Adds triggers: host's id, name, title, limit, calls, ids of their items, and severity.
fn put_triggers(alloc: Global, out: &mut Text, triggers: &[Trigger]) -> Result<(), OutOfMemory> {
    for trigger in triggers {
        put_trigger(alloc, out, trigger)?;
        out.push_str(";")?;
    }
    Ok(())
}

/// Adds the patterns, each with the pointer to its first use.
fn put_patterns(out: &mut Text, texts: &[Text], paths: &[Text]) -> Result<(), OutOfMemory> {
    for (text, path) in texts.iter().zip(paths) {
        put_text(out, text)?;
        put_word(out, path.as_str())?;
    }
    Ok(())
}

/// Adds how many bytes are kept of a trigger's title, and of the name and the value of each tag.
fn put_sizes(out: &mut Text, trigger: &Trigger) -> Result<(), OutOfMemory> {
    put_length(out, trigger.title.len())?;
    for tag in trigger.tags.as_slice() {
        put_length(out, tag.tag.len())?;
        put_length(out, tag.value.len())?;
    }
    Ok(())
}

fn put_all_sizes(out: &mut Text, triggers: &[Trigger]) -> Result<(), OutOfMemory> {
    for trigger in triggers {
        put_sizes(out, trigger)?;
    }
    Ok(())
}

/// Adds the difference to UTC, and the text of the document.
fn put_document(alloc: Global, out: &mut Text, conf: &Conf) -> Result<(), OutOfMemory> {
    let offset = format!(in alloc; "{offset} ", offset = conf.utc_offset)?;
    out.push_str(offset.as_str())?;
    out.push_str(conf.text.as_str())
}

/// Adds the part that has a name.
fn put_part(alloc: Global, out: &mut Text, name: &str, conf: &Conf) -> Result<(), OutOfMemory> {
    match name {
        "document" => put_document(alloc, out, conf),
        "hosts" => put_hosts(out, conf.hosts.as_slice()),
        "keys" => put_keys(out, conf.items.as_slice()),
        "items" => put_items(out, conf.items.as_slice()),
        "triggers" => put_triggers(alloc, out, conf.triggers.as_slice()),
        "patterns" => put_patterns(out, conf.patterns.as_slice(), conf.pattern_paths.as_slice()),
        "sizes" => put_all_sizes(out, conf.triggers.as_slice()),
        _ => out.push_str("no such part"),
    }
}

fn part(alloc: Global, name: &str, conf: &Conf) -> Result<String, OutOfMemory> {
    let mut out = Text::new(alloc);
    put_part(alloc, &mut out, name, conf)?;
    Ok(out.into_string())
}

/// A part of a document's flat configuration, or the pointer and the cause of its fault.
fn of_text(alloc: Global, name: &str, text: &str) -> Result<String, OutOfMemory> {
    match flat(alloc, text.as_bytes()) {
        Ok(conf) => {
            let made = part(alloc, name, &conf);
            drop(conf);
            made
        }
        Err(FlatError::Refused { path, cause }) => {
            Ok(format!(in alloc; "{path} {cause:?}", path = path.as_str())?)
        }
        Err(FlatError::OutOfMemory) => Err(OutOfMemory),
    }
}

/// The same of a row.
fn of_row(alloc: Global, name: &str, input: &str) -> Result<String, OutOfMemory> {
    let text = long_text(alloc, input)?;
    of_text(alloc, name, text.as_str())
}

/// What a case of flat configurations comes to.
pub(crate) fn answer(
    alloc: Global,
    kind: &str,
    input: &str,
) -> Result<Option<String>, OutOfMemory> {
    match kind.strip_prefix("flat ") {
        Some(name) => Ok(Some(of_row(alloc, name, input)?)),
        None => Ok(None),
    }
}
