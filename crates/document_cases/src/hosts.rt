//! Templates and hosts of documents, with their items and triggers.

use crate::documents::{put_length, put_number, put_state, put_text, put_texts, put_word};
use config_read::{RawDepend, RawHost, RawItem, RawMacro, RawTrigger};
use zbx_types::{
    ItemKind, OnFail, OutOfMemory, RecoveryMode, StepKind, StepSpec, Tag, Text, ValueType,
};

/// Adds macros, each as a name and a value.
pub(crate) fn put_macros(out: &mut Text, macros: &[RawMacro]) -> Result<(), OutOfMemory> {
    for one in macros {
        put_text(out, &one.name)?;
        put_text(out, &one.value)?;
    }
    Ok(())
}

fn put_host(out: &mut Text, host: &RawHost) -> Result<(), OutOfMemory> {
    put_text(out, &host.name)?;
    put_texts(out, &host.templates)?;
    put_macros(out, host.macros.as_slice())?;
    put_texts(out, &host.groups)?;
    put_length(out, host.items.len())?;
    put_length(out, host.triggers.len())?;
    put_state(out, host.enabled)
}

/// Adds hosts: name, templates, macros, groups, how many items and triggers, and state.
pub(crate) fn put_hosts(out: &mut Text, hosts: &[RawHost]) -> Result<(), OutOfMemory> {
    for host in hosts {
        put_host(out, host)?;
        out.push_str(";")?;
    }
    Ok(())
}

fn kind_word(kind: ItemKind) -> &'static str {
    match kind {
        ItemKind::Trapper => "trapper",
        ItemKind::Dependent => "dependent",
        ItemKind::Active => "active",
    }
}

fn type_word(value_type: ValueType) -> &'static str {
    match value_type {
        ValueType::Number => "number",
        ValueType::Words => "text",
    }
}

fn fail_word(on_fail: OnFail) -> &'static str {
    match on_fail {
        OnFail::Empty => "empty",
        OnFail::Discard => "discard",
        OnFail::Value => "value",
        OnFail::Error => "error",
    }
}

fn step_word(kind: StepKind) -> &'static str {
    match kind {
        StepKind::Regex => "regex",
        StepKind::Trim => "trim",
        StepKind::Throttle => "throttle",
        StepKind::ThrottleHeartbeat => "throttle_heartbeat",
        _ => "another",
    }
}

fn put_steps(out: &mut Text, steps: &[StepSpec]) -> Result<(), OutOfMemory> {
    for step in steps {
        put_word(out, step_word(step.kind))?;
        put_texts(out, &step.params)?;
        put_word(out, fail_word(step.on_fail))?;
        put_text(out, &step.text)?;
    }
    Ok(())
}

fn put_item(out: &mut Text, item: &RawItem) -> Result<(), OutOfMemory> {
    put_text(out, &item.key)?;
    put_word(out, kind_word(item.kind))?;
    put_text(out, &item.master)?;
    put_word(out, type_word(item.value_type))?;
    put_state(out, item.enabled)?;
    put_steps(out, item.steps.as_slice())
}

fn put_items(out: &mut Text, items: &[RawItem]) -> Result<(), OutOfMemory> {
    for item in items {
        put_item(out, item)?;
        out.push_str(";")?;
    }
    Ok(())
}

/// Adds the items of hosts: key, kind, master, value type, state, and steps with parameters, what a failure does and text.
pub(crate) fn put_all_items(out: &mut Text, hosts: &[RawHost]) -> Result<(), OutOfMemory> {
    for host in hosts {
        put_items(out, host.items.as_slice())?;
    }
    Ok(())
}

fn recovery_word(mode: RecoveryMode) -> &'static str {
    match mode {
        RecoveryMode::Expression => "expression",
        RecoveryMode::RecoveryExpression => "recovery_expression",
        RecoveryMode::Nothing => "none",
    }
}

fn put_tags(out: &mut Text, tags: &[Tag]) -> Result<(), OutOfMemory> {
    for tag in tags {
        put_text(out, &tag.tag)?;
        put_text(out, &tag.value)?;
    }
    Ok(())
}

fn put_depends(out: &mut Text, depends: &[RawDepend]) -> Result<(), OutOfMemory> {
    for one in depends {
        put_text(out, &one.host)?;
        put_text(out, &one.trigger)?;
    }
    Ok(())
}

/// Adds what a trigger has beside its expressions.
fn put_rest(out: &mut Text, trigger: &RawTrigger) -> Result<(), OutOfMemory> {
    put_text(out, &trigger.close_tag)?;
    put_number(out, u32::from(trigger.severity))?;
    put_word(out, "tags")?;
    put_tags(out, trigger.tags.as_slice())?;
    put_word(out, "depends")?;
    put_depends(out, trigger.depends.as_slice())?;
    put_state(out, trigger.enabled)
}

fn put_trigger(out: &mut Text, trigger: &RawTrigger) -> Result<(), OutOfMemory> {
    put_text(out, &trigger.name)?;
    put_text(out, &trigger.expression)?;
    put_word(out, recovery_word(trigger.recovery))?;
    put_text(out, &trigger.recovery_expression)?;
    put_word(
        out,
        if trigger.multiple {
            "multiple"
        } else {
            "single"
        },
    )?;
    put_rest(out, trigger)
}

fn put_triggers(out: &mut Text, triggers: &[RawTrigger]) -> Result<(), OutOfMemory> {
    for trigger in triggers {
        put_trigger(out, trigger)?;
        out.push_str(";")?;
    }
    Ok(())
}

/// Adds the triggers of hosts: name, expression, recovery and its expression, whether multiple, the tag that closes,
/// severity, tags, what they depend on, and state.
pub(crate) fn put_all_triggers(out: &mut Text, hosts: &[RawHost]) -> Result<(), OutOfMemory> {
    for host in hosts {
        put_triggers(out, host.triggers.as_slice())?;
    }
    Ok(())
}
