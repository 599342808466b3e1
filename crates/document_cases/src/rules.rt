//! Rules of correlation, maintenances and actions of documents.

use crate::documents::{put_number, put_state, put_text, put_texts, put_word};
use zbx_types::{
    Action, ActionCond, Maintenance, Many, Matching, Operation, OutOfMemory, Period, Rule,
    RuleCond, Sending, SeverityOp, TagOp, TagTest, Text,
};

fn matching_word(matching: Matching) -> &'static str {
    match matching {
        Matching::And => "and",
        Matching::Or => "or",
    }
}

fn op_word(op: TagOp) -> &'static str {
    match op {
        TagOp::Equals => "equals",
        TagOp::Contains => "contains",
        TagOp::NotEquals => "not_equals",
        TagOp::NotContains => "not_contains",
    }
}

fn put_test(out: &mut Text, name: &str, test: &TagTest) -> Result<(), OutOfMemory> {
    put_word(out, name)?;
    put_text(out, &test.tag)?;
    put_word(out, op_word(test.op))?;
    put_text(out, &test.value)
}

/// Adds a name and a text.
fn put_named(out: &mut Text, name: &str, text: &Text) -> Result<(), OutOfMemory> {
    put_word(out, name)?;
    put_text(out, text)
}

fn put_condition(out: &mut Text, condition: &RuleCond) -> Result<(), OutOfMemory> {
    match condition {
        RuleCond::OldTag { tag } => put_named(out, "old_tag", tag),
        RuleCond::NewTag { tag } => put_named(out, "new_tag", tag),
        RuleCond::OldTagValue(test) => put_test(out, "old_tag_value", test),
        RuleCond::NewTagValue(test) => put_test(out, "new_tag_value", test),
        RuleCond::TagPair { old_tag, new_tag } => {
            put_named(out, "tag_pair", old_tag)?;
            put_text(out, new_tag)
        }
        RuleCond::NewGroup { group } => put_named(out, "new_group", group),
    }
}

fn put_correlation(out: &mut Text, rule: &Rule) -> Result<(), OutOfMemory> {
    put_named(out, matching_word(rule.matching), &rule.name)?;
    for condition in rule.conditions.as_slice() {
        put_condition(out, condition)?;
    }
    put_state(out, rule.close_old)?;
    put_state(out, rule.close_new)
}

/// Adds rules: how conditions are joined, name, conditions, and whether the old problems and the new one are closed.
pub(crate) fn put_correlations(out: &mut Text, rules: &[Rule]) -> Result<(), OutOfMemory> {
    for rule in rules {
        put_correlation(out, rule)?;
        out.push_str(";")?;
    }
    Ok(())
}

fn put_numbers(out: &mut Text, numbers: &Many<u32>) -> Result<(), OutOfMemory> {
    out.push_str(" [")?;
    for number in numbers.as_slice() {
        put_number(out, *number)?;
    }
    out.push_str(" ]")
}

/// Adds a name and three numbers.
fn put_three(
    out: &mut Text,
    name: &str,
    first: u32,
    second: u32,
    third: u32,
) -> Result<(), OutOfMemory> {
    put_word(out, name)?;
    put_number(out, first)?;
    put_number(out, second)?;
    put_number(out, third)
}

/// Adds a period: its kind, the numbers of its kind and its length in seconds, and its days or months.
fn put_period(out: &mut Text, period: &Period) -> Result<(), OutOfMemory> {
    match period {
        Period::Once { start, length } => {
            put_word(out, "once")?;
            put_number(out, *start)?;
            put_number(out, *length)
        }
        Period::Daily { every, at, length } => put_three(out, "daily", *every, *at, *length),
        Period::Weekly {
            every,
            days,
            at,
            length,
        } => {
            put_three(out, "weekly", *every, *at, *length)?;
            put_numbers(out, days)
        }
        Period::Monthly {
            months,
            day,
            at,
            length,
        } => {
            put_three(out, "monthly", *day, *at, *length)?;
            put_numbers(out, months)
        }
    }
}

fn put_maintenance(out: &mut Text, one: &Maintenance) -> Result<(), OutOfMemory> {
    put_named(out, matching_word(one.matching), &one.name)?;
    put_number(out, one.since)?;
    put_number(out, one.till)?;
    put_state(out, one.collect)?;
    put_texts(out, &one.hosts)?;
    put_texts(out, &one.groups)?;
    for test in one.tags.as_slice() {
        put_test(out, "tag", test)?;
    }
    for period in one.periods.as_slice() {
        put_period(out, period)?;
    }
    Ok(())
}

/// Adds maintenances: how tags are joined, name, since when, till when, whether data is collected, hosts, groups, tags and
/// periods.
pub(crate) fn put_maintenances(out: &mut Text, all: &[Maintenance]) -> Result<(), OutOfMemory> {
    for one in all {
        put_maintenance(out, one)?;
        out.push_str(";")?;
    }
    Ok(())
}

fn severity_word(op: SeverityOp) -> &'static str {
    match op {
        SeverityOp::Ge => "ge",
        SeverityOp::Le => "le",
        SeverityOp::Eq => "eq",
    }
}

fn put_action_condition(out: &mut Text, condition: &ActionCond) -> Result<(), OutOfMemory> {
    match condition {
        ActionCond::Severity { op, value } => {
            put_word(out, severity_word(*op))?;
            put_number(out, *value)
        }
        ActionCond::Host { host } => put_named(out, "host", host),
        ActionCond::Group { group } => put_named(out, "group", group),
        ActionCond::TriggerName { text } => put_named(out, "trigger_name", text),
        ActionCond::Tag { tag } => put_named(out, "tag", tag),
        ActionCond::TagValue(test) => put_test(out, "tag_value", test),
        ActionCond::Suppressed => put_word(out, "suppressed"),
        ActionCond::NotSuppressed => put_word(out, "not_suppressed"),
    }
}

fn put_operation(out: &mut Text, operation: &Operation) -> Result<(), OutOfMemory> {
    put_three(
        out,
        "operation",
        operation.from,
        operation.to,
        operation.duration,
    )?;
    put_texts(out, &operation.recipients)?;
    put_text(out, &operation.subject)?;
    put_text(out, &operation.body)
}

fn put_sending(out: &mut Text, sending: &Sending) -> Result<(), OutOfMemory> {
    put_word(out, "recovery")?;
    put_texts(out, &sending.recipients)?;
    put_text(out, &sending.subject)?;
    put_text(out, &sending.body)
}

fn put_action(out: &mut Text, action: &Action) -> Result<(), OutOfMemory> {
    put_named(out, matching_word(action.matching), &action.name)?;
    for condition in action.conditions.as_slice() {
        put_action_condition(out, condition)?;
    }
    put_number(out, action.step_duration)?;
    put_state(out, action.pause_suppressed)?;
    for operation in action.operations.as_slice() {
        put_operation(out, operation)?;
    }
    for sending in action.recovery.as_slice() {
        put_sending(out, sending)?;
    }
    Ok(())
}

/// Adds actions: how conditions are joined, name, conditions, seconds of a step, whether suppressed problems pause it,
/// operations and messages of recovery.
pub(crate) fn put_actions(out: &mut Text, actions: &[Action]) -> Result<(), OutOfMemory> {
    for action in actions {
        put_action(out, action)?;
        out.push_str(";")?;
    }
    Ok(())
}
