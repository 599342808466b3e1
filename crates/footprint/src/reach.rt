//! Reaches of rules: which triggers a rule of global correlation can be about.

ghost use Rattle.std.specs.Prelude.{◌≡◌, option_copied, IfOk};
ghost use Rattle.std.specs.List.{list_all};
ghost use Rattle.zbx_types.specs.Reach.{asks_for_value, old_name, new_name, has_name, reaches, in_reach};
ghost use Rattle.footprint.specs.Reaches.{reached_from};

use std::alloc::Global;
use zbx_types::{
    Many, Matching, OutOfMemory, Rule, RuleCond, Tag, TagOp, Text, Trigger, has_tag, id_of,
};

/// Whether an operator holds of some value, so that the tag has to be there.
fn asks_for_value(op: TagOp) -> bool
    ensures { result ≡ asks_for_value op }
{
    match op {
        TagOp::Equals | TagOp::Contains => true,
        TagOp::NotEquals | TagOp::NotContains => false,
    }
}

/// The tag that an old problem must have for a condition to hold.
fn old_name(condition: &RuleCond) -> Option<&Text>
    ensures { option_copied result ≡ old_name condition.now }
{
    match condition {
        RuleCond::OldTag { tag } => Some(tag),
        RuleCond::OldTagValue(test) if asks_for_value(test.op) => Some(&test.tag),
        RuleCond::TagPair { old_tag, .. } => Some(old_tag),
        RuleCond::OldTagValue(_)
        | RuleCond::NewTag { .. }
        | RuleCond::NewTagValue(_)
        | RuleCond::NewGroup { .. } => None,
    }
}

/// The tag that a new problem must have for a condition to hold.
fn new_name(condition: &RuleCond) -> Option<&Text>
    ensures { option_copied result ≡ new_name condition.now }
{
    match condition {
        RuleCond::NewTag { tag } => Some(tag),
        RuleCond::NewTagValue(test) if asks_for_value(test.op) => Some(&test.tag),
        RuleCond::TagPair { new_tag, .. } => Some(new_tag),
        RuleCond::NewTagValue(_)
        | RuleCond::OldTag { .. }
        | RuleCond::OldTagValue(_)
        | RuleCond::NewGroup { .. } => None,
    }
}

/// Whether some tag has a name, where one is asked for.
fn has_name(tags: &[Tag], name: Option<&Text>) -> bool
    ensures { result ≡ has_name tags.now (option_copied name.entry) }
{
    match name {
        None => true,
        Some(name) => has_tag(tags, name),
    }
}

/// Whether a trigger with these tags can be the old side of conditions.
fn can_be_old(tags: &[Tag], conditions: &[RuleCond]) -> bool
    ensures { result ≡ list_all (λ condition. has_name tags.now (old_name condition)) conditions.now }
{
    for condition in conditions {
        if !has_name(tags, old_name(condition)) {
            return false;
        }
    }
    true
}

/// Whether a trigger with these tags can be the new side of conditions.
fn can_be_new(tags: &[Tag], conditions: &[RuleCond]) -> bool
    ensures { result ≡ list_all (λ condition. has_name tags.now (new_name condition)) conditions.now }
{
    for condition in conditions {
        if !has_name(tags, new_name(condition)) {
            return false;
        }
    }
    true
}

/// Whether a rule reaches a trigger with these tags.
fn reaches(rule: &Rule, tags: &[Tag]) -> bool
    ensures { result ≡ reaches rule.now.matching rule.now tags.now }
{
    let conditions = rule.conditions.as_slice();
    match rule.matching {
        Matching::Or => true,
        Matching::And => can_be_old(tags, conditions) || can_be_new(tags, conditions),
    }
}

/// Whether a rule's reach holds a trigger: a problem of the trigger can be one of the two that the rule is about. Under `or`
/// it holds each trigger, under `and` those that have all tags that the conditions on one side ask for.
pub fn in_reach(rule: &Rule, trigger: &Trigger) -> bool
    ensures { result ≡ in_reach rule.now trigger.now }
{
    reaches(rule, trigger.tags.as_slice())
}

/// The rules whose reach holds a trigger, rising.
pub(crate) fn reaching(
    alloc: Global,
    rules: &[Rule],
    trigger: &Trigger,
) -> Result<Many<u32>, OutOfMemory>
    ensures { IfOk result (λ row. row ≡ reached_from trigger.now 1 rules.now) }
{
    let mut row = Many::new(alloc);
    for (place, rule) in rules.iter().enumerate() {
        if in_reach(rule, trigger) {
            row.push(id_of(place)?)?;
        }
    }
    Ok(row)
}
