//! Whether the patterns in event names and tags are among those of the configuration.

ghost use Rattle.std.specs.Prelude.{◌≡◌, true, All, Contains, IfOk, OnOk};
ghost use Rattle.event_text.specs.Titles.{HasPatterns};
ghost use Rattle.preprocess.specs.Ways.{HasPattern, HavePatterns};
ghost use Rattle.preprocess.specs.Visits.{ArePatternsOf};
ghost use Rattle.zbx_types.specs.declared.items.Item.{Item};
ghost use Rattle.conf_index.specs.Patterned.{HasTexts, ArePatterned};

use event_text::patterns_in;
use prep_steps::parameter;
use std::alloc::Global;
use std::convert::AsStr;
use zbx_types::{Conf, Item, OutOfMemory, StepSpec, Tag, Text, Trigger};

/// Whether a text is among some.
fn is_among(texts: &[Text], text: &Text) -> bool
    ensures { result ≡ true → Contains texts.now text.now }
{
    texts.contains(text)
}

/// Whether all of these are among some.
fn are_among(texts: &[Text], asked: &[Text]) -> bool
    ensures { result ≡ true → All (Contains texts.now) asked.now }
{
    for one in asked {
        if !is_among(texts, one) {
            return false;
        }
    }
    true
}

/// Whether the patterns of a text are among these.
fn has_patterns(alloc: Global, texts: &[Text], text: &Text) -> Result<bool, OutOfMemory>
    ensures { IfOk result (λ made. made ≡ true → HasPatterns texts.now text.now) }
{
    let used = patterns_in(alloc, text)?;
    Ok(are_among(texts, used.as_slice()))
}

/// Whether the patterns of tags' values are among these.
fn tags_have(alloc: Global, texts: &[Text], tags: &[Tag]) -> Result<bool, OutOfMemory>
    ensures { IfOk result (λ made. made ≡ true → All (λ tag. HasPatterns texts.now tag.value) tags.now) }
{
    for tag in tags {
        if !has_patterns(alloc, texts, &tag.value)? {
            return Ok(false);
        }
    }
    Ok(true)
}

/// Whether the patterns of a trigger's title and tags are among these.
fn trigger_has(alloc: Global, texts: &[Text], trigger: &Trigger) -> Result<bool, OutOfMemory>
    ensures { IfOk result (λ made. made ≡ true → HasTexts texts.now trigger.now) }
{
    if !has_patterns(alloc, texts, &trigger.title)? {
        return Ok(false);
    }
    let have = tags_have(alloc, texts, trigger.tags.as_slice())?;
    Ok(have)
}

/// Whether the patterns of the titles and tags of all triggers are among these.
fn all_have(alloc: Global, texts: &[Text], triggers: &[Trigger]) -> Result<bool, OutOfMemory>
    ensures { IfOk result (λ made. made ≡ true → All (HasTexts texts.now) triggers.now) }
{
    for trigger in triggers {
        if !trigger_has(alloc, texts, trigger)? {
            return Ok(false);
        }
    }
    Ok(true)
}

/// Checks that the patterns of the titles and tags of all triggers are among those of the configuration: else there
/// is no room for others.
pub(crate) fn patterned(alloc: Global, conf: &Conf) -> Result<(), OutOfMemory>
    ensures { OnOk result (ArePatterned conf.now) }
{
    let have = all_have(alloc, conf.patterns.as_slice(), conf.triggers.as_slice())?;
    if !have {
        return Err(OutOfMemory);
    }
    Ok(())
}

/// Whether the pattern of a step, if it has one, is among these.
fn step_has(texts: &[Text], step: &StepSpec) -> bool
    ensures { result ≡ true → HasPattern texts.now step.now }
{
    if !step.kind.has_pattern() {
        return true;
    }
    let pattern = parameter(&step.params, 0);
    for text in texts {
        if text.as_str() == pattern {
            return true;
        }
    }
    false
}

/// Whether the patterns of steps are among these.
fn steps_have(texts: &[Text], steps: &[StepSpec]) -> bool
    ensures { result ≡ true → HavePatterns texts.now steps.now }
{
    for step in steps {
        if !step_has(texts, step) {
            return false;
        }
    }
    true
}

/// Whether the patterns of the steps of all items are among these.
fn items_have(texts: &[Text], items: &[Item]) -> bool
    ensures { result ≡ true → All (λ (item : Item). HavePatterns texts.now item.steps) items.now }
{
    for item in items {
        if !steps_have(texts, item.steps.as_slice()) {
            return false;
        }
    }
    true
}

/// Checks that the patterns of the steps of all items are among those of the configuration: else there is no room for
/// others.
#[tactic(auto, using(crate::proofs::Sight::step_patterns))]
pub(crate) fn stepped(conf: &Conf) -> Result<(), OutOfMemory>
    ensures { OnOk result (ArePatternsOf conf.now conf.now.patterns) }
{
    if !items_have(conf.patterns.as_slice(), conf.items.as_slice()) {
        return Err(OutOfMemory);
    }
    Ok(())
}
