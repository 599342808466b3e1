//! Rules of global correlation.

ghost use Rattle.std.specs.Prelude.{◌≡◌};
ghost use Rattle.std.specs.List.{list_any};
ghost use Rattle.json_form.specs.Faults.{Gives};
ghost use Rattle.json_form.specs.Places.{place_of, object_of, word};
ghost use Rattle.config_read.specs.Rules.{rule_cond_kind, tag_test_of, rule_cond_parts, rule_cond_of, rule_conds_of, side_word, is_old, is_new, close_of, rule_of, rules_of};

use crate::naming::{Form, new_name};
use crate::ranges::one_to_16;
use crate::words::{Matchings, TagOps};
use json_form::{At, Element, Named, Names, Object, ReadError, Words, distinct, list};
use serde_json::Value;
use std::alloc::Global;
use zbx_types::{Cause, Many, Matching, Rule, RuleCond, TagTest, Text};

/// What a condition is about.
#[derive(Clone, Copy, Debug, PartialEq, Eq)]
pub(crate) enum RuleCondKind {
    /// A tag of the old problem.
    OldTag,
    /// A tag of the new problem.
    NewTag,
    /// The value of a tag of the old problem.
    OldTagValue,
    /// The value of a tag of the new problem.
    NewTagValue,
    /// A tag of each of them, of one value.
    TagPair,
    /// A host group of the new problem.
    NewGroup,
}

/// The words of `RuleCondKind`.
struct RuleCondKinds;

impl Words for RuleCondKinds {
    type Meaning = RuleCondKind;

    ghost meaning = { rule_cond_kind };

    fn named(text: &str) -> Option<RuleCondKind> {
        match text {
            "old_tag" => Some(RuleCondKind::OldTag),
            "new_tag" => Some(RuleCondKind::NewTag),
            "old_tag_value" => Some(RuleCondKind::OldTagValue),
            "new_tag_value" => Some(RuleCondKind::NewTagValue),
            "tag_pair" => Some(RuleCondKind::TagPair),
            "new_group" => Some(RuleCondKind::NewGroup),
            _ => None,
        }
    }
}

/// A test of a tag, by any operator.
#[tactic(auto, unfolding(crate::specs::Rules::tag_test_of))]
pub(crate) fn tag_test(alloc: Global, object: &Object<'_, '_>) -> Result<TagTest, ReadError>
    ensures { Gives result (tag_test_of (object_of object.now)) }
{
    let tag = object.member("tag").text(alloc)?;
    let op = object.member("op").word::<TagOps>(alloc)?;
    let value = object.member("value").text(alloc)?;
    Ok(TagTest { tag, op, value })
}

#[tactic(auto, unfolding(crate::specs::Rules::rule_cond_parts))]
fn rule_cond_parts(
    alloc: Global,
    kind: RuleCondKind,
    object: &Object<'_, '_>,
) -> Result<RuleCond, ReadError>
    ensures { Gives result (rule_cond_parts kind (object_of object.now)) }
{
    match kind {
        RuleCondKind::OldTag => {
            let tag = object.member("tag").text(alloc)?;
            Ok(RuleCond::OldTag { tag })
        }
        RuleCondKind::NewTag => {
            let tag = object.member("tag").text(alloc)?;
            Ok(RuleCond::NewTag { tag })
        }
        RuleCondKind::OldTagValue => {
            let test = tag_test(alloc, object)?;
            Ok(RuleCond::OldTagValue(test))
        }
        RuleCondKind::NewTagValue => {
            let test = tag_test(alloc, object)?;
            Ok(RuleCond::NewTagValue(test))
        }
        RuleCondKind::TagPair => {
            let old_tag = object.member("old").text(alloc)?;
            let new_tag = object.member("new").text(alloc)?;
            Ok(RuleCond::TagPair { old_tag, new_tag })
        }
        RuleCondKind::NewGroup => {
            let group = object.member("group").text(alloc)?;
            Ok(RuleCond::NewGroup { group })
        }
    }
}

/// The reader of conditions.
struct RuleCondReader;

impl Element for RuleCondReader {
    type Made = RuleCond;

    ghost reads = { rule_cond_of };

    #[tactic(auto, unfolding(crate::specs::Rules::rule_cond_of))]
    fn read(alloc: Global, path: &str, value: &Value) -> Result<RuleCond, ReadError> {
        let object = Object::at(alloc, path, value)?;
        let kind = object.member("kind").word::<RuleCondKinds>(alloc)?;
        rule_cond_parts(alloc, kind, &object)
    }
}

#[tactic(auto, unfolding(crate::specs::Rules::rule_conds_of))]
fn conditions(alloc: Global, at: &At<'_, '_>) -> Result<Many<RuleCond>, ReadError>
    ensures { Gives result (rule_conds_of (place_of at.now)) }
{
    let few = one_to_16(alloc, at)?;
    list::<RuleCondReader>(alloc, &few)
}

/// The problems that a rule closes.
#[derive(Clone, Copy, Debug, PartialEq, Eq)]
pub(crate) enum Side {
    /// The old ones.
    Old,
    /// The new one.
    New,
}

/// The words of `Side`, and the reader of lists of them.
struct Sides;

impl Words for Sides {
    type Meaning = Side;

    ghost meaning = { side_word };

    fn named(text: &str) -> Option<Side> {
        match text {
            "old" => Some(Side::Old),
            "new" => Some(Side::New),
            _ => None,
        }
    }
}

impl Element for Sides {
    type Made = Side;

    ghost reads = { word side_word };

    fn read(alloc: Global, path: &str, value: &Value) -> Result<Side, ReadError> {
        At::here(path, value).word::<Sides>(alloc)
    }
}

fn is_old(side: Side) -> bool
    ensures { result ≡ is_old side }
{
    matches!(side, Side::Old)
}

fn is_new(side: Side) -> bool
    ensures { result ≡ is_new side }
{
    matches!(side, Side::New)
}

fn has_old(sides: &[Side]) -> bool
    ensures { result ≡ list_any is_old sides.now }
{
    sides.iter().any(|side| is_old(*side))
}

fn has_new(sides: &[Side]) -> bool
    ensures { result ≡ list_any is_new sides.now }
{
    sides.iter().any(|side| is_new(*side))
}

/// Whether the old problems close, and whether the new one does.
#[tactic(auto, unfolding(crate::specs::Rules::close_of))]
fn close(alloc: Global, at: &At<'_, '_>) -> Result<(bool, bool), ReadError>
    ensures { Gives result (close_of (place_of at.now)) }
{
    let some = at.not_empty(alloc)?;
    let sides = list::<Sides>(alloc, &some)?;
    Ok((has_old(sides.as_slice()), has_new(sides.as_slice())))
}

/// The reader of rules.
struct RuleReader;

impl Named for RuleReader {
    type Made = Rule;

    ghost name = { λ r. r.name };

    ghost reads = { rule_of };

    #[tactic(auto, unfolding(crate::specs::Rules::rule_of))]
    fn read(
        alloc: Global,
        taken: &mut Names,
        path: &str,
        value: &Value,
    ) -> Result<Rule, ReadError> {
        let object = Object::at(alloc, path, value)?;
        let name = new_name(alloc, Form::Title, taken, &object.member("name"))?;
        let matching = object
            .member("match")
            .word_or::<Matchings>(alloc, Matching::And)?;
        let conditions = conditions(alloc, &object.member("conditions"))?;
        let (close_old, close_new) = close(alloc, &object.member("close"))?;
        Ok(Rule {
            name,
            matching,
            conditions,
            close_old,
            close_new,
        })
    }
}

/// The rules of the document, 32 at most, with distinct names.
#[tactic(auto, unfolding(crate::specs::Rules::rules_of))]
pub(crate) fn correlations(alloc: Global, object: &Object<'_, '_>) -> Result<Many<Rule>, ReadError>
    ensures { Gives result (rules_of (object_of object.now)) }
{
    let few = object
        .member("correlations")
        .at_most(alloc, 32, Cause::TooMany)?;
    distinct::<RuleReader>(alloc, &few)
}
