//! The patterns that triggers use.

ghost use Rattle.std.specs.Prelude.{◌≡◌, ◌++◌, ◌<◌, codes, IfOk, OnOk};
ghost use Rattle.std.specs.Option.{option_to_list};
ghost use Rattle.host_layout.specs.Answers.{GivesAs};
ghost use Rattle.host_layout.specs.Elements.{IsRefusal};
ghost use Rattle.config_templates.specs.Members.{member_path, trigger_path, users_now};
ghost use Rattle.host_layout.specs.Patterns.{used, joined};
ghost use Rattle.host_layout.specs.Places.{each_list, placed};
ghost use Rattle.config_templates.specs.Uses.{member_joined, patterns_called, tag_joined, trigger_joined};
ghost use Rattle.zbx_types.specs.Operators.{call_pattern};

use event_text::patterns_in;
use host_layout::{FlatError, Joining, PatternList, Source, member_pointer};
use json_form::element;
use std::alloc::Global;
use std::convert::AsStr;
use zbx_types::{Call, Cause, Many, OutOfMemory, Tag, Text};

/// A member of a trigger that may use patterns.
#[derive(Clone, Copy)]
pub(crate) enum Member {
    /// Its name.
    Name,
    /// Its expression.
    Expression,
    /// Its recovery expression.
    RecoveryExpression,
    /// The value of the tag at this place, counted from 0.
    TagValue(usize),
}

/// The pointer to the value of a tag of a trigger.
fn tag_pointer(
    alloc: Global,
    source: &Source<'_>,
    index: usize,
    place: usize,
) -> Result<Text, OutOfMemory>
    ensures { IfOk result (λ t. t ≡ member_path (trigger_path source.now index) (Member.TagValue place)) }
{
    let tags = member_pointer(alloc, source, "/triggers", index, "/tags")?;
    let mut path = element(alloc, tags.as_str(), place)?;
    path.push_str("/value")?;
    Ok(path)
}

/// The pointer to a member of a trigger.
fn pointer(
    alloc: Global,
    source: &Source<'_>,
    index: usize,
    member: Member,
) -> Result<Text, OutOfMemory>
    ensures { IfOk result (λ t. t ≡ member_path (trigger_path source.now index) member) }
{
    match member {
        Member::Name => member_pointer(alloc, source, "/triggers", index, "/name"),
        Member::Expression => member_pointer(alloc, source, "/triggers", index, "/expression"),
        Member::RecoveryExpression => {
            member_pointer(alloc, source, "/triggers", index, "/recovery_expression")
        }
        Member::TagValue(place) => tag_pointer(alloc, source, index, place),
    }
}

/// The refusal of a member of a trigger.
fn refused(
    alloc: Global,
    source: &Source<'_>,
    index: usize,
    member: Member,
    cause: Cause,
) -> FlatError
    ensures { IsRefusal (member_path (trigger_path source.now index) member) cause result }
{
    match pointer(alloc, source, index, member) {
        Ok(path) => FlatError::Refused { path, cause },
        Err(OutOfMemory) => FlatError::OutOfMemory,
    }
}

/// Joins a pattern that a member of a trigger uses.
#[tactic(auto, using(host_layout::proofs::Failing::refusal))]
fn join(
    alloc: Global,
    patterns: &mut PatternList,
    source: &Source<'_>,
    index: usize,
    member: Member,
    text: &Text,
) -> Result<(), FlatError>
    ensures { GivesAs (λ _. patterns.new) result (joined patterns.old (used text.now (member_path (trigger_path source.now index) member))) }
{
    match patterns.settle(text.as_str()) {
        Joining::Known => Ok(()),
        Joining::New => {
            let path = pointer(alloc, source, index, member)?;
            Ok(patterns.add(alloc, text.as_str(), path)?)
        }
        Joining::Refused(cause) => Err(refused(alloc, source, index, member, cause)),
    }
}

/// Joins the patterns that a member of a trigger uses, in their order.
fn join_texts(
    alloc: Global,
    patterns: &mut PatternList,
    source: &Source<'_>,
    index: usize,
    member: Member,
    texts: &Many<Text>,
) -> Result<(), FlatError>
    ensures { GivesAs (λ _. patterns.new) result (member_joined patterns.old (member_path (trigger_path source.now index) member) texts.now) }
{
    for text in texts.as_slice() {
        join(alloc, patterns, source, index, member, text)?;
    }
    Ok(())
}

/// Adds the pattern of a call, where it has one.
fn put_pattern(alloc: Global, call: &Call, made: &mut Many<Text>) -> Result<(), OutOfMemory>
    ensures { OnOk result (made.new ≡ made.old ++ option_to_list (call_pattern call.now)) }
{
    if let Some(pattern) = call.pattern(alloc)? {
        made.push(pattern)?;
    }
    Ok(())
}

/// The patterns of calls.
fn patterns_called(alloc: Global, calls: &[Call]) -> Result<Many<Text>, OutOfMemory>
    ensures { IfOk result (λ made. made ≡ patterns_called calls.now) }
{
    let mut made = Many::new(alloc);
    for call in calls {
        put_pattern(alloc, call, &mut made)?;
    }
    Ok(made)
}

/// Joins the patterns that calls of a trigger search for.
fn join_calls(
    alloc: Global,
    patterns: &mut PatternList,
    source: &Source<'_>,
    index: usize,
    member: Member,
    calls: &[Call],
) -> Result<(), FlatError>
    ensures { GivesAs (λ _. patterns.new) result (member_joined patterns.old (member_path (trigger_path source.now index) member) (patterns_called calls.now)) }
{
    let texts = patterns_called(alloc, calls)?;
    join_texts(alloc, patterns, source, index, member, &texts)
}

/// Joins the patterns of the tags of a trigger.
fn join_tags(
    alloc: Global,
    patterns: &mut PatternList,
    source: &Source<'_>,
    index: usize,
    tags: &Many<Tag>,
) -> Result<(), FlatError>
    ensures { GivesAs (λ _. patterns.new) result (each_list tag_joined patterns.old (placed (trigger_path source.now index ++ codes "/tags") tags.now)) }
{
    for (place, tag) in tags.as_slice().iter().enumerate() {
        let texts = patterns_in(alloc, &tag.value)?;
        join_texts(
            alloc,
            patterns,
            source,
            index,
            Member::TagValue(place),
            &texts,
        )?;
    }
    Ok(())
}

/// What a trigger uses patterns in.
#[derive(Clone, Copy)]
pub(crate) struct Users<'t> {
    /// Its title.
    pub title: &'t Text,
    /// The calls of its expression.
    pub calls: &'t [Call],
    /// The calls of its recovery expression.
    pub recovery_calls: &'t [Call],
    /// Its tags, user macros having their values.
    pub tags: &'t Many<Tag>,
}

/// Joins the patterns of a trigger: those in its title, those that the calls of its expression search for, then those of its
/// recovery expression, and those in the values of its tags.
///
/// Refused at the member that uses it: `BadMember` where a pattern is empty or has more than 255 bytes, `TooMany` where it is
/// the 129th.
#[tactic(auto, unfolding(crate::specs::Uses::trigger_joined))]
pub(crate) fn join_trigger(
    alloc: Global,
    patterns: &mut PatternList,
    source: &Source<'_>,
    index: usize,
    users: Users<'_>,
) -> Result<(), FlatError>
    ensures { GivesAs (λ _. patterns.new) result (trigger_joined patterns.old (trigger_path source.now index) (users_now users.entry)) }
{
    let texts = patterns_in(alloc, users.title)?;
    join_texts(alloc, patterns, source, index, Member::Name, &texts)?;
    join_calls(
        alloc,
        patterns,
        source,
        index,
        Member::Expression,
        users.calls,
    )?;
    let member = Member::RecoveryExpression;
    join_calls(alloc, patterns, source, index, member, users.recovery_calls)?;
    join_tags(alloc, patterns, source, index, users.tags)
}
