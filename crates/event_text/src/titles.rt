//! Names of events and tags of problems.

ghost use Rattle.std.specs.Prelude.{◌≡◌, ◌++◌, ◌∷◌, ◌<◌, ◌≤◌, IfOk, OnOk, All, Contains, length, map, option_copied, unwrap_or, []};
ghost use Rattle.zbx_types.specs.declared.entries.Tag.{Tag};
ghost use Rattle.pattern_set.specs.Filling.{filled_of};
ghost use Rattle.event_text.specs.Cuts.{cut, Adds, Goes};
ghost use Rattle.event_text.specs.Forms.{pattern_of, patterns_of};
ghost use Rattle.event_text.specs.Titles.{held_at, item_text, macro_text, expanded, name_of, event_tag, event_tags, HasPatterns, HasTitlePatterns, HasTagPatterns};

use crate::braces::{split_at, split_brace};
use crate::fronts::{Front, Limit};
use crate::macros::{Macro, macro_at};
use pattern_set::Patterns;
use std::alloc::Global;
use std::convert::AsStr;
use zbx_types::{Conf, Held, LONGEST_TITLE, Many, OutOfMemory, Tag, Text, by_id};

/// The most characters of a tag's value.
const LONGEST_VALUE: usize = 255;

/// What stands for the item of a history call that isn't there, or that has no value.
const UNKNOWN: &str = "*UNKNOWN*";

/// The value with a number, where the item has one.
fn held_at(values: &[Option<Held>], place: u8) -> Option<&Held>
    ensures { option_copied result ≡ held_at values.now place }
{
    match by_id(values, u32::from(place)) {
        Some(Some(held)) => Some(held),
        _ => None,
    }
}

/// Adds an item's value.
fn put_item(
    alloc: Global,
    values: &[Option<Held>],
    place: u8,
    front: &mut Front,
) -> Result<(), OutOfMemory>
    ensures { OnOk result (Adds front.old (item_text values.now place) front.new) }
{
    match held_at(values, place) {
        Some(Held::Number(number)) => {
            let mut text = Text::new(alloc);
            number.write(&mut text)?;
            front.add(text.as_str())
        }
        Some(Held::Words(text)) => front.add(text.as_str()),
        None => front.add(UNKNOWN),
    }
}

/// Adds an output with the groups of a pattern's leftmost match in a text, or nothing where it doesn't match.
fn put_match(
    alloc: Global,
    patterns: &Patterns,
    pattern: &Text,
    output: &Text,
    text: &str,
    front: &mut Front,
) -> Result<(), OutOfMemory>
    requires { Contains patterns.now pattern.now }
    ensures { OnOk result (Adds front.old (unwrap_or (filled_of pattern.now text.now output.now) []) front.new) }
{
    let place = patterns.find(pattern);
    match patterns.filled(alloc, place, text, output.as_str())? {
        Some(filled) => front.add(filled.as_str()),
        None => Ok(()),
    }
}

/// Adds such an output for an item's value.
fn put_filled(
    alloc: Global,
    values: &[Option<Held>],
    patterns: &Patterns,
    place: u8,
    pattern: &Text,
    output: &Text,
    front: &mut Front,
) -> Result<(), OutOfMemory>
    requires { Contains patterns.now pattern.now }
    ensures { OnOk result (Adds front.old (unwrap_or (filled_of pattern.now (item_text values.now place) output.now) []) front.new) }
{
    match held_at(values, place) {
        Some(Held::Number(number)) => {
            let mut text = Text::new(alloc);
            number.write(&mut text)?;
            put_match(alloc, patterns, pattern, output, text.as_str(), front)
        }
        Some(Held::Words(text)) => {
            put_match(alloc, patterns, pattern, output, text.as_str(), front)
        }
        None => put_match(alloc, patterns, pattern, output, UNKNOWN, front),
    }
}

/// Adds what a macro stands for.
fn put_macro(
    alloc: Global,
    host: &str,
    values: &[Option<Held>],
    patterns: &Patterns,
    found: &Macro,
    front: &mut Front,
) -> Result<(), OutOfMemory>
    requires { All (λ pattern. Contains patterns.now pattern) (pattern_of found.now) }
    ensures { OnOk result (Adds front.old (macro_text host.now values.now found.now) front.new) }
{
    match found {
        Macro::Host => front.add(host),
        Macro::Item(place) => put_item(alloc, values, *place, front),
        Macro::Filled {
            place,
            pattern,
            output,
        } => put_filled(alloc, values, patterns, *place, pattern, output, front),
    }
}

/// Adds what stands for a brace and what stands behind it, up to the end of the macro there. Answers the rest.
fn put_brace<'a>(
    alloc: Global,
    host: &str,
    values: &[Option<Held>],
    patterns: &Patterns,
    behind: &'a str,
    front: &mut Front,
) -> Result<&'a str, OutOfMemory>
    requires { HasPatterns patterns.now (123 ∷ behind.now) }
    ensures way { IfOk result (λ rest. Goes front.old (expanded host.now values.now (123 ∷ behind.now)) front.new (expanded host.now values.now rest.now)) }
    ensures patterns { IfOk result (λ rest. HasPatterns patterns.now rest.now) }
    ensures shorter { IfOk result (λ rest. length rest.now ≤ length behind.now) }
{
    match macro_at(alloc, behind)? {
        Some((found, rest)) => {
            put_macro(alloc, host, values, patterns, &found, front)?;
            Ok(rest)
        }
        None => {
            front.add("{")?;
            Ok(behind)
        }
    }
}

/// Adds what stands for a text up to the end of its first macro. Answers the rest.
fn put_next<'a>(
    alloc: Global,
    host: &str,
    values: &[Option<Held>],
    patterns: &Patterns,
    text: &'a str,
    front: &mut Front,
) -> Result<&'a str, OutOfMemory>
    requires { HasPatterns patterns.now text.now }
    ensures way { IfOk result (λ rest. Goes front.old (expanded host.now values.now text.now) front.new (expanded host.now values.now rest.now)) }
    ensures patterns { IfOk result (λ rest. HasPatterns patterns.now rest.now) }
    ensures shorter { 0 < length text.now → IfOk result (λ rest. length rest.now < length text.now) }
{
    let (plain, behind) = split_brace(text);
    front.add(plain)?;
    match behind {
        Some(behind) => put_brace(alloc, host, values, patterns, behind, front),
        None => Ok(""),
    }
}

/// A text with its macros replaced, as far as a limit allows.
fn expand(
    alloc: Global,
    host: &str,
    values: &[Option<Held>],
    patterns: &Patterns,
    text: &Text,
    limit: Limit,
) -> Result<Text, OutOfMemory>
    requires { HasPatterns patterns.now text.now }
    ensures { IfOk result (λ made. made ≡ cut limit (expanded host.now values.now text.now)) }
{
    let mut front = Front::new(alloc, limit);
    let mut rest = text.as_str();
    while !rest.is_empty() {
        if front.is_cut() {
            return Ok(front.into_text());
        }
        rest = put_next(alloc, host, values, patterns, rest, &mut front)?;
    }
    Ok(front.into_text())
}

/// The name of the events of a trigger: its title with its macros replaced, and then the longest front of whole
/// characters within 2,048 bytes (the Zabbix 6.0 manual, "Supported macros"; the limit is this project's own). Empty
/// where no trigger has the id.
///
/// `{HOST.NAME}` stands for the name of the trigger's host. `{ITEM.VALUE}` and `{ITEM.LASTVALUE}`, with a digit from 1
/// to 9 before the brace or with none, which means 1, stand for the value with that number in `values`: a written
/// number, words, or `*UNKNOWN*` where there is none. `{{ITEM.VALUE}.regsub(pattern,output)}` stands for the output with
/// the groups of the pattern's leftmost match in that text, or for nothing where it doesn't match; its pattern has to be
/// one of `patterns`. What a macro stands for isn't looked through again.
///
/// [`OutOfMemory`] where there is no room for what is made: at most the limit, and a value or an output beside it.
pub fn name(
    alloc: Global,
    conf: &Conf,
    trigger: u32,
    values: &[Option<Held>],
    patterns: &Patterns,
) -> Result<Text, OutOfMemory>
    requires { HasTitlePatterns patterns.now conf.now trigger }
    ensures value { IfOk result (λ made. made ≡ name_of conf.now trigger values.now) }
{
    match by_id(conf.triggers.as_slice(), trigger) {
        Some(found) => expand(
            alloc,
            conf.host_name(found.host),
            values,
            patterns,
            &found.title,
            Limit::Bytes(LONGEST_TITLE),
        ),
        None => Ok(Text::new(alloc)),
    }
}

/// A tag with its value's macros replaced.
fn event_tag(
    alloc: Global,
    host: &str,
    values: &[Option<Held>],
    patterns: &Patterns,
    tag: &Tag,
) -> Result<Tag, OutOfMemory>
    requires { HasPatterns patterns.now tag.now.value }
    ensures { IfOk result (λ made. made ≡ event_tag host.now values.now tag.now) }
{
    let limit = Limit::Characters(LONGEST_VALUE);
    Ok(Tag {
        tag: tag.tag.copy(alloc)?,
        value: expand(alloc, host, values, patterns, &tag.value, limit)?,
    })
}

/// Tags with their values' macros replaced.
fn tags_with(
    alloc: Global,
    host: &str,
    values: &[Option<Held>],
    patterns: &Patterns,
    tags: &[Tag],
) -> Result<Many<Tag>, OutOfMemory>
    requires { All (λ (tag : Tag). HasPatterns patterns.now tag.value) tags.now }
    ensures { IfOk result (λ made. made ≡ map (event_tag host.now values.now) tags.now) }
{
    let mut made = Many::new(alloc);
    for tag in tags {
        made.push(event_tag(alloc, host, values, patterns, tag)?)?;
    }
    Ok(made)
}

/// The tags of a trigger's problems: those of the trigger, in its order, each value with its macros replaced as those of
/// [`name`] and cut to its first 255 characters (the Zabbix 6.0 manual, "Tagging"). Names of tags stay. None where no
/// trigger has the id.
///
/// [`OutOfMemory`] where there is no room for the tags.
pub fn tags(
    alloc: Global,
    conf: &Conf,
    trigger: u32,
    values: &[Option<Held>],
    patterns: &Patterns,
) -> Result<Many<Tag>, OutOfMemory>
    requires { HasTagPatterns patterns.now conf.now trigger }
    ensures value { IfOk result (λ made. made ≡ event_tags conf.now trigger values.now) }
{
    match by_id(conf.triggers.as_slice(), trigger) {
        Some(found) => tags_with(
            alloc,
            conf.host_name(found.host),
            values,
            patterns,
            found.tags.as_slice(),
        ),
        None => Ok(Many::new(alloc)),
    }
}

/// Adds the pattern of a macro, where it has one.
fn put_found(found: Macro, made: &mut Many<Text>) -> Result<(), OutOfMemory>
    ensures { OnOk result (made.new ≡ made.old ++ pattern_of found) }
{
    match found {
        Macro::Filled { pattern, .. } => {
            made.push(pattern)?;
            Ok(())
        }
        Macro::Host | Macro::Item(_) => Ok(()),
    }
}

/// Adds the pattern of the macro behind a brace, where there is one, and answers the rest.
fn put_pattern<'a>(
    alloc: Global,
    behind: &'a str,
    made: &mut Many<Text>,
) -> Result<&'a str, OutOfMemory>
    ensures value { IfOk result (λ rest. made.new ++ patterns_of rest.now ≡ made.old ++ patterns_of (123 ∷ behind.now)) }
    ensures shorter { IfOk result (λ rest. length rest.now ≤ length behind.now) }
{
    let Some((found, rest)) = macro_at(alloc, behind)? else {
        return Ok(behind);
    };
    put_found(found, made)?;
    Ok(rest)
}

/// The patterns of the regular expressions in a trigger's title or in a tag's value, in their order: those that [`name`]
/// and [`tags`] look up (this project's own). [`OutOfMemory`] where there is no room for them.
pub fn patterns_in(alloc: Global, text: &Text) -> Result<Many<Text>, OutOfMemory>
    ensures value { IfOk result (λ made. made ≡ patterns_of text.now) }
{
    let mut made = Many::new(alloc);
    let mut rest = text.as_str();
    while let Some((_, behind)) = split_at(rest, '{') {
        rest = put_pattern(alloc, behind, &mut made)?;
    }
    Ok(made)
}
