//! Titles of triggers, and their tags.

ghost use Rattle.std.specs.Prelude.{◌≡◌, ◌≤◌, IfOk};
ghost use Rattle.zbx_types.specs.Limits.{longest_value};
ghost use Rattle.config_templates.specs.Titles.{has_brace, filled, shown, title_of, tag_of, tags_of};

use config_read::RawTrigger;
use macro_text::{Expansion, Macros, expand_front, expand_within};
use std::alloc::Global;
use zbx_types::{LONGEST_TITLE, LONGEST_VALUE, Many, OutOfMemory, Tag, Text};

/// The most bytes of a tag's value that an event shows, which are 255 characters (the Zabbix 6.0 manual, "Tagging").
const LONGEST_TAG_VALUE: usize = 1020;

/// Whether a macro of events may begin in a text.
fn has_brace(text: &[u8]) -> bool
    ensures { result ≡ has_brace text.now }
{
    text.iter().any(|byte| *byte == b'{')
}

/// A text with the values of its user macros: all of it, unless they make it longer than a value may be.
fn filled(alloc: Global, text: &Text, macros: &Macros<'_, '_>) -> Result<Text, OutOfMemory>
    ensures { IfOk result (λ made. made ≡ filled macros.now text.now) }
{
    expand_front(alloc, text, macros, text.len().max(LONGEST_VALUE))
}

/// The same of a text of which an event shows so many bytes: no more than these where no macro of events begins in them.
#[tactic(auto, unfolding(crate::specs::Titles::shown))]
fn shown_front(
    alloc: Global,
    text: &Text,
    macros: &Macros<'_, '_>,
    most: usize,
) -> Result<Text, OutOfMemory>
    ensures { IfOk result (λ made. made ≡ shown most macros.now text.now) }
{
    let front = expand_front(alloc, text, macros, most)?;
    if has_brace(front.as_bytes()) {
        return filled(alloc, text, macros);
    }
    Ok(front)
}

/// The same, where most texts are so short: of these it is made once.
#[tactic(auto, using(crate::proofs::Titled::short_shown))]
fn shown(
    alloc: Global,
    text: &Text,
    macros: &Macros<'_, '_>,
    most: usize,
) -> Result<Text, OutOfMemory>
    requires { most ≤ longest_value }
    ensures { IfOk result (λ made. made ≡ shown most macros.now text.now) }
{
    match expand_within(alloc, text, macros, most)? {
        Expansion::Whole(whole) => Ok(whole),
        Expansion::Longer(_) => shown_front(alloc, text, macros, most),
    }
}

/// The title of a trigger.
pub(crate) fn title(
    alloc: Global,
    raw: &RawTrigger,
    macros: &Macros<'_, '_>,
) -> Result<Text, OutOfMemory>
    ensures { IfOk result (λ made. made ≡ title_of macros.now raw.now) }
{
    shown(alloc, &raw.name, macros, LONGEST_TITLE)
}

/// A tag of a trigger.
fn tag(alloc: Global, raw: &Tag, macros: &Macros<'_, '_>) -> Result<Tag, OutOfMemory>
    ensures { IfOk result (λ made. made ≡ tag_of macros.now raw.now) }
{
    Ok(Tag {
        tag: filled(alloc, &raw.tag, macros)?,
        value: shown(alloc, &raw.value, macros, LONGEST_TAG_VALUE)?,
    })
}

/// The tags of a trigger.
pub(crate) fn tags(
    alloc: Global,
    raw: &RawTrigger,
    macros: &Macros<'_, '_>,
) -> Result<Many<Tag>, OutOfMemory>
    ensures { IfOk result (λ made. made ≡ tags_of macros.now raw.now) }
{
    let mut made = Many::new(alloc);
    for written in raw.tags.as_slice() {
        made.push(tag(alloc, written, macros)?)?;
    }
    Ok(made)
}
