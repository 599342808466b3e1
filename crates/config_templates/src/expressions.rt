//! Texts of expressions.

ghost use Rattle.std.specs.Prelude.{◌≡◌, ◌<◌, ℕ, List, take, length};
ghost use Rattle.host_layout.specs.Answers.{GivesAs};
ghost use Rattle.config_templates.specs.Meanings.{member_path, parsed_now};
ghost use Rattle.config_templates.specs.Reading.{expression_at};
ghost use Rattle.macro_text.specs.Expanded.{expanded};
ghost use Rattle.zbx_types.specs.Limits.{longest_expression};

use crate::members::Member;
use expr_parser::{ParseError, Parsed, read};
use host_layout::FlatError;
use macro_text::{Expansion, Macros, expand_within};
use std::alloc::Global;
use zbx_types::{Bytes, Cause, LONGEST_EXPRESSION, Text};

/// The expression that these bytes of a member are.
#[tactic(auto, using(crate::proofs::Parsing::found_at))]
fn parsed(alloc: Global, member: &Member<'_, '_>, text: &[u8]) -> Result<Parsed, FlatError>
    ensures { GivesAs parsed_now result (expression_at (member_path member.now) text.now) }
{
    match read(alloc, text) {
        Ok(parsed) => Ok(parsed),
        Err(ParseError::At(at)) => Err(member.refused(alloc, Cause::BadExpression { at })),
        Err(ParseError::OutOfMemory) => Err(FlatError::OutOfMemory),
    }
}

/// The refusal of an expression that is too long, by the front that it may have.
#[tactic(auto, using(crate::proofs::Parsing::front_decides))]
fn longer(alloc: Global, member: &Member<'_, '_>, front: Bytes) -> Result<Parsed, FlatError>
    ensures { (text : List ℕ) → front ≡ take longest_expression text → longest_expression < length text → GivesAs parsed_now result (expression_at (member_path member.now) text) }
{
    let mut text = front;
    text.extend(b"0")?;
    parsed(alloc, member, text.as_slice())
}

/// The expression that a member is with the values of these macros.
///
/// Refused as `BadExpression` where it is none, at the first byte where no expression goes on, or at 0 where it looks at no
/// item. No more is expanded than the bytes that an expression may have.
pub(crate) fn expression(
    alloc: Global,
    member: &Member<'_, '_>,
    text: &Text,
    macros: &Macros<'_, '_>,
) -> Result<Parsed, FlatError>
    ensures { GivesAs parsed_now result (expression_at (member_path member.now) (expanded macros.now text.now)) }
{
    match expand_within(alloc, text, macros, LONGEST_EXPRESSION)? {
        Expansion::Whole(text) => parsed(alloc, member, text.as_bytes()),
        Expansion::Longer(front) => longer(alloc, member, front),
    }
}
