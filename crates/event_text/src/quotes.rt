//! Arguments of macros.

ghost use Rattle.std.specs.Prelude.{◌≡◌, ◌<◌, ◌++◌, ◌∷◌, ℕ, List, Some, length, option_map, IfOk, if◌then◌else◌};
ghost use Rattle.event_text.specs.Forms.{up_to, unquoted, joined};
ghost use Rattle.event_text.specs.Pieces.{HasNo};

use crate::braces::split_at;
use std::alloc::Global;
use std::convert::AsStr;
use zbx_types::{OutOfMemory, Text};

/// The bytes before the first place where a mark stands, and what follows the mark.
pub(crate) fn up_to<'a>(
    alloc: Global,
    text: &'a str,
    mark: &str,
) -> Result<Option<(Text, &'a str)>, OutOfMemory>
    requires { 0 < length mark.now }
    ensures { IfOk result (λ found. option_map (λ r. (r.0, r.1.now)) found ≡ up_to mark.now text.now) }
{
    match split_at_mark(text, mark) {
        Some((front, rest)) => Ok(Some((Text::of(alloc, front)?, rest))),
        None => Ok(None),
    }
}

/// What stands before and behind the first place where a mark stands.
#[tactic(auto, using(crate::proofs::FormLemmas::split_up_to))]
fn split_at_mark<'a>(text: &'a str, mark: &str) -> Option<(&'a str, &'a str)>
    requires { 0 < length mark.now }
    ensures { option_map (λ r. (r.0.now, r.1.now)) result ≡ up_to mark.now text.now }
{
    text.split_once(mark)
}

/// Adds what a part of a text in quotes stands for, which ends at a quote. Answers whether that quote closes the text.
#[tactic(auto, using(crate::proofs::QuoteLemmas::escaped_part, crate::proofs::QuoteLemmas::closed_part))]
fn put_part(part: &str, made: &mut Text) -> Result<bool, OutOfMemory>
    requires { HasNo 34 part.now }
    ensures { IfOk result (λ closed. (rest : List ℕ) → option_map (joined made.old) (unquoted (part.now ++ 34 ∷ rest)) ≡ (if closed then Some (made.new, rest) else option_map (joined made.new) (unquoted rest))) }
{
    match part.strip_suffix('\\') {
        Some(kept) => {
            made.push_str(kept)?;
            made.push_str("\"")?;
            Ok(false)
        }
        None => {
            made.push_str(part)?;
            Ok(true)
        }
    }
}

/// What a text behind a quote stands for up to the quote that closes it, and what follows that one.
pub(crate) fn unquoted(alloc: Global, text: &str) -> Result<Option<(Text, &str)>, OutOfMemory>
    ensures { IfOk result (λ found. option_map (λ r. (r.0, r.1.now)) found ≡ unquoted text.now) }
{
    let mut made = Text::new(alloc);
    let mut rest = text;
    while let Some((part, behind)) = split_at(rest, '"') {
        if put_part(part, &mut made)? {
            return Ok(Some((made, behind)));
        }
        rest = behind;
    }
    Ok(None)
}
