//! Steps on texts: characters dropped at their ends, and a text replaced in them (the Zabbix 6.0 manual, "Preprocessing
//! details").

ghost use Rattle.std.specs.Prelude.{◌≡◌, ◌<◌, ◌+◌, ◌++◌, ℕ, zero, List, length, IfOk, IfSome, MatchOption, true, false};
ghost use Rattle.zbx_types.specs.Limits.{longest_value};
ghost use Rattle.prep_steps.specs.Outcomes.{passed};
ghost use Rattle.prep_steps.specs.Words.{is_among, trimmed_left, trimmed_right, trimmed, replaced_behind, replaced};

use crate::outcome::{Outcome, TOO_LONG, fail, pass};
use std::alloc::Global;
use std::convert::AsStr;
use zbx_types::{LONGEST_VALUE, OutOfMemory, Text};

/// Whether a character is among those of a text.
fn is_among(set: &str, c: char) -> bool
    ensures { result ≡ is_among set.now c }
{
    set.chars().any(|d| d == c)
}

fn trimmed_left<'a>(set: &str, text: &'a str) -> &'a str
    ensures { result.now ≡ trimmed_left set.now text.now }
{
    let mut rest = text;
    loop {
        let mut chars = rest.chars();
        let Some(first) = chars.next() else {
            return rest;
        };
        if !is_among(set, first) {
            return rest;
        }
        rest = chars.as_str();
    }
}

fn trimmed_right<'a>(set: &str, text: &'a str) -> &'a str
    ensures { result.now ≡ trimmed_right set.now text.now }
{
    let mut rest = text;
    loop {
        let mut chars = rest.chars();
        let Some(last) = chars.next_back() else {
            return rest;
        };
        let front = chars.as_str();
        if !is_among(set, last) {
            return rest;
        }
        rest = front;
    }
}

/// A text without the characters of a set at its front.
pub(crate) fn left_trim(alloc: Global, set: &str, text: &str) -> Result<Outcome, OutOfMemory>
    ensures { IfOk result (λ outcome. outcome ≡ passed (trimmed_left set.now text.now)) }
{
    pass(alloc, Text::of(alloc, trimmed_left(set, text))?)
}

/// A text without the characters of a set at its end.
pub(crate) fn right_trim(alloc: Global, set: &str, text: &str) -> Result<Outcome, OutOfMemory>
    ensures { IfOk result (λ outcome. outcome ≡ passed (trimmed_right set.now text.now)) }
{
    pass(alloc, Text::of(alloc, trimmed_right(set, text))?)
}

/// A text without the characters of a set at both ends.
#[tactic(auto, unfolding(crate::specs::Words::trimmed))]
pub(crate) fn trim(alloc: Global, set: &str, text: &str) -> Result<Outcome, OutOfMemory>
    ensures { IfOk result (λ outcome. outcome ≡ passed (trimmed set.now text.now)) }
{
    pass(
        alloc,
        Text::of(alloc, trimmed_right(set, trimmed_left(set, text)))?,
    )
}

/// What stands before the first occurrence of a text, and what stands behind it.
fn around<'a>(search: &str, text: &'a str) -> Option<(&'a str, &'a str)>
    requires { 0 < length search.now }
    ensures parts { (other : List ℕ) → MatchOption result (replaced_behind zero search.now other text.now ≡ text.now) (λ parts. replaced_behind zero search.now other text.now ≡ parts.0.now ++ (other ++ replaced_behind zero search.now other parts.1.now)) }
    ensures shorter { IfSome result (λ parts. length parts.1.now < length text.now) }
{
    text.split_once(search)
}

/// Puts a piece behind what was made, where that is no longer than a value may be then. Answers whether it is.
fn put(made: &mut Text, piece: &str) -> Result<bool, OutOfMemory>
    ensures made { IfOk result (λ fits. fits ≡ true → made.new ≡ made.old ++ piece.now) }
    ensures long { IfOk result (λ fits. fits ≡ false → longest_value < length made.old + length piece.now) }
{
    if LONGEST_VALUE.saturating_sub(made.len()) < piece.len() {
        return Ok(false);
    }
    made.push_str(piece)?;
    Ok(true)
}

/// A text with each occurrence of another one replaced, from the left. No more is made than a result may be long.
#[tactic(auto, unfolding(crate::specs::Words::replaced))]
pub(crate) fn replace(
    alloc: Global,
    search: &str,
    other: &str,
    text: &str,
) -> Result<Outcome, OutOfMemory>
    ensures { IfOk result (λ outcome. outcome ≡ passed (replaced search.now other.now text.now)) }
{
    if search.is_empty() {
        return pass(alloc, Text::of(alloc, text)?);
    }
    let mut made = Text::new(alloc);
    let mut rest = text;
    while let Some((before, behind)) = around(search, rest) {
        if !put(&mut made, before)? {
            return fail(alloc, TOO_LONG);
        }
        if !put(&mut made, other)? {
            return fail(alloc, TOO_LONG);
        }
        rest = behind;
    }
    if !put(&mut made, rest)? {
        return fail(alloc, TOO_LONG);
    }
    pass(alloc, made)
}
