//! Runs of bytes that are taken at once.

ghost use Rattle.std.specs.Prelude.{◌≡◌, ◌≤◌, IfOk, IfSome, length, take};
ghost use Rattle.std.specs.List.{prefix_len};
ghost use Rattle.byte_grammar.specs.Bytes.{is_digit as digit_test};
ghost use Rattle.json_text.specs.Bytes.{is_blank as blank_test};
ghost use Rattle.json_text.specs.Moves.{is_plain as plain_test, keeps as keeps_test, IsQuoted, LeadTo};
ghost use Rattle.json_text.specs.declared.place.Use.{Use};
ghost use Rattle.json_text.specs.declared.place.Mode.TheVariants as modes;

use crate::kinds::is_blank;
use crate::number::InNumber;
use crate::string::{InString, Spot};
use byte_grammar::is_digit;
use std::alloc::Global;
use zbx_types::{Bytes, OutOfMemory, Text};

/// Whether the byte stands in a string for itself alone: no quote, no backslash, and none of a longer character.
fn is_plain(byte: u8) -> bool
    ensures { result ≡ plain_test byte }
{
    32 <= byte && byte < 128 && byte != b'"' && byte != b'\\'
}

/// How many plain bytes stand at the front.
fn plain_len(text: &[u8]) -> usize
    ensures { result ≡ prefix_len plain_test text.now }
{
    text.iter().take_while(|byte| is_plain(**byte)).count()
}

/// How many digits stand at the front.
fn digit_len(text: &[u8]) -> usize
    ensures { result ≡ prefix_len digit_test text.now }
{
    text.iter().take_while(|byte| is_digit(**byte)).count()
}

/// How many blanks stand at the front.
pub(crate) fn blank_len(text: &[u8]) -> usize
    ensures { result ≡ prefix_len blank_test text.now }
{
    text.iter().take_while(|byte| is_blank(**byte)).count()
}

/// Whether a digit leads from the place to itself.
fn keeps(place: InNumber) -> bool
    ensures { result ≡ keeps_test place }
{
    match place {
        InNumber::Whole | InNumber::Fraction | InNumber::Digits => true,
        _ => false,
    }
}

/// Takes the plain bytes at the front of what is left, where the place is between characters, and answers how many.
pub(crate) fn plain(spot: &mut Spot, rest: &[u8]) -> Result<usize, OutOfMemory>
    ensures within { IfOk result (λ n. n ≤ length rest.now) }
    ensures goes { IfOk result (λ n. (u : Use) → LeadTo (modes.String u spot.old) (take n rest.now)
        (modes.String u spot.new)) }
{
    match spot.place {
        InString::Between => {
            let length = plain_len(rest);
            spot.text.extend(&rest[..length])?;
            Ok(length)
        }
        _ => Ok(0),
    }
}

/// Takes the digits at the front of what is left, where they lead from the place to itself, and answers how many.
pub(crate) fn digits(place: InNumber, text: &mut Bytes, rest: &[u8]) -> Result<usize, OutOfMemory>
    ensures within { IfOk result (λ n. n ≤ length rest.now) }
    ensures goes { IfOk result (λ n. LeadTo (modes.Number place text.old) (take n rest.now)
        (modes.Number place text.new)) }
{
    if keeps(place) {
        let length = digit_len(rest);
        text.extend(&rest[..length])?;
        Ok(length)
    } else {
        Ok(0)
    }
}

/// The plain bytes in quotes that a text begins with, if it does.
pub(crate) fn plain_in_quotes(alloc: Global, rest: &[u8]) -> Result<Option<Text>, OutOfMemory>
    ensures { IfOk result (λ found. IfSome found (λ inner. IsQuoted inner rest.now)) }
{
    if rest.len() < 2 || rest[0] != b'"' {
        return Ok(None);
    }
    let behind = &rest[1..];
    let length = plain_len(behind);
    if length < behind.len() && behind[length] == b'"' {
        Text::from_utf8(alloc, &behind[..length])
    } else {
        Ok(None)
    }
}
