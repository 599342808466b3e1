//! Arguments byte by byte.

ghost use Rattle.std.specs.Prelude.{◌≡◌, IfOk, Some, None, MatchResult};
ghost use Rattle.expr_parser.specs.Functions as functions;
ghost use Rattle.expr_parser.specs.Calls as calls;
ghost use Rattle.expr_parser.specs.Parts as parts;
ghost use Rattle.expr_parser.specs.Figures as figures;

use crate::figures::{Figures, figure, first_figure, longer, text_of, value};
use crate::range_bytes::{
    back, colon, first_range, hash_byte, latest_byte, latest_range, second, shift_byte,
};
use crate::slots::{Slot, begins_word, least_period, number_limit, one_of};
use byte_grammar::{Character, is_whole, next};
use std::alloc::Global;
use zbx_types::{Bytes, OutOfMemory, Range};

/// The greatest percentage, in millionths.
const GREATEST_PERCENT: u128 = 100_000_000;

/// What an argument says.
#[derive(Drop)]
pub enum Value {
    /// A range with its shift in seconds.
    Ranged(Range, u32),
    /// A text.
    Said(Bytes),
}

/// What of `now-` is still to come.
#[derive(Clone, Copy)]
pub(crate) enum Ahead {
    /// All of it.
    Now,
    /// `ow-`.
    Ow,
    /// `w-`.
    W,
    /// `-`.
    Dash,
    /// Nothing, but digits.
    Digits,
}

/// A place in an argument.
#[derive(Drop)]
pub(crate) enum Part {
    /// Nothing has come.
    Before,
    /// Behind `#`.
    Hash,
    /// Among the digits behind it.
    Latest(u32),
    /// Among the digits of a period.
    Seconds(u32),
    /// Behind the suffix of a period.
    Spanned(Range),
    /// In the colon and `now-` behind a range.
    Back(Ahead, Range),
    /// Among the digits of a shift.
    Shift(Range, u32),
    /// Behind its suffix.
    Shifted(Range, u32),
    /// In a word in quotes.
    Letters(Bytes),
    /// In a number.
    Number(Figures),
    /// Behind the quote in front of a number.
    Opened,
    /// In a number in quotes.
    Quoted(Figures),
    /// In a text in quotes, and in a character.
    Text(Bytes, Character),
    /// Behind a backslash in a text in quotes.
    Slash(Bytes),
    /// Behind the quote that ends a text.
    Closed(Bytes),
}

fn first_number(alloc: Global, slot: Slot, byte: u8) -> Result<Option<Part>, OutOfMemory>
    ensures { IfOk result (λ made. made ≡ parts.first_number (calls.number_limit slot) byte) }
{
    match number_limit(slot) {
        None => Ok(None),
        Some(most) => match first_figure(alloc, most, byte)? {
            Some(place) => Ok(Some(Part::Number(place))),
            None => Ok(None),
        },
    }
}

fn first_part(alloc: Global, slot: Slot, byte: u8) -> Result<Option<Part>, OutOfMemory>
    ensures { IfOk result (λ made. made ≡ parts.first_part slot byte) }
{
    match slot {
        Slot::Word(_) => {
            if byte == b'"' {
                Ok(Some(Part::Letters(Bytes::new(alloc))))
            } else {
                Ok(None)
            }
        }
        Slot::Percent => {
            if byte == b'"' {
                Ok(Some(Part::Opened))
            } else {
                first_number(alloc, slot, byte)
            }
        }
        Slot::Free => {
            if byte == b'"' {
                Ok(Some(Part::Text(Bytes::new(alloc), Character::Whole)))
            } else {
                first_number(alloc, slot, byte)
            }
        }
        Slot::Newest => Ok(first_range(slot, byte)),
        Slot::Span => Ok(first_range(slot, byte)),
        Slot::MaybeSpan => Ok(first_range(slot, byte)),
        Slot::Silence => Ok(first_range(slot, byte)),
    }
}

fn letter(slot: Slot, text: Bytes, byte: u8) -> Result<Option<Part>, OutOfMemory>
    ensures { IfOk result (λ made. made ≡ parts.letter slot text byte) }
{
    match slot {
        Slot::Word(words) => {
            if byte == b'"' {
                if one_of(words, text.as_slice()) {
                    Ok(Some(Part::Closed(text)))
                } else {
                    Ok(None)
                }
            } else {
                let text = longer(text, byte)?;
                if begins_word(words, text.as_slice()) {
                    Ok(Some(Part::Letters(text)))
                } else {
                    Ok(None)
                }
            }
        }
        _ => Ok(None),
    }
}

fn more_number(slot: Slot, place: Figures, byte: u8) -> Result<Option<Part>, OutOfMemory>
    ensures { IfOk result (λ made. made ≡ parts.more_number (calls.number_limit slot) place byte) }
{
    match number_limit(slot) {
        None => {
            drop(place);
            Ok(None)
        }
        Some(most) => match figure(most, place, byte)? {
            Some(made) => Ok(Some(Part::Number(made))),
            None => Ok(None),
        },
    }
}

fn quoted_number(place: Figures, byte: u8) -> Result<Option<Part>, OutOfMemory>
    ensures { IfOk result (λ made. made ≡ parts.quoted_byte place byte) }
{
    if byte == b'"' {
        match value(&place) {
            Some(_) => Ok(Some(Part::Closed(text_of(place)))),
            None => {
                drop(place);
                Ok(None)
            }
        }
    } else {
        match figure(GREATEST_PERCENT, place, byte)? {
            Some(made) => Ok(Some(Part::Quoted(made))),
            None => Ok(None),
        }
    }
}

fn opened_number(alloc: Global, byte: u8) -> Result<Option<Part>, OutOfMemory>
    ensures { IfOk result (λ made. made ≡ parts.opened_byte byte) }
{
    match first_figure(alloc, GREATEST_PERCENT, byte)? {
        Some(made) => Ok(Some(Part::Quoted(made))),
        None => Ok(None),
    }
}

fn more_text(text: Bytes, character: Option<Character>) -> Option<Part>
    ensures { result ≡ parts.more_text text character }
{
    match character {
        Some(place) => Some(Part::Text(text, place)),
        None => None,
    }
}

fn text_byte(text: Bytes, character: Character, byte: u8) -> Result<Option<Part>, OutOfMemory>
    ensures { IfOk result (λ made. made ≡ parts.text_byte text character byte) }
{
    if byte == b'"' {
        if is_whole(character) {
            Ok(Some(Part::Closed(text)))
        } else {
            Ok(None)
        }
    } else if byte == b'\\' {
        if is_whole(character) {
            Ok(Some(Part::Slash(text)))
        } else {
            Ok(None)
        }
    } else {
        Ok(more_text(longer(text, byte)?, next(character, byte)))
    }
}

fn slash_byte(text: Bytes, byte: u8) -> Result<Option<Part>, OutOfMemory>
    ensures { IfOk result (λ made. made ≡ parts.slash_byte text byte) }
{
    if byte == b'"' {
        Ok(Some(Part::Text(longer(text, b'"')?, Character::Whole)))
    } else if byte == b'\\' {
        Ok(Some(Part::Slash(longer(text, b'\\')?)))
    } else {
        let mut text = text;
        text.extend(&[b'\\', byte])?;
        Ok(more_text(text, next(Character::Whole, byte)))
    }
}

/// The place behind one byte more of an argument.
pub(crate) fn part_on(
    alloc: Global,
    slot: Slot,
    place: Part,
    byte: u8,
) -> Result<Option<Part>, OutOfMemory>
    ensures { IfOk result (λ made. made ≡ parts.part slot place byte) }
{
    match place {
        Part::Before => first_part(alloc, slot, byte),
        Part::Hash => Ok(hash_byte(byte)),
        Part::Latest(n) => Ok(latest_byte(slot, n, byte)),
        Part::Seconds(n) => Ok(second(slot, n, byte)),
        Part::Spanned(range) => Ok(colon(slot, range, byte)),
        Part::Back(ahead, range) => Ok(back(ahead, range, byte)),
        Part::Shift(range, n) => Ok(shift_byte(range, n, byte)),
        Part::Shifted(_, _) => Ok(None),
        Part::Letters(text) => letter(slot, text, byte),
        Part::Number(figures) => more_number(slot, figures, byte),
        Part::Opened => opened_number(alloc, byte),
        Part::Quoted(figures) => quoted_number(figures, byte),
        Part::Text(text, character) => text_byte(text, character, byte),
        Part::Slash(text) => slash_byte(text, byte),
        Part::Closed(_) => Ok(None),
    }
}

fn absent(alloc: Global, slot: Slot) -> Option<Value>
    ensures { result ≡ calls.absent_value slot }
{
    match slot {
        Slot::Newest => Some(Value::Ranged(Range::Count(1), 0)),
        Slot::MaybeSpan => Some(Value::Ranged(Range::Count(1), 0)),
        Slot::Word(_) => Some(Value::Said(Bytes::new(alloc))),
        Slot::Free => Some(Value::Said(Bytes::new(alloc))),
        _ => None,
    }
}

fn seconds_value(slot: Slot, number: u32) -> Option<Value>
    ensures { result ≡ parts.seconds_value (functions.least_period slot) number }
{
    match least_period(slot) {
        Some(least) if least <= number => Some(Value::Ranged(Range::Period(number), 0)),
        _ => None,
    }
}

fn latest_value(number: u32) -> Option<Value>
    ensures { result ≡ parts.ranged_value (parts.latest_range number) 0 }
{
    match latest_range(number) {
        Some(range) => Some(Value::Ranged(range, 0)),
        None => None,
    }
}

/// What an argument says that is a number, where it may end here, else the place again.
fn number_value(place: Figures) -> Result<Value, Figures>
    ensures { MatchResult result (λ v. parts.number_value (figures.figures_value place) (figures.figures_text place) ≡ Some v) (λ p. (parts.number_value (figures.figures_value place) (figures.figures_text place) ≡ None) × (p ≡ place)) }
{
    match value(&place) {
        Some(_) => Ok(Value::Said(text_of(place))),
        None => Err(place),
    }
}

/// What an argument says, where it may end here, else the place again.
pub(crate) fn part_value(alloc: Global, slot: Slot, place: Part) -> Result<Value, Part>
    ensures { MatchResult result (λ v. parts.part_value slot place ≡ Some v) (λ p. (parts.part_value slot place ≡ None) × (p ≡ place)) }
{
    match place {
        Part::Before => absent(alloc, slot).ok_or(Part::Before),
        Part::Latest(n) => latest_value(n).ok_or(Part::Latest(n)),
        Part::Seconds(n) => seconds_value(slot, n).ok_or(Part::Seconds(n)),
        Part::Spanned(range) => Ok(Value::Ranged(range, 0)),
        Part::Shift(range, n) => Ok(Value::Ranged(range, n)),
        Part::Shifted(range, n) => Ok(Value::Ranged(range, n)),
        Part::Number(figures) => match number_value(figures) {
            Ok(value) => Ok(value),
            Err(figures) => Err(Part::Number(figures)),
        },
        Part::Closed(text) => Ok(Value::Said(text)),
        _ => Err(place),
    }
}
