//! Places in strings.

ghost use Rattle.std.specs.Prelude.{◌≡◌, ◌++◌, ◌∷◌, [], ◌<◌, if◌then◌else◌, None, Some, IfOk, OnOk};
ghost use Rattle.std.specs.Char.{encode_utf8};
ghost use Rattle.json_text.specs.Tokens.{on, if_hex as hex_on, at_character as place_of, character_on, string_step};
ghost use Rattle.json_text.specs.declared.string.InString.TheVariants.{Between, Escaped, Hex, HexD};

use crate::kinds::{hex_code, hex_value, is_hex, paired, short_escape_of};
use byte_grammar::{Character, next};
use zbx_types::{Bytes, OutOfMemory};

/// A place in a string (RFC 8259, "Strings"): hexadecimal digits so far by their bytes, a high surrogate by its number.
#[derive(Clone, Copy)]
pub(crate) enum InString {
    /// Between characters.
    Between,
    /// In a character of two bytes or more (RFC 3629, section 4), never whole.
    Within(Character),
    /// Behind a backslash.
    Escaped,
    /// Behind `\u`.
    Hex,
    /// Behind one digit other than `D`.
    Hex1(u8),
    /// Behind the digit `D`.
    HexD(u8),
    /// Behind two digits that begin no surrogate.
    Hex2(u8, u8),
    /// Behind three such digits.
    Hex3(u8, u8, u8),
    /// Behind two digits that begin a high surrogate.
    High2(u8, u8),
    /// Behind three such digits.
    High3(u8, u8, u8),
    /// Behind a high surrogate.
    High(u16),
    /// Behind the backslash that follows it.
    HighSlash(u16),
    /// Behind the `\u` that follows it.
    Low(u16),
    /// Behind the first digit of the low surrogate.
    LowD(u16, u8),
    /// Behind its second digit.
    Low2(u16, u8, u8),
    /// Behind its third digit.
    Low3(u16, u8, u8, u8),
}

/// A place in a string with the bytes that the string stands for so far.
#[derive(Drop)]
pub(crate) struct Spot {
    pub(crate) place: InString,
    pub(crate) text: Bytes,
}

/// Adds the UTF-8 of a character.
fn push_char(text: &mut Bytes, code: u32) -> Result<(), OutOfMemory>
    requires { code < 1114112 }
    ensures { OnOk result (text.new ≡ text.old ++ encode_utf8 code) }
{
    if code < 0x80 {
        text.extend(&[code as u8])
    } else if code < 0x800 {
        text.extend(&[(192 + code / 64) as u8, (128 + code % 64) as u8])
    } else if code < 0x1_0000 {
        text.extend(&[
            (224 + code / 4096) as u8,
            (128 + code / 64 % 64) as u8,
            (128 + code % 64) as u8,
        ])
    } else {
        text.extend(&[
            (240 + code / 262144) as u8,
            (128 + code / 4096 % 64) as u8,
            (128 + code / 64 % 64) as u8,
            (128 + code % 64) as u8,
        ])
    }
}

fn at_character(character: Character) -> InString
    ensures { result ≡ place_of character }
{
    match character {
        Character::Whole => InString::Between,
        Character::One => InString::Within(Character::One),
        Character::Two => InString::Within(Character::Two),
        Character::Three => InString::Within(Character::Three),
        Character::BehindE0 => InString::Within(Character::BehindE0),
        Character::BehindEd => InString::Within(Character::BehindEd),
        Character::BehindF0 => InString::Within(Character::BehindF0),
        Character::BehindF4 => InString::Within(Character::BehindF4),
    }
}

/// A byte of a text, and the place that it leads to.
fn put_byte(place: InString, text: Bytes, byte: u8) -> Result<Option<Spot>, OutOfMemory>
    ensures { IfOk result (λ r. r ≡ on place (text ++ byte ∷ [])) }
{
    let mut text = text;
    text.extend(&[byte])?;
    Ok(Some(Spot { place, text }))
}

/// A byte of a character, where it leads on.
fn put_on(character: Option<Character>, text: Bytes, byte: u8) -> Result<Option<Spot>, OutOfMemory>
    ensures { IfOk result (λ r. r ≡ character_on character (text ++ byte ∷ [])) }
{
    match character {
        None => Ok(None),
        Some(character) => put_byte(at_character(character), text, byte),
    }
}

fn put_char(text: Bytes, code: u32) -> Result<Option<Spot>, OutOfMemory>
    requires { code < 1114112 }
    ensures { IfOk result (λ r. r ≡ on Between (text ++ encode_utf8 code)) }
{
    let mut text = text;
    push_char(&mut text, code)?;
    Ok(Some(Spot {
        place: InString::Between,
        text,
    }))
}

fn between(text: Bytes, byte: u8) -> Result<Option<Spot>, OutOfMemory>
    ensures { IfOk result (λ r. r ≡ string_step Between text byte) }
{
    if byte == b'"' || byte < 32 {
        Ok(None)
    } else if byte == b'\\' {
        Ok(Some(Spot {
            place: InString::Escaped,
            text,
        }))
    } else {
        put_on(next(Character::Whole, byte), text, byte)
    }
}

fn escaped(text: Bytes, byte: u8) -> Result<Option<Spot>, OutOfMemory>
    ensures { IfOk result (λ r. r ≡ string_step Escaped text byte) }
{
    if byte == b'u' {
        return Ok(Some(Spot {
            place: InString::Hex,
            text,
        }));
    }
    match short_escape_of(byte) {
        Some(char) => put_byte(InString::Between, text, char),
        None => Ok(None),
    }
}

fn if_to(holds: bool, place: InString, text: Bytes) -> Option<Spot>
    ensures { result ≡ (if holds then on place text else None) }
{
    if holds {
        Some(Spot { place, text })
    } else {
        None
    }
}

fn if_hex(byte: u8, place: InString, text: Bytes) -> Option<Spot>
    ensures { result ≡ hex_on byte place text }
{
    if_to(is_hex(byte), place, text)
}

fn first_digit(text: Bytes, byte: u8) -> Option<Spot>
    ensures { result ≡ string_step Hex text byte }
{
    if hex_value(byte) == 13 {
        if_hex(byte, InString::HexD(byte), text)
    } else {
        if_hex(byte, InString::Hex1(byte), text)
    }
}

/// The digit behind a `D`: from 8 on it makes a high surrogate, from `C` on a low one, which has no place here.
fn second_digit(a: u8, text: Bytes, byte: u8) -> Option<Spot>
    ensures { result ≡ string_step (HexD a) text byte }
{
    if hex_value(byte) < 8 {
        if_hex(byte, InString::Hex2(a, byte), text)
    } else {
        if_to(hex_value(byte) < 12, InString::High2(a, byte), text)
    }
}

/// The last digit of an escape that stands for a character.
fn last_digit(byte: u8, code: u32, text: Bytes) -> Result<Option<Spot>, OutOfMemory>
    requires { code < 1114112 }
    ensures { IfOk result (λ r. r ≡ hex_on byte Between (text ++ encode_utf8 code)) }
{
    if is_hex(byte) {
        put_char(text, code)
    } else {
        Ok(None)
    }
}

/// The place behind one byte more, where it belongs to the string. The quote that ends it doesn't.
pub(crate) fn next_in_string(spot: Spot, byte: u8) -> Result<Option<Spot>, OutOfMemory>
    ensures { IfOk result (λ r. r ≡ string_step spot.place spot.text byte) }
{
    let Spot { place, text } = spot;
    match place {
        InString::Between => between(text, byte),
        InString::Within(character) => put_on(next(character, byte), text, byte),
        InString::Escaped => escaped(text, byte),
        InString::Hex => Ok(first_digit(text, byte)),
        InString::Hex1(a) => Ok(if_hex(byte, InString::Hex2(a, byte), text)),
        InString::HexD(a) => Ok(second_digit(a, text, byte)),
        InString::Hex2(a, b) => Ok(if_hex(byte, InString::Hex3(a, b, byte), text)),
        InString::Hex3(a, b, c) => last_digit(byte, hex_code(a, b, c, byte) as u32, text),
        InString::High2(a, b) => Ok(if_hex(byte, InString::High3(a, b, byte), text)),
        InString::High3(a, b, c) => {
            Ok(if_hex(byte, InString::High(hex_code(a, b, c, byte)), text))
        }
        InString::High(h) => Ok(if_to(byte == b'\\', InString::HighSlash(h), text)),
        InString::HighSlash(h) => Ok(if_to(byte == b'u', InString::Low(h), text)),
        InString::Low(h) => Ok(if_to(hex_value(byte) == 13, InString::LowD(h, byte), text)),
        InString::LowD(h, e) => {
            Ok(if_to(hex_value(byte) >= 12, InString::Low2(h, e, byte), text))
        }
        InString::Low2(h, e, f) => Ok(if_hex(byte, InString::Low3(h, e, f, byte), text)),
        InString::Low3(h, e, f, g) => last_digit(byte, paired(h, hex_code(e, f, g, byte)), text),
    }
}
