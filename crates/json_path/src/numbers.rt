//! JSON numbers, byte by byte.

ghost use Rattle.std.specs.Prelude.{◌≡◌, IfOk, []};
ghost use Rattle.byte_grammar.specs.Bytes.{is_nonzero_digit};
ghost use Rattle.json_path.specs.Tokens.{part, begin_part, may_end, numeral, whole_number, number_on};

use crate::tokens::text_of;
use byte_grammar::{is_digit, is_e};
use std::alloc::Global;
use zbx_types::{Bytes, OutOfMemory, Text};

/// A part of a JSON number (RFC 8259, section 6).
#[derive(Clone, Copy)]
pub enum Part {
    /// Behind the `-` that it begins with.
    Minus,
    /// Behind the 0 that is its integer part.
    Zero,
    /// In its integer part.
    Integer,
    /// Behind the point.
    Point,
    /// In its fraction.
    Fraction,
    /// Behind `e` or `E`.
    Letter,
    /// Behind the sign of the exponent.
    Sign,
    /// In the exponent.
    Exponent,
}

/// A JSON number so far.
#[derive(Drop)]
pub struct Numeral {
    /// The part that its last byte belongs to.
    pub part: Part,
    /// Its bytes.
    pub bytes: Bytes,
}

fn is_leading(byte: u8) -> bool
    ensures { result ≡ is_nonzero_digit byte }
{
    b'1' <= byte && byte <= b'9'
}

fn part_begun(byte: u8) -> Option<Part>
    ensures { result ≡ begin_part byte }
{
    if byte == b'-' {
        Some(Part::Minus)
    } else if byte == b'0' {
        Some(Part::Zero)
    } else if is_leading(byte) {
        Some(Part::Integer)
    } else {
        None
    }
}

fn behind_zero(byte: u8) -> Option<Part>
    ensures { result ≡ part Part.Zero byte }
{
    if byte == b'.' {
        Some(Part::Point)
    } else if is_e(byte) {
        Some(Part::Letter)
    } else {
        None
    }
}

fn behind_minus(byte: u8) -> Option<Part>
    ensures { result ≡ part Part.Minus byte }
{
    if byte == b'0' {
        Some(Part::Zero)
    } else if is_leading(byte) {
        Some(Part::Integer)
    } else {
        None
    }
}

fn behind_letter(byte: u8) -> Option<Part>
    ensures { result ≡ part Part.Letter byte }
{
    if is_digit(byte) {
        Some(Part::Exponent)
    } else if byte == b'+' {
        Some(Part::Sign)
    } else if byte == b'-' {
        Some(Part::Sign)
    } else {
        None
    }
}

fn behind_fraction(byte: u8) -> Option<Part>
    ensures { result ≡ part Part.Fraction byte }
{
    if is_digit(byte) {
        Some(Part::Fraction)
    } else if is_e(byte) {
        Some(Part::Letter)
    } else {
        None
    }
}

fn part_behind(now: Part, byte: u8) -> Option<Part>
    ensures { result ≡ part now byte }
{
    match now {
        Part::Minus => behind_minus(byte),
        Part::Zero => behind_zero(byte),
        Part::Integer if is_digit(byte) => Some(Part::Integer),
        Part::Integer => behind_zero(byte),
        Part::Point if is_digit(byte) => Some(Part::Fraction),
        Part::Fraction => behind_fraction(byte),
        Part::Letter => behind_letter(byte),
        Part::Sign if is_digit(byte) => Some(Part::Exponent),
        Part::Exponent if is_digit(byte) => Some(Part::Exponent),
        _ => None,
    }
}

fn ends(now: Part) -> bool
    ensures { result ≡ may_end now }
{
    match now {
        Part::Zero => true,
        Part::Integer => true,
        Part::Fraction => true,
        Part::Exponent => true,
        _ => false,
    }
}

fn grown(bytes: Bytes, byte: u8, now: Option<Part>) -> Result<Option<Numeral>, OutOfMemory>
    ensures { IfOk result (λ made. made ≡ numeral bytes byte now) }
{
    match now {
        Some(part) => {
            let mut bytes = bytes;
            bytes.extend(&[byte])?;
            Ok(Some(Numeral { part, bytes }))
        }
        None => Ok(None),
    }
}

/// The number that a byte begins.
pub fn number_begun(alloc: Global, byte: u8) -> Result<Option<Numeral>, OutOfMemory>
    ensures { IfOk result (λ made. made ≡ numeral [] byte (begin_part byte)) }
{
    grown(Bytes::new(alloc), byte, part_begun(byte))
}

/// What a byte makes of a number.
#[derive(Drop)]
pub enum Numbering {
    /// It belongs to it.
    Going(Numeral),
    /// It doesn't; the text of the number, where it may end there.
    Ended(Option<Text>),
}

/// A number behind one byte more.
pub fn numbered(alloc: Global, number: Numeral, byte: u8) -> Result<Numbering, OutOfMemory>
    ensures { IfOk result (λ made. made ≡ number_on number byte) }
{
    match part_behind(number.part, byte) {
        Some(part) => {
            let mut bytes = number.bytes;
            bytes.extend(&[byte])?;
            Ok(Numbering::Going(Numeral { part, bytes }))
        }
        None => Ok(Numbering::Ended(whole(alloc, number)?)),
    }
}

fn whole(alloc: Global, number: Numeral) -> Result<Option<Text>, OutOfMemory>
    ensures { IfOk result (λ text. text ≡ whole_number number) }
{
    if ends(number.part) {
        text_of(alloc, &number.bytes)
    } else {
        Ok(None)
    }
}
