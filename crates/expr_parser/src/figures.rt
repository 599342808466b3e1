//! Numbers byte by byte.

ghost use Rattle.std.specs.Prelude.{◌≡◌, ◌++◌, ◌∷◌, [], ◌*◌, IfOk, nat_le, if◌then◌else◌, Some, None, option_map};
ghost use Rattle.byte_grammar.specs.Bytes.{is_digit};
ghost use Rattle.expr_parser.specs.Numbers as numbers;
ghost use Rattle.expr_parser.specs.Figures as figures;
ghost use Rattle.expr_parser.specs.declared.figures.Figures.TheVariants.{Integral, Fraction};

use crate::whole_numbers::{WholeNumber, first_digit};
use byte_grammar::is_digit;
use std::alloc::Global;
use zbx_types::{Bytes, Fix, OutOfMemory};

/// The text of a number so far, by the place in it.
#[derive(Drop)]
pub(crate) enum Figures {
    /// Among the digits before the point.
    Integral(WholeNumber),
    /// Behind the point.
    Pointed(Bytes),
    /// Among the digits behind the point.
    Fraction(Bytes),
    /// Behind the suffix, with the millionths of the number.
    Suffixed(Bytes, u128),
}

/// The bytes with one more at the end.
pub(crate) fn longer(mut text: Bytes, byte: u8) -> Result<Bytes, OutOfMemory>
    ensures { IfOk result (λ made. made ≡ text ++ byte ∷ []) }
{
    text.extend(&[byte])?;
    Ok(text)
}

/// The seconds of a period's suffix.
pub(crate) fn period_factor(byte: u8) -> Option<u64>
    ensures { result ≡ numbers.period_factor byte }
{
    if byte == b's' {
        Some(1)
    } else if byte == b'm' {
        Some(60)
    } else if byte == b'h' {
        Some(3600)
    } else if byte == b'd' {
        Some(86400)
    } else if byte == b'w' {
        Some(604800)
    } else {
        None
    }
}

fn number_factor(byte: u8) -> Option<u64>
    ensures { result ≡ numbers.number_factor byte }
{
    if byte == b'K' {
        Some(1024)
    } else if byte == b'M' {
        Some(1048576)
    } else if byte == b'G' {
        Some(1073741824)
    } else if byte == b'T' {
        Some(1099511627776)
    } else {
        period_factor(byte)
    }
}

/// A byte that may stand behind the first one of a number.
pub(crate) fn is_figure(byte: u8) -> bool
    ensures { result ≡ figures.is_figure byte }
{
    is_digit(byte) || byte == b'.' || number_factor(byte).is_some()
}

fn millionths(text: &[u8]) -> Option<u128>
    ensures { result ≡ numbers.millionths text.now }
{
    match Fix::read(text) {
        Some(number) => Some(number.raw().unsigned_abs()),
        None => None,
    }
}

fn at_most(most: u128, text: &[u8]) -> bool
    ensures { result ≡ numbers.is_at_most most (numbers.millionths text.now) }
{
    match millionths(text) {
        Some(number) => number <= most,
        None => false,
    }
}

fn integral(number: Option<WholeNumber>) -> Option<Figures>
    ensures { result ≡ option_map Integral number }
{
    match number {
        Some(number) => Some(Figures::Integral(number)),
        None => None,
    }
}

fn fraction(most: u128, text: Bytes) -> Option<Figures>
    ensures { result ≡ figures.held_to most text (Fraction text) }
{
    if at_most(most, text.as_slice()) {
        Some(Figures::Fraction(text))
    } else {
        None
    }
}

fn product(most: u128, number: u128, factor: u64) -> Option<u128>
    ensures { result ≡ (if nat_le (number * factor) most then Some (number * factor) else None) }
{
    match number.checked_mul(factor as u128) {
        Some(made) if made <= most => Some(made),
        _ => None,
    }
}

fn scaled(most: u128, text: Bytes, number: Option<u128>, factor: Option<u64>) -> Option<Figures>
    ensures { result ≡ figures.scaled most text number factor }
{
    match number {
        None => None,
        Some(n) => match factor {
            None => None,
            Some(f) => match product(most, n, f) {
                Some(made) => Some(Figures::Suffixed(text, made)),
                None => None,
            },
        },
    }
}

/// The place behind the first byte of a number.
#[tactic(auto, using(crate::proofs::WrittenWholes::integral_held))]
pub(crate) fn first_figure(
    alloc: Global,
    most: u128,
    byte: u8,
) -> Result<Option<Figures>, OutOfMemory>
    ensures { IfOk result (λ made. made ≡ figures.first_figure most byte) }
{
    if is_digit(byte) {
        let number = first_digit(alloc, most, byte)?;
        Ok(integral(number))
    } else {
        Ok(None)
    }
}

#[tactic(auto, using(crate::proofs::WrittenWholes::integral_held))]
fn behind_integral(most: u128, whole: WholeNumber, byte: u8) -> Result<Option<Figures>, OutOfMemory>
    ensures { IfOk result (λ made. made ≡ figures.figure most (Integral whole) byte) }
{
    if is_digit(byte) {
        let number = whole.more(most, byte)?;
        Ok(integral(number))
    } else if byte == b'.' {
        Ok(Some(Figures::Pointed(longer(whole.text(), byte)?)))
    } else {
        let number = whole.millionths();
        Ok(scaled(
            most,
            longer(whole.text(), byte)?,
            Some(number),
            number_factor(byte),
        ))
    }
}

fn behind_fraction(most: u128, text: Bytes, byte: u8) -> Result<Option<Figures>, OutOfMemory>
    ensures { IfOk result (λ made. made ≡ figures.figure most (Fraction text) byte) }
{
    if is_digit(byte) {
        Ok(fraction(most, longer(text, byte)?))
    } else {
        let number = millionths(text.as_slice());
        Ok(scaled(most, longer(text, byte)?, number, number_factor(byte)))
    }
}

fn behind_point(most: u128, text: Bytes, byte: u8) -> Result<Option<Figures>, OutOfMemory>
    ensures { IfOk result (λ made. made ≡ (if is_digit byte then figures.held_to most (text ++ byte ∷ []) (Fraction (text ++ byte ∷ [])) else None)) }
{
    if is_digit(byte) {
        let text = longer(text, byte)?;
        Ok(fraction(most, text))
    } else {
        Ok(None)
    }
}

/// The place behind one byte more of a number.
pub(crate) fn figure(most: u128, place: Figures, byte: u8) -> Result<Option<Figures>, OutOfMemory>
    ensures { IfOk result (λ made. made ≡ figures.figure most place byte) }
{
    match place {
        Figures::Integral(whole) => behind_integral(most, whole, byte),
        Figures::Pointed(text) => behind_point(most, text, byte),
        Figures::Fraction(text) => behind_fraction(most, text, byte),
        Figures::Suffixed(_, _) => Ok(None),
    }
}

/// The millionths of a number, where it may end here.
pub(crate) fn value(place: &Figures) -> Option<u128>
    ensures { result ≡ figures.figures_value place.now }
{
    match place {
        Figures::Integral(whole) => Some(whole.millionths()),
        Figures::Pointed(_) => None,
        Figures::Fraction(text) => millionths(text.as_slice()),
        Figures::Suffixed(_, number) => Some(*number),
    }
}

/// Its text.
pub(crate) fn text_of(place: Figures) -> Bytes
    ensures { result ≡ figures.figures_text place }
{
    match place {
        Figures::Integral(whole) => whole.text(),
        Figures::Pointed(text) => text,
        Figures::Fraction(text) => text,
        Figures::Suffixed(text, _) => text,
    }
}
