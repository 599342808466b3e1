//! Places in numbers.

ghost use Rattle.std.specs.Prelude.{◌≡◌};
ghost use Rattle.json_text.specs.Tokens.{behind_whole as place_behind_whole, digit_to, number_step, number_ends};

use crate::kinds::is_sign;
use byte_grammar::{is_digit, is_e};

/// A place in a number (RFC 8259, "Numbers"): what its bytes so far say of those that may follow.
#[derive(Clone, Copy)]
pub(crate) enum InNumber {
    /// Behind the minus.
    Minus,
    /// Behind a 0 as the whole part.
    Zero,
    /// In the whole part.
    Whole,
    /// Behind the point.
    Point,
    /// In the digits behind the point.
    Fraction,
    /// Behind the `e`.
    Exponent,
    /// Behind the exponent's sign.
    Signed,
    /// In the exponent's digits.
    Digits,
}

fn digit(to: InNumber, byte: u8) -> Option<InNumber>
    ensures { result ≡ digit_to to byte }
{
    if is_digit(byte) { Some(to) } else { None }
}

fn behind_whole(byte: u8) -> Option<InNumber>
    ensures { result ≡ place_behind_whole byte }
{
    if byte == b'.' {
        Some(InNumber::Point)
    } else if is_e(byte) {
        Some(InNumber::Exponent)
    } else {
        None
    }
}

/// The place behind one byte more, where it belongs to the number.
pub(crate) fn next_in_number(place: InNumber, byte: u8) -> Option<InNumber>
    ensures { result ≡ number_step place byte }
{
    match place {
        InNumber::Minus if byte == b'0' => Some(InNumber::Zero),
        InNumber::Minus => digit(InNumber::Whole, byte),
        InNumber::Zero => behind_whole(byte),
        InNumber::Whole if is_digit(byte) => Some(InNumber::Whole),
        InNumber::Whole => behind_whole(byte),
        InNumber::Point => digit(InNumber::Fraction, byte),
        InNumber::Fraction if is_digit(byte) => Some(InNumber::Fraction),
        InNumber::Fraction if is_e(byte) => Some(InNumber::Exponent),
        InNumber::Fraction => None,
        InNumber::Exponent if is_sign(byte) => Some(InNumber::Signed),
        InNumber::Exponent => digit(InNumber::Digits, byte),
        InNumber::Signed => digit(InNumber::Digits, byte),
        InNumber::Digits => digit(InNumber::Digits, byte),
    }
}

/// Whether the number may end here.
pub(crate) fn may_end(place: InNumber) -> bool
    ensures { result ≡ number_ends place }
{
    match place {
        InNumber::Zero | InNumber::Whole | InNumber::Fraction | InNumber::Digits => true,
        _ => false,
    }
}
