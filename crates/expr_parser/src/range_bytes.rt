//! The bytes of ranges and shifts.

ghost use Rattle.std.specs.Prelude.{◌≡◌, true, option_map};
ghost use Rattle.byte_grammar.specs.Bytes.{is_digit};
ghost use Rattle.expr_parser.specs.Functions as functions;
ghost use Rattle.expr_parser.specs.Parts as parts;
ghost use Rattle.expr_parser.specs.declared.parts.Part.TheVariants.{Seconds, Shift, Latest};

use crate::figures::period_factor;
use crate::parts::{Ahead, Part};
use crate::slots::{Slot, least_period, takes_count};
use byte_grammar::is_digit;
use zbx_types::{LONGEST_RANGE, Range};

/// The most values of a range.
const MOST_VALUES: u32 = 10_000;

pub(crate) fn grown(most: u32, number: u32, byte: u8) -> Option<u32>
    requires { is_digit byte ≡ true }
    ensures { result ≡ parts.grown most number byte }
{
    let wide = number as u64 * 10 + (byte - b'0') as u64;
    if wide <= most as u64 {
        Some(wide as u32)
    } else {
        None
    }
}

pub(crate) fn lasting(least: u32, number: u32, factor: Option<u64>) -> Option<u32>
    ensures { result ≡ parts.lasting least number factor }
{
    match factor {
        None => None,
        Some(f) => match (number as u64).checked_mul(f) {
            Some(made) if least as u64 <= made && made <= LONGEST_RANGE as u64 => Some(made as u32),
            _ => None,
        },
    }
}

pub(crate) fn colon(slot: Slot, range: Range, byte: u8) -> Option<Part>
    ensures { result ≡ parts.colon slot range byte }
{
    if byte == b':' && takes_count(slot) {
        Some(Part::Back(Ahead::Now, range))
    } else {
        None
    }
}

pub(crate) fn in_seconds(made: Option<u32>) -> Option<Part>
    ensures { result ≡ option_map Seconds made }
{
    match made {
        Some(n) => Some(Part::Seconds(n)),
        None => None,
    }
}

pub(crate) fn second(slot: Slot, number: u32, byte: u8) -> Option<Part>
    ensures { result ≡ parts.second slot number (functions.least_period slot) byte }
{
    match least_period(slot) {
        None => None,
        Some(least) => {
            if is_digit(byte) {
                in_seconds(grown(LONGEST_RANGE, number, byte))
            } else if byte == b':' {
                if least <= number {
                    colon(slot, Range::Period(number), byte)
                } else {
                    None
                }
            } else {
                match lasting(least, number, period_factor(byte)) {
                    Some(made) => Some(Part::Spanned(Range::Period(made))),
                    None => None,
                }
            }
        }
    }
}

pub(crate) fn first_second(slot: Slot, byte: u8) -> Option<Part>
    ensures { result ≡ parts.first_second (functions.least_period slot) byte }
{
    match least_period(slot) {
        None => None,
        Some(_) => {
            if is_digit(byte) {
                in_seconds(grown(LONGEST_RANGE, 0, byte))
            } else {
                None
            }
        }
    }
}

pub(crate) fn first_range(slot: Slot, byte: u8) -> Option<Part>
    ensures { result ≡ parts.first_range slot byte }
{
    if byte == b'#' {
        if takes_count(slot) {
            Some(Part::Hash)
        } else {
            None
        }
    } else {
        first_second(slot, byte)
    }
}

pub(crate) fn awaited(want: u8, next: Ahead, range: Range, byte: u8) -> Option<Part>
    ensures { result ≡ parts.awaited want next range byte }
{
    if byte == want {
        Some(Part::Back(next, range))
    } else {
        None
    }
}

pub(crate) fn in_shift(range: Range, made: Option<u32>) -> Option<Part>
    ensures { result ≡ option_map (Shift range) made }
{
    match made {
        Some(n) => Some(Part::Shift(range, n)),
        None => None,
    }
}

pub(crate) fn back(ahead: Ahead, range: Range, byte: u8) -> Option<Part>
    ensures { result ≡ parts.back ahead range byte }
{
    match ahead {
        Ahead::Now => awaited(b'n', Ahead::Ow, range, byte),
        Ahead::Ow => awaited(b'o', Ahead::W, range, byte),
        Ahead::W => awaited(b'w', Ahead::Dash, range, byte),
        Ahead::Dash => awaited(b'-', Ahead::Digits, range, byte),
        Ahead::Digits => {
            if is_digit(byte) {
                in_shift(range, grown(LONGEST_RANGE, 0, byte))
            } else {
                None
            }
        }
    }
}

pub(crate) fn shift_byte(range: Range, number: u32, byte: u8) -> Option<Part>
    ensures { result ≡ parts.shift_byte range number byte }
{
    if is_digit(byte) {
        in_shift(range, grown(LONGEST_RANGE, number, byte))
    } else {
        match lasting(0, number, period_factor(byte)) {
            Some(made) => Some(Part::Shifted(range, made)),
            None => None,
        }
    }
}

pub(crate) fn in_latest(made: Option<u32>) -> Option<Part>
    ensures { result ≡ option_map Latest made }
{
    match made {
        Some(n) => Some(Part::Latest(n)),
        None => None,
    }
}

pub(crate) fn latest_range(number: u32) -> Option<Range>
    ensures { result ≡ parts.latest_range number }
{
    if number == 0 {
        None
    } else {
        Some(Range::Count(number))
    }
}

pub(crate) fn latest_byte(slot: Slot, number: u32, byte: u8) -> Option<Part>
    ensures { result ≡ parts.latest_byte slot number byte }
{
    if is_digit(byte) {
        in_latest(grown(MOST_VALUES, number, byte))
    } else {
        match latest_range(number) {
            Some(range) => colon(slot, range, byte),
            None => None,
        }
    }
}

pub(crate) fn hash_byte(byte: u8) -> Option<Part>
    ensures { result ≡ parts.hash_byte byte }
{
    if is_digit(byte) {
        in_latest(grown(MOST_VALUES, 0, byte))
    } else {
        None
    }
}
