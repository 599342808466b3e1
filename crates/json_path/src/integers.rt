//! Integers, byte by byte.

ghost use Rattle.std.specs.Prelude.{◌≡◌};
ghost use Rattle.json_path.specs.Tokens.{farthest, digit, begin_integer, integer};

use byte_grammar::is_digit;

/// An integer so far.
#[derive(Clone, Copy)]
pub struct Digits {
    /// It begins with `-`.
    pub minus: bool,
    /// A digit has come.
    pub any: bool,
    /// The number that the digits stand for.
    pub value: u64,
}

fn limit(minus: bool) -> u64
    ensures { result ≡ farthest minus }
{
    if minus {
        9_223_372_036_854_775_808
    } else {
        9_223_372_036_854_775_807
    }
}

/// The integer with one digit more, or none where it doesn't fit.
pub fn counted(digits: Digits, byte: u8) -> Option<Digits>
    ensures { result ≡ digit digits byte }
{
    if digits.value > 922_337_203_685_477_580 {
        return None;
    }
    let value = digits.value * 10 + byte.saturating_sub(b'0') as u64;
    if value <= limit(digits.minus) {
        Some(Digits {
            minus: digits.minus,
            any: true,
            value,
        })
    } else {
        None
    }
}

/// The integer that a byte begins.
pub fn integer_begun(byte: u8) -> Option<Digits>
    ensures { result ≡ begin_integer byte }
{
    if byte == b'-' {
        Some(Digits {
            minus: true,
            any: false,
            value: 0,
        })
    } else if is_digit(byte) {
        Some(Digits {
            minus: false,
            any: true,
            value: (byte - b'0') as u64,
        })
    } else {
        None
    }
}

/// The integer of these digits.
pub fn integer_of(digits: Digits) -> i64
    ensures { result ≡ integer digits }
{
    if digits.value < 9_223_372_036_854_775_808 {
        let value = digits.value as i64;
        if digits.minus { -value } else { value }
    } else if digits.minus {
        i64::MIN
    } else {
        i64::MAX
    }
}
