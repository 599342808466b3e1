//! Kinds of bytes.

ghost use Rattle.std.specs.Prelude.{◌≡◌, ◌<◌};
ghost use Rattle.json_text.specs.Bytes.{is_blank as blank_test};
ghost use Rattle.json_text.specs.Bytes.{is_sign as sign_test, is_hex as hex_test, hex_value as hex_number};
ghost use Rattle.json_text.specs.Bytes.{hex_code as code_number, paired as pair_number, short_escape};

use byte_grammar::is_digit;

pub(crate) fn is_blank(byte: u8) -> bool
    ensures { result ≡ blank_test byte }
{
    byte == b' ' || byte == b'\t' || byte == b'\n' || byte == b'\r'
}

pub(crate) fn is_sign(byte: u8) -> bool
    ensures { result ≡ sign_test byte }
{
    byte == b'+' || byte == b'-'
}

/// Whether the byte is a hexadecimal digit.
pub(crate) fn is_hex(byte: u8) -> bool
    ensures { result ≡ hex_test byte }
{
    is_digit(byte) || (b'a' <= byte && byte <= b'f') || (b'A' <= byte && byte <= b'F')
}

/// The value of a hexadecimal digit, 0 for another byte.
pub(crate) fn hex_value(byte: u8) -> u16
    ensures value { result ≡ hex_number byte }
    ensures small { result < 16 }
{
    if is_digit(byte) {
        (byte - b'0') as u16
    } else if b'a' <= byte && byte <= b'f' {
        (byte - b'a' + 10) as u16
    } else if b'A' <= byte && byte <= b'F' {
        (byte - b'A' + 10) as u16
    } else {
        0
    }
}

/// The number of four hexadecimal digits.
pub(crate) fn hex_code(a: u8, b: u8, c: u8, d: u8) -> u16
    ensures { result ≡ code_number a b c d }
{
    hex_value(a) * 4096 + hex_value(b) * 256 + hex_value(c) * 16 + hex_value(d)
}

/// The character of a pair of surrogates.
pub(crate) fn paired(high: u16, low: u16) -> u32
    ensures code { result ≡ pair_number high low }
    ensures fits { result < 1114112 }
{
    65536 + (high as u32 % 1024) * 1024 + low as u32 % 1024
}

/// What stands for a character behind a backslash, but for `u`.
pub(crate) fn short_escape_of(byte: u8) -> Option<u8>
    ensures { result ≡ short_escape byte }
{
    match byte {
        b'"' => Some(b'"'),
        b'\\' => Some(b'\\'),
        b'/' => Some(b'/'),
        b'b' => Some(8),
        b'f' => Some(12),
        b'n' => Some(10),
        b'r' => Some(13),
        b't' => Some(9),
        _ => None,
    }
}
