//! Tables of cases as one text: a line is the kind of the case, what is to come of it and what it is of, with ` | ` between.

use std::alloc::Global;
use zbx_types::{Bytes, OutOfMemory};

/// A case.
#[derive(Clone, Copy)]
pub(crate) struct Row<'a> {
    pub(crate) kind: &'a str,
    pub(crate) wanted: &'a str,
    pub(crate) input: &'a str,
}

/// The case of a line. A part that it lacks is empty.
pub(crate) fn row_of(line: &str) -> Row<'_> {
    let (kind, rest) = line.split_once(" | ").unwrap_or((line, ""));
    let (wanted, input) = rest.split_once(" | ").unwrap_or((rest, ""));
    Row {
        kind,
        wanted,
        input,
    }
}

/// The number that a text writes, and 0 where it writes none.
pub(crate) fn number(text: &str) -> u64 {
    text.parse().unwrap_or(0)
}

/// The two numbers that a text writes with a blank between them.
pub(crate) fn numbers(text: &str) -> (u64, u64) {
    let (first, second) = text.split_once(' ').unwrap_or((text, ""));
    (number(first), number(second))
}

/// The value of a hexadecimal digit, and 0 of another byte.
fn digit(byte: u8) -> u8 {
    match byte {
        b'0'..=b'9' => byte - b'0',
        b'a'..=b'f' => byte - b'a' + 10,
        _ => 0,
    }
}

/// The bytes that a text writes: each `%HH` is the byte of these digits, and all else itself.
pub(crate) fn bytes_of(alloc: Global, text: &str) -> Result<Bytes, OutOfMemory> {
    let mut made = Bytes::new(alloc);
    let mut is_first = true;
    for piece in text.split('%') {
        let bytes = piece.as_bytes();
        if is_first || bytes.len() < 2 {
            made.extend(bytes)?;
        } else {
            made.extend(&[digit(bytes[0]) % 16 * 16 + digit(bytes[1]) % 16])?;
            made.extend(&bytes[2..])?;
        }
        is_first = false;
    }
    Ok(made)
}
