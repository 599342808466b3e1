//! Rows, and the bytes that they write.

use std::alloc::Global;
use zbx_types::{Bytes, OutOfMemory};

/// A row: its kind, what is to come of it, and what it is of.
#[derive(Clone, Copy)]
pub struct Row<'a> {
    pub kind: &'a str,
    pub wanted: &'a str,
    pub input: &'a str,
}

/// The row of a line, if it is one. Where it lacks a part, that part is empty.
pub fn row_of(line: &str) -> Option<Row<'_>> {
    if line.is_empty() || line.starts_with('#') {
        return None;
    }
    let (kind, rest) = line.split_once('\t').unwrap_or((line, ""));
    let (wanted, input) = rest.split_once('\t').unwrap_or((rest, ""));
    Some(Row {
        kind,
        wanted,
        input,
    })
}

/// The value of a hexadecimal digit, and 0 of another byte.
fn digit(byte: u8) -> u8 {
    match byte {
        b'0'..=b'9' => byte - b'0',
        b'a'..=b'f' => byte - b'a' + 10,
        _ => 0,
    }
}

/// The bytes that a text writes: each `%HH` is the byte of these digits, and all else itself.
pub fn bytes_of(alloc: Global, text: &str) -> Result<Bytes, OutOfMemory> {
    let mut made = Bytes::new(alloc);
    let mut is_first = true;
    for piece in text.split('%') {
        let bytes = piece.as_bytes();
        if is_first || bytes.len() < 2 {
            made.extend(bytes)?;
        } else {
            made.extend(&[digit(bytes[0]) % 16 * 16 + digit(bytes[1]) % 16])?;
            made.extend(&bytes[2..])?;
        }
        is_first = false;
    }
    Ok(made)
}
