//! Long texts of rows, and bytes as rows show them.

ghost use Rattle.std.specs.Prelude.{◌≡◌, ◌≤◌, ◌<◌};
ghost use Rattle.zbx_types.specs.Numerals.{digits_after};

use std::alloc::Global;
use zbx_types::{OutOfMemory, number_within};

/// The number that a text of digits is, and 0 where it is above the greatest.
pub fn number(text: &str) -> u32
    ensures within { digits_after 0 text.now ≤ 4294967295 → result ≡ digits_after 0 text.now }
    ensures above { 4294967295 < digits_after 0 text.now → result ≡ 0 }
{
    number_within(u32::MAX, text.as_bytes()).unwrap_or(0)
}

/// Adds what stands between `<` and `>`: of `N*PIECE` the piece N times, else nothing.
fn put_times(made: &mut String, short: &str) -> Result<(), OutOfMemory> {
    if let Some((count, piece)) = short.split_once('*') {
        for _ in 0..number(count) {
            made.push_str(piece)?;
        }
    }
    Ok(())
}

/// Adds what stands behind a `<`.
fn put_part(made: &mut String, part: &str) -> Result<(), OutOfMemory> {
    let (short, behind) = part.split_once('>').unwrap_or(("", part));
    put_times(made, short)?;
    made.push_str(behind)?;
    Ok(())
}

/// The text that a row writes in short: each `<N*PIECE>` is the piece N times, and all else itself.
pub fn long_text(alloc: Global, text: &str) -> Result<String, OutOfMemory> {
    let (front, parts) = text.split_once('<').unwrap_or((text, ""));
    let mut made = String::from_str(alloc, front)?;
    for part in parts.split('<') {
        put_part(&mut made, part)?;
    }
    Ok(made)
}

/// The hexadecimal digit of a number below 16.
fn digit(value: u8) -> char {
    match value {
        0..=9 => (b'0' + value) as char,
        10..=15 => (b'a' + (value - 10)) as char,
        _ => '?',
    }
}

/// Adds a character as rows write it.
fn put_character(made: &mut String, character: char) -> Result<(), OutOfMemory> {
    if character >= ' ' && character != '\u{7f}' && character != '%' {
        made.push(character)?;
        return Ok(());
    }
    let code = (character as u32 % 256) as u8;
    made.push('%')?;
    made.push(digit(code / 16))?;
    made.push(digit(code % 16))?;
    Ok(())
}

/// Bytes as a row writes them: `%HH` for what can't stand in a line and for `%`, and `no text` where they are none.
pub fn shown(alloc: Global, bytes: &[u8]) -> Result<String, OutOfMemory> {
    let mut made = String::new(alloc);
    for character in str::from_utf8(bytes).unwrap_or("no text").chars() {
        put_character(&mut made, character)?;
    }
    Ok(made)
}
