//! Names and quoted texts, byte by byte.

ghost use Rattle.std.specs.Prelude.{◌≡◌, IfOk};
ghost use Rattle.json_path.specs.Grammar.{is_name_byte, mark};
ghost use Rattle.json_path.specs.Tokens.{unspelt, spell, checked, quotation, quoting, closing, quote, begin_quote};

use byte_grammar::{Character, next};
use std::alloc::Global;
use zbx_types::{Bytes, OutOfMemory, Text};

/// The bytes of a text so far.
#[derive(Drop)]
pub struct Spelling {
    /// The bytes.
    pub bytes: Bytes,
    /// What they ask of the next one.
    pub character: Character,
}

/// A quoted text so far.
#[derive(Drop)]
pub struct Quotation {
    /// It stands in `"`, not in `'`.
    pub double: bool,
    /// The last byte is a backslash that takes the next byte as it is.
    pub escaped: bool,
    /// What it stands for.
    pub spelling: Spelling,
}

/// What a byte makes of a quoted text.
#[derive(Drop)]
pub enum Quoting {
    /// It isn't over.
    Open(Quotation),
    /// The byte ended it; what it stands for.
    Closed(Text),
    /// No quoted text goes on so.
    Wrong,
}

/// A byte of a name.
pub fn is_name(byte: u8) -> bool
    ensures { result ≡ is_name_byte byte }
{
    (b'a' <= byte && byte <= b'z')
        || (b'A' <= byte && byte <= b'Z')
        || (b'0' <= byte && byte <= b'9')
        || byte == b'_'
        || byte == b'-'
        || byte >= 128
}

/// No bytes.
pub fn nothing(alloc: Global) -> Spelling
    ensures { result ≡ unspelt }
{
    Spelling {
        bytes: Bytes::new(alloc),
        character: Character::Whole,
    }
}

/// The text with one byte more, or none where it isn't UTF-8 with it.
pub fn spelled(spelling: Spelling, byte: u8) -> Result<Option<Spelling>, OutOfMemory>
    ensures { IfOk result (λ now. now ≡ spell spelling byte) }
{
    match next(spelling.character, byte) {
        Some(character) => {
            let mut bytes = spelling.bytes;
            bytes.extend(&[byte])?;
            Ok(Some(Spelling { bytes, character }))
        }
        None => Ok(None),
    }
}

/// The bytes as a text, or none where they aren't UTF-8.
pub fn text_of(alloc: Global, bytes: &Bytes) -> Result<Option<Text>, OutOfMemory>
    ensures { IfOk result (λ text. text ≡ checked bytes.now) }
{
    match str::from_utf8(bytes.as_slice()) {
        Ok(text) => Ok(Some(Text::of(alloc, text)?)),
        Err(_) => Ok(None),
    }
}

/// The quoted text that a byte begins.
pub fn quote_begun(alloc: Global, byte: u8) -> Option<Quotation>
    ensures { result ≡ begin_quote byte }
{
    if byte == b'"' {
        Some(quotation_of(alloc, true))
    } else if byte == b'\'' {
        Some(quotation_of(alloc, false))
    } else {
        None
    }
}

fn quotation_of(alloc: Global, double: bool) -> Quotation
    ensures { result ≡ quotation double }
{
    Quotation {
        double,
        escaped: false,
        spelling: nothing(alloc),
    }
}

fn marked(double: bool) -> u8
    ensures { result ≡ mark double }
{
    if double { b'"' } else { b'\'' }
}

fn taken(quotation: Quotation, byte: u8) -> Result<Quoting, OutOfMemory>
    ensures { IfOk result (λ now. now ≡ quoting quotation.double (spell quotation.spelling byte)) }
{
    let double = quotation.double;
    match spelled(quotation.spelling, byte)? {
        Some(spelling) => Ok(Quoting::Open(Quotation {
            double,
            escaped: false,
            spelling,
        })),
        None => Ok(Quoting::Wrong),
    }
}

fn ended(alloc: Global, bytes: &Bytes) -> Result<Quoting, OutOfMemory>
    ensures { IfOk result (λ now. now ≡ closing (checked bytes.now)) }
{
    match text_of(alloc, bytes)? {
        Some(words) => Ok(Quoting::Closed(words)),
        None => Ok(Quoting::Wrong),
    }
}

/// A quoted text behind one byte more.
pub fn quoted(alloc: Global, quotation: Quotation, byte: u8) -> Result<Quoting, OutOfMemory>
    ensures { IfOk result (λ now. now ≡ quote quotation byte) }
{
    if quotation.escaped {
        taken(quotation, byte)
    } else if byte == marked(quotation.double) {
        ended(alloc, &quotation.spelling.bytes)
    } else if byte == b'\\' {
        Ok(Quoting::Open(Quotation {
            double: quotation.double,
            escaped: true,
            spelling: quotation.spelling,
        }))
    } else {
        taken(quotation, byte)
    }
}
