//! Conditions, byte by byte.

ghost use Rattle.std.specs.Prelude.{◌≡◌, ◌++◌, ◌∷◌, [], ◌==◌, if◌then◌else◌, IfOk};
ghost use Rattle.json_path.specs.Tokens.{quote, number_on, spell};
ghost use Rattle.json_path.specs.Machine.{behind_member, name_goes, name_ends, bracket_goes};
ghost use Rattle.json_path.specs.Machine.{number_begins, operand, behind_literal, words_go, number_ends, number_goes};
ghost use Rattle.json_path.specs.Machine.{check};

use crate::numbers::{Numbering, Numeral, number_begun, numbered};
use crate::path::{Comparison, Condition, Literal};
use crate::tokens::{
    Quotation, Quoting, Spelling, is_name, nothing, quote_begun, quoted, spelled, text_of,
};
use std::alloc::Global;
use zbx_types::{Many, OutOfMemory, Text};

/// A condition so far.
#[derive(Drop)]
pub enum Checking {
    /// Nothing of it has come but spaces.
    Before,
    /// Behind what it looks at: `@` and these names.
    Member(Many<Text>),
    /// Behind a point.
    Point(Many<Text>),
    /// In a name behind a point.
    Name(Many<Text>, Spelling),
    /// Behind `[`.
    Bracket(Many<Text>),
    /// In a quoted name.
    Quote(Many<Text>, Quotation),
    /// Behind a quoted name.
    Bracketed(Many<Text>),
    /// Behind `=`.
    Equal(Many<Text>),
    /// Behind `!`.
    Not(Many<Text>),
    /// Behind `<`.
    Less(Many<Text>),
    /// Behind `>`.
    Greater(Many<Text>),
    /// Behind a comparison.
    Operand(Many<Text>, Comparison),
    /// In a quoted text.
    Quoted(Many<Text>, Comparison, Quotation),
    /// In a number.
    Numbered(Many<Text>, Comparison, Numeral),
    /// Behind the literal.
    Compared(Condition),
}

/// What a byte makes of a condition.
#[derive(Drop)]
pub enum Checked {
    /// It isn't over.
    Open(Checking),
    /// The byte closed it.
    Met(Condition),
    /// No condition goes on so.
    Wrong,
}

/// A list of texts with one more.
pub fn added(names: Many<Text>, word: Text) -> Result<Many<Text>, OutOfMemory>
    ensures { IfOk result (λ made. made ≡ names ++ word ∷ []) }
{
    let mut made = names;
    made.push(word)?;
    Ok(made)
}

fn member_on(names: Many<Text>, byte: u8) -> Checked
    ensures { result ≡ behind_member names byte }
{
    if byte == b' ' {
        Checked::Open(Checking::Member(names))
    } else if byte == b'.' {
        Checked::Open(Checking::Point(names))
    } else if byte == b'[' {
        Checked::Open(Checking::Bracket(names))
    } else if byte == b'=' {
        Checked::Open(Checking::Equal(names))
    } else if byte == b'!' {
        Checked::Open(Checking::Not(names))
    } else if byte == b'<' {
        Checked::Open(Checking::Less(names))
    } else if byte == b'>' {
        Checked::Open(Checking::Greater(names))
    } else {
        Checked::Wrong
    }
}

fn name_on(names: Many<Text>, spelling: Spelling, byte: u8) -> Result<Checked, OutOfMemory>
    ensures { IfOk result (λ now. now ≡ name_goes names (spell spelling byte)) }
{
    match spelled(spelling, byte)? {
        Some(spelling) => Ok(Checked::Open(Checking::Name(names, spelling))),
        None => Ok(Checked::Wrong),
    }
}

fn name_over(names: Many<Text>, byte: u8, word: Option<Text>) -> Result<Checked, OutOfMemory>
    ensures { IfOk result (λ now. now ≡ name_ends names byte word) }
{
    match word {
        Some(word) => Ok(member_on(added(names, word)?, byte)),
        None => Ok(Checked::Wrong),
    }
}

fn in_name(
    alloc: Global,
    names: Many<Text>,
    spelling: Spelling,
    byte: u8,
) -> Result<Checked, OutOfMemory>
    ensures { IfOk result (λ now. now ≡ check (Checking.Name names spelling) byte) }
{
    if is_name(byte) {
        name_on(names, spelling, byte)
    } else {
        name_over(names, byte, text_of(alloc, &spelling.bytes)?)
    }
}

fn behind_point(alloc: Global, names: Many<Text>, byte: u8) -> Result<Checked, OutOfMemory>
    ensures { IfOk result (λ now. now ≡ check (Checking.Point names) byte) }
{
    if byte == b' ' {
        Ok(Checked::Open(Checking::Point(names)))
    } else if is_name(byte) {
        name_on(names, nothing(alloc), byte)
    } else {
        Ok(Checked::Wrong)
    }
}

fn behind_bracket(alloc: Global, names: Many<Text>, byte: u8) -> Checked
    ensures { result ≡ check (Checking.Bracket names) byte }
{
    if byte == b' ' {
        return Checked::Open(Checking::Bracket(names));
    }
    match quote_begun(alloc, byte) {
        Some(quotation) => Checked::Open(Checking::Quote(names, quotation)),
        None => Checked::Wrong,
    }
}

fn in_bracket(
    alloc: Global,
    names: Many<Text>,
    quotation: Quotation,
    byte: u8,
) -> Result<Checked, OutOfMemory>
    ensures { IfOk result (λ now. now ≡ bracket_goes names (quote quotation byte)) }
{
    match quoted(alloc, quotation, byte)? {
        Quoting::Open(quotation) => Ok(Checked::Open(Checking::Quote(names, quotation))),
        Quoting::Closed(word) => Ok(Checked::Open(Checking::Bracketed(added(names, word)?))),
        Quoting::Wrong => Ok(Checked::Wrong),
    }
}

fn behind_quote(names: Many<Text>, byte: u8) -> Checked
    ensures { result ≡ check (Checking.Bracketed names) byte }
{
    if byte == b' ' {
        Checked::Open(Checking::Bracketed(names))
    } else if byte == b']' {
        Checked::Open(Checking::Member(names))
    } else {
        Checked::Wrong
    }
}

fn number_or_none(names: Many<Text>, op: Comparison, number: Option<Numeral>) -> Checked
    ensures { result ≡ number_begins names op number }
{
    match number {
        Some(number) => Checked::Open(Checking::Numbered(names, op, number)),
        None => Checked::Wrong,
    }
}

fn operand_on(
    alloc: Global,
    names: Many<Text>,
    op: Comparison,
    byte: u8,
) -> Result<Checked, OutOfMemory>
    ensures { IfOk result (λ now. now ≡ operand names op byte) }
{
    if byte == b' ' {
        return Ok(Checked::Open(Checking::Operand(names, op)));
    }
    match quote_begun(alloc, byte) {
        Some(quotation) => Ok(Checked::Open(Checking::Quoted(names, op, quotation))),
        None => Ok(number_or_none(names, op, number_begun(alloc, byte)?)),
    }
}

fn equals(names: Many<Text>, op: Comparison, byte: u8) -> Checked
    ensures { result ≡ (if byte == 61 then Checked.Open (Checking.Operand names op) else Checked.Wrong) }
{
    if byte == b'=' {
        Checked::Open(Checking::Operand(names, op))
    } else {
        Checked::Wrong
    }
}

fn equals_or(
    alloc: Global,
    names: Many<Text>,
    op: Comparison,
    alone: Comparison,
    byte: u8,
) -> Result<Checked, OutOfMemory>
    ensures { IfOk result (λ now. now ≡ (if byte == 61 then Checked.Open (Checking.Operand names op) else operand names alone byte)) }
{
    if byte == b'=' {
        Ok(Checked::Open(Checking::Operand(names, op)))
    } else {
        operand_on(alloc, names, alone, byte)
    }
}

fn literal_over(condition: Condition, byte: u8) -> Checked
    ensures { result ≡ behind_literal condition byte }
{
    if byte == b' ' {
        Checked::Open(Checking::Compared(condition))
    } else if byte == b')' {
        Checked::Met(condition)
    } else {
        drop(condition);
        Checked::Wrong
    }
}

fn in_words(
    alloc: Global,
    names: Many<Text>,
    op: Comparison,
    quotation: Quotation,
    byte: u8,
) -> Result<Checked, OutOfMemory>
    ensures { IfOk result (λ now. now ≡ words_go names op (quote quotation byte)) }
{
    match quoted(alloc, quotation, byte)? {
        Quoting::Open(quotation) => Ok(Checked::Open(Checking::Quoted(names, op, quotation))),
        Quoting::Closed(word) => Ok(Checked::Open(Checking::Compared(Condition {
            names,
            op,
            literal: Literal::Words(word),
        }))),
        Quoting::Wrong => Ok(Checked::Wrong),
    }
}

fn number_over(names: Many<Text>, op: Comparison, byte: u8, word: Option<Text>) -> Checked
    ensures { result ≡ number_ends names op byte word }
{
    match word {
        Some(word) => {
            let literal = Literal::Number(word);
            literal_over(Condition { names, op, literal }, byte)
        }
        None => Checked::Wrong,
    }
}

fn in_number(
    alloc: Global,
    names: Many<Text>,
    op: Comparison,
    number: Numeral,
    byte: u8,
) -> Result<Checked, OutOfMemory>
    ensures { IfOk result (λ now. now ≡ number_goes names op byte (number_on number byte)) }
{
    match numbered(alloc, number, byte)? {
        Numbering::Going(number) => Ok(Checked::Open(Checking::Numbered(names, op, number))),
        Numbering::Ended(word) => Ok(number_over(names, op, byte, word)),
    }
}

fn before(alloc: Global, byte: u8) -> Checked
    ensures { result ≡ check Checking.Before byte }
{
    if byte == b' ' {
        Checked::Open(Checking::Before)
    } else if byte == b'@' {
        Checked::Open(Checking::Member(Many::new(alloc)))
    } else {
        Checked::Wrong
    }
}

/// A condition behind one byte more.
pub fn checked_on(alloc: Global, now: Checking, byte: u8) -> Result<Checked, OutOfMemory>
    ensures { IfOk result (λ made. made ≡ check now byte) }
{
    match now {
        Checking::Before => Ok(before(alloc, byte)),
        Checking::Member(names) => Ok(member_on(names, byte)),
        Checking::Point(names) => behind_point(alloc, names, byte),
        Checking::Name(names, spelling) => in_name(alloc, names, spelling, byte),
        Checking::Bracket(names) => Ok(behind_bracket(alloc, names, byte)),
        Checking::Quote(names, quotation) => in_bracket(alloc, names, quotation, byte),
        Checking::Bracketed(names) => Ok(behind_quote(names, byte)),
        Checking::Equal(names) => Ok(equals(names, Comparison::Eq, byte)),
        Checking::Not(names) => Ok(equals(names, Comparison::Ne, byte)),
        Checking::Less(names) => { equals_or(alloc, names, Comparison::Le, Comparison::Lt, byte) }
        Checking::Greater(names) => {
            equals_or(alloc, names, Comparison::Ge, Comparison::Gt, byte)
        }
        Checking::Operand(names, op) => operand_on(alloc, names, op, byte),
        Checking::Quoted(names, op, quotation) => in_words(alloc, names, op, quotation, byte),
        Checking::Numbered(names, op, number) => in_number(alloc, names, op, number, byte),
        Checking::Compared(condition) => Ok(literal_over(condition, byte)),
    }
}
