//! What stands in the brackets of a segment, byte by byte.

ghost use Rattle.std.specs.Prelude.{◌≡◌, ◌++◌, ◌∷◌, [], IfOk};
ghost use Rattle.json_path.specs.Tokens.{quote, integer};
ghost use Rattle.json_path.specs.Machine.{behind_selector, behind_integers, colon, quote_begins, quote_goes};
ghost use Rattle.json_path.specs.Machine.{integer_goes, bound_goes, condition_goes, selector_begins, check, choose};

use crate::conditions::{Checked, Checking, added, checked_on};
use crate::integers::{Digits, counted, integer_begun, integer_of};
use crate::path::Selector;
use crate::tokens::{Quotation, Quoting, quote_begun, quoted};
use byte_grammar::is_digit;
use std::alloc::Global;
use zbx_types::{Many, OutOfMemory, Text};

/// A selector so far.
#[derive(Drop)]
pub enum InBrackets {
    /// Nothing of it has come but spaces.
    Before,
    /// In a quoted name, behind these.
    Quote(Many<Text>, Quotation),
    /// Behind a quoted name, the last of these.
    Named(Many<Text>),
    /// Behind a comma, where these names stand before it.
    NextName(Many<Text>),
    /// In an integer, behind these.
    Index(Many<i64>, Digits),
    /// Behind an integer and a space, the last of these.
    Counted(Many<i64>),
    /// Behind a comma, where these integers stand before it.
    NextIndex(Many<i64>),
    /// Behind the colon of a slice, with its start.
    From(Option<i64>),
    /// In the end of a slice, with its start.
    To(Option<i64>, Digits),
    /// Behind `?`.
    Question,
    /// In a condition.
    Condition(Checking),
    /// Behind a selector that nothing but spaces may follow.
    Whole(Selector),
}

/// What a byte makes of a selector.
#[derive(Drop)]
pub enum Chosen {
    /// It isn't over.
    Open(InBrackets),
    /// The byte closed it.
    Closed(Selector),
    /// No selector goes on so.
    Wrong,
}

fn over(selector: Selector, byte: u8) -> Chosen
    ensures { result ≡ behind_selector selector byte }
{
    if byte == b' ' {
        Chosen::Open(InBrackets::Whole(selector))
    } else if byte == b']' {
        Chosen::Closed(selector)
    } else {
        drop(selector);
        Chosen::Wrong
    }
}

fn sliced(integers: Many<i64>) -> Chosen
    ensures { result ≡ colon integers }
{
    match integers.as_slice() {
        [from] => Chosen::Open(InBrackets::From(Some(*from))),
        _ => Chosen::Wrong,
    }
}

fn integers_on(integers: Many<i64>, byte: u8) -> Chosen
    ensures { result ≡ behind_integers integers byte }
{
    if byte == b' ' {
        Chosen::Open(InBrackets::Counted(integers))
    } else if byte == b',' {
        Chosen::Open(InBrackets::NextIndex(integers))
    } else if byte == b':' {
        sliced(integers)
    } else if byte == b']' {
        Chosen::Closed(Selector::Indexes(integers))
    } else {
        Chosen::Wrong
    }
}

fn quote_or_none(names: Many<Text>, quotation: Option<Quotation>) -> Chosen
    ensures { result ≡ quote_begins names quotation }
{
    match quotation {
        Some(quotation) => Chosen::Open(InBrackets::Quote(names, quotation)),
        None => Chosen::Wrong,
    }
}

fn in_quote(
    alloc: Global,
    names: Many<Text>,
    quotation: Quotation,
    byte: u8,
) -> Result<Chosen, OutOfMemory>
    ensures { IfOk result (λ now. now ≡ quote_goes names (quote quotation byte)) }
{
    match quoted(alloc, quotation, byte)? {
        Quoting::Open(quotation) => Ok(Chosen::Open(InBrackets::Quote(names, quotation))),
        Quoting::Closed(word) => Ok(Chosen::Open(InBrackets::Named(added(names, word)?))),
        Quoting::Wrong => Ok(Chosen::Wrong),
    }
}

fn behind_quote(names: Many<Text>, byte: u8) -> Chosen
    ensures { result ≡ choose (InBrackets.Named names) byte }
{
    if byte == b',' {
        Chosen::Open(InBrackets::NextName(names))
    } else if byte == b' ' {
        Chosen::Open(InBrackets::Named(names))
    } else if byte == b']' {
        Chosen::Closed(Selector::Names(names))
    } else {
        Chosen::Wrong
    }
}

fn behind_comma(alloc: Global, names: Many<Text>, byte: u8) -> Chosen
    ensures { result ≡ choose (InBrackets.NextName names) byte }
{
    if byte == b' ' {
        Chosen::Open(InBrackets::NextName(names))
    } else {
        quote_or_none(names, quote_begun(alloc, byte))
    }
}

fn index_or_none(integers: Many<i64>, digits: Option<Digits>) -> Chosen
    ensures { result ≡ integer_goes integers digits }
{
    match digits {
        Some(digits) => Chosen::Open(InBrackets::Index(integers, digits)),
        None => Chosen::Wrong,
    }
}

fn counted_on(integers: Many<i64>, digits: Digits, byte: u8) -> Result<Chosen, OutOfMemory>
    ensures { IfOk result (λ now. now ≡ behind_integers (integers ++ integer digits ∷ []) byte) }
{
    let mut made = integers;
    made.push(integer_of(digits))?;
    Ok(integers_on(made, byte))
}

fn in_index(integers: Many<i64>, digits: Digits, byte: u8) -> Result<Chosen, OutOfMemory>
    ensures { IfOk result (λ now. now ≡ choose (InBrackets.Index integers digits) byte) }
{
    if is_digit(byte) {
        Ok(index_or_none(integers, counted(digits, byte)))
    } else if digits.any {
        counted_on(integers, digits, byte)
    } else {
        Ok(Chosen::Wrong)
    }
}

fn next_index(integers: Many<i64>, byte: u8) -> Chosen
    ensures { result ≡ choose (InBrackets.NextIndex integers) byte }
{
    if byte == b' ' {
        Chosen::Open(InBrackets::NextIndex(integers))
    } else {
        index_or_none(integers, integer_begun(byte))
    }
}

fn bound_or_none(from: Option<i64>, digits: Option<Digits>) -> Chosen
    ensures { result ≡ bound_goes from digits }
{
    match digits {
        Some(digits) => Chosen::Open(InBrackets::To(from, digits)),
        None => Chosen::Wrong,
    }
}

fn behind_colon(from: Option<i64>, byte: u8) -> Chosen
    ensures { result ≡ choose (InBrackets.From from) byte }
{
    if byte == b' ' {
        Chosen::Open(InBrackets::From(from))
    } else if byte == b']' {
        Chosen::Closed(Selector::Slice { from, to: None })
    } else {
        bound_or_none(from, integer_begun(byte))
    }
}

fn in_bound(from: Option<i64>, digits: Digits, byte: u8) -> Chosen
    ensures { result ≡ choose (InBrackets.To from digits) byte }
{
    if is_digit(byte) {
        bound_or_none(from, counted(digits, byte))
    } else if digits.any {
        let to = Some(integer_of(digits));
        over(Selector::Slice { from, to }, byte)
    } else {
        Chosen::Wrong
    }
}

fn behind_question(byte: u8) -> Chosen
    ensures { result ≡ choose InBrackets.Question byte }
{
    if byte == b'(' {
        Chosen::Open(InBrackets::Condition(Checking::Before))
    } else {
        Chosen::Wrong
    }
}

fn in_condition(alloc: Global, condition: Checking, byte: u8) -> Result<Chosen, OutOfMemory>
    ensures { IfOk result (λ now. now ≡ condition_goes (check condition byte)) }
{
    match checked_on(alloc, condition, byte)? {
        Checked::Open(condition) => Ok(Chosen::Open(InBrackets::Condition(condition))),
        Checked::Met(condition) => Ok(Chosen::Open(InBrackets::Whole(Selector::Where(condition)))),
        Checked::Wrong => Ok(Chosen::Wrong),
    }
}

fn begun(alloc: Global, byte: u8, quotation: Option<Quotation>) -> Chosen
    ensures { result ≡ selector_begins byte quotation }
{
    if let Some(quotation) = quotation {
        return Chosen::Open(InBrackets::Quote(Many::new(alloc), quotation));
    }
    if byte == b'*' {
        Chosen::Open(InBrackets::Whole(Selector::All))
    } else if byte == b'?' {
        Chosen::Open(InBrackets::Question)
    } else if byte == b':' {
        Chosen::Open(InBrackets::From(None))
    } else {
        index_or_none(Many::new(alloc), integer_begun(byte))
    }
}

fn before(alloc: Global, byte: u8) -> Chosen
    ensures { result ≡ choose InBrackets.Before byte }
{
    if byte == b' ' {
        Chosen::Open(InBrackets::Before)
    } else {
        begun(alloc, byte, quote_begun(alloc, byte))
    }
}

/// A selector behind one byte more.
pub fn chosen_on(alloc: Global, now: InBrackets, byte: u8) -> Result<Chosen, OutOfMemory>
    ensures { IfOk result (λ made. made ≡ choose now byte) }
{
    match now {
        InBrackets::Before => Ok(before(alloc, byte)),
        InBrackets::Quote(names, quotation) => in_quote(alloc, names, quotation, byte),
        InBrackets::Named(names) => Ok(behind_quote(names, byte)),
        InBrackets::NextName(names) => Ok(behind_comma(alloc, names, byte)),
        InBrackets::Index(integers, digits) => in_index(integers, digits, byte),
        InBrackets::Counted(integers) => Ok(integers_on(integers, byte)),
        InBrackets::NextIndex(integers) => Ok(next_index(integers, byte)),
        InBrackets::From(from) => Ok(behind_colon(from, byte)),
        InBrackets::To(from, digits) => Ok(in_bound(from, digits, byte)),
        InBrackets::Question => Ok(behind_question(byte)),
        InBrackets::Condition(condition) => in_condition(alloc, condition, byte),
        InBrackets::Whole(selector) => Ok(over(selector, byte)),
    }
}
