//! Steps that make decimal numbers of words and of other digits (the Zabbix 6.0 manual, "Preprocessing details").

ghost use Rattle.std.specs.Prelude.{◌≡◌, ◌≤◌, ◌^◌, ◌-◌, IfOk, SomeIff};
ghost use Rattle.std.specs.Char.{digit_value};
ghost use Rattle.std.specs.Str.{str_eq_ignore_ascii_case};
ghost use Rattle.std.specs.Str.Parse.{digits_value};
ghost use Rattle.prep_steps.specs.Digits.{true_words, false_words, is_one_of, truth, truth_of, bool_to_decimal, all_of_radix};
ghost use Rattle.prep_steps.specs.Digits.{number_in_radix, in_decimal, octal_to_decimal, without_hex_sign, hex_to_decimal};

use crate::numbering::no_number;
use crate::outcome::{Outcome, fail, pass};
use std::alloc::Global;
use zbx_types::{Fix, OutOfMemory, Text, unpadded};

/// The greatest number of 64 bits.
const MOST: u128 = 18_446_744_073_709_551_615;

/// Whether two texts are one but for the case of their ASCII letters.
fn same(word: &[u8], text: &[u8]) -> bool
    ensures { result ≡ str_eq_ignore_ascii_case word.now text.now }
{
    word.eq_ignore_ascii_case(text)
}

fn is_true_word(text: &[u8]) -> bool
    ensures { result ≡ is_one_of true_words text.now }
{
    same(b"true", text)
        || same(b"t", text)
        || same(b"yes", text)
        || same(b"y", text)
        || same(b"on", text)
        || same(b"up", text)
        || same(b"running", text)
        || same(b"enabled", text)
        || same(b"available", text)
        || same(b"ok", text)
        || same(b"master", text)
}

fn is_false_word(text: &[u8]) -> bool
    ensures { result ≡ is_one_of false_words text.now }
{
    same(b"false", text)
        || same(b"f", text)
        || same(b"no", text)
        || same(b"n", text)
        || same(b"off", text)
        || same(b"down", text)
        || same(b"unused", text)
        || same(b"disabled", text)
        || same(b"unavailable", text)
        || same(b"err", text)
        || same(b"slave", text)
}

fn truth(alloc: Global, holds: bool) -> Result<Outcome, OutOfMemory>
    ensures { IfOk result (λ outcome. outcome ≡ truth holds) }
{
    pass(alloc, Text::of(alloc, if holds { "1" } else { "0" })?)
}

fn truth_of(alloc: Global, number: Option<Fix>, text: &[u8]) -> Result<Outcome, OutOfMemory>
    ensures { IfOk result (λ outcome. outcome ≡ truth_of number text.now) }
{
    if let Some(number) = number {
        return truth(alloc, number.raw() != 0);
    }
    if is_true_word(text) {
        return truth(alloc, true);
    }
    if is_false_word(text) {
        return truth(alloc, false);
    }
    no_number(alloc)
}

/// 1 or 0 for a number or a word of truth.
#[tactic(auto, unfolding(crate::specs::Digits::bool_to_decimal))]
pub(crate) fn bool_to_decimal(alloc: Global, value: &Text) -> Result<Outcome, OutOfMemory>
    ensures { IfOk result (λ outcome. outcome ≡ bool_to_decimal value.now) }
{
    let text = unpadded(value.as_bytes());
    truth_of(alloc, Fix::read(text), text)
}

/// The value of a digit up to `f`, or 36 where the byte is none.
fn digit_value(c: u8) -> u8
    ensures { result ≡ digit_value c }
{
    match c {
        b'0'..=b'9' => c - b'0',
        b'A'..=b'Z' => c - b'A' + 10,
        b'a'..=b'z' => c - b'a' + 10,
        _ => 36,
    }
}

/// Whether a text has no byte but digits of a radix.
fn all_of_radix(radix: u8, text: &[u8]) -> bool
    ensures { result ≡ all_of_radix radix text.now }
{
    text.iter().all(|c| digit_value(*c) < radix)
}

/// The number that digits of a radix write, where it has 64 bits.
fn value_of(radix: u8, digits: &[u8]) -> Option<u64>
    requires { 1 ≤ radix × (radix ≤ 36) }
    ensures { SomeIff result (digits_value radix digits.now ≤ 2 ^ 64 - 1) (digits_value radix digits.now) }
{
    let mut number = 0;
    for c in digits {
        number = number * u128::from(radix) + u128::from(digit_value(*c));
        if number > MOST {
            return None;
        }
    }
    Some(number as u64)
}

#[tactic(auto, unfolding(crate::specs::Digits::number_in_radix))]
fn number_in_radix(radix: u8, digits: &[u8]) -> Option<u64>
    requires { 1 ≤ radix × (radix ≤ 36) }
    ensures { result ≡ number_in_radix radix digits.now }
{
    if digits.is_empty() || !all_of_radix(radix, digits) {
        return None;
    }
    value_of(radix, digits)
}

fn in_decimal(alloc: Global, number: Option<u64>) -> Result<Outcome, OutOfMemory>
    ensures { IfOk result (λ outcome. outcome ≡ in_decimal number) }
{
    match number {
        Some(number) => pass(alloc, Text::from(number.to_string(alloc)?)),
        None => fail(alloc, "bad digits"),
    }
}

/// The number of octal digits in decimal.
#[tactic(auto, unfolding(crate::specs::Digits::octal_to_decimal))]
pub(crate) fn octal_to_decimal(alloc: Global, value: &Text) -> Result<Outcome, OutOfMemory>
    ensures { IfOk result (λ outcome. outcome ≡ octal_to_decimal value.now) }
{
    in_decimal(alloc, number_in_radix(8, unpadded(value.as_bytes())))
}

fn without_hex_sign(text: &[u8]) -> &[u8]
    ensures { result.now ≡ without_hex_sign text.now }
{
    match text {
        [b'0', b'x', rest @ ..] => rest,
        _ => text,
    }
}

/// The number of hexadecimal digits in decimal, which may stand behind `0x`.
#[tactic(auto, unfolding(crate::specs::Digits::hex_to_decimal))]
pub(crate) fn hex_to_decimal(alloc: Global, value: &Text) -> Result<Outcome, OutOfMemory>
    ensures { IfOk result (λ outcome. outcome ≡ hex_to_decimal value.now) }
{
    in_decimal(
        alloc,
        number_in_radix(16, without_hex_sign(unpadded(value.as_bytes()))),
    )
}
