//! Whole numbers that are still written, with their millionths: a digit more is one step.

ghost use Rattle.std.specs.Prelude.{◌≡◌, ◌≤◌, ◌++◌, ◌∷◌, [], ◌^◌, true, IfOk, if◌then◌else◌, Some, None};
ghost use Rattle.byte_grammar.specs.Bytes.{is_digit};
ghost use Rattle.expr_parser.specs.Numbers.{IsWritten, is_at_most, millionths};

use crate::figures::longer;
use std::alloc::Global;
use std::marker::Model;
use zbx_types::{Bytes, OutOfMemory};

/// The millionths of the greatest number.
pub(crate) const GREATEST: u128 = 1_000_000_000_000_000_000_000_000_000_000;

/// Digits, at least one, with the millionths that they write.
#[derive(Drop)]
pub(crate) struct WholeNumber {
    text: Bytes,
    number: u128,
}

impl Model for WholeNumber {
    ghost use Rattle.std.specs.Prelude.{List, ℕ, ◌≤◌, ◌^◌};
    ghost use Rattle.expr_parser.specs.Numbers.{IsWritten};

    ghost Value = { List ℕ };

    ghost view = { λ w. w.text };

    ghost invariant = { λ w. IsWritten w.text w.number × (w.number ≤ 10 ^ 30) };
}

fn whole_number(most: u128, text: Bytes, number: u128) -> Option<WholeNumber>
    requires { IsWritten text number }
    ensures { result ≡ (if is_at_most most (millionths text) then Some text else None) }
{
    if number <= GREATEST && number <= most {
        Some(WholeNumber { text, number })
    } else {
        None
    }
}

/// The number of one digit, where it is at most so great.
pub(crate) fn first_digit(
    alloc: Global,
    most: u128,
    byte: u8,
) -> Result<Option<WholeNumber>, OutOfMemory>
    requires { is_digit byte ≡ true }
    ensures { IfOk result (λ made. made ≡ (if is_at_most most (millionths (byte ∷ [])) then Some (byte ∷ []) else None)) }
{
    let text = Bytes::of(alloc, &[byte])?;
    Ok(whole_number(most, text, (byte - b'0') as u128 * 1_000_000))
}

impl WholeNumber {
    /// The number with one digit more, where it is at most so great.
    pub(crate) fn more(self, most: u128, byte: u8) -> Result<Option<WholeNumber>, OutOfMemory>
        requires { is_digit byte ≡ true }
        ensures { IfOk result (λ made. made ≡ (if is_at_most most (millionths (self ++ byte ∷ [])) then Some (self ++ byte ∷ []) else None)) }
    {
        let number = self.number * 10 + (byte - b'0') as u128 * 1_000_000;
        let text = longer(self.text, byte)?;
        Ok(whole_number(most, text, number))
    }

    /// Its millionths.
    pub(crate) fn millionths(&self) -> u128
        ensures { Some result ≡ millionths self.now }
    {
        self.number
    }

    /// Its digits.
    pub(crate) fn text(self) -> Bytes
        ensures { result ≡ self }
    {
        self.text
    }
}
