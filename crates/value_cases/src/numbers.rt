//! Numbers, digits and periods.

use std::alloc::Global;
use zbx_types::{
    Fix, Many, OutOfMemory, Reserved, Text, digit_at, last_six_digits, number_up_to, seconds_up_to,
    total,
};

/// A number's millionths, or `none`.
fn millionths(alloc: Global, number: Option<Fix>) -> Result<String, OutOfMemory> {
    Ok(match number {
        Some(number) => format!(in alloc; "{}", number.raw())?,
        None => String::from_str(alloc, "none")?,
    })
}

/// A number as it is written behind a text, or `none`.
fn written(alloc: Global, front: &str, number: Option<Fix>) -> Result<String, OutOfMemory> {
    match number {
        Some(number) => {
            let mut out = Text::of(alloc, front)?;
            number.write(&mut out)?;
            Ok(out.into_string())
        }
        None => Ok(String::from_str(alloc, "none")?),
    }
}

/// A whole number, or `none`.
fn whole(alloc: Global, number: Option<u64>) -> Result<String, OutOfMemory> {
    Ok(match number {
        Some(number) => format!(in alloc; "{number}")?,
        None => String::from_str(alloc, "none")?,
    })
}

/// The two parts of an input between which a blank stands, the second empty where none does.
fn both(input: &str) -> (&str, &str) {
    input.split_once(' ').unwrap_or((input, ""))
}

/// What becomes of two numbers by an operator.
fn calculated(left: Fix, op: &str, right: Fix) -> Option<Fix> {
    match op {
        "+" => left.add(right),
        "-" => left.sub(right),
        "*" => left.mul(right),
        _ => left.div(right),
    }
}

/// What becomes of a text of two numbers and an operator between them.
fn calculation(input: &str) -> Option<Fix> {
    let (left, rest) = both(input);
    let (op, right) = both(rest);
    calculated(
        Fix::read(left.as_bytes())?,
        op,
        Fix::read(right.as_bytes())?,
    )
}

/// The numbers from 1 to this one, each put into a list that has room for it.
fn counted(alloc: Global, count: u32) -> Result<Many<Fix>, OutOfMemory> {
    let mut numbers = Reserved::new(alloc);
    for n in 0..count {
        numbers.reserve(1)?;
        if let Some(number) = Fix::of_raw(i128::from(n) + 1) {
            numbers.push(number);
        }
    }
    Ok(numbers.into_many())
}

/// The total of these numbers, in millionths.
fn totalled(alloc: Global, count: u32) -> Result<String, OutOfMemory> {
    let numbers = counted(alloc, count)?;
    let sum = total(numbers.as_slice())?;
    Ok(format!(in alloc; "{sum}")?)
}

/// The six digits at the end of a number.
fn six_digits(alloc: Global, number: u64) -> Result<String, OutOfMemory> {
    let mut out = String::new(alloc);
    for digit in last_six_digits(number) {
        out.push(char::from(digit))?;
    }
    Ok(out)
}

/// The digit of a number at a power of ten.
fn digit(alloc: Global, input: &str) -> Result<String, OutOfMemory> {
    let (number, power) = both(input);
    let power: u64 = power.parse().unwrap_or(1);
    if power == 0 {
        return Ok(String::from_str(alloc, "out of range")?);
    }
    let digit = char::from(digit_at(number.parse().unwrap_or(0), power));
    Ok(format!(in alloc; "{digit}")?)
}

/// The number up to the first one that the second part writes, in digits.
fn bounded(alloc: Global, input: &str) -> Result<String, OutOfMemory> {
    let (most, text) = both(input);
    whole(
        alloc,
        number_up_to(most.parse().unwrap_or(0), text.as_bytes()),
    )
}

/// The seconds up to the first number that the second part writes, as a period.
fn period(alloc: Global, input: &str) -> Result<String, OutOfMemory> {
    let (most, text) = both(input);
    let seconds = seconds_up_to(most.parse().unwrap_or(0), text.as_bytes());
    whole(alloc, seconds.map(|seconds| u64::from(seconds)))
}

/// What a case of numbers that are read or written comes to.
fn of_numbers(alloc: Global, kind: &str, input: &str) -> Result<Option<String>, OutOfMemory> {
    let number = Fix::read(input.as_bytes());
    match kind {
        "read" => Ok(Some(millionths(alloc, number)?)),
        "read_suffixed" => Ok(Some(millionths(alloc, Fix::read_suffixed(input.as_bytes()))?)),
        "of_raw" => Ok(Some(millionths(alloc, Fix::of_raw(input.parse().unwrap_or(0)))?)),
        "write" => Ok(Some(written(alloc, "x=", number)?)),
        "negate" => Ok(Some(written(alloc, "", number.map(|it| it.neg()))?)),
        "calculate" => Ok(Some(written(alloc, "", calculation(input))?)),
        _ => Ok(None),
    }
}

/// What a case of numbers comes to.
pub(crate) fn answer(
    alloc: Global,
    kind: &str,
    input: &str,
) -> Result<Option<String>, OutOfMemory> {
    match kind {
        "total" => Ok(Some(totalled(alloc, input.parse().unwrap_or(0))?)),
        "last_six_digits" => Ok(Some(six_digits(alloc, input.parse().unwrap_or(0))?)),
        "digit_at" => Ok(Some(digit(alloc, input)?)),
        "number_up_to" => Ok(Some(bounded(alloc, input)?)),
        "seconds_up_to" => Ok(Some(period(alloc, input)?)),
        _ => of_numbers(alloc, kind, input),
    }
}
