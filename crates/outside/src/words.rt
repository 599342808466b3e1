//! The words of a script's lines: parts, numbers, moments and hexadecimal texts.

ghost use Rattle.std.specs.Prelude.{◌≡◌, ◌<◌, ◌==◌, length, IfSome, IfOk};
ghost use Rattle.std.specs.List.{position};
ghost use Rattle.std.specs.Option.{option_map};
ghost use Rattle.outside.specs.Words.{parted, nanos_of, moment_of, connection_of, nibble_of, byte_of, bytes_of_hex};

use std::alloc::Global;
use zbx_types::{Bytes, Moment, OutOfMemory, number_up_to};

const NANOS: u64 = 999_999_999;

const SECONDS: u64 = 4_294_967_295;

fn place_of(text: &[u8], byte: u8) -> Option<usize>
    ensures value { result ≡ position (λ b. b == byte) text.now }
    ensures within { IfSome result (λ place. place < length text.now) }
{
    text.iter().position(|b| *b == byte)
}

/// What stands before and behind the first such byte.
#[tactic(auto, unfolding(crate::specs::Words::parted))]
pub(crate) fn part(text: &[u8], byte: u8) -> Option<(&[u8], &[u8])>
    ensures { option_map (λ parts. (parts.0.now, parts.1.now)) result ≡ parted byte text.now }
{
    let place = place_of(text, byte)?;
    Some((&text[..place], &text[place + 1..]))
}

/// The number of a connection.
pub(crate) fn connection(text: &[u8]) -> Option<u64>
    ensures { result ≡ connection_of text.now }
{
    number_up_to(u64::MAX, text)
}

/// A moment: seconds, a point and nine digits.
#[tactic(auto, unfolding(crate::specs::Words::moment_of, crate::specs::Words::nanos_of))]
pub(crate) fn moment(text: &[u8]) -> Option<Moment>
    ensures { result ≡ moment_of text.now }
{
    let (sec, ns) = part(text, b'.')?;
    let sec = number_up_to(SECONDS, sec)?;
    if ns.len() != 9 {
        return None;
    }
    let ns = number_up_to(NANOS, ns)?;
    Some(Moment {
        sec: sec as u32,
        ns: ns as u32,
    })
}

fn nibble(c: u8) -> Option<u8>
    ensures value { result ≡ nibble_of c }
    ensures within { IfSome result (λ n. n < 16) }
{
    match c {
        b'0'..=b'9' => Some(c - b'0'),
        b'a'..=b'f' => Some(c - b'a' + 10),
        _ => None,
    }
}

fn byte(high: u8, low: u8) -> Option<u8>
    ensures { result ≡ byte_of high low }
{
    let high = nibble(high)?;
    let low = nibble(low)?;
    Some(high * 16 + low)
}

/// The bytes that pairs of lower-case hexadecimal digits write.
#[tactic(auto, unfolding(crate::specs::Words::bytes_of_hex))]
pub(crate) fn hex_bytes(alloc: Global, hex: &[u8]) -> Result<Option<Bytes>, OutOfMemory>
    ensures { IfOk result (λ bytes. bytes ≡ bytes_of_hex hex.now) }
{
    let mut bytes = Vec::with_capacity(alloc, hex.len() / 2)?;
    let mut left = hex;
    while let [high, low, rest @ ..] = left {
        let Some(byte) = byte(*high, *low) else {
            return Ok(None);
        };
        bytes.push(byte)?;
        left = rest;
    }
    if left.is_empty() {
        Ok(Some(Bytes::from(bytes)))
    } else {
        Ok(None)
    }
}
