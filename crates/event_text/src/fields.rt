//! Fields of lines.

ghost use Rattle.std.specs.Prelude.{◌≡◌, ◌++◌, ◌≤◌, OnOk, drop, length, IfOk};
ghost use Rattle.std.specs.Fmt.{decimal};
ghost use Rattle.std.specs.List.{prefix_len};
ghost use Rattle.event_text.specs.Lines.{seconds_text, moment_text, event_text_of, escaped_byte, escaped, is_plain, barred};

use crate::page::Page;
use zbx_types::{EventId, Moment, OutOfMemory, Text, digit_at, last_six_digits};

fn put_seconds(sec: u32, ns: u32, out: &mut Page) -> Result<(), OutOfMemory>
    ensures ok { OnOk result (out.new.back ≡ out.old.back ++ seconds_text sec ns) }
    ensures front { out.new.front ≡ out.old.front }
{
    let ns = u64::from(ns);
    out.push_decimal(u64::from(sec))?;
    out.extend(b".")?;
    out.extend(&[
        digit_at(ns, 100_000_000),
        digit_at(ns, 10_000_000),
        digit_at(ns, 1_000_000),
    ])?;
    out.extend(&last_six_digits(ns))
}

fn put_moment(moment: Moment, out: &mut Page) -> Result<(), OutOfMemory>
    ensures ok { OnOk result (out.new.back ≡ out.old.back ++ moment_text moment) }
    ensures front { out.new.front ≡ out.old.front }
{
    put_seconds(moment.sec, moment.ns, out)
}

fn put_event(event: EventId, out: &mut Page) -> Result<(), OutOfMemory>
    ensures ok { OnOk result (out.new.back ≡ out.old.back ++ event_text_of event) }
    ensures front { out.new.front ≡ out.old.front }
{
    out.push_decimal(event.number)?;
    out.extend(b"-")?;
    out.push_decimal(u64::from(event.trigger))
}

fn put_escaped_byte(c: u8, out: &mut Page) -> Result<(), OutOfMemory>
    ensures ok { OnOk result (out.new.back ≡ out.old.back ++ escaped_byte c) }
    ensures front { out.new.front ≡ out.old.front }
{
    match c {
        b'\\' => out.extend(b"\\\\"),
        b'|' => out.extend(b"\\|"),
        b'\n' => out.extend(b"\\n"),
        b'\r' => out.extend(b"\\r"),
        c => out.extend(&[c]),
    }
}

/// How many bytes at the front of a text stay as they are.
#[tactic(auto, using(crate::proofs::LineLemmas::plain_within))]
fn plain_length(text: &[u8]) -> usize
    ensures value { result ≡ prefix_len is_plain text.now }
    ensures within { result ≤ length text.now }
{
    text.iter()
        .take_while(|c| !matches!(**c, b'\\' | b'|' | b'\n' | b'\r'))
        .count()
}

/// The bytes at the front that stay as they are, and what stands behind them.
#[tactic(auto, using(crate::proofs::LineLemmas::plain_stays))]
fn split_plain(text: &[u8]) -> (&[u8], &[u8])
    ensures stays { escaped text.now ≡ result.0.now ++ escaped result.1.now }
    ensures shorter { length result.1.now ≤ length text.now }
{
    text.split_at(plain_length(text))
}

/// Puts the first byte of a text, and answers the rest.
fn put_first<'a>(text: &'a [u8], out: &mut Page) -> Result<&'a [u8], OutOfMemory>
    ensures ok { IfOk result (λ rest. out.new.back ++ escaped rest.now ≡ out.old.back ++ escaped text.now) }
    ensures shorter { IfOk result (λ rest. rest.now ≡ drop 1 text.now) }
    ensures front { out.new.front ≡ out.old.front }
{
    match text {
        [] => Ok(text),
        [first, rest @ ..] => {
            put_escaped_byte(*first, out)?;
            Ok(rest)
        }
    }
}

fn put_escaped(text: &[u8], out: &mut Page) -> Result<(), OutOfMemory>
    ensures ok { OnOk result (out.new.back ≡ out.old.back ++ escaped text.now) }
    ensures front { out.new.front ≡ out.old.front }
{
    let mut rest = text;
    while !rest.is_empty() {
        let (plain, behind) = split_plain(rest);
        out.extend(plain)?;
        rest = put_first(behind, out)?;
    }
    Ok(())
}

/// Adds a bar and a number.
pub(crate) fn add_number(n: u64, out: &mut Page) -> Result<(), OutOfMemory>
    ensures ok { OnOk result (out.new.back ≡ out.old.back ++ barred (decimal n)) }
    ensures front { out.new.front ≡ out.old.front }
{
    out.extend(b"|")?;
    out.push_decimal(n)
}

/// Adds a bar and a moment.
pub(crate) fn add_moment(moment: Moment, out: &mut Page) -> Result<(), OutOfMemory>
    ensures ok { OnOk result (out.new.back ≡ out.old.back ++ barred (moment_text moment)) }
    ensures front { out.new.front ≡ out.old.front }
{
    out.extend(b"|")?;
    put_moment(moment, out)
}

/// Adds a bar and an event.
pub(crate) fn add_event(event: EventId, out: &mut Page) -> Result<(), OutOfMemory>
    ensures ok { OnOk result (out.new.back ≡ out.old.back ++ barred (event_text_of event)) }
    ensures front { out.new.front ≡ out.old.front }
{
    out.extend(b"|")?;
    put_event(event, out)
}

/// Adds a bar and a text.
pub(crate) fn add_text(text: &Text, out: &mut Page) -> Result<(), OutOfMemory>
    ensures ok { OnOk result (out.new.back ≡ out.old.back ++ barred (escaped text.now)) }
    ensures front { out.new.front ≡ out.old.front }
{
    out.extend(b"|")?;
    put_escaped(text.as_bytes(), out)
}
