//! Replies in frames.

ghost use Rattle.std.specs.Prelude.{◌≡◌, ◌≤◌, ◌++◌, ◌+◌, length, IfOk, OnOk};
ghost use Rattle.std.specs.Fmt.{decimal};
ghost use Rattle.zbx_types.specs.Frames.{frame, longest_data};
ghost use Rattle.sender_json.specs.Replies.{seconds_text, counts_text, reply_text, refusal_text};

use crate::refused::Refusal;
use std::alloc::Global;
use zbx_types::{Bytes, OutOfMemory, last_six_digits};

fn put_number(alloc: Global, out: &mut Bytes, n: u128) -> Result<(), OutOfMemory>
    ensures { OnOk result (out.new ≡ out.old ++ decimal n) }
{
    out.extend(n.to_string(alloc)?.as_bytes())
}

fn put_seconds(alloc: Global, out: &mut Bytes, spent: u64) -> Result<(), OutOfMemory>
    ensures { OnOk result (out.new ≡ out.old ++ seconds_text spent) }
{
    put_number(alloc, out, u128::from(spent / 1_000_000))?;
    out.extend(b".")?;
    out.extend(&last_six_digits(spent % 1_000_000))
}

/// The reply as far as its counts.
fn with_counts(alloc: Global, processed: u64, failed: u64) -> Result<Bytes, OutOfMemory>
    ensures { IfOk result (λ body. body ≡ counts_text processed failed) }
{
    let mut body = Bytes::of(alloc, b"{\"response\":\"success\",\"info\":\"processed: ")?;
    put_number(alloc, &mut body, u128::from(processed))?;
    body.extend(b"; failed: ")?;
    put_number(alloc, &mut body, u128::from(failed))?;
    body.extend(b"; total: ")?;
    put_number(alloc, &mut body, u128::from(processed) + u128::from(failed))?;
    Ok(body)
}

fn reply_body(alloc: Global, processed: u64, failed: u64, spent: u64) -> Result<Bytes, OutOfMemory>
    ensures { IfOk result (λ body. body ≡ reply_text processed failed spent) }
{
    let mut body = with_counts(alloc, processed, failed)?;
    body.extend(b"; seconds spent: ")?;
    put_seconds(alloc, &mut body, spent)?;
    body.extend(b"\"}")?;
    Ok(body)
}

fn framed(alloc: Global, body: &[u8]) -> Result<Bytes, OutOfMemory>
    requires { length body.now ≤ longest_data }
    ensures { IfOk result (λ bytes. bytes ≡ frame body.now) }
{
    let mut bytes = Bytes::new(alloc);
    zbxd_frame::write(body, &mut bytes)?;
    Ok(bytes)
}

/// The reply to values, in a frame: how many were processed, how many failed, and the time spent, in microseconds.
///
/// The text is that of the Zabbix 6.0 manual, section "Zabbix sender protocol"; its total is the sum of both counts.
///
/// # Errors
///
/// `OutOfMemory` where memory was refused.
pub fn reply(alloc: Global, processed: u64, failed: u64, spent: u64) -> Result<Bytes, OutOfMemory>
    ensures { IfOk result (λ bytes. bytes ≡ frame (reply_text processed failed spent)) }
{
    let body = reply_body(alloc, processed, failed, spent)?;
    framed(alloc, body.as_slice())
}

fn refusal_body(refusal: Refusal) -> &'static [u8]
    ensures { result.now ≡ refusal_text refusal }
{
    match refusal {
        Refusal::NotJson => b"{\"response\":\"failed\",\"info\":\"not JSON\"}",
        Refusal::Unsupported => b"{\"response\":\"failed\",\"info\":\"unsupported request\"}",
    }
}

/// The reply to data that brings no values, in a frame. Its text is this project's own.
///
/// # Errors
///
/// `OutOfMemory` where memory was refused.
pub fn refusal(alloc: Global, refusal: Refusal) -> Result<Bytes, OutOfMemory>
    ensures { IfOk result (λ bytes. bytes ≡ frame (refusal_text refusal)) }
{
    framed(alloc, refusal_body(refusal))
}
