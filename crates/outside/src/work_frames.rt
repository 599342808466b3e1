//! The frames of a workload: values that are drawn from a number, as requests in JSON.

ghost use Rattle.std.specs.Prelude.{◌≡◌, ◌≤◌, ◌++◌, OnOk, IfOk};
ghost use Rattle.std.specs.Fmt.{decimal};
ghost use Rattle.zbx_types.specs.Frames.{frame};
ghost use Rattle.outside.specs.Workload.{drawn, draw, value_text, behind_value, behind_values, listed, comma, request_text};

use std::alloc::Global;
use zbx_types::{Bytes, OutOfMemory, frame_header};

/// The state of the draws behind one more.
#[tactic(auto, unfolding(crate::specs::Workload::drawn))]
fn drawn(state: u64) -> u64
    ensures { result ≡ drawn state }
{
    let next = u128::from(state) * 6_364_136_223_846_793_005 + 1_442_695_040_888_963_407;
    (next % 18_446_744_073_709_551_616) as u64
}

/// What is drawn where the state is this one.
#[tactic(auto, unfolding(crate::specs::Workload::draw))]
fn draw(state: u64) -> u64
    ensures { result ≡ draw state }
{
    state / 8_589_934_592
}

/// Adds a piece and a number behind it.
#[tactic(auto, using(std::proofs::lemmas::List::append_assoc))]
fn put_numbered(text: &mut Bytes, piece: &[u8], number: u64) -> Result<(), OutOfMemory>
    ensures { OnOk result (text.new ≡ text.old ++ (piece.now ++ decimal number)) }
{
    text.extend(piece)?;
    text.push_decimal(number)
}

/// Adds the value that the next three draws give, and answers the state behind them.
fn put_value(text: &mut Bytes, state: u64) -> Result<u64, OutOfMemory>
    ensures text { OnOk result (text.new ≡ text.old ++ value_text state) }
    ensures behind { IfOk result (λ next. next ≡ behind_value state) }
{
    let host = drawn(state);
    let key = drawn(host);
    let value = drawn(key);
    put_numbered(text, b"{\"host\":\"h", draw(host) % 50)?;
    put_numbered(text, b"\",\"key\":\"k", draw(key) % 10)?;
    put_numbered(text, b"\",\"value\":\"", draw(value) % 100)?;
    text.extend(b"\"}")?;
    Ok(value)
}

/// Adds a comma where more values follow.
fn put_comma(text: &mut Bytes, more: u64) -> Result<(), OutOfMemory>
    ensures { OnOk result (text.new ≡ text.old ++ comma more) }
{
    if more > 0 {
        text.extend(b",")?;
    }
    Ok(())
}

/// Adds the next values, so many as `count` says, and answers the state behind them.
fn put_values(text: &mut Bytes, state: u64, count: u64) -> Result<u64, OutOfMemory>
    ensures text { OnOk result (text.new ≡ text.old ++ listed value_text behind_value state count) }
    ensures behind { IfOk result (λ next. next ≡ behind_values state count) }
{
    let mut next = state;
    for done in 0..count {
        next = put_value(text, next)?;
        put_comma(text, count - 1 - done)?;
    }
    Ok(next)
}

/// The request with the next values, and the state behind them.
#[tactic(auto, using(std::proofs::lemmas::List::append_assoc))]
fn request(alloc: Global, state: u64, count: u64) -> Result<(Bytes, u64), OutOfMemory>
    ensures text { IfOk result (λ made. made.0 ≡ request_text state count) }
    ensures behind { IfOk result (λ made. made.1 ≡ behind_values state count) }
{
    let mut text = Bytes::new(alloc);
    text.extend(b"{\"request\":\"sender data\",\"data\":[")?;
    let next = put_values(&mut text, state, count)?;
    text.extend(b"]}")?;
    Ok((text, next))
}

/// The frame of the request with the next values, and the state behind them.
#[tactic(auto, using(crate::proofs::WorkLemmas::request_short))]
pub(crate) fn frame_of(alloc: Global, state: u64, count: u64) -> Result<(Bytes, u64), OutOfMemory>
    requires { count ≤ 250 }
    ensures frame { IfOk result (λ made. made.0 ≡ frame (request_text state count)) }
    ensures behind { IfOk result (λ made. made.1 ≡ behind_values state count) }
{
    let (text, next) = request(alloc, state, count)?;
    let mut bytes = Bytes::new(alloc);
    bytes.extend_both(&frame_header(text.len() as u32), text.as_slice())?;
    Ok((bytes, next))
}
