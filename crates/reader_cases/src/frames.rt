//! Frames in pieces, faults at the first byte that shows them, and frames as they are written.

use case_rows::{bytes_of, shown};
use std::alloc::Global;
use zbx_types::{Bytes, LONGEST_DATA, OutOfMemory};
use zbxd_frame::{Fault, Fed, Feed, write};

fn fault_word(fault: Fault) -> &'static str {
    match fault {
        Fault::Magic => "magic",
        Fault::Flags => "flags",
        Fault::Length => "length",
    }
}

/// A body, and how many bytes stand behind its frame.
fn with_rest(alloc: Global, body: &[u8], rest: u64) -> Result<String, OutOfMemory> {
    let body = shown(alloc, body)?;
    Ok(format!(in alloc; "{body} and {rest}")?)
}

/// What a feed answers: `more`, a frame's body with the bytes behind it, or the fault.
fn told(alloc: Global, fed: &Fed) -> Result<String, OutOfMemory> {
    match fed {
        Fed::More => Ok(String::from_str(alloc, "more")?),
        Fed::Frame { body, rest } => with_rest(alloc, body.as_slice(), *rest),
        Fed::Refused(fault) => Ok(String::from_str(alloc, fault_word(*fault))?),
    }
}

/// What a feed answers to a piece.
fn pushed(alloc: Global, feed: &mut Feed, piece: &[u8]) -> Result<String, OutOfMemory> {
    let fed = feed.push(alloc, piece)?;
    let made = told(alloc, &fed);
    drop(fed);
    made
}

/// What a feed that hands its frame over answers to a piece.
fn handed(alloc: Global, feed: &mut Feed, piece: &[u8]) -> Result<String, OutOfMemory> {
    let fed = feed.hand_over(alloc, piece)?;
    let made = told(alloc, &fed);
    drop(fed);
    made
}

/// What a feed answers to a piece of a row.
fn came(
    alloc: Global,
    feed: &mut Feed,
    piece: &str,
    is_handed: bool,
) -> Result<String, OutOfMemory> {
    let bytes = bytes_of(alloc, piece)?;
    if is_handed {
        handed(alloc, feed, bytes.as_slice())
    } else {
        pushed(alloc, feed, bytes.as_slice())
    }
}

/// Adds what a feed answers to a piece of a row.
fn put_answer(
    alloc: Global,
    out: &mut String,
    feed: &mut Feed,
    piece: &str,
    is_handed: bool,
) -> Result<(), OutOfMemory> {
    let came = came(alloc, feed, piece, is_handed)?;
    if !out.is_empty() {
        out.push('|')?;
    }
    out.push_str(came.as_str())?;
    Ok(())
}

/// What a feed answers to each piece, with `|` between, as between the pieces.
fn answers(alloc: Global, pieces: &str, is_handed: bool) -> Result<String, OutOfMemory> {
    let mut feed = Feed::new(alloc);
    let mut out = String::new(alloc);
    for piece in pieces.split('|') {
        put_answer(alloc, &mut out, &mut feed, piece, is_handed)?;
    }
    Ok(out)
}

/// The frame of a body.
fn framed(alloc: Global, body: &str) -> Result<String, OutOfMemory> {
    if body.len() > LONGEST_DATA as usize {
        return Ok(String::from_str(alloc, "out of range")?);
    }
    let mut out = Bytes::new(alloc);
    write(body.as_bytes(), &mut out)?;
    shown(alloc, out.as_slice())
}

/// What a case of frames comes to.
pub(crate) fn answer(
    alloc: Global,
    kind: &str,
    input: &str,
) -> Result<Option<String>, OutOfMemory> {
    match kind {
        "pieces of a frame" => Ok(Some(answers(alloc, input, false)?)),
        "frame handed over" => Ok(Some(answers(alloc, input, true)?)),
        "frame" => Ok(Some(framed(alloc, input)?)),
        _ => Ok(None),
    }
}
