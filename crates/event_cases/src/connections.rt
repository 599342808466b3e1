//! Connections, and the first frame of each.

use crate::parts::{add_word, number, split};
use case_rows::bytes_of;
use outside::WireEvent;
use std::alloc::Global;
use wire_core::{Table, Turn};
use zbx_types::{Moment, OutOfMemory};

fn at(sec: u32) -> Moment {
    Moment { sec, ns: 0 }
}

/// An event of a connection; where it is of none, that the wire is closed.
fn event(alloc: Global, kind: &str, conn: u64, text: &str) -> Result<WireEvent, OutOfMemory> {
    match kind {
        "open" => Ok(WireEvent::Opened { conn, at: at(0) }),
        "piece" => Ok(WireEvent::Piece {
            conn,
            bytes: bytes_of(alloc, text)?,
            at: at(0),
        }),
        "end" => Ok(WireEvent::Ended { conn, at: at(0) }),
        "broke" => Ok(WireEvent::Broke { conn, at: at(0) }),
        "quiet" => Ok(WireEvent::Quiet { at: at(0) }),
        _ => Ok(WireEvent::Closed { at: at(0) }),
    }
}

/// Adds `whole` with the connection, the body and the second since which the connection was open.
fn add_whole(
    alloc: Global,
    made: &mut String,
    conn: u64,
    body: &[u8],
    since: Moment,
) -> Result<(), OutOfMemory> {
    let text = str::from_utf8(body).unwrap_or("");
    let word = format!(in alloc; "whole:{conn}:{text}:{}", since.sec)?;
    add_word(made, word.as_str())
}

/// Adds what is to be done: `-`, `shut:CONNECTION`, or the whole frame.
fn add_turn(alloc: Global, made: &mut String, turn: &Turn) -> Result<(), OutOfMemory> {
    match turn {
        Turn::Nothing => add_word(made, "-"),
        Turn::Shut { conn } => {
            let word = format!(in alloc; "shut:{conn}")?;
            add_word(made, word.as_str())
        }
        Turn::Whole { conn, body, since } => {
            add_whole(alloc, made, *conn, body.as_slice(), *since)
        }
    }
}

/// A connection opens at a second. Adds what it comes to, if it comes to something.
fn open(
    alloc: Global,
    table: &mut Table,
    conn: u64,
    sec: u32,
    made: &mut String,
) -> Result<(), OutOfMemory> {
    let opened = WireEvent::Opened { conn, at: at(0) };
    let turn = table.on(alloc, &opened, at(sec));
    drop(opened);
    match turn? {
        Turn::Nothing => Ok(()),
        turn => {
            let added = add_turn(alloc, made, &turn);
            drop(turn);
            added
        }
    }
}

/// So many connections, numbered from 0 on, open at a second. Adds each that comes to something.
fn fill(
    alloc: Global,
    table: &mut Table,
    count: u32,
    sec: u32,
    made: &mut String,
) -> Result<(), OutOfMemory> {
    for conn in 0..count {
        open(alloc, table, conn as u64, sec, made)?;
    }
    Ok(())
}

/// Takes an event at a second, as `open 7 5` or `end 7 8`, or a piece at second 90, as `piece 7 ab`.
fn take(
    alloc: Global,
    table: &mut Table,
    words: &str,
    made: &mut String,
) -> Result<(), OutOfMemory> {
    let (kind, rest) = split(words, ' ');
    let (conn, text) = split(rest, ' ');
    let sec = if kind == "piece" { 90 } else { number(text) };
    if kind == "fill" {
        return fill(alloc, table, number(conn), sec, made);
    }
    let event = event(alloc, kind, number(conn) as u64, text)?;
    let turn = table.on(alloc, &event, at(sec));
    drop(event);
    let turn = turn?;
    let added = add_turn(alloc, made, &turn);
    drop(turn);
    added
}

/// Adds what events come to, one behind the other.
fn take_all(
    alloc: Global,
    table: &mut Table,
    input: &str,
    made: &mut String,
) -> Result<(), OutOfMemory> {
    for words in input.split(',') {
        take(alloc, table, words, made)?;
    }
    Ok(())
}

/// What events come to in a table without connections.
pub(crate) fn turns(alloc: Global, input: &str) -> Result<String, OutOfMemory> {
    let mut table = Table::new(alloc);
    let mut made = String::new(alloc);
    let taken = take_all(alloc, &mut table, input, &mut made);
    drop(table);
    taken.and(Ok(made))
}
