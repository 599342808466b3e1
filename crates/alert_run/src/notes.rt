//! The notes of an outbox's lines.

ghost use Rattle.std.specs.Prelude.{◌≡◌, ◌≤◌, ◌+◌, ◌<◌, ◌^◌, ℕ, Ok, Err, length, IfOk, OnOk, codes};
ghost use Rattle.std.specs.List.{list_all};
ghost use Rattle.std.specs.Str.{is_utf8};
ghost use Rattle.alert_run.specs.Notes.{note_of, note_in, line_of, taken, ended, notes_of, begins_message};
ghost use Rattle.alert_run.specs.declared.types.NotesError.TheVariants as error;

use crate::fields::fields_of;
use crate::types::{Note, NotesError};
use std::alloc::Global;
use zbx_types::{Bytes, Many, OutOfMemory, Text};

/// What a line is.
#[derive(Drop)]
enum Line {
    /// No message.
    Other,
    /// A message.
    Message(Note),
    /// It begins as a message and is none.
    Bad,
}

/// Whether bytes are a text in UTF-8.
#[tactic(auto, using(crate::proofs::Texts::is_text_read, crate::proofs::Texts::is_text_refused))]
fn is_text(bytes: &[u8]) -> bool
    ensures { result ≡ is_utf8 bytes.now }
{
    str::from_utf8(bytes).is_ok()
}

/// Whether all fields are texts.
fn are_texts(fields: &[Bytes]) -> bool
    ensures { result ≡ list_all is_utf8 fields.now }
{
    fields.iter().all(|field| is_text(field.as_slice()))
}

/// A copy of bytes that are a text.
fn text_of(alloc: Global, bytes: &Bytes) -> Result<Text, OutOfMemory>
    ensures { IfOk result (λ made. made ≡ bytes.now) }
{
    match Text::from_utf8(alloc, bytes.as_slice()) {
        Ok(Some(made)) => Ok(made),
        _ => Err(OutOfMemory),
    }
}

/// The note of seven fields.
fn note_of(alloc: Global, fields: &[Bytes]) -> Result<Option<Note>, OutOfMemory>
    ensures { IfOk result (λ note. note ≡ note_of fields.now) }
{
    if fields.len() != 7 || !are_texts(fields) {
        return Ok(None);
    }
    let recipient = text_of(alloc, &fields[4])?;
    let subject = text_of(alloc, &fields[5])?;
    let body = text_of(alloc, &fields[6])?;
    Ok(Some(Note {
        recipient,
        subject,
        body,
    }))
}

/// The note of a line.
fn note_in(alloc: Global, line: &[u8]) -> Result<Option<Note>, OutOfMemory>
    ensures { IfOk result (λ note. note ≡ note_in line.now) }
{
    match fields_of(alloc, line)? {
        Some(fields) => note_of(alloc, fields.as_slice()),
        None => Ok(None),
    }
}

/// Whether a line begins as a message.
fn begins_message(line: &[u8]) -> bool
    ensures { result ≡ begins_message line.now }
{
    line.starts_with(b"M|")
}

/// What a line is.
fn line_of(alloc: Global, line: &[u8]) -> Result<Line, OutOfMemory>
    ensures { IfOk result (λ made. made ≡ line_of line.now) }
{
    if !begins_message(line) {
        return Ok(Line::Other);
    }
    match note_in(alloc, line)? {
        Some(note) => Ok(Line::Message(note)),
        None => Ok(Line::Bad),
    }
}

/// An outbox on its way into notes.
#[derive(Drop)]
struct Lines {
    notes: Many<Note>,
    line: Bytes,
    at: u64,
}

impl Lines {
    /// Takes one byte more.
    fn take(&mut self, alloc: Global, byte: u8) -> Result<(), NotesError>
        requires { self.old.at + length self.old.line + 1 < 2 ^ 64 }
        ensures ok { OnOk result (taken self.old byte ≡ Ok self.new) }
        ensures bad { (at : ℕ) → result ≡ Err (error.BadLine at) → taken self.old byte ≡ Err at }
    {
        if byte == b'\n' {
            return self.end_line(alloc);
        }
        self.line.extend(&[byte])?;
        Ok(())
    }

    /// Ends a line.
    fn end_line(&mut self, alloc: Global) -> Result<(), NotesError>
        requires { self.old.at + length self.old.line + 1 < 2 ^ 64 }
        ensures ok { OnOk result (ended self.old ≡ Ok self.new) }
        ensures bad { (at : ℕ) → result ≡ Err (error.BadLine at) → ended self.old ≡ Err at }
    {
        match line_of(alloc, self.line.as_slice())? {
            Line::Other => {}
            Line::Message(note) => self.notes.push(note)?,
            Line::Bad => return Err(NotesError::BadLine { at: self.at }),
        }
        self.at += self.line.len() as u64 + 1;
        self.line.truncate(0);
        Ok(())
    }
}

/// The notes of an outbox: those of its lines that begin with `M|`, in order. What stands behind the last line feed is no
/// line.
///
/// `BadLine` comes exactly where such a line isn't that of a message by the number of its fields, by its escapes or by its
/// UTF-8, and names the first one.
#[tactic(auto, using(crate::proofs::Splitting::notes_step, crate::proofs::Splitting::notes_bad, crate::proofs::Splitting::notes_end, crate::proofs::Splitting::grows))]
pub fn messages(alloc: Global, bytes: &[u8]) -> Result<Many<Note>, NotesError>
    ensures ok { IfOk result (λ notes. notes_of bytes.now ≡ Ok notes) }
    ensures few { IfOk result (λ notes. length notes ≤ length bytes.now) }
    ensures bad { (at : ℕ) → result ≡ Err (error.BadLine at) → notes_of bytes.now ≡ Err at }
{
    let mut lines = Lines {
        notes: Many::new(alloc),
        line: Bytes::new(alloc),
        at: 0,
    };
    for byte in bytes {
        lines.take(alloc, *byte)?;
    }
    Ok(lines.notes)
}
