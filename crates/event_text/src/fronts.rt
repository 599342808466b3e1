//! Texts that are made up to a limit.

ghost use Rattle.std.specs.Prelude.{◌≡◌, ◌<◌, ℕ, List, take, OnOk, is_none, if◌then◌else◌};
ghost use Rattle.std.specs.Fmt.{is_char_start, char_count, take_chars};
ghost use Rattle.std.specs.Str.{IsCharBoundary};
ghost use Rattle.event_text.specs.Cuts.{Keeps, IsOnTheWay, Adds};

use std::alloc::Global;
use std::convert::AsStr;
use zbx_types::{OutOfMemory, Text};

/// How much of a text is kept.
#[derive(Clone, Copy)]
pub(crate) enum Limit {
    /// The whole characters within so many bytes.
    Bytes(usize),
    /// So many characters.
    Characters(usize),
}

/// The front of a text that is made piece by piece, and what is left of its limit: None where something was cut.
#[derive(Drop)]
pub(crate) struct Front {
    made: Text,
    left: Option<Limit>,
}

/// Of a text the whole characters for which there is room in bytes, and how much room is left then.
#[tactic(auto, using(crate::proofs::CutLemmas::bytes_fit))]
fn keep_bytes(left: usize, more: &str) -> (&str, Option<Limit>)
    ensures { Keeps (Limit.Bytes left) more.now result.0.now result.1 }
{
    if more.len() <= left {
        return (more, Some(Limit::Bytes(left - more.len())));
    }
    (&more[..more.floor_char_boundary(left)], None)
}

/// How many characters begin at a byte: 1, or 0 where the byte goes on with one.
fn starts(byte: u8) -> usize
    ensures { result ≡ (if is_char_start byte then 1 else 0) }
{
    if byte < 0x80 || 0xC0 <= byte { 1 } else { 0 }
}

/// How many characters begin in a text.
#[tactic(auto, using(crate::proofs::CutLemmas::count_within))]
fn char_count(text: &[u8]) -> usize
    ensures value { result ≡ char_count text.now }
{
    let mut count = 0;
    for byte in text {
        count += starts(*byte);
    }
    count
}

/// Where the first characters of a text end, so many, or the text where it has no more.
fn end_of_chars(text: &[u8], count: usize) -> usize
    ensures value { take result text.now ≡ take_chars count text.now }
    ensures boundary { IsCharBoundary text.now result }
{
    let mut left = count;
    for index in 0..text.len() {
        let start = starts(text[index]);
        if left < start {
            return index;
        }
        left -= start;
    }
    text.len()
}

/// Of a text the characters for which there is room, and how much room is left then.
#[tactic(auto, using(crate::proofs::CutLemmas::characters_fit, crate::proofs::CutLemmas::characters_cut))]
fn keep_characters(left: usize, more: &str) -> (&str, Option<Limit>)
    ensures { Keeps (Limit.Characters left) more.now result.0.now result.1 }
{
    let count = char_count(more.as_bytes());
    if count <= left {
        return (more, Some(Limit::Characters(left - count)));
    }
    (&more[..end_of_chars(more.as_bytes(), left)], None)
}

/// Of a text that for which there is room, and how much room is left then.
fn keep(left: Limit, more: &str) -> (&str, Option<Limit>)
    ensures { Keeps left more.now result.0.now result.1 }
{
    match left {
        Limit::Bytes(left) => keep_bytes(left, more),
        Limit::Characters(left) => keep_characters(left, more),
    }
}

impl Front {
    /// Nothing yet.
    #[tactic(auto, using(crate::proofs::CutLemmas::whole_left))]
    pub(crate) fn new(alloc: Global, limit: Limit) -> Front
        ensures { (whole : List ℕ) → IsOnTheWay limit result whole whole }
    {
        Front {
            made: Text::new(alloc),
            left: Some(limit),
        }
    }

    /// Whether something was cut, so that nothing more is taken.
    pub(crate) fn is_cut(&self) -> bool
        ensures { result ≡ is_none self.now.left }
    {
        self.left.is_none()
    }

    /// Adds the next text, as far as there is room.
    pub(crate) fn add(&mut self, more: &str) -> Result<(), OutOfMemory>
        ensures { OnOk result (Adds self.old more.now self.new) }
    {
        let Some(left) = self.left else {
            return Ok(());
        };
        let (kept, left) = keep(left, more);
        self.made.push_str(kept)?;
        self.left = left;
        Ok(())
    }

    /// What was made.
    pub(crate) fn into_text(self) -> Text
        ensures { result ≡ self.made }
    {
        self.made
    }
}
