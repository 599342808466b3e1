//! The patterns of a configuration.

ghost use Rattle.std.specs.Prelude.{◌≡◌, ◌^◌, ◌<◌, ◌≤◌, ◌-◌, ℕ, List, All, Contains, Some, Err, IfOk, length, take, is_some, bytes_eq, position, option_and_then};
ghost use Rattle.zbx_types.specs.Ids.{at_id};
ghost use Rattle.pattern_set.specs.Filling.{filled_of, at_most};
ghost use Rattle.pattern_set.specs.Patterns.{IsPattern, IsNoPattern};
ghost use Rattle.pattern_set.specs.Places.{place_of, match_of};
ghost use Rattle.pattern_set.specs.Spans.{spans_of};

use crate::built::Built;
use crate::fault::BuildError;
use crate::matcher::Matcher;
use crate::output::Filled;
use crate::spans::Span;
use std::alloc::Global;
use std::convert::AsStr;
use std::marker::Model;
use zbx_types::{Many, OutOfMemory, Text, by_id};

/// The patterns of a configuration, built. Contracts see the list of their texts, in order.
///
/// A pattern is named by its place, which counts from 1. The set doesn't change, and threads may share it.
#[derive(Drop)]
pub struct Patterns {
    built: Vec<Built>,
}

impl Model for Patterns {
    ghost use Rattle.std.specs.Prelude.{◌^◌, ◌<◌, List, ℕ, length};

    ghost Value = { List (List ℕ) };

    ghost view = { λ p. p.built.items };

    ghost invariant = { λ p. length p.built.items < 2 ^ 32 };
}

/// The index of the first pattern that has this text.
fn index_of(built: &[Built], text: &str) -> Option<usize>
    ensures { result ≡ position (λ other. bytes_eq other text.now) built.now }
{
    built.iter().position(|pattern| pattern.text() == text)
}

impl Patterns {
    /// Builds each text as a pattern of the `regex` crate (this project's own choice of grammar). [`BuildError`] says why
    /// a text was refused, with its place.
    pub fn build(alloc: Global, texts: &Many<Text>) -> Result<Patterns, BuildError>
        requires { length texts.now < 2 ^ 32 }
        ensures ok { IfOk result (λ patterns. patterns ≡ texts.now) }
        ensures patterns { IfOk result (λ _. All IsPattern texts.now) }
        ensures refused { (place : ℕ) → result ≡ Err (BuildError.Refused place) → (text : List ℕ) × (at_id texts.now place ≡ Some text) × IsNoPattern text }
        ensures first { (place : ℕ) → result ≡ Err (BuildError.Refused place) → All IsPattern (take (place - 1) texts.now) }
        ensures large { (place : ℕ) → result ≡ Err (BuildError.TooLarge place) → (text : List ℕ) × (at_id texts.now place ≡ Some text) × IsPattern text × Contains text 123 }
        ensures first_large { (place : ℕ) → result ≡ Err (BuildError.TooLarge place) → All IsPattern (take (place - 1) texts.now) }
    {
        let mut built = Vec::new(alloc);
        for (index, text) in texts.as_slice().iter().enumerate() {
            built.push(Built::build(alloc, text.as_str(), index as u32 + 1)?)?;
        }
        Ok(Patterns { built })
    }

    /// The place of the first pattern that has this text, counted from 1; 0 where none has. Takes no memory.
    pub fn find(&self, text: &Text) -> u32
        ensures place { result ≡ place_of text.now self.now }
        ensures there { 1 ≤ result → at_id self.now result ≡ Some text.now }
        ensures among { Contains self.now text.now → at_id self.now result ≡ Some text.now }
    {
        match index_of(self.built.as_slice(), text.as_str()) {
            Some(index) => index as u32 + 1,
            None => 0,
        }
    }

    /// The spans of groups 0 to 9 of the leftmost match of a pattern in a text, ten in all: group 0 is the whole match.
    /// None where the pattern matches nowhere, and where there is no pattern at the place. [`OutOfMemory`] where there is no
    /// room for the search or for the spans.
    pub fn spans(
        &self,
        alloc: Global,
        pattern: u32,
        text: &str,
    ) -> Result<Option<Many<Span>>, OutOfMemory>
        ensures { IfOk result (λ spans. spans ≡ option_and_then (λ p. spans_of p text.now) (at_id self.now pattern)) }
    {
        match by_id(self.built.as_slice(), pattern) {
            Some(built) => built.spans(alloc, text),
            None => Ok(None),
        }
    }

    /// What searches for a pattern in one text after another; None where there is no pattern at the place.
    /// [`OutOfMemory`] where there is no room for it.
    pub fn matcher(&self, alloc: Global, pattern: u32) -> Result<Option<Matcher<'_>>, OutOfMemory>
        ensures { IfOk result (λ matcher. matcher ≡ at_id self.now pattern) }
    {
        match by_id(self.built.as_slice(), pattern) {
            Some(built) => Ok(Some(built.matcher(alloc)?)),
            None => Ok(None),
        }
    }

    /// Whether a pattern matches somewhere in a text; false where there is no pattern at the place. [`OutOfMemory`] where
    /// there is no room for the search.
    pub fn matches(&self, alloc: Global, pattern: u32, text: &str) -> Result<bool, OutOfMemory>
        ensures { IfOk result (λ found. found ≡ is_some (match_of self.now pattern text.now)) }
    {
        match self.matcher(alloc, pattern)? {
            Some(mut matcher) => Ok(matcher.matches(text)),
            None => Ok(false),
        }
    }

    /// The output with each `\0` to `\9` replaced by the text of that group of the leftmost match of a pattern in a text,
    /// and by nothing where the group isn't there (the Zabbix 6.0 manual, "Item value preprocessing"). Every other byte stays,
    /// a backslash before no digit too. None where the pattern matches nowhere, and where there is no pattern at the place.
    /// [`OutOfMemory`] where there is no room for the search or for the filled output.
    pub fn filled(
        &self,
        alloc: Global,
        pattern: u32,
        text: &str,
        output: &str,
    ) -> Result<Option<Text>, OutOfMemory>
        ensures { IfOk result (λ filled. filled ≡ option_and_then (λ p. filled_of p text.now output.now) (at_id self.now pattern)) }
    {
        match self.filled_within(alloc, pattern, text, output, usize::MAX)? {
            Filled::Unmatched => Ok(None),
            Filled::Made(filled) => Ok(Some(filled)),
            Filled::TooLong => Err(OutOfMemory),
        }
    }

    /// The same output, of at most `limit` bytes: [`Filled::TooLong`] exactly where it is longer, and no more than the limit
    /// is made of it. [`Filled::Unmatched`] where [`Patterns::filled`] gives None. [`OutOfMemory`] where there is no room for
    /// the search or for the filled output.
    pub fn filled_within(
        &self,
        alloc: Global,
        pattern: u32,
        text: &str,
        output: &str,
        limit: usize,
    ) -> Result<Filled, OutOfMemory>
        ensures { IfOk result (λ filled. filled ≡ at_most limit (option_and_then (λ p. filled_of p text.now output.now) (at_id self.now pattern))) }
    {
        match by_id(self.built.as_slice(), pattern) {
            Some(built) => built.filled_within(alloc, text, output, limit),
            None => Ok(Filled::Unmatched),
        }
    }
}
