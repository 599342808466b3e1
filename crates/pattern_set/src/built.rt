//! One pattern.

ghost use Rattle.std.specs.Prelude.{◌≡◌, ◌≢◌, ℕ, Contains, Err, IfOk, true};
ghost use Rattle.pattern_set.specs.Filling.{filled_of, at_most};
ghost use Rattle.pattern_set.specs.Patterns.{IsPattern, IsNoPattern};
ghost use Rattle.pattern_set.specs.Spans.{spans_of};

use crate::fault::BuildError;
use crate::filling::filled;
use crate::matcher::Matcher;
use crate::output::Filled;
use crate::spans::{Span, spans_of};
use regex::{Error, Regex};
use regex_syntax::{Config, parse};
use std::alloc::Global;
use std::marker::Model;
use zbx_types::{Many, OutOfMemory};

/// A pattern, built. Contracts see its text.
#[derive(Drop)]
pub(crate) struct Built {
    regex: Regex,
}

impl Model for Built {
    ghost use Rattle.std.specs.Prelude.{◌≡◌, List, ℕ};
    ghost use Rattle.regex.specs.Patterns.{default_config};
    ghost use Rattle.regex.specs.Strings.{regex_source, regex_config, IsReadFromSource};

    ghost Value = { List ℕ };

    ghost view = { λ b. regex_source b.regex };

    ghost invariant = { λ b. IsReadFromSource b.regex × (regex_config b.regex ≡ default_config) };
}

/// Whether the grammar reads a text and it nests no deeper than is allowed. False too where memory is refused.
fn is_read(alloc: Global, text: &str) -> bool
    ensures { result ≡ true → IsPattern text.now }
{
    parse(alloc, text, &Config::default()).is_ok()
}

/// Why a text is refused that has no fault of syntax: it is too large where it is a pattern that counts repetitions in
/// braces, and else it counts as want of memory.
fn too_large(alloc: Global, text: &str, place: u32) -> BuildError
    ensures refused { (at : ℕ) → result ≢ BuildError.Refused at }
    ensures large { (at : ℕ) → result ≡ BuildError.TooLarge at → (at ≡ place) × IsPattern text.now × Contains text.now 123 }
{
    if text.as_bytes().contains(&b'{') && is_read(alloc, text) {
        BuildError::TooLarge { place }
    } else {
        BuildError::OutOfMemory
    }
}

impl Built {
    /// Builds the text that stands at a place of the configuration. The errors are those of [`BuildError`], each with this
    /// place.
    pub(crate) fn build(alloc: Global, text: &str, place: u32) -> Result<Built, BuildError>
        ensures ok { IfOk result (λ built. built ≡ text.now) }
        ensures pattern { IfOk result (λ _. IsPattern text.now) }
        ensures refused { (at : ℕ) → result ≡ Err (BuildError.Refused at) → (at ≡ place) × IsNoPattern text.now }
        ensures large { (at : ℕ) → result ≡ Err (BuildError.TooLarge at) → (at ≡ place) × IsPattern text.now × Contains text.now 123 }
    {
        match Regex::new(alloc, text) {
            Ok(regex) => Ok(Built { regex }),
            Err(Error::Syntax(_)) => Err(BuildError::Refused { place }),
            Err(Error::OutOfMemory) => Err(BuildError::OutOfMemory),
            Err(_) => Err(too_large(alloc, text, place)),
        }
    }

    /// The text.
    pub(crate) fn text(&self) -> &str
        ensures { result.now ≡ self.now }
    {
        self.regex.as_str()
    }

    /// The spans of groups 0 to 9 of the leftmost match, or None where nothing matches.
    pub(crate) fn spans(&self, alloc: Global, text: &str) -> Result<Option<Many<Span>>, OutOfMemory>
        ensures { IfOk result (λ spans. spans ≡ spans_of self.now text.now) }
    {
        let mut matcher = self.regex.matcher(alloc)?;
        match matcher.captures(text) {
            Some(groups) => Ok(Some(spans_of(alloc, &groups)?)),
            None => Ok(None),
        }
    }

    /// What searches for it in many texts.
    pub(crate) fn matcher(&self, alloc: Global) -> Result<Matcher<'_>, OutOfMemory>
        ensures { IfOk result (λ matcher. matcher ≡ self.now) }
    {
        Ok(Matcher {
            regex: &self.regex,
            search: self.regex.matcher(alloc)?,
        })
    }

    /// The output, filled from the groups of the leftmost match, where no more than so many bytes are wanted.
    pub(crate) fn filled_within(
        &self,
        alloc: Global,
        text: &str,
        output: &str,
        limit: usize,
    ) -> Result<Filled, OutOfMemory>
        ensures { IfOk result (λ filled. filled ≡ at_most limit (filled_of self.now text.now output.now)) }
    {
        let mut search = self.regex.matcher(alloc)?;
        match search.captures(text) {
            Some(groups) => filled(alloc, &groups, output, limit),
            None => Ok(Filled::Unmatched),
        }
    }
}
