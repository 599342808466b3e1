//! The patterns of the flat configuration.

ghost use Rattle.std.specs.Prelude.{◌≡◌, ◌++◌, ◌∷◌, [], false, map, OnOk, IfOk};
ghost use Rattle.host_layout.specs.Patterns.{is_pattern, has_pattern, used, Settles};

use indexmap::IndexMap;
use std::alloc::Global;
use std::convert::AsStr;
use std::marker::Model;
use zbx_types::{Cause, Many, OutOfMemory, Text};

/// The most patterns (this project's own).
const MOST_PATTERNS: usize = 128;

/// The most bytes of a pattern (this project's own).
pub(crate) const LONGEST_PATTERN: usize = 255;

/// What comes of a pattern that is used.
#[derive(Clone, Copy)]
pub enum Joining {
    /// It was used before.
    Known,
    /// It joins the patterns.
    New,
    /// It is refused at the member that uses it.
    Refused(Cause),
}

/// The patterns that were used so far, each with the pointer to the member that used it first. Contracts see them in the
/// order of their first uses. A pattern is found without a search over the others.
#[derive(Drop)]
pub struct PatternList {
    paths: IndexMap<String, Text>,
}

impl Model for PatternList {
    ghost use Rattle.std.specs.Prelude.{List, map};
    ghost use Rattle.host_layout.specs.Patterns.{Pattern};
    ghost use Rattle.host_layout.specs.Kept.{kept_pattern};

    ghost Value = { List Pattern };

    ghost view = { λ p. map kept_pattern p.paths.entries };
}

/// Whether a pattern may be so long.
pub(crate) fn is_pattern(text: &str) -> bool
    ensures { result ≡ is_pattern text.now }
{
    1 <= text.len() && text.len() <= LONGEST_PATTERN
}

impl PatternList {
    /// No pattern. Takes no memory.
    pub(crate) fn new(alloc: Global) -> PatternList
        ensures { result ≡ [] }
    {
        PatternList {
            paths: IndexMap::new(alloc),
        }
    }

    /// Whether a pattern was used before.
    fn has(&self, text: &str) -> bool
        ensures { result ≡ has_pattern self.now text.now }
    {
        self.paths.contains_key(text)
    }

    /// What comes of a pattern that is used next: `BadMember` where it has no bytes or more than 255, `TooMany` where it is
    /// the 129th.
    pub fn settle(&self, text: &str) -> Joining
        ensures { Settles result self.now text.now }
    {
        if !is_pattern(text) {
            return Joining::Refused(Cause::BadMember);
        }
        if self.has(text) {
            return Joining::Known;
        }
        if MOST_PATTERNS <= self.paths.len() {
            return Joining::Refused(Cause::TooMany);
        }
        Joining::New
    }

    /// Adds a pattern that wasn't used before, and the pointer to the member that uses it.
    pub fn add(&mut self, alloc: Global, text: &str, path: Text) -> Result<(), OutOfMemory>
        requires { has_pattern self.old text.now ≡ false }
        ensures { OnOk result (self.new ≡ self.old ++ used text.now path ∷ []) }
    {
        let text = String::from_str(alloc, text)?;
        self.paths.insert(text, path)?;
        Ok(())
    }

    /// Copies of the patterns, in order.
    pub fn texts(&self, alloc: Global) -> Result<Many<Text>, OutOfMemory>
        ensures { IfOk result (λ made. made ≡ map (λ p. p.text) self.now) }
    {
        let mut made = Many::new(alloc);
        for (text, _) in self.paths.iter() {
            made.push(Text::of(alloc, text.as_str())?)?;
        }
        Ok(made)
    }

    /// Copies of the pointers to the members that used them first, in the same order.
    pub fn paths(&self, alloc: Global) -> Result<Many<Text>, OutOfMemory>
        ensures { IfOk result (λ made. made ≡ map (λ p. p.path) self.now) }
    {
        let mut made = Many::new(alloc);
        for (_, path) in self.paths.iter() {
            made.push(path.copy(alloc)?)?;
        }
        Ok(made)
    }
}
