//! What searches for one pattern in many texts.

ghost use Rattle.std.specs.Prelude.{◌≡◌, is_some};
ghost use Rattle.pattern_set.specs.Patterns.{leftmost};

use regex::Regex;
use std::marker::Model;

/// What searches for one pattern in one text after another, from [`Patterns::matcher`](crate::Patterns::matcher).
/// Contracts see the pattern's text.
///
/// It takes memory when it is made, and again as its searches need more; a search that gets none of that takes longer and
/// answers the same. It lives for one call, and isn't shared.
#[derive(Drop)]
pub struct Matcher<'p> {
    pub(crate) regex: &'p Regex,
    pub(crate) search: regex::Matcher<'p>,
}

impl<'p> Model for Matcher<'p> {
    ghost use Rattle.std.specs.Prelude.{◌≡◌, List, ℕ};
    ghost use Rattle.regex.specs.Patterns.{default_config};
    ghost use Rattle.regex.specs.Strings.{regex_source, regex_config, regex_pattern, matcher_pattern, IsReadFromSource};

    ghost Value = { List ℕ };

    ghost view = { λ m. regex_source m.regex.now };

    ghost invariant = { λ m. IsReadFromSource m.regex.now × (regex_config m.regex.now ≡ default_config) × (matcher_pattern m.search ≡ regex_pattern m.regex.now) };
}

impl<'p> Matcher<'p> {
    /// Whether the pattern matches somewhere in a text.
    pub fn matches(&mut self, text: &str) -> bool
        ensures found { result ≡ is_some (leftmost self.old text.now) }
        ensures same { self.new ≡ self.old }
    {
        self.search.is_match(text)
    }
}
