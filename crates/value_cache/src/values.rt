//! The values of a window where they stand.

ghost use Rattle.std.specs.Prelude.{◌≡◌, ◌↔◌, IsTrue, length, slice_get};
ghost use Rattle.std.specs.Option.{option_copied};
ghost use Rattle.value_cache.specs.Tokens.{AreOf, values_of};
ghost use Rattle.value_cache.specs.Beside.{shown, IsSeenIn};

use crate::beside::Window;
use crate::cache::Cache;
use crate::token::Token;
use std::marker::Model;
use zbx_types::Stored;

/// Where values stand.
#[derive(Clone, Copy)]
pub(crate) enum Standing<'a> {
    /// In a slice.
    Plain(&'a [Stored]),
    /// In a cache, by the tokens of a window.
    Cached(&'a Cache, Window<'a>),
}

/// The values of a window where they stand, the oldest first: in a slice, or in a cache by their tokens. Nothing is
/// copied, and no memory is taken. Contracts see the values.
#[derive(Drop)]
pub struct Values<'a> {
    at: Standing<'a>,
}

impl<'a> Model for Values<'a> {
    ghost use Rattle.std.specs.Prelude.{List};
    ghost use Rattle.zbx_types.specs.declared.entries.Stored.{Stored};
    ghost use Rattle.value_cache.specs.Standing.{standing, IsThere};

    ghost Value = { List Stored };

    ghost view = { λ v. standing v.at };

    ghost invariant = { λ v. IsThere v.at };
}

impl<'a> Values<'a> {
    /// Those of a slice.
    pub fn plain(values: &'a [Stored]) -> Values<'a>
        ensures { result ≡ values.now }
    {
        Values {
            at: Standing::Plain(values),
        }
    }

    /// Those that tokens show.
    pub fn cached(cache: &'a Cache, tokens: &'a [Token]) -> Values<'a>
        requires { AreOf cache.now tokens.now }
        ensures { result ≡ values_of tokens.now }
    {
        Values::seen(
            cache,
            Window {
                before: tokens,
                stored: &[],
                after: &[],
            },
        )
    }

    /// Those that the tokens of a window show.
    pub fn seen(cache: &'a Cache, window: Window<'a>) -> Values<'a>
        requires { IsSeenIn cache.now window }
        ensures { result ≡ shown window.entry }
    {
        Values {
            at: Standing::Cached(cache, window),
        }
    }

    /// How many there are.
    pub fn len(&self) -> usize
        ensures { result ≡ length self.now }
    {
        match self.at {
            Standing::Plain(values) => values.len(),
            Standing::Cached(_, window) => window.len(),
        }
    }

    /// Whether there are none.
    pub fn is_empty(&self) -> bool
        ensures { IsTrue result ↔ (length self.now ≡ 0) }
    {
        self.len() == 0
    }

    /// The one at a place, counted from 0.
    pub fn get(&self, place: usize) -> Option<&'a Stored>
        ensures { option_copied result ≡ slice_get self.now place }
    {
        match self.at {
            Standing::Plain(values) => values.get(place),
            Standing::Cached(cache, window) => match window.token_at(place) {
                None => None,
                Some(token) => Some(cache.value(token)),
            },
        }
    }
}
