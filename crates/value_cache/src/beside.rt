//! Windows beside a value that isn't in the cell yet.

ghost use Rattle.std.specs.Prelude.{◌≡◌, reverse, map, length, slice_get, option_map, IfOk, IfSome};
ghost use Rattle.std.specs.Option.{option_copied};
ghost use Rattle.value_cache.specs.Histories.{IsOrdered, placed};
ghost use Rattle.value_cache.specs.Tokens.{CacheId, AreOf, IsOf, values_of};
ghost use Rattle.value_cache.specs.Windows.{seen_of};
ghost use Rattle.value_cache.specs.Beside.{shown, seen_in, IsSeenIn};

use crate::cache::Cache;
use crate::placing::place_of;
use crate::token::Token;
use crate::windows::{rest_of, window};
use std::alloc::Global;
use std::slice;
use zbx_types::{Many, Moment, OutOfMemory, Range, Stored};

/// The tokens of a window where they lie, that of the oldest value first: those of `before`, then of `stored`, then of
/// `after`. Nothing is copied.
#[derive(Clone, Copy)]
pub struct Window<'a> {
    /// Those of the cell before the one that isn't in it yet.
    pub before: &'a [Token],
    /// That one, where the window has it; else none.
    pub stored: &'a [Token],
    /// Those of the cell after it.
    pub after: &'a [Token],
}

/// The window that tokens will have with one more.
pub(crate) fn window_with<'a>(
    tokens: &'a [Token],
    token: &'a Token,
    range: Range,
    shift: u32,
    now: Moment,
) -> Window<'a>
    requires { IsOrdered (reverse (values_of tokens.now)) }
    ensures values { seen_in result ≡ seen_of range shift now (placed token.now.value (reverse (values_of tokens.now))) }
    ensures of { (cache : CacheId) → AreOf cache tokens.now → IsOf cache token.now → IsSeenIn cache result }
{
    let place = place_of(tokens, token);
    let after = window(&tokens[place..], range, shift, now);
    let range = rest_of(range, after.len());
    let stored = window(slice::from_ref(token), range, shift, now);
    let range = rest_of(range, stored.len());
    let before = window(&tokens[..place], range, shift, now);
    Window {
        before,
        stored,
        after,
    }
}

/// The token at a place, counted from 0.
fn token_in(tokens: &[Token], place: usize) -> Option<&Token>
    ensures value { option_copied result ≡ slice_get tokens.now place }
    ensures of { (cache : CacheId) → AreOf cache tokens.now → IfSome result (λ t. IsOf cache t.now) }
{
    tokens.get(place)
}

impl<'a> Window<'a> {
    /// How many values it has.
    pub(crate) fn len(&self) -> usize
        ensures { result ≡ length (shown self.now) }
    {
        self.before.len() + self.stored.len() + self.after.len()
    }

    /// The token of the value at a place, counted from 0.
    pub(crate) fn token_at(&self, place: usize) -> Option<&'a Token>
        ensures value { option_map (λ t. t.value) (option_copied result) ≡ slice_get (shown self.now) place }
        ensures of { (cache : CacheId) → IsSeenIn cache self.now → IfSome result (λ t. IsOf cache t.now) }
    {
        let count = self.before.len();
        if place < count {
            return token_in(self.before, place);
        }
        let place = place - count;
        let count = self.stored.len();
        if place < count {
            return token_in(self.stored, place);
        }
        token_in(self.after, place - count)
    }

    /// Copies of the values, the oldest first. [`OutOfMemory`] where there is no room for them.
    pub fn copies(&self, alloc: Global, cache: &Cache) -> Result<Many<Stored>, OutOfMemory>
        requires { IsSeenIn cache.now self.now }
        ensures { IfOk result (λ made. made ≡ shown self.now) }
    {
        let mut made = Many::new(alloc);
        cache.push_copies(&mut made, self.before)?;
        cache.push_copies(&mut made, self.stored)?;
        cache.push_copies(&mut made, self.after)?;
        Ok(made)
    }

    /// References to the values, the oldest first. [`OutOfMemory`] where there is no room for them.
    pub fn references<'b>(
        &self,
        alloc: Global,
        cache: &'b Cache,
    ) -> Result<Vec<&'b Stored>, OutOfMemory>
        requires { IsSeenIn cache.now self.now }
        ensures { IfOk result (λ made. map (λ stored. stored.now) made.items ≡ shown self.now) }
    {
        let mut made = Vec::new(alloc);
        cache.push_references(&mut made, self.before)?;
        cache.push_references(&mut made, self.stored)?;
        cache.push_references(&mut made, self.after)?;
        Ok(made)
    }
}
