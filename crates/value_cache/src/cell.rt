//! The cell of an item.

ghost use Rattle.std.specs.Prelude.{◌≡◌, ◌<◌, ◌↔◌, [], length, map, IsTrue, OnOk, OnErr, IfOk, IfErr, IfSome, option_map, slice_get};
ghost use Rattle.std.specs.Option.{option_copied};
ghost use Rattle.value_cache.specs.Beside.{shown, IsSeenIn};
ghost use Rattle.value_cache.specs.Cells.{IsCellOf, IsExact, Gains, StaysExact, Shows, ShowsWith, ShowsLatest};
ghost use Rattle.value_cache.specs.Cells.{IsSame, IsIn, trim};
ghost use Rattle.value_cache.specs.Histories.{placed, oldest_first};
ghost use Rattle.value_cache.specs.Tokens.{CacheId, AreOf, IsOf, values_of};

use crate::beside::{Window, window_with};
use crate::cache::Cache;
use crate::keeping::{Keep, same_keep};
use crate::placing::put;
use crate::row::Row;
use crate::same::{same_tokens, tokens_again, tokens_moved};
use crate::token::Token;
use crate::trimming::trim;
use crate::windows::window;
use std::alloc::Global;
use std::marker::Model;
use std::mem::replace;
use zbx_types::{Many, Moment, OutOfMemory, Range, Stored};

/// The values of an item, by their tokens: those that a window within its [`Keep`] can see from the moment of the last
/// insert on, and no others. Contracts see the latest first.
#[derive(Drop)]
pub struct ItemCell {
    keep: Keep,
    // that of the oldest value first: so the next one, which mostly is the latest, is put at the end
    tokens: Row<Token>,
}

impl Model for ItemCell {
    ghost use Rattle.std.specs.Prelude.{reverse};
    ghost use Rattle.value_cache.specs.Histories.{IsOrdered};
    ghost use Rattle.value_cache.specs.Tokens.{values_of};
    ghost use Rattle.value_cache.specs.Cells.{CellView};

    ghost Value = { CellView };

    ghost view = { λ c. record { keep = c.keep; values = reverse (values_of c.tokens.items); tokens = reverse c.tokens.items; room = c.tokens.room } };

    ghost invariant = { λ c. IsOrdered (reverse (values_of c.tokens.items)) };
}

impl ItemCell {
    /// A cell without values, which stands for the empty history from moment 0 on. Takes no memory.
    pub fn new(alloc: Global, keep: Keep) -> ItemCell
        ensures keep { result.keep ≡ keep }
        ensures empty { IsCellOf result 0 [] }
        ensures exact { IsExact result 0 [] }
        ensures of { (cache : CacheId) → IsIn cache result }
    {
        ItemCell {
            keep,
            tokens: Row::new(alloc),
        }
    }

    /// Takes a value in at a moment, which isn't before that of an earlier insert, and drops what no longer is to be
    /// kept. The value may be of any moment; of two values with one time that with the greater number is the later one.
    /// Where no memory is to be had the value comes back in the error, and the cell is as before.
    pub fn insert(
        &mut self,
        cache: &Cache,
        stored: Stored,
        now: Moment,
    ) -> Result<(), (Stored, OutOfMemory)>
        requires { IsIn cache.now self.old }
        ensures of { IsIn cache.now self.new }
        ensures ok { OnOk result (Gains self.old self.new stored now) }
        ensures exact { OnOk result (StaysExact self.old self.new stored now) }
        ensures trimmed { OnOk result (self.new.values ≡ trim self.old.keep now (placed stored self.old.values)) }
        ensures keep { self.new.keep ≡ self.old.keep }
        ensures err { IfErr result (λ e. (e.0 ≡ stored) × (self.new ≡ self.old)) }
    {
        if self.tokens.has_room() {
            let token = cache.push(stored)?;
            self.insert_token(token, now);
            return Ok(());
        }
        let Ok(mut roomier) = self.roomier(cache.alloc()) else {
            return Err((stored, OutOfMemory));
        };
        let token = cache.push(stored)?;
        roomier.insert_token(token, now);
        drop(replace(self, roomier));
        Ok(())
    }

    // A copy with room for one more value: the cell itself stays as it is until the value is stored.
    fn roomier(&self, alloc: Global) -> Result<ItemCell, OutOfMemory>
        ensures room { IfOk result (λ made. 0 < made.room) }
        ensures same { IfOk result (λ made. IsSame made self.now) }
        ensures of { IfOk result (λ made. (cache : CacheId) → IsIn cache self.now → IsIn cache made) }
    {
        let mut made = self.copy(alloc)?;
        made.reserve()?;
        Ok(made)
    }

    /// Makes room for one more value, so that [`ItemCell::insert_token`] may be called once. At [`OutOfMemory`] the
    /// cell is as before.
    pub fn reserve(&mut self) -> Result<(), OutOfMemory>
        ensures room { OnOk result (0 < self.new.room) }
        ensures same { IsSame self.new self.old }
        ensures of { (cache : CacheId) → IsIn cache self.old → IsIn cache self.new }
        ensures err { OnErr result (self.new ≡ self.old) }
    {
        self.tokens.reserve()
    }

    /// The same as [`ItemCell::insert`] of a value that stands in the cache, where there is room: takes no memory.
    pub fn insert_token(&mut self, token: Token, now: Moment)
        requires { 0 < self.old.room }
        ensures of { (cache : CacheId) → IsIn cache self.old → IsOf cache token → IsIn cache self.new }
        ensures ok { Gains self.old self.new token.value now }
        ensures exact { StaysExact self.old self.new token.value now }
        ensures trimmed { self.new.values ≡ trim self.old.keep now (placed token.value self.old.values) }
        ensures keep { self.new.keep ≡ self.old.keep }
    {
        put(&mut self.tokens, token);
        trim(&mut self.tokens, self.keep, now);
    }

    /// The values that a range with a time shift looks at, the oldest first, at a moment that isn't before that of the
    /// last insert. `shift` is in seconds; range and shift are within the cell's [`Keep`]. [`OutOfMemory`] where there
    /// is no room for the copies.
    pub fn window(
        &self,
        alloc: Global,
        cache: &Cache,
        range: Range,
        shift: u32,
        now: Moment,
    ) -> Result<Many<Stored>, OutOfMemory>
        requires { IsIn cache.now self.now }
        ensures { IfOk result (Shows self.now range shift now) }
    {
        cache.copies(alloc, self.window_slice(range, shift, now))
    }

    /// The tokens of the same values where they lie. Takes no memory.
    pub fn window_slice(&self, range: Range, shift: u32, now: Moment) -> &[Token]
        ensures values { Shows self.now range shift now (values_of result.now) }
        ensures of { (cache : CacheId) → IsIn cache self.now → AreOf cache result.now }
    {
        window(self.tokens.as_slice(), range, shift, now)
    }

    /// The window that the cell will have once a value, which is in the cache, is inserted at that moment. It isn't
    /// inserted, and no memory is taken.
    pub fn window_with<'a>(
        &'a self,
        token: &'a Token,
        range: Range,
        shift: u32,
        now: Moment,
    ) -> Window<'a>
        ensures values { ShowsWith self.now token.now.value range shift now (shown result) }
        ensures of { (cache : CacheId) → IsIn cache self.now → IsOf cache token.now → IsSeenIn cache result }
    {
        window_with(self.tokens.as_slice(), token, range, shift, now)
    }

    /// The latest value: that with the greatest time, and of these with the greatest number. Where `count` of the
    /// cell's [`Keep`] is at least 1, it is the latest one of all that were inserted.
    pub fn latest<'a>(&self, cache: &'a Cache) -> Option<&'a Stored>
        requires { IsIn cache.now self.now }
        ensures value { option_copied result ≡ slice_get self.now.values 0 }
        ensures latest { ShowsLatest self.now (option_copied result) }
    {
        match self.last() {
            None => None,
            Some(token) => Some(cache.value(token)),
        }
    }

    // Its token.
    fn last(&self) -> Option<&Token>
        ensures of { (cache : CacheId) → IsIn cache self.now → IfSome result (λ token. IsOf cache token.now) }
        ensures value { option_map (λ t. t.value) (option_copied result) ≡ slice_get self.now.values 0 }
        ensures latest { ShowsLatest self.now (option_map (λ t. t.value) (option_copied result)) }
    {
        self.tokens.as_slice().last()
    }

    /// The tokens, that of the oldest value first.
    pub fn tokens(&self) -> &[Token]
        ensures tokens { result.now ≡ oldest_first self.now.tokens }
        ensures of { (cache : CacheId) → IsIn cache self.now → AreOf cache result.now }
        ensures values { values_of result.now ≡ oldest_first self.now.values }
    {
        self.tokens.as_slice()
    }

    /// How many values there are.
    pub fn held(&self) -> u64
        ensures { result ≡ length self.now.values }
    {
        self.tokens.as_slice().len() as u64
    }

    /// What the cell is to keep.
    pub fn keep(&self) -> Keep
        ensures { result ≡ self.now.keep }
    {
        self.keep
    }

    /// The cell with another rule from a moment on, which isn't before that of the last insert: of its values it has those
    /// that it is to keep at that moment by its rule so far. Takes no memory.
    #[tactic(auto, using(crate::proofs::Pruning::trimmed_ordered))]
    pub fn with_keep(self, keep: Keep, now: Moment) -> ItemCell
        ensures keep { result.keep ≡ keep }
        ensures values { result.values ≡ trim self.keep now self.values }
        ensures of { (cache : CacheId) → IsIn cache self → IsIn cache result }
    {
        let mut tokens = self.tokens;
        trim(&mut tokens, self.keep, now);
        ItemCell { keep, tokens }
    }

    /// A copy, which shares the values. [`OutOfMemory`] where there is no room for its tokens.
    pub fn copy(&self, alloc: Global) -> Result<ItemCell, OutOfMemory>
        ensures same { IfOk result (λ made. IsSame made self.now) }
        ensures of { IfOk result (λ made. (cache : CacheId) → IsIn cache self.now → IsIn cache made) }
    {
        Ok(ItemCell {
            keep: self.keep,
            tokens: Row::of(tokens_again(alloc, self.tokens.as_slice())?),
        })
    }

    /// The cell over another cache, in which copies of its values are stored. [`OutOfMemory`] where there is no room for
    /// them.
    pub fn moved(&self, alloc: Global, from: &Cache, to: &Cache) -> Result<ItemCell, OutOfMemory>
        requires { IsIn from.now self.now }
        ensures keep { IfOk result (λ made. made.keep ≡ self.now.keep) }
        ensures values { IfOk result (λ made. made.values ≡ self.now.values) }
        ensures of { IfOk result (IsIn to.now) }
    {
        Ok(ItemCell {
            keep: self.keep,
            tokens: Row::of(tokens_moved(alloc, from, to, self.tokens.as_slice())?),
        })
    }

    /// Whether two cells over one cache keep the same values by the same rule: it compares indexes.
    pub fn same(&self, cache: &Cache, other: &ItemCell) -> bool
        requires own { IsIn cache.now self.now }
        requires others { IsIn cache.now other.now }
        ensures { IsTrue result ↔ IsSame self.now other.now }
    {
        same_keep(self.keep, other.keep)
            && same_tokens(cache, self.tokens.as_slice(), other.tokens.as_slice())
    }
}
