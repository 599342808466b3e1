//! The one vector in which all values stand.

ghost use Rattle.std.specs.Prelude.{◌≡◌, ◌≤◌, ◌<◌, ◌++◌, length, map, IfOk, IfErr, IfSome, OnOk};
ghost use Rattle.value_cache.specs.Tokens.{IsOf, AreOf, name_at, values_of};

use crate::token::{Place, Row, Token, Unruled};
use boxcar::slot::{OnceSlot, Written};
use boxcar::tag::Tag;
use std::alloc::{AllocError, Global};
use std::marker::Model;
use std::sync::atomic::{AtomicUsize, Ordering};
use zbx_types::{Many, OutOfMemory, Stored};

// A push that meets a row in the making goes to the next lane.
const LANES: usize = 8;

// A lane's rows. The first ones double, from 64 slots on, and the others have 16,384 slots each, 1.3 MB, so that a thread
// that makes a row which another one stores wastes little.
const ROWS: usize = 2_048;

const DOUBLING_ROWS: usize = 8;

const ROW_SLOTS: usize = 16_384;

// How many slots a lane has. The rows that double have together 64 fewer than one of the others.
const LANE_SLOTS: usize = (ROWS - 7) * ROW_SLOTS - 64;

/// A vector of values that only grows. Threads push and read through a `&`, and none waits for another. Contracts know
/// it by the names of its rows.
#[derive(Drop)]
pub struct Cache {
    alloc: Global,
    next: Vec<AtomicUsize>,
    rows: Vec<OnceSlot<Row, Unruled>>,
}

impl Model for Cache {
    ghost use Rattle.value_cache.specs.Tokens.{CacheId};

    ghost Value = { CacheId };

    ghost view = { λ c. record { rows = c.rows.items } };
}

/// How many slots a row of a lane has.
fn slots_in(row: usize) -> usize {
    if row < DOUBLING_ROWS {
        1 << (row + 6)
    } else {
        ROW_SLOTS
    }
}

/// An index, by its lane and the row there.
fn placed(lane: usize, row: usize, slot: usize) -> Option<Place> {
    if lane >= LANES || row >= ROWS {
        return None;
    }
    Some(Place {
        row: u32::try_from(lane * ROWS + row).ok()?,
        slot: u32::try_from(slot).ok()?,
    })
}

/// The index that is the n-th of a lane, if there is such a one.
fn place_of(lane: usize, index: usize) -> Option<Place> {
    if index >= LANE_SLOTS {
        return None;
    }
    let skewed = index + 64;
    if skewed < ROW_SLOTS {
        let row = (skewed.ilog2() as usize).saturating_sub(6) % DOUBLING_ROWS;
        return placed(lane, row, skewed % (1 << (row + 6)));
    }
    placed(lane, skewed / ROW_SLOTS + 7, skewed % ROW_SLOTS)
}

/// A row of free slots.
fn free_row(alloc: Global, len: usize) -> Result<Row, AllocError> {
    let mut slots = Vec::with_capacity(alloc, len)?;
    let tag = Tag::empty();
    for _ in 0..len {
        slots.push(OnceSlot::new(&tag))?;
    }
    Ok(slots)
}

impl Cache {
    /// The empty vector.
    pub fn new(alloc: Global) -> Result<Cache, OutOfMemory> {
        let mut next = Vec::with_capacity(alloc, LANES)?;
        let mut rows = Vec::with_capacity(alloc, LANES * ROWS)?;
        let tag = Tag::empty();
        for _ in 0..LANES {
            next.push(AtomicUsize::new(0))?;
            for _ in 0..ROWS {
                rows.push(OnceSlot::new(&tag))?;
            }
        }
        Ok(Cache { alloc, next, rows })
    }

    /// From what its memory comes.
    pub(crate) fn alloc(&self) -> Global {
        self.alloc
    }

    // The row, made where it isn't there. None where memory is refused, or another thread is storing it just now.
    fn row(&self, at: usize) -> Option<Written<Row>>
        requires { at < length self.now.rows }
        ensures { IfSome result (λ row. row.of ≡ name_at self.now.rows at) }
    {
        if let Some(row) = self.rows[at].witness() {
            return Some(row);
        }
        let made = free_row(self.alloc, slots_in(at % ROWS)).ok()?;
        match self.rows[at].set_written(made) {
            Ok(row) => Some(row),
            Err(_) => self.rows[at].witness(),
        }
    }

    // Stores a value in a lane, or hands it back.
    fn push_in(&self, lane: usize, stored: Stored) -> Result<Token, Stored>
        ensures ok { IfOk result (λ token. (token.value ≡ stored) × IsOf self.now token) }
        ensures err { IfErr result (λ back. back ≡ stored) }
    {
        let Some(next) = self.next.get(lane) else {
            return Err(stored);
        };
        let Some(place) = place_of(lane, next.fetch_add(1, Ordering::SeqCst)) else {
            return Err(stored);
        };
        if place.row as usize >= self.rows.len() {
            return Err(stored);
        }
        let Some(row) = self.row(place.row as usize) else {
            return Err(stored);
        };
        let slots = self.rows[place.row as usize].value(&row);
        if place.slot as usize >= slots.len() {
            return Err(stored);
        }
        let time = stored.time;
        let number = stored.number;
        let item = slots[place.slot as usize].set_written(stored)?;
        Ok(Token {
            place,
            time,
            number,
            row,
            item,
        })
    }

    /// Stores a value, and answers what shows it. It waits for nobody. Where memory is refused the value comes back; that
    /// the vector is full, which takes 267 million values, counts as such.
    pub fn push(&self, stored: Stored) -> Result<Token, (Stored, OutOfMemory)>
        ensures ok { IfOk result (λ token. (token.value ≡ stored) × IsOf self.now token) }
        ensures err { IfErr result (λ back. back.0 ≡ stored) }
    {
        let mut stored = stored;
        for lane in 0..LANES {
            match self.push_in(lane, stored) {
                Ok(token) => return Ok(token),
                Err(back) => stored = back,
            }
        }
        Err((stored, OutOfMemory))
    }

    /// The value that a token shows, in whatever thread. Takes no memory.
    pub fn value<'a>(&'a self, token: &Token) -> &'a Stored
        requires { IsOf self.now token.now }
        ensures { result.now ≡ token.now.value }
    {
        let slots = self.rows[token.place.row as usize].value(&token.row);
        slots[token.place.slot as usize].value(&token.item)
    }

    /// Adds references to the values that tokens show.
    pub(crate) fn push_references<'a>(
        &'a self,
        made: &mut Vec<&'a Stored>,
        tokens: &[Token],
    ) -> Result<(), OutOfMemory>
        requires { AreOf self.now tokens.now }
        ensures { OnOk result (map (λ stored. stored.now) made.new.items ≡ map (λ stored. stored.now) made.old.items ++ values_of tokens.now) }
    {
        for token in tokens {
            made.push(self.value(token))?;
        }
        Ok(())
    }

    /// References to the values that tokens show. [`OutOfMemory`] where there is no room for them.
    pub fn references<'a>(
        &'a self,
        alloc: Global,
        tokens: &[Token],
    ) -> Result<Vec<&'a Stored>, OutOfMemory>
        requires { AreOf self.now tokens.now }
        ensures { IfOk result (λ made. map (λ stored. stored.now) made.items ≡ values_of tokens.now) }
    {
        let mut made = Vec::with_capacity(alloc, tokens.len())?;
        self.push_references(&mut made, tokens)?;
        Ok(made)
    }

    /// Adds copies of the values that tokens show.
    pub(crate) fn push_copies(
        &self,
        made: &mut Many<Stored>,
        tokens: &[Token],
    ) -> Result<(), OutOfMemory>
        requires { AreOf self.now tokens.now }
        ensures { OnOk result (made.new ≡ made.old ++ values_of tokens.now) }
    {
        for token in tokens {
            made.push(self.value(token).copy(self.alloc)?)?;
        }
        Ok(())
    }

    /// Copies of the values that tokens show. [`OutOfMemory`] where there is no room for them.
    pub fn copies(&self, alloc: Global, tokens: &[Token]) -> Result<Many<Stored>, OutOfMemory>
        requires { AreOf self.now tokens.now }
        ensures { IfOk result (λ made. made ≡ values_of tokens.now) }
    {
        let mut made = Many::new(alloc);
        self.push_copies(&mut made, tokens)?;
        Ok(made)
    }
}
