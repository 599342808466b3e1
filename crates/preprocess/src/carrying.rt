//! The cells of a configuration that follows another one. They are moved, unless some of the old ones would have to go on
//! as several new ones: then they are copied.

ghost use Rattle.std.specs.Prelude.{◌≡◌, ◌≢◌, ◌<◌, ℕ, Some, true, length, map, set, replicate, option_and_then, IfOk, OnErr};
ghost use Rattle.std.specs.Bool.{OnTrue};
ghost use Rattle.zbx_types.specs.Ids.{at_id};
ghost use Rattle.value_cache.specs.Cells.{CellView, IsIn};
ghost use Rattle.value_cache.specs.Tokens.{CacheId};
ghost use Rattle.preprocess.specs.Carry.{still_kept};
ghost use Rattle.preprocess.specs.Draft.{AreIn};
ghost use Rattle.preprocess.specs.Moves.{Claims, GoApart};

use crate::cells::empty_cells;
use crate::exchange::exchange_at;
use std::alloc::Global;
use value_cache::{ItemCell, Keep};
use zbx_types::{Moment, OutOfMemory, by_id};

/// The cell of an item by a rule, where this is the id of its old one: it has what that one's is to keep.
#[tactic(auto, using(crate::proofs::GoingOn::exact_empty, crate::proofs::InCache::in_found))]
fn cell_for(
    alloc: Global,
    cells: &[ItemCell],
    id: Option<u32>,
    keep: Keep,
    now: Moment,
) -> Result<ItemCell, OutOfMemory>
    ensures keep { IfOk result (λ cell. cell.keep ≡ keep) }
    ensures values { IfOk result (λ cell. cell.values ≡ still_kept now (option_and_then (at_id cells.now) id)) }
    ensures of { IfOk result (λ cell. (cache : CacheId) → AreIn cache cells.now → IsIn cache cell) }
{
    let Some(id) = id else {
        return Ok(ItemCell::new(alloc, keep));
    };
    match by_id(cells, id) {
        None => Ok(ItemCell::new(alloc, keep)),
        Some(cell) => Ok(cell.copy(alloc)?.with_keep(keep, now)),
    }
}

/// The cells of items by these rules, with copies of the values, where these are the ids of the old ones.
fn copied_cells(
    alloc: Global,
    cells: &[ItemCell],
    olds: &[Option<u32>],
    keeps: &[Keep],
    now: Moment,
) -> Result<Vec<ItemCell>, OutOfMemory>
    requires { length olds.now ≡ length keeps.now }
    ensures keeps { IfOk result (λ made. map (λ (c : CellView). c.keep) made.items ≡ keeps.now) }
    ensures values { IfOk result (λ made. map (λ (c : CellView). c.values) made.items ≡ map (λ id. still_kept now (option_and_then (at_id cells.now) id)) olds.now) }
    ensures of { IfOk result (λ made. (cache : CacheId) → AreIn cache cells.now → AreIn cache made.items) }
{
    let mut made = Vec::new(alloc);
    for (place, keep) in keeps.iter().enumerate() {
        made.push(cell_for(alloc, cells, olds[place], *keep, now)?)?;
    }
    Ok(made)
}

/// So many marks of cells that are still to be had.
fn all_free(alloc: Global, count: usize) -> Result<Vec<bool>, OutOfMemory>
    ensures { IfOk result (λ free. free.items ≡ replicate count true) }
{
    let mut free = Vec::new(alloc);
    for _cell in 0..count {
        free.push(true)?;
    }
    Ok(free)
}

/// Takes the mark of the cell with an id, and tells whether it was there. Where there is no id, none is asked for.
#[tactic(auto, using(crate::proofs::Moving::claims_from))]
fn claim(free: &mut Vec<bool>, id: Option<u32>) -> bool
    ensures { OnTrue result (Claims free.old.items free.new.items id) }
{
    let Some(id) = id else {
        return true;
    };
    let mut taken = false;
    exchange_at(free, id, &mut taken);
    taken
}

/// Whether each cell of so many is asked for once at most, and none that isn't there.
fn go_apart(alloc: Global, count: usize, olds: &[Option<u32>]) -> Result<bool, OutOfMemory>
    ensures { IfOk result (λ apart. OnTrue apart (GoApart olds.now)) }
{
    let mut free = all_free(alloc, count)?;
    for old in olds {
        if !claim(&mut free, *old) {
            return Ok(false);
        }
    }
    Ok(true)
}

/// Moves what the cell with an id is to keep into the one at a place. Takes no memory.
#[tactic(auto, using(crate::proofs::Moving::keep_set, crate::proofs::Moving::values_set, crate::proofs::InCache::in_exchanged, crate::proofs::InCache::in_taken, crate::proofs::InCache::in_set))]
fn move_one(
    alloc: Global,
    made: &mut Vec<ItemCell>,
    cells: &mut Vec<ItemCell>,
    place: usize,
    old: Option<u32>,
    now: Moment,
)
    requires { place < length made.old.items }
    ensures keeps { map (λ (c : CellView). c.keep) made.new.items ≡ map (λ (c : CellView). c.keep) made.old.items }
    ensures values { map (λ (c : CellView). c.values) made.new.items ≡ set (map (λ (c : CellView). c.values) made.old.items) place (still_kept now (option_and_then (at_id cells.old.items) old)) }
    ensures others { (id : ℕ) → old ≢ Some id → at_id cells.new.items id ≡ at_id cells.old.items id }
    ensures of { (cache : CacheId) → AreIn cache made.old.items → AreIn cache cells.old.items → AreIn cache made.new.items }
    ensures left { (cache : CacheId) → AreIn cache cells.old.items → AreIn cache cells.new.items }
{
    let keep = made[place].keep();
    let mut cell = ItemCell::new(alloc, keep);
    exchange_at(cells, old.unwrap_or(0), &mut cell);
    made[place] = cell.with_keep(keep, now);
}

/// Moves what the cells with these ids are to keep into new ones, each once at most. Takes no memory.
fn move_in(
    alloc: Global,
    made: &mut Vec<ItemCell>,
    cells: &mut Vec<ItemCell>,
    olds: &[Option<u32>],
    now: Moment,
)
    requires apart { GoApart olds.now }
    requires count { length made.old.items ≡ length olds.now }
    ensures keeps { map (λ (c : CellView). c.keep) made.new.items ≡ map (λ (c : CellView). c.keep) made.old.items }
    ensures values { map (λ (c : CellView). c.values) made.new.items ≡ map (λ id. still_kept now (option_and_then (at_id cells.old.items) id)) olds.now }
    ensures of { (cache : CacheId) → AreIn cache made.old.items → AreIn cache cells.old.items → AreIn cache made.new.items }
{
    for (place, old) in olds.iter().enumerate() {
        move_one(alloc, made, cells, place, *old, now);
    }
}

/// The cells of items by these rules, where these are the ids of the old ones, which are given up. At [`OutOfMemory`] they
/// are as before.
#[tactic(auto, using(crate::proofs::Moving::empty_keeps, crate::proofs::Moving::empty_many))]
pub(crate) fn cells_for(
    alloc: Global,
    cells: &mut Vec<ItemCell>,
    olds: &[Option<u32>],
    keeps: &[Keep],
    now: Moment,
) -> Result<Vec<ItemCell>, OutOfMemory>
    requires { length olds.now ≡ length keeps.now }
    ensures keeps { IfOk result (λ made. map (λ (c : CellView). c.keep) made.items ≡ keeps.now) }
    ensures values { IfOk result (λ made. map (λ (c : CellView). c.values) made.items ≡ map (λ id. still_kept now (option_and_then (at_id cells.old.items) id)) olds.now) }
    ensures of { IfOk result (λ made. (cache : CacheId) → AreIn cache cells.old.items → AreIn cache made.items) }
    ensures err { OnErr result (cells.new ≡ cells.old) }
{
    if !go_apart(alloc, cells.len(), olds)? {
        return copied_cells(alloc, cells.as_slice(), olds, keeps, now);
    }
    let mut made = empty_cells(alloc, keeps)?;
    move_in(alloc, &mut made, cells, olds, now);
    Ok(made)
}
