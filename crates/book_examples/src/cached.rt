//! The values of a cell stand in a cache that threads share.

use std::alloc::Global;
use std::marker::Model;
use std::test::Fail;
use std::thread::{Threads, join};
use value_cache::{Cache, ItemCell, Keep};
use zbx_types::{Held, Moment, OutOfMemory, Range, Stored, Text};

/// A cell over a cache of its own.
#[derive(Drop)]
struct Shelf {
    cache: Cache,
    cell: ItemCell,
}

impl Model for Shelf {
    ghost use Rattle.value_cache.specs.Cells.{CellView, IsIn};
    ghost use Rattle.value_cache.specs.Tokens.{CacheId};

    ghost Value = { CacheId × CellView };

    ghost view = { λ s. (s.cache, s.cell) };

    ghost invariant = { λ s. IsIn s.cache s.cell };
}

/// A value with a number.
fn value(alloc: Global, number: u64) -> Result<Stored, OutOfMemory> {
    let text = Text::of(alloc, "v")?;
    Ok(Stored {
        time: Moment::zero(),
        number,
        value: Held::Words(text),
    })
}

/// Inserts a value.
fn put(shelf: &mut Shelf, stored: Stored) -> Result<(), OutOfMemory> {
    match shelf.cell.insert(&shelf.cache, stored, Moment::zero()) {
        Ok(()) => Ok(()),
        Err(refused) => {
            drop(refused);
            Err(OutOfMemory)
        }
    }
}

/// A cell that keeps three values, with the last of so many.
fn filled(alloc: Global, count: u64) -> Result<Shelf, OutOfMemory> {
    let keep = Keep {
        count: 3,
        period: 0,
    };
    let mut shelf = Shelf {
        cache: Cache::new(alloc)?,
        cell: ItemCell::new(alloc, keep),
    };
    for number in 0..count {
        put(&mut shelf, value(alloc, number)?)?;
    }
    Ok(shelf)
}

/// Adds values of no cell to the cache.
fn add(alloc: Global, cache: &Cache, count: u64) -> Result<(), OutOfMemory> {
    for number in 0..count {
        match cache.push(value(alloc, number)?) {
            Ok(token) => drop(token),
            Err(refused) => {
                drop(refused);
                return Err(OutOfMemory);
            }
        }
    }
    Ok(())
}

/// The sum of the numbers of a cell's latest three values.
fn latest(alloc: Global, shelf: &Shelf) -> Result<u64, OutOfMemory> {
    let window = shelf
        .cell
        .window(alloc, &shelf.cache, Range::Count(3), 0, Moment::zero())?;
    let mut sum: u64 = 0;
    for stored in window.as_slice() {
        sum = sum.saturating_add(stored.number);
    }
    Ok(sum)
}

/// Adds values of no cell while another thread does the same, and then sums up the latest three of the cell.
fn read_beside(alloc: Global, shelf: &Shelf) -> Result<u64, OutOfMemory> {
    add(alloc, &shelf.cache, 1000)?;
    latest(alloc, shelf)
}

fn read_by_two<R: Threads>(rt: &R, alloc: Global) -> Result<bool, OutOfMemory> {
    let shelf = filled(alloc, 9)?;
    let (one, other) = join(
        rt,
        || read_beside(alloc, &shelf),
        || read_beside(alloc, &shelf),
    );
    let one = one?;
    let other = other?;
    Ok(one == 21 && other == 21)
}

#[test]
fn two_threads_read_one_cell_through_one_cache(rt: HostRuntime) -> Result<(), Fail> {
    let alloc = rt.alloc();
    assert!(rt; read_by_two(&rt, alloc)?);
    Ok(())
}
