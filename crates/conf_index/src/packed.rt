//! Lists that lie one behind another in one list, so that a look-up touches little memory.

ghost use Rattle.std.specs.Prelude.{◌≡◌, ◌++◌, ◌∷◌, [], ℕ, length, take, drop, slice_index_or, OnOk, IfOk};
ghost use Rattle.conf_index.specs.Index.{listed};
ghost use Rattle.conf_index.specs.Packed.{row_at};

use std::alloc::Global;
use zbx_types::{Many, OutOfMemory};

/// Lists that lie one behind another in one list, with the place at which each begins. They go by numbers from 0 on.
#[derive(Drop)]
pub(crate) struct Packed<T> {
    pub(crate) starts: Many<u32>,
    pub(crate) items: Many<T>,
}

/// The place at which the list of a number begins, or the end.
fn begin_at(starts: &[u32], number: usize, end: usize) -> usize
    ensures { result ≡ slice_index_or starts.now number end }
{
    match starts.get(number) {
        None => end,
        Some(start) => *start as usize,
    }
}

/// The items from a place on.
fn behind<T>(items: &[T], start: usize) -> &[T]
    ensures { result.now ≡ drop start items.now }
{
    match items.get(start..) {
        None => &[],
        Some(rest) => rest,
    }
}

/// So many items, or all where there are fewer.
fn first<T>(items: &[T], count: usize) -> &[T]
    ensures { result.now ≡ take count items.now }
{
    match items.get(..count) {
        None => items,
        Some(part) => part,
    }
}

/// The list of a number.
pub(crate) fn row<T>(packed: &Packed<T>, number: u32) -> &[T]
    ensures { result.now ≡ row_at packed.now.starts packed.now.items number }
{
    let items = packed.items.as_slice();
    let starts = packed.starts.as_slice();
    let start = begin_at(starts, number as usize, items.len());
    let end = begin_at(starts, number as usize + 1, items.len());
    first(behind(items, start), end.saturating_sub(start))
}

/// Notes that another list begins behind all items.
pub(crate) fn begin<T>(packed: &mut Packed<T>) -> Result<(), OutOfMemory>
    ensures starts { OnOk result (packed.new.starts ≡ packed.old.starts ++ length packed.old.items ∷ []) }
    ensures items { OnOk result (packed.new.items ≡ packed.old.items) }
{
    let start = packed.items.len();
    if start > u32::MAX as usize {
        return Err(OutOfMemory);
    }
    packed.starts.push(start as u32)?;
    Ok(())
}

/// Adds ids.
pub(crate) fn add_all(ids: &mut Many<u32>, more: &[u32]) -> Result<(), OutOfMemory>
    ensures { OnOk result (ids.new ≡ ids.old ++ more.now) }
{
    for id in more {
        ids.push(*id)?;
    }
    Ok(())
}

/// Lists of ids, one behind another.
pub(crate) fn pack(alloc: Global, rows: &[Many<u32>]) -> Result<Packed<u32>, OutOfMemory>
    ensures { IfOk result (λ made. (number : ℕ) → row_at made.starts made.items number ≡ listed rows.now number) }
{
    let mut made = Packed {
        starts: Many::new(alloc),
        items: Many::new(alloc),
    };
    for ids in rows {
        begin(&mut made)?;
        add_all(&mut made.items, ids.as_slice())?;
    }
    Ok(made)
}
