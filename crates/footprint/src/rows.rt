//! Rows of ids: one row for each id, and an empty one for 0.

ghost use Rattle.std.specs.Prelude.{◌≡◌, ◌+◌, ◌&&◌, ◌∷◌, ◌++◌, [], length, map, replicate, IfOk, OnOk};
ghost use Rattle.std.specs.List.{flat_map};
ghost use Rattle.zbx_types.specs.Masters.{has_id};
ghost use Rattle.footprint.specs.Rows.{row_at, those, is_one, risen, held_by, IsTable, IsNoted, IsTurned};

use std::alloc::Global;
use zbx_types::{Many, OutOfMemory};

/// The row at an id; nothing where there is none.
pub(crate) fn row_at(rows: &[Many<u32>], id: u32) -> &[u32]
    ensures { result.now ≡ row_at rows.now id }
{
    match rows.get(id as usize) {
        None => &[],
        Some(row) => row.as_slice(),
    }
}

/// Those of ascending ids that rise, each once, from 1 to a count.
fn risen(alloc: Global, ids: &[u32], count: usize) -> Result<Many<u32>, OutOfMemory>
    ensures { IfOk result (λ row. row ≡ risen count 0 ids.now) }
{
    let mut row = Many::new(alloc);
    let mut last = 0;
    for id in ids {
        if last < *id && *id as usize <= count {
            row.push(*id)?;
            last = *id;
        }
    }
    Ok(row)
}

/// Those ids of a list that were found, each once, rising; what is no id of the list is left out. [`OutOfMemory`] where
/// there is no room for them.
pub fn settled<T>(alloc: Global, found: Vec<u32>, all: &[T]) -> Result<Many<u32>, OutOfMemory>
    ensures { IfOk result (λ row. row ≡ those all.now (has_id found.items)) }
{
    let mut ids = found;
    ids.sort()?;
    risen(alloc, ids.as_slice(), all.len())
}

/// The rows at some ids, one behind the other.
fn joined(alloc: Global, table: &[Many<u32>], ids: &[u32]) -> Result<Vec<u32>, OutOfMemory>
    ensures { IfOk result (λ made. made.items ≡ flat_map (row_at table.now) ids.now) }
{
    let mut made = Vec::new(alloc);
    for id in ids {
        made.extend_from_slice(row_at(table, *id))?;
    }
    Ok(made)
}

/// Those ids of a list that are in the rows at some ids, rising.
fn gathered<T>(
    alloc: Global,
    table: &[Many<u32>],
    ids: &[u32],
    all: &[T],
) -> Result<Many<u32>, OutOfMemory>
    ensures { IfOk result (λ row. row ≡ held_by all.now table.now ids.now) }
{
    settled(alloc, joined(alloc, table, ids)?, all)
}

/// For each row what the rows at its ids hold.
pub(crate) fn gathered_all<T>(
    alloc: Global,
    table: &[Many<u32>],
    rows: &[Many<u32>],
    all: &[T],
) -> Result<Vec<Many<u32>>, OutOfMemory>
    ensures { IfOk result (λ made. made.items ≡ map (held_by all.now table.now) rows.now) }
{
    let mut made = Vec::new(alloc);
    for row in rows {
        made.push(gathered(alloc, table, row.as_slice(), all)?)?;
    }
    Ok(made)
}

/// An empty row for 0, and one for each id of a list.
fn no_rows<A>(alloc: Global, all: &[A]) -> Result<Vec<Many<u32>>, OutOfMemory>
    ensures { IfOk result (λ rows. rows.items ≡ replicate (length all.now + 1) []) }
{
    let mut rows = Vec::new(alloc);
    rows.push(Many::new(alloc))?;
    for _place in 0..all.len() {
        rows.push(Many::new(alloc))?;
    }
    Ok(rows)
}

/// Adds one to the row at an id, where there is such a row.
fn note(rows: &mut Vec<Many<u32>>, id: u32, one: u32) -> Result<(), OutOfMemory>
    ensures size { OnOk result (length rows.new.items ≡ length rows.old.items) }
    ensures rows { OnOk result (IsNoted rows.old.items (id ∷ []) one rows.new.items) }
{
    let place = id as usize;
    if 0 < id && place < rows.len() {
        rows[place].push(one)?;
    }
    Ok(())
}

/// Adds one to the rows at these ids.
fn enter(rows: &mut Vec<Many<u32>>, ids: &[u32], one: u32) -> Result<(), OutOfMemory>
    ensures size { OnOk result (length rows.new.items ≡ length rows.old.items) }
    ensures rows { OnOk result (IsNoted rows.old.items ids.now one rows.new.items) }
{
    for id in ids {
        note(rows, *id, one)?;
    }
    Ok(())
}

/// A place as an id. [`OutOfMemory`] where it has none in 32 bits.
fn id_at(place: usize) -> Result<u32, OutOfMemory>
    ensures { IfOk result (λ id. id ≡ place) }
{
    if place <= u32::MAX as usize {
        Ok(place as u32)
    } else {
        Err(OutOfMemory)
    }
}

/// For each id of a list the ids of the rows that hold it.
fn turned<A>(alloc: Global, rows: &[Many<u32>], all: &[A]) -> Result<Vec<Many<u32>>, OutOfMemory>
    ensures { IfOk result (λ made. IsTurned (length all.now + 1) (length rows.now) rows.now made.items) }
{
    let mut made = no_rows(alloc, all)?;
    for place in 0..rows.len() {
        let id = id_at(place)?;
        enter(&mut made, row_at(rows, id), id)?;
    }
    Ok(made)
}

/// The rows, each with those ids of a list that it holds, rising.
fn settled_all<T>(
    alloc: Global,
    rows: &[Many<u32>],
    all: &[T],
) -> Result<Vec<Many<u32>>, OutOfMemory>
    ensures { IfOk result (λ made. made.items ≡ map (λ row. those all.now (has_id row)) rows.now) }
{
    let mut made = Vec::new(alloc);
    for row in rows {
        made.push(settled(alloc, Vec::from_slice(alloc, row.as_slice())?, all)?)?;
    }
    Ok(made)
}

/// For each id of a list the ids of another list whose rows hold it, rising.
pub(crate) fn inverse<A, B>(
    alloc: Global,
    rows: &[Many<u32>],
    all: &[A],
    from: &[B],
) -> Result<Vec<Many<u32>>, OutOfMemory>
    requires { length rows.now ≡ length from.now + 1 }
    ensures { IfOk result (λ made. IsTable made.items (λ id. those from.now (λ one. is_one all.now id && has_id (row_at rows.now one) id))) }
{
    let turned = turned(alloc, rows, all)?;
    let made = settled_all(alloc, turned.as_slice(), from)?;
    Ok(made)
}

/// Those ids of a list that are in one of two rows, rising.
fn united<T>(
    alloc: Global,
    first: &[u32],
    second: &[u32],
    all: &[T],
) -> Result<Many<u32>, OutOfMemory>
    ensures { IfOk result (λ row. row ≡ those all.now (has_id (first.now ++ second.now))) }
{
    let mut ids = Vec::from_slice(alloc, first)?;
    ids.extend_from_slice(second)?;
    settled(alloc, ids, all)
}

/// For each id what the rows of two tables hold.
pub(crate) fn united_all<T>(
    alloc: Global,
    first: &[Many<u32>],
    second: &[Many<u32>],
    all: &[T],
) -> Result<Vec<Many<u32>>, OutOfMemory>
    requires { length second.now ≡ length first.now }
    ensures { IfOk result (λ made. IsTable made.items (λ id. those all.now (has_id (row_at first.now id ++ row_at second.now id)))) }
{
    let mut made = Vec::new(alloc);
    for place in 0..first.len() {
        let id = id_at(place)?;
        made.push(united(alloc, row_at(first, id), row_at(second, id), all)?)?;
    }
    Ok(made)
}
