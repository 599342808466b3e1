//! Lists of ids by numbers, such as the ids of items. A number stands for the place of its list.

ghost use Rattle.std.specs.Prelude.{◌≡◌, ◌++◌, ◌<◌, ◌∷◌, [], ◌==◌, ℕ, length, replicate, slice_set, OnOk, if◌then◌else◌};
ghost use Rattle.conf_index.specs.Index.{listed};

use std::alloc::Global;
use zbx_types::{Many, OutOfMemory};

/// Adds so many empty lists.
fn widen(alloc: Global, rows: &mut Vec<Many<u32>>, more: usize) -> Result<(), OutOfMemory>
    ensures { OnOk result (rows.new.items ≡ rows.old.items ++ replicate more []) }
{
    for _row in 0..more {
        rows.push(Many::new(alloc))?;
    }
    Ok(())
}

/// Makes room for the list of a number.
fn reach(alloc: Global, rows: &mut Vec<Many<u32>>, number: u32) -> Result<(), OutOfMemory>
    ensures room { OnOk result (number < length rows.new.items) }
    ensures same { OnOk result ((n : ℕ) → listed rows.new.items n ≡ listed rows.old.items n) }
{
    let size = number as usize + 1;
    widen(alloc, rows, size.saturating_sub(rows.len()))
}

/// Adds an id to the list of a number that has a list.
fn add(rows: &mut Vec<Many<u32>>, number: u32, id: u32) -> Result<(), OutOfMemory>
    requires { number < length rows.old.items }
    ensures { OnOk result (rows.new.items ≡ slice_set rows.old.items number (listed rows.old.items number ++ id ∷ [])) }
{
    rows[number as usize].push(id)?;
    Ok(())
}

/// Adds an id to the list of a number.
pub(crate) fn enter(
    alloc: Global,
    rows: &mut Vec<Many<u32>>,
    number: u32,
    id: u32,
) -> Result<(), OutOfMemory>
    ensures { OnOk result ((n : ℕ) → listed rows.new.items
        n ≡ (if number == n then listed rows.old.items n ++ id ∷ [] else listed rows.old.items n)) }
{
    reach(alloc, rows, number)?;
    add(rows, number, id)
}

/// The list of a number.
pub(crate) fn listed(rows: &[Many<u32>], number: usize) -> &[u32]
    ensures { result.now ≡ listed rows.now number }
{
    match rows.get(number) {
        None => &[],
        Some(ids) => ids.as_slice(),
    }
}
