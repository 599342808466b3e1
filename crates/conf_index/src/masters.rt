//! The masters of each trigger.

ghost use Rattle.std.specs.Prelude.{◌≡◌, ℕ, IfOk};
ghost use Rattle.zbx_types.specs.Masters.{masters_of};
ghost use Rattle.conf_index.specs.Index.{listed};
ghost use Rattle.conf_index.specs.Packed.{row_at};

use crate::packed::{Packed, pack};
use std::alloc::Global;
use zbx_types::{Conf, Many, OutOfMemory, depths_fall, id_of, masters};

/// The masters of each trigger, by ids. Where depths don't fall along dependencies, there is no room for their walks.
fn rows_of(alloc: Global, conf: &Conf) -> Result<Vec<Many<u32>>, OutOfMemory>
    ensures { IfOk result (λ rows. (id : ℕ) → listed rows.items id ≡ masters_of conf.now id) }
{
    if !depths_fall(conf) {
        return Err(OutOfMemory);
    }
    let mut rows = Vec::new(alloc);
    rows.push(Many::new(alloc))?;
    for place in 0..conf.triggers.len() {
        rows.push(masters(alloc, conf, id_of(place)?)?)?;
    }
    Ok(rows)
}

/// The masters of each trigger, by ids, one list behind another.
pub(crate) fn masters_of_all(alloc: Global, conf: &Conf) -> Result<Packed<u32>, OutOfMemory>
    ensures { IfOk result (λ made. (id : ℕ) → row_at made.starts made.items id ≡ masters_of conf.now id) }
{
    let rows = rows_of(alloc, conf)?;
    pack(alloc, rows.as_slice())
}
