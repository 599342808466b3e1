//! The cells of a run that begins with a base.

ghost use Rattle.std.specs.Prelude.{◌≡◌, [], IfOk, OnErr};
ghost use Rattle.std.specs.Arc.{arc_value};
ghost use Rattle.base_laws.specs.Bases.{base_stage, told_start};
ghost use Rattle.base_laws.specs.FitsBase.{FitsBase};
ghost use Rattle.entry_step.specs.Represents.{Holds};

use crate::problems::{origins_of, rows_of};
use crate::values::items_of;
use conf_index::Ready;
use entry_step::Cells;
use std::alloc::Global;
use std::sync::Arc;
use value_cache::Cache;
use zbx_types::{Base, OutOfMemory};

/// The cells, where a configuration knows where the base's problems come from.
#[tactic(auto, using(crate::proofs::Restored::restored))]
fn cells_of(
    alloc: Global,
    ready: &Ready,
    base: &Base,
    cache: Arc<Cache>,
) -> Result<Cells, OutOfMemory>
    requires fits { FitsBase ready.now.conf base.now }
    requires known { ready.now ≡ base_stage ready.now.conf base.now }
    ensures holds { IfOk result (λ cells. Holds (told_start ready.now.conf base.entry.now) cells []) }
    ensures cache { IfOk result (λ cells. cells.cache ≡ arc_value cache) }
{
    let rows = rows_of(alloc, ready.stage(), base)?;
    let items = items_of(alloc, &cache, ready.conf(), base)?;
    Ok(Cells::of(items, rows, base.first_tick, cache))
}

/// The cells of a run that begins with a base, as if it had read the entries in whose place the base stands. Their values
/// stand in the cache. The configuration, that of the base's text, learns where the base's problems come from.
///
/// [`OutOfMemory`] where there is no room for them; the configuration is then as before. It takes time by the number of
/// items, triggers, values and open problems, and the lengths of their names.
pub fn restore(
    alloc: Global,
    ready: &mut Ready,
    base: &Base,
    cache: Arc<Cache>,
) -> Result<Cells, OutOfMemory>
    requires fits { FitsBase ready.old.conf base.now }
    requires none { ready.old.origins ≡ [] }
    ensures stage { IfOk result (λ cells. ready.new ≡ base_stage ready.old.conf base.entry.now) }
    ensures holds { IfOk result (λ cells. Holds (told_start ready.old.conf base.entry.now) cells []) }
    ensures cache { IfOk result (λ cells. cells.cache ≡ arc_value cache) }
    ensures err { OnErr result (ready.new ≡ ready.old) }
{
    let told = ready.known(alloc, origins_of(alloc, base.problems.as_slice())?)?;
    ready.know(told);
    match cells_of(alloc, ready, base, cache) {
        Ok(cells) => Ok(cells),
        Err(OutOfMemory) => {
            ready.know(None);
            Err(OutOfMemory)
        }
    }
}
