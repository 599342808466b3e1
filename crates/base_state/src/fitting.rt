//! Whether a base fits a configuration.

ghost use Rattle.std.specs.Prelude.{◌≡◌, ◌↔◌, IsTrue, IfOk};
ghost use Rattle.value_cache.specs.Keeps.{keeps_of};
ghost use Rattle.base_laws.specs.FitsBase.{FitTicks, FitsBase};
ghost use Rattle.base_state.specs.Fitting.{FitsAt, FitItems};

use crate::fitting_items::item_fits;
use crate::fitting_problems::problems_fit;
use std::alloc::Global;
use value_cache::{Keep, keeps};
use zbx_types::{Base, Conf, Moment, OutOfMemory, by_id, id_of};

/// The greatest number of an entry, and the most bytes of lines, that a base has.
const MOST_COUNTED: u64 = 9_000_000_000_000_000_000;

/// Whether the first and the last Tick are there or neither is, and stand in their order before a moment.
fn ticks_fit(now: Moment, first: Option<Moment>, last: Option<Moment>) -> bool
    ensures { IsTrue result ↔ FitTicks now first last }
{
    match (first, last) {
        (None, None) => true,
        (Some(first), Some(last)) => first.nanoseconds() <= last.nanoseconds()
            && last.nanoseconds() <= now.nanoseconds(),
        _ => false,
    }
}

/// Whether what a base keeps of the item with an id fits it, where both are there.
fn fits_at(
    alloc: Global,
    conf: &Conf,
    keeps: &[Keep],
    base: &Base,
    id: u32,
) -> Result<bool, OutOfMemory>
    requires { keeps.now ≡ keeps_of conf.now }
    ensures { IfOk result (λ fits. IsTrue fits ↔ FitsAt conf.now base.entry.now id) }
{
    match by_id(conf.items.as_slice(), id) {
        None => Ok(true),
        Some(item) => match by_id(base.items.as_slice(), id) {
            None => Ok(true),
            Some(kept) => match by_id(keeps, id) {
                None => Ok(true),
                Some(keep) => item_fits(alloc, *keep, base.number, base.now, item, kept),
            },
        },
    }
}

/// Whether what a base keeps of each item fits it.
fn items_fit(alloc: Global, conf: &Conf, base: &Base) -> Result<bool, OutOfMemory>
    ensures { IfOk result (λ fits. IsTrue fits ↔ FitItems conf.now base.entry.now) }
{
    if base.items.len() != conf.items.len() {
        return Ok(false);
    }
    let keeps = keeps(alloc, conf)?;
    for place in 0..base.items.len() {
        let fits = fits_at(alloc, conf, keeps.as_slice(), base, id_of(place)?)?;
        if !fits {
            return Ok(false);
        }
    }
    Ok(true)
}

/// Whether a base fits the configuration that its text stands for: its numbers and moments can be counted and stand in
/// their order, what it keeps of each item and each open problem fits, and its problems stand in the order of their entries.
///
/// [`OutOfMemory`] where there is no room to look. It takes time by the number of items, triggers, values and open problems,
/// and the lengths of their texts.
pub fn fits(alloc: Global, conf: &Conf, base: &Base) -> Result<bool, OutOfMemory>
    ensures { IfOk result (λ fits. IsTrue fits ↔ FitsBase conf.now base.entry.now) }
{
    if base.number > MOST_COUNTED || base.lines > MOST_COUNTED {
        return Ok(false);
    }
    if !ticks_fit(base.now, base.first_tick, base.last_tick) {
        return Ok(false);
    }
    let items = items_fit(alloc, conf, base)?;
    if !items {
        return Ok(false);
    }
    problems_fit(alloc, conf, base.number, base.now, base.problems.as_slice())
}
