//! The values that the events of a trigger show.

ghost use Rattle.std.specs.Prelude.{◌≡◌, ℕ, List, length, take, Some, IfOk, IfSome, option_copied, option_map};
ghost use Rattle.zbx_types.specs.Ids.{at_id};
ghost use Rattle.zbx_types.specs.declared.calls.Range.TheVariants.{Count};
ghost use Rattle.zbx_types.specs.declared.entries.Stored.{Stored};
ghost use Rattle.value_cache.specs.Cells.{IsIn, IsWithin};
ghost use Rattle.value_cache.specs.Tokens.{IsOf};
ghost use Rattle.value_cache.specs.Keeps.{keep_of};
ghost use Rattle.entry_step.specs.Kept.{Sees, IsCalled};
ghost use Rattle.entry_step.specs.Seen.{first_held, latest_in};
ghost use Rattle.entry_step.specs.Calls.{Shown, AreCached, AreShown};

use crate::call_values::still_to_come;
use crate::calls::Calls;
use std::alloc::Global;
use value_cache::laws::asks_within;
use value_cache::{ItemCell, Token, Values};
use zbx_types::{Held, Many, OutOfMemory, Range, Trigger, by_id};

/// The value of the first of a window.
fn first_held(alloc: Global, window: &Values) -> Result<Option<Held>, OutOfMemory>
    ensures { IfOk result (λ made. made ≡ first_held window.now) }
{
    match window.get(0) {
        None => Ok(None),
        Some(stored) => Ok(Some(stored.value.copy(alloc)?)),
    }
}

/// The latest value of an item, by its cell.
fn latest_in(
    alloc: Global,
    calls: &Calls,
    cell: &ItemCell,
    token: Option<&Token>,
) -> Result<Option<Held>, OutOfMemory>
    requires cell { IsIn calls.now.cache.now cell.now }
    requires token { IfSome token (λ t. IsOf calls.now.cache.now t.now) }
    ensures { IfOk result (λ made. (id : ℕ) (history : List Stored)
        → Sees calls.now.ready.now.conf id (Some cell.now) (option_map (λ t. t.value) (option_copied token.entry))
        calls.now.occasion.now history
        → IsWithin (keep_of calls.now.ready.now.conf id) (Count 1) 0
        → made ≡ latest_in calls.now.occasion.now history) }
{
    let cache = calls.cache;
    match token {
        None => {
            let window = cell.window_slice(Range::Count(1), 0, calls.occasion.now);
            first_held(alloc, &Values::cached(cache, window))
        }
        Some(token) => {
            let window = cell.window_with(token, Range::Count(1), 0, calls.occasion.now);
            first_held(alloc, &Values::seen(cache, window))
        }
    }
}

/// The latest value of the item with an id, where the trigger has a call over it.
fn latest_of(alloc: Global, calls: &Calls, item: u32) -> Result<Option<Held>, OutOfMemory>
    requires { AreCached calls.now }
    ensures { IfOk result (λ made. (items : ℕ → List Stored) → Shown calls.now items
        → IsCalled calls.now.ready.now.conf calls.now.id item → IsWithin (keep_of calls.now.ready.now.conf item) (Count 1) 0
        → made ≡ latest_in calls.now.occasion.now (items item)) }
{
    match by_id(calls.items, item) {
        None => Ok(None),
        Some(cell) => {
            let token = still_to_come(calls, item);
            latest_in(alloc, calls, cell, token)
        }
    }
}

/// The ids of the items of the trigger's calls, in the order of the calls.
fn items_of(trigger: &Trigger) -> &[u32]
    ensures { result.now ≡ take (length trigger.now.calls) trigger.now.call_items }
{
    let items = trigger.call_items.as_slice();
    if items.len() <= trigger.calls.len() {
        items
    } else {
        &items[..trigger.calls.len()]
    }
}

/// The latest values of the items of the trigger's history calls, in the order of the calls.
pub(crate) fn shown_values(alloc: Global, calls: &Calls) -> Result<Many<Option<Held>>, OutOfMemory>
    requires cached { AreCached calls.now }
    requires trigger { at_id calls.now.ready.now.conf.triggers calls.now.id ≡ Some calls.now.trigger.now }
    ensures { IfOk result (AreShown calls.now) }
{
    let mut made = Many::new(alloc);
    asks_within();
    for item in items_of(calls.trigger) {
        if *item != 0 {
            made.push(latest_of(alloc, calls, *item)?)?;
        }
    }
    Ok(made)
}
