//! The values of the calls of a trigger.

ghost use Rattle.std.specs.Prelude.{◌≡◌, ℕ, List, Some, IfOk, IfSome, option_copied, option_map, slice_get};
ghost use Rattle.zbx_types.specs.Ids.{at_id};
ghost use Rattle.zbx_types.specs.Operators.{call_pattern};
ghost use Rattle.zbx_types.specs.declared.entries.Stored.{Stored};
ghost use Rattle.value_cache.specs.Cells.{IsIn, IsWithin};
ghost use Rattle.value_cache.specs.Keeps.{keep_of};
ghost use Rattle.value_cache.specs.Tokens.{IsOf};
ghost use Rattle.value_cache.specs.Windows.{window_of};
ghost use Rattle.history_functions.specs.Functions.{value_of};
ghost use Rattle.entry_step.specs.Kept.{still_to_come, Sees};
ghost use Rattle.entry_step.specs.Calls.{Shown, values_of, AreCached, AreValues};

use crate::calls::Calls;
use history_functions::value_at;
use std::alloc::Global;
use value_cache::laws::asks_within;
use value_cache::{ItemCell, Token, Values};
use zbx_types::{Call, Fix, Many, OutOfMemory, Trigger, by_id};

/// The value of a call over a window.
fn value_over(
    alloc: Global,
    calls: &Calls,
    call: &Call,
    pattern: u32,
    window: &Values,
) -> Result<Option<Fix>, OutOfMemory>
    requires { at_id calls.now.ready.now.conf.patterns pattern ≡ call_pattern call.now }
    ensures { IfOk result (λ v. v ≡ value_of call.now window.now calls.now.occasion.now calls.now.occasion.tick
        calls.now.ready.now.conf.utc_offset) }
{
    value_at(
        alloc,
        call,
        pattern,
        window,
        calls.occasion.now,
        calls.occasion.tick,
        calls.ready.offset(),
        calls.ready.patterns(),
    )
}

/// The token of the value of an item that is still to come.
pub(crate) fn still_to_come<'a>(calls: &Calls<'a>, id: u32) -> Option<&'a Token>
    requires { AreCached calls.now }
    ensures value { option_map (λ t. t.value) (option_copied result) ≡ still_to_come calls.now.coming.now id }
    ensures of { IfSome result (λ t. IsOf calls.now.cache.now t.now) }
{
    match calls.coming {
        None => None,
        Some(draft) => draft.token(id),
    }
}

/// The value of a call over the cell of its item.
fn value_in(
    alloc: Global,
    calls: &Calls,
    call: &Call,
    pattern: u32,
    cell: &ItemCell,
    token: Option<&Token>,
) -> Result<Option<Fix>, OutOfMemory>
    requires pattern { at_id calls.now.ready.now.conf.patterns pattern ≡ call_pattern call.now }
    requires cell { IsIn calls.now.cache.now cell.now }
    requires token { IfSome token (λ t. IsOf calls.now.cache.now t.now) }
    ensures { IfOk result (λ v. (id : ℕ) (history : List Stored)
        → Sees calls.now.ready.now.conf id (Some cell.now) (option_map (λ t. t.value) (option_copied token.entry))
        calls.now.occasion.now history
        → IsWithin (keep_of calls.now.ready.now.conf id) call.now.range call.now.shift
        → v ≡ value_of call.now (window_of call.now.range call.now.shift calls.now.occasion.now history)
        calls.now.occasion.now calls.now.occasion.tick calls.now.ready.now.conf.utc_offset) }
{
    let cache = calls.cache;
    match token {
        None => {
            let window = cell.window_slice(call.range, call.shift, calls.occasion.now);
            value_over(alloc, calls, call, pattern, &Values::cached(cache, window))
        }
        Some(token) => {
            let window = cell.window_with(token, call.range, call.shift, calls.occasion.now);
            value_over(alloc, calls, call, pattern, &Values::seen(cache, window))
        }
    }
}

/// A call of a trigger, by its place.
fn call_at(trigger: &Trigger, place: usize) -> Option<&Call>
    ensures { option_copied result ≡ slice_get trigger.now.calls place }
{
    trigger.calls.as_slice().get(place)
}

/// The id of a call's item, by the call's place.
fn item_at(trigger: &Trigger, place: usize) -> Option<u32>
    ensures { result ≡ slice_get trigger.now.call_items place }
{
    match trigger.call_items.as_slice().get(place) {
        None => None,
        Some(item) => Some(*item),
    }
}

/// The value of a call, by its place, over what is kept of its item.
fn call_value(alloc: Global, calls: &Calls, place: usize) -> Result<Option<Fix>, OutOfMemory>
    requires cached { AreCached calls.now }
    requires trigger { at_id calls.now.ready.now.conf.triggers calls.now.id ≡ Some calls.now.trigger.now }
    ensures { IfOk result (λ v. (items : ℕ → List Stored) → Shown calls.now items
        → v ≡ values_of calls.now items place) }
{
    let Some(call) = call_at(calls.trigger, place) else {
        return Ok(None);
    };
    let Some(item) = item_at(calls.trigger, place) else {
        return Ok(None);
    };
    asks_within();
    let pattern = calls.ready.place_of(calls.id, place);
    match by_id(calls.items, item) {
        None => value_over(alloc, calls, call, pattern, &Values::plain(&[])),
        Some(cell) => {
            let token = still_to_come(calls, item);
            value_in(alloc, calls, call, pattern, cell, token)
        }
    }
}

/// The values of the calls, by their places.
pub(crate) fn values_of(alloc: Global, calls: &Calls) -> Result<Many<Option<Fix>>, OutOfMemory>
    requires cached { AreCached calls.now }
    requires trigger { at_id calls.now.ready.now.conf.triggers calls.now.id ≡ Some calls.now.trigger.now }
    ensures { IfOk result (AreValues calls.now) }
{
    let mut values = Many::new(alloc);
    for place in 0..calls.trigger.calls.len() {
        values.push(call_value(alloc, calls, place)?)?;
    }
    Ok(values)
}
