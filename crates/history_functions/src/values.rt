//! The values of a window.

ghost use Rattle.std.specs.Prelude.{◌≡◌, ◌≤◌, ◌<◌, ◌++◌, [], Some, length, slice_get, if◌then◌else◌, IfOk, OnOk};
ghost use Rattle.std.specs.List.{cons_option};
ghost use Rattle.std.specs.Option.{option_copied};
ghost use Rattle.history_functions.specs.Values.{numbers, number_in, nth_last, whole};

use std::alloc::Global;
use value_cache::Values;
use zbx_types::{Fix, Held, Many, OutOfMemory, Stored};

/// The value at a place, counted from 0.
#[tactic(auto, using(crate::proofs::Looking::none_past))]
pub(crate) fn stored_at<'a>(window: &Values<'a>, place: usize) -> &'a Stored
    requires { place < length window.now }
    ensures { slice_get window.now place ≡ Some result.now }
{
    match window.get(place) {
        Some(stored) => stored,
        None => unreachable!(),
    }
}

/// The number at a place, if the value there is one.
pub(crate) fn number_at(window: &Values, place: usize) -> Option<Fix>
    requires { place < length window.now }
    ensures { result ≡ number_in (slice_get window.now place) }
{
    match &stored_at(window, place).value {
        Held::Number(number) => Some(*number),
        Held::Words(_) => None,
    }
}

/// Adds a number to some, if it is there.
fn add_number(made: &mut Many<Fix>, number: Option<Fix>) -> Result<(), OutOfMemory>
    ensures { OnOk result (made.new ≡ made.old ++ cons_option number []) }
{
    if let Some(number) = number {
        made.push(number)?;
    }
    Ok(())
}

/// The numbers among the values, in their order.
pub(crate) fn numbers(alloc: Global, window: &Values) -> Result<Many<Fix>, OutOfMemory>
    ensures { IfOk result (λ made. made ≡ numbers window.now) }
{
    let mut made = Many::new(alloc);
    for place in 0..window.len() {
        add_number(&mut made, number_at(window, place))?;
    }
    Ok(made)
}

/// The n-th value from the end, where 1 is the last.
#[tactic(auto, unfolding(zbx_types::specs::Ids::at_id))]
pub(crate) fn nth_last<'a>(window: &Values<'a>, n: u32) -> Option<&'a Stored>
    ensures { option_copied result ≡ nth_last n window.now }
{
    if n == 0 {
        return None;
    }
    let place = window.len().checked_sub(n as usize)?;
    window.get(place)
}

/// 1 where it is so, else 0.
pub(crate) fn one_if(is_so: bool) -> usize
    ensures is { result ≡ (if is_so then 1 else 0) }
    ensures most { result ≤ 1 }
{
    if is_so { 1 } else { 0 }
}

/// A whole number.
#[tactic(auto, unfolding(zbx_types::specs::Arithmetic::in_range))]
pub(crate) fn whole(number: u64) -> Option<Fix>
    ensures { result ≡ whole number }
{
    Fix::of_raw(i128::from(number) * 1_000_000)
}
