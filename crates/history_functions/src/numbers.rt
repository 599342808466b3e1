//! Functions of the numbers of a window. They look the window through where it stands.

ghost use Rattle.std.specs.Prelude.{◌≡◌, ◌+◌, ◌*◌, ℤ, pos, ◌+ℤ◌, List, Some, length, slice_get, is_some, if◌then◌else◌, IfOk, IfErr, MatchOption};
ghost use Rattle.std.specs.List.{cons_option};
ghost use Rattle.zbx_types.specs.Arithmetic.{in_range, quotient_of};
ghost use Rattle.zbx_types.specs.Numbers.{total};
ghost use Rattle.history_functions.specs.Numbers.{last_of, first_of, lesser, greater, min_of, max_of, sum_of_numbers, avg_of};
ghost use Rattle.history_functions.specs.Values.{numbers, nth_last};

use crate::values::{number_at, one_if};
use value_cache::Values;
use zbx_types::{Fix, OutOfMemory, Range};

/// How many numbers there are.
fn count(window: &Values) -> usize
    ensures { result ≡ length (numbers window.now) }
{
    let mut count = 0;
    for place in 0..window.len() {
        count += one_if(number_at(window, place).is_some());
    }
    count
}

/// A number, where so many are to be passed before the one that is sought: that one, or how many are left.
fn looked_at(number: Option<Fix>, left: usize) -> Result<Fix, usize>
    ensures found { (zs : List ℤ) → IfOk result (λ z. slice_get (cons_option number zs) left ≡ Some z) }
    ensures passed { (zs : List ℤ) → IfErr result (λ less. slice_get (cons_option number zs) left ≡ slice_get zs less) }
{
    match number {
        None => Err(left),
        Some(number) => match left.checked_sub(1) {
            None => Ok(number),
            Some(less) => Err(less),
        },
    }
}

/// The number at a place among the numbers, counted from 0.
#[tactic(auto, using(crate::proofs::Looking::nth_none))]
fn nth(window: &Values, place: usize) -> Option<Fix>
    ensures { result ≡ slice_get (numbers window.now) place }
{
    let mut left = place;
    for index in 0..window.len() {
        match looked_at(number_at(window, index), left) {
            Ok(number) => return Some(number),
            Err(less) => left = less,
        }
    }
    None
}

/// The n-th number from the end, where 1 is the last.
#[tactic(auto, unfolding(zbx_types::specs::Ids::at_id))]
fn nth_last(window: &Values, n: u32) -> Option<Fix>
    ensures { result ≡ nth_last n (numbers window.now) }
{
    if n == 0 {
        return None;
    }
    let place = count(window).checked_sub(n as usize)?;
    nth(window, place)
}

/// `last`: the n-th latest number.
pub(crate) fn last(range: Range, window: &Values) -> Option<Fix>
    ensures { result ≡ last_of range (numbers window.now) }
{
    match range {
        Range::Count(n) => nth_last(window, n),
        Range::Period(_) => None,
    }
}

/// `first`: the oldest number.
#[tactic(auto, unfolding(zbx_types::specs::Ids::at_id))]
pub(crate) fn first(window: &Values) -> Option<Fix>
    ensures { result ≡ first_of (numbers window.now) }
{
    nth(window, 0)
}

/// The less of two numbers, of which none, one or both are there.
fn lesser(one: Option<Fix>, other: Option<Fix>) -> Option<Fix>
    ensures { result ≡ lesser one other }
{
    match (one, other) {
        (None, other) => other,
        (Some(one), None) => Some(one),
        (Some(one), Some(other)) => Some(if other < one { other } else { one }),
    }
}

/// The greater of two numbers, of which none, one or both are there.
fn greater(one: Option<Fix>, other: Option<Fix>) -> Option<Fix>
    ensures { result ≡ greater one other }
{
    match (one, other) {
        (None, other) => other,
        (Some(one), None) => Some(one),
        (Some(one), Some(other)) => Some(if one < other { other } else { one }),
    }
}

/// `min`: the least number.
#[tactic(auto, using(crate::proofs::Looking::min_end))]
pub(crate) fn min(window: &Values) -> Option<Fix>
    ensures { result ≡ min_of (numbers window.now) }
{
    let mut least = None;
    for place in 0..window.len() {
        least = lesser(least, number_at(window, place));
    }
    least
}

/// `max`: the greatest number.
#[tactic(auto, using(crate::proofs::Looking::max_end))]
pub(crate) fn max(window: &Values) -> Option<Fix>
    ensures { result ≡ max_of (numbers window.now) }
{
    let mut greatest = None;
    for place in 0..window.len() {
        greatest = greater(greatest, number_at(window, place));
    }
    greatest
}

/// A number of so many millionths, where it is in range.
#[tactic(auto, unfolding(zbx_types::specs::Arithmetic::in_range))]
fn in_range(raw: i128) -> Option<Fix>
    ensures { result ≡ in_range raw }
{
    Fix::of_raw(raw)
}

/// The millionths of the sum of some numbers, exact, and how many they are.
#[derive(Clone, Copy)]
struct Summed {
    total: i128,
    count: usize,
}

/// A sum with one more number, if it is there. Where it doesn't fit 128 bits, it counts as want of memory.
fn with_number(summed: Summed, number: Option<Fix>) -> Result<Summed, OutOfMemory>
    ensures total { IfOk result (λ more. MatchOption number (more.total ≡ summed.total) (λ z. more.total ≡ summed.total +ℤ z)) }
    ensures count { IfOk result (λ more. more.count ≡ summed.count + (if is_some number then 1 else 0)) }
{
    let Some(number) = number else {
        return Ok(summed);
    };
    let Some(total) = summed.total.checked_add(number.raw()) else {
        return Err(OutOfMemory);
    };
    let Some(count) = summed.count.checked_add(1) else {
        return Err(OutOfMemory);
    };
    Ok(Summed { total, count })
}

/// The sum of the numbers. Where a sum on the way doesn't fit 128 bits, which takes more than 10^8 numbers, it counts as
/// want of memory.
fn added_up(window: &Values) -> Result<Summed, OutOfMemory>
    ensures total { IfOk result (λ summed. summed.total ≡ total (numbers window.now)) }
    ensures count { IfOk result (λ summed. summed.count ≡ length (numbers window.now)) }
{
    let mut summed = Summed { total: 0, count: 0 };
    for place in 0..window.len() {
        summed = with_number(summed, number_at(window, place))?;
    }
    Ok(summed)
}

/// `sum`: the sum, exact.
#[tactic(auto, using(crate::proofs::Looking::sum_none, crate::proofs::Looking::sum_some))]
pub(crate) fn sum(window: &Values) -> Result<Option<Fix>, OutOfMemory>
    ensures { IfOk result (λ sum. sum ≡ sum_of_numbers (numbers window.now)) }
{
    let Summed { total, count } = added_up(window)?;
    if count == 0 {
        return Ok(None);
    }
    Ok(in_range(total))
}

/// A sum divided by a count.
#[tactic(auto, unfolding(zbx_types::specs::Arithmetic::quotient_of, zbx_types::specs::Arithmetic::in_range))]
fn divided(sum: Fix, count: usize) -> Option<Fix>
    ensures { result ≡ quotient_of sum (pos (count * 1000000)) }
{
    let divisor = count as i128 * 1_000_000;
    if divisor == 0 {
        return None;
    }
    Fix::of_raw(sum.raw() * 1_000_000 / divisor)
}

/// `avg`: the sum divided by how many there are.
#[tactic(auto, using(crate::proofs::Looking::sum_none, crate::proofs::Looking::sum_some))]
pub(crate) fn avg(window: &Values) -> Result<Option<Fix>, OutOfMemory>
    ensures { IfOk result (λ mean. mean ≡ avg_of (numbers window.now)) }
{
    let Summed { total, count } = added_up(window)?;
    if count == 0 {
        return Ok(None);
    }
    match in_range(total) {
        None => Ok(None),
        Some(sum) => Ok(divided(sum, count)),
    }
}
