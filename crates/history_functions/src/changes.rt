//! Functions of neighbouring values.

ghost use Rattle.std.specs.Prelude.{◌≡◌};
ghost use Rattle.history_functions.specs.Changes.{change_between, change_of, counted_by, number_counts, counts, changes, changecount_of};
ghost use Rattle.history_functions.specs.Changes.{may_rise, is_strict, all_rise, all_fall, monoinc_of, monodec_of};

use crate::values::{nth_last, one_if, stored_at, whole};
use value_cache::Values;
use zbx_types::{Fix, Held, same_text};

/// What `changecount` counts.
#[derive(Clone, Copy)]
pub(crate) enum Counted {
    /// Each value that differs from the one before.
    Every,
    /// Each that is greater.
    Rises,
    /// Each that is less.
    Falls,
}

/// A later value less an earlier one; of texts whether they differ.
fn change_between(later: &Held, earlier: &Held) -> Option<Fix>
    ensures { result ≡ change_between later.now earlier.now }
{
    match (later, earlier) {
        (Held::Number(later), Held::Number(earlier)) => later.sub(*earlier),
        (Held::Words(later), Held::Words(earlier)) => {
            Some(Fix::truth(!same_text(later.as_bytes(), earlier.as_bytes())))
        }
        (Held::Number(_), Held::Words(_)) => None,
        (Held::Words(_), Held::Number(_)) => None,
    }
}

/// `change`: the latest value less the one before.
pub(crate) fn change(window: &Values) -> Option<Fix>
    ensures { result ≡ change_of window.now }
{
    let earlier = nth_last(window, 2)?;
    let later = nth_last(window, 1)?;
    change_between(&later.value, &earlier.value)
}

/// What `changecount` counts, by its mode.
fn counted_by(mode: &[u8]) -> Counted
    ensures { result ≡ counted_by mode.now }
{
    if same_text(mode, b"inc") {
        Counted::Rises
    } else if same_text(mode, b"dec") {
        Counted::Falls
    } else {
        Counted::Every
    }
}

/// Whether a number after an earlier one counts.
fn number_counts(counted: Counted, later: Fix, earlier: Fix) -> bool
    ensures { result ≡ number_counts counted later earlier }
{
    match counted {
        Counted::Every => later != earlier,
        Counted::Rises => earlier < later,
        Counted::Falls => later < earlier,
    }
}

/// Whether a value after an earlier one counts.
fn counts(counted: Counted, later: &Held, earlier: &Held) -> bool
    ensures { result ≡ counts counted later.now earlier.now }
{
    match (later, earlier) {
        (Held::Number(later), Held::Number(earlier)) => number_counts(counted, *later, *earlier),
        (Held::Words(later), Held::Words(earlier)) => {
            !same_text(later.as_bytes(), earlier.as_bytes())
        }
        (Held::Number(_), Held::Words(_)) => true,
        (Held::Words(_), Held::Number(_)) => true,
    }
}

/// How many values count after the one before.
fn count_changes(counted: Counted, window: &Values) -> usize
    ensures { result ≡ changes counted window.now }
{
    let mut count = 0;
    for place in 0..window.len().saturating_sub(1) {
        let earlier = stored_at(window, place);
        let later = stored_at(window, place + 1);
        count += one_if(counts(counted, &later.value, &earlier.value));
    }
    count
}

/// `changecount`: how many values differ from the one before, are greater or are less.
pub(crate) fn changecount(mode: &[u8], window: &Values) -> Option<Fix>
    ensures { result ≡ changecount_of mode.now window.now }
{
    whole(count_changes(counted_by(mode), window) as u64)
}

/// Whether a number may follow an earlier one where the numbers rise.
fn may_rise(strict: bool, earlier: Fix, later: Fix) -> bool
    ensures { result ≡ may_rise strict earlier later }
{
    if strict {
        earlier < later
    } else {
        earlier <= later
    }
}

/// Whether the mode is `strict`.
fn is_strict(mode: &[u8]) -> bool
    ensures { result ≡ is_strict mode.now }
{
    same_text(mode, b"strict")
}

/// Whether all neighbours rise.
#[tactic(auto, unfolding(crate::specs::Changes::all_rise))]
fn all_rise(strict: bool, numbers: &[Fix]) -> bool
    ensures { result ≡ all_rise strict numbers.now }
{
    numbers
        .iter()
        .zip(numbers.iter().skip(1))
        .all(|(earlier, later)| may_rise(strict, *earlier, *later))
}

/// Whether all neighbours fall.
#[tactic(auto, unfolding(crate::specs::Changes::all_fall))]
fn all_fall(strict: bool, numbers: &[Fix]) -> bool
    ensures { result ≡ all_fall strict numbers.now }
{
    numbers
        .iter()
        .zip(numbers.iter().skip(1))
        .all(|(earlier, later)| may_rise(strict, *later, *earlier))
}

/// `monoinc`: whether the numbers rise, strictly or not.
pub(crate) fn monoinc(mode: &[u8], numbers: &[Fix]) -> Option<Fix>
    ensures { result ≡ monoinc_of mode.now numbers.now }
{
    if numbers.is_empty() {
        None
    } else {
        Some(Fix::truth(all_rise(is_strict(mode), numbers)))
    }
}

/// `monodec`: whether the numbers fall, strictly or not.
pub(crate) fn monodec(mode: &[u8], numbers: &[Fix]) -> Option<Fix>
    ensures { result ≡ monodec_of mode.now numbers.now }
{
    if numbers.is_empty() {
        None
    } else {
        Some(Fix::truth(all_fall(is_strict(mode), numbers)))
    }
}
