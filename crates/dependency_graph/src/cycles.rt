//! Links that lie on a cycle.

ghost use Rattle.std.specs.Prelude.{◌≡◌, ◌≤◌, ◌<◌, length, get_or, nat_eq, All, IfOk, IsTrue};
ghost use Rattle.std.specs.List.{list_any};
ghost use Rattle.dependency_graph.specs.Cycles.{lies_on_cycle, own_on_cycle, first_on_cycle};
ghost use Rattle.dependency_graph.specs.Tables.{IsClosed, NeverFall};

use crate::visits::visit_all;
use crate::walks::walk;
use std::alloc::Global;
use zbx_types::{Many, OutOfMemory};

/// Where a link stands.
#[derive(Clone, Copy, Debug, PartialEq, Eq)]
pub struct LinkPlace {
    /// The place of the thing that it is of, counted from 0.
    pub from: usize,
    /// Its place among that thing's links, counted from 0.
    pub at: usize,
}

/// The number of a thing; 0 where it has none.
fn number_of(numbers: &[usize], thing: usize) -> usize
    ensures { result ≡ get_or numbers.now thing 0 }
{
    match numbers.get(thing) {
        None => 0,
        Some(number) => *number,
    }
}

/// Whether the numbers of these things aren't below one.
fn none_below(numbers: &[usize], number: usize, ends: &[usize]) -> bool
    ensures { IsTrue result → All (λ t. number ≤ get_or numbers.now t 0) ends.now }
{
    ends.iter().all(|end| number <= number_of(numbers, *end))
}

/// Whether no link leads to a thing with a smaller number.
fn never_fall(links: &[Many<usize>], numbers: &[usize]) -> bool
    ensures { IsTrue result → NeverFall links.now numbers.now }
{
    for (thing, ends) in links.iter().enumerate() {
        if !none_below(numbers, number_of(numbers, thing), ends.as_slice()) {
            return false;
        }
    }
    true
}

/// Numbers of the things by which no link leads to a smaller one, and one that lies on no cycle to a greater one.
fn rising(alloc: Global, links: &[Many<usize>]) -> Result<Vec<usize>, OutOfMemory>
    ensures { IfOk result (λ numbers. NeverFall links.now numbers.items) }
{
    let numbers = visit_all(alloc, links)?.numbers;
    if never_fall(links, &numbers) {
        return Ok(numbers);
    }
    Ok(Vec::new(alloc))
}

/// Whether a place is among some.
fn holds(places: &[usize], place: usize) -> bool
    ensures { result ≡ list_any (nat_eq place) places.now }
{
    for other in places {
        if place == *other {
            return true;
        }
    }
    false
}

/// Whether a link from a thing to one with no smaller number lies on a cycle. A walk shows it, where the numbers don't.
#[tactic(auto, using(crate::proofs::Rising::off_cycle))]
fn lies_on_cycle(
    alloc: Global,
    links: &[Many<usize>],
    numbers: &[usize],
    from: usize,
    end: usize,
) -> Result<bool, OutOfMemory>
    requires closed { IsClosed links.now }
    requires falls { NeverFall links.now numbers.now }
    requires within { end < length links.now }
    ensures { IfOk result (λ lies. lies ≡ lies_on_cycle links.now from end) }
{
    if number_of(numbers, from) < number_of(numbers, end) {
        return Ok(false);
    }
    Ok(holds(walk(alloc, links, &[end])?.as_slice(), from))
}

/// The place of the first of a thing's links that lies on a cycle.
fn own_on_cycle(
    alloc: Global,
    links: &[Many<usize>],
    numbers: &[usize],
    from: usize,
    ends: &[usize],
) -> Result<Option<usize>, OutOfMemory>
    requires closed { IsClosed links.now }
    requires falls { NeverFall links.now numbers.now }
    requires within { All (λ t. t < length links.now) ends.now }
    ensures { IfOk result (λ at. at ≡ own_on_cycle links.now from ends.now) }
{
    for (at, end) in ends.iter().enumerate() {
        if lies_on_cycle(alloc, links, numbers, from, *end)? {
            return Ok(Some(at));
        }
    }
    Ok(None)
}

/// The first link that lies on a cycle: one whose end is the thing that it is of, or leads back to it by links. Things are
/// taken in their order, and each one's links in theirs. None exactly where no link lies on a cycle. [`OutOfMemory`] may
/// come on any links, and says nothing of them.
///
/// `links` has for each thing the places of those that it has links to, and each is the place of a thing. The time is
/// linear in the things and their links.
#[tactic(auto, unfolding(crate::specs::Cycles::first_on_cycle))]
pub fn first_on_cycle(
    alloc: Global,
    links: &[Many<usize>],
) -> Result<Option<LinkPlace>, OutOfMemory>
    requires { IsClosed links.now }
    ensures { IfOk result (λ place. place ≡ first_on_cycle links.now) }
{
    let numbers = rising(alloc, links)?;
    for (from, ends) in links.iter().enumerate() {
        if let Some(at) = own_on_cycle(alloc, links, &numbers, from, ends.as_slice())? {
            return Ok(Some(LinkPlace { from, at }));
        }
    }
    Ok(None)
}
