//! The lengths of chains of links.

ghost use Rattle.std.specs.Prelude.{◌≡◌, ◌≤◌, ◌<◌, ℕ, [], length, map, get_or, All, IfOk, IsTrue};
ghost use Rattle.dependency_graph.specs.Depths.{depths_of};
ghost use Rattle.dependency_graph.specs.Tables.{next_depth, AreDepths};

use crate::visits::visit_all;
use std::alloc::Global;
use zbx_types::{Many, OutOfMemory};

/// The depth of a thing; 0 where it has none.
fn depth_of(depths: &[u32], thing: usize) -> u32
    ensures { result ≡ get_or depths.now thing 0 }
{
    match depths.get(thing) {
        None => 0,
        Some(depth) => *depth,
    }
}

/// One more than the greatest depth of some things, and 0 of none.
fn next_depth(depths: &[u32], ends: &[usize]) -> u64
    ensures { result ≡ next_depth depths.now ends.now }
{
    let mut next = 0;
    for end in ends {
        next = next.max(u64::from(depth_of(depths, *end)) + 1);
    }
    next
}

/// Depths of the things, each from those of the things before it in an order. They are right where it has each thing behind
/// those that it has links to.
fn along(alloc: Global, links: &[Many<usize>], order: &[usize]) -> Result<Vec<u32>, OutOfMemory> {
    let mut depths = vec![in alloc; 0u32; links.len()]?;
    for thing in order {
        if let Some(ends) = links.get(*thing) {
            let next = next_depth(&depths, ends.as_slice());
            if *thing < depths.len() {
                depths[*thing] = u32::try_from(next).unwrap_or(u32::MAX);
            }
        }
    }
    Ok(depths)
}

/// Whether each thing is one deeper than the deepest that it has a link to.
fn follow(links: &[Many<usize>], depths: &[u32]) -> bool
    ensures { IsTrue result → (k : ℕ) → k < length links.now → get_or depths.now k 0 ≡ next_depth depths.now (get_or links.now k []) }
{
    for (thing, ends) in links.iter().enumerate() {
        if u64::from(depth_of(depths, thing)) != next_depth(depths, ends.as_slice()) {
            return false;
        }
    }
    true
}

/// Whether no depth is above a number.
fn none_above(depths: &[u32], most: usize) -> bool
    ensures { IsTrue result → All (λ d. d ≤ most) depths.now }
{
    depths.iter().all(|depth| *depth as usize <= most)
}

/// Whether these are the depths.
fn are_depths(links: &[Many<usize>], depths: &[u32]) -> bool
    ensures { IsTrue result → AreDepths links.now depths.now }
{
    depths.len() == links.len() && follow(links, depths) && none_above(depths, links.len())
}

/// A length that is kept in 32 bits.
fn kept(length: u64) -> Result<u32, OutOfMemory>
    ensures { IfOk result (λ kept. kept ≡ length) }
{
    if length <= u64::from(u32::MAX) {
        Ok(length as u32)
    } else {
        Err(OutOfMemory)
    }
}

/// The depths among chains of one link more.
fn longer(alloc: Global, links: &[Many<usize>], depths: &[u32]) -> Result<Many<u32>, OutOfMemory>
    ensures { IfOk result (λ made. made ≡ map (next_depth depths.now) links.now) }
{
    let mut made = Many::new(alloc);
    for ends in links {
        made.push(kept(next_depth(depths, ends.as_slice()))?)?;
    }
    Ok(made)
}

/// The depths, among chains of one link more at each round.
#[tactic(auto, using(crate::proofs::Settled::by_each))]
fn by_rounds(alloc: Global, links: &[Many<usize>]) -> Result<Many<u32>, OutOfMemory>
    ensures { IfOk result (λ made. made ≡ depths_of links.now) }
{
    let mut depths = Many::from_vec(vec![in alloc; 0u32; links.len()]?);
    for _round in 0..links.len() {
        depths = longer(alloc, links, depths.as_slice())?;
    }
    Ok(depths)
}

/// For each thing the length of the longest chain of links from it: 0 where it has no link. Where links lead in a cycle
/// no chain is the longest: then only those of at most as many links as there are things count.
///
/// [`OutOfMemory`] may come on any links, and says nothing of them. `links` has for each thing the places of those that it
/// has links to. Where no link lies on a cycle, the time is linear in the things and their links.
#[tactic(auto, using(crate::proofs::Settled::settled_depths))]
pub fn depths(alloc: Global, links: &[Many<usize>]) -> Result<Many<u32>, OutOfMemory>
    ensures { IfOk result (λ depths. depths ≡ depths_of links.now) }
{
    let order = visit_all(alloc, links)?.closed;
    let depths = along(alloc, links, &order)?;
    if are_depths(links, &depths) {
        return Ok(Many::from_vec(depths));
    }
    by_rounds(alloc, links)
}
