//! What things lead to.

ghost use Rattle.std.specs.Prelude.{◌≡◌, ◌<◌, ◌++◌, ◌∷◌, [], length, drop, All, IfOk, OnOk};
ghost use Rattle.dependency_graph.specs.Walks.{walk, once_behind, linked_by};
ghost use Rattle.dependency_graph.specs.Tables.{IsClosed, IsTable};

use std::alloc::Global;
use zbx_types::{Many, OutOfMemory};

/// Puts a place at the end of the queue, unless it is in the queue.
fn meet(met: &mut Vec<bool>, queue: &mut Many<usize>, place: usize) -> Result<(), OutOfMemory>
    requires within { place < length met.old.items }
    requires table { IsTable met.old.items queue.old }
    ensures queue { OnOk result (queue.new ≡ queue.old ++ once_behind queue.old (place ∷ [])) }
    ensures table { OnOk result (IsTable met.new.items queue.new) }
    ensures size { length met.new.items ≡ length met.old.items }
{
    if !met[place] {
        met[place] = true;
        queue.push(place)?;
    }
    Ok(())
}

/// Puts places at the end of the queue, each that isn't in it yet.
fn meet_all(
    met: &mut Vec<bool>,
    queue: &mut Many<usize>,
    places: &[usize],
) -> Result<(), OutOfMemory>
    requires within { All (λ t. t < length met.old.items) places.now }
    requires table { IsTable met.old.items queue.old }
    ensures queue { OnOk result (queue.new ≡ queue.old ++ once_behind queue.old places.now) }
    ensures table { OnOk result (IsTable met.new.items queue.new) }
    ensures size { length met.new.items ≡ length met.old.items }
{
    for place in places {
        meet(met, queue, *place)?;
    }
    Ok(())
}

/// Puts what those in the queue from a place on have links to at its end, each that isn't in it yet.
fn meet_linked(
    links: &[Many<usize>],
    met: &mut Vec<bool>,
    queue: &mut Many<usize>,
    start: usize,
) -> Result<(), OutOfMemory>
    requires closed { IsClosed links.now }
    requires size { length met.old.items ≡ length links.now }
    requires table { IsTable met.old.items queue.old }
    ensures queue { OnOk result (queue.new ≡ queue.old ++ once_behind queue.old (linked_by links.now (drop start queue.old))) }
    ensures table { OnOk result (IsTable met.new.items queue.new) }
    ensures size { length met.new.items ≡ length met.old.items }
{
    let end = queue.len();
    for at in start..end {
        let place = queue.as_slice()[at];
        meet_all(met, queue, links[place].as_slice())?;
    }
    Ok(())
}

/// These things and all that they lead to, level by level, each once where it is first met. Things go by their places, and
/// `links` has for each thing those that it has links to. The time grows with the number of things and of the links that
/// are met.
pub fn walk(
    alloc: Global,
    links: &[Many<usize>],
    places: &[usize],
) -> Result<Many<usize>, OutOfMemory>
    requires closed { IsClosed links.now }
    requires within { All (λ t. t < length links.now) places.now }
    ensures walk { IfOk result (λ made. made ≡ walk links.now places.now) }
    ensures within { IfOk result (λ made. All (λ t. t < length links.now) made) }
{
    let mut met = vec![in alloc; false; links.len()]?;
    let mut queue = Many::new(alloc);
    meet_all(&mut met, &mut queue, places)?;
    let mut start = 0;
    for _level in 0..links.len() {
        let end = queue.len();
        if start == end {
            return Ok(queue);
        }
        meet_linked(links, &mut met, &mut queue, start)?;
        start = end;
    }
    Ok(queue)
}
