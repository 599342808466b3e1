//! Ranks of templates, by which links without cycles are known in one pass.

ghost use Rattle.std.specs.Prelude.{◌≡◌, ◌<◌, length, slice_index, All, IsTrue, IfOk, OnOk};
ghost use Rattle.host_layout.specs.Tables.{Falls};

use std::alloc::Global;
use zbx_types::{Many, OutOfMemory};

/// Counts links one up at each of the places that they lead to.
fn count_up(counts: &mut Vec<usize>, places: &[usize])
    requires { All (λ t. t < length counts.old.items) places.now }
    ensures { length counts.new.items ≡ length counts.old.items }
{
    for place in places {
        counts[*place] = counts[*place].saturating_add(1);
    }
}

/// How many links lead to each template.
fn counts_of(alloc: Global, links: &[Many<usize>]) -> Result<Vec<usize>, OutOfMemory>
    requires { All (λ places. All (λ t. t < length links.now) places) links.now }
    ensures { IfOk result (λ counts. length counts.items ≡ length links.now) }
{
    let mut counts = vec![in alloc; 0usize; links.len()]?;
    for places in links {
        count_up(&mut counts, places.as_slice());
    }
    Ok(counts)
}

/// The templates to which no link leads.
fn tops_of(alloc: Global, counts: &[usize]) -> Result<Many<usize>, OutOfMemory>
    ensures { IfOk result (λ tops. All (λ t. t < length counts.now) tops) }
{
    let mut tops = Many::new(alloc);
    for (place, count) in counts.iter().enumerate() {
        if *count == 0 {
            tops.push(place)?;
        }
    }
    Ok(tops)
}

/// Counts links one down at each of the places that they lead to, and puts those at the end of the queue to which no
/// other link leads.
fn count_down(
    counts: &mut Vec<usize>,
    queue: &mut Many<usize>,
    places: &[usize],
) -> Result<(), OutOfMemory>
    requires within { All (λ t. t < length counts.old.items) places.now }
    requires queue { All (λ t. t < length counts.old.items) queue.old }
    ensures size { length counts.new.items ≡ length counts.old.items }
    ensures queue { OnOk result (All (λ t. t < length counts.old.items) queue.new) }
{
    for place in places {
        counts[*place] = counts[*place].saturating_sub(1);
        if counts[*place] == 0 {
            queue.push(*place)?;
        }
    }
    Ok(())
}

/// Ranks the templates so that each is above those that it leads to, if none leads back to itself.
pub(crate) fn ranks_of(alloc: Global, links: &[Many<usize>]) -> Result<Vec<usize>, OutOfMemory>
    requires { All (λ places. All (λ t. t < length links.now) places) links.now }
    ensures { IfOk result (λ ranks. length ranks.items ≡ length links.now) }
{
    let mut counts = counts_of(alloc, links)?;
    let mut queue = tops_of(alloc, &counts)?;
    let mut ranks = vec![in alloc; 0usize; links.len()]?;
    for at in 0..links.len() {
        if at < queue.len() {
            let place = queue.as_slice()[at];
            ranks[place] = links.len() - at;
            count_down(&mut counts, &mut queue, links[place].as_slice())?;
        }
    }
    Ok(ranks)
}

/// Whether all of these templates are below a rank.
fn all_below(ranks: &[usize], places: &[usize], rank: usize) -> bool
    requires { All (λ t. t < length ranks.now) places.now }
    ensures { IsTrue result → All (λ t. slice_index ranks.now t < rank) places.now }
{
    places.iter().all(|t| ranks[*t] < rank)
}

/// Whether each template is above those that it leads to.
pub(crate) fn falls(links: &[Many<usize>], ranks: &[usize]) -> bool
    requires closed { All (λ places. All (λ t. t < length links.now) places) links.now }
    requires size { length ranks.now ≡ length links.now }
    ensures { IsTrue result → Falls links.now ranks.now }
{
    for (place, places) in links.iter().enumerate() {
        if !all_below(ranks, places.as_slice(), ranks[place]) {
            return false;
        }
    }
    true
}
