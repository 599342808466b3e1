//! Links between things: cycles and depths.

ghost use Rattle.std.specs.Prelude.{◌<◌, All, IsTrue};
ghost use Rattle.dependency_graph.specs.Tables.{IsClosed};

use crate::parts::{Piece, add_each, pieces, told};
use dependency_graph::{depths, first_on_cycle};
use std::alloc::Global;
use zbx_types::{Many, OutOfMemory};

/// The reader of a thing's links, as `1,2`, or `-` where it has none.
struct EndsReader;

impl Piece for EndsReader {
    type Made = Many<usize>;

    fn read(alloc: Global, _place: u32, word: &str) -> Result<Many<usize>, OutOfMemory> {
        let mut made = Many::new(alloc);
        for end in word.split(',') {
            if let Ok(end) = end.parse() {
                made.push(end)?;
            }
        }
        Ok(made)
    }
}

/// Whether all of these are below a number.
fn all_below(ends: &[usize], size: usize) -> bool
    ensures { IsTrue result → All (λ t. t < size) ends.now }
{
    ends.iter().all(|end| *end < size)
}

/// Whether each link leads to one of the things.
fn is_closed(links: &[Many<usize>]) -> bool
    ensures { IsTrue result → IsClosed links.now }
{
    let size = links.len();
    links.iter().all(|ends| all_below(ends.as_slice(), size))
}

fn depths_of(alloc: Global, links: &[Many<usize>]) -> Result<String, OutOfMemory> {
    let depths = depths(alloc, links)?;
    let mut made = String::new(alloc);
    add_each(alloc, &mut made, depths.as_slice()).and(Ok(made))
}

/// The place of the first link on a cycle, as `1/0`, or the depths, as `2 1 0`.
fn found(alloc: Global, links: &[Many<usize>]) -> Result<String, OutOfMemory> {
    if !is_closed(links) {
        return told(alloc, "out of range");
    }
    match first_on_cycle(alloc, links)? {
        Some(place) => Ok(format!(in alloc; "{}/{}", place.from, place.at)?),
        None => depths_of(alloc, links),
    }
}

/// The same of links as `1,2 2 -`: a word for each thing.
pub(crate) fn found_in(alloc: Global, text: &str) -> Result<String, OutOfMemory> {
    let links = pieces::<EndsReader>(alloc, text, ' ')?;
    found(alloc, links.as_slice())
}
