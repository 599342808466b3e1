//! A search along all links, depth first, which numbers the things so that those of one cycle have one number (Pearce, "A
//! space-efficient algorithm for finding strongly connected components"). What it answers is tested by its callers.

use std::alloc::Global;
use zbx_types::{Many, OutOfMemory};

/// A thing on the way.
#[derive(Clone, Copy)]
struct Visit {
    /// The thing.
    thing: usize,
    /// How many of its links are done.
    done: usize,
    /// Whether no link has led from it or from what it leads to back to one that was met before it.
    highest: bool,
}

/// What a search has found so far.
#[derive(Drop)]
pub(crate) struct Visits<'l> {
    links: &'l [Many<usize>],
    /// For each thing 0 where it isn't met yet; where it is, a number up to that of the things, in the order of their
    /// meeting; where its cycles are closed, a greater one, by which things that lie on one cycle have one number.
    pub numbers: Vec<usize>,
    /// The things in the order in which they were closed: where no link lies on a cycle, each behind those that it has
    /// links to.
    pub closed: Vec<usize>,
    path: Vec<Visit>,
    open: Vec<usize>,
    met: usize,
    last: usize,
}

impl Visits<'_> {
    fn number(&self, thing: usize) -> usize {
        self.numbers.get(thing).copied().unwrap_or(0)
    }

    fn set_number(&mut self, thing: usize, number: usize) {
        if thing < self.numbers.len() {
            self.numbers[thing] = number;
        }
    }

    /// Meets a thing.
    fn meet(&mut self, thing: usize) -> Result<(), OutOfMemory> {
        self.met = self.met.saturating_add(1);
        self.set_number(thing, self.met);
        self.path.push(Visit {
            thing,
            done: 0,
            highest: true,
        })?;
        Ok(())
    }

    /// The next thing that a thing on the way has a link to.
    fn next_end(&self, visit: Visit) -> Option<usize> {
        let ends = self.links.get(visit.thing)?;
        let end = ends.as_slice().get(visit.done)?;
        Some(*end)
    }

    /// Goes past the next link of a thing on the way, whose end is met.
    fn passed(&mut self, visit: Visit, end: usize) -> Visit {
        let number = self.number(end);
        let highest = visit.highest && self.number(visit.thing) <= number;
        if !highest && number < self.number(visit.thing) {
            self.set_number(visit.thing, number);
        }
        Visit {
            thing: visit.thing,
            done: visit.done.saturating_add(1),
            highest,
        }
    }

    /// Takes the last open thing whose number isn't below one.
    fn take_open(&mut self, number: usize) -> Option<usize> {
        let last = self.open.last().copied()?;
        if self.number(last) < number {
            return None;
        }
        self.open.pop()
    }

    /// Gives the open things that lie on cycles with a thing their number.
    fn close_cycles(&mut self, thing: usize) {
        let number = self.number(thing);
        for _open in 0..self.open.len() {
            match self.take_open(number) {
                None => break,
                Some(open) => self.set_number(open, self.last),
            }
        }
        self.set_number(thing, self.last);
        self.last = self.last.saturating_sub(1);
    }

    /// Closes a thing whose links are done.
    fn close(&mut self, visit: Visit) -> Result<(), OutOfMemory> {
        self.closed.push(visit.thing)?;
        if visit.highest {
            self.close_cycles(visit.thing);
        } else {
            self.open.push(visit.thing)?;
        }
        Ok(())
    }

    /// Goes one step on. No where nothing is left on the way.
    fn step(&mut self) -> Result<bool, OutOfMemory> {
        let Some(visit) = self.path.pop() else {
            return Ok(false);
        };
        match self.next_end(visit) {
            None => self.close(visit)?,
            Some(end) if self.number(end) == 0 => {
                self.path.push(visit)?;
                self.meet(end)?;
            }
            Some(end) => {
                let visit = self.passed(visit, end);
                self.path.push(visit)?;
            }
        }
        Ok(true)
    }

    /// Goes on from a thing until nothing is left on the way.
    fn from(&mut self, thing: usize) -> Result<(), OutOfMemory> {
        self.meet(thing)?;
        for _step in 0..usize::MAX {
            if !self.step()? {
                break;
            }
        }
        Ok(())
    }
}

/// Searches from each thing that isn't met, in time linear in the things and their links.
pub(crate) fn visit_all(alloc: Global, links: &[Many<usize>]) -> Result<Visits<'_>, OutOfMemory> {
    let mut visits = Visits {
        links,
        numbers: vec![in alloc; 0usize; links.len()]?,
        closed: Vec::new(alloc),
        path: Vec::new(alloc),
        open: Vec::new(alloc),
        met: 0,
        last: links.len().saturating_mul(2),
    };
    for thing in 0..links.len() {
        if visits.number(thing) == 0 {
            visits.from(thing)?;
        }
    }
    Ok(visits)
}
