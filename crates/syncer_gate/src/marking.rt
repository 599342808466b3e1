//! Marks that are set, and marks that are compared with a batch.

ghost use Rattle.std.specs.Prelude.{◌≡◌, ◌≢◌, ◌<◌, ◌≤◌, ◌+◌, ◌^◌, ℕ, length, map, get_or, true, false};
ghost use Rattle.footprint.specs.Rows.{begins};
ghost use Rattle.zbx_types.specs.Masters.{has_id};
ghost use Rattle.syncer_gate.specs.Gate.{with_taken, held_by, same_numbers};
ghost use Rattle.syncer_gate.specs.Marks.{is_taken, ended, reopened};
ghost use Rattle.syncer_gate.specs.Window.{AreDone, AreWaiting};

use crate::marks::Mark;

/// Gives the entries with these numbers to a batch, and tells the place behind the last one, or `high`.
pub(crate) fn take(
    marks: &mut Vec<Mark>,
    numbers: &[u64],
    first: u64,
    id: u64,
    high: usize,
) -> usize
    requires { (n : ℕ) → has_id numbers.now n ≡ true → (first ≤ n) × (n < first + length marks.old.items) }
    ensures size { length marks.new.items ≡ length marks.old.items }
    ensures marks { marks.new.items ≡ with_taken id numbers.now first marks.old.items }
    ensures high { (high ≤ result) × ((n : ℕ) → has_id numbers.now n ≡ true → n < first + result) }
    ensures inside { high ≤ length marks.old.items → result ≤ length marks.old.items }
{
    let mut end = high;
    for number in numbers {
        let place = (*number - first) as usize;
        marks[place] = Mark::Taken(id);
        end = end.max(place + 1);
    }
    end
}

/// Whether a list begins with a number.
fn begins(number: u64, numbers: &[u64]) -> bool
    ensures { result ≡ begins number numbers.now }
{
    match numbers.first() {
        None => false,
        Some(first) => *first == number,
    }
}

/// Whether a batch has exactly these numbers.
pub(crate) fn is_held(
    marks: &[Mark],
    numbers: &[u64],
    first: u64,
    id: u64,
    low: usize,
    high: usize,
) -> bool
    requires numbers { first + length marks.now ≤ 2 ^ 64 }
    requires inside { high ≤ length marks.now }
    requires done { AreDone low marks.now }
    requires waiting { AreWaiting high marks.now }
    ensures { result ≡ same_numbers numbers.now (held_by id first marks.now) }
{
    let mut rest = numbers;
    for place in low..high {
        if marks[place].is_taken(id) {
            if !begins(first + place as u64, rest) {
                return false;
            }
            rest = &rest[1..];
        }
    }
    rest.is_empty()
}

/// Ends a batch: its entries' marks become another.
pub(crate) fn end(marks: &mut Vec<Mark>, id: u64, to: Mark, low: usize, high: usize)
    requires inside { high ≤ length marks.old.items }
    requires done { AreDone low marks.old.items }
    requires waiting { AreWaiting high marks.old.items }
    requires other { is_taken id to ≡ false }
    ensures { marks.new.items ≡ map (ended id to) marks.old.items }
{
    for place in low..high {
        marks[place] = marks[place].ended(id, to);
    }
}

/// Ends all batches: their entries are pending.
pub(crate) fn reopen(marks: &mut Vec<Mark>, low: usize, high: usize)
    requires inside { high ≤ length marks.old.items }
    requires done { AreDone low marks.old.items }
    requires waiting { AreWaiting high marks.old.items }
    ensures { marks.new.items ≡ map reopened marks.old.items }
{
    for place in low..high {
        marks[place] = marks[place].reopened();
    }
}

/// The first place whose entry isn't applied, where all before this one are.
pub(crate) fn first_left(marks: &[Mark], low: usize) -> usize
    requires { AreDone low marks.now }
    ensures within { result ≤ length marks.now }
    ensures done { AreDone result marks.now }
    ensures next { result < length marks.now → get_or marks.now result Mark.Pending ≢ Mark.Applied }
{
    for place in low..marks.len() {
        match marks[place] {
            Mark::Applied => {}
            Mark::Pending | Mark::Taken(_) => return place,
        }
    }
    marks.len()
}
