//! Which entries a claim takes.

ghost use Rattle.std.specs.Prelude.{◌≡◌, ◌≤◌, ◌||◌, ◌&&◌, length, IfOk, OnOk};
ghost use Rattle.zbx_types.specs.declared.entries.Entry.{Entry};
ghost use Rattle.footprint.specs.Feet.{told_by};
ghost use Rattle.footprint.specs.Conflict.{conflict_by};
ghost use Rattle.syncer_gate.specs.Marks.{is_open};
ghost use Rattle.syncer_gate.specs.Chosen.{opens, conflicts_with, picked};
ghost use Rattle.syncer_gate.specs.Stamped.{meets};
ghost use Rattle.syncer_gate.specs.Window.{AreDone, AreWaiting};

use crate::marks::Mark;
use crate::touched::Touched;
use footprint::Feet;
use std::alloc::Global;
use zbx_types::{Entry, Many, Numbered, OutOfMemory};

/// Notes what an entry touches, where it is in an open batch.
fn note_one(
    touched: &mut Touched,
    feet: &Feet,
    mark: Mark,
    entry: &Entry,
) -> Result<(), OutOfMemory>
    ensures { OnOk result ((other : Entry) → meets (told_by feet.now) touched.new other ≡ (meets (told_by feet.now) touched.old other || (is_open mark && conflict_by (told_by feet.now) entry.now other))) }
{
    match mark {
        Mark::Taken(_) => touched.touch(feet, entry),
        Mark::Pending | Mark::Applied => Ok(()),
    }
}

/// Notes what the entries of open batches touch, and nothing else.
pub(crate) fn note_open(
    touched: &mut Touched,
    feet: &Feet,
    marks: &[Mark],
    entries: &[Numbered],
    low: usize,
    high: usize,
) -> Result<(), OutOfMemory>
    requires size { length entries.now ≡ length marks.now }
    requires inside { high ≤ length marks.now }
    requires done { AreDone low marks.now }
    requires waiting { AreWaiting high marks.now }
    ensures { OnOk result ((e : Entry) → meets (told_by feet.now) touched.new e ≡ conflicts_with (told_by feet.now) (opens marks.now entries.now) e) }
{
    touched.clear();
    for place in low..high {
        note_one(touched, feet, marks[place], &entries[place].entry)?;
    }
    Ok(())
}

/// Whether something stands in the way of an entry, which is then noted, too.
fn skips(touched: &mut Touched, feet: &Feet, entry: &Entry) -> Result<bool, OutOfMemory>
    ensures answer { IfOk result (λ skipped. skipped ≡ meets (told_by feet.now) touched.old entry.now) }
    ensures noted { IfOk result (λ skipped. (other : Entry) → meets (told_by feet.now) touched.new other ≡ (meets (told_by feet.now) touched.old other || (skipped && conflict_by (told_by feet.now) entry.now other))) }
{
    if touched.meets(feet, entry) {
        touched.touch(feet, entry)?;
        Ok(true)
    } else {
        Ok(false)
    }
}

/// Takes entries, up to `limit`, of the first `looks` pending ones, where what stands in the way is noted. Those that are
/// skipped are noted, too.
pub(crate) fn pick(
    alloc: Global,
    touched: &mut Touched,
    feet: &Feet,
    marks: &[Mark],
    entries: &[Numbered],
    low: usize,
    looks: u32,
    limit: u32,
) -> Result<Many<u64>, OutOfMemory>
    requires size { length entries.now ≡ length marks.now }
    requires done { AreDone low marks.now }
    ensures { IfOk result (λ made. made ≡ picked (told_by feet.now) (meets (told_by feet.now) touched.old) looks limit marks.now entries.now) }
{
    let mut made = Many::new(alloc);
    let mut left = looks;
    let mut room = limit;
    for place in low..marks.len() {
        if left == 0 || room == 0 {
            return Ok(made);
        }
        if !marks[place].is_pending() {
            continue;
        }
        left -= 1;
        let one = &entries[place];
        if skips(touched, feet, &one.entry)? {
            continue;
        }
        made.push(one.number)?;
        room -= 1;
    }
    Ok(made)
}
