//! The queue of the notes that have no mark.

ghost use Rattle.std.specs.Prelude.{◌≡◌, ◌≤◌, ◌<◌, ◌^◌, All, length, IfOk};
ghost use Rattle.alert_marks.specs.Marks.{AreOnce};
ghost use Rattle.alert_media.specs.Media.{IsLimited};
ghost use Rattle.alert_queue.specs.Law.{AreFresh};
ghost use Rattle.alert_queue.specs.New.{IsNew};
ghost use Rattle.server_jobs.specs.Numbering.{AreWithin, IsNumbering, marked_in, first_above, ahead_of};

use crate::recipients::Numbered;
use alert_media::Media;
use alert_queue::{NoteMark, Queue};
use alert_run::Note;
use std::alloc::Global;
use zbx_types::OutOfMemory;

/// The number of the first mark's note that isn't one of so many.
#[tactic(auto, using(crate::proofs::Starting::above_here, crate::proofs::Starting::above_next, crate::proofs::Starting::above_none))]
fn first_above(marks: &[NoteMark], total: usize) -> Option<u32>
    ensures { result ≡ first_above total marks.now }
{
    for mark in marks {
        if mark.note as usize > total {
            return Some(mark.note);
        }
    }
    None
}

/// How many marks there are, where they are more than the notes, or else the first number of a note that isn't there.
pub(crate) fn ahead_of(marks: &[NoteMark], total: usize) -> Option<u64>
    ensures { result ≡ ahead_of total marks.now }
{
    if marks.len() > total {
        return Some(marks.len() as u64);
    }
    match first_above(marks, total) {
        Some(note) => Some(u64::from(note)),
        None => None,
    }
}

/// For each note whether it has a mark.
#[tactic(auto, using(crate::proofs::Starting::none_marked, crate::proofs::Starting::all_marked))]
fn marked_in(alloc: Global, marks: &[NoteMark], total: usize) -> Result<Vec<bool>, OutOfMemory>
    requires once { AreOnce marks.now }
    requires within { AreWithin total marks.now }
    ensures { IfOk result (λ marked. marked.items ≡ marked_in total marks.now) }
{
    let mut marked = vec![in alloc; false; total]?;
    for mark in marks {
        marked[mark.note as usize - 1] = true;
    }
    Ok(marked)
}

/// The queue of the notes that have no mark, each recipient's in a lane of its own.
#[tactic(auto, using(crate::proofs::Starting::marked_count, crate::proofs::Starting::homes_there, crate::proofs::Starting::kinds_limited, crate::proofs::Starting::few_kinds))]
pub(crate) fn queue_of(
    alloc: Global,
    media: &Media,
    notes: &[Note],
    numbered: &Numbered,
    marks: &[NoteMark],
) -> Result<Queue, OutOfMemory>
    requires few { length notes.now < 2 ^ 32 }
    requires entries { All IsLimited media.now.entries }
    requires others { 1 ≤ media.now.attempts }
    requires numbered { IsNumbering media.now notes.now numbered.now }
    requires once { AreOnce marks.now }
    requires within { AreWithin (length notes.now) marks.now }
    ensures is_new { IfOk result (IsNew numbered.now.homes.items (marked_in (length notes.now) marks.now) numbered.now.kinds.items) }
    ensures fresh { IfOk result AreFresh }
{
    let marked = marked_in(alloc, marks, notes.len())?;
    Queue::new(alloc, &numbered.homes, &marked, &numbered.kinds)
}
