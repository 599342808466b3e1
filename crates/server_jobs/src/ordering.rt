//! What sessions are to do for the notes that have no mark.

ghost use Rattle.std.specs.Prelude.{◌≡◌, ◌≤◌, ◌<◌, ◌^◌, All, length, IfOk};
ghost use Rattle.alert_marks.specs.Marks.{AreOnce};
ghost use Rattle.alert_media.specs.Media.{IsLimited};
ghost use Rattle.server_jobs.specs.Numbering.{AreWithin, IsNumbering};
ghost use Rattle.server_jobs.specs.Sessions.{AreOrders, command_for};

use crate::queueing::queue_of;
use crate::recipients::{Numbered, commands_of, number};
use alert_media::Media;
use alert_queue::{NoteMark, Queue};
use alert_run::Note;
use alert_sessions::Orders;
use std::alloc::Global;
use zbx_types::{Many, OutOfMemory};

/// The queue of the notes that have no mark, and what is run for each note.
#[tactic(auto, using(crate::proofs::Commands::homes_told, crate::proofs::Commands::homes_there, crate::proofs::Commands::ordered))]
pub(crate) fn orders_of(
    alloc: Global,
    media: &Media,
    notes: Many<Note>,
    marks: &[NoteMark],
) -> Result<(Queue, Orders), OutOfMemory>
    requires few { length notes < 2 ^ 32 }
    requires entries { All IsLimited media.now.entries }
    requires others { 1 ≤ media.now.attempts }
    requires once { AreOnce marks.now }
    requires within { AreWithin (length notes) marks.now }
    ensures { IfOk result (λ made. AreOrders media.now notes marks.now made.0 made.1) }
{
    let all = notes.as_slice();
    let numbered = number(alloc, media, all)?;
    let queue = queue_of(alloc, media, all, &numbered, marks)?;
    let commands = commands_of(alloc, media, numbered.recipients.names())?;
    let Numbered {
        recipients: _,
        homes,
        kinds: _,
    } = numbered;
    Ok((
        queue,
        Orders {
            notes,
            homes,
            commands,
        },
    ))
}
