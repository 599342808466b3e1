//! The tries of notes.

ghost use Rattle.std.specs.Prelude.{◌≡◌, ◌≤◌, ◌∷◌, [], ◌++◌, IfOk, OnErr};
ghost use Rattle.alert_queue.specs.Queues.{HasOpen, IsLeastMoment};
ghost use Rattle.alert_queue.specs.Events.{moved};
ghost use Rattle.server_jobs.specs.Tries.{medium_for};
ghost use Rattle.server_jobs.specs.Turning.{NoneOpen, Continues, Ends};

use crate::recipients::command_for;
use alert_media::Media;
use alert_queue::{Mark, Queue, Taken};
use alert_run::Note;
use alert_sessions::Hand;
use outside::{Clock, Spawner};
use std::alloc::Global;
use zbx_types::{Many, Moment, OutOfMemory, Text};

/// The three texts of a note, as what a script is given.
fn texts_of(alloc: Global, note: &Note) -> Result<Many<Text>, OutOfMemory>
    ensures { IfOk result (λ texts. texts ≡ note.now.recipient ∷ note.now.subject ∷ note.now.body ∷ []) }
{
    let mut texts = Many::new(alloc);
    texts.push(note.recipient.copy(alloc)?)?;
    texts.push(note.subject.copy(alloc)?)?;
    texts.push(note.body.copy(alloc)?)?;
    Ok(texts)
}

/// Waits until the least moment at which a note is due, and begins a try of the next one then.
#[tactic(auto, using(crate::proofs::Turning::begins_now, crate::proofs::Turning::not_later, crate::proofs::Turning::not_busy, crate::proofs::Turning::not_nothing))]
fn next_later<C: Clock>(queue: &mut Queue, at: Moment, clock: &mut C) -> Option<u32>
    requires closed { NoneOpen queue.old }
    requires least { IsLeastMoment queue.old at }
    ensures { Continues queue.old queue.new result }
{
    let now = clock.rest(at).later(at);
    match queue.take(now) {
        Taken::Try { note } => Some(note),
        Taken::Later { at: _ } => None,
        Taken::Busy => None,
        Taken::Nothing => None,
    }
}

/// Begins a try of the next note, where one is left, and answers its number. Where none is due it waits for the first one.
#[tactic(auto, using(crate::proofs::Turning::begins_now, crate::proofs::Turning::never_busy, crate::proofs::Turning::over, crate::proofs::Turning::least_of, crate::proofs::Turning::closed_later, crate::proofs::Turning::continues_later))]
pub(crate) fn next<C: Clock>(queue: &mut Queue, clock: &mut C) -> Option<u32>
    requires { NoneOpen queue.old }
    ensures { Continues queue.old queue.new result }
{
    match queue.take(clock.now()) {
        Taken::Try { note } => Some(note),
        Taken::Later { at } => next_later(queue, at, clock),
        Taken::Busy => None,
        Taken::Nothing => None,
    }
}

/// Runs the open try of a note. Answers the note's mark, where that was its last one.
#[tactic(auto, using(crate::proofs::Turning::ends_so))]
pub(crate) fn try_note<W: Spawner, C: Clock>(
    alloc: Global,
    media: &Media,
    note: &Note,
    number: u32,
    queue: &mut Queue,
    hand: &mut Hand<W, C>,
) -> Result<Option<Mark>, OutOfMemory>
    requires { HasOpen queue.old number }
    ensures ends { IfOk result (Ends (medium_for media.now note.now.recipient).command note.now number (W.tells hand.old.spawner) (W.tells hand.new.spawner) queue.old queue.new) }
    ensures untried { OnErr result (hand.new ≡ hand.old) }
{
    let texts = texts_of(alloc, note)?;
    let command = command_for(media, &note.recipient);
    let ok = hand.spawner.run(command, &texts).is_ok();
    Ok(queue.done(number, ok, hand.clock.now()))
}
