//! The run of a note's program.

ghost use Rattle.std.specs.Prelude.{◌≡◌, ◌≤◌, ◌∷◌, [], length, IfOk, OnErr};
ghost use Rattle.alert_sessions.specs.Runs.{Ran};

use crate::orders::Orders;
use alert_run::Note;
use outside::Spawner;
use std::alloc::Global;
use zbx_types::{Many, OutOfMemory, Text};

/// The three texts of a note, as its program is given them.
fn texts_of(alloc: Global, note: &Note) -> Result<Many<Text>, OutOfMemory>
    ensures { IfOk result (λ texts. texts ≡ note.now.recipient ∷ note.now.subject ∷ note.now.body ∷ []) }
{
    let mut texts = Many::new(alloc);
    texts.push(note.recipient.copy(alloc)?)?;
    texts.push(note.subject.copy(alloc)?)?;
    texts.push(note.body.copy(alloc)?)?;
    Ok(texts)
}

/// Runs the program of a note's recipient on the note, and says whether it ended well. Where memory is refused it isn't run.
pub(crate) fn run_note<W: Spawner>(
    alloc: Global,
    orders: &Orders,
    spawner: &mut W,
    note: u32,
) -> Result<bool, OutOfMemory>
    requires { (1 ≤ note) × (note ≤ length orders.now.homes.items) }
    ensures ran { IfOk result (Ran orders.now (W.tells spawner.old) (W.tells spawner.new)) }
    ensures same { OnErr result (spawner.new ≡ spawner.old) }
{
    let place = note as usize - 1;
    let home = orders.homes[place] as usize;
    let texts = texts_of(alloc, &orders.notes.as_slice()[place])?;
    let command = &orders.commands.as_slice()[home];
    Ok(spawner.run(command, &texts).is_ok())
}
