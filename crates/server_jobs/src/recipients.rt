//! Recipients by number.

ghost use Rattle.std.specs.Prelude.{◌≡◌, ◌≤◌, ◌<◌, ◌++◌, ◌∷◌, [], List, length, not, if◌then◌else◌, IfOk, OnOk, map, string_bytes};
ghost use Rattle.alert_run.specs.declared.types.Note.{Note as Noted};
ghost use Rattle.json_form.specs.Places.{has_name};
ghost use Rattle.server_jobs.specs.Tries.{medium_for};
ghost use Rattle.server_jobs.specs.Numbering.{IsNumbering, kind_for, recipient_at};
ghost use Rattle.server_jobs.specs.Sessions.{command_for as commanded};

use alert_media::Media;
use alert_queue::Kind;
use alert_run::Note;
use indexmap::IndexSet;
use std::alloc::Global;
use std::convert::AsStr;
use std::marker::Model;
use zbx_types::{Many, OutOfMemory, Text};

/// The interval of a recipient without an entry, in seconds.
const INTERVAL: u32 = 10;

/// The recipients that were met. Contracts see them in their order; the place of each is its number. One is found without
/// a search over the others.
#[derive(Drop)]
pub(crate) struct Recipients {
    met: IndexSet<String>,
}

impl Model for Recipients {
    ghost use Rattle.std.specs.Prelude.{List, ℕ, map, string_bytes};

    ghost Value = { List (List ℕ) };

    ghost view = { λ r. map string_bytes r.met.keys };
}

impl Recipients {
    /// None was met. Takes no memory.
    fn new(alloc: Global) -> Recipients
        ensures { result ≡ [] }
    {
        Recipients {
            met: IndexSet::new(alloc),
        }
    }

    /// They, in their order.
    pub(crate) fn names(&self) -> &[String]
        ensures { map string_bytes result.now ≡ self.now }
    {
        self.met.as_slice()
    }

    /// Meets a recipient. Answers its number, and whether it is the first time.
    #[tactic(auto, using(crate::proofs::Numbering::met_more))]
    fn meet(&mut self, alloc: Global, name: &str) -> Result<(usize, bool), OutOfMemory>
        ensures place { IfOk result (λ r. (r.0 < length self.new) × (recipient_at self.new r.0 ≡ name.now)) }
        ensures met { IfOk result (λ r. self.new ≡ (if r.1 then self.old ++ name.now ∷ [] else self.old)) }
        ensures first { IfOk result (λ r. r.1 ≡ not (has_name name.now self.old)) }
    {
        let name = String::from_str(alloc, name)?;
        Ok(self.met.insert_full(name)?)
    }
}

/// The recipients of notes, by number.
#[derive(Drop)]
pub(crate) struct Numbered {
    /// The recipients.
    pub(crate) recipients: Recipients,
    /// The number of each note's recipient.
    pub(crate) homes: Vec<u32>,
    /// How the notes of each recipient are tried.
    pub(crate) kinds: Vec<Kind>,
}

/// How a recipient's notes are tried.
fn kind_for(media: &Media, recipient: &Text) -> Kind
    ensures { result ≡ kind_for media.now recipient.now }
{
    match media.entry(recipient) {
        Some(medium) => Kind {
            limit: medium.attempts,
            interval: medium.interval,
        },
        None => Kind {
            limit: media.attempts,
            interval: INTERVAL,
        },
    }
}

/// How the notes of a recipient are tried, behind the others where it is new.
fn add_kind(
    kinds: &mut Vec<Kind>,
    media: &Media,
    recipient: &Text,
    is_first: bool,
) -> Result<(), OutOfMemory>
    ensures { OnOk result (kinds.new.items ≡ (if is_first then kinds.old.items ++ kind_for media.now recipient.now ∷ [] else kinds.old.items)) }
{
    if is_first {
        kinds.push(kind_for(media, recipient))?;
    }
    Ok(())
}

/// The command that is run for a recipient.
pub(crate) fn command_for<'m>(media: &'m Media, recipient: &Text) -> &'m Text
    ensures { result.now ≡ (medium_for media.now recipient.now).command }
{
    match media.entry(recipient) {
        Some(medium) => &medium.command,
        None => &media.command,
    }
}

impl Numbered {
    /// No note.
    #[tactic(auto, using(crate::proofs::Numbering::numbered_none))]
    fn new(alloc: Global) -> Numbered
        ensures { (media : Media) → IsNumbering media [] result }
    {
        Numbered {
            recipients: Recipients::new(alloc),
            homes: Vec::new(alloc),
            kinds: Vec::new(alloc),
        }
    }

    /// One note more.
    fn add(&mut self, alloc: Global, media: &Media, note: &Note) -> Result<(), OutOfMemory>
        ensures { OnOk result ((notes : List Noted) → IsNumbering media.now notes self.old → IsNumbering media.now (notes ++ note.now ∷ []) self.new) }
    {
        let (place, is_first) = self.recipients.meet(alloc, note.recipient.as_str())?;
        let Ok(home) = u32::try_from(place) else {
            return Err(OutOfMemory);
        };
        add_kind(&mut self.kinds, media, &note.recipient, is_first)?;
        self.homes.push(home)?;
        Ok(())
    }
}

/// The recipients of notes.
#[tactic(auto, using(crate::proofs::Numbering::numbered_next, crate::proofs::Numbering::numbered_all))]
pub(crate) fn number(alloc: Global, media: &Media, notes: &[Note]) -> Result<Numbered, OutOfMemory>
    ensures { IfOk result (IsNumbering media.now notes.now) }
{
    let mut numbered = Numbered::new(alloc);
    for note in notes {
        numbered.add(alloc, media, note)?;
    }
    Ok(numbered)
}

/// The command that is run for each of these recipients.
#[tactic(auto, using(crate::proofs::Commands::command_next, crate::proofs::Commands::command_all))]
pub(crate) fn commands_of(
    alloc: Global,
    media: &Media,
    names: &[String],
) -> Result<Many<Text>, OutOfMemory>
    ensures { IfOk result (λ commands. commands ≡ map (commanded media.now) (map string_bytes names.now)) }
{
    let mut commands = Many::new(alloc);
    for name in names {
        let recipient = Text::of(alloc, name.as_str())?;
        commands.push(command_for(media, &recipient).copy(alloc)?)?;
    }
    Ok(commands)
}
