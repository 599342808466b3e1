//! What a call for alerts reads before its progress.

ghost use Rattle.std.specs.Prelude.{◌≡◌, ◌⊎◌, ◌≤◌, ◌<◌, ◌^◌, List, None, All, length, IfSome, IfOk, IfErr};
ghost use Rattle.alert_media.specs.Media.{IsLimited, media_of};
ghost use Rattle.server_words.specs.Words.{alerts_plan_of, IsWithin};
ghost use Rattle.alert_run.specs.declared.types.Note.{Note as Noted};
ghost use Rattle.server_jobs.specs.Alerts.{HasNotes, HasMedia, HasBoth, HasNeither, IsUnread, IsUnknown};

use alert_media::{Media, MediaError};
use alert_run::{Note, NotesError, messages};
use outside::Source;
use server_words::{Plan, PlanError, Status, alerts_plan};
use std::alloc::Global;
use whole_texts::{ReadError, read_all};
use zbx_types::{Bytes, Many, Text};

/// The most bytes of an outbox.
const MOST_BYTES: u32 = 1_073_741_824;

/// The most bytes of a document of media that are read.
const MOST_MEDIA: u32 = 16_777_216;

/// The bytes of an outbox.
#[tactic(auto, using(crate::proofs::Coming::whole_text, crate::proofs::Coming::long_text))]
fn read_lines<S: Source>(alloc: Global, lines: &mut S) -> Result<Bytes, Status>
    ensures read { IfOk result (λ bytes. IfSome (S.left lines.old) (λ all. (bytes ≡ all) × (length all ≤ 1073741824))) }
    ensures few { IfOk result (λ bytes. length bytes ≤ 1073741824) }
    ensures unread { IfErr result (IsUnread (S.left lines.old) (S.faults lines.old) (S.faults lines.new)) }
    ensures later { S.faults lines.old ≤ S.faults lines.new }
{
    match read_all(alloc, MOST_BYTES, lines) {
        Ok(bytes) if bytes.len() > MOST_BYTES as usize => Err(Status::LinesTooLong),
        Ok(bytes) => Ok(bytes),
        Err(ReadError::Failed) => Err(Status::SourceFault),
        Err(ReadError::OutOfMemory) => Err(Status::OutOfMemory),
    }
}

/// The notes of an outbox.
#[tactic(auto, using(crate::proofs::Coming::has_notes, crate::proofs::Coming::has_bad))]
fn read_notes<S: Source>(alloc: Global, lines: &mut S) -> Result<Many<Note>, Status>
    ensures read { IfOk result (λ notes. IfSome (S.left lines.old) (HasNotes notes)) }
    ensures few { IfOk result (λ notes. length notes < 2 ^ 32) }
    ensures unread { IfErr result (IsUnread (S.left lines.old) (S.faults lines.old) (S.faults lines.new)) }
    ensures later { S.faults lines.old ≤ S.faults lines.new }
{
    let bytes = match read_lines(alloc, lines) {
        Ok(bytes) => bytes,
        Err(status) => return Err(status),
    };
    match messages(alloc, bytes.as_slice()) {
        Ok(notes) => Ok(notes),
        Err(NotesError::BadLine { at }) => Err(Status::BadLine { at }),
        Err(NotesError::OutOfMemory) => Err(Status::OutOfMemory),
    }
}

/// The bytes of a document of media.
#[tactic(auto, using(crate::proofs::Coming::same_media))]
fn read_document<M: Source>(alloc: Global, media: &mut M) -> Result<Bytes, Status>
    ensures read { IfOk result (λ bytes. IfSome (M.left media.old) (λ all. media_of bytes ≡ media_of all)) }
    ensures unread { IfErr result (IsUnknown (M.left media.old) (M.faults media.old) (M.faults media.new)) }
{
    match read_all(alloc, MOST_MEDIA, media) {
        Ok(bytes) => Ok(bytes),
        Err(ReadError::Failed) => Err(Status::SourceFault),
        Err(ReadError::OutOfMemory) => Err(Status::OutOfMemory),
    }
}

/// The media of a document, for a plan.
#[tactic(auto, using(crate::proofs::Coming::has_media, crate::proofs::Coming::has_fault))]
fn read_media<M: Source>(alloc: Global, plan: &Plan, media: &mut M) -> Result<Media, Status>
    requires { IsWithin plan.now }
    ensures read { IfOk result (λ made. IfSome (M.left media.old) (HasMedia plan.now made)) }
    ensures entries { IfOk result (λ made. All IsLimited made.entries) }
    ensures others { IfOk result (λ made. 1 ≤ made.attempts) }
    ensures unread { IfErr result (IsUnknown (M.left media.old) (M.faults media.old) (M.faults media.new)) }
{
    let bytes = match read_document(alloc, media) {
        Ok(bytes) => bytes,
        Err(status) => return Err(status),
    };
    let nothing = Text::new(alloc);
    let command = plan.command.as_ref().unwrap_or(&nothing);
    match Media::read(alloc, bytes.as_slice(), command, plan.attempts) {
        Ok(media) => Ok(media),
        Err(MediaError::Refused { path }) => Err(Status::MediaRefused { path }),
        Err(MediaError::OutOfMemory) => Err(Status::OutOfMemory),
    }
}

/// The notes of an outbox, and the media of a document.
#[derive(Drop)]
pub(crate) struct Given {
    /// The notes.
    pub(crate) notes: Many<Note>,
    /// How they are tried.
    pub(crate) media: Media,
}

/// The notes and the media for a plan: those of the outbox, and behind these those of the document.
fn read_both<S: Source, M: Source>(
    alloc: Global,
    plan: &Plan,
    lines: &mut S,
    media: &mut M,
) -> Result<Given, Status>
    requires { IsWithin plan.now }
    ensures notes { IfOk result (λ given. IfSome (S.left lines.old) (HasNotes given.notes)) }
    ensures media { IfOk result (λ given. IfSome (M.left media.old) (HasMedia plan.now given.media)) }
    ensures few { IfOk result (λ given. length given.notes < 2 ^ 32) }
    ensures entries { IfOk result (λ given. All IsLimited given.media.entries) }
    ensures others { IfOk result (λ given. 1 ≤ given.media.attempts) }
    ensures unread { IfErr result (λ s. IsUnread (S.left lines.old) (S.faults lines.old) (S.faults lines.new) s
        ⊎ (((notes : List Noted) × IfSome (S.left lines.old) (HasNotes notes)) × IsUnknown (M.left media.old) (M.faults media.old) (M.faults media.new) s)) }
{
    let notes = match read_notes(alloc, lines) {
        Ok(notes) => notes,
        Err(status) => return Err(status),
    };
    match read_media(alloc, plan, media) {
        Ok(media) => Ok(Given { notes, media }),
        Err(status) => Err(status),
    }
}

/// The notes and the media that a call is for. It is refused for the first cause that there is, in this order: the words,
/// the outbox, the media. Where the words have no plan nothing is read.
#[tactic(auto, using(crate::proofs::Coming::has_both, crate::proofs::Coming::has_neither, crate::proofs::Coming::has_no_plan, crate::proofs::Coming::has_no_room))]
pub(crate) fn read_given<S: Source, M: Source>(
    alloc: Global,
    words: &[Text],
    lines: &mut S,
    media: &mut M,
) -> Result<Given, Status>
    ensures read { IfOk result (λ given. HasBoth words.now (record {
      lines = S.left lines.old;
      faults = S.faults lines.old;
      faults' = S.faults lines.new;
      document = M.left media.old;
      document_faults = M.faults media.old;
      document_faults' = M.faults media.new;
    }) given.notes given.media) }
    ensures few { IfOk result (λ given. length given.notes < 2 ^ 32) }
    ensures entries { IfOk result (λ given. All IsLimited given.media.entries) }
    ensures others { IfOk result (λ given. 1 ≤ given.media.attempts) }
    ensures unread { IfErr result (HasNeither words.now (record {
      lines = S.left lines.old;
      faults = S.faults lines.old;
      faults' = S.faults lines.new;
      document = M.left media.old;
      document_faults = M.faults media.old;
      document_faults' = M.faults media.new;
    })) }
    ensures no_plan { alerts_plan_of words.now ≡ None → (lines.new ≡ lines.old) × (media.new ≡ media.old) }
{
    match alerts_plan(alloc, words) {
        Ok(plan) => read_both(alloc, &plan, lines, media),
        Err(PlanError::Usage) => Err(Status::Usage),
        Err(PlanError::OutOfMemory) => Err(Status::OutOfMemory),
    }
}
