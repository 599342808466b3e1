//! The top call for a copy.

ghost use Rattle.std.specs.Prelude.{◌≡◌, ◌⊎◌, ◌≤◌, ◌+◌, ℕ, true, false, [], length, map, None, IfOk, IfErr};
ghost use Rattle.entry_laws.specs.InForce.{texts_on};
ghost use Rattle.intake_journal.specs.BaseBytes.{IsFormed};
ghost use Rattle.book_opening.specs.Opening.{run_epochs};
ghost use Rattle.journal_opening.specs.Recovered.{GoesOn};
ghost use Rattle.journal_opening.specs.Replayed.{flat};
ghost use Rattle.journal_opening.specs.Resumed.{IsTakenUp};
ghost use Rattle.server_words.specs.Words.{checkpoint_plan_of};
ghost use Rattle.server_words.specs.declared.status.Status.TheVariants as status;
ghost use Rattle.journal_copy.specs.Copies.{AreLeft, EndsBy, EndsCopy, HasNoState, IsCopy, status_for};
ghost use Rattle.journal_copy.specs.State.{AreKept, OfState, counted};

use crate::replaying::state_of;
use crate::reporting::report;
use intake_journal::{MakeError, make};
use journal_opening::{Kept, read_kept};
use outside::{Disk, Sink};
use server_words::{PlanError, Status, checkpoint_plan};
use std::alloc::Global;
use zbx_types::{Base, Numbered, OutOfMemory, Text};

/// What a call for a copy answers.
#[derive(Drop)]
pub struct Copied<D, E> {
    /// How it ended.
    pub status: Status,
    /// The disk of the journal that was handed in.
    pub from: D,
    /// The disk of its copy that was handed in.
    pub into: E,
}

/// How a copy went, before it is printed: at Ok with the number and the bytes of lines of the state.
#[derive(Drop)]
struct Course<D, E> {
    status: Status,
    number: u64,
    lines: u64,
    from: D,
    into: E,
}

/// A copy that isn't made.
fn stopped<D, E>(status: Status, from: D, into: E) -> Course<D, E>
    ensures { result ≡ record { status = status; number = 0; lines = 0; from = from; into = into } }
{
    Course {
        status,
        number: 0,
        lines: 0,
        from,
        into,
    }
}

/// The status of a call whose copy wasn't made.
fn status_of(error: MakeError) -> Status
    ensures { result ≡ status_for error }
{
    match error {
        MakeError::NotEmpty { bytes } => Status::NotEmpty { bytes },
        MakeError::TooLarge { bytes } => Status::Full { entries: 0, bytes },
        MakeError::DiskFault => Status::DiskFault,
        MakeError::OutOfMemory => Status::OutOfMemory,
    }
}

/// Whether there is no base and no entry.
fn is_nothing(base: &Base, entries: &[Numbered]) -> bool
    ensures none { result ≡ true → (base.entry.now.text ≡ []) × (entries.now ≡ []) }
    ensures some { result ≡ false → 1 ≤ length base.entry.now.text + length entries.now }
{
    base.text.as_bytes().is_empty() && entries.is_empty()
}

/// The disk of a journal that was read, with its state, or why it has none: there is nothing in it, or memory was refused.
#[tactic(auto, using(crate::proofs::Keeping::some_begun, crate::proofs::Copies::nothing_kept, crate::proofs::Copies::kept_state, crate::proofs::Forming::kept_formed))]
fn state_in<D: Disk>(alloc: Global, kept: Kept<D>) -> Result<(D, Base), (D, Status)>
    requires kept { AreKept kept.journal.base kept.entries }
    requires epochs { kept.epochs.items ≡ run_epochs flat kept.journal.base kept.entries }
    ensures disk { IfOk result (λ made. made.0 ≡ kept.journal.disk) }
    ensures formed { IfOk result (λ made. IsFormed made.1) }
    ensures state { IfOk result (λ made. (most : ℕ) (old : D)
        → IsTakenUp D.tells most old kept.journal kept.entries (map flat (texts_on kept.journal.base.text kept.entries))
        → OfState (D.tells old).bytes (λ state. made.1 ≡ counted state)) }
    ensures back { IfErr result (λ why. why.0 ≡ kept.journal.disk) }
    ensures why { IfErr result (λ why. (most : ℕ) (old : D)
        → IsTakenUp D.tells most old kept.journal kept.entries (map flat (texts_on kept.journal.base.text kept.entries))
        → HasNoState (D.tells old).bytes why.1) }
{
    let Kept {
        journal,
        entries,
        epochs,
    } = kept;
    if is_nothing(journal.base(), entries.as_slice()) {
        return Err((journal.end(), Status::NoEntries));
    }
    match state_of(alloc, journal.base(), epochs, entries.as_slice()) {
        Ok(state) => Ok((journal.end(), state)),
        Err(OutOfMemory) => Err((journal.end(), Status::OutOfMemory)),
    }
}

/// Makes the copy of a state.
#[tactic(auto, using(crate::proofs::Copies::made_ends, crate::proofs::Copies::unmade_ends, crate::proofs::Copies::made_left))]
fn put<D: Disk, E: Disk>(alloc: Global, from: D, into: E, state: &Base) -> Course<D, E>
    requires formed { IsFormed state.now }
    ensures from { result.from ≡ from }
    ensures ends { (old : D) → OfState (D.tells old).bytes (λ whole. state.entry.now ≡ counted whole)
        → EndsCopy (record { from = D.tells old; from' = D.tells from; into = E.tells into; into' = E.tells result.into })
        result.number result.lines result.status }
    ensures left { (old : D) → OfState (D.tells old).bytes (λ whole. state.entry.now ≡ counted whole)
        → GoesOn (D.tells old) (D.tells from)
        → AreLeft (record { from = D.tells old; from' = D.tells from; into = E.tells into; into' = E.tells result.into }) }
{
    match make(alloc, into, state) {
        Ok(into) => Course {
            status: Status::Ok,
            number: state.number,
            lines: state.lines,
            from,
            into,
        },
        Err((into, error)) => stopped(status_of(error), from, into),
    }
}

/// Copies what was read of a journal.
#[tactic(auto, using(crate::proofs::Copies::unkept_left, crate::proofs::Copies::stateless_ends))]
fn copy_kept<D: Disk, E: Disk>(alloc: Global, kept: Kept<D>, into: E) -> Course<D, E>
    requires kept { AreKept kept.journal.base kept.entries }
    requires epochs { kept.epochs.items ≡ run_epochs flat kept.journal.base kept.entries }
    ensures ends { (most : ℕ) (old : D)
        → IsTakenUp D.tells most old kept.journal kept.entries (map flat (texts_on kept.journal.base.text kept.entries))
        → EndsCopy (record { from = D.tells old; from' = D.tells result.from; into = E.tells into; into' = E.tells result.into })
        result.number result.lines result.status }
    ensures left { (most : ℕ) (old : D)
        → IsTakenUp D.tells most old kept.journal kept.entries (map flat (texts_on kept.journal.base.text kept.entries))
        → AreLeft (record { from = D.tells old; from' = D.tells result.from; into = E.tells into; into' = E.tells result.into }) }
{
    match state_in(alloc, kept) {
        Ok((from, state)) => put(alloc, from, into, &state),
        Err((from, status)) => stopped(status, from, into),
    }
}

/// Reads a journal and copies it.
#[tactic(auto, using(crate::proofs::Keeping::taken_kept, crate::proofs::Copies::unkept_ends, crate::proofs::Copies::unkept_left))]
fn copy<D: Disk, E: Disk>(alloc: Global, from: D, into: E, max_entries: u64) -> Course<D, E>
    ensures ends { EndsCopy (record { from = D.tells from; from' = D.tells result.from; into = E.tells into; into' = E.tells result.into })
        result.number result.lines result.status }
    ensures left { AreLeft (record { from = D.tells from; from' = D.tells result.from; into = E.tells into; into' = E.tells result.into }) }
{
    match read_kept(alloc, from, max_entries) {
        Ok(kept) => copy_kept(alloc, kept, into),
        Err((from, status)) => stopped(status, from, into),
    }
}

/// Copies a journal as the words ask, up to the printed line.
#[tactic(auto, using(crate::proofs::Copies::planned_ends, crate::proofs::Copies::untouched_left))]
fn go<D: Disk, E: Disk>(alloc: Global, words: &[Text], from: D, into: E) -> Course<D, E>
    ensures ends { EndsBy words.now (record { from = D.tells from; from' = D.tells result.from; into = E.tells into; into' = E.tells result.into })
        result.number result.lines result.status }
    ensures left { AreLeft (record { from = D.tells from; from' = D.tells result.from; into = E.tells into; into' = E.tells result.into }) }
    ensures no_plan { checkpoint_plan_of words.now ≡ None → ((result.status ≡ status.Usage) ⊎ (result.status ≡ status.OutOfMemory))
        × (result.from ≡ from) × (result.into ≡ into) }
{
    match checkpoint_plan(alloc, words) {
        Ok(plan) => {
            let max_entries = plan.max_entries;
            drop(plan);
            copy(alloc, from, into, max_entries)
        }
        Err(PlanError::Usage) => stopped(Status::Usage, from, into),
        Err(PlanError::OutOfMemory) => stopped(Status::OutOfMemory, from, into),
    }
}

/// Copies a journal into a new file, which then holds the state that its entries leave, and no entries. Last it prints one
/// line.
///
/// The words are `--mode checkpoint --journal A --into B`. The disks of both are handed in. The journal may have either
/// version; it keeps what it kept, and a file of at most 9 bytes is made anew. Whoever opens the copy goes on behind its
/// number, with an outbox that holds at least its bytes of lines.
///
/// # Statuses
///
/// `Usage` comes where the words have no plan for a copy. `NotOurs`, `Unfinished`, `Damaged`, `PatternRefused` and
/// `PatternTooLarge` are of the journal, as at the opening of a run; `NoEntries` where it has no base and no entry.
/// `NotEmpty` comes where the new file holds bytes, and `Full`, with no entries and the bytes of the new file, where it would
/// be longer than 1,073,741,824 bytes, or the state's number or its bytes of lines pass 9,000,000,000,000,000,000. `DiskFault`
/// and `PrintFault` come where one of the disks or the printer failed. `OutOfMemory` may come wherever memory is taken. Until
/// it has answered Ok the new file is not for opening.
#[tactic(auto, using(crate::proofs::Copies::printed_ends, crate::proofs::Copies::unprinted, crate::proofs::Copies::usage_printed, crate::proofs::Copies::no_plan_printed))]
pub fn run_checkpoint<D: Disk, E: Disk, P: Sink>(
    alloc: Global,
    words: &[Text],
    from: D,
    into: E,
    print: &mut P,
) -> Copied<D, E>
    // What a call comes to is `IsCopy`, field by field: each status has its cause, and at Ok each crash leaves the state.
    ensures copy { IsCopy words.now
        (record { from = D.tells from; from' = D.tells result.from; into = E.tells into; into' = E.tells result.into })
        (P.tells print.old) (P.tells print.new) result.status }

    // Usage comes exactly where the words have no plan for a copy, unless memory was refused. Then both disks are as before.
    ensures usage { result.status ≡ status.Usage → checkpoint_plan_of words.now ≡ None }
    ensures no_plan { checkpoint_plan_of words.now ≡ None → ((result.status ≡ status.Usage) ⊎ (result.status ≡ status.OutOfMemory))
        × (result.from ≡ from) × (result.into ≡ into) }
{
    let course = go(alloc, words, from, into);
    let status = report(alloc, course.status, course.number, course.lines, print);
    Copied {
        status,
        from: course.from,
        into: course.into,
    }
}
