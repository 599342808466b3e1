//! Entries that were journaled go into the ring, for those who work them out.

ghost use Rattle.std.specs.Prelude.{◌≡◌, ◌<◌, ◌++◌, ◌∷◌, [], drop, OnOk, OnErr};
ghost use mathlib.Core.List.{IsPrefix};
ghost use Rattle.book.specs.Entries.{IsWholeLog};

use book::{RingHead, RunName};
use book_opening::StartName;
use conf_index::Ready;
use intake_front::Front;
use outside::Disk;
use std::alloc::Global;
use zbx_types::{Numbered, OutOfMemory};

/// Who takes the entries that go into a ring, beside or between the taking of events.
pub(crate) trait Worker<S: StartName, N: RunName> {
    ghost use Rattle.std.specs.Prelude.{◌≡◌, false, OnOk, IfOk};

    /// What is known of one that can't go on.
    ghost stops: { Self → Type 0 };

    /// Takes all that is in the ring. Its slots are free then.
    fn make_room(&mut self, alloc: Global, head: &mut RingHead<S, N>) -> Result<(), OutOfMemory>
        ensures sent { head.new.sent ≡ head.old.sent }
        ensures capacity { head.new.capacity ≡ head.old.capacity }
        ensures free { OnOk result (head.new.free ≡ head.new.capacity) };

    /// Has the entries in the ring worked out, now or later. Answers whether the run may go on.
    fn proceed(
        &mut self,
        alloc: Global,
        ready: &Ready,
        head: &mut RingHead<S, N>,
    ) -> Result<bool, OutOfMemory>
        requires conf { ready.now ≡ S.start.stage }
        ensures sent { head.new.sent ≡ head.old.sent }
        ensures capacity { head.new.capacity ≡ head.old.capacity }
        ensures stops { IfOk result (λ on. on ≡ false → stops self.new) };
}

/// Sends an entry. Where the ring is full, what is in it is taken first. At `Err` it isn't sent.
fn send_one<S: StartName, N: RunName, K: Worker<S, N>>(
    alloc: Global,
    entry: Numbered,
    head: &mut RingHead<S, N>,
    worker: &mut K,
) -> Result<(), OutOfMemory>
    requires whole { IsWholeLog S.start (head.old.sent ++ entry ∷ []) }
    requires room { 0 < head.old.capacity }
    ensures capacity { head.new.capacity ≡ head.old.capacity }
    ensures ok { OnOk result (head.new.sent ≡ head.old.sent ++ entry ∷ []) }
    ensures err { OnErr result (head.new.sent ≡ head.old.sent) }
{
    let Err(entry) = head.push(entry) else {
        return Ok(());
    };
    worker.make_room(alloc, head)?;
    match head.push(entry) {
        Ok(()) => Ok(()),
        Err(_entry) => unreachable!(),
    }
}

/// Sends entries, in their order. At `Err` some from the front are sent.
fn send_all<S: StartName, N: RunName, K: Worker<S, N>>(
    alloc: Global,
    entries: &[Numbered],
    head: &mut RingHead<S, N>,
    worker: &mut K,
) -> Result<(), OutOfMemory>
    requires whole { IsWholeLog S.start (head.old.sent ++ entries.now) }
    requires room { 0 < head.old.capacity }
    ensures capacity { head.new.capacity ≡ head.old.capacity }
    ensures all { OnOk result (head.new.sent ≡ head.old.sent ++ entries.now) }
    ensures front { IsPrefix head.new.sent (head.old.sent ++ entries.now) }
{
    for entry in entries {
        let copy = entry.copy(alloc)?;
        send_one(alloc, copy, head, worker)?;
    }
    Ok(())
}

/// The entries after the first ones of this number.
#[tactic(auto, using(std::proofs::lemmas::List::drop_all))]
fn after_first(entries: &[Numbered], first: usize) -> &[Numbered]
    ensures { result.now ≡ drop first entries.now }
{
    if first <= entries.len() {
        &entries[first..]
    } else {
        &[]
    }
}

/// Sends the entries of a front after the first ones of this number. At `Err` some of them from the front are sent.
pub(crate) fn send_after<S: StartName, N: RunName, D: Disk, K: Worker<S, N>>(
    alloc: Global,
    front: &Front<D>,
    first: usize,
    head: &mut RingHead<S, N>,
    worker: &mut K,
) -> Result<(), OutOfMemory>
    requires whole { IsWholeLog S.start (head.old.sent ++ drop first front.now.intake.entries) }
    requires room { 0 < head.old.capacity }
    ensures capacity { head.new.capacity ≡ head.old.capacity }
    ensures all { OnOk result (head.new.sent ≡ head.old.sent ++ drop first front.entry.now.intake.entries) }
    ensures front { IsPrefix head.new.sent (head.old.sent ++ drop first front.entry.now.intake.entries) }
{
    send_all(alloc, after_first(front.entries(), first), head, worker)
}
