//! A ring and its two ends.

ghost use Rattle.std.specs.Prelude.{◌≡◌, ◌+◌, ◌<◌, ◌≤◌, [], ◌∷◌, ◌++◌, length, IsOk, IfOk, IfErr, OnOk, OnErr, IsSome, IsNone, IfSome, IfNone, ◌↔◌};
ghost use mathlib.Core.List.{IsPrefix};
ghost use Rattle.book.specs.Entries.{IsWholeLog};

use crate::names::RunName;
use book_opening::StartName;
use rtrb::{Consumer, Producer, Protocol, PushError, RingBuffer};
use std::alloc::Global;
use std::marker::{Model, PhantomData};
use zbx_types::{Numbered, OutOfMemory};

/// What may be sent: an entry with which the entries sent are a whole log behind those that a run began with. No Config
/// is.
struct LogRule<S> {
    of: PhantomData<S>,
}

impl<S: StartName> Protocol<Numbered> for LogRule<S> {
    ghost use Rattle.std.specs.Prelude.{◌++◌, ◌∷◌, []};
    ghost use Rattle.book.specs.Entries.{IsWholeLog};

    ghost allows = { λ before x. IsWholeLog S.start (before ++ x ∷ []) };
}

/// A ring that nothing was sent through yet, and whose ends have no name. Contracts see by what it is known, and its
/// capacity.
#[derive(Drop)]
pub struct Ring<S: StartName> {
    producer: Producer<Numbered, Global, LogRule<S>>,
    consumer: Consumer<Numbered, Global, LogRule<S>>,
}

impl<S: StartName> Model for Ring<S> {
    ghost use Rattle.rtrb.specs.Ring.{producer_capacity};
    ghost use Rattle.book.specs.Ends.{RingView, ring_of, AreFresh};

    ghost Value = { RingView };

    ghost view = { λ r. record { id = ring_of r.producer.end; capacity = producer_capacity r.producer } };

    ghost invariant = { λ r. AreFresh r.producer r.consumer };
}

impl<S: StartName> Ring<S> {
    /// A ring with room for so many entries. [`OutOfMemory`] where there is no memory for them.
    pub fn new(alloc: Global, capacity: usize) -> Result<Ring<S>, OutOfMemory>
        ensures { IfOk result (λ ring. ring.capacity ≡ capacity) }
    {
        let (producer, consumer) = RingBuffer::with_protocol::<Global, LogRule<S>>(
            alloc, capacity,
        )?;
        Ok(Ring { producer, consumer })
    }

    /// Its two ends, under the name of a run, which has to be that of this ring. Nothing is sent yet, and all slots are
    /// known to be free. Takes no memory.
    pub fn named<N: RunName>(self) -> (RingHead<S, N>, RingEnd<S, N>)
        requires { self.id ≡ N.ring }
        ensures head { result.0 ≡ record { sent = []; free = self.capacity; capacity = self.capacity } }
        ensures end { result.1 ≡ record { received = []; known = []; capacity = self.capacity } }
    {
        let Ring { producer, consumer } = self;
        (
            RingHead {
                producer,
                of: PhantomData,
            },
            RingEnd {
                consumer,
                of: PhantomData,
            },
        )
    }
}

/// The end that sends. Contracts see the entries sent so far, how many slots it knows to be free, and how many there
/// are.
#[derive(Drop)]
pub struct RingHead<S: StartName, N: RunName> {
    producer: Producer<Numbered, Global, LogRule<S>>,
    of: PhantomData<N>,
}

impl<S: StartName, N: RunName> Model for RingHead<S, N> {
    ghost use Rattle.std.specs.Prelude.{◌≡◌};
    ghost use Rattle.rtrb.specs.Ring.{sent, known_free, producer_capacity};
    ghost use Rattle.book.specs.Ends.{HeadView, ring_of};

    ghost Value = { HeadView };

    ghost view = { λ h. record { sent = sent h.producer; free = known_free h.producer; capacity = producer_capacity h.producer } };

    ghost invariant = { λ h. ring_of h.producer.end ≡ N.ring };
}

/// The end that receives. Contracts see the entries received so far, those that it knows to be next, and how many slots
/// there are.
#[derive(Drop)]
pub struct RingEnd<S: StartName, N: RunName> {
    consumer: Consumer<Numbered, Global, LogRule<S>>,
    of: PhantomData<N>,
}

impl<S: StartName, N: RunName> Model for RingEnd<S, N> {
    ghost use Rattle.std.specs.Prelude.{◌≡◌};
    ghost use Rattle.rtrb.specs.Ring.{received, known_items, consumer_capacity};
    ghost use Rattle.book.specs.Ends.{EndView, ring_of};

    ghost Value = { EndView };

    ghost view = { λ e. record { received = received e.consumer; known = known_items e.consumer; capacity = consumer_capacity e.consumer } };

    ghost invariant = { λ e. ring_of e.consumer.end ≡ N.ring };
}

impl<S: StartName, N: RunName> RingHead<S, N> {
    /// Sends an entry, which is no Config, or hands it back where no slot is free. Its number has to follow: with it,
    /// the entries sent are a whole log behind those that the run began with. Takes no memory.
    pub fn push(&mut self, entry: Numbered) -> Result<(), Numbered>
        requires { IsWholeLog S.start (self.old.sent ++ entry ∷ []) }
        ensures sent { OnOk result (self.new.sent ≡ self.old.sent ++ entry ∷ []) }
        ensures room { OnOk result (self.old.free ≤ self.new.free + 1) }
        ensures back { IfErr result (λ back. back ≡ entry) }
        ensures same { OnErr result (self.new.sent ≡ self.old.sent) }
        ensures full { OnErr result (self.new.free ≡ 0) }
        ensures succeeds { 0 < self.old.free → IsOk result }
        ensures capacity { self.new.capacity ≡ self.old.capacity }
    {
        match self.producer.push(entry) {
            Ok(()) => Ok(()),
            Err(PushError::Full(back)) => Err(back),
        }
    }

    /// How many slots are free, for a thread that has both ends: all those that hold no entry. That the other end is
    /// of the same ring, its type says.
    pub fn look_beside(&mut self, end: &mut RingEnd<S, N>) -> usize
        ensures value { result ≡ self.new.free }
        ensures free { self.new.free + length self.new.sent ≡ self.new.capacity + length end.new.received }
        ensures more { self.old.free ≤ self.new.free }
        ensures head { (self.new.sent ≡ self.old.sent) × (self.new.capacity ≡ self.old.capacity) }
        ensures end { (end.new.received ≡ end.old.received) × IsPrefix end.old.known end.new.known
            × (end.new.capacity ≡ end.old.capacity) }
    {
        self.producer.slots_beside(&mut end.consumer)
    }
}

impl<S: StartName, N: RunName> RingEnd<S, N> {
    /// Takes the oldest entry, where the ring shows one. With it, what was received is a whole log behind the entries
    /// that the run began with. What the head sends meanwhile may show or not.
    #[tactic(auto, using(crate::proofs::Numbers::number_behind))]
    pub fn take(&mut self) -> Option<Numbered>
        ensures received { IfSome result (λ entry. self.new.received ≡ self.old.received ++ entry ∷ []) }
        ensures known { IfSome result (λ entry. IsPrefix self.old.known (entry ∷ self.new.known)) }
        ensures number { IfSome result (λ entry. entry.number ≡ S.start.number + length self.new.received) }
        ensures whole { IfSome result (λ _. IsWholeLog S.start self.new.received) }
        ensures none { IfNone result ((self.new.received ≡ self.old.received) × (self.new.known ≡ [])) }
        ensures succeeds { 0 < length self.old.known → IsSome result }
        ensures capacity { self.new.capacity ≡ self.old.capacity }
    {
        self.consumer.pop().ok()
    }

    /// Looks at the ring, and answers how many entries it shows. Some that the head sends meanwhile may show or not.
    pub fn look(&mut self) -> usize
        ensures value { result ≡ length self.new.known }
        ensures more { IsPrefix self.old.known self.new.known }
        ensures same { (self.new.received ≡ self.old.received) × (self.new.capacity ≡ self.old.capacity) }
    {
        self.consumer.slots()
    }

    /// Takes the oldest entry, which is known to be there. With it, what was received is a whole log behind the
    /// entries that the run began with.
    #[tactic(auto, using(crate::proofs::Numbers::number_behind))]
    pub fn take_known(&mut self) -> Numbered
        requires { 0 < length self.old.known }
        ensures received { self.new.received ≡ self.old.received ++ result ∷ [] }
        ensures known { self.old.known ≡ result ∷ self.new.known }
        ensures fifo { self.new.received ++ self.new.known ≡ self.old.received ++ self.old.known }
        ensures number { result.number ≡ S.start.number + length self.new.received }
        ensures whole { IsWholeLog S.start self.new.received }
        ensures capacity { self.new.capacity ≡ self.old.capacity }
    {
        self.consumer.pop_known()
    }

    /// Takes the oldest entry, for a thread that has both ends. None comes exactly where the ring is empty. Where it
    /// leaves the ring empty, all slots are known to be free. That the other end is of the same ring, its type says.
    pub fn take_beside(&mut self, head: &mut RingHead<S, N>) -> Option<Numbered>
        ensures none { IsNone result ↔ (self.old.received ≡ head.old.sent) }
        ensures received { IfSome result (λ entry. self.new.received ≡ self.old.received ++ entry ∷ []) }
        ensures same { IfNone result (self.new.received ≡ self.old.received) }
        ensures number { IfSome result (λ entry. entry.number ≡ S.start.number + length self.new.received) }
        ensures whole { IfSome result (λ _. IsWholeLog S.start self.new.received) }
        ensures free { self.new.received ≡ head.new.sent → head.new.free ≡ head.new.capacity }
        ensures end { self.new.capacity ≡ self.old.capacity }
        ensures head { (head.new.sent ≡ head.old.sent) × (head.new.capacity ≡ head.old.capacity) }
    {
        if self.look_beside(head) == 0 {
            head.look_beside(self);
            return None;
        }
        let entry = self.take_known();
        head.look_beside(self);
        Some(entry)
    }

    /// How many entries are in the ring, for a thread that has both ends: those that were received and those that are
    /// known to be next are exactly the ones that were sent, in their order. That the other end is of the same ring,
    /// its type says.
    pub fn look_beside(&mut self, head: &mut RingHead<S, N>) -> usize
        ensures value { result ≡ length self.new.known }
        ensures fifo { self.new.received ++ self.new.known ≡ head.new.sent }
        ensures more { IsPrefix self.old.known self.new.known }
        ensures end { (self.new.received ≡ self.old.received) × (self.new.capacity ≡ self.old.capacity) }
        ensures head { (head.new.sent ≡ head.old.sent) × (head.old.free ≤ head.new.free)
            × (head.new.capacity ≡ head.old.capacity) }
    {
        self.consumer.slots_beside(&mut head.producer)
    }
}
