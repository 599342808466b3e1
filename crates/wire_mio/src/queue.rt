//! The events of a wire that stand ready.

ghost use Rattle.std.specs.Prelude.{◌≡◌, ◌<◌, ◌+◌, ◌++◌, ◌∷◌, [], length, option_to_list, IfSome, IfNone, OnOk, ◌==◌};
ghost use Rattle.std.specs.List.{All};
ghost use Rattle.wire_mio.specs.Queues.{MayFollow, told_after};
ghost use Rattle.wire_mio.specs.Tables.{IsTakenUp};

use crate::connections::Connections;
use crate::turned::TurnedAway;
use outside::WireEvent;
use std::alloc::Global;
use std::collections::VecDeque;
use std::marker::Model;
use zbx_types::OutOfMemory;

/// Events in the order in which they came. Each may come behind those before it: connections are told of by rising
/// numbers from 1 on, and pieces have their bounds.
#[derive(Drop)]
pub(crate) struct Queue {
    events: VecDeque<WireEvent>,
    told: u64,
    opened: u64,
    turned_away: TurnedAway,
}

impl Model for Queue {
    ghost use Rattle.std.specs.Prelude.{◌≡◌, ◌-◌};
    ghost use Rattle.std.specs.VecDeque.{deque_len, deque_capacity};
    ghost use Rattle.wire_mio.specs.Queues.{Queued, AreInTurn, told_after_all};

    ghost Value = { Queued };

    ghost view = { λ q. record { events = q.events.items; told = q.told; opened = q.opened; turned_away = q.turned_away; room = deque_capacity q.events - deque_len q.events } };

    ghost invariant = { λ q. AreInTurn q.told q.events.items × (q.opened ≡ told_after_all q.told q.events.items) };
}

impl Queue {
    /// A queue of no events, of a wire without a connection yet. Takes no memory.
    pub(crate) fn new(alloc: Global) -> Queue
        ensures events { result.events ≡ [] }
        ensures told { result.told ≡ 0 }
        ensures away { result.turned_away ≡ [] }
    {
        Queue {
            events: VecDeque::new(alloc),
            told: 0,
            opened: 0,
            turned_away: TurnedAway::none(),
        }
    }

    /// Whether it has no event.
    pub(crate) fn is_empty(&self) -> bool
        ensures { result ≡ (length self.now.events == 0) }
    {
        self.events.is_empty()
    }

    /// The latest connection that opened, or 0.
    pub(crate) fn opened(&self) -> u64
        ensures { result ≡ self.now.opened }
    {
        self.opened
    }

    /// Makes room for two events more.
    pub(crate) fn reserve(&mut self) -> Result<(), OutOfMemory>
        ensures room { OnOk result (1 < self.new.room) }
        ensures events { self.new.events ≡ self.old.events }
        ensures told { self.new.told ≡ self.old.told }
        ensures opened { self.new.opened ≡ self.old.opened }
        ensures away { self.new.turned_away ≡ self.old.turned_away }
    {
        match self.events.reserve(2) {
            Ok(()) => Ok(()),
            Err(_) => Err(OutOfMemory),
        }
    }

    /// Adds an event behind the others. Takes no memory.
    #[tactic(auto, using(crate::proofs::InTurn::in_turn_push, crate::proofs::InTurn::told_after_all_push))]
    pub(crate) fn push(&mut self, event: WireEvent)
        requires room { 0 < self.old.room }
        requires follows { MayFollow self.old.opened event }
        ensures events { self.new.events ≡ self.old.events ++ event ∷ [] }
        ensures told { self.new.told ≡ self.old.told }
        ensures opened { self.new.opened ≡ told_after self.old.opened event }
        ensures left { self.new.room + 1 ≡ self.old.room }
        ensures away { self.new.turned_away ≡ self.old.turned_away }
    {
        if let WireEvent::Opened { conn, .. } = &event {
            self.opened = *conn;
        }
        self.events.push_back_reserved(event);
    }

    /// A newcomer was turned away, where these connections were there.
    pub(crate) fn turn_away(&mut self, there: &Connections)
        requires { IsTakenUp there.now }
        ensures events { self.new.events ≡ self.old.events }
        ensures told { self.new.told ≡ self.old.told }
        ensures opened { self.new.opened ≡ self.old.opened }
        ensures away { self.new.turned_away ≡ there.now ∷ self.old.turned_away }
        ensures room { self.new.room ≡ self.old.room }
    {
        self.turned_away.add(there);
    }

    /// Each time that a newcomer was turned away all places were taken up.
    pub(crate) fn were_taken_up(&self)
        ensures { All IsTakenUp self.now.turned_away }
    {
        self.turned_away.were_taken_up();
    }

    /// Takes the first event, if there is one.
    pub(crate) fn pop(&mut self) -> Option<WireEvent>
        ensures events { self.old.events ≡ option_to_list result ++ self.new.events }
        ensures some { IfSome result (λ event. MayFollow self.old.told event × (self.new.told ≡ told_after self.old.told event)) }
        ensures opened { self.new.opened ≡ self.old.opened }
        ensures away { self.new.turned_away ≡ self.old.turned_away }
        ensures none { IfNone result ((self.old.events ≡ []) × (self.new.told ≡ self.old.told)) }
    {
        let event = self.events.pop_front()?;
        if let WireEvent::Opened { conn, .. } = &event {
            self.told = *conn;
        }
        Some(event)
    }
}
