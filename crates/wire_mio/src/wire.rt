//! The wire over sockets.

ghost use Rattle.std.specs.Prelude.{◌≡◌, ◌≢◌, ◌≤◌, ◌<◌, ◌+◌, ℕ, [], None, IfOk, IsErrOf, false, true, is_some, not, length, ◌==◌};
ghost use Rattle.std.specs.List.{All};
ghost use Rattle.std.specs.Option.{option_map};
ghost use Rattle.outside.specs.Causes.{HasCause};
ghost use Rattle.outside.specs.Events.{Gives, CountsGiven, HasNextCause, Sends};
ghost use Rattle.outside.specs.declared.event.Trouble.TheVariants as trouble;
ghost use Rattle.wire_mio.specs.Adapters.{faults_behind};
ghost use Rattle.wire_mio.specs.Queues.{MayFollow, GivesFirst, LeavesQueue, told_behind, failed_behind};
ghost use Rattle.wire_mio.specs.Tables.{GoesOn, IsNumbered, KeepsLive, Tells, IsSentOn, IsTakenUp, answered, held_in, count_in, is_live};
ghost use Rattle.zbx_types.specs.Limits.{most_connections};

use crate::connections::Connections;
use crate::queue::Queue;
use crate::sockets::Sockets;
use outside::{Failed, Tally, Trouble, Wire, WireEvent};
use std::alloc::Global;
use std::convert::AsStr;
use std::marker::Model;
use std::net::Net;
use std::time::Clock;
use zbx_types::{Moment, OutOfMemory, Text};

/// How many looks at the sockets make a second of waiting.
const LOOKS: u32 = 10;

/// A wire over TCP sockets. It tells neither its events nor what it sent and closed, and never closes itself.
///
/// Contracts see the events that stand in its queue, which `next` gives in their order, and the latest connection of which
/// `next` has told. Each moment is that of the look at the sockets that found the event. Moments begin with the system's time and
/// go on as the monotonic clock does; once a minute the system's time is looked at, and taken where it is ahead. So they never
/// fall, and go on where the system's time is put back. Contracts also see which connections were there each time that a newcomer
/// was turned away, the latest first: 128, of which each was open and had brought a byte, or opened, in the last 60 seconds.
#[derive(Drop)]
pub struct MioWire<C: Clock> {
    clock: C,
    sockets: Option<Sockets>,
    peers: Connections,
    queue: Queue,
    given: Tally,
    sends: Tally,
    faults: u64,
    unsent: u64,
}

impl<C: Clock> Model for MioWire<C> {
    ghost use Rattle.std.specs.Option.{is_some};
    ghost use Rattle.wire_mio.specs.Queues.{WireState};
    ghost use Rattle.wire_mio.specs.Tables.{IsNumbered};

    ghost Value = { WireState };

    ghost view = { λ w. record { waiting = w.queue.events; told = w.queue.told; connections = w.peers; turned_away = w.queue.turned_away; listens = is_some w.sockets; given = w.given; sends = w.sends; faults = w.faults; unsent = w.unsent } };

    ghost invariant = { λ w. IsNumbered w.peers w.queue.opened };
}

impl<C: Clock + Net + Drop> MioWire<C> {
    /// A wire that listens on an address, as `0.0.0.0:10051` or `[::]:10051`. Where no socket is to be had there, each call
    /// of `next` fails.
    pub fn listen(rt: C, alloc: Global, address: &Text) -> Result<MioWire<C>, OutOfMemory>
        ensures new { IfOk result (λ wire. wire ≡ record { waiting = []; told = 0; connections = wire.connections; turned_away = []; listens = wire.listens; given = 0; sends = 0; faults = 0; unsent = 0 }) }
        ensures none { IfOk result (λ wire. (count_in wire.connections ≡ 0) × ((c : ℕ) → held_in wire.connections c ≡ None)) }
    {
        let sockets = Sockets::listen(&rt, alloc, address.as_str())?;
        Ok(MioWire {
            clock: rt,
            sockets,
            peers: Connections::new(alloc),
            queue: Queue::new(alloc),
            given: Tally::zero(),
            sends: Tally::zero(),
            faults: 0,
            unsent: 0,
        })
    }
}

impl<C: Clock> MioWire<C> {
    /// How many connections are there, with those that have ended or were closed and haven't gone yet.
    pub fn connections(&self) -> usize
        ensures value { result ≡ count_in self.now.connections }
        ensures most { result ≤ most_connections }
    {
        self.peers.count()
    }
}

impl<C: Clock> Wire for MioWire<C> {
    ghost tells = { λ w. record { left = None; given = w.given; sent = None; sends = w.sends; closed = None; faults = w.faults; unsent = w.unsent } };

    fn faults(&self) -> u64 {
        self.faults
    }

    fn unsent(&self) -> u64 {
        self.unsent
    }

    /// Whether an event stands in the queue.
    fn ready(&self) -> bool
        ensures { result ≡ not (length self.now.waiting == 0) }
    {
        !self.queue.is_empty()
    }

    /// The event that stands first in the queue, or else the first of those that a look at the sockets brings; Quiet where
    /// none comes in a second.
    ///
    /// Failed where it has no socket, where the clock stands before 1970 or behind 2106, and where the system fails. What
    /// came before an error isn't lost: a later call gives it.
    fn next(&mut self, alloc: Global) -> Result<WireEvent, Trouble>
        ensures first { GivesFirst self.old.waiting self.new.waiting result }
        ensures follows { IfOk result (MayFollow self.old.told) }
        ensures told { self.new.told ≡ told_behind self.old.told result }
        ensures ends { self.old.waiting ≡ [] → (c : ℕ) → Tells c (is_live (held_in self.old.connections c)) (is_live (held_in self.new.connections c)) (answered result self.new.waiting) }
        ensures stays { 0 < length self.old.waiting → (self.new.connections ≡ self.old.connections) × (self.new.turned_away ≡ self.old.turned_away) }
        ensures away { All IsTakenUp self.new.turned_away }
        ensures failed { self.new.faults ≡ failed_behind self.old.faults result }
        ensures deaf { self.old.listens ≡ false → self.old.waiting ≡ [] → IsErrOf result trouble.Failed }
        ensures listens { self.new.listens ≡ self.old.listens }
        ensures event { Gives None None result }
        ensures given { CountsGiven self.old.given self.new.given result }
        ensures cause { HasNextCause self.old.faults self.new.faults result }
        ensures sends { self.new.sends ≡ self.old.sends }
        ensures unsent { self.new.unsent ≡ self.old.unsent }
    {
        self.queue.were_taken_up();
        if let Some(event) = self.queue.pop() {
            self.given.rise();
            return Ok(event);
        }
        let waited = wait(
            alloc,
            &self.clock,
            &mut self.sockets,
            &mut self.peers,
            &mut self.queue,
        );
        self.queue.were_taken_up();
        match waited {
            Ok(event) => {
                self.given.rise();
                Ok(event)
            }
            Err(Trouble::Failed) => {
                self.faults = self.faults.saturating_add(1);
                Err(Trouble::Failed)
            }
            Err(Trouble::OutOfMemory) => Err(Trouble::OutOfMemory),
        }
    }

    /// Sends bytes to a connection. Those for which there is no room at once wait, at most 16,777,229 for a connection, and go out
    /// as `next` looks at the sockets; a close comes behind them. Where there is no memory for them, or too many wait, it waits for
    /// room at most 1,000 times, 10 milliseconds each. It fails where there is no room then, where the connection is lost, closed
    /// or not there, and where the system fails.
    #[tactic(auto, using(crate::proofs::Telling::numbered_same))]
    fn send(&mut self, conn: u64, bytes: &[u8]) -> Result<(), Failed>
        ensures queue { LeavesQueue self.old self.new }
        ensures failed { self.new.unsent ≡ faults_behind self.old.unsent result }
        ensures sends { self.new.sends ≡ self.old.sends + 1 }
        ensures sent { Sends None None conn bytes.now result }
        ensures one { IsSentOn conn self.old.listens self.old.connections self.new.connections }
        ensures cause { HasCause self.old.unsent self.new.unsent result }
    {
        self.sends.rise();
        let sent = deliver(&mut self.sockets, &mut self.peers, conn, bytes);
        if sent.is_err() {
            self.unsent = self.unsent.saturating_add(1);
        }
        sent
    }

    /// Closes a connection behind what was sent to it. Events of it that stand in the queue are still given.
    #[tactic(auto, using(crate::proofs::Telling::numbered_closed))]
    fn close(&mut self, conn: u64)
        ensures queue { LeavesQueue self.old self.new }
        ensures sends { self.new.sends ≡ self.old.sends }
        ensures unsent { self.new.unsent ≡ self.old.unsent }
        ensures one { is_live (held_in self.new.connections conn) ≡ false }
        ensures others { (c : ℕ) → c ≢ conn → held_in self.new.connections c ≡ held_in self.old.connections c }
    {
        self.peers.close(conn);
    }
}

/// Waits for an event, for a second at most. Where there is no socket it fails.
#[tactic(auto, using(crate::proofs::Telling::goes_from, crate::proofs::Telling::quiet_told))]
fn wait<C: Clock>(
    alloc: Global,
    clock: &C,
    sockets: &mut Option<Sockets>,
    peers: &mut Connections,
    queue: &mut Queue,
) -> Result<WireEvent, Trouble>
    requires { IsNumbered peers.old queue.old.opened }
    ensures numbered { IsNumbered peers.new queue.new.opened }
    ensures follows { IfOk result (MayFollow queue.old.told) }
    ensures told { queue.new.told ≡ told_behind queue.old.told result }
    ensures ends { queue.old.events ≡ [] → (c : ℕ) → Tells c (is_live (held_in peers.old c)) (is_live (held_in peers.new c)) (answered result queue.new.events) }
    ensures sockets { is_some sockets.new ≡ is_some sockets.old }
    ensures deaf { is_some sockets.old ≡ false → IsErrOf result trouble.Failed }
{
    let mut at = Moment::zero();
    let Some(sockets) = sockets else {
        return Err(Trouble::Failed);
    };
    'looks: for _ in 0..LOOKS {
        if !queue.is_empty() {
            break;
        }
        at = sockets.look(alloc, clock, peers, queue)?;
    }
    match queue.pop() {
        Some(event) => Ok(event),
        None => Ok(WireEvent::Quiet { at }),
    }
}

/// Sends bytes to a connection. It fails where the connection isn't there.
fn deliver(
    sockets: &mut Option<Sockets>,
    peers: &mut Connections,
    conn: u64,
    bytes: &[u8],
) -> Result<(), Failed>
    ensures sockets { is_some sockets.new ≡ is_some sockets.old }
    ensures one { IsSentOn conn (is_some sockets.old) peers.old peers.new }
    ensures live { KeepsLive peers.old peers.new }
{
    let Some(sockets) = sockets else {
        return Err(Failed);
    };
    sockets.send(peers, conn, bytes)
}
