//! The table of the connections that are there.

ghost use Rattle.std.specs.Prelude.{◌≡◌, ◌≤◌, ◌<◌, ◌++◌, ◌∷◌, [], length, IfOk, OnOk, OnErr, Some, None, position, remove, slice_set, slice_index_or, if◌then◌else◌};
ghost use Rattle.wire_core.specs.Peers.{no_peers, turn_of, after_event, LeavesOthers, without, is_of, may_open, opened, peer_of, piece_turn, after_piece};
ghost use Rattle.wire_core.specs.Kept.{given, begun, peers_in};
ghost use Rattle.wire_core.specs.declared.turn.Turn.TheVariants as turns;
ghost use Rattle.wire_core.specs.declared.peer.Peer.{Peer};
ghost use Rattle.zbx_types.specs.Limits.{most_connections};
ghost use Rattle.zbxd_frame.specs.Found.{found, short};
ghost use Rattle.zbxd_frame.specs.Answers.{Answers};

use crate::peer::Opened;
use crate::turn::Turn;
use indexmap::IndexMap;
use outside::WireEvent;
use std::alloc::Global;
use std::marker::Model;
use zbx_types::{MOST_CONNECTIONS, Moment, OutOfMemory};
use zbxd_frame::{Fed, Feed};

/// The connections of a wire that are there, each with the moment at which it opened and its bytes
/// since then. A connection is found by its number, with no walk over the others. Contracts see them as
/// a list of peers in the order in which they opened, `Peers`. There are at most 128, no two of one
/// number, and each has brought less than a frame.
#[derive(Debug, Drop)]
pub struct Table {
    peers: IndexMap<u64, Opened>,
}

impl Model for Table {
    ghost use Rattle.wire_core.specs.Peers.{Peers};
    ghost use Rattle.wire_core.specs.Kept.{AreKept, peers_in};

    ghost Value = { Peers };

    ghost view = { λ t. peers_in t.peers.entries };

    ghost invariant = { λ t. AreKept (peers_in t.peers.entries) };
}

impl Table {
    /// No connection is there. Takes no memory.
    pub fn new(alloc: Global) -> Table
        ensures { result ≡ no_peers }
    {
        Table {
            peers: IndexMap::new(alloc),
        }
    }

    /// Takes an event of the wire, and says what it comes to. `now` is the moment of the run at the
    /// event, at which a connection that opens begins; the event's own moment isn't looked at. A
    /// piece takes time for its own bytes and a look-up by hash. One that ends a frame takes time for
    /// moving the body to the front of its bytes, which are handed over, and a connection that goes
    /// takes time for closing its gap among those that opened later. At `Err`, where memory was
    /// refused, nothing has changed, and the same event may be taken again. The rules are this
    /// project's own.
    pub fn on(&mut self, alloc: Global, event: &WireEvent, now: Moment) -> Result<Turn, OutOfMemory>
        ensures turn { IfOk result (λ t. t ≡ turn_of self.old now event.now) }
        ensures after { OnOk result (self.new ≡ after_event self.old now event.now) }
        ensures err { OnErr result (self.new ≡ self.old) }
        ensures few { length self.new ≤ most_connections }
        ensures others { LeavesOthers event.now self.old self.new }
    {
        let turn = self.take(alloc, event, now);
        // The bound is true of every table: a look at the fields tells it.
        let _ = &self.peers;
        turn
    }

    /// Takes an event, each kind by its own rule.
    #[tactic(auto, unfolding(crate::specs::Peers::turn_of, crate::specs::Peers::after_event))]
    fn take(&mut self, alloc: Global, event: &WireEvent, now: Moment) -> Result<Turn, OutOfMemory>
        ensures turn { IfOk result (λ t. t ≡ turn_of self.old now event.now) }
        ensures after { OnOk result (self.new ≡ after_event self.old now event.now) }
        ensures err { OnErr result (self.new ≡ self.old) }
    {
        match event {
            WireEvent::Opened { conn, .. } => self.begin(alloc, *conn, now),
            WireEvent::Piece { conn, bytes, .. } => self.bring(alloc, *conn, bytes.as_slice()),
            WireEvent::Ended { conn, .. } | WireEvent::Broke { conn, .. } => {
                self.end(*conn);
                Ok(Turn::Nothing)
            }
            WireEvent::Quiet { .. } | WireEvent::Closed { .. } => Ok(Turn::Nothing),
        }
    }

    /// A connection opens: one that is there begins anew, another joins where there is room.
    fn begin(&mut self, alloc: Global, conn: u64, now: Moment) -> Result<Turn, OutOfMemory>
        ensures turn { IfOk result (λ t. t ≡ (if may_open self.old conn then turns.Nothing else turns.Shut conn)) }
        ensures after { OnOk result (self.new ≡ (if may_open self.old conn then opened self.old conn now else self.old)) }
        ensures err { OnErr result (self.new ≡ self.old) }
    {
        let opened = Opened {
            since: now,
            bytes: Feed::new(alloc),
        };
        match place_of(&self.peers, conn) {
            Some(place) => {
                begin_anew(&mut self.peers, place, opened);
                Ok(Turn::Nothing)
            }
            None => {
                if self.peers.len() < MOST_CONNECTIONS {
                    join(&mut self.peers, conn, opened)?;
                    Ok(Turn::Nothing)
                } else {
                    Ok(Turn::Shut { conn })
                }
            }
        }
    }

    /// A connection brings a piece.
    fn bring(&mut self, alloc: Global, conn: u64, piece: &[u8]) -> Result<Turn, OutOfMemory>
        ensures turn { IfOk result (λ t. t ≡ piece_turn piece.now (peer_of self.old conn)) }
        ensures after { OnOk result (self.new ≡ after_piece self.old piece.now (peer_of self.old conn)) }
        ensures err { OnErr result (self.new ≡ self.old) }
    {
        match place_of(&self.peers, conn) {
            None => Ok(Turn::Nothing),
            Some(place) => {
                let since = since_at(&self.peers, place);
                match feed_at(&mut self.peers, place, alloc, piece)? {
                    Fed::More => Ok(Turn::Nothing),
                    Fed::Frame { body, .. } => {
                        forget(&mut self.peers, place);
                        Ok(Turn::Whole { conn, body, since })
                    }
                    Fed::Refused(_) => {
                        forget(&mut self.peers, place);
                        Ok(Turn::Shut { conn })
                    }
                }
            }
        }
    }

    /// A connection is there no more, if it was.
    fn end(&mut self, conn: u64)
        ensures { self.new ≡ without self.old conn }
    {
        if let Some(place) = place_of(&self.peers, conn) {
            forget(&mut self.peers, place);
        }
    }
}

/// Where the peer of a connection stands. It is looked up by its hash.
fn place_of(peers: &IndexMap<u64, Opened>, conn: u64) -> Option<usize>
    ensures { result ≡ position (is_of conn) (peers_in peers.now.entries) }
{
    peers.get_index_of(&conn)
}

/// The moment at which the connection at a place opened.
fn since_at(peers: &IndexMap<u64, Opened>, place: usize) -> Moment
    requires { place < length peers.now.entries }
    ensures { (d : Peer) → result ≡ (slice_index_or (peers_in peers.now.entries) place d).since }
{
    peers[place].since
}

/// The connection at a place begins anew.
fn begin_anew(peers: &mut IndexMap<u64, Opened>, place: usize, opened: Opened)
    requires { place < length peers.old.entries }
    ensures { (d : Peer) → peers_in peers.new.entries ≡ slice_set (peers_in peers.old.entries) place (begun (slice_index_or (peers_in peers.old.entries) place d).conn opened) }
{
    peers[place] = opened;
}

/// A connection that wasn't there joins behind the others. At `Err` nothing has changed.
fn join(peers: &mut IndexMap<u64, Opened>, conn: u64, opened: Opened) -> Result<(), OutOfMemory>
    requires { position (is_of conn) (peers_in peers.old.entries) ≡ None }
    ensures after { OnOk result (peers_in peers.new.entries ≡ peers_in peers.old.entries ++ begun conn opened ∷ []) }
    ensures err { OnErr result (peers_in peers.new.entries ≡ peers_in peers.old.entries) }
{
    peers.insert(conn, opened)?;
    Ok(())
}

/// Gives a piece to the feed of the peer at a place, which hands a whole frame over. At `Err` nothing has changed.
fn feed_at(
    peers: &mut IndexMap<u64, Opened>,
    place: usize,
    alloc: Global,
    piece: &[u8],
) -> Result<Fed, OutOfMemory>
    requires place { place < length peers.old.entries }
    requires waits { (d : Peer) → found (slice_index_or (peers_in peers.old.entries) place d).bytes ≡ short }
    ensures answer { IfOk result (λ fed. (d : Peer) → Answers fed (found ((slice_index_or (peers_in peers.old.entries) place d).bytes ++ piece.now))) }
    ensures after { OnOk result ((d : Peer) → peers_in peers.new.entries ≡ slice_set (peers_in peers.old.entries) place (given (slice_index_or (peers_in peers.old.entries) place d) piece.now)) }
    ensures err { OnErr result (peers_in peers.new.entries ≡ peers_in peers.old.entries) }
{
    let opened = &mut peers[place];
    opened.bytes.hand_over(alloc, piece)
}

/// The connection at a place is there no more.
fn forget(peers: &mut IndexMap<u64, Opened>, place: usize)
    ensures { peers_in peers.new.entries ≡ remove (peers_in peers.old.entries) place }
{
    peers.shift_remove_index(place);
}
