//! The connections that are there.

ghost use Rattle.std.specs.Prelude.{◌≡◌, ◌≢◌, ◌≤◌, ◌<◌, ◌+◌, ℕ, None, Some, true, false, nat_lt, length, is_some, IfSome, IfNone, OnOk};
ghost use Rattle.std.specs.Option.{option_map};
ghost use Rattle.zbx_types.specs.Limits.{most_connections};
ghost use Rattle.wire_mio.specs.Queues.{longest_piece};
ghost use Rattle.wire_mio.specs.Pieces.{IsBounded};
ghost use Rattle.wire_mio.specs.Tables.{Changes, KeepsLive, GivesPlace, LeavesLive, HasPlace, HasRoom, DropsLongest, IsAt, IsLongest, earlier_of, HasSettled, HasNo, held_in, count_in, is_live, is_over, heard, ended_at, fresh, sent_once};

use crate::peer::{Flushed, Kind, Peer, Place, Stage};
use crate::piece::{Away, Got, read_away};
use crate::room::Room;
use indexmap::IndexMap;
use mio::net::TcpStream;
use mio::{Registry, Token};
use outside::Failed;
use std::alloc::Global;
use std::marker::Model;
use std::time::Duration;
use zbx_types::{MOST_CONNECTIONS, OutOfMemory};

/// How many microseconds a connection stays that has ended or was closed.
const PARTING: u64 = 10_000_000;

/// How many microseconds pass between two looks for those that have stayed so long.
const SWEEP: u64 = 1_000_000;

/// How many microseconds an open connection may bring nothing before a newcomer can have its place.
const LONGEST_SILENCE: u64 = 60_000_000;

/// The connections that are there, by their numbers, at most 128.
///
/// Contracts see them as a table: what each number has, how many there are, all of them, and the moment of the latest look.
/// Moments are microseconds of a clock that doesn't go back, and each look has a later one than the look before.
#[derive(Drop)]
pub(crate) struct Connections {
    alloc: Global,
    peers: IndexMap<u64, Peer>,
    moment: u64,
    swept: u64,
}

impl Model for Connections {
    ghost use Rattle.std.specs.Prelude.{◌≤◌, map};
    ghost use Rattle.indexmap.specs.IndexMap.{spare, index_map_len};
    ghost use Rattle.zbx_types.specs.Limits.{most_connections};
    ghost use Rattle.wire_mio.specs.Tables.{Table, seen};

    ghost Value = { Table };

    ghost view = { λ c. record { entries = map seen c.peers.entries; moment = c.moment; room = spare c.peers } };

    ghost invariant = { λ c. index_map_len c.peers ≤ most_connections };
}

impl Connections {
    /// No connection is there. Takes no memory.
    #[tactic(auto, using(crate::proofs::Seen::held_seen))]
    pub(crate) fn new(alloc: Global) -> Connections
        ensures count { count_in result ≡ 0 }
        ensures held { (c : ℕ) → held_in result c ≡ None }
    {
        Connections {
            alloc,
            peers: IndexMap::new(alloc),
            moment: 0,
            swept: 0,
        }
    }

    /// How many there are.
    pub(crate) fn count(&self) -> usize
        ensures value { result ≡ (count_in self.now) }
        ensures most { result ≤ most_connections }
    {
        self.peers.len()
    }

    /// Whether there is room for another.
    pub(crate) fn has_room(&self) -> bool
        ensures { result ≡ nat_lt (count_in self.now) most_connections }
    {
        self.peers.len() < MOST_CONNECTIONS
    }

    /// How far a connection has come, if it is there.
    #[tactic(auto, using(crate::proofs::Seen::held_seen))]
    pub(crate) fn stage(&self, conn: u64) -> Option<Stage>
        ensures { result ≡ option_map (λ h. h.stage) (held_in self.now conn) }
    {
        match self.peers.get(&conn) {
            Some(peer) => Some(peer.stage),
            None => None,
        }
    }

    /// Takes memory for another.
    pub(crate) fn reserve(&mut self) -> Result<(), OutOfMemory>
        ensures entries { self.new.entries ≡ self.old.entries }
        ensures moment { self.new.moment ≡ self.old.moment }
        ensures room { OnOk result (0 < self.new.room) }
    {
        match self.peers.reserve(1) {
            Ok(()) => Ok(()),
            Err(_) => Err(OutOfMemory),
        }
    }

    /// Puts a connection in that has just been accepted.
    #[tactic(auto, using(crate::proofs::Seen::held_seen))]
    pub(crate) fn put(&mut self, conn: u64, stream: TcpStream)
        requires free { count_in self.old < most_connections }
        requires room { 0 < self.old.room }
        ensures { Changes conn (Some (fresh self.old.moment)) self.old self.new }
    {
        let peer = Peer::new(self.alloc, stream, self.moment);
        let _ = self.peers.insert(conn, peer);
    }

    /// Lets a connection go, if it is there.
    #[tactic(auto, using(crate::proofs::Seen::held_seen, crate::proofs::Seen::removed_count))]
    pub(crate) fn remove(&mut self, conn: u64)
        ensures one { Changes conn None self.old self.new }
        ensures count { is_some (held_in self.old conn) ≡ true → count_in self.new + 1 ≡ count_in self.old }
        ensures room { self.old.room ≤ self.new.room }
    {
        self.peers.swap_remove(&conn);
    }

    /// Reads once from a connection into a buffer.
    #[tactic(auto, using(crate::proofs::Telling::changed_live))]
    pub(crate) fn read(&mut self, alloc: Global, conn: u64, buffer: &mut Vec<u8>) -> Got
        requires { length buffer.old.items ≡ longest_piece }
        ensures same { Changes conn (held_in self.old conn) self.old self.new }
        ensures live { KeepsLive self.old self.new }
        ensures bounds { IsBounded result }
    {
        self.read_there(alloc, conn, buffer)
    }

    /// Reads once from a connection, if it is there.
    #[tactic(auto, using(crate::proofs::Seen::held_seen))]
    fn read_there(&mut self, alloc: Global, conn: u64, buffer: &mut Vec<u8>) -> Got
        requires { length buffer.old.items ≡ longest_piece }
        ensures same { Changes conn (held_in self.old conn) self.old self.new }
        ensures bounds { IsBounded result }
    {
        match self.peers.get_mut(&conn) {
            Some(peer) => peer.read(alloc, buffer),
            None => Got::Nothing,
        }
    }

    /// Reads away what a connection has, as far as some reads go.
    #[tactic(auto, using(crate::proofs::Seen::held_seen, crate::proofs::Telling::changed_live, crate::proofs::Telling::heard_live, crate::proofs::Telling::ended_live))]
    pub(crate) fn read_away(&mut self, conn: u64, buffer: &mut Vec<u8>) -> Away
        ensures same { Changes conn (held_in self.old conn) self.old self.new }
        ensures live { KeepsLive self.old self.new }
    {
        match self.peers.get_mut(&conn) {
            Some(peer) => read_away(buffer, &mut peer.stream),
            None => Away::Gone,
        }
    }

    /// Has a connection reported when something comes, or, where bytes wait on it, when there is room for some; and also where
    /// that is so already. Answers whether the system does so.
    #[tactic(auto, using(crate::proofs::Seen::held_seen, crate::proofs::Telling::changed_live, crate::proofs::Telling::heard_live, crate::proofs::Telling::ended_live))]
    pub(crate) fn watch(&mut self, conn: u64, registry: &Registry) -> bool
        ensures same { Changes conn (held_in self.old conn) self.old self.new }
        ensures live { KeepsLive self.old self.new }
    {
        match self.peers.get_mut(&conn) {
            Some(peer) => peer.watch(registry, Token(conn as usize)),
            None => true,
        }
    }

    /// Whether the system was asked to report what comes on a connection.
    pub(crate) fn is_watched(&self, conn: u64) -> bool {
        match self.peers.get(&conn) {
            Some(peer) => peer.watched,
            None => true,
        }
    }

    /// Whether bytes wait to go out on a connection.
    pub(crate) fn has_waiting(&self, conn: u64) -> bool {
        match self.peers.get(&conn) {
            Some(peer) => !peer.waiting.is_empty(),
            None => false,
        }
    }

    /// Lets bytes go out that wait on a connection, as many as there is room for at once. It goes where it was to be closed
    /// behind them, and is lost.
    #[tactic(auto, using(crate::proofs::Seen::held_seen))]
    pub(crate) fn flush(&mut self, conn: u64) -> Flushed
        ensures one { is_live (held_in self.new conn) ≡ is_live (held_in self.old conn) }
        ensures others { (c : ℕ) → c ≢ conn → held_in self.new c ≡ held_in self.old c }
    {
        let moment = self.moment;
        let flushed = match self.peers.get_mut(&conn) {
            Some(peer) => peer.flush(moment),
            None => Flushed::All,
        };
        if let Flushed::Lost = flushed {
            self.remove(conn);
        }
        flushed
    }

    /// Sends bytes on a connection, of which some may wait. It fails where the connection isn't there.
    #[tactic(auto, using(crate::proofs::Seen::held_seen, crate::proofs::Telling::changed_live, crate::proofs::Telling::sent_live))]
    pub(crate) fn send(
        &mut self,
        conn: u64,
        room: &mut Room,
        registry: &Registry,
        can_wait: bool,
        bytes: &[u8],
    ) -> Result<(), Failed>
        ensures one { Changes conn (option_map sent_once (held_in self.old conn)) self.old self.new }
        ensures live { KeepsLive self.old self.new }
    {
        match self.peers.get_mut(&conn) {
            Some(peer) => room.send(peer, registry, Token(conn as usize), can_wait, bytes),
            None => Err(Failed),
        }
    }

    /// An open connection has brought bytes.
    #[tactic(auto, using(crate::proofs::Seen::held_seen, crate::proofs::Telling::changed_live, crate::proofs::Telling::heard_live, crate::proofs::Telling::ended_live))]
    pub(crate) fn hear(&mut self, conn: u64)
        ensures one { Changes conn (option_map (heard self.old.moment) (held_in self.old conn)) self.old self.new }
        ensures live { KeepsLive self.old self.new }
    {
        if let Some(peer) = self.peers.get_mut(&conn) {
            peer.since = self.moment;
        }
    }

    /// The other side of a connection has sent all that it sends.
    #[tactic(auto, using(crate::proofs::Seen::held_seen, crate::proofs::Telling::changed_live, crate::proofs::Telling::heard_live, crate::proofs::Telling::ended_live))]
    pub(crate) fn end(&mut self, conn: u64)
        ensures one { Changes conn (option_map (ended_at self.old.moment) (held_in self.old conn)) self.old self.new }
        ensures over { is_live (held_in self.new conn) ≡ false }
    {
        if let Some(peer) = self.peers.get_mut(&conn) {
            peer.end(self.moment);
        }
    }

    /// A closed connection was closed before the last look.
    #[tactic(auto, using(crate::proofs::Seen::held_seen))]
    pub(crate) fn leave(&mut self, conn: u64)
        ensures one { is_live (held_in self.new conn) ≡ is_live (held_in self.old conn) }
        ensures others { (c : ℕ) → c ≢ conn → held_in self.new c ≡ held_in self.old c }
    {
        match self.peers.get_mut(&conn) {
            Some(peer) => peer.leave(),
            None => {}
        }
    }

    /// Closes a connection behind what was sent to it. What the other side still sends is read away while it parts, since a
    /// socket that goes with bytes unread takes back what was sent. One that has ended goes at once.
    #[tactic(auto, using(crate::proofs::Seen::held_seen))]
    pub(crate) fn close(&mut self, conn: u64)
        ensures one { is_live (held_in self.new conn) ≡ false }
        ensures others { (c : ℕ) → c ≢ conn → held_in self.new c ≡ held_in self.old c }
    {
        let moment = self.moment;
        let stays = match self.peers.get_mut(&conn) {
            Some(peer) => peer.close(moment),
            None => true,
        };
        if !stays {
            self.remove(conn);
        }
    }

    /// Takes the moment at which a look begins.
    pub(crate) fn begin(&mut self, now: Option<Duration>)
        ensures { KeepsLive self.old self.new }
    {
        self.moment = later(self.moment, now);
    }

    /// Takes the moment of a look, and lets those go that have parted for long enough.
    pub(crate) fn part(&mut self, now: Option<Duration>)
        ensures { KeepsLive self.old self.new }
    {
        self.moment = later(self.moment, now);
        if self.swept.saturating_add(SWEEP) <= self.moment {
            self.swept = self.moment;
            self.sweep(Kind::Parted);
            self.sweep(Kind::Closing);
        }
    }

    /// Lets those of a kind go that are so for long enough.
    #[tactic(auto, using(crate::proofs::Longest::over_goes))]
    fn sweep(&mut self, kind: Kind)
        requires { is_over kind ≡ true }
        ensures { KeepsLive self.old self.new }
    {
        'places: for _ in 0..self.peers.len() {
            match self.longest(kind) {
                Some((conn, since)) if since.saturating_add(PARTING) <= self.moment => {
                    self.remove(conn);
                }
                _ => break,
            }
        }
    }

    /// Lets the one of a kind go that is so for longest, if there is one. Answers whether there was one.
    #[tactic(auto, using(crate::proofs::Longest::over_goes))]
    pub(crate) fn drop_longest(&mut self, kind: Kind) -> bool
        requires { is_over kind ≡ true }
        ensures dropped { DropsLongest kind result self.old self.new }
        ensures room { result ≡ true → HasRoom self.old self.new }
    {
        match self.longest(kind) {
            Some((conn, _)) => {
                let _ = &self.peers;
                self.remove(conn);
                true
            }
            None => false,
        }
    }

    /// The connection at a place, if it is of a kind: its number, and since when it is so.
    #[tactic(auto, using(crate::proofs::Seen::at_seen, crate::proofs::Seen::held_seen, crate::proofs::Seen::all_at, crate::proofs::Seen::all_length))]
    fn at(&self, place: usize, kind: Kind) -> Option<(u64, u64)>
        requires { place < count_in self.now }
        ensures { IsAt kind self.now place result }
    {
        let (conn, peer) = self.peers.get_index(place)?;
        if peer.is_kind(kind, self.moment) {
            Some((*conn, peer.since))
        } else {
            None
        }
    }

    /// The one of a kind that has been as it is for the longest time, and since when.
    #[tactic(auto, using(crate::proofs::Seen::all_length, crate::proofs::Longest::longest_next))]
    fn longest(&self, kind: Kind) -> Option<(u64, u64)>
        ensures found { IfSome result (λ r. IsLongest kind self.now r.0 r.1) }
        ensures none { IfNone result (HasNo kind self.now) }
    {
        let mut longest: Option<(u64, u64)> = None;
        'places: for place in 0..self.count() {
            longest = earlier_of(longest, self.at(place, kind));
        }
        longest
    }

    /// Whether it shows now if there is a place for a newcomer: there is room, or one can go, or all are open. Where it
    /// doesn't, an end was seen that may not be told yet, and it shows at the next look.
    #[tactic(auto, using(crate::proofs::Longest::one_is))]
    pub(crate) fn has_settled(&self) -> bool
        ensures { result ≡ true → HasSettled self.now }
    {
        if self.has_room() {
            return true;
        }
        match self.longest(Kind::Parted) {
            Some(_) => true,
            None => self.longest(Kind::Ending).is_none(),
        }
    }

    /// Makes room for a newcomer where there is none: the one goes that parted first, or else the one that was closed first of
    /// those on which bytes still wait, or else the open one that has been silent longest, where that is 60 seconds.
    #[tactic(auto, using(crate::proofs::Longest::active_of, crate::proofs::Longest::open_is_live))]
    pub(crate) fn make_room(&mut self) -> Place
        requires { HasSettled self.old }
        ensures place { GivesPlace result self.old self.new }
        ensures live { LeavesLive result self.old self.new }
        ensures room { HasPlace result self.old self.new }
    {
        if self.has_room() {
            return Place::Free;
        }
        if self.drop_longest(Kind::Parted) {
            return Place::Free;
        }
        if self.drop_longest(Kind::Closing) {
            return Place::Free;
        }
        match self.longest(Kind::Open) {
            Some((conn, since)) if since.saturating_add(LONGEST_SILENCE) < self.moment => {
                self.remove(conn);
                Place::Instead { conn }
            }
            _ => Place::Missing,
        }
    }
}

/// The moment of a look: that of the clock, where it is later than the one of the look before.
fn later(before: u64, now: Option<Duration>) -> u64 {
    let next = before.saturating_add(1);
    match now {
        Some(since) => match u64::try_from(since.as_micros()) {
            Ok(micros) => next.max(micros),
            Err(_) => next,
        },
        None => next,
    }
}

/// The earlier of what was found and another.
fn earlier_of(found: Option<(u64, u64)>, next: Option<(u64, u64)>) -> Option<(u64, u64)>
    ensures { result ≡ earlier_of found next }
{
    match (found, next) {
        (Some((_, earliest)), Some((_, since))) => { if since < earliest { next } else { found } }
        (None, next) => next,
        (found, None) => found,
    }
}
