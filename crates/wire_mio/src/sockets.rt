//! The sockets of a wire, and what they bring.

ghost use Rattle.std.specs.Prelude.{◌≡◌, ◌<◌, ◌∷◌, length, true, false, OnOk};
ghost use Rattle.std.specs.Option.{option_map};
ghost use Rattle.std.specs.VecDeque.{deque_len, deque_capacity};
ghost use Rattle.wire_mio.specs.Queues.{IsTold, longest_piece};
ghost use Rattle.wire_mio.specs.Tables.{GoesOn, IsNumbered, KeepsLive, Changes, Admits, HasRoom, HasSettled, IsTakenUp, held_in, is_live, sent_once};

use crate::clock::WireClock;
use crate::connections::Connections;
use crate::peer::{Flushed, Kind, Place, Stage};
use crate::piece::{Away, Got, fill_out};
use crate::queue::Queue;
use crate::room::Room;
use mio::net::{TcpListener, TcpStream};
use mio::{Events, Interest, Poll, Token};
use outside::{Failed, Trouble, WireEvent};
use std::alloc::Global;
use std::collections::VecDeque;
use std::io;
use std::io::ErrorKind;
use std::net::{Net, SocketAddr};
use std::os::fd::AsRawFd;
use std::time::{Clock, Duration};
use zbx_types::{Moment, OutOfMemory};

/// The listening socket is reported as this number, and a connection as its own.
const LISTENER: u64 = 0;

/// How many sockets one look reports at most.
const REPORTS: usize = 256;

/// How many connections one look accepts at most.
const ACCEPTS: u32 = 128;

/// How many milliseconds one look waits.
const LOOK: u64 = 100;

/// How many sockets one look takes from at most: those that were reported, and those that were accepted.
const TAKES: u32 = 384;

/// With more connections than so many, one that was closed doesn't wait for its second look.
const CROWD: usize = 64;

/// A listening socket, and what is needed to look at it and at connections.
#[derive(Drop)]
pub(crate) struct Sockets {
    poll: Poll,
    events: Events,
    listener: TcpListener,
    /// What was reported or accepted and isn't looked at yet.
    reported: VecDeque<u64>,
    /// Those on which more may come, or have come already, than is reported.
    unsettled: VecDeque<u64>,
    /// Those on which bytes wait to go out.
    sending: VecDeque<u64>,
    clock: WireClock,
    /// Whether one may wait that couldn't be accepted.
    short: bool,
    buffer: Vec<u8>,
    room: Room,
}

/// The places for what is reported. They are allocated once.
#[derive(Drop)]
struct Places {
    events: Events,
    reported: VecDeque<u64>,
    room_events: Events,
}

impl Places {
    fn new(alloc: Global) -> Result<Places, OutOfMemory> {
        let events = Events::with_capacity(alloc, REPORTS)?;
        let reported = VecDeque::with_capacity(alloc, REPORTS)?;
        let room_events = Events::with_capacity(alloc, 1)?;
        Ok(Places {
            events,
            reported,
            room_events,
        })
    }
}

/// What the system looks at sockets with.
#[derive(Drop)]
struct Handles {
    poll: Poll,
    listener: TcpListener,
    room: Poll,
}

impl Sockets {
    /// Listens on an address. None where no socket is to be had there.
    pub(crate) fn listen<N: Net>(
        net: &N,
        alloc: Global,
        address: &str,
    ) -> Result<Option<Sockets>, OutOfMemory> {
        let Ok(address) = address.parse::<SocketAddr>() else {
            return Ok(None);
        };
        let places = Places::new(alloc)?;
        match opened(net, address).ok() {
            Some(handles) => Ok(Some(Sockets::of(alloc, handles, places))),
            None => {
                drop(places);
                Ok(None)
            }
        }
    }

    /// Sockets of which nothing is reported yet. Takes no memory.
    fn of(alloc: Global, handles: Handles, places: Places) -> Sockets {
        let Handles {
            poll,
            listener,
            room,
        } = handles;
        let Places {
            events,
            reported,
            room_events,
        } = places;
        Sockets {
            poll,
            events,
            listener,
            reported,
            unsettled: VecDeque::new(alloc),
            sending: VecDeque::new(alloc),
            clock: WireClock::new(),
            short: false,
            buffer: Vec::new(alloc),
            room: Room::new(room, room_events),
        }
    }

    /// Looks once at the sockets, for a tenth of a second at most where nothing comes, and adds what they brought to a
    /// queue.
    ///
    /// Failed where the system fails, or the clock. OutOfMemory where there is no memory for what came; it isn't lost, and
    /// a further look has it.
    #[tactic(auto, using(crate::proofs::Telling::goes_same, crate::proofs::Telling::numbered_same))]
    pub(crate) fn look<C: Clock>(
        &mut self,
        alloc: Global,
        clock: &C,
        peers: &mut Connections,
        queue: &mut Queue,
    ) -> Result<Moment, Trouble>
        requires numbered { IsNumbered peers.old queue.old.opened }
        ensures told { queue.new.told ≡ queue.old.told }
        ensures goes_on { GoesOn peers.old queue.old.events peers.new queue.new.events }
        ensures numbered { IsNumbered peers.new queue.new.opened }
    {
        peers.begin(clock.monotonic().ok());
        self.gather(alloc, peers)?;
        peers.part(clock.monotonic().ok());
        let at = self.clock.moment(clock)?;
        self.take_all(alloc, at, peers, queue)?;
        Ok(at)
    }

    /// Takes what each socket has that was reported, and each that is accepted meanwhile.
    fn take_all(
        &mut self,
        alloc: Global,
        at: Moment,
        peers: &mut Connections,
        queue: &mut Queue,
    ) -> Result<(), OutOfMemory>
        requires numbered { IsNumbered peers.old queue.old.opened }
        ensures told { queue.new.told ≡ queue.old.told }
        ensures goes_on { GoesOn peers.old queue.old.events peers.new queue.new.events }
        ensures numbered { IsNumbered peers.new queue.new.opened }
    {
        'reports: for _ in 0..TAKES {
            if self.reported.is_empty() {
                break;
            }
            self.take_first(alloc, at, peers, queue)?;
        }
        Ok(())
    }

    /// Takes what the socket has that was reported first. At `Err` it stays the first.
    fn take_first(
        &mut self,
        alloc: Global,
        at: Moment,
        peers: &mut Connections,
        queue: &mut Queue,
    ) -> Result<(), OutOfMemory>
        requires numbered { IsNumbered peers.old queue.old.opened }
        ensures told { queue.new.told ≡ queue.old.told }
        ensures goes_on { GoesOn peers.old queue.old.events peers.new queue.new.events }
        ensures numbered { IsNumbered peers.new queue.new.opened }
    {
        if let Some(number) = self.reported.front().copied() {
            self.take_from(alloc, number, at, peers, queue)?;
            self.reported.pop_front();
        }
        Ok(())
    }

    /// Waits until a socket has something, and keeps the numbers of those that have. Where none has, or where one may wait
    /// that couldn't be accepted, the listening socket is looked at all the same. While some are kept it does nothing.
    fn gather(&mut self, alloc: Global, peers: &mut Connections) -> Result<(), Trouble>
        ensures { KeepsLive peers.old peers.new }
    {
        if !self.reported.is_empty() {
            return Ok(());
        }
        if self.reported.reserve(REPORTS + 1).is_err() {
            return Err(Trouble::OutOfMemory);
        }
        self.settle_all(alloc, peers)?;
        self.flush_all(peers);
        self.poll
            .poll(&mut self.events, Some(Duration::from_millis(LOOK)))
            .or(Err(Trouble::Failed))?;
        for event in &self.events {
            self.reported.push_back(event.token().0 as u64)?;
        }
        if self.short || self.reported.is_empty() {
            self.short = false;
            self.reported.push_back(LISTENER)?;
        }
        Ok(())
    }

    /// Settles the connections on which more may have come than is reported.
    fn settle_all(&mut self, alloc: Global, peers: &mut Connections) -> Result<(), OutOfMemory>
        ensures { KeepsLive peers.old peers.new }
    {
        if self.unsettled.is_empty() {
            return Ok(());
        }
        fill_out(alloc, &mut self.buffer)?;
        'unsettled: for _ in 0..self.unsettled.len() {
            if let Some(conn) = self.unsettled.pop_front() {
                self.settle(conn, peers);
            }
        }
        Ok(())
    }

    /// Lets bytes go out that wait, on each connection as many as there is room for at once.
    fn flush_all(&mut self, peers: &mut Connections)
        ensures { KeepsLive peers.old peers.new }
    {
        'sending: for _ in 0..self.sending.len() {
            if let Some(conn) = self.sending.pop_front() {
                self.flush(conn, peers);
            }
        }
    }

    /// Lets bytes go out that wait on a connection. One that is closed behind them is settled at the next look.
    #[tactic(auto, using(crate::proofs::Telling::only_live))]
    fn flush(&mut self, conn: u64, peers: &mut Connections)
        ensures { KeepsLive peers.old peers.new }
    {
        match peers.flush(conn) {
            Flushed::Some => {
                let _ = self.sending.push_back(conn);
            }
            Flushed::Closed => {
                let _ = self.unsettled.push_back(conn);
            }
            Flushed::All | Flushed::Lost => {}
        }
    }

    /// Has an open connection watched, and reads away what one brings that was closed. Most peers have ended by the second
    /// look after that, so it waits for that one, where there are few connections.
    #[tactic(auto, using(crate::proofs::Telling::only_live))]
    fn settle(&mut self, conn: u64, peers: &mut Connections)
        ensures { KeepsLive peers.old peers.new }
    {
        match peers.stage(conn) {
            Some(Stage::Open) => self.watch(conn, peers),
            Some(Stage::Closed) if peers.count() <= CROWD => {
                peers.leave(conn);
                let _ = self.unsettled.push_back(conn);
            }
            Some(Stage::Closed | Stage::Left) => self.read_closed(conn, peers),
            Some(Stage::Ended | Stage::Closing) | None => {}
        }
    }

    /// Takes what a socket has.
    fn take_from(
        &mut self,
        alloc: Global,
        number: u64,
        at: Moment,
        peers: &mut Connections,
        queue: &mut Queue,
    ) -> Result<(), OutOfMemory>
        requires numbered { IsNumbered peers.old queue.old.opened }
        ensures told { queue.new.told ≡ queue.old.told }
        ensures goes_on { GoesOn peers.old queue.old.events peers.new queue.new.events }
        ensures numbered { IsNumbered peers.new queue.new.opened }
    {
        if number == LISTENER {
            self.accept_some(at, peers, queue)
        } else {
            self.read_from(alloc, number, at, peers, queue)
        }
    }

    /// Accepts the connections that wait, as many as one look accepts. Where there may be more, the listening socket is
    /// reported again.
    fn accept_some(
        &mut self,
        at: Moment,
        peers: &mut Connections,
        queue: &mut Queue,
    ) -> Result<(), OutOfMemory>
        requires numbered { IsNumbered peers.old queue.old.opened }
        ensures told { queue.new.told ≡ queue.old.told }
        ensures goes_on { GoesOn peers.old queue.old.events peers.new queue.new.events }
        ensures numbered { IsNumbered peers.new queue.new.opened }
    {
        'accepts: for _ in 0..ACCEPTS {
            if !peers.has_settled() {
                break;
            }
            if !self.accept_one(at, peers, queue)? {
                return Ok(());
            }
        }
        let listener = &mut self.listener;
        let _ = self
            .poll
            .registry()
            .reregister(listener, Token(LISTENER as usize), Interest::READABLE);
        Ok(())
    }

    /// Accepts one connection, and answers whether another may be accepted. Where the system has no descriptor for it,
    /// the connection goes that parted first; without one the listening socket is looked at again at the next look.
    #[tactic(auto, using(crate::proofs::Telling::goes_same, crate::proofs::Telling::numbered_same))]
    fn accept_one(
        &mut self,
        at: Moment,
        peers: &mut Connections,
        queue: &mut Queue,
    ) -> Result<bool, OutOfMemory>
        requires numbered { IsNumbered peers.old queue.old.opened }
        requires settled { HasSettled peers.old }
        ensures told { queue.new.told ≡ queue.old.told }
        ensures goes_on { GoesOn peers.old queue.old.events peers.new queue.new.events }
        ensures numbered { IsNumbered peers.new queue.new.opened }
    {
        self.reserve(peers, queue)?;
        match self.listener.accept() {
            Ok((stream, _)) => {
                self.admit(stream, at, peers, queue);
                Ok(true)
            }
            Err(error) => match error.kind() {
                ErrorKind::Interrupted | ErrorKind::ConnectionAborted => Ok(true),
                ErrorKind::WouldBlock => Ok(false),
                _ => {
                    let dropped = peers.drop_longest(Kind::Parted);
                    self.short = !dropped;
                    Ok(dropped)
                }
            },
        }
    }

    /// Takes memory for one more connection, and for two events.
    fn reserve(&mut self, peers: &mut Connections, queue: &mut Queue) -> Result<(), OutOfMemory>
        ensures room { OnOk result (1 < queue.new.room) }
        ensures events { queue.new.events ≡ queue.old.events }
        ensures told { queue.new.told ≡ queue.old.told }
        ensures opened { queue.new.opened ≡ queue.old.opened }
        ensures entries { peers.new.entries ≡ peers.old.entries }
        ensures moment { peers.new.moment ≡ peers.old.moment }
        ensures free { OnOk result (0 < peers.new.room) }
        ensures reported { OnOk result (deque_len self.new.reported < deque_capacity self.new.reported) }
    {
        queue.reserve()?;
        peers.reserve()?;
        match self.reported.reserve(1) {
            Ok(()) => Ok(()),
            Err(_) => Err(OutOfMemory),
        }
    }

    /// Takes a connection in, under the next number, to be read in this look. Where there is no place for it, it is closed:
    /// where as many are open as may be, and each has brought a byte, or opened, not long ago.
    #[tactic(auto, using(crate::proofs::Telling::goes_opened, crate::proofs::Telling::numbered_changed))]
    fn admit(&mut self, stream: TcpStream, at: Moment, peers: &mut Connections, queue: &mut Queue)
        requires numbered { IsNumbered peers.old queue.old.opened }
        requires settled { HasSettled peers.old }
        requires free { 0 < peers.old.room }
        requires room { 1 < queue.old.room }
        requires reported { deque_len self.old.reported < deque_capacity self.old.reported }
        ensures told { queue.new.told ≡ queue.old.told }
        ensures goes_on { GoesOn peers.old queue.old.events peers.new queue.new.events }
        ensures numbered { IsNumbered peers.new queue.new.opened }
        ensures away { Admits peers.old queue.old.opened queue.old.turned_away queue.new.opened queue.new.turned_away }
    {
        let Some(next) = queue.opened().checked_add(1) else {
            return;
        };
        if !make_place(at, peers, queue) {
            return;
        }
        self.reported.push_back_reserved(next);
        peers.put(next, stream);
        queue.push(WireEvent::Opened { conn: next, at });
    }

    /// Reads once from a connection, and keeps it unless it is lost.
    #[tactic(auto, using(crate::proofs::Telling::goes_same, crate::proofs::Telling::numbered_same))]
    fn read_from(
        &mut self,
        alloc: Global,
        conn: u64,
        at: Moment,
        peers: &mut Connections,
        queue: &mut Queue,
    ) -> Result<(), OutOfMemory>
        requires numbered { IsNumbered peers.old queue.old.opened }
        ensures told { queue.new.told ≡ queue.old.told }
        ensures goes_on { GoesOn peers.old queue.old.events peers.new queue.new.events }
        ensures numbered { IsNumbered peers.new queue.new.opened }
    {
        if conn == 0 || queue.opened() < conn {
            return Ok(());
        }
        queue.reserve()?;
        if self.unsettled.reserve(1).is_err() {
            return Err(OutOfMemory);
        }
        fill_out(alloc, &mut self.buffer)?;
        match peers.stage(conn) {
            Some(Stage::Open) => self.read_open(alloc, conn, at, peers, queue),
            Some(Stage::Closed | Stage::Left) => self.read_closed(conn, peers),
            Some(Stage::Ended | Stage::Closing) | None => {}
        }
        Ok(())
    }

    /// Reads once from an open connection, and tells what came. Where there may be more it is settled at the next look.
    #[tactic(auto, using(crate::proofs::Telling::goes_same, crate::proofs::Telling::goes_piece, crate::proofs::Telling::goes_ended, crate::proofs::Telling::goes_broke, crate::proofs::Telling::ended_live, crate::proofs::Telling::numbered_same, crate::proofs::Telling::numbered_changed))]
    fn read_open(
        &mut self,
        alloc: Global,
        conn: u64,
        at: Moment,
        peers: &mut Connections,
        queue: &mut Queue,
    )
        requires numbered { IsNumbered peers.old queue.old.opened }
        requires buffer { length self.old.buffer.items ≡ longest_piece }
        requires conn { IsTold queue.old.opened conn }
        requires live { is_live (held_in peers.old conn) ≡ true }
        requires room { 0 < queue.old.room }
        ensures told { queue.new.told ≡ queue.old.told }
        ensures goes_on { GoesOn peers.old queue.old.events peers.new queue.new.events }
        ensures numbered { IsNumbered peers.new queue.new.opened }
    {
        match peers.read(alloc, conn, &mut self.buffer) {
            Got::Piece(bytes) => {
                let _ = self.unsettled.push_back(conn);
                peers.hear(conn);
                queue.push(WireEvent::Piece { conn, bytes, at });
            }
            Got::End => {
                peers.end(conn);
                queue.push(WireEvent::Ended { conn, at });
            }
            Got::Nothing => self.begin_watch(conn, peers),
            Got::Again => self.watch(conn, peers),
            Got::Lost => {
                peers.remove(conn);
                queue.push(WireEvent::Broke { conn, at });
            }
        }
    }

    /// Reads away what a closed connection brings. It stays while it may bring more.
    fn read_closed(&mut self, conn: u64, peers: &mut Connections)
        requires { is_live (held_in peers.old conn) ≡ false }
        ensures { KeepsLive peers.old peers.new }
    {
        match peers.read_away(conn, &mut self.buffer) {
            Away::Nothing => self.begin_watch(conn, peers),
            Away::More => self.watch(conn, peers),
            Away::Gone => peers.remove(conn),
        }
    }

    /// Watches a connection that isn't watched yet.
    fn begin_watch(&mut self, conn: u64, peers: &mut Connections)
        ensures { KeepsLive peers.old peers.new }
    {
        if !peers.is_watched(conn) {
            self.watch(conn, peers);
        }
    }

    /// Has a connection reported when something comes, and also where something is there already. Where the system fails it
    /// is settled at the next look.
    fn watch(&mut self, conn: u64, peers: &mut Connections)
        ensures { KeepsLive peers.old peers.new }
    {
        if !peers.watch(conn, self.poll.registry()) {
            let _ = self.unsettled.push_back(conn);
        }
    }

    /// Sends bytes on a connection. Those for which there is no room at once go out at later looks; where there is no memory for
    /// them, or where too many wait, it waits for room. It fails where the connection isn't there.
    pub(crate) fn send(
        &mut self,
        peers: &mut Connections,
        conn: u64,
        bytes: &[u8],
    ) -> Result<(), Failed>
        ensures one { Changes conn (option_map sent_once (held_in peers.old conn)) peers.old peers.new }
        ensures live { KeepsLive peers.old peers.new }
    {
        let had_waiting = peers.has_waiting(conn);
        let can_wait = had_waiting || self.sending.reserve(1).is_ok();
        let registry = self.poll.registry();
        let sent = peers.send(conn, &mut self.room, registry, can_wait, bytes);
        if !had_waiting && peers.has_waiting(conn) {
            let _ = self.sending.push_back(conn);
        }
        sent
    }
}

/// Makes a place for a newcomer, and tells of the connection that lost it. Answers whether there is one.
#[tactic(auto, using(crate::proofs::Telling::goes_same, crate::proofs::Telling::goes_broke, crate::proofs::Telling::numbered_same, crate::proofs::Telling::numbered_changed))]
fn make_place(at: Moment, peers: &mut Connections, queue: &mut Queue) -> bool
    requires numbered { IsNumbered peers.old queue.old.opened }
    requires settled { HasSettled peers.old }
    requires room { 1 < queue.old.room }
    ensures told { queue.new.told ≡ queue.old.told }
    ensures opened { queue.new.opened ≡ queue.old.opened }
    ensures room { 0 < queue.new.room }
    ensures goes_on { GoesOn peers.old queue.old.events peers.new queue.new.events }
    ensures numbered { IsNumbered peers.new queue.new.opened }
    ensures free { result ≡ true → HasRoom peers.old peers.new }
    ensures none { result ≡ false → queue.new.turned_away ≡ peers.old ∷ queue.old.turned_away }
{
    match peers.make_room() {
        Place::Free => true,
        Place::Instead { conn } => {
            queue.push(WireEvent::Broke { conn, at });
            true
        }
        Place::Missing => {
            queue.turn_away(peers);
            false
        }
    }
}

/// Has the system ask peers of which nothing is heard whether they are still there, at each connection that is accepted:
/// these take the option over from the listening socket. Where the system refuses it, it asks none.
fn keep_alive(listener: &TcpListener) {
    let mut value = [0; 16];
    value[0] = 1;
    let descriptor = listener.as_raw_fd();
    unsafe {
        libc::net::setsockopt(
            descriptor,
            libc::net::SOL_SOCKET,
            libc::net::SO_KEEPALIVE,
            &value,
            4,
        );
    }
}

/// A listening socket, with what reports on it, and what looks for room.
fn opened<N: Net>(net: &N, address: SocketAddr) -> io::Result<Handles> {
    let room = Poll::new(net)?;
    let poll = Poll::new(net)?;
    let mut listener = TcpListener::bind(net, address)?;
    keep_alive(&listener);
    poll.registry().register(&mut listener, Token(LISTENER as usize), Interest::READABLE)?;
    Ok(Handles {
        poll,
        listener,
        room,
    })
}
