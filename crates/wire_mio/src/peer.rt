//! One connection.

ghost use Rattle.std.specs.Prelude.{◌≡◌, false, length, true};
ghost use Rattle.wire_mio.specs.Pieces.{IsBounded};
ghost use Rattle.wire_mio.specs.Queues.{longest_piece};
ghost use Rattle.wire_mio.specs.Tables.{held_of, ended_at, fresh, is_open, is_kind};
ghost use Rattle.wire_mio.specs.declared.peer.Flushed.TheVariants as Flushed;

use crate::piece::{Got, read_piece};
use crate::waiting::Waiting;
use mio::net::TcpStream;
use mio::{Interest, Registry, Token};
use outside::Tally;
use std::alloc::Global;
use std::net::Shutdown;

/// How far a connection has come.
#[derive(Clone, Copy, PartialEq, Eq)]
pub(crate) enum Stage {
    /// Both sides may send.
    Open,
    /// The other side has sent all that it sends. A reply may still go out.
    Ended,
    /// This side has closed it, behind bytes that still wait to go out.
    Closing,
    /// This side has closed it. What the other side still sends is read away.
    Closed,
    /// As closed, since before the last look.
    Left,
}

/// Which connections are looked at.
#[derive(Clone, Copy)]
pub(crate) enum Kind {
    /// Those on which both sides may send.
    Open,
    /// Those whose end was seen in this look.
    Ending,
    /// Those that give their places to newcomers at once: the program has closed them, or was told of their end.
    Parted,
    /// Those that the program has closed, behind bytes that still wait to go out.
    Closing,
}

/// A place for a newcomer.
#[derive(Clone, Copy)]
pub(crate) enum Place {
    /// There is one.
    Free,
    /// There is that of a connection that was silent, and has just lost it.
    Instead { conn: u64 },
    /// There is none.
    Missing,
}

/// A connection.
#[derive(Drop)]
pub(crate) struct Peer {
    pub(crate) stream: TcpStream,
    pub(crate) stage: Stage,
    /// The moment at which it came to its stage; while it is open, that at which its latest byte came, or it opened.
    pub(crate) since: u64,
    /// How often something was sent on it.
    pub(crate) sends: Tally,
    /// Whether the system was asked to report what comes on it.
    pub(crate) watched: bool,
    /// What was sent on it and waits to go out.
    pub(crate) waiting: Waiting,
}

/// What became of the bytes that waited on a connection.
#[derive(Clone, Copy)]
pub(crate) enum Flushed {
    /// Some still wait.
    Some,
    /// None waits.
    All,
    /// None waits, and it was closed behind them.
    Closed,
    /// It was to be closed behind them, and is lost.
    Lost,
}

impl Peer {
    /// A connection that is accepted at a moment.
    pub(crate) fn new(alloc: Global, stream: TcpStream, moment: u64) -> Peer
        ensures { held_of result ≡ fresh moment }
    {
        Peer {
            stream,
            stage: Stage::Open,
            since: moment,
            sends: Tally::zero(),
            watched: false,
            waiting: Waiting::new(alloc),
        }
    }

    /// Whether both sides may send.
    pub(crate) fn is_open(&self) -> bool
        ensures { result ≡ is_open self.now.stage }
    {
        match self.stage {
            Stage::Open => true,
            Stage::Ended | Stage::Closing | Stage::Closed | Stage::Left => false,
        }
    }

    /// Whether it is of a kind at the moment of a look.
    pub(crate) fn is_kind(&self, kind: Kind, moment: u64) -> bool
        ensures { result ≡ is_kind kind moment (held_of self.now) }
    {
        match (kind, self.stage) {
            (Kind::Open, Stage::Open) => true,
            (Kind::Ending, Stage::Ended) => self.since >= moment,
            (Kind::Parted, Stage::Ended) => self.since < moment,
            (Kind::Parted, Stage::Closed | Stage::Left) => true,
            (Kind::Closing, Stage::Closing) => true,
            _ => false,
        }
    }

    /// Reads once from it into a buffer.
    pub(crate) fn read(&mut self, alloc: Global, buffer: &mut Vec<u8>) -> Got
        requires { length buffer.old.items ≡ longest_piece }
        ensures same { held_of self.new ≡ held_of self.old }
        ensures bounds { IsBounded result }
    {
        read_piece(alloc, buffer, &mut self.stream)
    }

    /// Has it reported under a number when something comes, or, where bytes wait, when there is room for some; and also where
    /// that is so already. Answers whether the system does so.
    pub(crate) fn watch(&mut self, registry: &Registry, token: Token) -> bool
        ensures { held_of self.new ≡ held_of self.old }
    {
        let interest = if self.waiting.is_empty() {
            Interest::READABLE
        } else {
            Interest::READABLE.add(Interest::WRITABLE)
        };
        let watched = if self.watched {
            registry.reregister(&mut self.stream, token, interest)
        } else {
            registry.register(&mut self.stream, token, interest)
        };
        self.watched = self.watched || watched.is_ok();
        watched.is_ok()
    }

    /// One that is closed was so before the last look.
    pub(crate) fn leave(&mut self)
        ensures { is_open self.new.stage ≡ is_open self.old.stage }
    {
        if self.stage == Stage::Closed {
            self.stage = Stage::Left;
        }
    }

    /// The other side has sent all that it sends.
    pub(crate) fn end(&mut self, moment: u64)
        ensures { held_of self.new ≡ ended_at moment (held_of self.old) }
    {
        self.stage = Stage::Ended;
        self.since = moment;
    }

    /// Closes it behind what was sent, if it is open or some of that waits to go out. Answers whether it has to stay, so that
    /// this goes out, and what the other side still sends is read away.
    pub(crate) fn close(&mut self, moment: u64) -> bool
        ensures { result ≡ true → is_open self.new.stage ≡ false }
    {
        if !self.waiting.is_empty() {
            self.stage = Stage::Closing;
            self.since = moment;
            true
        } else if self.is_open() {
            self.shut(moment)
        } else {
            false
        }
    }

    /// Tells the other side that nothing more comes. Answers whether it could be told.
    fn shut(&mut self, moment: u64) -> bool
        ensures shut { result ≡ true → is_open self.new.stage ≡ false }
        ensures not { result ≡ false → held_of self.new ≡ held_of self.old }
    {
        if self.stream.shutdown(Shutdown::Write).is_ok() {
            self.stage = Stage::Closed;
            self.since = moment;
            true
        } else {
            false
        }
    }

    /// Lets bytes go out that wait, as many as there is room for at once. Behind the last one it is closed, where it was to be. One
    /// that is to be closed has been so since the look at which some of its bytes went out last, or the first one.
    pub(crate) fn flush(&mut self, moment: u64) -> Flushed
        ensures live { is_open self.new.stage ≡ is_open self.old.stage }
        ensures lost { result ≡ Flushed.Lost → is_open self.old.stage ≡ false }
    {
        let is_out = self.waiting.flush(&mut self.stream).is_ok();
        if self.waiting.has_moved() && self.stage == Stage::Closing {
            self.since = moment;
        }
        if !is_out {
            self.waiting.clear();
        }
        if !self.waiting.is_empty() {
            Flushed::Some
        } else if self.stage != Stage::Closing {
            Flushed::All
        } else if is_out && self.shut(moment) {
            Flushed::Closed
        } else {
            Flushed::Lost
        }
    }
}
