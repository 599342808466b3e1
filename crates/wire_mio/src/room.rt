//! Sends bytes on a connection. Those for which there is no room wait.

ghost use Rattle.std.specs.Prelude.{◌≡◌};
ghost use Rattle.wire_mio.specs.Tables.{held_of, sent_once};

use crate::peer::Peer;
use crate::waiting::Waiting;
use mio::net::TcpStream;
use mio::{Events, Interest, Poll, Registry, Token};
use outside::Failed;
use std::time::Duration;

/// How often a send waits for room, and how many milliseconds each time.
const ROOM_WAITS: u32 = 1_000;

const ROOM_WAIT: u64 = 10;

/// Looks for room in one connection.
#[derive(Drop)]
pub(crate) struct Room {
    poll: Poll,
    events: Events,
}

impl Room {
    /// Looks at no connection yet. It takes what the system looks with, and the place of what it reports.
    pub(crate) fn new(poll: Poll, events: Events) -> Room {
        Room { poll, events }
    }

    /// Sends bytes on a connection, behind those that wait. Those for which there is no room at once wait too, where they may and
    /// can, and it is reported under a number when there is room; else it waits for room itself.
    pub(crate) fn send(
        &mut self,
        peer: &mut Peer,
        registry: &Registry,
        token: Token,
        can_wait: bool,
        bytes: &[u8],
    ) -> Result<(), Failed>
        ensures { held_of peer.new ≡ sent_once (held_of peer.old) }
    {
        peer.sends.rise();
        let left = peer.waiting.write_behind(&mut peer.stream, bytes)?;
        if left.is_empty() {
            return Ok(());
        }
        if can_wait && peer.waiting.add(left).is_ok() {
            peer.watch(registry, token);
            return Ok(());
        }
        self.wait(&mut peer.waiting, &mut peer.stream, left)
    }

    /// Writes bytes behind those that wait, and waits for room.
    fn wait(
        &mut self,
        waiting: &mut Waiting,
        stream: &mut TcpStream,
        bytes: &[u8],
    ) -> Result<(), Failed> {
        let registry = self.poll.registry();
        if registry
            .register(stream, Token(0), Interest::WRITABLE)
            .is_err()
        {
            return Err(Failed);
        }
        let mut left = bytes;
        for _ in 0..ROOM_WAITS {
            if self
                .poll
                .poll(&mut self.events, Some(Duration::from_millis(ROOM_WAIT)))
                .is_err()
            {
                break;
            }
            match waiting.write_behind(stream, left) {
                Ok(rest) => left = rest,
                Err(Failed) => break,
            }
            if left.is_empty() {
                break;
            }
        }
        let _ = self.poll.registry().deregister(stream);
        if left.is_empty() { Ok(()) } else { Err(Failed) }
    }
}
