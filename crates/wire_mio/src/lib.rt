//! The real outside: a wire over TCP sockets, and sources, sinks and disks over files.
//!
//! The one contract: each meets the trait of its kind. So an error comes only where the object's count of faults rose,
//! what is read or written stays within the slice that was handed in, and a wire counts each event that it gives. They
//! tell nothing of content: what a file holds, what a socket delivers and what a terminal shows is trusted.
//!
//! [`FileSource`] reads a file, [`FileSink`] adds to one, and [`StdSink`] writes to standard output. A source or a sink
//! over a reader or writer that tells its bytes tells them too. [`FileDisk`] keeps a journal in a file. The files of a sink
//! and of a disk are locked, so that no other program has them at the same time.
//!
//! [`MioWire`] is a wire over sockets on one thread:
//!
//! ```text
//! let mut wire = MioWire::listen(rt, alloc, &address)?;   // 0.0.0.0:10051 or [::]:10051
//! match wire.next(alloc)? {                               // within a second: Quiet, if nothing comes
//!     WireEvent::Piece { conn, bytes, .. } => {           // 1 to 65,536 bytes
//!         wire.send(conn, reply)?;
//!         wire.close(conn);                               // behind the reply, which the peer reads whole
//!     }
//!     _ => {}
//! }
//! ```
//!
//! Connections are told of by the numbers 1, 2, 3 and so on. At most 128 are there at once. A connection is one of these:
//!
//! ```text
//! open      its bytes come as pieces, until Ended or Broke. Where its place is needed, and it has brought no byte for 60
//!           seconds, it is lost, and told as Broke
//! ended     the peer has sent all; a reply may still be sent. It goes when it is closed, after ten seconds, or where its
//!           place is needed, but not before the program has taken all events that came with its end
//! closed    nothing of it is told any more; what the peer still sends is read away, so that the system doesn't take
//!           back the reply. It goes when the peer ends, after ten seconds, or where its place is needed
//! ```
//!
//! Bytes that are sent wait where the peer takes no more at once, up to 16 MiB and a header for a connection, and go out as the
//! sockets are looked at. So a peer that reads slowly holds up no other. A connection that is closed is so behind its bytes;
//! it goes where none of them has gone out for ten seconds. Where there is no memory for them, or more come, `send` itself waits for that one peer, 10
//! seconds at most.
//!
//! Where one more comes than may be there, that one goes first that ended or was closed first, then the one that was closed first
//! of those on which bytes still wait, then the open one that has been silent longest. Where all are open, and each has brought a
//! byte, or opened, in the last 60 seconds, the newcomer is closed. So a program that answers before it asks for an event while
//! none is ready can answer each peer that has ended.
//!
//! A look at the sockets reads each one that has something once, so no peer holds up another, and takes time by the
//! sockets that have something, not by those that are there.
//!
//! Moments begin with the system's time and go on as the monotonic clock does. Once a minute the system's time is looked at, and
//! taken where it is ahead. So moments never fall, and don't stand still where the system's time is put back.
//!
//! A connection is read as soon as it is accepted. The system is asked to watch it where nothing has come then, or where it
//! is still open at the next look. One that was closed is read at the second look after that, or at the first where more
//! than 64 are there, and is watched only if the peer hasn't ended by then. So a peer that sends all at once, gets its reply
//! and ends is never watched.
#![tactic(auto)]

mod clock;
mod connections;
mod file_disk;
mod peer;
mod piece;
mod queue;
mod reread;
mod room;
mod sink;
mod sink_file;
mod sockets;
mod source;
mod standard;
mod stored;
mod turned;
mod waiting;
mod wire;
mod writer;

pub use file_disk::FileDisk;
pub use reread::Reread;
pub use sink::FileSink;
pub use sink_file::SinkFile;
pub use source::FileSource;
pub use standard::StdSink;
pub use stored::{DiskFile, Stored};
pub use wire::MioWire;
pub use writer::WriterSink;
