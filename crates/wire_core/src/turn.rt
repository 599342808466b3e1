//! What an event comes to.

use zbx_types::{Bytes, Moment};

/// What an event of a wire comes to for its connections.
#[derive(Debug, Drop)]
pub enum Turn {
    /// Nothing is to be done.
    Nothing,
    /// The connection is to be closed, with no reply: there was no room for it, or it brought bytes
    /// with which no frame begins. It is not there.
    Shut {
        conn: u64,
    },
    /// The first frame of a connection is whole. It has this body, and the connection opened at
    /// `since`, a moment of the run. The reply ends the connection, so it is not there any more.
    Whole {
        conn: u64,
        body: Bytes,
        since: Moment,
    },
}
