//! A connection that is there.

use zbx_types::Moment;
use zbxd_frame::Feed;

/// A connection with the moment at which it opened and its bytes since then, as contracts see it.
#[derive(Debug, Drop)]
pub(crate) struct Peer {
    pub(crate) conn: u64,
    pub(crate) since: Moment,
    pub(crate) bytes: Feed,
}

/// What a table keeps for a connection: the moment at which it opened, and its bytes since then.
#[derive(Debug, Drop)]
pub(crate) struct Opened {
    pub(crate) since: Moment,
    pub(crate) bytes: Feed,
}
