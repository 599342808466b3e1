//! Refusals.

ghost use Rattle.std.specs.Prelude.{◌≡◌, IfOk};
ghost use Rattle.zbx_types.specs.Frames.{frame};
ghost use Rattle.agent_json.specs.Replies.{refusal_text};

use std::alloc::Global;
use zbx_types::{Bytes, OutOfMemory};

/// Why an agent isn't told which items it is to bring.
#[derive(Clone, Copy, Debug, PartialEq, Eq)]
pub enum ChecksRefusal {
    /// It names no host, or one that isn't there: `unknown host`.
    UnknownHost,
    /// The host isn't monitored: `host not monitored`.
    NotMonitored,
    /// The answer would have more bytes than a frame may have: `too many items`.
    TooManyItems,
}

fn refusal_body(refusal: ChecksRefusal) -> &'static [u8]
    ensures { result.now ≡ refusal_text refusal }
{
    match refusal {
        ChecksRefusal::UnknownHost => b"{\"response\":\"failed\",\"info\":\"unknown host\"}",
        ChecksRefusal::NotMonitored => b"{\"response\":\"failed\",\"info\":\"host not monitored\"}",
        ChecksRefusal::TooManyItems => b"{\"response\":\"failed\",\"info\":\"too many items\"}",
    }
}

/// The reply to an agent that isn't told which items it is to bring, in a frame. Its text is this project's own.
///
/// # Errors
///
/// `OutOfMemory` where memory was refused.
pub fn refusal(alloc: Global, refusal: ChecksRefusal) -> Result<Bytes, OutOfMemory>
    ensures { IfOk result (λ bytes. bytes ≡ frame (refusal_text refusal)) }
{
    let mut bytes = Bytes::new(alloc);
    zbxd_frame::write(refusal_body(refusal), &mut bytes)?;
    Ok(bytes)
}
