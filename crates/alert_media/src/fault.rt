//! Why media weren't read.

ghost use Rattle.std.specs.Prelude.{◌≡◌};
ghost use Rattle.alert_media.specs.Media.{without_cause};

use json_form::ReadError;
use std::convert::AsStr;
use thiserror::Error;
use zbx_types::Text;

/// Why a document of media wasn't read.
#[derive(Debug, Drop, Error)]
pub enum MediaError {
    /// The document isn't of its form.
    #[error("the media are refused at `{path}`", path = path.as_str())]
    Refused {
        /// The JSON pointer (RFC 6901) to its first member at fault; empty for the whole.
        path: Text,
    },
    /// No memory was to be had.
    #[error("out of memory")]
    OutOfMemory,
}

/// The same fault, without its cause.
pub(crate) fn fault_of(error: ReadError) -> MediaError
    ensures { result ≡ without_cause error }
{
    match error {
        ReadError::Refused { path, cause: _ } => MediaError::Refused { path },
        ReadError::OutOfMemory => MediaError::OutOfMemory,
    }
}
