//! What a filled output comes to.

use zbx_types::Text;

/// What the output of a match comes to, where no more than so many bytes are wanted. This project's own.
#[derive(Debug, Drop)]
pub enum Filled {
    /// There is no match.
    Unmatched,
    /// The filled output, which is within the limit.
    Made(Text),
    /// The filled output would be longer.
    TooLong,
}
