//! What makes bytes no frame.

/// The part of a header that no frame has.
#[derive(Clone, Copy, Debug, PartialEq, Eq)]
pub enum Fault {
    /// One of the first four bytes isn't that of `ZBXD`.
    Magic,
    /// The fifth byte isn't 1.
    Flags,
    /// The length is above 16,777,216 bytes. It shows at its fourth byte, the ninth of the frame.
    Length,
}
