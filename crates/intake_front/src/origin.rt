//! Who brings a value.

/// Who brings a value.
#[derive(Clone, Copy, Debug, PartialEq, Eq)]
pub(crate) enum Origin {
    /// A sender.
    Sender,
    /// An agent.
    Agent {
        /// Whether it says that it doesn't support the item.
        unsupported: bool,
    },
}
