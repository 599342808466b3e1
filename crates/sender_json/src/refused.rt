//! Refusals.

/// Why a body gets no counts in its reply.
#[derive(Clone, Copy, Debug, PartialEq, Eq)]
pub enum Refusal {
    /// It isn't JSON: `not JSON`.
    NotJson,
    /// It is JSON of another form: `unsupported request`.
    Unsupported,
}
