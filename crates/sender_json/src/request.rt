//! Requests.

/// What the data of a frame is, where `T` is gathered of asked values.
#[derive(Debug, Drop)]
pub enum Request<T> {
    /// Bytes that aren't JSON, by the reading of `serde_json`.
    NotJson,
    /// JSON that is no object with `"request":"sender data"` and an array `data`.
    Other,
    /// What is gathered of the asked values, one for each element of `data`, in order.
    Values(T),
}
