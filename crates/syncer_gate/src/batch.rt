//! Batches.

use zbx_types::Many;

/// A batch: entries that one syncer works on.
#[derive(Drop)]
pub struct Batch {
    /// Its id. No two batches of the same claims have one id.
    pub id: u64,
    /// The numbers of its entries, rising.
    pub numbers: Many<u64>,
}
