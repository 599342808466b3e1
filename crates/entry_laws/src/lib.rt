//! The laws of entries as clauses: what the definitions of the crate `entry_step` come to.
//!
//! The module `laws` has the laws of order: an entry's records and changes depend on its foot alone, and an entry that
//! conflicts with no later one joins in its place. There too stand what a log leaves for the entries behind it, that the
//! steps of an action rise (`specs/Rising.antt`), and what a step remembers, as a search of the log finds it
//! (`specs/Previous.antt`). The module `whole_logs` has the laws of logs whose configuration changes
//! (`specs/Remembered.antt`, `specs/FirstConfig.antt`).
//!
//! Its functions do nothing: each stands for its clause. Crates above cite the lemmas of `proofs`.
#![tactic(auto)]

pub mod laws;
pub mod whole_logs;
