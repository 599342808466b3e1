//! Worked examples of sessions that try notes at the same time. A crate with tests is proved twice, so those of
//! `alert_sessions` stand here.
#![tactic(auto)]

#[cfg(test)]
mod meeting;
#[cfg(test)]
mod sessions;
