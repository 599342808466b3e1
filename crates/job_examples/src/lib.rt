//! Worked examples of the jobs beside the server's run. A crate with tests is proved twice, so those of `server_jobs`,
//! `alert_queue` and `alert_media` stand here.
#![tactic(auto)]

#[cfg(test)]
mod alerts;
#[cfg(test)]
mod media;
#[cfg(test)]
mod queues;
#[cfg(test)]
mod refusing;
#[cfg(test)]
mod sessions;
