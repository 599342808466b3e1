//! Worked examples of whole runs: over scripts, over what crashes leave, and beside history syncers. A crate with tests is proved
//! twice, so those of `server_run` stand here. The cases of a test are lines of one text, since a proof pays for each assertion
//! and for each value that lives over a way out.
#![tactic(auto)]

#[cfg(test)]
mod crashes;
#[cfg(test)]
mod reloads;
#[cfg(test)]
mod rows;
#[cfg(test)]
mod runs;
#[cfg(test)]
mod syncers;
