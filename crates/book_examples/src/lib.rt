//! Worked examples of `book`: its rings, also across threads, and of the cache of values that its threads share. A crate with tests is proved twice, so these stand here.
#![tactic(auto)]

#[cfg(test)]
mod cached;
#[cfg(test)]
mod rings;
